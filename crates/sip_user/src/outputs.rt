//! Lists of what a call gives.

ghost use Rattle.std.specs.Prelude.{◌≡◌, ◌∷◌, ◌++◌, [], IfOk};
ghost use Rattle.sip_user.specs.declared.item.CallOut.TheVariants as call_out;
ghost use Rattle.sip_user.specs.Notices as spec;

use crate::item::CallOut;
use crate::notice::Notice;
use crate::refusal::Refusal;
use sip_message::{CallId, Id};
use std::alloc::{AllocError, Global};

/// One output.
pub fn one(alloc: Global, out: CallOut) -> Result<Vec<CallOut>, AllocError>
    ensures { IfOk result (λ outs. outs.items ≡ out ∷ []) }
{
    let mut outs = Vec::with_capacity(alloc, 1)?;
    outs.push(out)?;
    Ok(outs)
}

/// The first outputs, and after them the later ones.
pub fn joined(mut first: Vec<CallOut>, mut later: Vec<CallOut>) -> Result<Vec<CallOut>, AllocError>
    ensures { IfOk result (λ outs. outs.items ≡ first.items ++ later.items) }
{
    first.append(&mut later)?;
    Ok(first)
}

/// One notice.
pub fn tell(alloc: Global, notice: Notice) -> Result<Vec<CallOut>, AllocError>
    ensures { IfOk result (λ outs. outs.items ≡ call_out.Notice notice ∷ []) }
{
    one(alloc, CallOut::Notice(notice))
}

/// The notice that the command of this event is refused.
pub fn refused(
    alloc: Global,
    event: Id,
    call_id: CallId,
    refusal: Refusal,
) -> Result<Vec<CallOut>, AllocError>
    ensures { IfOk result (λ outs. outs.items ≡ spec.refused event call_id refusal) }
{
    tell(
        alloc,
        Notice::Refused {
            call_id,
            place: event.place,
            refusal,
        },
    )
}
