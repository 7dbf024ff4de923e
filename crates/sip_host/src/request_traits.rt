//! What a request says of itself, and its notice doesn't.

ghost use Rattle.std.specs.Prelude.{◌≡◌, Err, IfOk, None};
ghost use Rattle.sip_host.specs.Traits as spec;
ghost use Rattle.sip_message.specs.declared.message.Message.{Message as AMessage};
ghost use Rattle.sip_reader.specs.Spells.{Answers};

use sip_held_dialogs::request::{has_to_tag, requires_100rel, supports_100rel};
use sip_message::{Message, ReadFault};
use sip_reader::read;
use std::alloc::{AllocError, Global};

/// What a request says of itself.
#[derive(Clone, Copy)]
pub struct RequestTraits {
    /// It has a To tag, and so was sent in a dialog: an INVITE is a re-INVITE (RFC 3261, section
    /// 12.2.2).
    pub is_in_dialog: bool,
    /// `100rel` is in its Supported or its Require: a provisional response may be reliable (RFC
    /// 3262, section 3).
    pub supports_100rel: bool,
    /// `100rel` is in its Require: each provisional response but 100 is reliable.
    pub requires_100rel: bool,
}

/// The traits of the request that a datagram is. None if it is none.
///
/// # Errors
///
/// Memory ran out.
pub(crate) fn traits_in(alloc: Global, bytes: &[u8]) -> Result<Option<RequestTraits>, AllocError>
    ensures { IfOk result (spec.TellsTraits bytes.now) }
{
    match read(alloc, bytes) {
        Ok(message) => Ok(traits_of(&message)),
        Err(fault) => no_traits(fault),
    }
}

fn traits_of(message: &Message) -> Option<RequestTraits>
    ensures { result ≡ spec.traits_of message.now }
{
    if !message.is_request() {
        return None;
    }
    Some(RequestTraits {
        is_in_dialog: has_to_tag(message),
        supports_100rel: supports_100rel(message),
        requires_100rel: requires_100rel(message),
    })
}

// What couldn't be read has no traits, unless that was for want of memory.
fn no_traits(fault: ReadFault) -> Result<Option<RequestTraits>, AllocError>
    ensures { IfOk result (λ traits. (traits ≡ None)
        × ((message : AMessage) → ¬ Answers (Err fault) message)) }
{
    match fault {
        ReadFault::NoMemory => Err(AllocError),
        _ => Ok(None),
    }
}
