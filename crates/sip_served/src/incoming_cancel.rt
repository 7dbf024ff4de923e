//! A CANCEL that comes up (RFC 3261, section 9.2).

ghost use Rattle.std.specs.Prelude.{◌≡◌, IfOk};
ghost use Rattle.std.specs.Option.{option_copied};
ghost use Rattle.sip_served.specs.Cancel as spec;

use crate::arrival::Arrival;
use crate::held_request::HeldRequest;
use crate::outputs::{command_for, ok_with_tag};
use sip_held_dialogs::request::is_invite;
use sip_message::{CallId, Key, Message, Reason, StatusCode, response_to};
use sip_user::outputs::one;
use sip_user::{CallOut, Notice};
use std::alloc::{AllocError, Global};

/// The status of the final response to an INVITE that is cancelled.
pub(crate) const REQUEST_TERMINATED: u16 = 487;

/// The held request that a CANCEL names; if there are several, the last that came up.
pub(crate) fn cancelled_request<'a>(
    requests: &'a [HeldRequest],
    cancel: &Key,
) -> Option<&'a HeldRequest>
    ensures { option_copied result ≡ spec.cancelled_request cancel.now requests.now }
{
    requests
        .iter()
        .rev()
        .find(|held| is_same_branch(cancel, held.key.get()))
}

// Whether the keys of two requests have the same branch and sent-by.
fn is_same_branch(one: &Key, other: &Key) -> bool
    ensures { result ≡ spec.is_same_branch one.now other.now }
{
    match (one, other) {
        (
            Key::Server {
                branch,
                sent_by,
                ..
            },
            Key::Server {
                branch: other_branch,
                sent_by: other_sent_by,
                ..
            },
        ) => {
            *branch == *other_branch
                && sent_by.host == other_sent_by.host
                && sent_by.port == other_sent_by.port
        }
        _ => false,
    }
}

/// Whether a held request is an INVITE without a final response.
pub(crate) fn is_unanswered_invite(held: &HeldRequest) -> bool
    ensures { result ≡ spec.is_unanswered_invite held.now }
{
    is_invite(held.request.get()) && held.removal.is_none()
}

/// The 200 to a CANCEL, with the tag of the request that it names.
pub(crate) fn cancel_accepted(
    alloc: Global,
    arrival: &Arrival,
    held: &HeldRequest,
) -> Result<CallOut, AllocError>
    ensures { IfOk result (λ out. out ≡ spec.cancel_accepted arrival.now held.now) }
{
    ok_with_tag(alloc, arrival, &held.tag)
}

/// The 487 to an INVITE that a CANCEL names.
pub(crate) fn request_terminated(alloc: Global, held: &HeldRequest) -> Result<Message, AllocError>
    ensures { IfOk result (λ response. response ≡ spec.request_terminated held.now) }
{
    let status = StatusCode::from_code(REQUEST_TERMINATED);
    let reason = Reason::copy_of(alloc, b"Request Terminated")?;
    response_to(alloc, held.request.get(), status, reason, &held.tag)
}

/// The outputs for a CANCEL of an INVITE without a final response: both are answered, and the user
/// is told.
pub(crate) fn termination_told(
    alloc: Global,
    call_id: CallId,
    arrival: &Arrival,
    held: &HeldRequest,
    response: &Message,
) -> Result<Vec<CallOut>, AllocError>
    ensures { IfOk result (λ outs. outs.items
        ≡ spec.termination_told call_id arrival.now held.now response.now) }
{
    let mut outs = one(alloc, cancel_accepted(alloc, arrival, held)?)?;
    outs.push(command_for(alloc, held.id, &held.key, response.clone()?)?)?;
    outs.push(CallOut::Notice(Notice::Cancel {
        call_id,
        id: held.id,
    }))?;
    Ok(outs)
}
