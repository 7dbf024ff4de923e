//! What is owed in a dialog, and how it is sent.

ghost use Rattle.std.specs.Prelude.{◌≡◌, IfOk, OnOk, filter, find, not};
ghost use Rattle.std.specs.Option.{option_copied};
ghost use Rattle.sip_clients.specs.Pending as spec;

use crate::event::Event;
use crate::send_outcome::{SendOutcome, discharge};
use sip_held_dialogs::{HeldDialog, PendingRequest};
use sip_message::Content;
use sip_text::Series;
use std::alloc::{AllocError, Global};
use std::mem;

/// What may be owed: an ACK or a PRACK.
#[derive(Clone, Copy)]
pub(crate) enum PendingKind {
    Ack,
    Prack,
}

/// Sends what a response asks for. It stays owed if it isn't sent.
#[tactic(auto, unfolding(crate::specs::Pending::kept_pending))]
pub(crate) fn add_pending(
    alloc: Global,
    held: &mut HeldDialog,
    event: Event,
    pending: PendingRequest,
    offer: Option<Content>,
) -> Result<SendOutcome, AllocError>
    ensures outcome { IfOk result (λ outcome. outcome
        ≡ (spec.kept_pending event pending offer held.old).1) }
    ensures held { OnOk result (held.new ≡ (spec.kept_pending event pending offer held.old).0) }
    ensures same_invite { held.new.invite ≡ held.old.invite }
{
    let outcome = discharge(alloc, held, event, pending, offer)?;
    keep_unless_sent(held, pending, &outcome)?;
    Ok(outcome)
}

fn keep_unless_sent(
    held: &mut HeldDialog,
    pending: PendingRequest,
    outcome: &SendOutcome,
) -> Result<(), AllocError>
    ensures held { OnOk result (held.new ≡ spec.kept_unless_sent pending outcome.now held.old) }
    ensures same_invite { held.new.invite ≡ held.old.invite }
{
    match outcome {
        SendOutcome::Sent(_) => Ok(()),
        SendOutcome::Waits | SendOutcome::Refused(_) => held.pending_requests.push(pending),
    }
}

/// Sends what is owed, as the user's command asks. If it is sent, it is no longer owed.
#[tactic(auto, unfolding(crate::specs::Pending::sent_pending))]
pub(crate) fn send_pending(
    alloc: Global,
    held: &mut HeldDialog,
    event: Event,
    pending: PendingRequest,
    content: Content,
) -> Result<SendOutcome, AllocError>
    ensures outcome { IfOk result (λ outcome. outcome
        ≡ (spec.sent_pending event pending content held.old).1) }
    ensures held { OnOk result (held.new ≡ (spec.sent_pending event pending content held.old).0) }
    ensures same_invite { held.new.invite ≡ held.old.invite }
{
    let outcome = discharge(alloc, held, event, pending, Some(content))?;
    drop_if_sent(alloc, held, pending, &outcome);
    Ok(outcome)
}

fn drop_if_sent(
    alloc: Global,
    held: &mut HeldDialog,
    pending: PendingRequest,
    outcome: &SendOutcome,
)
    ensures { held.new ≡ spec.dropped_if_sent pending outcome.now held.old }
{
    match outcome {
        SendOutcome::Sent(_) => remove_pending(alloc, held, pending),
        SendOutcome::Waits | SendOutcome::Refused(_) => {}
    }
}

fn remove_pending(alloc: Global, held: &mut HeldDialog, pending: PendingRequest)
    ensures { held.new ≡ spec.without_pending pending held.old }
{
    let mut pending_requests = mem::replace(
        &mut held.pending_requests,
        Series::new(alloc),
    ).into_vec();
    remove(&mut pending_requests, pending);
    held.pending_requests = Series::from_vec(pending_requests);
}

fn remove(pending_requests: &mut Vec<PendingRequest>, pending: PendingRequest)
    ensures { pending_requests.new.items ≡ filter (λ other. not
        (spec.is_same_pending pending other)) pending_requests.old.items }
{
    pending_requests.retain(|other| !is_same(pending, *other));
}

fn is_same(pending: PendingRequest, other: PendingRequest) -> bool
    ensures { result ≡ spec.is_same_pending pending other }
{
    match (pending, other) {
        (
            PendingRequest::Ack { invite, number },
            PendingRequest::Ack {
                invite: other_invite,
                number: other_number,
            },
        ) => invite == other_invite && number == other_number,
        (
            PendingRequest::Prack { rseq, number },
            PendingRequest::Prack {
                rseq: other_rseq,
                number: other_number,
            },
        ) => rseq == other_rseq && number == other_number,
        (PendingRequest::Ack { .. }, PendingRequest::Prack { .. })
        | (PendingRequest::Prack { .. }, PendingRequest::Ack { .. }) => false,
    }
}

/// The oldest one of a kind that is owed.
pub(crate) fn oldest(
    pending_requests: &[PendingRequest],
    kind: PendingKind,
) -> Option<&PendingRequest>
    ensures { option_copied result ≡ find (spec.is_of kind) pending_requests.now }
{
    pending_requests
        .iter()
        .find(|pending| is_of(kind, **pending))
}

fn is_of(kind: PendingKind, pending: PendingRequest) -> bool
    ensures { result ≡ spec.is_of kind pending }
{
    match (kind, pending) {
        (PendingKind::Ack, PendingRequest::Ack { .. })
        | (PendingKind::Prack, PendingRequest::Prack { .. }) => true,
        (PendingKind::Ack, PendingRequest::Prack { .. })
        | (PendingKind::Prack, PendingRequest::Ack { .. }) => false,
    }
}
