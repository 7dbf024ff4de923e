//! What changes a held request, other than a tick.

ghost use Rattle.std.specs.Prelude.{◌≡◌, ◌≤◌, ◌^◌, OnOk};
ghost use Rattle.sip_served.specs.Steps.Change.{after_change, moment_of};
ghost use Rattle.sip_served.specs.State.{changed_at};

use crate::acknowledgment::{end_success, prack};
use crate::held_request::{HeldRequest, SuccessEnd};
use crate::requests::place_of;
use crate::respond::{answer, finish};
use sip_message::{Id, Message};
use sip_user::Reliability;
use std::alloc::{AllocError, Global};

/// What changes a held request. Moments are in ms.
#[derive(Clone, Copy)]
pub(crate) enum Change<'a> {
    /// The ACK of its 2xx.
    Ack,
    /// The PRACK of the response with this RSeq.
    Prack {
        rseq: u32,
    },
    /// Its final response, which goes out at the moment `now`.
    FinalResponse {
        response: &'a Message,
        status: u16,
        now: u64,
    },
    /// An answer of the user, which goes out in an event at the moment `now`. If the answer makes
    /// a dialog, the request refers to it.
    Answer {
        event: Id,
        response: &'a Message,
        status: u16,
        reliability: Reliability,
        now: u64,
    },
}

/// Changes a held request.
pub(crate) fn apply(alloc: Global, held: &mut HeldRequest, change: Change) -> Result<(), AllocError>
    requires { moment_of change ≤ 2 ^ 62 }
    ensures { OnOk result (held.new ≡ after_change change.entry held.old) }
{
    match change {
        Change::Ack => {
            end_success(held, SuccessEnd::Acknowledged);
            Ok(())
        }
        Change::Prack { rseq } => {
            prack(held, rseq);
            Ok(())
        }
        Change::FinalResponse {
            response,
            status,
            now,
        } => finish(alloc, held, response, status, now),
        Change::Answer {
            event,
            response,
            status,
            reliability,
            now,
        } => answer(alloc, held, event, status, reliability, response, now),
    }
}

/// Changes the held request of this id, if there is one.
#[tactic(auto, using(std::proofs::lemmas::Option::slice_get_read))]
pub(crate) fn change_at(
    alloc: Global,
    requests: &mut Vec<HeldRequest>,
    id: Id,
    change: Change,
) -> Result<(), AllocError>
    requires { moment_of change ≤ 2 ^ 62 }
    ensures { OnOk result (requests.new.items
        ≡ changed_at id (after_change change.entry) requests.old.items) }
{
    match place_of(requests.as_slice(), id) {
        Some(index) => apply(alloc, &mut requests[index], change),
        None => Ok(()),
    }
}
