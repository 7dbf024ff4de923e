//! A request that comes up, and which case it is.

ghost use Rattle.std.specs.Prelude.{◌≡◌, true, ◌&&◌, IfOk, find, option_map};
ghost use Rattle.std.specs.List.{list_any};
ghost use Rattle.std.specs.Option.{option_copied};
ghost use Rattle.sip_served.specs.Arrival as arrival;
ghost use Rattle.sip_held_dialogs.specs.Requests.{has_to_tag, is_unknown_option};

use crate::held_request::HeldRequest;
use crate::held_requests::HeldRequests;
use sip_held_dialogs::dialogs::takes;
use sip_held_dialogs::request::{is_invite, is_prack, is_unknown_option};
use sip_held_dialogs::{DialogId, Dialogs};
use sip_message::{Addr, Id, Message, RAck, SharedKey, Token};
use sip_text::{Boxed, token_eq};
use std::alloc::AllocError;

/// A request that comes up.
#[derive(Drop)]
pub struct Arrival {
    pub id: Id,
    /// The key of its transaction.
    pub key: SharedKey,
    pub request: Boxed<Message>,
    /// The address of its answers.
    pub reply_to: Addr,
    /// The To tag of its answers: its own, or a made one if it has none.
    pub tag: Token,
}

/// The cases of a request that comes up, other than a CANCEL (RFC 3261, sections 8.2 and 12.2.2).
#[derive(Clone, Copy)]
pub(crate) enum ArrivalCase {
    /// The same request is already held: it came by another path.
    Merged,
    /// It requires an option that the agent doesn't know.
    BadExtension,
    /// It is for a dialog that isn't held.
    NoDialog,
    /// Its number isn't above those that came in its dialog before.
    OutOfOrder,
    /// A PRACK of the reliable provisional response with this RSeq to the INVITE with this id.
    Acknowledges(Id, u32),
    /// A PRACK that names no response that waits for one.
    AcknowledgesNothing,
    /// It is for the user.
    ForUser,
}

/// The case of a request inside of a dialog: the first that fits.
pub(crate) fn case_inside(
    requests: &HeldRequests,
    dialogs: &Dialogs,
    name: &DialogId,
    request: &Message,
) -> ArrivalCase
    requires { has_to_tag request.now ≡ true }
    ensures { result ≡ arrival.case_of requests.now dialogs.now.entries name.now request.now }
{
    if requires_unknown(request) {
        return ArrivalCase::BadExtension;
    }
    let Some(held) = dialogs.get(name) else {
        return ArrivalCase::NoDialog;
    };
    if !takes(held, request.cseq.number) {
        ArrivalCase::OutOfOrder
    } else if is_prack(request) {
        prack_case(requests, name, held.created_by, &request.rack)
    } else {
        ArrivalCase::ForUser
    }
}

fn prack_case(
    requests: &HeldRequests,
    name: &DialogId,
    created_by: Id,
    rack: &Option<RAck>,
) -> ArrivalCase
    ensures { result ≡ arrival.prack_case requests.now name.now created_by rack.now }
{
    let Some(rack) = rack else {
        return ArrivalCase::AcknowledgesNothing;
    };
    match requests.named_invite(name, created_by, rack) {
        Some(invite) => ArrivalCase::Acknowledges(invite, rack.rseq),
        None => ArrivalCase::AcknowledgesNothing,
    }
}

/// The first INVITE of the dialog with a waiting response that the RAck names.
pub(crate) fn named_invite(
    requests: &[HeldRequest],
    name: &DialogId,
    created_by: Id,
    rack: &RAck,
) -> Option<Id>
    ensures { result ≡ arrival.named_invite requests.now name.now created_by rack.now }
{
    let held = requests
        .iter()
        .find(|held| takes_prack(held, name, created_by, rack))?;
    Some(held.id)
}

/// Whether this is an INVITE of the dialog with a waiting response that the RAck names.
pub(crate) fn takes_prack(held: &HeldRequest, name: &DialogId, created_by: Id, rack: &RAck) -> bool
    ensures { result ≡ (arrival.is_in_dialog name.now created_by held.now
        && arrival.is_named_by rack.now held.now) }
{
    is_in_dialog(held, name, created_by) && is_named_by(held, rack)
}

fn is_in_dialog(held: &HeldRequest, name: &DialogId, created_by: Id) -> bool
    ensures { result ≡ arrival.is_in_dialog name.now created_by held.now }
{
    match &held.dialog {
        Some(life) => life.name == *name && life.created_by == created_by,
        None => false,
    }
}

fn is_named_by(held: &HeldRequest, rack: &RAck) -> bool
    ensures { result ≡ arrival.is_named_by rack.now held.now }
{
    is_invite(held.request.get())
        && rack.method == held.request.get().cseq.method
        && held.request.get().cseq.number == rack.cseq
        && held.ledger.waits_for(rack.rseq)
}

/// Whether the same request is already held.
pub(crate) fn merges(requests: &[HeldRequest], request: &Message) -> bool
    ensures { result ≡ list_any (arrival.is_merged request.now) requests.now }
{
    requests.iter().any(|held| is_merged(held, request))
}

fn is_merged(held: &HeldRequest, request: &Message) -> bool
    ensures { result ≡ arrival.is_merged request.now held.now }
{
    token_eq(held.request.get().from.tag(), request.from.tag())
        && held.request.get().cseq.number == request.cseq.number
        && held.request.get().cseq.method == request.cseq.method
}

/// Whether it requires an option that the agent doesn't know.
pub(crate) fn requires_unknown(request: &Message) -> bool
    ensures { result ≡ list_any is_unknown_option request.now.require }
{
    request.require.as_slice().iter().any(is_unknown_option)
}
