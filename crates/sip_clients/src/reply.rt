//! A response to a held client request: which case it is.

ghost use Rattle.std.specs.Prelude.{◌≡◌, IfOk};
ghost use Rattle.std.specs.Option.{is_some, option_copied};
ghost use Rattle.sip_reliable.specs.Inbound.{offered};
ghost use Rattle.sip_clients.specs.Clients.{reply_name, status_of};
ghost use Rattle.sip_clients.specs.ReceivedResponse as spec;

use crate::client::{Client, RequestKind};
use crate::event::Event;
use sip_held_dialogs::request::{has_to_tag, is_final, is_success, requires_100rel};
use sip_held_dialogs::{DialogId, HeldDialog};
use sip_message::{CallId, Id, Message, StartLine, StatusCode};
use sip_reliable::{Inbound, Offer};
use std::alloc::{AllocError, Global};

/// The status of a response that only says that the request arrived.
const TRYING: u16 = 100;

/// A response that came up.
pub(crate) struct ReceivedResponse {
    pub(crate) event: Event,
    /// The request that it answers.
    pub(crate) id: Id,
    pub(crate) call_id: CallId,
    /// The name of the dialog that it makes, or that its request was sent in.
    pub(crate) name: DialogId,
    pub(crate) status: StatusCode,
    pub(crate) response: Message,
}

impl Drop for ReceivedResponse {
    fn drop(self) {
        let ReceivedResponse {
            event: _,
            id: _,
            call_id: _,
            name: _,
            status: _,
            response: _,
        } = self;
    }
}

/// The status of a response; a request has none.
pub(crate) fn status_of(response: &Message) -> Option<StatusCode>
    ensures { result ≡ status_of response.now.start }
{
    match &response.start {
        StartLine::Request { .. } => None,
        StartLine::Response { status, .. } => Some(*status),
    }
}

/// The name of the dialog that a response makes, or that its request was sent in.
pub(crate) fn reply_name(
    alloc: Global,
    client: &Client,
    response: &Message,
) -> Result<DialogId, AllocError>
    ensures { IfOk result (λ name. name ≡ reply_name client.now.kind client.now response.now) }
{
    match &client.kind {
        RequestKind::InitialInvite | RequestKind::OutOfDialog => {
            DialogId::of_tags(alloc, client.request.from.tag(), response.to.tag())
        }
        RequestKind::ReInvite(life) | RequestKind::InDialog(life) => life.name.clone(),
    }
}

/// The cases of a response to a held client request that isn't the last (RFC 3261, sections
/// 12.2.1.2, 13.2.2 and 17.1; RFC 3262, section 4).
#[derive(Clone, Copy)]
pub(crate) enum ReplyCase {
    /// A retransmitted 2xx to an INVITE.
    Repeated,
    /// The first 2xx of a dialog, to an INVITE.
    Accepted,
    /// The first 2xx to a re-INVITE whose dialog has ended.
    Late,
    /// A reliable provisional response that is the next of its dialog, with its RSeq.
    Reliable(u32),
    /// A reliable provisional response that is a retransmission or out of order: it is dropped.
    Passed,
    /// Another provisional response of a dialog.
    Early,
    /// A provisional response of no dialog.
    Told,
}

/// Whether a response is the last one of its request: final, but no 2xx to an INVITE.
pub(crate) fn is_last(kind: &RequestKind, status: u16) -> bool
    ensures { result ≡ spec.is_last kind.now status }
{
    is_final(status) && !(is_invite_kind(kind) && is_success(status))
}

/// The first case that fits, by the held dialog of its name.
pub(crate) fn reply_case(
    client: &Client,
    found: Option<&HeldDialog>,
    reply: &ReceivedResponse,
) -> ReplyCase
    ensures { result ≡ spec.reply_case client.now (option_copied found.entry) reply.now }
{
    if is_final(reply.status.code()) {
        return success_case(client, found, &reply.name);
    }
    if makes_or_confirms_dialog(reply) && has_dialog(&client.kind, found) {
        return reliable_case(heard_of(client, found), rseq_of(&reply.response));
    }
    ReplyCase::Told
}

fn success_case(client: &Client, found: Option<&HeldDialog>, name: &DialogId) -> ReplyCase
    ensures { result ≡ spec.success_case client.now (option_copied found.entry) name.now }
{
    if client.answers.contains(name) {
        ReplyCase::Repeated
    } else if has_dialog(&client.kind, found) {
        ReplyCase::Accepted
    } else {
        ReplyCase::Late
    }
}

fn reliable_case(last_rseq: Inbound, rseq: Option<u32>) -> ReplyCase
    ensures { result ≡ spec.reliable_case last_rseq rseq }
{
    let Some(rseq) = rseq else {
        return ReplyCase::Early;
    };
    let mut last_rseq = last_rseq;
    match last_rseq.offer(rseq) {
        Offer::Taken => ReplyCase::Reliable(rseq),
        Offer::Repeat | Offer::Gap => ReplyCase::Passed,
    }
}

/// Whether a request is an INVITE.
pub(crate) fn is_invite_kind(kind: &RequestKind) -> bool
    ensures { result ≡ spec.is_invite_kind kind.now }
{
    match kind {
        RequestKind::InitialInvite | RequestKind::ReInvite(_) => true,
        RequestKind::InDialog(_) | RequestKind::OutOfDialog => false,
    }
}

// Whether the dialog of an INVITE is there, or may be made.
fn has_dialog(kind: &RequestKind, found: Option<&HeldDialog>) -> bool
    ensures { result ≡ spec.has_dialog kind.now (option_copied found.entry) }
{
    match (kind, found) {
        (RequestKind::InitialInvite, _) => true,
        (RequestKind::ReInvite(life), Some(held)) => held.created_by == life.created_by,
        (RequestKind::ReInvite(_), None)
        | (RequestKind::InDialog(_) | RequestKind::OutOfDialog, _) => false,
    }
}

// The latest RSeq that came in the same dialog to the same INVITE.
fn heard_of(client: &Client, found: Option<&HeldDialog>) -> Inbound
    ensures { result ≡ spec.heard_of client.now.kind client.now (option_copied found.entry) }
{
    match (&client.kind, found) {
        (RequestKind::InitialInvite, Some(held)) => held.last_rseq,
        (RequestKind::InitialInvite, None) => Inbound::new(),
        (RequestKind::ReInvite(_) | RequestKind::InDialog(_) | RequestKind::OutOfDialog, _) =>
            client.last_rseq,
    }
}

// The RSeq of a reliable provisional response.
fn rseq_of(response: &Message) -> Option<u32>
    ensures { result ≡ spec.rseq_of response.now }
{
    if requires_100rel(response) {
        response.rseq
    } else {
        None
    }
}

fn makes_or_confirms_dialog(reply: &ReceivedResponse) -> bool
    ensures { result ≡ spec.is_dialog_response reply.now }
{
    reply.status.code() != TRYING && has_to_tag(&reply.response)
}
