//! What a response does to its client request and to the held dialogs, and what is told.

ghost use Rattle.std.specs.Prelude.{◌≡◌, ◌≤◌, ◌^◌, IfOk, OnOk, None, Some};
ghost use Rattle.sip_clients.specs.Replied as spec;

use crate::answers::SentAck;
use crate::client::{Client, RequestKind};
use crate::dialogs::{accept, end_with, hear, hold, made_dialog};
use crate::outputs::{ClientChange, ack_said, direct, request_said, response_notice};
use crate::pending::add_pending;
use crate::reply::{ReceivedResponse, ReplyCase, is_last, reply_case};
use crate::send_outcome::SendOutcome;
use sip_held_dialogs::{Dialogs, HeldDialog, PendingRequest};
use sip_message::{Content, Message};
use sip_text::Text;
use sip_timers::LIFETIME;
use sip_user::CallOut;
use sip_user::outputs::one;
use std::alloc::{AllocError, Global};

/// The status of a response to a request for what isn't there (RFC 3261, section 12.2.1.2).
const NOT_THERE: u16 = 481;

/// The status of a response that says that a request timed out.
const TIMED_OUT: u16 = 408;

/// What a response does.
pub(crate) fn take_reply(
    alloc: Global,
    client: &mut Client,
    dialogs: &mut Dialogs,
    reply: &ReceivedResponse,
) -> Result<(Vec<CallOut>, ClientChange), AllocError>
    requires { reply.now.event.moment ≤ 2 ^ 62 }
    ensures { IfOk result (λ told. (client.new, dialogs.new.entries, told.0.items, told.1)
        ≡ spec.reply_taken client.old dialogs.old.entries reply.now) }
{
    if is_last(&client.kind, reply.status.code()) {
        return finish(alloc, client, dialogs, reply);
    }
    match dialogs.all.get_mut(&reply.name) {
        Some(held) => take_in(alloc, client, held, reply),
        None => take_new(alloc, client, dialogs, reply),
    }
}

// A response whose dialog is held.
fn take_in(
    alloc: Global,
    client: &mut Client,
    held: &mut HeldDialog,
    reply: &ReceivedResponse,
) -> Result<(Vec<CallOut>, ClientChange), AllocError>
    requires { reply.now.event.moment ≤ 2 ^ 62 }
    ensures told { IfOk result (λ told. (client.new, held.new, told.0.items, told.1)
        ≡ spec.in_place held.old
        (spec.replied_in client.old (Some held.old) reply.now)) }
    ensures same_invite { held.new.invite ≡ held.old.invite }
{
    match reply_case(client, Some(&*held), reply) {
        ReplyCase::Repeated => repeat(alloc, client, reply),
        ReplyCase::Accepted => {
            accept(held, &client.kind, &reply.response)?;
            accepted(alloc, client, held, reply)
        }
        ReplyCase::Late => late(alloc, client, reply),
        ReplyCase::Reliable(rseq) => reliable(alloc, client, held, reply, rseq),
        ReplyCase::Passed => Ok((Vec::new(alloc), ClientChange::Stays)),
        ReplyCase::Early | ReplyCase::Told => told(alloc, reply),
    }
}

// A response whose dialog isn't held. It makes the dialog, if it is of one.
fn take_new(
    alloc: Global,
    client: &mut Client,
    dialogs: &mut Dialogs,
    reply: &ReceivedResponse,
) -> Result<(Vec<CallOut>, ClientChange), AllocError>
    requires { reply.now.event.moment ≤ 2 ^ 62 }
    ensures { IfOk result (λ told. (client.new, dialogs.new.entries, told.0.items, told.1)
        ≡ spec.after_dialog reply.now.name dialogs.old.entries
        (spec.replied_in client.old None reply.now)) }
{
    match reply_case(client, None, reply) {
        ReplyCase::Repeated => repeat(alloc, client, reply),
        ReplyCase::Accepted => {
            let mut made = made_dialog(alloc, client, reply)?;
            let told = accepted(alloc, client, &mut made, reply)?;
            hold(dialogs, reply.name.clone()?, made)?;
            Ok(told)
        }
        ReplyCase::Late => late(alloc, client, reply),
        ReplyCase::Reliable(rseq) => {
            let mut made = made_dialog(alloc, client, reply)?;
            let told = reliable(alloc, client, &mut made, reply, rseq)?;
            hold(dialogs, reply.name.clone()?, made)?;
            Ok(told)
        }
        ReplyCase::Passed => Ok((Vec::new(alloc), ClientChange::Stays)),
        ReplyCase::Early => {
            let made = made_dialog(alloc, client, reply)?;
            hold(dialogs, reply.name.clone()?, made)?;
            told(alloc, reply)
        }
        ReplyCase::Told => told(alloc, reply),
    }
}

fn told(alloc: Global, reply: &ReceivedResponse) -> Result<(Vec<CallOut>, ClientChange), AllocError>
    ensures outs { IfOk result (λ told. told.0.items ≡ spec.notice reply.now) }
    ensures change { IfOk result (λ told. told.1 ≡ ClientChange.Stays) }
{
    Ok((
        one(alloc, response_notice(alloc, reply)?)?,
        ClientChange::Stays,
    ))
}

// The last response: the request is over, and what ends with it ends.
fn finish(
    alloc: Global,
    client: &Client,
    dialogs: &mut Dialogs,
    reply: &ReceivedResponse,
) -> Result<(Vec<CallOut>, ClientChange), AllocError>
    ensures { IfOk result (λ told. (client.now, dialogs.new.entries, told.0.items, told.1)
        ≡ spec.request_over client.now dialogs.old.entries reply.now) }
{
    let mut outs = one(alloc, response_notice(alloc, reply)?)?;
    let ends = ends_dialog(reply.status.code());
    outs.append(&mut end_with(alloc, dialogs, client, ends)?)?;
    Ok((outs, ClientChange::Over))
}

fn ends_dialog(status: u16) -> bool
    ensures { result ≡ spec.ends_dialog status }
{
    status == NOT_THERE || status == TIMED_OUT
}

// A retransmitted 2xx gets the same ACK again.
fn repeat(
    alloc: Global,
    client: &Client,
    reply: &ReceivedResponse,
) -> Result<(Vec<CallOut>, ClientChange), AllocError>
    ensures outs { IfOk result (λ told. told.0.items ≡ spec.ack_again client.now reply.now) }
    ensures change { IfOk result (λ told. told.1 ≡ ClientChange.Stays) }
{
    let mut outs = Vec::new(alloc);
    if let Some(ack) = client.answers.ack(&reply.name) {
        outs.push(direct(ack)?)?;
    }
    Ok((outs, ClientChange::Stays))
}

// ---- a reliable provisional response

fn reliable(
    alloc: Global,
    client: &mut Client,
    held: &mut HeldDialog,
    reply: &ReceivedResponse,
    rseq: u32,
) -> Result<(Vec<CallOut>, ClientChange), AllocError>
    ensures told { IfOk result (λ told. (client.new, Some held.new, told.0.items, told.1)
        ≡ spec.reliable rseq client.old held.old reply.now) }
    ensures same_invite { held.new.invite ≡ held.old.invite }
{
    let outcome = owe_prack(alloc, client, held, reply, rseq)?;
    hear_again(client, rseq);
    told_of_prack(alloc, reply, outcome)
}

fn told_of_prack(
    alloc: Global,
    reply: &ReceivedResponse,
    outcome: SendOutcome,
) -> Result<(Vec<CallOut>, ClientChange), AllocError>
    ensures outs { IfOk result (λ told. told.0.items ≡ (spec.told_of_prack reply.now outcome).0) }
    ensures change { IfOk result (λ told. told.1 ≡ (spec.told_of_prack reply.now outcome).1) }
{
    let mut outs = one(alloc, response_notice(alloc, reply)?)?;
    let mut said = request_said(alloc, reply.event, &reply.call_id, &reply.name, outcome)?;
    outs.append(&mut said.0)?;
    Ok((outs, said.1))
}

// The PRACK of a response is owed in its dialog, or sent.
#[tactic(auto, unfolding(crate::specs::Replied::prack_owed))]
fn owe_prack(
    alloc: Global,
    client: &Client,
    held: &mut HeldDialog,
    reply: &ReceivedResponse,
    rseq: u32,
) -> Result<SendOutcome, AllocError>
    ensures outcome { IfOk result (λ outcome. outcome
        ≡ (spec.prack_owed rseq client.now held.old reply.now).1) }
    ensures held { OnOk result (held.new
        ≡ (spec.prack_owed rseq client.now held.old reply.now).0) }
    ensures same_invite { held.new.invite ≡ held.old.invite }
{
    hear_first(held, &client.kind, rseq);
    let pending = PendingRequest::Prack {
        rseq,
        number: client.request.cseq.number,
    };
    let offer = automatic_body(alloc, client, &reply.response);
    add_pending(alloc, held, reply.event, pending, offer)
}

// The dialog of a first INVITE keeps the RSeq that came in it.
fn hear_first(held: &mut HeldDialog, kind: &RequestKind, rseq: u32)
    ensures { held.new ≡ spec.heard_first kind.now rseq held.old }
{
    match kind {
        RequestKind::InitialInvite => hear(held, rseq),
        RequestKind::ReInvite(_) | RequestKind::InDialog(_) | RequestKind::OutOfDialog => {}
    }
}

// An INVITE in a dialog keeps its own latest RSeq.
fn hear_again(client: &mut Client, rseq: u32)
    ensures { client.new ≡ spec.heard_again client.old.kind rseq client.old }
{
    match &client.kind {
        RequestKind::InitialInvite => {}
        RequestKind::ReInvite(_) | RequestKind::InDialog(_) | RequestKind::OutOfDialog => {
            let _ = client.last_rseq.offer(rseq);
        }
    }
}

// The content of what a response asks for: without a body if the INVITE had an offer or the
// response has no body. Otherwise it must be the answer to the offer in the response, which the
// user gives (RFC 3261, section 13.2.1; RFC 3262, section 5).
fn automatic_body(alloc: Global, client: &Client, response: &Message) -> Option<Content>
    ensures { result ≡ spec.automatic_body client.now response.now }
{
    if !client.request.body.is_empty() || response.body.is_empty() {
        let no_body = Text::from_vec(Vec::new(alloc));
        Some(Content::of_body(no_body))
    } else {
        None
    }
}

// ---- the first 2xx of a dialog

fn accepted(
    alloc: Global,
    client: &mut Client,
    held: &mut HeldDialog,
    reply: &ReceivedResponse,
) -> Result<(Vec<CallOut>, ClientChange), AllocError>
    requires { reply.now.event.moment ≤ 2 ^ 62 }
    ensures told { IfOk result (λ told. (client.new, Some held.new, told.0.items, told.1)
        ≡ spec.accepted_by_ack client.old held.old reply.now) }
    ensures same_invite { held.new.invite ≡ held.old.invite }
{
    let outcome = owe_ack(alloc, client, held, reply)?;
    let (outs, ack) = told_of_ack(alloc, reply, outcome)?;
    note_answer(client, reply, ack)?;
    Ok((outs, ClientChange::Stays))
}

// The ACK of a 2xx is owed in its dialog, or sent.
#[tactic(auto, unfolding(crate::specs::Replied::ack_owed))]
fn owe_ack(
    alloc: Global,
    client: &Client,
    held: &mut HeldDialog,
    reply: &ReceivedResponse,
) -> Result<SendOutcome, AllocError>
    ensures outcome { IfOk result (λ outcome. outcome
        ≡ (spec.ack_owed client.now held.old reply.now).1) }
    ensures held { OnOk result (held.new ≡ (spec.ack_owed client.now held.old reply.now).0) }
    ensures same_invite { held.new.invite ≡ held.old.invite }
{
    let pending = PendingRequest::Ack {
        invite: client.id,
        number: client.request.cseq.number,
    };
    let offer = automatic_body(alloc, client, &reply.response);
    add_pending(alloc, held, reply.event, pending, offer)
}

fn told_of_ack(
    alloc: Global,
    reply: &ReceivedResponse,
    outcome: SendOutcome,
) -> Result<(Vec<CallOut>, Option<SentAck>), AllocError>
    ensures outs { IfOk result (λ told. told.0.items ≡ (spec.told_of_ack reply.now outcome).0) }
    ensures ack { IfOk result (λ told. told.1 ≡ (spec.told_of_ack reply.now outcome).1) }
{
    let mut outs = one(alloc, response_notice(alloc, reply)?)?;
    let mut said = ack_said(alloc, reply.event, &reply.call_id, outcome)?;
    outs.append(&mut said.0)?;
    Ok((outs, said.1))
}

fn late(
    alloc: Global,
    client: &mut Client,
    reply: &ReceivedResponse,
) -> Result<(Vec<CallOut>, ClientChange), AllocError>
    requires { reply.now.event.moment ≤ 2 ^ 62 }
    ensures client { OnOk result (client.new ≡ spec.held_after_success reply.now None client.old) }
    ensures outs { IfOk result (λ told. told.0.items ≡ spec.notice reply.now) }
    ensures change { IfOk result (λ told. told.1 ≡ ClientChange.Stays) }
{
    note_answer(client, reply, None)?;
    told(alloc, reply)
}

// The INVITE is held for 64*T1 after its first 2xx (RFC 6026, section 7.2).
fn note_answer(
    client: &mut Client,
    reply: &ReceivedResponse,
    ack: Option<SentAck>,
) -> Result<(), AllocError>
    requires { reply.now.event.moment ≤ 2 ^ 62 }
    ensures { OnOk result (client.new ≡ spec.held_after_success reply.now ack client.old) }
{
    client.answers.note(reply.name.clone()?, ack)?;
    client.removal = Some(
        client
            .removal
            .unwrap_or(reply.event.moment + u64::from(LIFETIME)),
    );
    Ok(())
}
