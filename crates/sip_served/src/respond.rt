//! The answer of the user to a held server request.

ghost use Rattle.std.specs.Prelude.{◌≡◌, ◌≤◌, ◌^◌, IfOk, OnOk, Some, codes};
ghost use Rattle.indexmap.specs.IndexMap.{insert_entry};
ghost use Rattle.sip_held_dialogs.specs.Dialogs.{is_dialog_id};
ghost use Rattle.sip_held_dialogs.specs.Requests.{dialog_id_of};
ghost use Rattle.sip_served.specs.RequestLife as life;
ghost use Rattle.sip_served.specs.Respond as spec;

use crate::held_request::{HeldRequest, Retransmission, Success};
use crate::provisionals::ReliableResponse;
use sip_dialog::{Dialog, own_contact};
use sip_held_dialogs::dialogs::{confirm, end_early, lives};
use sip_held_dialogs::request::{
    dialog_id_of, has_to_tag, is_final, is_invite, is_provisional, is_success, requires_100rel,
    supports_100rel,
};
use sip_held_dialogs::{DialogReference, Dialogs, HeldDialog};
use sip_message::{Addr, Id, Message, StatusCode, Token, response_to};
use sip_reliable::{Inbound, SendFault};
use sip_text::{Boxed, Series};
use sip_timers::{LIFETIME, T1};
use sip_user::{CallOut, Refusal, Reliability, Respond};
use std::alloc::{AllocError, Global};

/// The lowest status that the user may answer with.
const LEAST_STATUS: u16 = 101;

/// The highest status.
const GREATEST_STATUS: u16 = 699;

/// Why an answer to a held request is refused, if it is: the first reason that fits.
pub(crate) fn refusal_for(
    dialogs: &Dialogs,
    respond: &Respond,
    held: &HeldRequest,
) -> Option<Refusal>
    ensures first { result ≡ spec.refusal_for dialogs.now.entries respond.now held.now }
    ensures status { result ≡ None → (101 ≤ respond.now.status) × (respond.now.status ≤ 699) }
{
    if !is_user_status(respond.status) {
        Some(Refusal::BadStatus)
    } else if held.removal.is_some() {
        Some(Refusal::AlreadyFinal)
    } else if is_reliable(respond.reliability) && !may_be_reliable(held, respond.status) {
        Some(Refusal::NotSupported)
    } else if makes_or_confirms_dialog(held, respond.status) && has_ended(dialogs, held) {
        Some(Refusal::DialogEnded)
    } else {
        reliable_refusal(held, respond)
    }
}

fn is_user_status(status: u16) -> bool
    ensures { result ≡ spec.is_user_status status }
{
    LEAST_STATUS <= status && status <= GREATEST_STATUS
}

fn may_be_reliable(held: &HeldRequest, status: u16) -> bool
    ensures { result ≡ spec.may_be_reliable held.now status }
{
    is_invite(held.request.get()) && is_provisional(status) && supports_100rel(held.request.get())
}

// Whether the answer is sent reliably.
fn is_sent_reliably(held: &HeldRequest, status: u16, reliability: Reliability) -> bool
    ensures { result ≡ spec.is_sent_reliably held.now status reliability }
{
    may_be_reliable(held, status)
        && (is_reliable(reliability) || requires_100rel(held.request.get()))
}

fn is_reliable(reliability: Reliability) -> bool
    ensures { result ≡ spec.is_reliable reliability }
{
    match reliability {
        Reliability::Plain => false,
        Reliability::Reliable => true,
    }
}

/// Whether an answer of this status makes or confirms a dialog.
pub(crate) fn makes_or_confirms_dialog(held: &HeldRequest, status: u16) -> bool
    ensures { result ≡ spec.makes_or_confirms_dialog held.now status }
{
    is_invite(held.request.get()) && (is_provisional(status) || is_success(status))
}

fn has_ended(dialogs: &Dialogs, held: &HeldRequest) -> bool
    ensures { result ≡ spec.has_ended dialogs.now.entries held.now }
{
    match &held.dialog {
        Some(life) => !lives(dialogs, life),
        None => false,
    }
}

fn reliable_refusal(held: &HeldRequest, respond: &Respond) -> Option<Refusal>
    ensures { result ≡ spec.reliable_refusal held.now respond.now }
{
    if is_sent_reliably(held, respond.status, respond.reliability) {
        return held.ledger.next_number().err().map(refusal_of_fault);
    }
    if is_success(respond.status) && held.ledger.body_waits() {
        return Some(Refusal::ReliablePending);
    }
    None
}

fn refusal_of_fault(fault: SendFault) -> Refusal
    ensures { result ≡ spec.refusal_of_fault fault }
{
    match fault {
        SendFault::Closed => Refusal::AlreadyFinal,
        SendFault::NotSupported => Refusal::NotSupported,
        SendFault::Unacknowledged => Refusal::ReliablePending,
        SendFault::NumbersUsedUp => Refusal::SequenceUsedUp,
    }
}

/// The response by which a held request is answered.
pub(crate) fn answer_to(
    alloc: Global,
    local: Addr,
    held: &HeldRequest,
    respond: Respond,
) -> Result<Message, AllocError>
    requires low { 101 ≤ respond.status }
    requires high { respond.status ≤ 699 }
    ensures { IfOk result (λ response. response ≡ spec.answer_to local held.now respond) }
{
    let Respond {
        call_id: _,
        id: _,
        status,
        reliability,
        reason,
        content,
    } = respond;
    let code = StatusCode::from_code(status);
    let mut response = response_to(alloc, held.request.get(), code, reason, &held.tag)?;
    if makes_or_confirms_dialog(held, status) {
        set_routes(alloc, local, held.request.get(), &mut response)?;
    }
    if is_sent_reliably(held, status, reliability) {
        set_rseq(alloc, held.ledger.next_number().ok(), &mut response)?;
    }
    response.with_content(alloc, content)
}

fn set_routes(
    alloc: Global,
    local: Addr,
    request: &Message,
    response: &mut Message,
) -> Result<(), AllocError>
    ensures { OnOk result (response.new ≡ spec.with_routes local request.now response.old) }
{
    let record_routes = request.record_routes.clone()?;
    let mut contacts = Series::new(alloc);
    contacts.push(own_contact(alloc, local)?)?;
    response.contacts = contacts;
    response.record_routes = record_routes;
    Ok(())
}

fn set_rseq(alloc: Global, rseq: Option<u32>, response: &mut Message) -> Result<(), AllocError>
    ensures { OnOk result (response.new ≡ spec.with_rseq rseq response.old) }
{
    let mut require = Series::new(alloc);
    require.push(option_100rel(alloc)?)?;
    response.require = require;
    response.rseq = rseq;
    Ok(())
}

#[tactic(auto, using(crate::proofs::Names::option_100rel))]
fn option_100rel(alloc: Global) -> Result<Token, AllocError>
    ensures { IfOk result (λ option. option ≡ codes "100rel") }
{
    Token::copy_of(alloc, b"100rel")
}

/// An answer of the user to this request goes out in an event. If it makes a dialog, the request
/// refers to it.
pub(crate) fn answer(
    alloc: Global,
    held: &mut HeldRequest,
    event: Id,
    status: u16,
    reliability: Reliability,
    response: &Message,
    now: u64,
) -> Result<(), AllocError>
    requires { now ≤ 2 ^ 62 }
    ensures { OnOk result (held.new ≡ spec.answered status reliability response.now now
        (spec.with_dialog event status held.old)) }
{
    refer(alloc, held, event, status)?;
    note_answer(alloc, held, status, reliability, response, now)
}

// If an answer makes a dialog, its request refers to it.
fn refer(alloc: Global, held: &mut HeldRequest, event: Id, status: u16) -> Result<(), AllocError>
    ensures { OnOk result (held.new ≡ spec.with_dialog event status held.old) }
{
    if makes_dialog(held, status) {
        let name = dialog_id_of(alloc, held.request.get(), &held.tag)?;
        held.dialog = Some(DialogReference {
            name,
            created_by: event,
        });
    }
    Ok(())
}

// Notes an answer in its held request.
fn note_answer(
    alloc: Global,
    held: &mut HeldRequest,
    status: u16,
    reliability: Reliability,
    response: &Message,
    now: u64,
) -> Result<(), AllocError>
    requires { now ≤ 2 ^ 62 }
    ensures { OnOk result (held.new ≡ spec.answered status reliability response.now now held.old) }
{
    if is_sent_reliably(held, status, reliability) {
        send_reliably(alloc, held, response, now)
    } else if is_final(status) {
        finish(alloc, held, response, status, now)
    } else {
        Ok(())
    }
}

fn send_reliably(
    alloc: Global,
    held: &mut HeldRequest,
    response: &Message,
    now: u64,
) -> Result<(), AllocError>
    requires { now ≤ 2 ^ 62 }
    ensures { OnOk result (held.new ≡ spec.sent_reliably response.now now held.old) }
{
    let Ok(number) = held.ledger.send(now, !response.body.is_empty()) else {
        return Ok(());
    };
    let response = Boxed::new(alloc, response.clone()?)?;
    held.provisionals
        .push(ReliableResponse { number, response })
}

/// The final response of this status to this request goes out. No response follows it.
pub(crate) fn finish(
    alloc: Global,
    held: &mut HeldRequest,
    response: &Message,
    status: u16,
    now: u64,
) -> Result<(), AllocError>
    requires { now ≤ 2 ^ 62 }
    ensures { OnOk result (held.new ≡ spec.finished response.now status now held.old) }
{
    held.ledger.close();
    if is_invite(held.request.get()) && is_success(status) {
        let success = success_sent(Boxed::new(alloc, response.clone()?)?, now);
        held.success = Some(Boxed::new(alloc, success)?);
    }
    held.removal = Some(now + u64::from(LIFETIME));
    Ok(())
}

fn success_sent(response: Boxed<Message>, now: u64) -> Success
    requires { now ≤ 2 ^ 62 }
    ensures { result ≡ life.success_sent response now }
{
    Success {
        response,
        end: now + u64::from(LIFETIME),
        retransmission: Retransmission {
            due: now + u64::from(T1),
            interval: u64::from(T1),
        },
        over: None,
    }
}

/// The dialogs after an answer, and the notices of ends.
pub(crate) fn answer_dialogs(
    alloc: Global,
    dialogs: &mut Dialogs,
    event: Id,
    held: &HeldRequest,
    status: u16,
    response: &Message,
) -> Result<Vec<CallOut>, AllocError>
    requires low { 101 ≤ status }
    requires high { status ≤ 699 }
    ensures { IfOk result (λ outs. (dialogs.new.entries, outs.items)
        ≡ spec.dialogs_answered event held.now status response.now dialogs.old.entries) }
{
    if makes_dialog(held, status) {
        make_dialog(alloc, dialogs, event, held, status)?;
        return Ok(Vec::new(alloc));
    }
    if confirms_dialog(held, status) {
        let name = dialog_id_of(alloc, held.request.get(), &held.tag)?;
        confirm(dialogs, &name, response)?;
        return Ok(Vec::new(alloc));
    }
    if rejects(held, status) {
        return end_early(alloc, dialogs, held.id);
    }
    Ok(Vec::new(alloc))
}

// Whether an answer of this status makes a dialog.
fn makes_dialog(held: &HeldRequest, status: u16) -> bool
    ensures { result ≡ spec.makes_dialog held.now status }
{
    makes_or_confirms_dialog(held, status)
        && !has_to_tag(held.request.get())
        && held.dialog.is_none()
}

fn confirms_dialog(held: &HeldRequest, status: u16) -> bool
    ensures { result ≡ spec.confirms_dialog held.now status }
{
    makes_or_confirms_dialog(held, status) && is_success(status) && !has_to_tag(held.request.get())
}

fn rejects(held: &HeldRequest, status: u16) -> bool
    ensures { result ≡ spec.rejects held.now status }
{
    is_invite(held.request.get()) && StatusCode::FIRST_REJECTING <= status
}

fn make_dialog(
    alloc: Global,
    dialogs: &mut Dialogs,
    event: Id,
    held: &HeldRequest,
    status: u16,
) -> Result<(), AllocError>
    requires low { 101 ≤ status }
    requires high { status ≤ 699 }
    ensures { OnOk result (dialogs.new.entries
        ≡ insert_entry is_dialog_id dialogs.old.entries (dialog_id_of held.now.request held.now.tag)
        (spec.made_dialog event held.now status)) }
{
    let name = dialog_id_of(alloc, held.request.get(), &held.tag)?;
    let made = made_dialog(alloc, event, held, StatusCode::from_code(status))?;
    dialogs.insert(name, made)?;
    Ok(())
}

fn made_dialog(
    alloc: Global,
    event: Id,
    held: &HeldRequest,
    status: StatusCode,
) -> Result<HeldDialog, AllocError>
    ensures { IfOk result (λ made. made ≡ spec.made_dialog event held.now status) }
{
    let tag = held.tag.clone()?;
    Ok(HeldDialog {
        dialog: Dialog::from_request(alloc, held.request.get(), tag, status)?,
        address: held.reply_to,
        invite: held.id,
        created_by: event,
        last_rseq: Inbound::new(),
        pending_requests: Series::new(alloc),
    })
}
