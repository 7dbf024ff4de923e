//! The user's commands that send a request in a dialog.

ghost use Rattle.std.specs.Prelude.{◌≡◌, ◌&&◌, ◌||◌, IfOk, OnOk};
ghost use Rattle.sip_dialog.specs.Dialog.{is_early};
ghost use Rattle.sip_held_dialogs.specs.Dialogs.{tag_text};
ghost use Rattle.sip_user.specs.declared.refusal.Refusal.TheVariants.{NoSuchDialog};
ghost use Rattle.sip_clients.specs.Commands as spec;
ghost use Rattle.sip_clients.specs.Dialogs.{served_at};
ghost use Rattle.sip_clients.specs.declared.send_outcome.SendOutcome.TheVariants.{Refused};

use crate::answers::SentAck;
use crate::dialogs::pay_at;
use crate::event::Event;
use crate::outputs::{ClientChange, ack_said, request_said};
use crate::pending::{PendingKind, oldest};
use crate::send_outcome::{SendOutcome, request};
use sip_dialog::{DialogState, Side};
use sip_held_dialogs::dialogs::end;
use sip_held_dialogs::{DialogId, Dialogs, HeldDialog, PendingRequest};
use sip_message::{Content, Token};
use sip_user::{CallOut, DialogBody, DialogRequest, Refusal};
use std::alloc::{AllocError, Global};

/// The name of the dialog of these tags.
pub(crate) fn name_in(
    alloc: Global,
    local: &Option<Token>,
    remote: &Option<Token>,
) -> Result<DialogId, AllocError>
    ensures { IfOk result (λ name. name ≡ spec.name_in local.now remote.now) }
{
    DialogId::of_tags(alloc, tag_bytes(local), tag_bytes(remote))
}

// The bytes of a tag, none if it is absent.
fn tag_bytes(tag: &Option<Token>) -> &[u8]
    ensures { result.now ≡ tag_text tag.now }
{
    match tag {
        Some(tag) => tag.as_slice(),
        None => &[],
    }
}

// ---- a request

/// The outcome of a request that the user asks for in the dialog of this name: what is told, the
/// request that is sent, and last the end of the dialog, if it ends.
pub(crate) fn request_told(
    alloc: Global,
    dialogs: &mut Dialogs,
    event: Event,
    name: &DialogId,
    command: &DialogRequest,
) -> Result<(Vec<CallOut>, ClientChange, Vec<CallOut>), AllocError>
    ensures dialogs { OnOk result (dialogs.new.entries
        ≡ (spec.request_asked event name.now command.now dialogs.old.entries).0) }
    ensures outs { IfOk result (λ told. told.0.items
        ≡ (spec.request_asked event name.now command.now dialogs.old.entries).1) }
    ensures change { IfOk result (λ told. told.1
        ≡ (spec.request_asked event name.now command.now dialogs.old.entries).2) }
    ensures ends { IfOk result (λ told. told.2.items
        ≡ (spec.request_asked event name.now command.now dialogs.old.entries).3) }
{
    let outcome = request_by(alloc, dialogs, name, event, command)?;
    let ends = bye_end(alloc, dialogs, name, &command.method, &outcome)?;
    let (outs, change) = request_said(alloc, event, &command.call_id, name, outcome)?;
    Ok((outs, change, ends))
}

#[tactic(auto, unfolding(crate::specs::Commands::requested_at))]
fn request_by(
    alloc: Global,
    dialogs: &mut Dialogs,
    name: &DialogId,
    event: Event,
    command: &DialogRequest,
) -> Result<SendOutcome, AllocError>
    ensures outcome { IfOk result (λ outcome. outcome
        ≡ (spec.requested_at name.now event command.now dialogs.old.entries).1) }
    ensures dialogs { OnOk result (dialogs.new.entries
        ≡ (spec.requested_at name.now event command.now dialogs.old.entries).0) }
{
    let method = command.method.clone()?;
    let content = command.content.clone()?;
    request_at(alloc, dialogs, name, event, method, content)
}

fn request_at(
    alloc: Global,
    dialogs: &mut Dialogs,
    name: &DialogId,
    event: Event,
    method: Token,
    content: Content,
) -> Result<SendOutcome, AllocError>
    ensures outcome { IfOk result (λ outcome. outcome
        ≡ (served_at name.now (spec.request_in_held event method content) (Refused NoSuchDialog)
        dialogs.old.entries).1) }
    ensures dialogs { OnOk result (dialogs.new.entries
        ≡ (served_at name.now (spec.request_in_held event method content) (Refused NoSuchDialog)
        dialogs.old.entries).0) }
{
    let Some(held) = dialogs.all.get_mut(name) else {
        return Ok(SendOutcome::Refused(Refusal::NoSuchDialog));
    };
    request_in(alloc, held, event, method, content)
}

fn request_in(
    alloc: Global,
    held: &mut HeldDialog,
    event: Event,
    method: Token,
    content: Content,
) -> Result<SendOutcome, AllocError>
    ensures outcome { IfOk result (λ outcome. outcome
        ≡ (spec.request_in_held event method content held.old).1) }
    ensures held { OnOk result (held.new ≡ (spec.request_in_held event method content held.old).0) }
    ensures same_invite { held.new.invite ≡ held.old.invite }
{
    if is_bad_in(held, &method) {
        return Ok(SendOutcome::Refused(Refusal::BadMethod));
    }
    request(alloc, held, event, method, None, content)
}

fn is_bad_in(held: &HeldDialog, method: &Token) -> bool
    ensures { result ≡ (spec.is_own_kind method.now
        || (is_early held.now.dialog.state && spec.is_bad_early held.now.dialog.side method.now)) }
{
    is_own_kind(method)
        || (held.dialog.state() == DialogState::Early && is_bad_early(held.dialog.side(), method))
}

// Whether the user sends a request of this method by a command of its own.
fn is_own_kind(method: &Token) -> bool
    ensures { result ≡ spec.is_own_kind method.now }
{
    method.as_slice() == b"ACK".as_slice()
        || method.as_slice() == b"CANCEL".as_slice()
        || method.as_slice() == b"PRACK".as_slice()
}

fn is_bad_early(side: Side, method: &Token) -> bool
    ensures { result ≡ spec.is_bad_early side method.now }
{
    method.as_slice() == b"INVITE".as_slice()
        || (side == Side::Callee && method.as_slice() == b"BYE".as_slice())
}

/// Whether a request of this method isn't sent outside of dialogs.
pub(crate) fn is_bad_outside(method: &Token) -> bool
    ensures { result ≡ spec.is_bad_outside method.now }
{
    is_own_kind(method)
        || method.as_slice() == b"INVITE".as_slice()
        || method.as_slice() == b"BYE".as_slice()
}

// A BYE ends its dialog at once (RFC 3261, section 15.1.1).
fn bye_end(
    alloc: Global,
    dialogs: &mut Dialogs,
    name: &DialogId,
    method: &Token,
    outcome: &SendOutcome,
) -> Result<Vec<CallOut>, AllocError>
    ensures { IfOk result (λ outs. (dialogs.new.entries, outs.items)
        ≡ spec.bye_ended name.now method.now outcome.now dialogs.old.entries) }
{
    match outcome {
        SendOutcome::Sent(_) if method.as_slice() == b"BYE".as_slice() => end(alloc, dialogs, name),
        _ => Ok(Vec::new(alloc)),
    }
}

// ---- an ACK or a PRACK

/// The oldest ACK or PRACK that is owed in the dialog of this name, or why there is none.
pub(crate) fn pending_for(
    dialogs: &Dialogs,
    name: &DialogId,
    kind: PendingKind,
) -> Result<PendingRequest, Refusal>
    ensures { result ≡ spec.pending_for kind name.now dialogs.now.entries }
{
    match dialogs.get(name) {
        None => Err(Refusal::NoSuchDialog),
        Some(held) => oldest_pending(held, kind),
    }
}

fn oldest_pending(held: &HeldDialog, kind: PendingKind) -> Result<PendingRequest, Refusal>
    ensures { result ≡ spec.oldest_pending kind held.now }
{
    match oldest(held.pending_requests.as_slice(), kind) {
        Some(pending) => Ok(*pending),
        None => Err(nothing_pending(kind)),
    }
}

fn nothing_pending(kind: PendingKind) -> Refusal
    ensures { result ≡ spec.nothing_pending kind }
{
    match kind {
        PendingKind::Ack => Refusal::NothingToAck,
        PendingKind::Prack => Refusal::NothingToPrack,
    }
}

/// The outcome of an ACK that the user gives: what is told or sent, and the ACK if it is sent.
pub(crate) fn ack_told(
    alloc: Global,
    dialogs: &mut Dialogs,
    event: Event,
    name: &DialogId,
    command: &DialogBody,
    pending: PendingRequest,
) -> Result<(Vec<CallOut>, Option<SentAck>), AllocError>
    ensures dialogs { OnOk result (dialogs.new.entries
        ≡ (spec.ack_asked event name.now pending command.now dialogs.old.entries).0) }
    ensures outs { IfOk result (λ told. told.0.items
        ≡ (spec.ack_asked event name.now pending command.now dialogs.old.entries).1) }
    ensures ack { IfOk result (λ told. told.1
        ≡ (spec.ack_asked event name.now pending command.now dialogs.old.entries).2) }
{
    let content = command.content.clone()?;
    let outcome = pay_at(alloc, dialogs, name, event, pending, content)?;
    ack_said(alloc, event, &command.call_id, outcome)
}

/// The outcome of a PRACK that the user gives: what is told, and the request that is sent.
pub(crate) fn prack_told(
    alloc: Global,
    dialogs: &mut Dialogs,
    event: Event,
    name: &DialogId,
    command: &DialogBody,
    pending: PendingRequest,
) -> Result<(Vec<CallOut>, ClientChange), AllocError>
    ensures dialogs { OnOk result (dialogs.new.entries
        ≡ (spec.prack_asked event name.now pending command.now dialogs.old.entries).0) }
    ensures outs { IfOk result (λ told. told.0.items
        ≡ (spec.prack_asked event name.now pending command.now dialogs.old.entries).1) }
    ensures change { IfOk result (λ told. told.1
        ≡ (spec.prack_asked event name.now pending command.now dialogs.old.entries).2) }
{
    let content = command.content.clone()?;
    let outcome = pay_at(alloc, dialogs, name, event, pending, content)?;
    request_said(alloc, event, &command.call_id, name, outcome)
}
