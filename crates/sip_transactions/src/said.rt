//! What a row says: what it hands up or drops, and then what it sends.

ghost use Rattle.std.specs.Prelude.{◌≡◌, ◌++◌, IfOk, Some, option_to_list, option_map};
ghost use Rattle.std.specs.Option.{option_copied};
ghost use Rattle.sip_transactions.specs.Steps.Life.{context_by};
ghost use Rattle.sip_transactions.specs.Steps.Output.{handed_out, sent_bytes, outputs_of, up_out, send_out, kind_of};

use crate::life::Context;
use crate::output::{DropReason, Out, Up, UpKind};
use crate::step::{Sent, Step, UpAction};
use crate::trigger::is_ack;
use sip_message::{Addr, CallId, Id, Message, SharedKey, StartLine};
use sip_text::{Boxed, Text};
use std::alloc::{AllocError, Global};

/// What a row says that made a message with these bytes, of a message that came, if one did.
#[tactic(auto, unfolding(crate::specs::Steps::Output::outputs_of))]
pub(crate) fn said(
    alloc: Global,
    key: &SharedKey,
    context: &Context,
    step: Step,
    made: Option<Text>,
    arrived: Option<(Boxed<Message>, Addr)>,
) -> Result<Vec<Out>, AllocError>
    ensures { IfOk result (λ outputs. outputs.items
        ≡ outputs_of key.now context.now step made arrived) }
{
    let mut outputs = Vec::new(alloc);
    if let Some(out) = hand_up(key, context, step.handed, arrived)? {
        outputs.reserve_exact(1)?;
        outputs.push(out)?;
    }
    if let Some(bytes) = bytes_sent(&context.last, step.sent, made)? {
        outputs.reserve_exact(1)?;
        outputs.push(send_out(key, context.to, bytes)?)?;
    }
    Ok(outputs)
}

/// What is said of a message that begins no life: it is handed up under its own id, or dropped, or
/// neither.
pub(crate) fn passed_on(
    alloc: Global,
    key: &SharedKey,
    id: Id,
    message: Boxed<Message>,
    reply_to: Addr,
    handed: UpAction,
) -> Result<Vec<Out>, AllocError>
    ensures { let context = context_by id message.call_id reply_to None in
        let out = handed_out key.now context handed (Some (message, reply_to)) in
        IfOk result (λ outputs. outputs.items ≡ option_to_list out) }
{
    let mut outputs = Vec::new(alloc);
    if let Some(out) = pass_on(key, id, message, reply_to, handed)? {
        outputs.reserve_exact(1)?;
        outputs.push(out)?;
    }
    Ok(outputs)
}

#[tactic(auto, unfolding(crate::specs::Steps::Output::handed_out))]
fn pass_on(
    key: &SharedKey,
    id: Id,
    message: Boxed<Message>,
    reply_to: Addr,
    handed: UpAction,
) -> Result<Option<Out>, AllocError>
    ensures { let context = context_by id message.call_id reply_to None in
        IfOk result (λ out. out ≡ handed_out key.now context handed (Some (message, reply_to))) }
{
    match handed {
        UpAction::Nothing => Ok(None),
        UpAction::NoTransaction => Ok(Some(no_transaction(id))),
        UpAction::Message => {
            let call_id = message.get().call_id.clone()?;
            Ok(Some(up_out(key, id, call_id, kind_of(message, reply_to))?))
        }
        UpAction::Timeout => Ok(Some(up_out(
            key,
            id,
            message.get().call_id.clone()?,
            UpKind::Timeout,
        )?)),
        UpAction::Failed => Ok(Some(up_out(
            key,
            id,
            message.get().call_id.clone()?,
            UpKind::Failed,
        )?)),
    }
}

// What a row hands up, or that it drops what came.
#[tactic(auto, unfolding(crate::specs::Steps::Output::handed_out))]
fn hand_up(
    key: &SharedKey,
    context: &Context,
    handed: UpAction,
    arrived: Option<(Boxed<Message>, Addr)>,
) -> Result<Option<Out>, AllocError>
    ensures { IfOk result (λ out. out ≡ handed_out key.now context.now handed arrived) }
{
    let kind = match (handed, arrived) {
        (UpAction::Nothing, _) | (UpAction::Message, None) => return Ok(None),
        (UpAction::NoTransaction, _) => return Ok(Some(no_transaction(context.id))),
        (UpAction::Message, Some((message, reply_to))) => kind_of(message, reply_to),
        (UpAction::Timeout, _) => UpKind::Timeout,
        (UpAction::Failed, _) => UpKind::Failed,
    };
    Ok(Some(up_out(key, context.id, context.call_id.clone()?, kind)?))
}

fn up_out(key: &SharedKey, id: Id, call_id: CallId, kind: UpKind) -> Result<Out, AllocError>
    ensures { IfOk result (λ out. out
        ≡ Out.Up (record { key = key.now; id = id; call_id = call_id; kind = kind })) }
{
    Ok(Out::Up(Up {
        key: key.clone()?,
        id,
        call_id,
        kind,
    }))
}

fn no_transaction(id: Id) -> Out
    ensures { result ≡ Out.Dropped id.place DropReason.NoTransaction }
{
    Out::Dropped {
        place: id.place,
        reason: DropReason::NoTransaction,
    }
}

fn kind_of(message: Boxed<Message>, reply_to: Addr) -> UpKind
    ensures { result ≡ kind_of message.start message reply_to }
{
    match &message.get().start {
        StartLine::Request { .. } if is_ack(message.get()) => UpKind::Ack(message),
        StartLine::Request { .. } => UpKind::Request(message, reply_to),
        StartLine::Response { .. } => UpKind::Response(message),
    }
}

// The bytes that a row sends: what it made, or what was sent last.
fn bytes_sent(
    last: &Option<Text>,
    sent: Sent,
    made: Option<Text>,
) -> Result<Option<Text>, AllocError>
    ensures { IfOk result (λ bytes. bytes ≡ sent_bytes last.now sent made) }
{
    match sent {
        Sent::Latest => last.clone(),
        Sent::Nothing | Sent::Given | Sent::Trying | Sent::Ack => Ok(made),
    }
}

fn send_out(key: &SharedKey, to: Addr, bytes: Text) -> Result<Out, AllocError>
    ensures { IfOk result (λ out. out ≡ send_out key.now to bytes) }
{
    Ok(Out::Send {
        key: key.clone()?,
        to,
        bytes,
    })
}
