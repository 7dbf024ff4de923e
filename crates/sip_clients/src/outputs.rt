//! What the user is told of a client request, and what is sent for it.

ghost use Rattle.std.specs.Prelude.{◌≡◌, ◌∷◌, [], IfOk};
ghost use Rattle.sip_clients.specs.Outputs as spec;

use crate::answers::SentAck;
use crate::client::{Client, RequestKind, client_for};
use crate::event::Event;
use crate::reply::ReceivedResponse;
use crate::send_outcome::{OutgoingRequest, SendOutcome};
use sip_held_dialogs::request::is_invite;
use sip_held_dialogs::{DialogId, DialogReference};
use sip_message::{CallId, Id, Key, Message, write};
use sip_text::{Boxed, Text};
use sip_transactions::Command;
use sip_user::outputs::{one, refused};
use sip_user::{CallOut, Notice};
use std::alloc::{AllocError, Global};

/// How the client requests change after a response or a command.
#[derive(Drop)]
pub(crate) enum ClientChange {
    Stays,
    /// The request is over.
    Over,
    /// This request is sent.
    Starts(Client),
}

/// The notice of a response.
pub(crate) fn response_notice(
    alloc: Global,
    reply: &ReceivedResponse,
) -> Result<CallOut, AllocError>
    ensures { IfOk result (λ out. out ≡ spec.response_notice reply.now) }
{
    Ok(CallOut::Notice(Notice::Response {
        call_id: reply.call_id.clone()?,
        id: reply.id,
        status: reply.status,
        local_tag: Text::copy_of(alloc, reply.response.from.tag())?,
        remote_tag: Text::copy_of(alloc, reply.response.to.tag())?,
        body: reply.response.body.clone()?,
    }))
}

/// What is told of a request in the dialog of this name, and the request that is sent.
pub(crate) fn request_said(
    alloc: Global,
    event: Event,
    call_id: &CallId,
    name: &DialogId,
    outcome: SendOutcome,
) -> Result<(Vec<CallOut>, ClientChange), AllocError>
    ensures outs { IfOk result (λ said. said.0.items
        ≡ (spec.request_said event call_id.now name.now outcome).0) }
    ensures change { IfOk result (λ said. said.1
        ≡ (spec.request_said event call_id.now name.now outcome).1) }
{
    match outcome {
        SendOutcome::Sent(sending) => {
            let client = client_of(alloc, event, name, sending)?;
            Ok((Vec::new(alloc), ClientChange::Starts(client)))
        }
        SendOutcome::Waits => Ok((Vec::new(alloc), ClientChange::Stays)),
        SendOutcome::Refused(refusal) => {
            let outs = refused(alloc, event.id, call_id.clone()?, refusal)?;
            Ok((outs, ClientChange::Stays))
        }
    }
}

fn client_of(
    alloc: Global,
    event: Event,
    name: &DialogId,
    sending: OutgoingRequest,
) -> Result<Client, AllocError>
    ensures { IfOk result (λ client. client ≡ spec.client_of event name.now sending) }
{
    let life = DialogReference {
        name: name.clone()?,
        created_by: sending.created_by,
    };
    let (message, to) = sending.into_parts();
    let kind = kind_in(life, &message);
    Ok(client_for(alloc, event.hash_seed(), event.id, kind, message, to))
}

fn kind_in(life: DialogReference, message: &Message) -> RequestKind
    ensures { result ≡ spec.kind_in life message.now }
{
    if is_invite(message) {
        RequestKind::ReInvite(life)
    } else {
        RequestKind::InDialog(life)
    }
}

/// What is told of an ACK or sent for it, and the ACK if it is sent.
pub(crate) fn ack_said(
    alloc: Global,
    event: Event,
    call_id: &CallId,
    outcome: SendOutcome,
) -> Result<(Vec<CallOut>, Option<SentAck>), AllocError>
    ensures outs { IfOk result (λ said. said.0.items
        ≡ (spec.ack_said event call_id.now outcome).0) }
    ensures ack { IfOk result (λ said. said.1 ≡ (spec.ack_said event call_id.now outcome).1) }
{
    match outcome {
        SendOutcome::Sent(sending) => {
            let ack = sent_ack(alloc, &sending)?;
            Ok((one(alloc, direct(&ack)?)?, Some(ack)))
        }
        SendOutcome::Waits => Ok((Vec::new(alloc), None)),
        SendOutcome::Refused(refusal) => {
            Ok((refused(alloc, event.id, call_id.clone()?, refusal)?, None))
        }
    }
}

fn sent_ack(alloc: Global, sending: &OutgoingRequest) -> Result<SentAck, AllocError>
    ensures { IfOk result (λ ack. ack ≡ spec.sent_ack sending.now) }
{
    Ok(SentAck {
        to: sending.to,
        bytes: Text::from_vec(write(alloc, &sending.message)?),
    })
}

/// An ACK goes out.
pub(crate) fn direct(ack: &SentAck) -> Result<CallOut, AllocError>
    ensures { IfOk result (λ out. out ≡ spec.direct ack.now) }
{
    Ok(CallOut::Direct {
        to: ack.to,
        bytes: ack.bytes.clone()?,
    })
}

/// The command of this id that starts the transaction of a client request.
#[tactic(auto, unfolding(crate::specs::Outputs::start_command))]
pub(crate) fn start_command(alloc: Global, id: Id, client: &Client) -> Result<CallOut, AllocError>
    ensures { IfOk result (λ out. out ≡ spec.start_command id client.now) }
{
    let method = client.request.method().clone()?;
    let key = Key::client(alloc, client.request.vias.top().branch(), method)?;
    let call_id = client.request.call_id.clone()?;
    let message = Boxed::new(alloc, client.request.clone()?)?;
    Ok(CallOut::Command(
        id,
        Command::Start {
            key,
            call_id,
            message,
            to: client.to,
        },
    ))
}
