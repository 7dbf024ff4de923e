//! The held client requests, found by the events that sent them.

ghost use Rattle.std.specs.Prelude.{◌≡◌, ◌≤◌, ◌^◌, IfOk, OnOk};
ghost use Rattle.sip_held_dialogs.specs.Requests.{is_final};
ghost use Rattle.sip_clients.specs.Cancel.{cancel_freed, after_response};
ghost use Rattle.sip_clients.specs.Replied.{reply_taken};
ghost use Rattle.sip_clients.specs.Client.{client_at, client_changed, with_client, without_client};
ghost use Rattle.sip_clients.specs.Clients as spec;

use crate::answers::SentAck;
use crate::cancel_command::{note_reply, send_beside};
use crate::client::Client;
use crate::client_map::ClientMap;
use crate::dialogs::end_with;
use crate::event::Event;
use crate::outputs::{ClientChange, start_command};
use crate::replied::take_reply;
use crate::reply::{ReceivedResponse, reply_name, status_of};
use sip_held_dialogs::request::is_final;
use sip_held_dialogs::{DialogId, Dialogs, PendingRequest};
use sip_message::{CallId, Id, Message};
use sip_user::CallOut;
use sip_user::outputs::one;
use std::alloc::{AllocError, Global};

/// A response to the request that the event of this id sent.
pub(crate) fn take_response(
    alloc: Global,
    clients: &mut ClientMap,
    dialogs: &mut Dialogs,
    event: Event,
    id: Id,
    call_id: CallId,
    response: Message,
) -> Result<Vec<CallOut>, AllocError>
    requires { event.moment ≤ 2 ^ 62 }
    ensures { IfOk result (λ outs.
        (record { dialogs = dialogs.new.entries; clients = clients.new.entries }, outs.items)
        ≡ spec.response_taken event id call_id response record {
          dialogs = dialogs.old.entries;
          clients = clients.old.entries;
        }) }
{
    let Some(status) = status_of(&response) else {
        return Ok(Vec::new(alloc));
    };
    let Some(client) = clients.get(id) else {
        return Ok(Vec::new(alloc));
    };
    let name = reply_name(alloc, client, &response)?;
    let reply = ReceivedResponse {
        event,
        id,
        call_id,
        name,
        status,
        response,
    };
    let (replied, told) = clients.take().replied(dialogs, &reply)?;
    *clients = replied;
    settle_reply(alloc, clients, event, id, told)
}

/// The outputs of a response, how the requests change, and the CANCEL that waited for it.
pub(crate) type Told = (Vec<CallOut>, ClientChange, Option<Client>);

/// What a response does to its request.
pub(crate) fn reply_to(
    alloc: Global,
    client: &mut Client,
    dialogs: &mut Dialogs,
    reply: &ReceivedResponse,
) -> Result<Told, AllocError>
    requires { reply.now.event.moment ≤ 2 ^ 62 }
    ensures told { IfOk result (λ told. (client.new, dialogs.new.entries, told.0.items, told.1)
        ≡ reply_taken (after_response (is_final reply.now.status) client.old) dialogs.old.entries
        reply.now) }
    ensures cancel { IfOk result (λ told. told.2
        ≡ cancel_freed (is_final reply.now.status) client.old) }
{
    let cancel = note_reply(alloc, client, is_final(reply.status.code()))?;
    let (outs, change) = take_reply(alloc, client, dialogs, reply)?;
    Ok((outs, change, cancel))
}

fn settle_reply(
    alloc: Global,
    clients: &mut ClientMap,
    event: Event,
    id: Id,
    told: Told,
) -> Result<Vec<CallOut>, AllocError>
    ensures { IfOk result (λ outs. (clients.new.entries, outs.items)
        ≡ spec.reply_ended event id told.1 told.2 clients.old.entries told.0.items) }
{
    let (mut outs, change, cancel) = told;
    outs.append(&mut settle(alloc, clients, event, id, change)?)?;
    send_beside(alloc, clients, cancel, outs)
}

/// Changes the requests after a response to that of this id, or after a command.
pub(crate) fn settle(
    alloc: Global,
    clients: &mut ClientMap,
    event: Event,
    id: Id,
    change: ClientChange,
) -> Result<Vec<CallOut>, AllocError>
    ensures { IfOk result (λ outs. (clients.new.entries, outs.items)
        ≡ spec.settled event id change clients.old.entries) }
{
    match change {
        ClientChange::Stays => Ok(Vec::new(alloc)),
        ClientChange::Over => {
            let _ = take(clients, id)?;
            Ok(Vec::new(alloc))
        }
        ClientChange::Starts(client) => start(alloc, clients, event, client),
    }
}

/// Sends a request.
pub(crate) fn start(
    alloc: Global,
    clients: &mut ClientMap,
    event: Event,
    client: Client,
) -> Result<Vec<CallOut>, AllocError>
    ensures { IfOk result (λ outs. (clients.new.entries, outs.items)
        ≡ spec.started event client clients.old.entries) }
{
    let out = start_command(alloc, event.id, &client)?;
    hold(clients, event.id, client)?;
    one(alloc, out)
}

/// Holds a request under this id.
pub(crate) fn hold(clients: &mut ClientMap, id: Id, client: Client) -> Result<(), AllocError>
    ensures { OnOk result (clients.new.entries ≡ with_client id client clients.old.entries) }
{
    *clients = clients.take().with(id, client)?;
    Ok(())
}

// Takes out the request that the event of this id sent.
fn take(clients: &mut ClientMap, id: Id) -> Result<Option<Client>, AllocError>
    ensures client { IfOk result (λ client. client ≡ client_at id clients.old.entries) }
    ensures left { OnOk result (clients.new.entries ≡ without_client id clients.old.entries) }
{
    let (left, client) = clients.take().without(id)?;
    *clients = left;
    Ok(client)
}

/// A request is no longer held, and what ends with it ends.
pub(crate) fn fail_request(
    alloc: Global,
    clients: &mut ClientMap,
    dialogs: &mut Dialogs,
    id: Id,
    timed_out: bool,
) -> Result<Vec<CallOut>, AllocError>
    ensures { IfOk result (λ outs.
        (record { dialogs = dialogs.new.entries; clients = clients.new.entries }, outs.items)
        ≡ spec.request_lost id timed_out record {
          dialogs = dialogs.old.entries;
          clients = clients.old.entries;
        }) }
{
    match take(clients, id)? {
        Some(client) => end_with(alloc, dialogs, &client, timed_out),
        None => Ok(Vec::new(alloc)),
    }
}

/// The ACK that the user gave is kept for its 2xx, and goes out again each time this is
/// retransmitted.
pub(crate) fn note_ack(
    clients: &mut ClientMap,
    pending: PendingRequest,
    name: DialogId,
    ack: Option<SentAck>,
) -> Result<(), AllocError>
    ensures { OnOk result (clients.new.entries ≡ spec.ack_kept pending name ack
        clients.old.entries) }
{
    match (pending, ack) {
        (PendingRequest::Ack { invite, .. }, Some(ack)) => clients.note_ack(invite, name, ack),
        _ => Ok(()),
    }
}

/// Notes the ACK of a 2xx to this INVITE.
pub(crate) fn note_ack_in(
    client: &mut Client,
    name: DialogId,
    ack: SentAck,
) -> Result<(), AllocError>
    ensures noted { OnOk result (client.new ≡ spec.acked_with name ack client.old) }
    ensures same_removal { client.new.removal ≡ client.old.removal }
{
    client.answers.note(name, Some(ack))
}
