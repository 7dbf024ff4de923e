//! The user's command to cancel an INVITE (RFC 3261, section 9.1).

ghost use Rattle.std.specs.Prelude.{◌≡◌, IfOk, OnOk};
ghost use Rattle.sip_clients.specs.Cancel as spec;

use crate::client::{Cancelling, Client, RequestKind, client_for};
use crate::client_map::ClientMap;
use crate::event::Event;
use crate::held::hold;
use crate::outputs::start_command;
use crate::reply::is_invite_kind;
use sip_message::{Id, cancel_for};
use sip_user::outputs::refused;
use sip_user::{CallOut, Cancel, Refusal};
use std::alloc::{AllocError, Global};

/// The outcome of a command to cancel a client request.
#[derive(Clone, Copy)]
pub(crate) enum CancelCase {
    Refused(Refusal),
    /// The CANCEL was already asked for.
    Repeated,
    /// It waits for a provisional response.
    Waits,
    /// It is sent at once.
    Starts,
}

// ---- the CANCEL

// The CANCEL of an INVITE, for which the event of this id asked.
fn made_cancel(alloc: Global, id: Id, invite: &Client) -> Result<Client, AllocError>
    ensures { IfOk result (λ cancel. cancel ≡ spec.cancel_client id invite.now) }
{
    let message = cancel_for(alloc, &invite.request)?;
    Ok(client_for(
        alloc,
        invite.answers.hash_seed(),
        id,
        RequestKind::OutOfDialog,
        message,
        invite.to,
    ))
}

/// Sends the CANCEL, if there is one: it is held, and its transaction starts after what was told.
pub(crate) fn send_beside(
    alloc: Global,
    clients: &mut ClientMap,
    cancel: Option<Client>,
    outs: Vec<CallOut>,
) -> Result<Vec<CallOut>, AllocError>
    ensures { IfOk result (λ outs_now. (clients.new.entries, outs_now.items)
        ≡ spec.sent_beside cancel (clients.old.entries, outs.items)) }
{
    let Some(client) = cancel else {
        return Ok(outs);
    };
    let mut outs = outs;
    outs.push(start_command(alloc, client.id, &client)?)?;
    hold(clients, client.id, client)?;
    Ok(outs)
}

// ---- the command

/// The user cancels an INVITE.
pub(crate) fn take_cancel(
    alloc: Global,
    clients: &mut ClientMap,
    event: Event,
    command: &Cancel,
) -> Result<Vec<CallOut>, AllocError>
    ensures { IfOk result (λ outs. (clients.new.entries, outs.items)
        ≡ spec.cancelled event command.now clients.old.entries) }
{
    let Some(invite) = clients.get(command.id) else {
        return refused(
            alloc,
            event.id,
            command.call_id.clone()?,
            Refusal::NoSuchRequest,
        );
    };
    match cancel_case(invite) {
        CancelCase::Refused(refusal) => refused(alloc, event.id, command.call_id.clone()?, refusal),
        CancelCase::Repeated => Ok(Vec::new(alloc)),
        CancelCase::Waits => {
            clients.ask(command.id, Cancelling::Waits(event.id));
            Ok(Vec::new(alloc))
        }
        CancelCase::Starts => {
            let cancel = made_cancel(alloc, event.id, invite)?;
            clients.ask(command.id, Cancelling::Sent);
            send_beside(alloc, clients, Some(cancel), Vec::new(alloc))
        }
    }
}

fn cancel_case(invite: &Client) -> CancelCase
    ensures { result ≡ spec.cancel_case invite.now }
{
    if !is_invite_kind(&invite.kind) {
        CancelCase::Refused(Refusal::NoSuchRequest)
    } else if invite.removal.is_some() {
        CancelCase::Refused(Refusal::AlreadyFinal)
    } else {
        asking_case(invite.provisional, invite.cancel)
    }
}

fn asking_case(provisional: bool, cancel: Cancelling) -> CancelCase
    ensures { result ≡ spec.asking_case provisional cancel }
{
    match cancel {
        Cancelling::NotAsked if provisional => CancelCase::Starts,
        Cancelling::NotAsked => CancelCase::Waits,
        Cancelling::Waits(_) | Cancelling::Sent => CancelCase::Repeated,
    }
}

// ---- a response

/// Notes that a response to a request has come, which may be its final one. Returns the CANCEL that
/// waited for it, to be sent.
pub(crate) fn note_reply(
    alloc: Global,
    client: &mut Client,
    is_final: bool,
) -> Result<Option<Client>, AllocError>
    ensures client { OnOk result (client.new ≡ spec.after_response is_final client.old) }
    ensures cancel { IfOk result (λ cancel. cancel ≡ spec.cancel_freed is_final client.old) }
{
    let cancel = cancel_freed(alloc, client, is_final)?;
    client.provisional = client.provisional || !is_final;
    client.cancel = cancelling_after(is_final, client.cancel);
    Ok(cancel)
}

fn cancel_freed(
    alloc: Global,
    invite: &Client,
    is_final: bool,
) -> Result<Option<Client>, AllocError>
    ensures { IfOk result (λ cancel. cancel ≡ spec.cancel_freed is_final invite.now) }
{
    match freed_by(is_final, invite.cancel) {
        Some(id) => Ok(Some(made_cancel(alloc, id, invite)?)),
        None => Ok(None),
    }
}

fn freed_by(is_final: bool, cancel: Cancelling) -> Option<Id>
    ensures { result ≡ spec.freed_by is_final cancel }
{
    match cancel {
        Cancelling::Waits(id) if !is_final => Some(id),
        Cancelling::NotAsked | Cancelling::Waits(_) | Cancelling::Sent => None,
    }
}

fn cancelling_after(is_final: bool, cancel: Cancelling) -> Cancelling
    ensures { result ≡ spec.cancelling_after is_final cancel }
{
    match cancel {
        Cancelling::Waits(_) if is_final => Cancelling::NotAsked,
        Cancelling::Waits(_) => Cancelling::Sent,
        Cancelling::NotAsked | Cancelling::Sent => cancel,
    }
}
