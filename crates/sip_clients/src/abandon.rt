//! The user's commands to give up a client request or a dialog.

ghost use Rattle.std.specs.Prelude.{◌≡◌, IfOk};
ghost use Rattle.sip_clients.specs.Abandon as spec;
ghost use Rattle.sip_clients.specs.Client.{Clients};

use crate::client::Client;
use crate::client_map::ClientMap;
use crate::commands::name_in;
use crate::event::Event;
use crate::held::fail_request;
use sip_held_dialogs::Dialogs;
use sip_held_dialogs::dialogs::end;
use sip_message::{Id, Key};
use sip_transactions::Command;
use sip_user::outputs::{joined, one, refused};
use sip_user::{AbandonDialog, AbandonRequest, CallOut, Refusal};
use std::alloc::{AllocError, Global};

/// The user gives a request up: it is no longer held, and its transaction ends.
pub(crate) fn abandon_request(
    alloc: Global,
    clients: &mut ClientMap,
    dialogs: &mut Dialogs,
    event: Event,
    command: &AbandonRequest,
) -> Result<Vec<CallOut>, AllocError>
    ensures { IfOk result (λ outs.
        (record { dialogs = dialogs.new.entries; clients = clients.new.entries }, outs.items)
        ≡ spec.request_abandoned event command.now record {
          dialogs = dialogs.old.entries;
          clients = clients.old.entries;
        }) }
{
    let Some(client) = clients.get(command.id) else {
        return refused(
            alloc,
            event.id,
            command.call_id.clone()?,
            Refusal::NoSuchRequest,
        );
    };
    let end = one(alloc, end_command(alloc, command.id, client)?)?;
    let ends = fail_request(alloc, clients, dialogs, command.id, false)?;
    joined(end, ends)
}

// The command that ends the transaction of a client request.
fn end_command(alloc: Global, id: Id, client: &Client) -> Result<CallOut, AllocError>
    ensures { IfOk result (λ out. out ≡ spec.end_command id client.now) }
{
    let method = client.request.method().clone()?;
    let key = Key::client(alloc, client.request.vias.top().branch(), method)?;
    Ok(CallOut::Command(id, Command::Abandon { key }))
}

/// The user gives a dialog up: it ends, and nothing is sent.
pub(crate) fn abandon_dialog(
    alloc: Global,
    dialogs: &mut Dialogs,
    event: Event,
    command: &AbandonDialog,
) -> Result<Vec<CallOut>, AllocError>
    ensures { IfOk result (λ outs. (clients : Clients)
        → (record { dialogs = dialogs.new.entries; clients = clients }, outs.items)
        ≡ spec.dialog_abandoned event command.now
        record { dialogs = dialogs.old.entries; clients = clients }) }
{
    let name = name_in(alloc, &command.local_tag, &command.remote_tag)?;
    if !dialogs.contains(&name) {
        return refused(
            alloc,
            event.id,
            command.call_id.clone()?,
            Refusal::NoSuchDialog,
        );
    }
    end(alloc, dialogs, &name)
}
