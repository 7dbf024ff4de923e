//! A tick: the INVITEs that are removed, and the end of their dialogs that are still early.

ghost use Rattle.std.specs.Prelude.{◌≡◌, IfOk, OnOk, filter, not};
ghost use Rattle.std.specs.Map.{values_of};
ghost use Rattle.sip_clients.specs.Steps.Over.{is_early_of_any, over_ids};
ghost use Rattle.sip_clients.specs.Tick as spec;

use crate::client::Client;
use crate::client_map::ClientList;
use sip_held_dialogs::dialogs::{early_notices, is_early_of};
use sip_held_dialogs::{DialogList, HeldDialog};
use sip_message::Id;
use sip_timers::earlier;
use sip_user::CallOut;
use std::alloc::{AllocError, Global};

/// Whether an INVITE is due to be removed.
fn is_over(client: &Client, now: u64) -> bool
    ensures { result ≡ spec.is_over now client.now }
{
    client.removal.is_some_and(|moment| moment <= now)
}

/// The notices of the dialogs that end.
pub(crate) fn over_notices(
    alloc: Global,
    dialogs: &DialogList,
    clients: &ClientList,
    now: u64,
) -> Result<Vec<CallOut>, AllocError>
    ensures { IfOk result (λ outs. outs.items
        ≡ spec.over_notices now dialogs.now.entries clients.now.entries) }
{
    let mut outs = Vec::new(alloc);
    for client in clients.values().as_slice() {
        outs.append(&mut notices_of(alloc, dialogs, client, now)?)?;
    }
    Ok(outs)
}

fn notices_of(
    alloc: Global,
    dialogs: &DialogList,
    client: &Client,
    now: u64,
) -> Result<Vec<CallOut>, AllocError>
    ensures { IfOk result (λ outs. outs.items
        ≡ spec.early_ends_told now dialogs.now.entries client.now) }
{
    if is_over(client, now) {
        early_notices(alloc, dialogs, client.id)
    } else {
        Ok(Vec::new(alloc))
    }
}

/// Removes the dialogs that are still early when their INVITE is removed.
pub(crate) fn drop_dialogs(
    alloc: Global,
    dialogs: &mut DialogList,
    clients: &ClientList,
    now: u64,
) -> Result<(), AllocError>
    ensures { OnOk result (dialogs.new.entries
        ≡ spec.dialogs_left now dialogs.old.entries clients.now.entries) }
{
    let over = over_ids(alloc, clients, now)?;
    drop_early_of(dialogs, over.as_slice());
    Ok(())
}

// The INVITEs that are due to be removed.
fn over_ids(alloc: Global, clients: &ClientList, now: u64) -> Result<Vec<Id>, AllocError>
    ensures { IfOk result (λ over. over.items
        ≡ over_ids now (values_of clients.now.entries)) }
{
    let mut over = Vec::new(alloc);
    for client in clients.values().as_slice() {
        if is_over(client, now) {
            over.push(client.id)?;
        }
    }
    Ok(over)
}

// Removes the early dialogs that these INVITEs made.
fn drop_early_of(dialogs: &mut DialogList, invites: &[Id])
    ensures { dialogs.new.entries ≡ filter (λ entry. not
        (is_early_of_any invites.now entry.1)) dialogs.old.entries }
{
    dialogs.retain(
        |_name, held| -> bool
            ensures kept { result ≡ not (is_early_of_any invites.entry.now held.old) }
            ensures same { held.new ≡ held.old }
        { !is_early_of_any(held, invites) },
    );
}

fn is_early_of_any(held: &HeldDialog, invites: &[Id]) -> bool
    ensures { result ≡ is_early_of_any invites.now held.now }
{
    invites.iter().any(|invite| is_early_of(held, *invite))
}

/// Removes the INVITEs that are due.
pub(crate) fn drop_clients(clients: &mut ClientList, now: u64)
    ensures { clients.new.entries ≡ spec.clients_left now clients.old.entries }
{
    clients.retain(
        |_id, client| -> bool
            ensures kept { result ≡ not (spec.is_over now client.old) }
            ensures same { client.new ≡ client.old }
        { !is_over(client, now) },
    );
}

/// The first moment, in ms, at which an INVITE is removed, if there is one.
pub(crate) fn next_due(clients: &ClientList) -> Option<u64>
    ensures { result ≡ spec.next_removal clients.now.entries }
{
    clients
        .values()
        .as_slice()
        .iter()
        .fold(None, |due, client| earlier(due, client.removal))
}
