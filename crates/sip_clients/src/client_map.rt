//! The held client requests, with the first moment at which one is removed.

ghost use Rattle.std.specs.Prelude.{◌≡◌, ◌≤◌, ◌==◌, ◌^◌, [], Some, IfOk, OnOk, length};
ghost use Rattle.std.specs.List.{list_any};
ghost use Rattle.std.specs.Map.{set_value, values_of};
ghost use Rattle.std.specs.Option.{option_copied};
ghost use Rattle.sip_timers.specs.Queue.{is_due};
ghost use Rattle.sip_held_dialogs.specs.Ids.{is_id};
ghost use Rattle.sip_held_dialogs.specs.Requests.{is_final};
ghost use Rattle.sip_clients.specs.Cancel.{asked, cancel_freed, after_response};
ghost use Rattle.sip_clients.specs.Client as spec;
ghost use Rattle.sip_clients.specs.Steps.ClientMap.{has_removal};
ghost use Rattle.sip_clients.specs.Clients.{acked_with};
ghost use Rattle.sip_clients.specs.Replied.{reply_taken};
ghost use Rattle.sip_clients.specs.Tick.{is_over, next_removal};
ghost use Rattle.sip_clients.specs.declared.client.Client.{Client};

use crate::answers::SentAck;
use crate::client::{Cancelling, Client};
use crate::held::{Told, note_ack_in, reply_to};
use crate::outputs::ClientChange;
use crate::reply::ReceivedResponse;
use crate::tick::next_due;
use indexmap::IndexMap;
use ordered_map::OrderedMap;
use seeded_hash::HashSeed;
use sip_held_dialogs::{DialogId, Dialogs};
use sip_message::Id;
use sip_same::SameValue;
use sip_timers::earlier;
use std::alloc::{AllocError, Global};
use std::marker::Model;

/// The held client requests as a list, for what looks at all of them.
pub(crate) type ClientList = IndexMap<Id, Client, HashSeed>;

/// The held client requests, in the order in which they were sent. Contracts see their entries.
pub(crate) struct ClientMap {
    alloc: Global,
    all: OrderedMap<Id, Client, HashSeed>,
    // The first moment, in ms, at which one is removed, if there is one.
    due: Option<u64>,
}

impl Model for ClientMap {
    ghost use Rattle.ordered_map.specs.OrderedMap.{Ordered};
    ghost use Rattle.sip_message.specs.declared.id.Id.{Id};
    ghost use Rattle.sip_clients.specs.declared.client.Client.{Client};

    ghost Value = { Ordered Id Client };

    ghost use Rattle.sip_clients.specs.Steps.ClientMap.{IsDueAtFirst};

    ghost view = { λ clients. clients.all };

    ghost invariant = { IsDueAtFirst };
}

impl ClientMap {
    /// No request. Takes no memory. Nobody chooses ids, so everyone may know their hashes.
    pub(crate) fn new(alloc: Global) -> ClientMap
        ensures { result.entries ≡ [] }
    {
        ClientMap {
            alloc,
            all: OrderedMap::with_hasher(alloc, HashSeed::known()),
            due: None,
        }
    }

    /// Whether no request is held. Takes no memory.
    pub(crate) fn is_empty(&self) -> bool
        ensures { result ≡ (length self.now.entries == 0) }
    {
        self.all.is_empty()
    }

    /// The first moment, in ms, at which an INVITE is removed, if there is one. Takes no memory.
    pub(crate) fn next_due(&self) -> Option<u64>
        ensures { result ≡ next_removal self.now.entries }
    {
        self.due
    }

    /// Whether some INVITE is due to be removed. Takes no memory.
    pub(crate) fn is_any_over(&self, now: u64) -> bool
        ensures { result ≡ list_any (is_over now) (values_of self.now.entries) }
    {
        is_due(self.due, now)
    }

    /// The request that the event of this id sent.
    pub(crate) fn get(&self, id: Id) -> Option<&Client>
        ensures { option_copied result ≡ spec.client_at id self.now.entries }
    {
        self.all.get(&id)
    }

    /// Takes all requests out.
    pub(crate) fn take(&mut self) -> ClientMap
        ensures requests { result.entries ≡ self.old.entries }
        ensures nothing { self.new.entries ≡ [] }
    {
        ClientMap {
            alloc: self.alloc,
            all: self.all.take(),
            due: self.due.take(),
        }
    }

    /// The requests as a list.
    pub(crate) fn into_list(self) -> Result<ClientList, AllocError>
        ensures { IfOk result (λ list. list.entries ≡ self.entries) }
    {
        let ClientMap {
            alloc: _,
            all,
            due: _,
        } = self;
        all.into_list()
    }

    /// The requests of a list.
    pub(crate) fn of_list(alloc: Global, list: ClientList) -> Result<ClientMap, AllocError>
        ensures { IfOk result (λ clients. clients.entries ≡ list.entries) }
    {
        let due = next_due(&list);
        Ok(ClientMap {
            alloc,
            all: OrderedMap::of_list(alloc, list)?,
            due,
        })
    }

    /// These requests, and this one under this id.
    pub(crate) fn with(self, id: Id, client: Client) -> Result<ClientMap, AllocError>
        ensures { IfOk result (λ clients. clients.entries
            ≡ spec.with_client id client self.entries) }
    {
        let ClientMap {
            alloc,
            mut all,
            due,
        } = self;
        let is_new = !all.contains_key(&id);
        let removal = client.removal;
        all.insert(id, client)?;
        if is_new {
            Ok(ClientMap {
                alloc,
                all,
                due: earlier(due, removal),
            })
        } else {
            ClientMap::of_list(alloc, all.into_list()?)
        }
    }

    /// These requests without that of this id, which is given too.
    pub(crate) fn without(self, id: Id) -> Result<(ClientMap, Option<Client>), AllocError>
        ensures clients { IfOk result (λ left. left.0.entries
            ≡ spec.without_client id self.entries) }
        ensures client { IfOk result (λ left. left.1 ≡ spec.client_at id self.entries) }
    {
        let ClientMap {
            alloc,
            mut all,
            due,
        } = self;
        let client = all.remove(&id);
        if has_removal(&client) {
            let left = ClientMap::of_list(alloc, all.into_list()?)?;
            return Ok((left, client));
        }
        Ok((ClientMap { alloc, all, due }, client))
    }

    /// Asks for the CANCEL of the INVITE of this id.
    pub(crate) fn ask(&mut self, id: Id, cancel: Cancelling)
        ensures { self.new.entries ≡ spec.client_changed id (asked cancel) self.old.entries }
    {
        let Some(invite) = self.all.get_mut(&id) else {
            return;
        };
        ask_in(invite, cancel);
    }

    /// Keeps the ACK of a 2xx to the INVITE of this id.
    pub(crate) fn note_ack(
        &mut self,
        invite: Id,
        name: DialogId,
        ack: SentAck,
    ) -> Result<(), AllocError>
        ensures { OnOk result (self.new.entries
            ≡ spec.client_changed invite (acked_with name ack) self.old.entries) }
    {
        let Some(client) = self.all.get_mut(&invite) else {
            return Ok(());
        };
        note_ack_in(client, name, ack)
    }

    /// These requests after a response to one of them, and what is told.
    pub(crate) fn replied(
        self,
        dialogs: &mut Dialogs,
        reply: &ReceivedResponse,
    ) -> Result<(ClientMap, Told), AllocError>
        requires { reply.now.event.moment ≤ 2 ^ 62 }
        ensures told { (client : Client) → spec.client_at reply.now.id self.entries ≡ Some client
            → IfOk result (λ after. (changed : Client) × (after.0.entries
            ≡ set_value (is_id reply.now.id) self.entries changed)
            × ((changed, dialogs.new.entries, after.1.0.items, after.1.1)
            ≡ reply_taken (after_response (is_final reply.now.status) client) dialogs.old.entries
            reply.now)) }
        ensures cancel { (client : Client) → spec.client_at reply.now.id self.entries ≡ Some client
            → IfOk result (λ after. after.1.2 ≡ cancel_freed (is_final reply.now.status) client) }
    {
        let ClientMap {
            alloc,
            mut all,
            due,
        } = self;
        let Some(client) = all.get_mut(&reply.id) else {
            return Ok((
                ClientMap { alloc, all, due },
                (Vec::new(alloc), ClientChange::Stays, None),
            ));
        };
        let former = client.removal;
        let told = reply_to(alloc, client, dialogs, reply)?;
        let removal = client.removal;
        if former.is_none() {
            let due = earlier(due, removal);
            return Ok((ClientMap { alloc, all, due }, told));
        }
        if former == removal {
            return Ok((ClientMap { alloc, all, due }, told));
        }
        Ok((ClientMap::of_list(alloc, all.into_list()?)?, told))
    }
}

// Whether a moment has come, if there is one.
fn is_due(moment: Option<u64>, now: u64) -> bool
    ensures { result ≡ is_due now moment }
{
    match moment {
        Some(moment) => moment <= now,
        None => false,
    }
}

// Whether there is a request that is to be removed at a moment.
fn has_removal(client: &Option<Client>) -> bool
    ensures { result ≡ has_removal client.now }
{
    match client {
        Some(client) => client.removal.is_some(),
        None => false,
    }
}

fn ask_in(invite: &mut Client, cancel: Cancelling)
    ensures { invite.new ≡ asked cancel invite.old }
{
    invite.cancel = cancel;
}

impl SameValue for ClientMap {
    fn is_same(&self, other: &ClientMap) -> bool {
        self.all.is_same(&other.all)
    }
}

impl Drop for ClientMap {
    fn drop(self) {
        let ClientMap {
            alloc: _,
            all: _,
            due: _,
        } = self;
    }
}
