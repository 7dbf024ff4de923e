//! The held requests of one Call-ID.

ghost use Rattle.std.specs.Prelude.{◌≡◌, ◌≤◌, ◌^◌, ◌++◌, [], ◌∷◌, IfOk, OnOk, filter, find, length, map, nat_lt, not};
ghost use Rattle.std.specs.List.{flat_map, list_any};
ghost use Rattle.std.specs.Option.{option_copied};
ghost use Rattle.sip_served.specs.Acknowledgment.{acknowledged_invite};
ghost use Rattle.sip_served.specs.Arrival.{is_merged, named_invite};
ghost use Rattle.sip_served.specs.Cancel.{cancelled_request};
ghost use Rattle.sip_served.specs.Steps.Change.{after_change, moment_of};
ghost use Rattle.sip_served.specs.State.{changed_at, has_id};
ghost use Rattle.sip_served.specs.Tick.{is_kept_at, next_due_of, request_ticked};

use crate::acknowledgment::acknowledged_invite;
use crate::arrival::{merges, named_invite};
use crate::change::{Change, change_at};
use crate::held_request::HeldRequest;
use crate::incoming_cancel::cancelled_request;
use crate::indexed_requests::IndexedRequests;
use crate::requests::held_request;
use crate::retransmissions::{next_due, remove_over, tick_requests};
use sip_held_dialogs::DialogId;
use sip_message::{Id, Key, Message, RAck};
use sip_same::{SameValue, are_same};
use sip_text::Boxed;
use sip_user::CallOut;
use std::alloc::{AllocError, Global};
use std::marker::Model;
use std::mem;

/// Up to how many requests are looked through one by one. Maps would cost them more.
const FEW: usize = 8;

/// The held requests of one Call-ID, in the order in which they came up.
///
/// Contracts see them as a list. If memory ran out in a call, it isn't known which are held.
pub(crate) struct HeldRequests {
    alloc: Global,
    held: Held,
}

/// How the requests of one Call-ID are held.
pub(crate) enum Held {
    /// They are looked through one by one.
    Few(Vec<HeldRequest>),
    /// They are found by maps, until none is left.
    Many(Boxed<IndexedRequests>),
}

impl Model for HeldRequests {
    ghost use Rattle.std.specs.Prelude.{List};
    ghost use Rattle.sip_served.specs.Steps.HeldRequests.{all_of};
    ghost use Rattle.sip_served.specs.declared.held_request.HeldRequest.{HeldRequest};

    ghost Value = { List HeldRequest };

    ghost view = { λ h. all_of h.held };
}

impl HeldRequests {
    /// No request is held. Takes no memory.
    pub(crate) fn new(alloc: Global) -> HeldRequests
        ensures { result ≡ [] }
    {
        HeldRequests {
            alloc,
            held: Held::Few(Vec::new(alloc)),
        }
    }

    /// Whether no request is held.
    pub(crate) fn is_empty(&self) -> bool
        ensures { result ≡ not (nat_lt 0 (length self.now)) }
    {
        match &self.held {
            Held::Few(requests) => requests.is_empty(),
            Held::Many(indexed) => indexed.get().is_empty(),
        }
    }

    /// The first moment, in ms, at which something of a request is due, if there is one.
    pub(crate) fn next_due(&self) -> Option<u64>
        ensures { result ≡ next_due_of self.now }
    {
        match &self.held {
            Held::Few(requests) => next_due(requests.as_slice()),
            Held::Many(indexed) => indexed.get().next_due(),
        }
    }

    /// The held request of this id, the first if there are several.
    pub(crate) fn get(&self, id: Id) -> Option<&HeldRequest>
        ensures { option_copied result ≡ find (has_id id) self.now }
    {
        match &self.held {
            Held::Few(requests) => held_request(requests.as_slice(), id),
            Held::Many(indexed) => indexed.get().get(id),
        }
    }

    /// Whether the same request is already held.
    pub(crate) fn merges(&self, request: &Message) -> Result<bool, AllocError>
        ensures { IfOk result (λ merges. merges ≡ list_any (is_merged request.now) self.now) }
    {
        match &self.held {
            Held::Few(requests) => Ok(merges(requests.as_slice(), request)),
            Held::Many(indexed) => indexed.get().merges(request),
        }
    }

    /// The first INVITE of the dialog with a waiting response that the RAck names.
    pub(crate) fn named_invite(&self, name: &DialogId, created_by: Id, rack: &RAck) -> Option<Id>
        ensures { result ≡ named_invite self.now name.now created_by rack.now }
    {
        match &self.held {
            Held::Few(requests) => named_invite(requests.as_slice(), name, created_by, rack),
            Held::Many(indexed) => indexed.get().named_invite(name, created_by, rack),
        }
    }

    /// The id of the first INVITE whose 2xx this ACK is for.
    pub(crate) fn acknowledged_invite(&self, ack: &Message) -> Result<Option<Id>, AllocError>
        ensures { IfOk result (λ invite. invite ≡ acknowledged_invite ack.now self.now) }
    {
        match &self.held {
            Held::Few(requests) => Ok(acknowledged_invite(ack, requests.as_slice())),
            Held::Many(indexed) => indexed.get().acknowledged_invite(ack),
        }
    }

    /// The held request that a CANCEL names; if there are several, the last that came up.
    pub(crate) fn cancelled_request(&self, cancel: &Key) -> Result<Option<&HeldRequest>, AllocError>
        ensures { IfOk result (λ held. option_copied held
            ≡ cancelled_request cancel.now self.now) }
    {
        match &self.held {
            Held::Few(requests) => Ok(cancelled_request(requests.as_slice(), cancel)),
            Held::Many(indexed) => indexed.get().cancelled_request(cancel),
        }
    }

    /// Holds one more request, the last.
    pub(crate) fn push(&mut self, held: HeldRequest) -> Result<(), AllocError>
        ensures { OnOk result (self.new ≡ self.old ++ held ∷ []) }
    {
        match &mut self.held {
            Held::Few(requests) => {
                push_few(requests, held)?;
                if requests.len() > FEW {
                    let requests = mem::replace(requests, Vec::new(self.alloc));
                    let indexed = IndexedRequests::of(self.alloc, requests)?;
                    self.held = Held::Many(Boxed::new(self.alloc, indexed)?);
                }
                Ok(())
            }
            Held::Many(indexed) => indexed.get_mut().push(held),
        }
    }

    /// Changes the request of this id, the first if there are several.
    pub(crate) fn change(&mut self, id: Id, change: Change) -> Result<(), AllocError>
        requires { moment_of change ≤ 2 ^ 62 }
        ensures { OnOk result (self.new ≡ changed_at id (after_change change.entry) self.old) }
    {
        match &mut self.held {
            Held::Few(requests) => change_at(self.alloc, requests, id, change),
            Held::Many(indexed) => indexed.get_mut().change(id, change),
        }
    }

    /// Does what is due for each held request at the moment `now`, in ms, and removes those whose
    /// moment of removal has come.
    pub(crate) fn tick(&mut self, now: u64, outs: &mut Vec<CallOut>) -> Result<(), AllocError>
        requires { now ≤ 2 ^ 62 }
        ensures requests { OnOk result (self.new ≡ filter (is_kept_at now)
            (map (λ held. (request_ticked now held).0) self.old)) }
        ensures outs { OnOk result (outs.new.items ≡ outs.old.items
            ++ flat_map (λ held. (request_ticked now held).1) self.old) }
    {
        match &mut self.held {
            Held::Few(requests) => {
                tick_requests(self.alloc, requests, now, outs)?;
                remove_over(requests, now);
            }
            Held::Many(indexed) => {
                indexed.get_mut().tick(now, outs)?;
                if indexed.get().is_empty() {
                    self.held = Held::Few(Vec::new(self.alloc));
                }
            }
        }
        Ok(())
    }
}

impl SameValue for HeldRequests {
    // However they are held: that depends on how many there were before.
    fn is_same(&self, other: &HeldRequests) -> bool {
        match (&self.held, &other.held) {
            (Held::Few(requests), Held::Few(others)) => {
                are_same(requests.as_slice(), others.as_slice())
            }
            (Held::Few(requests), Held::Many(others)) => others.get().are(requests.as_slice()),
            (Held::Many(requests), Held::Few(others)) => requests.get().are(others.as_slice()),
            (Held::Many(requests), Held::Many(others)) => requests.get().is_same(others.get()),
        }
    }
}

fn push_few(requests: &mut Vec<HeldRequest>, held: HeldRequest) -> Result<(), AllocError>
    ensures { OnOk result (requests.new.items ≡ requests.old.items ++ held ∷ []) }
{
    // Most calls hold one request, but a list that grows by itself begins with room for four.
    if requests.is_empty() {
        requests.reserve_exact(1)?;
    }
    requests.push(held)?;
    Ok(())
}

impl Drop for Held {
    fn drop(self) {
        match self {
            Held::Few(_) => {}
            Held::Many(_) => {}
        }
    }
}

impl Drop for HeldRequests {
    fn drop(self) {
        let HeldRequests { alloc: _, held: _ } = self;
    }
}
