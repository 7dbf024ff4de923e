//! Many held requests, found by maps.

ghost use Rattle.std.specs.Prelude.{◌≡◌, ◌↔◌, IsTrue, ◌≤◌, ◌^◌, ◌++◌, [], ◌∷◌, IfOk, OnOk, filter, find, length, map, nat_lt, not};
ghost use Rattle.std.specs.List.{flat_map, list_any};
ghost use Rattle.std.specs.Option.{option_copied};
ghost use Rattle.sip_message.specs.Party.{tag_of};
ghost use Rattle.sip_served.specs.Acknowledgment as acks;
ghost use Rattle.sip_served.specs.Arrival.{is_merged, named_invite};
ghost use Rattle.sip_served.specs.Cancel as cancels;
ghost use Rattle.sip_served.specs.Steps.Change.{after_change, moment_of};
ghost use Rattle.sip_served.specs.Steps.Keys as keys;
ghost use Rattle.sip_served.specs.State.{changed_at, has_id};
ghost use Rattle.sip_served.specs.Tick.{is_kept_at, next_due_of, request_ticked};

use crate::acknowledgment::takes_ack;
use crate::arrival::takes_prack;
use crate::by_number::ByNumber;
use crate::change::Change;
use crate::held_request::HeldRequest;
use crate::request_keys::{TextKey, ack_key, branch_key, merge_key};
use sip_held_dialogs::DialogId;
use sip_message::{Id, Key, Message, RAck};
use sip_same::{SameValue, are_values, have_same_values};
use sip_user::CallOut;
use std::alloc::{AllocError, Global};
use std::marker::Model;

/// Many held requests in the order in which they came up, found by maps.
///
/// Contracts see them as a list. If memory ran out in a call, none is held any more.
pub(crate) struct IndexedRequests {
    alloc: Global,
    // The number of the next request, above that of each request so far.
    next: u64,
    all: ByNumber,
}

impl Model for IndexedRequests {
    ghost use Rattle.std.specs.Prelude.{List};
    ghost use Rattle.std.specs.Map.{values_of};
    ghost use Rattle.sip_served.specs.declared.held_request.HeldRequest.{HeldRequest};

    ghost Value = { List HeldRequest };

    ghost use Rattle.sip_served.specs.Steps.Indexed.{IsIndexed};

    ghost view = { λ indexed. values_of indexed.all.requests.entries };

    ghost invariant = { IsIndexed };
}

impl SameValue for IndexedRequests {
    // The numbers may differ: they depend on how many requests there were before.
    fn is_same(&self, other: &IndexedRequests) -> bool {
        have_same_values(&self.all.requests, &other.all.requests)
    }
}

impl IndexedRequests {
    /// No request is held. Takes no memory.
    pub(crate) fn new(alloc: Global) -> IndexedRequests
        ensures { result ≡ [] }
    {
        IndexedRequests {
            alloc,
            next: 0,
            all: ByNumber::new(alloc),
        }
    }

    /// These requests, in their order.
    pub(crate) fn of(
        alloc: Global,
        requests: Vec<HeldRequest>,
    ) -> Result<IndexedRequests, AllocError>
        ensures { IfOk result (λ all. all ≡ requests.items) }
    {
        let mut all = IndexedRequests::new(alloc);
        for held in requests {
            all.push(held)?;
        }
        Ok(all)
    }

    /// Whether no request is held.
    pub(crate) fn is_empty(&self) -> bool
        ensures { result ≡ not (nat_lt 0 (length self.now)) }
    {
        self.all.requests.is_empty()
    }

    /// Whether these are the held requests, in their order.
    pub(crate) fn are(&self, requests: &[HeldRequest]) -> bool
        ensures { IsTrue result ↔ (self.now ≡ requests.now) }
    {
        are_values(&self.all.requests, requests)
    }

    /// The first moment, in ms, at which something of a request is due, if there is one.
    pub(crate) fn next_due(&self) -> Option<u64>
        ensures { result ≡ next_due_of self.now }
    {
        self.all.dues.next_due()
    }

    /// The held request of this id, the first if there are several.
    pub(crate) fn get(&self, id: Id) -> Option<&HeldRequest>
        ensures { option_copied result ≡ find (has_id id) self.now }
    {
        let number = self.all.indices.ids.first_from(&(id, 0))?;
        self.all.requests.get(&number)
    }

    /// Whether the same request is already held.
    pub(crate) fn merges(&self, request: &Message) -> Result<bool, AllocError>
        ensures { IfOk result (λ merges. merges ≡ list_any (is_merged request.now) self.now) }
    {
        let key = merge_key(self.alloc, request)?;
        Ok(self.all.indices.merges.first_from(&(key, 0)).is_some())
    }

    /// The held request that a CANCEL names; if there are several, the last that came up.
    pub(crate) fn cancelled_request(&self, cancel: &Key) -> Result<Option<&HeldRequest>, AllocError>
        ensures { IfOk result (λ held. option_copied held
            ≡ cancels.cancelled_request cancel.now self.now) }
    {
        let Some(branch) = branch_key(self.alloc, cancel)? else {
            return Ok(None);
        };
        match self.all.indices.branches.last_up_to(&(branch, self.next)) {
            Some(number) => Ok(self.all.requests.get(&number)),
            None => Ok(None),
        }
    }

    /// The id of the first INVITE whose 2xx this ACK is for.
    pub(crate) fn acknowledged_invite(&self, ack: &Message) -> Result<Option<Id>, AllocError>
        ensures { IfOk result (λ invite. invite ≡ acks.acknowledged_invite ack.now self.now) }
    {
        let key = ack_key(self.alloc, ack.to.tag(), ack.from.tag(), ack.cseq.number)?;
        Ok(self.invite_of_ack(key, ack))
    }

    // The first of the key that takes the ACK.
    fn invite_of_ack(&self, key: TextKey, ack: &Message) -> Option<Id>
        requires { key ≡ keys.ack_key (tag_of ack.now.to) (tag_of ack.now.from) ack.now.cseq.number }
        ensures { result ≡ acks.acknowledged_invite ack.now self.now }
    {
        let next = self.next;
        let mut least = (key, 0);
        while least.1 < next {
            let number = self.all.indices.acks.first_from(&least)?;
            let held = self.all.requests.get(&number)?;
            if takes_ack(held, ack) {
                return Some(held.id);
            }
            least.1 = number + 1;
        }
        None
    }

    /// The first INVITE of the dialog with a waiting response that the RAck names.
    pub(crate) fn named_invite(&self, name: &DialogId, created_by: Id, rack: &RAck) -> Option<Id>
        ensures { result ≡ named_invite self.now name.now created_by rack.now }
    {
        let next = self.next;
        let mut least = ((created_by, rack.cseq), 0);
        while least.1 < next {
            let number = self.all.indices.pracks.first_from(&least)?;
            let held = self.all.requests.get(&number)?;
            if takes_prack(held, name, created_by, rack) {
                return Some(held.id);
            }
            least.1 = number + 1;
        }
        None
    }

    /// Holds one more request, the last.
    pub(crate) fn push(&mut self, held: HeldRequest) -> Result<(), AllocError>
        ensures { OnOk result (self.new ≡ self.old ++ held ∷ []) }
    {
        if self.next >= u64::MAX {
            return Err(AllocError);
        }
        let Ok(()) = self.all.push(self.alloc, self.next, held) else {
            self.all = ByNumber::new(self.alloc);
            return Err(AllocError);
        };
        self.next += 1;
        Ok(())
    }

    /// Changes the request of this id, the first if there are several.
    pub(crate) fn change(&mut self, id: Id, change: Change) -> Result<(), AllocError>
        requires { moment_of change ≤ 2 ^ 62 }
        ensures { OnOk result (self.new ≡ changed_at id (after_change change.entry) self.old) }
    {
        let Ok(()) = self.all.change(self.alloc, id, change) else {
            self.all = ByNumber::new(self.alloc);
            return Err(AllocError);
        };
        Ok(())
    }

    /// Does what is due for each held request at the moment `now`, in ms, and removes those whose
    /// moment of removal has come.
    pub(crate) fn tick(&mut self, now: u64, outs: &mut Vec<CallOut>) -> Result<(), AllocError>
        requires { now ≤ 2 ^ 62 }
        ensures requests { OnOk result (self.new ≡ filter (is_kept_at now)
            (map (λ held. (request_ticked now held).0) self.old)) }
        ensures outs { OnOk result (outs.new.items ≡ outs.old.items
            ++ flat_map (λ held. (request_ticked now held).1) self.old) }
    {
        let Ok(()) = self.all.tick(self.alloc, now, outs) else {
            self.all = ByNumber::new(self.alloc);
            return Err(AllocError);
        };
        Ok(())
    }
}

impl Drop for IndexedRequests {
    fn drop(self) {
        let IndexedRequests {
            alloc: _,
            next: _,
            all: _,
        } = self;
    }
}
