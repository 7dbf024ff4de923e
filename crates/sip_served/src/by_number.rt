//! Held requests by number.

ghost use Rattle.std.specs.Prelude.{◌≡◌, ◌≤◌, ◌^◌, ◌+◌, ◌++◌, [], ◌∷◌, ℕ, Option, None, OnOk, cond, filter, map};
ghost use Rattle.std.specs.List.{flat_map};
ghost use Rattle.std.specs.Map.{values_of};
ghost use Rattle.std.specs.Option.{option_and_then};
ghost use Rattle.std.specs.BTreeMap.{IsOrdered, is_at};
ghost use Rattle.std.specs.Ordering.{nat_cmp};
ghost use Rattle.sip_timers.specs.Index as timers;
ghost use Rattle.sip_served.specs.State.{changed_at};
ghost use Rattle.sip_served.specs.Steps.Change.{after_change, moment_of};
ghost use Rattle.sip_served.specs.Steps.Indexed.{IsBelow, IsByNumber, at, due_at, kept_ticked, number_ticked, number_told};
ghost use Rattle.sip_served.specs.Steps.Indices.{IsIndices};
ghost use Rattle.sip_served.specs.Tick.{is_kept_at, request_ticked};

use crate::change::{Change, apply};
use crate::held_request::HeldRequest;
use crate::indices::Indices;
use crate::request_keys::prack_of;
use crate::retransmissions::{is_kept, request_due, tick_request};
use sip_message::Id;
use sip_timers::Schedule;
use sip_user::CallOut;
use std::alloc::{AllocError, Global};
use std::collections::BTreeMap;

/// Held requests by number, in the order in which they came up.
pub(crate) struct ByNumber {
    pub(crate) requests: BTreeMap<u64, HeldRequest>,
    pub(crate) indices: Indices,
    /// When something of a request is due.
    pub(crate) dues: Schedule<u64>,
}

impl ByNumber {
    /// No request. Takes no memory.
    pub(crate) fn new(alloc: Global) -> ByNumber
        ensures none { result.requests.entries ≡ [] }
        ensures numbered { IsByNumber result }
        ensures below { (next : ℕ) → IsBelow next result }
    {
        ByNumber {
            requests: BTreeMap::new(alloc),
            indices: Indices::new(alloc),
            dues: Schedule::new(alloc),
        }
    }

    /// Adds a request, the last, with the number `next`.
    pub(crate) fn push(
        &mut self,
        alloc: Global,
        next: u64,
        held: HeldRequest,
    ) -> Result<(), AllocError>
        requires numbered { IsByNumber self.old }
        requires below { IsBelow next self.old }
        ensures numbered { OnOk result (IsByNumber self.new) }
        ensures below { OnOk result (IsBelow (next + 1) self.new) }
        ensures held { OnOk result (values_of self.new.requests.entries
            ≡ values_of self.old.requests.entries ++ held ∷ []) }
    {
        self.indices.insert(alloc, &held, next)?;
        move_due(&mut self.dues, next, None, request_due(&held))?;
        self.requests.insert(next, held)?;
        Ok(())
    }

    /// Changes the request of this id, the first if there are several.
    pub(crate) fn change(&mut self, alloc: Global, id: Id, change: Change) -> Result<(), AllocError>
        requires moment { moment_of change ≤ 2 ^ 62 }
        requires numbered { IsByNumber self.old }
        ensures numbered { OnOk result (IsByNumber self.new) }
        ensures below { OnOk result ((next : ℕ) → IsBelow next self.old → IsBelow next self.new) }
        ensures held { OnOk result (values_of self.new.requests.entries
            ≡ changed_at id (after_change change.entry) (values_of self.old.requests.entries)) }
    {
        let Some(number) = self.indices.ids.first_from(&(id, 0)) else {
            return Ok(());
        };
        let Some(held) = self.requests.get_mut(&number) else {
            return Ok(());
        };
        let former_due = request_due(held);
        let former_key = prack_of(held);
        apply(alloc, held, change)?;
        move_due(&mut self.dues, number, former_due, request_due(held))?;
        self.indices
            .pracks
            .rekey(former_key, prack_of(held), number)
    }

    /// Does what is due for each request at the moment `now`, in ms, and removes those whose moment
    /// of removal has come.
    pub(crate) fn tick(
        &mut self,
        alloc: Global,
        now: u64,
        outs: &mut Vec<CallOut>,
    ) -> Result<(), AllocError>
        requires moment { now ≤ 2 ^ 62 }
        requires numbered { IsByNumber self.old }
        ensures numbered { OnOk result (IsByNumber self.new) }
        ensures below { OnOk result ((next : ℕ) → IsBelow next self.old → IsBelow next self.new) }
        ensures held { OnOk result (values_of self.new.requests.entries
            ≡ filter (is_kept_at now) (map (λ held. (request_ticked now held).0)
            (values_of self.old.requests.entries))) }
        ensures outs { OnOk result (outs.new.items ≡ outs.old.items
            ++ flat_map (λ held. (request_ticked now held).1)
            (values_of self.old.requests.entries)) }
    {
        let numbers = self.dues.take_due(now)?;
        for number in numbers.as_slice() {
            self.tick_number(alloc, *number, now, outs)?;
        }
        Ok(())
    }

    // Does what is due for the request of this number.
    fn tick_number(
        &mut self,
        alloc: Global,
        number: u64,
        now: u64,
        outs: &mut Vec<CallOut>,
    ) -> Result<(), AllocError>
        requires { now ≤ 2 ^ 62 }
        ensures requests { OnOk result (self.new.requests.entries
            ≡ number_ticked now number self.old.requests) }
        ensures outs { OnOk result (outs.new.items
            ≡ outs.old.items ++ number_told now number self.old.requests) }
        ensures ordered { OnOk result (IsOrdered nat_cmp self.new.requests) }
        ensures moves { OnOk result ((q : ℕ) → at self.new.requests q
            ≡ cond (is_at (nat_cmp number) q)
            (option_and_then (kept_ticked now) (at self.old.requests number))
            (at self.old.requests q)) }
        ensures indices { OnOk result (IsIndices (at self.old.requests) self.old.indices
            → IsIndices (at self.new.requests) self.new.indices) }
        ensures dues { OnOk result ((moments : ℕ → Option ℕ)
            → timers.IsIndexOf nat_cmp moments self.old.dues → moments number ≡ None
            → timers.IsIndexOf nat_cmp
            (timers.with_moment nat_cmp moments number (due_at self.new.requests number))
            self.new.dues) }
    {
        let Some(held) = self.requests.get_mut(&number) else {
            return Ok(());
        };
        tick_request(alloc, held, now, outs)?;
        if is_kept(held, now) {
            return move_due(&mut self.dues, number, None, request_due(held));
        }
        self.indices.remove(alloc, held, number)?;
        self.requests.remove(&number);
        Ok(())
    }
}

// Notes that something of the request of this number is due at another moment than before.
fn move_due(
    dues: &mut Schedule<u64>,
    number: u64,
    former: Option<u64>,
    due: Option<u64>,
) -> Result<(), AllocError>
    ensures { OnOk result ((moments : ℕ → Option ℕ)
        → timers.IsIndexOf nat_cmp moments dues.old → moments number ≡ former
        → timers.IsIndexOf nat_cmp (timers.with_moment nat_cmp moments number due) dues.new) }
{
    match (former, due) {
        (None, None) => {}
        (None, Some(due)) => dues.arm(number, due)?,
        (Some(former), None) => dues.disarm(number, former),
        (Some(former), Some(due)) => dues.rearm(number, former, due)?,
    }
    Ok(())
}

impl Drop for ByNumber {
    fn drop(self) {
        let ByNumber {
            requests: _,
            indices: _,
            dues: _,
        } = self;
    }
}
