//! The shard of calls.

ghost use Rattle.std.specs.Prelude.{◌≡◌, ◌≤◌, ◌^◌, ℕ, List, [], Some, None, Err, OnErr, IfOk, length, count_by, is_some};
ghost use Rattle.keyed_machine.specs.Table.{entries_of, state_at, Covers, StepsAll, StepsKey};
ghost use Rattle.keyed_machine.specs.History.{AddsInput, AddsInputs};
ghost use Rattle.keyed_machine.specs.Machine.{tick_at};
ghost use Rattle.sip_user.specs.Command.{call_of_item};
ghost use Rattle.sip_calls.specs.Call.{call_machine};

use crate::call::Call;
use crate::calls::Calls;
use keyed_machine::{
    ComparableShard, Item as ShardItem, KeyShard, PhaseOutputs, ShardFault, Table,
};
use seeded_hash::HashSeed;
use sip_message::{Addr, CallId, Id};
use sip_user::{CallOut, Item};
use std::alloc::Global;
use std::collections::HashMap;
use std::marker::Model;

/// Calls by Call-ID. A Call-ID under which nothing is held has no call.
///
/// After a method returned [`ShardFault::NoMemory`] the shard is broken: it holds nothing, and
/// every later call that can fail returns [`ShardFault::Broken`].
#[derive(Drop)]
pub struct CallShard {
    calls: Calls,
    table: Table<Calls>,
}

impl Model for CallShard {
    ghost use Rattle.sip_calls.specs.CallShard.{HeldCalls};

    ghost Value = { HeldCalls };

    ghost view = { λ s. record { calls = s.calls; held = s.table } };
}

impl CallShard {
    ghost use Rattle.sip_calls.specs.CallShard.{HeldCalls, call_cmp, item_input};

    /// A shard without calls, of an agent at the address `local`; `seed` is the key of its made
    /// names, and of its hashes. Takes no memory.
    pub fn new(alloc: Global, local: Addr, seed: [u8; 32]) -> CallShard
        ensures { result ≡ record {
          calls = record { local = local; seed = seed };
          held = Some [];
        } }
    {
        CallShard {
            calls: Calls { local, seed },
            table: Table::new(alloc, HashSeed::of(&seed)),
        }
    }

    /// How many calls are held.
    pub fn live(&self) -> usize
        ensures entries { result ≡ length (entries_of self.now.held) }
        ensures counts { (keys : List (List ℕ))
            → Covers call_cmp keys (state_at call_cmp self.now.held)
            → result ≡ count_by (λ key. is_some (state_at call_cmp self.now.held key)) keys }
    {
        self.table.live()
    }

    /// Tells every held call, in the order of their Call-IDs, that the moment `now`, in ms, has
    /// come.
    pub fn tick(&mut self, now: u64) -> Result<Vec<CallOut>, ShardFault>
        requires { now ≤ 2 ^ 62 }
        ensures shared { self.new.calls ≡ self.old.calls }
        ensures broken { self.old.held ≡ None → result ≡ Err ShardFault.Broken }
        ensures only_broken { result ≡ Err ShardFault.Broken → self.old.held ≡ None }
        ensures err { OnErr result (self.new.held ≡ None) }
        ensures step { IfOk result (λ outs.
            StepsAll call_cmp (call_machine self.old.calls) self.old.held self.new.held
            (tick_at now) outs.items) }
        ensures histories { IfOk result
            (λ outs. AddsInputs call_cmp (call_machine self.old.calls) self.old.held self.new.held
            (tick_at now) outs.items) }
    {
        self.table.tick(&self.calls, now)
    }

    /// Gives an item to the call of its Call-ID, at the moment `now` in ms. The id is that of the
    /// item's event.
    pub fn item(&mut self, id: Id, item: Item, now: u64) -> Result<Vec<CallOut>, ShardFault>
        requires { now ≤ 2 ^ 62 }
        ensures shared { self.new.calls ≡ self.old.calls }
        ensures broken { self.old.held ≡ None → result ≡ Err ShardFault.Broken }
        ensures only_broken { result ≡ Err ShardFault.Broken → self.old.held ≡ None }
        ensures err { OnErr result (self.new.held ≡ None) }
        ensures step { IfOk result (λ outs.
            StepsKey call_cmp (call_machine self.old.calls) self.old.held self.new.held
            (call_of_item item) (item_input id item now) outs.items) }
        ensures histories { IfOk result
            (λ outs. AddsInput call_cmp (call_machine self.old.calls) self.old.held self.new.held
            (call_of_item item) (item_input id item now) outs.items) }
    {
        let call_id = self.table.check(item.call_id().clone())?;
        self.table.handle(&self.calls, call_id, now, (id, item))
    }
}

impl KeyShard for CallShard {
    ghost use Rattle.keyed_machine.specs.Groups.{groups};
    ghost use Rattle.keyed_machine.specs.Phase.{AddsPhase, phase_at};
    ghost use Rattle.sip_calls.specs.CallShard.{call_cmp};

    type Machine = Calls;

    ghost machine = { λ shard. shard.calls };

    ghost held = { λ shard. shard.held };

    fn live(&self) -> usize {
        self.table.live()
    }

    fn next_due(&self) -> Option<u64> {
        self.table.next_due(&self.calls)
    }

    fn is_idle(&self, now: u64, ticks: bool) -> bool {
        self.table.is_idle(&self.calls, now, ticks)
    }

    fn deal(
        &mut self,
        now: u64,
        ticks: bool,
        items: Vec<ShardItem<CallId, (Id, Item)>>,
    ) -> Result<PhaseOutputs<CallId, CallOut>, ShardFault>
        requires { now ≤ 2 ^ 62 }
        ensures shared { self.new.calls ≡ self.old.calls }
        ensures broken { self.old.held ≡ None → result ≡ Err ShardFault.Broken }
        ensures only_broken { result ≡ Err ShardFault.Broken → self.old.held ≡ None }
        ensures err { OnErr result (self.new.held ≡ None) }
        ensures phases { IfOk result (λ replies.
            AddsPhase call_cmp (call_machine self.old.calls) tick_at
            self.old.held self.new.held (phase_at now ticks items.items)
            (groups replies.ticks.items) (groups replies.items.items)) }
    {
        self.table.deal(&self.calls, now, ticks, items)
    }

    fn put(&mut self, key: CallId, state: Call) -> Result<(), ShardFault> {
        self.table.put(&self.calls, key, state)
    }

    fn into_states(self) -> Option<HashMap<CallId, Call, HashSeed>> {
        let CallShard { calls: _, table } = self;
        table.into_states()
    }
}

impl ComparableShard for CallShard {
    fn holds_the_same(&self, other: &CallShard) -> bool {
        self.table.holds_the_same(&self.calls, &other.table)
    }
}
