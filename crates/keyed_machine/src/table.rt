//! The table of the held keys.

ghost use Rattle.std.specs.Prelude.{◌≡◌, ◌≤◌, ◌^◌, ℕ, Bool, List, Option, Some, None, [], IfOk, IfSome, OnOk, OnErr, IsTrue, cond, length, true, false, count_by, is_some, IsErr, IsSome};
ghost use Rattle.std.specs.Option.{option_copied, option_map};
ghost use Rattle.std.specs.BTreeMap.{is_at};
ghost use Rattle.keyed_machine.specs.Machine.{due_of, given_at, next, adds, tick_at};
ghost use Rattle.keyed_machine.specs.Table.{AreDues, Held, IsCalm, state_at, state_in, entries_of, Covers, StepsKey, StepsAll};
ghost use Rattle.keyed_machine.specs.Phase.{AddsPhase, DealsPhase, phase_at};
ghost use Rattle.keyed_machine.specs.Groups.{groups};
ghost use Rattle.keyed_machine.specs.History.{AddsInput, AddsInputs};
ghost use Rattle.sip_timers.specs.Queue.{is_due};

use crate::comparable_machine::ComparableMachine;
use crate::fault::ShardFault;
use crate::item::Item;
use crate::items::deal_items;
use crate::machine::StateMachine;
use crate::one_key::{hold_key, step_key};
use crate::phase_outputs::PhaseOutputs;
use crate::same_states::hold_the_same;
use crate::states::find;
use crate::ticks::{joined, tick_due, tick_if};
use seeded_hash::HashSeed;
use sip_timers::Schedule;
use std::alloc::{AllocError, Global};
use std::collections::HashMap;
use std::marker::Model;

/// The keys that have a state, with those states.
///
/// If a call answers [`ShardFault::NoMemory`], the table is broken: it holds nothing, and every
/// later call that can fail answers [`ShardFault::Broken`].
pub struct Table<M: StateMachine> {
    alloc: Global,
    live: Option<Live<M>>,
}

impl<M: StateMachine> Model for Table<M> {
    ghost use Rattle.keyed_machine.specs.Table.{Held};

    ghost Value = { Held M.Key M.State };

    ghost view = { λ t. t.live };
}

impl<M: StateMachine> Drop for Table<M> {
    fn drop(self) {
        let Table { alloc: _, live: _ } = self;
    }
}

// The held states, and the moment in ms at which each is due, if there is one.
struct Live<M: StateMachine> {
    states: HashMap<M::Key, M::State, HashSeed>,
    dues: Schedule<M::Key>,
}

impl<M: StateMachine> Model for Live<M> {
    ghost use Rattle.std.specs.Prelude.{List};
    ghost use Rattle.keyed_machine.specs.Table.{state_in, AreDues};

    ghost Value = { List (M.Key × M.State) };

    ghost view = { λ l. l.states.entries };

    ghost invariant = { λ l. AreDues M.Key.cmp M.due (state_in M.Key.cmp l.states.entries) l.dues };
}

impl<M: StateMachine> Live<M> {
    // The first moment at which a key is due.
    fn next_due(&self) -> Option<u64>
        ensures before { (now : ℕ) → is_due now result ≡ false
            → IsCalm M.due (state_in M.Key.cmp self.now) now }
        ensures due { IfSome result (λ due. (key : M.Key)
            × (due_of M.due (state_in M.Key.cmp self.now key) ≡ Some due)) }
    {
        self.dues.next_due()
    }

    // Whether there is no tick at the moment, or no key is due at it.
    fn is_calm(&self, now: u64, ticks: bool) -> bool
        ensures { IsTrue result → ticks ≡ true → IsCalm M.due (state_in M.Key.cmp self.now) now }
    {
        if !ticks {
            return true;
        }
        match self.next_due() {
            Some(due) => now < due,
            None => true,
        }
    }

    fn into_parts(self) -> (HashMap<M::Key, M::State, HashSeed>, Schedule<M::Key>)
        ensures states { result.0.entries ≡ self }
        ensures dues { AreDues M.Key.cmp M.due (state_in M.Key.cmp result.0.entries) result.1 }
    {
        let Live { states, dues } = self;
        (states, dues)
    }
}

impl<M: StateMachine> Drop for Live<M> {
    fn drop(self) {
        let Live { states: _, dues: _ } = self;
    }
}

impl<M: StateMachine> Table<M> {
    /// A table that holds nothing, with the seed of its hashes.
    pub fn new(alloc: Global, seed: HashSeed) -> Self
        ensures { result ≡ Some [] }
    {
        Table {
            alloc,
            live: Some(Live {
                states: HashMap::with_hasher(alloc, seed),
                dues: Schedule::new(alloc),
            }),
        }
    }

    /// How many keys are held.
    pub fn live(&self) -> usize
        ensures entries { result ≡ length (entries_of self.now) }
        ensures counts { (keys : List M.Key) → Covers M.Key.cmp keys (state_at M.Key.cmp self.now)
            → result ≡ count_by (λ key. is_some (state_at M.Key.cmp self.now key)) keys }
    {
        match &self.live {
            None => 0,
            Some(live) => live.states.len(),
        }
    }

    /// The state that is held for a key.
    pub fn state(&self, key: &M::Key) -> Option<&M::State>
        ensures { option_copied result ≡ state_at M.Key.cmp self.now key.now }
    {
        find(&self.live.as_ref()?.states, key)
    }

    /// The held keys with their states, in any order. A broken table has none to give.
    pub fn into_states(self) -> Option<HashMap<M::Key, M::State, HashSeed>>
        ensures { option_map (λ states. states.entries) result ≡ self }
    {
        let (states, _) = self.into_parts()?.into_parts();
        Some(states)
    }

    fn into_parts(self) -> Option<Live<M>>
        ensures { result ≡ self }
    {
        let Table { alloc: _, live } = self;
        live
    }

    /// Holds a key with this state, in place of any state that it had.
    pub fn put(&mut self, machine: &M, key: M::Key, state: M::State) -> Result<(), ShardFault>
        ensures broken { self.old ≡ None → result ≡ Err ShardFault.Broken }
        ensures only_broken { result ≡ Err ShardFault.Broken → self.old ≡ None }
        ensures err { OnErr result (self.new ≡ None) }
        ensures sound { OnOk result (IsSome self.new) }
        ensures states { OnOk result ((q : M.Key)
            → state_at M.Key.cmp self.new q
            ≡ cond (is_at (M.Key.cmp key) q) (Some state) (state_at M.Key.cmp self.old q)) }
    {
        let (mut states, mut dues) = self.live.take().ok_or(ShardFault::Broken)?.into_parts();
        hold_key(machine, &mut states, &mut dues, key, state)?;
        self.live = Some(Live { states, dues });
        Ok(())
    }

    /// Passes on a value that was made outside the table. If memory ran out there, the table is
    /// broken from then on.
    pub fn check<T: Drop>(&mut self, given: Result<T, AllocError>) -> Result<T, ShardFault>
        ensures broken { self.old ≡ None → result ≡ Err ShardFault.Broken }
        ensures only_broken { result ≡ Err ShardFault.Broken → self.old ≡ None }
        ensures err { OnErr result (self.new ≡ None) }
        ensures refused { IsErr given → IsErr result }
        ensures ok { IfOk result (λ value. (given ≡ Ok value) × (self.new ≡ self.old)) }
    {
        let live = self.live.take().ok_or(ShardFault::Broken)?;
        let value = given?;
        self.live = Some(live);
        Ok(value)
    }

    /// Gives one key an input at a moment in ms, and answers the outputs of its machine.
    pub fn handle(
        &mut self,
        machine: &M,
        key: M::Key,
        now: u64,
        input: M::Input,
    ) -> Result<Vec<M::Output>, ShardFault>
        requires { now ≤ 2 ^ 62 }
        ensures broken { self.old ≡ None → result ≡ Err ShardFault.Broken }
        ensures only_broken { result ≡ Err ShardFault.Broken → self.old ≡ None }
        ensures err { OnErr result (self.new ≡ None) }
        ensures step { IfOk result (λ outputs.
            StepsKey M.Key.cmp (M.machine machine.now) self.old self.new key (given_at now input)
            outputs.items) }
        ensures histories { IfOk result
            (λ outputs. AddsInput M.Key.cmp
            (M.machine machine.now) self.old self.new key (given_at now input) outputs.items) }
    {
        let (mut states, mut dues) = self.live.take().ok_or(ShardFault::Broken)?.into_parts();
        let outputs = step_key(self.alloc, machine, &mut states, &mut dues, key, now, input)?;
        self.live = Some(Live { states, dues });
        Ok(outputs)
    }

    /// Gives every held key a tick at a moment in ms, in key order. It only looks at the keys that
    /// are due.
    pub fn tick(&mut self, machine: &M, now: u64) -> Result<Vec<M::Output>, ShardFault>
        requires { now ≤ 2 ^ 62 }
        ensures broken { self.old ≡ None → result ≡ Err ShardFault.Broken }
        ensures only_broken { result ≡ Err ShardFault.Broken → self.old ≡ None }
        ensures err { OnErr result (self.new ≡ None) }
        ensures step { IfOk result (λ outputs.
            StepsAll M.Key.cmp (M.machine machine.now) self.old self.new
            (tick_at now) outputs.items) }
        ensures histories { IfOk result
            (λ outputs. AddsInputs M.Key.cmp (M.machine machine.now) self.old self.new
            (tick_at now) outputs.items) }
    {
        let (mut states, mut dues) = self.live.take().ok_or(ShardFault::Broken)?.into_parts();
        let told = tick_due(self.alloc, machine, &mut states, &mut dues, now)?;
        let outputs = joined(self.alloc, told)?;
        self.live = Some(Live { states, dues });
        Ok(outputs)
    }

    /// The first moment, in ms, at which a held key is due, if there is one. A phase without items
    /// that is before it or has no tick changes nothing and says nothing. Takes no memory.
    pub fn next_due(&self, _machine: &M) -> Option<u64>
        ensures before { IsSome self.now → (now : ℕ) (ticks : Bool)
            → (ticks ≡ true → is_due now result ≡ false)
            → AddsPhase M.Key.cmp (M.machine _machine.now) tick_at
            self.now self.now (phase_at now ticks []) [] [] }
        ensures due { IfSome result (λ due. (key : M.Key)
            × (due_of M.due (state_at M.Key.cmp self.now key) ≡ Some due)) }
    {
        match &self.live {
            None => None,
            Some(live) => live.next_due(),
        }
    }

    /// Whether a phase without items, at a moment in ms, with a tick or without, changes nothing
    /// and says nothing. Takes no memory.
    pub fn is_idle(&self, _machine: &M, now: u64, ticks: bool) -> bool
        ensures phases { IsTrue result
            → AddsPhase M.Key.cmp (M.machine _machine.now) tick_at
            self.now self.now (phase_at now ticks []) [] [] }
    {
        match &self.live {
            None => false,
            Some(live) => live.is_calm(now, ticks),
        }
    }

    /// Gives every key a tick at a moment in ms, if the phase has one, and then each item to its
    /// key, in the order of the items.
    pub fn deal(
        &mut self,
        machine: &M,
        now: u64,
        ticks: bool,
        items: Vec<Item<M::Key, M::Input>>,
    ) -> Result<PhaseOutputs<M::Key, M::Output>, ShardFault>
        requires { now ≤ 2 ^ 62 }
        ensures broken { self.old ≡ None → result ≡ Err ShardFault.Broken }
        ensures only_broken { result ≡ Err ShardFault.Broken → self.old ≡ None }
        ensures err { OnErr result (self.new ≡ None) }
        ensures step { IfOk result (λ replies.
            DealsPhase M.Key.cmp (M.machine machine.now) tick_at self.old self.new
            (phase_at now ticks items.items) (groups replies.ticks.items)
            (groups replies.items.items)) }
        ensures phases { IfOk result (λ replies.
            AddsPhase M.Key.cmp (M.machine machine.now) tick_at self.old self.new
            (phase_at now ticks items.items) (groups replies.ticks.items)
            (groups replies.items.items)) }
    {
        let (mut states, mut dues) = self.live.take().ok_or(ShardFault::Broken)?.into_parts();
        let ticks = tick_if(self.alloc, machine, &mut states, &mut dues, now, ticks)?;
        let items = deal_items(self.alloc, machine, &mut states, &mut dues, now, items)?;
        self.live = Some(Live { states, dues });
        Ok(PhaseOutputs { ticks, items })
    }
}

impl<M: ComparableMachine> Table<M> {
    ghost use Rattle.std.specs.Prelude.{◌↔◌};
    ghost use Rattle.keyed_machine.specs.SameTables.{HoldTheSame};

    /// Whether another table holds the same keys with the same states. A broken table never does.
    /// Takes no memory.
    pub fn holds_the_same(&self, machine: &M, other: &Table<M>) -> bool
        ensures { IsTrue result ↔ HoldTheSame M.Key.cmp self.now other.now }
    {
        match (&self.live, &other.live) {
            (Some(live), Some(other)) => hold_the_same(machine, &live.states, &other.states),
            _ => false,
        }
    }
}
