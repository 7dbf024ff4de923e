//! A shard of a machine's keys, as the phases of a round use it.

ghost use Rattle.std.specs.Prelude.{◌≡◌, ◌≤◌, ◌^◌, ℕ, Bool, List, Some, None, Err, [], IfOk, IfSome, IsSome, IsTrue, OnErr, OnOk, cond, count_by, is_some, true, false};
ghost use Rattle.std.specs.Option.{option_map};
ghost use Rattle.std.specs.BTreeMap.{is_at};
ghost use Rattle.sip_timers.specs.Queue.{is_due};
ghost use Rattle.keyed_machine.specs.Groups.{groups};
ghost use Rattle.keyed_machine.specs.Machine.{due_of, tick_at};
ghost use Rattle.keyed_machine.specs.Phase.{AddsPhase, phase_at};
ghost use Rattle.keyed_machine.specs.Table.{Covers, Held, state_at};

use crate::fault::ShardFault;
use crate::item::Item;
use crate::machine::StateMachine;
use crate::phase_outputs::PhaseOutputs;
use seeded_hash::HashSeed;
use std::collections::HashMap;

/// Some keys of a machine, held together. A phase over many shards calls these functions of each.
///
/// If a call answers [`ShardFault::NoMemory`], the shard is broken: it holds nothing, and every
/// later call that can fail answers [`ShardFault::Broken`].
pub trait KeyShard {
    type Machine: StateMachine;

    /// The machine of its keys.
    ghost machine: { Self → Self.Machine };

    /// What it holds.
    ghost held: { Self → Held Self.Machine.Key Self.Machine.State };

    /// How many keys are held.
    fn live(&self) -> usize
        ensures { (keys : List Self.Machine.Key)
            → Covers Self.Machine.Key.cmp keys (state_at Self.Machine.Key.cmp (held self.now))
            → result ≡ count_by
            (λ key. is_some (state_at Self.Machine.Key.cmp (held self.now) key)) keys };

    /// The first moment, in ms, at which a held key is due, if there is one. A phase without items
    /// that is before it or has no tick changes nothing and says nothing. Takes no memory.
    fn next_due(&self) -> Option<u64>
        ensures before { IsSome (held self.now) → (now : ℕ) (ticks : Bool)
            → (ticks ≡ true → is_due now result ≡ false)
            → AddsPhase Self.Machine.Key.cmp (Self.Machine.machine (machine self.now)) tick_at
            (held self.now) (held self.now) (phase_at now ticks []) [] [] }
        ensures due { IfSome result (λ due. (key : Self.Machine.Key)
            × (due_of Self.Machine.due (state_at Self.Machine.Key.cmp (held self.now) key)
            ≡ Some due)) };

    /// Whether a phase without items, at a moment in ms, with a tick or without, changes nothing
    /// and says nothing. Takes no memory.
    fn is_idle(&self, now: u64, ticks: bool) -> bool
        ensures { IsTrue result
            → AddsPhase Self.Machine.Key.cmp (Self.Machine.machine (machine self.now)) tick_at
            (held self.now) (held self.now) (phase_at now ticks []) [] [] };

    /// Gives every key a tick at a moment in ms, if the phase has one, and then each item to its
    /// key, in the order of the items.
    fn deal(
        &mut self,
        now: u64,
        ticks: bool,
        items: Vec<
            Item<<Self::Machine as StateMachine>::Key, <Self::Machine as StateMachine>::Input>,
        >,
    ) -> Result<
        PhaseOutputs<<Self::Machine as StateMachine>::Key, <Self::Machine as StateMachine>::Output>,
        ShardFault,
    >
        requires { now ≤ 2 ^ 62 }
        ensures machine { machine self.new ≡ machine self.old }
        ensures broken { held self.old ≡ None → result ≡ Err ShardFault.Broken }
        ensures only_broken { result ≡ Err ShardFault.Broken → held self.old ≡ None }
        ensures err { OnErr result (held self.new ≡ None) }
        ensures phases { IfOk result (λ replies. AddsPhase Self.Machine.Key.cmp
            (Self.Machine.machine (machine self.old)) tick_at (held self.old) (held self.new)
            (phase_at now ticks items.items) (groups replies.ticks.items)
            (groups replies.items.items)) };

    /// Holds a key with this state, in place of any state that it had.
    fn put(
        &mut self,
        key: <Self::Machine as StateMachine>::Key,
        state: <Self::Machine as StateMachine>::State,
    ) -> Result<(), ShardFault>
        ensures machine { machine self.new ≡ machine self.old }
        ensures broken { held self.old ≡ None → result ≡ Err ShardFault.Broken }
        ensures only_broken { result ≡ Err ShardFault.Broken → held self.old ≡ None }
        ensures err { OnErr result (held self.new ≡ None) }
        ensures sound { OnOk result (IsSome (held self.new)) }
        ensures states { OnOk result ((q : Self.Machine.Key)
            → state_at Self.Machine.Key.cmp (held self.new) q
            ≡ cond (is_at (Self.Machine.Key.cmp key) q) (Some state)
            (state_at Self.Machine.Key.cmp (held self.old) q)) };

    /// The held keys with their states, in any order. A broken shard has none to give.
    fn into_states(
        self,
    ) -> Option<
        HashMap<
            <Self::Machine as StateMachine>::Key,
            <Self::Machine as StateMachine>::State,
            HashSeed,
        >,
    >
        ensures { option_map (λ states. states.entries) result ≡ held self };
}
