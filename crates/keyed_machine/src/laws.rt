//! Laws of machines, for any phases.

ghost use Rattle.keyed_machine.specs.Laws.{EachKeyAlone, ShardsHoldApart, ShardsWorkApart, ToldInOrder};
ghost use Rattle.keyed_machine.specs.Machine.{tick_at};
ghost use Rattle.keyed_machine.specs.Rules.{SaidByAKey, SaidByHistories};
ghost use Rattle.keyed_machine.specs.Shards.{ShardsTellAll};

use crate::machine::StateMachine;

/// What phases say for a key, after other phases, is what that key's own inputs add. A shard that
/// is given its part of each phase says its part of the outputs, and holds the states of its own
/// keys. The outputs of all shards, joined and sorted, are those of all keys together. The outputs
/// of a tick are in the order of the keys, and those of items in the order of their places.
pub fn laws_of_phases<M: StateMachine>(_machine: &M)
    ensures each_key_alone { EachKeyAlone M.Key.cmp (M.machine _machine.now) tick_at }
    ensures shards_work_apart { ShardsWorkApart M.Key.cmp (M.machine _machine.now) tick_at }
    ensures shards_hold_apart { ShardsHoldApart M.Key.cmp (M.machine _machine.now) tick_at }
    ensures shards_tell_all { ShardsTellAll M.Key.cmp (M.machine _machine.now) tick_at }
    ensures told_in_order { ToldInOrder M.Key.cmp (M.machine _machine.now) tick_at }
{}

/// What is said in a phase, to its tick and to each item, is what the machine adds after the key's
/// own inputs; so is what a key says in several phases.
pub fn phases_are_said_by_histories<M: StateMachine>(_machine: &M)
    ensures phase { SaidByHistories M.Key.cmp (M.machine _machine.now) tick_at }
    ensures key { SaidByAKey M.Key.cmp (M.machine _machine.now) tick_at }
{}
