//! A tick for every key that is due.

ghost use Rattle.std.specs.Prelude.{◌≡◌, ◌≤◌, ◌^◌, List, IfOk, OnOk, Some, None, if◌then◌else◌};
ghost use Rattle.std.specs.List.{flat_map};
ghost use Rattle.keyed_machine.specs.Machine.{next, tick_at};
ghost use Rattle.keyed_machine.specs.Table.{AreDues, Covers, state_in};
ghost use Rattle.keyed_machine.specs.Phase.{ticked, told_tick};
ghost use Rattle.keyed_machine.specs.Groups.{groups, told_ticks, with_said};

use crate::machine::StateMachine;
use crate::one_key::tick_key;
use seeded_hash::HashSeed;
use sip_timers::Schedule;
use std::alloc::{AllocError, Global};
use std::collections::HashMap;

/// Gives every key that is due a tick at a moment in ms, in key order. Answers the outputs of each
/// key that has any.
pub(crate) fn tick_due<M: StateMachine>(
    alloc: Global,
    machine: &M,
    states: &mut HashMap<M::Key, M::State, HashSeed>,
    dues: &mut Schedule<M::Key>,
    now: u64,
) -> Result<Vec<(M::Key, Vec<M::Output>)>, AllocError>
    requires moment { now ≤ 2 ^ 62 }
    requires armed { AreDues M.Key.cmp M.due (state_in M.Key.cmp states.old.entries) dues.old }
    ensures states { OnOk result ((q : M.Key)
        → state_in M.Key.cmp states.new.entries q
        ≡ next (M.machine machine.now) q (state_in M.Key.cmp states.old.entries q)
        (tick_at now)) }
    ensures armed { OnOk result
        (AreDues M.Key.cmp M.due (state_in M.Key.cmp states.new.entries) dues.new) }
    ensures told { IfOk result (λ told. (keys : List M.Key)
        → Covers M.Key.cmp keys (state_in M.Key.cmp states.old.entries)
        → groups told.items ≡ told_ticks (M.machine machine.now)
        (state_in M.Key.cmp states.old.entries) (tick_at now) keys) }
{
    let due = dues.take_due(now)?;
    let mut told = Vec::new(alloc);
    for key in due {
        let outputs = tick_key(alloc, machine, states, dues, &key, now)?;
        tell(&mut told, key, outputs)?;
    }
    Ok(told)
}

/// The same if there is a tick; otherwise nothing is said.
pub(crate) fn tick_if<M: StateMachine>(
    alloc: Global,
    machine: &M,
    states: &mut HashMap<M::Key, M::State, HashSeed>,
    dues: &mut Schedule<M::Key>,
    now: u64,
    ticks: bool,
) -> Result<Vec<(M::Key, Vec<M::Output>)>, AllocError>
    requires moment { now ≤ 2 ^ 62 }
    requires armed { AreDues M.Key.cmp M.due (state_in M.Key.cmp states.old.entries) dues.old }
    ensures states { OnOk result ((q : M.Key)
        → state_in M.Key.cmp states.new.entries q ≡ ticked M.Key.cmp (M.machine machine.now)
        tick_at (state_in M.Key.cmp states.old.entries) (if ticks then Some now else None) q) }
    ensures armed { OnOk result
        (AreDues M.Key.cmp M.due (state_in M.Key.cmp states.new.entries) dues.new) }
    ensures told { IfOk result (λ told. (keys : List M.Key)
        → Covers M.Key.cmp keys (state_in M.Key.cmp states.old.entries)
        → groups told.items ≡ told_tick M.Key.cmp (M.machine machine.now)
        tick_at (state_in M.Key.cmp states.old.entries) (if ticks then Some now else None) keys) }
{
    if ticks {
        tick_due(alloc, machine, states, dues, now)
    } else {
        Ok(Vec::new(alloc))
    }
}

// Adds the outputs of one key at the end, if it has any.
fn tell<K: Drop, O: Drop>(
    told: &mut Vec<(K, Vec<O>)>,
    key: K,
    outputs: Vec<O>,
) -> Result<(), AllocError>
    ensures { OnOk result (groups told.new.items
        ≡ with_said (groups told.old.items) key outputs.items) }
{
    if !outputs.is_empty() {
        told.push((key, outputs))?;
    }
    Ok(())
}

/// All outputs, one group after another.
pub(crate) fn joined<L: Drop, O: Drop>(
    alloc: Global,
    told: Vec<(L, Vec<O>)>,
) -> Result<Vec<O>, AllocError>
    ensures { IfOk result (λ outputs. outputs.items
        ≡ flat_map (λ group. group.1.items) told.items) }
{
    let mut outputs = Vec::with_capacity(alloc, count_in(&told))?;
    for (_, mut said) in told {
        outputs.append(&mut said)?;
    }
    Ok(outputs)
}

// How many outputs there are in all groups.
fn count_in<L, O>(told: &[(L, Vec<O>)]) -> usize {
    let mut count: usize = 0;
    for group in told {
        count = count.saturating_add(group.1.len());
    }
    count
}
