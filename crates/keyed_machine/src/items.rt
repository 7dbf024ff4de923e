//! Items, each given to its key, one after another.

ghost use Rattle.std.specs.Prelude.{◌≡◌, ◌≤◌, ◌^◌, List, IfOk, OnOk, map};
ghost use Rattle.keyed_machine.specs.Phase.{by_place, timed_items, states_then, told_items};
ghost use Rattle.keyed_machine.specs.Table.{AreDues, state_in};
ghost use Rattle.keyed_machine.specs.Groups.{groups};

use crate::item::Item;
use crate::machine::StateMachine;
use crate::one_key::step_key;
use seeded_hash::HashSeed;
use sip_timers::Schedule;
use std::alloc::{AllocError, Global};
use std::collections::HashMap;

/// Gives each item to its key at a moment in ms, and answers the outputs of each, with its place.
pub(crate) fn deal_items<M: StateMachine>(
    alloc: Global,
    machine: &M,
    states: &mut HashMap<M::Key, M::State, HashSeed>,
    dues: &mut Schedule<M::Key>,
    now: u64,
    items: Vec<Item<M::Key, M::Input>>,
) -> Result<Vec<(usize, Vec<M::Output>)>, AllocError>
    requires moment { now ≤ 2 ^ 62 }
    requires armed { AreDues M.Key.cmp M.due (state_in M.Key.cmp states.old.entries) dues.old }
    ensures states { OnOk result ((q : M.Key)
        → state_in M.Key.cmp states.new.entries q ≡ states_then M.Key.cmp (M.machine machine.now)
        (state_in M.Key.cmp states.old.entries) (timed_items now items.items) q) }
    ensures armed { OnOk result
        (AreDues M.Key.cmp M.due (state_in M.Key.cmp states.new.entries) dues.new) }
    ensures told { IfOk result (λ told. groups told.items
        ≡ map by_place (told_items M.Key.cmp (M.machine machine.now)
        (state_in M.Key.cmp states.old.entries) (timed_items now items.items))) }
{
    let mut told = Vec::with_capacity(alloc, items.len())?;
    for Item { place, key, input } in items {
        let outputs = step_key(alloc, machine, states, dues, key, now, input)?;
        told.push((place, outputs))?;
    }
    Ok(told)
}
