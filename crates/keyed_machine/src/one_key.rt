//! One input of one key, given to the held states and their due moments.

ghost use Rattle.std.specs.Prelude.{◌≡◌, ◌≤◌, ◌^◌, ℕ, Option, None, Some, true, IfOk, OnOk, cond, if◌then◌else◌};
ghost use Rattle.std.specs.Option.{option_copied};
ghost use Rattle.std.specs.BTreeMap.{is_at};
ghost use Rattle.std.specs.HashMap.{get};
ghost use Rattle.sip_timers.specs.Index.{IsIndexOf, with_moment};
ghost use Rattle.keyed_machine.specs.Machine.{given_at, next, adds, due_of, tick_at};
ghost use Rattle.keyed_machine.specs.Table.{AreDues, state_in};

use crate::machine::StateMachine;
use crate::states::{hold, take_entry, take_state};
use seeded_hash::HashSeed;
use sip_timers::Schedule;
use std::alloc::{AllocError, Global};
use std::collections::HashMap;
use std::collections::hash_map::Entry;
use std::hash::Hash;

/// Gives one key an input at a moment in ms, and answers the outputs of its machine.
pub(crate) fn step_key<M: StateMachine>(
    alloc: Global,
    machine: &M,
    states: &mut HashMap<M::Key, M::State, HashSeed>,
    dues: &mut Schedule<M::Key>,
    key: M::Key,
    now: u64,
    input: M::Input,
) -> Result<Vec<M::Output>, AllocError>
    requires moment { now ≤ 2 ^ 62 }
    requires armed { AreDues M.Key.cmp M.due (state_in M.Key.cmp states.old.entries) dues.old }
    ensures states { OnOk result ((q : M.Key) → state_in M.Key.cmp states.new.entries q
        ≡ cond (is_at (M.Key.cmp key) q)
        (next (M.machine machine.now) key (state_in M.Key.cmp states.old.entries key)
        (given_at now input))
        (state_in M.Key.cmp states.old.entries q)) }
    ensures armed { OnOk result
        (AreDues M.Key.cmp M.due (state_in M.Key.cmp states.new.entries) dues.new) }
    ensures added { IfOk result (λ outputs. outputs.items
        ≡ adds (M.machine machine.now) key (state_in M.Key.cmp states.old.entries key)
        (given_at now input)) }
{
    if machine.may_begin(&input) {
        return enter_key(alloc, machine, states, dues, key, now, input);
    }
    let Some(state) = states.get_mut(&key) else {
        return enter_key(alloc, machine, states, dues, key, now, input);
    };
    let former = machine.due_of(state);
    let (stays, outputs) = machine.step(alloc, &key, state, now, input)?;
    let due = if stays { machine.due_of(state) } else { None };
    settle(states, dues, key, stays, former, due)?;
    Ok(outputs)
}

// The same, with one look-up if the key isn't held; if it is, the key is copied.
fn enter_key<M: StateMachine>(
    alloc: Global,
    machine: &M,
    states: &mut HashMap<M::Key, M::State, HashSeed>,
    dues: &mut Schedule<M::Key>,
    key: M::Key,
    now: u64,
    input: M::Input,
) -> Result<Vec<M::Output>, AllocError>
    requires moment { now ≤ 2 ^ 62 }
    requires armed { AreDues M.Key.cmp M.due (state_in M.Key.cmp states.old.entries) dues.old }
    ensures states { OnOk result ((q : M.Key) → state_in M.Key.cmp states.new.entries q
        ≡ cond (is_at (M.Key.cmp key) q)
        (next (M.machine machine.now) key (state_in M.Key.cmp states.old.entries key)
        (given_at now input))
        (state_in M.Key.cmp states.old.entries q)) }
    ensures armed { OnOk result
        (AreDues M.Key.cmp M.due (state_in M.Key.cmp states.new.entries) dues.new) }
    ensures added { IfOk result (λ outputs. outputs.items
        ≡ adds (M.machine machine.now) key (state_in M.Key.cmp states.old.entries key)
        (given_at now input)) }
{
    let entry = match states.entry(key)? {
        Entry::Vacant(entry) => entry,
        Entry::Occupied(entry) => {
            let key = copy_of::<M>(entry.key())?;
            let state = entry.into_mut();
            let former = machine.due_of(state);
            let (stays, outputs) = machine.step(alloc, &key, state, now, input)?;
            let due = if stays { machine.due_of(state) } else { None };
            settle(states, dues, key, stays, former, due)?;
            return Ok(outputs);
        }
    };
    let (after, outputs) = machine.begin(alloc, entry.key(), now, input)?;
    arm_copy::<M>(dues, entry.key(), due_moment(machine, after.as_ref()))?;
    // A dropped entry says nothing about its map, so inserting a missing state fails instead.
    match Entry::Vacant(entry).or_try_insert_with(|| after.ok_or(NotHeld)) {
        Ok(_) => Ok(outputs),
        Err(NotHeld) => Ok(outputs),
    }
}

// A key isn't held after its first input.
#[derive(Drop)]
struct NotHeld;

// A key's state was changed in place. It is taken out if it doesn't stay, and the key is made due
// at this moment, or at none, in place of the former.
fn settle<K: Ord + Hash + Drop, S: Drop>(
    states: &mut HashMap<K, S, HashSeed>,
    dues: &mut Schedule<K>,
    key: K,
    stays: bool,
    former: Option<u64>,
    due: Option<u64>,
) -> Result<(), AllocError>
    ensures states { (q : K) → get K.eq states.new q
        ≡ (if stays then get K.eq states.old q
        else cond (K.eq key q) None (get K.eq states.old q)) }
    ensures dues { OnOk result ((moments : K → Option ℕ)
        → IsIndexOf K.cmp moments dues.old → moments key ≡ former
        → IsIndexOf K.cmp (with_moment K.cmp moments key due) dues.new) }
{
    if !stays {
        states.remove(&key);
    }
    set_due(dues, key, former, due)
}

/// Gives one key that isn't armed a tick at a moment in ms, and answers the outputs of its machine.
pub(crate) fn tick_key<M: StateMachine>(
    alloc: Global,
    machine: &M,
    states: &mut HashMap<M::Key, M::State, HashSeed>,
    dues: &mut Schedule<M::Key>,
    key: &M::Key,
    now: u64,
) -> Result<Vec<M::Output>, AllocError>
    requires { now ≤ 2 ^ 62 }
    ensures states { OnOk result ((q : M.Key) → state_in M.Key.cmp states.new.entries q
        ≡ cond (is_at (M.Key.cmp key.now) q)
        (next (M.machine machine.now) key.now (state_in M.Key.cmp states.old.entries key.now)
        (tick_at now))
        (state_in M.Key.cmp states.old.entries q)) }
    ensures dues { OnOk result ((moments : M.Key → Option ℕ)
        → IsIndexOf M.Key.cmp moments dues.old → moments key.now ≡ None
        → IsIndexOf M.Key.cmp (with_moment M.Key.cmp moments key.now
        (due_of M.due (next (M.machine machine.now) key.now
        (state_in M.Key.cmp states.old.entries key.now) (tick_at now)))) dues.new) }
    ensures added { IfOk result (λ outputs. outputs.items
        ≡ adds (M.machine machine.now) key.now (state_in M.Key.cmp states.old.entries key.now)
        (tick_at now)) }
{
    let Some((held, state)) = take_entry(states, key) else {
        return Ok(Vec::new(alloc));
    };
    let (after, outputs) = machine.tick(alloc, key, state, now)?;
    put_back(machine, states, dues, held, None, after)?;
    Ok(outputs)
}

/// Holds a key with this state.
pub(crate) fn hold_key<M: StateMachine>(
    machine: &M,
    states: &mut HashMap<M::Key, M::State, HashSeed>,
    dues: &mut Schedule<M::Key>,
    key: M::Key,
    state: M::State,
) -> Result<(), AllocError>
    requires { AreDues M.Key.cmp M.due (state_in M.Key.cmp states.old.entries) dues.old }
    ensures states { OnOk result ((q : M.Key)
        → state_in M.Key.cmp states.new.entries q ≡ cond (is_at (M.Key.cmp key) q) (Some state)
        (state_in M.Key.cmp states.old.entries q)) }
    ensures armed { OnOk result
        (AreDues M.Key.cmp M.due (state_in M.Key.cmp states.new.entries) dues.new) }
{
    let before = take_state(states, &key);
    let former = due_moment(machine, before.as_ref());
    put_back(machine, states, dues, key, former, Some(state))?;
    Ok(())
}

// Holds the state that a key has now, if any, and arms the key for the moment at which that state
// is due, in place of the former. The key is copied if the moment is another one.
fn put_back<M: StateMachine>(
    machine: &M,
    states: &mut HashMap<M::Key, M::State, HashSeed>,
    dues: &mut Schedule<M::Key>,
    key: M::Key,
    former: Option<u64>,
    state: Option<M::State>,
) -> Result<(), AllocError>
    requires absent { (q : M.Key) → is_at (M.Key.cmp key) q ≡ true
        → state_in M.Key.cmp states.old.entries q ≡ None }
    ensures states { OnOk result ((q : M.Key)
        → state_in M.Key.cmp states.new.entries q ≡ cond (is_at (M.Key.cmp key) q) state
        (state_in M.Key.cmp states.old.entries q)) }
    ensures dues { OnOk result ((moments : M.Key → Option ℕ)
        → IsIndexOf M.Key.cmp moments dues.old → moments key ≡ former
        → IsIndexOf M.Key.cmp (with_moment M.Key.cmp moments key (due_of M.due state)) dues.new) }
{
    let Some(state) = state else {
        return set_due(dues, key, former, None);
    };
    let due = machine.due_of(&state);
    if former != due {
        set_due(dues, copy_of::<M>(&key)?, former, due)?;
    }
    hold(states, key, state)?;
    Ok(())
}

// Makes a key due at this moment, or at none, in place of the former.
fn set_due<K: Ord + Drop>(
    dues: &mut Schedule<K>,
    key: K,
    former: Option<u64>,
    due: Option<u64>,
) -> Result<(), AllocError>
    ensures { OnOk result ((moments : K → Option ℕ)
        → IsIndexOf K.cmp moments dues.old → moments key ≡ former
        → IsIndexOf K.cmp (with_moment K.cmp moments key due) dues.new) }
{
    match (former, due) {
        (None, None) => {}
        (Some(former), None) => dues.disarm(key, former),
        (None, Some(due)) => dues.arm(key, due)?,
        (Some(former), Some(due)) if former == due => {}
        (Some(former), Some(due)) => dues.rearm(key, former, due)?,
    }
    Ok(())
}

// Makes a copy of a key that isn't armed due at this moment, if there is one.
fn arm_copy<M: StateMachine>(
    dues: &mut Schedule<M::Key>,
    key: &M::Key,
    due: Option<u64>,
) -> Result<(), AllocError>
    ensures { OnOk result ((moments : M.Key → Option ℕ)
        → IsIndexOf M.Key.cmp moments dues.old → moments key.now ≡ None
        → IsIndexOf M.Key.cmp (with_moment M.Key.cmp moments key.now due) dues.new) }
{
    if let Some(due) = due {
        dues.arm(copy_of::<M>(key)?, due)?;
    }
    Ok(())
}

fn copy_of<M: StateMachine>(key: &M::Key) -> Result<M::Key, AllocError>
    ensures { IfOk result (λ copy. copy ≡ key.now) }
{
    key.clone()
}

// The moment at which the state of a key is due, if it has one.
fn due_moment<M: StateMachine>(machine: &M, state: Option<&M::State>) -> Option<u64>
    ensures { result ≡ due_of M.due (option_copied state.entry) }
{
    match state {
        None => None,
        Some(state) => machine.due_of(state),
    }
}
