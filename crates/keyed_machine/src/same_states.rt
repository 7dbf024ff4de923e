//! Maps that hold the same states.

ghost use Rattle.std.specs.Prelude.{◌≡◌, ◌↔◌, All, IsTrue, Some};
ghost use Rattle.keyed_machine.specs.Table.{state_in};

use crate::comparable_machine::ComparableMachine;
use crate::states::find;
use seeded_hash::HashSeed;
use std::collections::HashMap;

/// Whether each key has the same state in both maps, or a state in neither.
pub(crate) fn hold_the_same<M: ComparableMachine>(
    machine: &M,
    states: &HashMap<M::Key, M::State, HashSeed>,
    others: &HashMap<M::Key, M::State, HashSeed>,
) -> bool
    ensures { IsTrue result ↔ ((key : M.Key) → state_in M.Key.cmp states.now.entries key
        ≡ state_in M.Key.cmp others.now.entries key) }
{
    are_among(machine, states, others) && are_among(machine, others, states)
}

// Whether each key of some states has the same state among others.
fn are_among<M: ComparableMachine>(
    machine: &M,
    states: &HashMap<M::Key, M::State, HashSeed>,
    others: &HashMap<M::Key, M::State, HashSeed>,
) -> bool
    ensures among { IsTrue result ↔ All (λ held. state_in M.Key.cmp others.now.entries held.0
        ≡ Some held.1) states.now.entries }
    ensures own { All (λ held. state_in M.Key.cmp states.now.entries held.0 ≡ Some held.1)
        states.now.entries }
{
    states
        .iter()
        .all(|(key, state)| is_held(machine, others, key, state))
}

// Whether a key has this state.
fn is_held<M: ComparableMachine>(
    machine: &M,
    states: &HashMap<M::Key, M::State, HashSeed>,
    key: &M::Key,
    state: &M::State,
) -> bool
    ensures { IsTrue result ↔ (state_in M.Key.cmp states.now.entries key.now ≡ Some state.now) }
{
    match find(states, key) {
        Some(held) => machine.is_same_state(held, state),
        None => false,
    }
}
