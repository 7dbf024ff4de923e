//! The map of the held states. A contract sees it by look-ups, by the order of the keys.

ghost use Rattle.std.specs.Prelude.{◌≡◌, Some, None, IfSome, OnOk, cond};
ghost use Rattle.std.specs.Option.{option_copied, option_map};
ghost use Rattle.std.specs.BTreeMap.{is_at};
ghost use Rattle.std.specs.declared.cmp.Ordering.TheVariants.{Equal};
ghost use Rattle.keyed_machine.specs.Table.{state_in};

use seeded_hash::HashSeed;
use std::alloc::AllocError;
use std::collections::HashMap;
use std::hash::Hash;

/// The state that is held for a key.
pub(crate) fn find<'a, K: Ord + Hash, S>(
    states: &'a HashMap<K, S, HashSeed>,
    key: &K,
) -> Option<&'a S>
    ensures { option_copied result ≡ state_in K.cmp states.now.entries key.now }
{
    states.get(key)
}

/// Holds this state for a key, in place of any that it had.
pub(crate) fn hold<K: Ord + Hash + Drop, S: Drop>(
    states: &mut HashMap<K, S, HashSeed>,
    key: K,
    state: S,
) -> Result<(), AllocError>
    ensures { OnOk result ((q : K) → state_in K.cmp states.new.entries q
        ≡ cond (is_at (K.cmp key) q) (Some state) (state_in K.cmp states.old.entries q)) }
{
    states.insert(key, state)?;
    Ok(())
}

/// Takes out the key that is held, and its state.
pub(crate) fn take_entry<K: Ord + Hash, S>(
    states: &mut HashMap<K, S, HashSeed>,
    key: &K,
) -> Option<(K, S)>
    ensures key { IfSome result (λ held. K.cmp key.now held.0 ≡ Equal) }
    ensures state { option_map (λ held. held.1) result
        ≡ state_in K.cmp states.old.entries key.now }
    ensures states { (q : K) → state_in K.cmp states.new.entries q
        ≡ cond (is_at (K.cmp key.now) q) None (state_in K.cmp states.old.entries q) }
{
    states.remove_entry(key)
}

/// Takes out the state that is held for a key.
pub(crate) fn take_state<K: Ord + Hash + Drop, S>(
    states: &mut HashMap<K, S, HashSeed>,
    key: &K,
) -> Option<S>
    ensures state { result ≡ state_in K.cmp states.old.entries key.now }
    ensures states { (q : K) → state_in K.cmp states.new.entries q
        ≡ cond (is_at (K.cmp key.now) q) None (state_in K.cmp states.old.entries q) }
{
    states.remove(key)
}
