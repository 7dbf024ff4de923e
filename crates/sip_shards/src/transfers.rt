//! Held keys, moved to other shards.

ghost use Rattle.std.specs.Prelude.{◌≡◌, ◌<◌, ◌≤◌, ℕ, List, Some, [], All, IfOk, OnOk, length, map, vec_len};
ghost use Rattle.std.specs.Option.{option_or};
ghost use Rattle.keyed_machine.specs.Machine.{Timed, tick_at};
ghost use Rattle.keyed_machine.specs.Phase.{Phase};
ghost use Rattle.keyed_machine.specs.Shards.{HoldFrom};
ghost use Rattle.keyed_machine.specs.Table.{state_at};
ghost use Rattle.sip_shards.specs.Parts.{owner_of};
ghost use Rattle.sip_shards.specs.Steps.Transfer.{AreOwners, held_by_owner};

use crate::parts::Named;
use keyed_machine::{KeyShard, StateMachine, laws_of_phases};
use sip_message::Cut;
use sip_workers::NoMemory;

/// Moves all that shards of a machine hold to other shards, which hold nothing: each key goes to
/// the shard that the cut names for it.
///
/// # Errors
///
/// `NoMemory`; then what they held is lost.
pub fn transfer<C: Cut, S: KeyShard + Drop>(
    cut: &C,
    machine: &S::Machine,
    shards: Vec<S>,
    others: Vec<S>,
) -> Result<Vec<S>, NoMemory>
where
    <S::Machine as StateMachine>::Key: Named,
    requires some { 0 < vec_len others }
    requires most { vec_len others ≤ 256 }
    requires empty { All (λ shard. S.held shard ≡ Some []) others.items }
    ensures count { IfOk result (λ moved. length moved.items ≡ length others.items) }
    ensures machines { IfOk result (λ moved. map S.machine moved.items
        ≡ map S.machine others.items) }
    ensures holds { IfOk result (λ moved. (owner : S.Machine.Key → ℕ)
        (phases : List (Phase S.Machine.Key (Timed S.Machine.Input)))
        → ((key : S.Machine.Key) → owner key < length shards.items)
        → HoldFrom S.Machine.Key.cmp (S.Machine.machine machine.now) tick_at owner 0
        (map S.held shards.items) phases
        → HoldFrom S.Machine.Key.cmp (S.Machine.machine machine.now) tick_at
        (owner_of (C.shard_of cut.now) S.Machine.Key.name (length others.items)) 0
        (map S.held moved.items) phases) }
{
    laws_of_phases(machine);
    let mut moved = others;
    for shard in shards {
        transfer_shard(cut, shard, &mut moved)?;
    }
    Ok(moved)
}

// Moves all that one shard holds.
fn transfer_shard<C: Cut, S: KeyShard + Drop>(
    cut: &C,
    shard: S,
    moved: &mut Vec<S>,
) -> Result<(), NoMemory>
where
    <S::Machine as StateMachine>::Key: Named,
    requires some { 0 < vec_len moved.old }
    requires most { vec_len moved.old ≤ 256 }
    requires owners { AreOwners S.Machine.Key.cmp
        (owner_of (C.shard_of cut.now) S.Machine.Key.name (vec_len moved.old))
        (map S.held moved.old.items) }
    ensures count { vec_len moved.new ≡ vec_len moved.old }
    ensures machines { OnOk result (map S.machine moved.new.items
        ≡ map S.machine moved.old.items) }
    ensures owners { OnOk result (AreOwners S.Machine.Key.cmp
        (owner_of (C.shard_of cut.now) S.Machine.Key.name (vec_len moved.old))
        (map S.held moved.new.items)) }
    ensures states { OnOk result ((q : S.Machine.Key)
        → held_by_owner S.Machine.Key.cmp
        (owner_of (C.shard_of cut.now) S.Machine.Key.name (vec_len moved.old))
        (map S.held moved.new.items) q
        ≡ option_or (state_at S.Machine.Key.cmp (S.held shard) q)
        (held_by_owner S.Machine.Key.cmp
        (owner_of (C.shard_of cut.now) S.Machine.Key.name (vec_len moved.old))
        (map S.held moved.old.items) q)) }
{
    let Some(states) = shard.into_states() else {
        return Err(NoMemory);
    };
    let count = moved.len();
    for (key, state) in states {
        let owner = cut.shard(key.name(), count);
        let Ok(()) = moved[owner].put(key, state) else {
            return Err(NoMemory);
        };
    }
    Ok(())
}
