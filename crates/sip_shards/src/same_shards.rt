//! Shards that hold the same.

ghost use Rattle.std.specs.Prelude.{◌↔◌, IsTrue, map};
ghost use Rattle.std.specs.List.{AllZip};
ghost use Rattle.keyed_machine.specs.SameTables.{HoldTheSame};

use keyed_machine::ComparableShard;

/// Whether each shard holds the same as the other one at its place, and there are as many of them.
/// Takes no memory.
pub fn hold_the_same<S: ComparableShard>(shards: &[S], others: &[S]) -> bool
    ensures { IsTrue result ↔ AllZip (HoldTheSame S.Machine.Key.cmp) (map S.held shards.now)
        (map S.held others.now) }
{
    if shards.len() != others.len() {
        return false;
    }
    for (place, shard) in shards.iter().enumerate() {
        if !shard.holds_the_same(&others[place]) {
            return false;
        }
    }
    true
}
