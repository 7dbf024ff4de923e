//! Shards that can be compared.

ghost use Rattle.std.specs.Prelude.{◌↔◌, IsTrue};
ghost use Rattle.keyed_machine.specs.SameTables.{HoldTheSame};

use crate::key_shard::KeyShard;

/// A shard that can be compared with another one.
pub trait ComparableShard: KeyShard {
    /// Whether another shard holds the same keys with the same states. A broken shard never does.
    /// Takes no memory.
    fn holds_the_same(&self, other: &Self) -> bool
        ensures { IsTrue result ↔ HoldTheSame Self.Machine.Key.cmp (Self.held self.now)
            (Self.held other.now) };
}
