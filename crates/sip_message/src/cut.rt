//! How names are cut among shards: transactions by their branch, calls by their Call-ID.

ghost use Rattle.std.specs.Prelude.{◌≡◌, ◌<◌, ◌≤◌, ℕ, List};

/// Says to which of several shards a name belongs.
///
/// The answer depends only on the name and the number of shards.
pub trait Cut {
    /// The shard of a name.
    ghost shard_of: { Self → List ℕ → ℕ → ℕ };

    fn shard(&self, name: &[u8], shards: usize) -> usize
        requires some { 0 < shards }
        requires most { shards ≤ 256 }
        ensures { result ≡ shard_of self.now name.now shards };

    /// There is such a shard.
    ghost within: { (self : Self) (name : List ℕ) (shards : ℕ) → 0 < shards
        → shard_of self name shards < shards };
}

/// Cuts by the sum of the bytes, modulo the number of shards.
#[derive(Clone, Copy, Debug)]
pub struct Spread;

impl Cut for Spread {
    ghost use Rattle.sip_message.specs.Cut.{spread_shard, spread_within};

    ghost shard_of = { λ _ name shards. spread_shard name shards };

    fn shard(&self, name: &[u8], shards: usize) -> usize {
        let mut sum = 0;
        for byte in name {
            sum = (sum + usize::from(*byte)) % shards;
        }
        sum
    }

    ghost within = { λ _ name shards some. spread_within name shards some };
}

/// Puts every name into the first shard.
#[derive(Clone, Copy, Debug)]
pub struct First;

impl Cut for First {
    ghost shard_of = { λ _ _ _. 0 };

    fn shard(&self, _name: &[u8], _shards: usize) -> usize {
        0
    }

    ghost within = { λ _ _ _ some. some };
}
