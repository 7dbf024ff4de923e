//! The seed of a map's hashes.

ghost use Rattle.std.specs.Prelude.{◌≡◌};
ghost use Rattle.seeded_hash.specs.HashSeed as spec;

use crate::seeded_hasher::SeededHasher;
use std::hash::{BuildHasher, FoldHasher, Hasher};

/// How many bytes a secret has.
pub const SECRET_BYTES: usize = 32;

// The secret words of a hasher, each made of the secret and its own index.
const STATE_INDEX: u8 = 0;

const FACTOR_INDEX: u8 = 1;

/// The seed with which a map hashes its keys. Maps of the same seed hash alike.
#[derive(Clone, Copy)]
pub struct HashSeed {
    initial: SeededHasher,
}

impl HashSeed {
    /// The seed of a secret: two words of 8 bytes, each made of the whole secret. Who learned both
    /// would still know no more than half of what the secret holds.
    pub fn of(secret: &[u8; SECRET_BYTES]) -> HashSeed
        ensures { result ≡ spec.seed_of secret.now }
    {
        HashSeed {
            initial: SeededHasher::new(word_of(secret, STATE_INDEX), word_of(secret, FACTOR_INDEX)),
        }
    }

    /// A seed that everyone knows. Who chooses the keys of a map with it can make them collide.
    pub fn known() -> HashSeed
        ensures { result ≡ spec.known_seed }
    {
        HashSeed::of(&[0; SECRET_BYTES])
    }
}

impl BuildHasher for HashSeed {
    type Hasher = SeededHasher;

    ghost build_hasher = { λ seed. seed.initial };

    fn build_hasher(&self) -> SeededHasher {
        self.initial
    }
}

// The hash of an index and a secret, by a hasher that everyone knows.
fn word_of(secret: &[u8; SECRET_BYTES], index: u8) -> u64
    ensures { result ≡ spec.word_of secret.now index }
{
    let mut hasher = FoldHasher::default();
    hasher.write_u8(index);
    hasher.write(secret);
    hasher.finish()
}
