//! A hash with a secret seed, for maps whose keys a peer chooses.
#![tactic(auto)]

mod hash_seed;
mod seeded_hasher;

pub use hash_seed::HashSeed;
pub use seeded_hasher::SeededHasher;
