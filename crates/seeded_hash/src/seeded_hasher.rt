//! A hasher that multiplies by secret words.

ghost use Rattle.std.specs.Prelude.{◌≡◌, ◌+◌, ◌≤◌, length};
ghost use Rattle.seeded_hash.specs.SeededHasher as spec;

use std::hash::Hasher;

/// How many bytes a multiplication takes: a word for each of its two sides.
const BLOCK: usize = 16;

/// How many bytes a word has.
const WORD: usize = 8;

/// The fold of `std::hash::FoldHasher`, in which both sides of each multiplication have a secret
/// word. Who doesn't know the words can't choose texts that collide.
///
/// It takes one multiplication for each 16 bytes of a `write`, so write a text whole. The length
/// of each `write` counts: texts that are written one after another can't be cut elsewhere.
#[derive(Clone, Copy)]
pub struct SeededHasher {
    state: u64,
    factor: u64,
}

impl SeededHasher {
    /// A hasher to which nothing was written, with these two secret words.
    pub(crate) fn new(state: u64, factor: u64) -> SeededHasher
        ensures { result ≡ record { state = state; factor = factor } }
    {
        SeededHasher { state, factor }
    }

    // The state after the words at these two places.
    fn mixed(&self, state: u64, bytes: &[u8], one: usize, other: usize) -> u64
        requires one { one + 8 ≤ length bytes.now }
        requires other { other + 8 ≤ length bytes.now }
        ensures { result ≡ spec.mix self.now.factor bytes.now state one other }
    {
        folded_multiply(
            read_u64(bytes, one) ^ state,
            read_u64(bytes, other) ^ self.factor,
        )
    }
}

impl Hasher for SeededHasher {
    ghost write = { spec.write };

    ghost finish = { spec.finish };

    fn finish(&self) -> u64 {
        self.state
    }

    fn write(&mut self, bytes: &[u8]) {
        let len = bytes.len();
        if len <= WORD {
            self.state = folded_multiply(
                self.state ^ read_short(bytes),
                self.factor ^ (2 * len as u64),
            );
            return;
        }
        let mut state = self.state.wrapping_add(len as u64);
        let mut at = 0;
        while len - at > BLOCK {
            state = self.mixed(state, bytes, at, at + WORD);
            at += BLOCK;
        }
        self.state = self.mixed(state, bytes, len.saturating_sub(BLOCK), len - WORD);
    }
}

// The two halves of the product, joined by xor.
fn folded_multiply(one: u64, other: u64) -> u64
    ensures { result ≡ spec.folded_multiply one other }
{
    let product = one as u128 * other as u128;
    (product & 0xFFFF_FFFF_FFFF_FFFF) as u64 ^ (product >> 64) as u64
}

// The four bytes from a place on, the lowest first.
fn read_u32(bytes: &[u8], at: usize) -> u64
    requires { at + 4 ≤ length bytes.now }
    ensures { result ≡ spec.read_u32 bytes.now at }
{
    u32::from_le_bytes([bytes[at], bytes[at + 1], bytes[at + 2], bytes[at + 3]]) as u64
}

// The eight bytes from a place on.
fn read_u64(bytes: &[u8], at: usize) -> u64
    requires { at + 8 ≤ length bytes.now }
    ensures { result ≡ spec.read_u64 bytes.now at }
{
    read_u32(bytes, at) | read_u32(bytes, at + 4) << 32
}

// Up to eight bytes as one number, by reads that may overlap.
fn read_short(bytes: &[u8]) -> u64
    ensures { result ≡ spec.read_short bytes.now }
{
    let len = bytes.len();
    if len >= 4 {
        read_u32(bytes, 0) | read_u32(bytes, len - 4) << 32
    } else if len > 0 {
        bytes[0] as u64 | (bytes[len / 2] as u64) << 8 | (bytes[len - 1] as u64) << 16
    } else {
        0
    }
}
