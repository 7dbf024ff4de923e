//! One word of the key stream of ChaCha20 (RFC 8439, sections 2.1 to 2.3).

ghost use Rattle.std.specs.Prelude.{◌≡◌, ℕ, ◌<◌, ◌/◌, ◌%◌, ◌^◌, ◌++◌, slice_index};
ghost use Rattle.rand_chacha.specs.Block as chacha;
ghost use Rattle.rand_chacha.specs.ChaCha.{key_of};

use rand_core::utils::read_u32;
use std::simd::u32x4;

// How many double rounds make a block: each is a column round and a diagonal round.
const DOUBLE_ROUNDS: u32 = 10;

// The first row of a state: the text "expand 32-byte k".
const CONSTANTS: [u32; 4] = [0x6170_7865, 0x3320_646e, 0x7962_2d32, 0x6b20_6574];

// How many words a row of a state has.
const ROW_WORDS: u8 = 4;

/// The word of this index in the block of this number of a stream. It makes only that block, while
/// the generators of `rand_chacha` make four at a time.
pub(crate) fn word_at(seed: &[u8; 32], stream: u64, block: u64, index: u8) -> u32
    requires { index < 16 }
    ensures { result ≡ chacha.block_word 10 (key_of seed.now) block stream index }
{
    let key = [
        read_u32(seed, 0),
        read_u32(seed, 1),
        read_u32(seed, 2),
        read_u32(seed, 3),
        read_u32(seed, 4),
        read_u32(seed, 5),
        read_u32(seed, 6),
        read_u32(seed, 7),
    ];
    let first = u32x4::from_array(CONSTANTS);
    let second = u32x4::from_array([key[0], key[1], key[2], key[3]]);
    let third = u32x4::from_array([key[4], key[5], key[6], key[7]]);
    let last = u32x4::from_array([low(block), high(block), low(stream), high(stream)]);
    word_of_block(first, second, third, last, index)
}

fn low(x: u64) -> u32
    ensures { result ≡ x % 2 ^ 32 }
{
    (x & 0xffff_ffff) as u32
}

fn high(x: u64) -> u32
    ensures { result ≡ x / 2 ^ 32 }
{
    (x >> 32) as u32
}

// A word of the block that begins with a state of these four rows.
fn word_of_block(a: u32x4, b: u32x4, c: u32x4, d: u32x4, index: u8) -> u32
    requires { index < 16 }
    ensures { let state = a ++ (b ++ (c ++ d)) in
        result ≡ chacha.add32 (slice_index (chacha.double_rounds 10 state) index)
        (slice_index state index) }
{
    let (mut p, mut q, mut r, mut s) = (a, b, c, d);
    for _round in 0..DOUBLE_ROUNDS {
        (p, q, r, s) = double_round(p, q, r, s);
    }
    if index < ROW_WORDS {
        sum_at(p, a, index)
    } else if index < 2 * ROW_WORDS {
        sum_at(q, b, index - ROW_WORDS)
    } else if index < 3 * ROW_WORDS {
        sum_at(r, c, index - 2 * ROW_WORDS)
    } else {
        sum_at(s, d, index - 3 * ROW_WORDS)
    }
}

// The sum of two words at the same place.
fn sum_at(row: u32x4, first: u32x4, place: u8) -> u32
    requires { place < 4 }
    ensures { result ≡ chacha.add32 (slice_index row place) (slice_index first place) }
{
    add(row, first).to_array()[usize::from(place)]
}

// The rounds of the four columns, and then those of the four diagonals: the rows are rotated so
// that the words of a diagonal are in one lane, and then back.
#[inline(always)]
fn double_round(a: u32x4, b: u32x4, c: u32x4, d: u32x4) -> (u32x4, u32x4, u32x4, u32x4)
    ensures { result.0 ++ (result.1 ++ (result.2 ++ result.3))
        ≡ chacha.diagonal_round (chacha.column_round (a ++ (b ++ (c ++ d)))) }
{
    let (a, b, c, d) = quarter_rounds(a, b, c, d);
    let (a, b, c, d) = quarter_rounds(
        a,
        b.swizzle([1, 2, 3, 0]),
        c.swizzle([2, 3, 0, 1]),
        d.swizzle([3, 0, 1, 2]),
    );
    (
        a,
        b.swizzle([3, 0, 1, 2]),
        c.swizzle([2, 3, 0, 1]),
        d.swizzle([1, 2, 3, 0]),
    )
}

// A quarter round of the words in each lane.
#[inline(always)]
fn quarter_rounds(a: u32x4, b: u32x4, c: u32x4, d: u32x4) -> (u32x4, u32x4, u32x4, u32x4)
    ensures { (lane : ℕ) → lane < 4
        → (
          slice_index result.0 lane,
          slice_index result.1 lane,
          slice_index result.2 lane,
          slice_index result.3 lane,
        )
        ≡ chacha.quarter_round (slice_index a lane) (slice_index b lane) (slice_index c lane)
        (slice_index d lane) }
{
    let a1 = add(a, b);
    let d1 = xor_rotate(d, a1, 16);
    let c1 = add(c, d1);
    let b1 = xor_rotate(b, c1, 12);
    let a2 = add(a1, b1);
    let d2 = xor_rotate(d1, a2, 8);
    let c2 = add(c1, d2);
    let b2 = xor_rotate(b1, c2, 7);
    (a2, b2, c2, d2)
}

#[inline(always)]
fn add(a: u32x4, b: u32x4) -> u32x4
    ensures { (lane : ℕ) → lane < 4
        → slice_index result lane ≡ chacha.add32 (slice_index a lane) (slice_index b lane) }
{
    a + b
}

#[inline(always)]
fn xor_rotate(a: u32x4, b: u32x4, count: u32) -> u32x4
    requires least { 0 < count }
    requires most { count < 32 }
    ensures { (lane : ℕ) → lane < 4
        → slice_index result lane
        ≡ chacha.xor_rotate (slice_index a lane) (slice_index b lane) count }
{
    let x = a ^ b;
    (x << u32x4::splat(count)) | (x >> u32x4::splat(32 - count))
}
