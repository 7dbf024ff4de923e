//! The order of two texts, compared in words of eight bytes.
ghost use Rattle.std.specs.Prelude.{◌≡◌, ◌+◌, ◌≤◌, length, take, drop};
ghost use Rattle.std.specs.Int.{w64, from_be_bytes};
ghost use Rattle.std.specs.Ordering.{nat_cmp};
ghost use Rattle.std.specs.Cmp.Lexicographic.{slice_cmp};

use std::cmp::Ordering;

/// How many bytes a word has.
const WORD: usize = 8;

/// The order of two texts: the first byte that differs decides, otherwise the shorter text comes
/// first.
pub fn byte_order(a: &[u8], b: &[u8]) -> Ordering
    ensures { result ≡ slice_cmp nat_cmp a.now b.now }
{
    let both = a.len().min(b.len());
    if both < WORD {
        return order_by_bytes(a, b);
    }
    // The last word ends where the shorter text does; some of its bytes may have been compared
    // already.
    let last = both - WORD;
    let mut place = 0;
    while place < last {
        let (one, other) = (word_at(a, place), word_at(b, place));
        if one != other {
            return one.cmp(&other);
        }
        place += WORD;
    }
    let (one, other) = (word_at(a, last), word_at(b, last));
    if one != other {
        return one.cmp(&other);
    }
    a.len().cmp(&b.len())
}

fn order_by_bytes(a: &[u8], b: &[u8]) -> Ordering
    ensures { result ≡ slice_cmp nat_cmp a.now b.now }
{
    for place in 0..a.len().min(b.len()) {
        if a[place] != b[place] {
            return a[place].cmp(&b[place]);
        }
    }
    a.len().cmp(&b.len())
}

// Eight bytes as one number, the first byte being the highest.
fn word_at(text: &[u8], place: usize) -> u64
    requires { place + 8 ≤ length text.now }
    ensures { result ≡ from_be_bytes w64 (take 8 (drop place text.now)) }
{
    u64::from_be_bytes([
        text[place],
        text[place + 1],
        text[place + 2],
        text[place + 3],
        text[place + 4],
        text[place + 5],
        text[place + 6],
        text[place + 7],
    ])
}
