//! The first place of a byte in a text, sixteen bytes at a time.
ghost use Rattle.std.specs.Prelude.{◌≡◌, ◌+◌, ◌≤◌, length};
ghost use Rattle.memchr.specs.Find.{IsFirst, IsFirstByte, Passes, is_byte, is_byte2};

use std::simd::prelude::*;

/// How many bytes are looked at together.
const LANES: usize = 16;

/// The first place of the byte, or None if it doesn't occur.
pub fn find_byte(byte: u8, text: &[u8]) -> Option<usize>
    ensures { IsFirstByte (is_byte byte) text.now result }
{
    find_two(byte, byte, text)
}

/// The first place of either byte, or None if neither occurs.
pub fn find_either(one: u8, other: u8, text: &[u8]) -> Option<usize>
    ensures { IsFirstByte (is_byte2 one other) text.now result }
{
    find_two(one, other, text)
}

#[inline(always)]
fn find_two(one: u8, other: u8, text: &[u8]) -> Option<usize>
    ensures { IsFirstByte (is_byte2 one other) text.now result }
{
    if text.len() < LANES {
        return text.iter().position(|byte| *byte == one || *byte == other);
    }
    // The last sixteen bytes end where the text does; some of them may have been looked at already.
    let last = text.len() - LANES;
    let mut place = 0;
    while place < last {
        if let Some(found) = find_in_lanes(one, other, text, place) {
            return Some(found);
        }
        place += LANES;
    }
    find_in_lanes(one, other, text, last)
}

// The first place of either byte among the sixteen bytes from a place on.
#[inline(always)]
fn find_in_lanes(one: u8, other: u8, text: &[u8], place: usize) -> Option<usize>
    requires { place + 16 ≤ length text.now }
    ensures { IsFirst (Passes (is_byte2 one other) text.now) place (place + 16) result }
{
    let bytes = u8x16::from_slice(&text[place..]);
    let found = bytes.simd_eq(u8x16::splat(one)) | bytes.simd_eq(u8x16::splat(other));
    let marks = found.to_bitmask();
    if marks == 0 {
        return None;
    }
    Some(place + marks.trailing_zeros() as usize)
}
