//! Numbers in decimal digits, and digits in base 16.
ghost use Rattle.std.specs.Prelude.{◌≡◌, ◌+◌, ◌*◌, ◌<◌, ◌≤◌, ◌^◌, true, IfSome};
ghost use Rattle.std.specs.Fmt as fmt;
ghost use Rattle.std.specs.List.{list_all};
ghost use Rattle.std.specs.Char as char;
ghost use Rattle.std.specs.Option.{SomeIff};
ghost use Rattle.std.specs.Str.Parse.{digits_value};
ghost use Rattle.sip_text.specs.Number as number;

use crate::fault::TextFault;
use arrayvec::ArrayVec;
use itoa::Buffer;

/// The number that the digits stand for.
///
/// # Errors
///
/// NotAToken if the text is empty or has another byte; NumberTooLarge above 2^32 - 1.
#[tactic(auto, unfolding(crate::specs::Number::number_of))]
pub fn number_u32(text: &[u8]) -> Result<u32, TextFault>
    ensures { result ≡ number.number_of text.now }
{
    if !is_digits(text) {
        return Err(TextFault::NotAToken);
    }
    match value_of(text, u64::from(u32::MAX)) {
        Some(value) => Ok(value as u32),
        None => Err(TextFault::NumberTooLarge),
    }
}

/// The number, written without leading zeros, if it is at most `most`.
#[tactic(auto, unfolding(crate::specs::Number::number_at))]
pub fn number_up_to(text: &[u8], most: u64) -> Option<u64>
    ensures number { result ≡ number.number_at most text.now }
    ensures bound { IfSome result (λ number. number ≤ most) }
{
    if !is_numeral(text) {
        return None;
    }
    value_of(text, most)
}

fn is_digits(text: &[u8]) -> bool
    ensures { result ≡ number.is_digits text.now }
{
    match text {
        [] => false,
        [_, ..] => all_digits(text),
    }
}

fn is_numeral(text: &[u8]) -> bool
    ensures { result ≡ number.is_numeral text.now }
{
    match text {
        [] | [b'0', _, ..] => false,
        _ => all_digits(text),
    }
}

fn all_digits(text: &[u8]) -> bool
    ensures { result ≡ list_all char.is_ascii_digit text.now }
{
    text.iter().all(|byte| byte.is_ascii_digit())
}

// The number that the digits stand for, if it is at most `most`.
fn value_of(digits: &[u8], most: u64) -> Option<u64>
    requires { list_all char.is_ascii_digit digits.now ≡ true }
    ensures { SomeIff result (digits_value 10 digits.now ≤ most) (digits_value 10 digits.now) }
{
    let mut value = 0u64;
    for digit in digits {
        value = with_digit(value, digit - b'0')?;
        if value > most {
            return None;
        }
    }
    Some(value)
}

// The number with one more decimal digit at its end, if it is below 2^64.
fn with_digit(number: u64, digit: u8) -> Option<u64>
    ensures { SomeIff result (number * 10 + digit < 2 ^ 64) (number * 10 + digit) }
{
    number.checked_mul(10)?.checked_add(u64::from(digit))
}

/// The number in decimal digits, without leading zeros. Takes no memory.
pub fn decimal(number: u64) -> ArrayVec<u8, 20>
    ensures { result.items ≡ fmt.decimal number }
{
    let mut buffer = Buffer::new();
    let mut digits = ArrayVec::new();
    digits
        .try_extend_from_slice(buffer.format(number).as_bytes())
        .unwrap();
    digits
}

/// A digit in base 16, in lower case.
pub fn hex_digit(value: u8) -> u8
    requires { value < 16 }
    ensures { result ≡ number.hex_digit value }
{
    if value < 10 {
        b'0' + value
    } else {
        b'a' + (value - 10)
    }
}
