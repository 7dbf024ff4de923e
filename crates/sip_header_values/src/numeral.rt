//! Words in the place of a number.
ghost use Rattle.std.specs.Prelude.{◌≡◌, IfOk};
ghost use Rattle.sip_header_values.specs.Numeral as numerals;

use crate::row::Row;
use sip_grammar::is_word;
use sip_text::number_u32;
use std::alloc::{AllocError, Global};

/// A word in the place of a number.
#[derive(Clone, Copy, Debug, PartialEq, Eq)]
pub enum Numeral {
    /// Digits; the number that they stand for.
    Number(u32),
    /// Not only digits, or a number that is too large.
    NotANumber,
}

/// A word for a number below 2^32: an RSeq, a Max-Forwards, a Content-Length.
pub struct NumberRow;

impl Row for NumberRow {
    ghost use Rattle.sip_header_values.specs.Numeral.{numeral_from};

    type Value = Numeral;

    ghost reads = { numeral_from };

    fn read(_alloc: Global, text: &[u8]) -> Result<Option<Numeral>, AllocError> {
        Ok(numeral_in(text))
    }
}

/// The word as a number, or None if the text isn't a word.
pub(crate) fn numeral_in(text: &[u8]) -> Option<Numeral>
    ensures { result ≡ numerals.numeral_from text.now }
{
    match number_u32(text) {
        Ok(number) => Some(Numeral::Number(number)),
        Err(_) if is_word(text) => Some(Numeral::NotANumber),
        Err(_) => None,
    }
}

pub(crate) fn numeral_of(word: &[u8]) -> Numeral
    ensures { result ≡ numerals.numeral word.now }
{
    match number_u32(word) {
        Ok(number) => Numeral::Number(number),
        Err(_) => Numeral::NotANumber,
    }
}
