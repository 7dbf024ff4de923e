//! White space at the ends of a text.
ghost use Rattle.std.specs.Prelude.{◌≡◌};
ghost use Rattle.sip_text.specs.Trimmed as trims;

use crate::character::is_blank;

/// The text without the spaces and tabs at its ends.
pub fn trimmed(text: &[u8]) -> &[u8]
    ensures { result.now ≡ trims.trimmed text.now }
{
    trimmed_end(trimmed_start(text))
}

/// The text without the spaces and tabs that it begins with.
pub fn trimmed_start(text: &[u8]) -> &[u8]
    ensures { result.now ≡ trims.trimmed_start text.now }
{
    let mut rest = text;
    while let [first, after @ ..] = rest {
        if !is_blank(*first) {
            break;
        }
        rest = after;
    }
    rest
}

/// The text without the spaces and tabs that it ends with.
pub fn trimmed_end(text: &[u8]) -> &[u8]
    ensures { result.now ≡ trims.trimmed_end text.now }
{
    let mut rest = text;
    while let [front @ .., last] = rest {
        if !is_blank(*last) {
            break;
        }
        rest = front;
    }
    rest
}
