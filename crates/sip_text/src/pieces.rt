//! A text cut in two.
ghost use Rattle.std.specs.Prelude.{◌≡◌, ◌+◌, IfSome, length};
ghost use Rattle.sip_text.specs.Cut.{cut_at, cut_where, both_now};
ghost use Rattle.sip_text.specs.Character.{is_blank};

use crate::find::{find_byte, find_either};

/// The parts before and after the first such byte, or None if it doesn't occur.
pub fn cut(at: u8, text: &[u8]) -> Option<(&[u8], &[u8])>
    ensures parts { both_now result ≡ cut_at at text.now }
    ensures length { IfSome result (λ p. length p.0.now + length p.1.now + 1 ≡ length text.now) }
{
    let place = find_byte(at, text)?;
    Some((&text[..place], &text[place + 1..]))
}

/// The parts before and after the first space or tab, or None if there is none.
pub fn cut_blank(text: &[u8]) -> Option<(&[u8], &[u8])>
    ensures parts { both_now result ≡ cut_where is_blank text.now }
    ensures length { IfSome result (λ p. length p.0.now + length p.1.now + 1 ≡ length text.now) }
{
    let place = find_either(b' ', b'\t', text)?;
    Some((&text[..place], &text[place + 1..]))
}
