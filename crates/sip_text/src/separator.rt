//! A text cut at a separator. Most separators count only outside quotes and brackets.
ghost use Rattle.std.specs.Prelude.{◌≡◌, ◌+◌, true, IfNone, IfSome, length};
ghost use Rattle.memchr.specs.Find.{IsFirstByte, Nowhere};
ghost use Rattle.std.specs.Prelude.{slice_index};
ghost use Rattle.std.specs.Bool.{OnFalse};
ghost use Rattle.sip_text.specs.Cut.{both_now};
ghost use Rattle.sip_text.specs.Separator as separators;
ghost use Rattle.sip_text.specs.declared.separator.Place.TheVariants as place;

use crate::character::is_blank;
use crate::find::{find_byte, find_either};

/// What cuts a text in two (RFC 3261, sections 7.3.1 and 25.1).
#[derive(Clone, Copy, Debug, PartialEq, Eq)]
pub enum Separator {
    /// This byte, outside quoted strings and angle brackets.
    Byte(u8),
    /// This byte, wherever it stands.
    Anywhere(u8),
    /// A space or a tab, wherever it stands.
    Blank,
    /// A colon outside square brackets, as between a host and its port.
    Colon,
}

/// Where a reader stands that reads a text from its start.
#[derive(Clone, Copy, Debug, PartialEq, Eq)]
pub enum Place {
    /// Where the separator counts.
    Plain,
    /// In a quoted string.
    Quoted,
    /// In a quoted string, behind a backslash.
    Escaped,
    /// Between brackets.
    Bracketed,
}

impl Separator {
    /// The parts before and after the first separator that counts, or None if there is none.
    // Each caller names its separator, so that only one case is compiled in there.
    #[inline(always)]
    pub fn cut(self, text: &[u8]) -> Option<(&[u8], &[u8])>
        ensures exact { both_now result ≡ separators.cut_from self place.Plain text.now }
        ensures length { IfSome result
            (λ p. length p.0.now + length p.1.now + 1 ≡ length text.now) }
    {
        let first = self.first_in(text)?;
        let front = &text[..first];
        if self.opens_in(front) {
            return self.cut_by_steps(text);
        }
        Some((front, &text[first + 1..]))
    }

    /// The first byte that may be the separator.
    fn first_in(self, text: &[u8]) -> Option<usize>
        ensures { IsFirstByte (separators.separates self) text.now result }
    {
        match self {
            Separator::Byte(at) | Separator::Anywhere(at) => find_byte(at, text),
            Separator::Blank => find_either(b' ', b'\t', text),
            Separator::Colon => find_byte(b':', text),
        }
    }

    /// Whether a quote or a bracket may hide separators.
    fn opens_in(self, front: &[u8]) -> bool
        ensures { OnFalse result (Nowhere
            (λ k. separators.opens self (slice_index front.now k) ≡ true) 0 (length front.now)) }
    {
        match self {
            Separator::Byte(_) => find_either(b'"', b'<', front).is_some(),
            Separator::Anywhere(_) | Separator::Blank => false,
            Separator::Colon => find_byte(b'[', front).is_some(),
        }
    }

    fn cut_by_steps(self, text: &[u8]) -> Option<(&[u8], &[u8])>
        ensures exact { both_now result ≡ separators.cut_from self place.Plain text.now }
        ensures length { IfSome result
            (λ p. length p.0.now + length p.1.now + 1 ≡ length text.now) }
    {
        let mut place = Place::Plain;
        for (index, byte) in text.iter().enumerate() {
            place = match self.next_place(place, *byte) {
                Some(next) => next,
                None => return Some((&text[..index], &text[index + 1..])),
            };
        }
        None
    }

    /// Where the reader stands after this byte, or None if the byte is a separator that counts.
    fn next_place(self, place: Place, byte: u8) -> Option<Place>
        ensures { result ≡ separators.next_place self place byte }
    {
        if place == Place::Plain && self.separates(byte) {
            return None;
        }
        Some(self.step(place, byte))
    }

    fn separates(self, byte: u8) -> bool
        ensures { result ≡ separators.separates self byte }
    {
        match self {
            Separator::Byte(at) | Separator::Anywhere(at) => byte == at,
            Separator::Blank => is_blank(byte),
            Separator::Colon => byte == b':',
        }
    }

    fn step(self, place: Place, byte: u8) -> Place
        ensures { result ≡ separators.step self place byte }
    {
        match self {
            Separator::Byte(_) => place.after(byte),
            Separator::Anywhere(_) | Separator::Blank => Place::Plain,
            Separator::Colon => place.after_bracket(byte),
        }
    }
}

impl Place {
    /// Where the reader stands after one more byte.
    pub fn after(self, byte: u8) -> Place
        ensures { result ≡ separators.after self byte }
    {
        match (self, byte) {
            (Place::Plain, b'"') => Place::Quoted,
            (Place::Plain, b'<') => Place::Bracketed,
            (Place::Plain, _) => Place::Plain,
            (Place::Quoted, b'"') => Place::Plain,
            (Place::Quoted, b'\\') => Place::Escaped,
            (Place::Quoted, _) => Place::Quoted,
            (Place::Escaped, _) => Place::Quoted,
            (Place::Bracketed, b'>') => Place::Plain,
            (Place::Bracketed, _) => Place::Bracketed,
        }
    }

    /// The same, where only square brackets hide separators.
    fn after_bracket(self, byte: u8) -> Place
        ensures { result ≡ separators.after_bracket self byte }
    {
        match (self, byte) {
            (Place::Plain, b'[') => Place::Bracketed,
            (Place::Bracketed, b']') => Place::Plain,
            (place, _) => place,
        }
    }
}
