//! The table of the headers that are parsed into fields of their own (RFC 3261, sections 7.3.3 and
//! 20; RFC 3262, section 7).
ghost use Rattle.std.specs.Prelude.{◌≡◌, ◌==◌, ℕ, List, IfNone, IfSome, find, length, true};
ghost use Rattle.std.specs.Option.{option_map};
ghost use Rattle.sip_grammar.specs.HeaderEntry as table;

use crate::header_name::HeaderName;
use sip_text::token_eq;

/// How often a header may occur in a message.
#[derive(Clone, Copy, Debug, PartialEq, Eq)]
pub enum HeaderKind {
    /// One line.
    Once,
    /// One line, or none.
    AtMostOnce,
    /// Any number of lines, which are one list together.
    List,
    /// One line or more, which are one list together.
    NeededList,
}

/// What the table says of one header.
#[derive(Clone, Copy)]
pub struct HeaderEntry {
    /// Its long name, as it is written.
    pub name: &'static str,
    /// Its compact name, if it has one.
    pub compact: Option<&'static str>,
    pub kind: HeaderKind,
}

impl HeaderName {
    /// All of them, in the order in which a missing or repeated one is looked for; then the lists.
    pub const ALL: [HeaderName; 14] = [
        HeaderName::Via,
        HeaderName::From,
        HeaderName::To,
        HeaderName::CallId,
        HeaderName::CSeq,
        HeaderName::MaxForwards,
        HeaderName::ContentLength,
        HeaderName::RSeq,
        HeaderName::RAck,
        HeaderName::Contact,
        HeaderName::RecordRoute,
        HeaderName::Route,
        HeaderName::Require,
        HeaderName::Supported,
    ];

    /// Its line of the table.
    pub fn entry(self) -> HeaderEntry
        ensures { table.entry_now result ≡ table.entry self }
    {
        let (name, compact, kind) = match self {
            HeaderName::Via => ("Via", Some("v"), HeaderKind::NeededList),
            HeaderName::MaxForwards => ("Max-Forwards", None, HeaderKind::AtMostOnce),
            HeaderName::From => ("From", Some("f"), HeaderKind::Once),
            HeaderName::To => ("To", Some("t"), HeaderKind::Once),
            HeaderName::CallId => ("Call-ID", Some("i"), HeaderKind::Once),
            HeaderName::CSeq => ("CSeq", None, HeaderKind::Once),
            HeaderName::Contact => ("Contact", Some("m"), HeaderKind::List),
            HeaderName::RecordRoute => ("Record-Route", None, HeaderKind::List),
            HeaderName::Route => ("Route", None, HeaderKind::List),
            HeaderName::Require => ("Require", None, HeaderKind::List),
            HeaderName::Supported => ("Supported", Some("k"), HeaderKind::List),
            HeaderName::RSeq => ("RSeq", None, HeaderKind::AtMostOnce),
            HeaderName::RAck => ("RAck", None, HeaderKind::AtMostOnce),
            HeaderName::ContentLength => ("Content-Length", Some("l"), HeaderKind::AtMostOnce),
        };
        HeaderEntry {
            name,
            compact,
            kind,
        }
    }

    /// Whether the text is its long or its compact name, in any case of the letters.
    #[tactic(auto, unfolding(crate::specs::HeaderEntry::is_named))]
    pub fn is_named(self, name: &[u8]) -> bool
        ensures { result ≡ table.is_named self name.now }
    {
        let entry = self.entry();
        token_eq(name, entry.name.as_bytes()) || is_word_of(name, entry.compact)
    }

    /// The header of this name, or None if the name is another one.
    // A function of its own, since a loop over lines that contains it keeps less in registers.
    #[inline(never)]
    pub fn of(name: &[u8]) -> Option<HeaderName>
        ensures { result ≡ table.header_named name.now }
    {
        match HeaderName::of_exact_name(name) {
            Some(header) => Some(header),
            None => HeaderName::looked_up(name),
        }
    }

    /// The header of this long name, if it is written exactly as in the table.
    fn of_exact_name(name: &[u8]) -> Option<HeaderName>
        ensures { IfSome result (λ header. name.now ≡ (table.entry header).name) }
    {
        for header in HeaderName::of_length(name.len()) {
            if header.entry().name.as_bytes() == name {
                return Some(*header);
            }
        }
        None
    }

    // Rare: most names are written as they are in the table.
    #[inline(never)]
    fn looked_up(name: &[u8]) -> Option<HeaderName>
        ensures { result ≡ table.header_named name.now }
    {
        named_in(HeaderName::of_length(name.len()), name)
    }

    /// The headers that have a name of so many bytes, in the order of the table.
    fn of_length(bytes: usize) -> &'static [HeaderName]
        // A name of this length is found among them if it is found at all.
        ensures { (name : List ℕ) → length name ≡ bytes
            → find (λ header. table.is_named header name) result.now ≡ table.header_named name }
    {
        match bytes {
            1 => &[
                HeaderName::Via,
                HeaderName::From,
                HeaderName::To,
                HeaderName::CallId,
                HeaderName::ContentLength,
                HeaderName::Contact,
                HeaderName::Supported,
            ],
            2 => &[HeaderName::To],
            3 => &[HeaderName::Via],
            4 => &[
                HeaderName::From,
                HeaderName::CSeq,
                HeaderName::RSeq,
                HeaderName::RAck,
            ],
            5 => &[HeaderName::Route],
            7 => &[HeaderName::CallId, HeaderName::Contact, HeaderName::Require],
            9 => &[HeaderName::Supported],
            12 => &[HeaderName::MaxForwards, HeaderName::RecordRoute],
            14 => &[HeaderName::ContentLength],
            _ => &[],
        }
    }
}

/// The first of the headers that has this name.
fn named_in(headers: &[HeaderName], name: &[u8]) -> Option<HeaderName>
    ensures { result ≡ find (λ header. table.is_named header name.now) headers.now }
{
    headers.iter().copied().find(|header| header.is_named(name))
}

/// Whether the text is this word, in any case of the letters.
fn is_word_of(name: &[u8], word: Option<&str>) -> bool
    ensures { result ≡ table.is_word_of name.now (option_map (λ w. w.now) word.entry) }
{
    match word {
        None => false,
        Some(word) => token_eq(name, word.as_bytes()),
    }
}
