//! The display text of an address (RFC 3261, section 20.10).
ghost use Rattle.std.specs.Prelude.{◌≡◌, []};
ghost use Rattle.sip_grammar.specs.DisplayText as rule;

use crate::checked::{Checked, Rule};
use crate::header_value::has_no_blank_ends;
use sip_text::{ByteClass, Text, each_is, is_quoted};
use std::alloc::Global;

/// The rule of [`DisplayText`].
pub struct DisplayTextRule;

impl Rule for DisplayTextRule {
    ghost use Rattle.sip_grammar.specs.DisplayText as rule;

    ghost holds = { rule.is_display_text };

    fn test(text: &[u8]) -> bool {
        is_display_text(text)
    }
}

/// The display text of an address in a list: empty, a quoted string, or a text without `<`, `>`,
/// `"`, `,` and line ends, and without spaces or tabs at its ends.
pub type DisplayText = Checked<DisplayTextRule>;

impl Checked<DisplayTextRule> {
    /// The empty display text. Takes no memory.
    pub fn nothing(alloc: Global) -> DisplayText
        ensures { result ≡ [] }
    {
        DisplayText::from_text(Text::from_vec(Vec::new(alloc)))
    }
}

/// Whether the text is such a display text.
#[tactic(auto, unfolding(crate::specs::DisplayText::is_display_text))]
pub fn is_display_text(text: &[u8]) -> bool
    ensures { result ≡ rule.is_display_text text.now }
{
    is_quoted(text) || (has_no_blank_ends(text) && each_is::<DisplayBytes>(text))
}

struct DisplayBytes;

impl ByteClass for DisplayBytes {
    ghost use Rattle.sip_grammar.specs.DisplayText.{is_display_text_byte};

    ghost holds = { is_display_text_byte };

    #[tactic(auto, unfolding(crate::specs::DisplayText::is_display_text_byte))]
    fn test(byte: u8) -> bool {
        !matches!(byte, b'\r' | b'\n' | b'<' | b'>' | b'"' | b',')
    }
}
