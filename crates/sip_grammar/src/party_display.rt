//! The display text of an address (RFC 3261, section 20.10).
ghost use Rattle.std.specs.Prelude.{◌≡◌, []};
ghost use Rattle.sip_grammar.specs.PartyDisplay as rule;

use crate::checked::{Checked, Rule};
use crate::header_value::has_no_blank_ends;
use sip_text::{ByteClass, Text, each_is, is_quoted};
use std::alloc::Global;

/// The rule of [`PartyDisplay`].
pub struct PartyDisplayRule;

impl Rule for PartyDisplayRule {
    ghost use Rattle.sip_grammar.specs.PartyDisplay as rule;

    ghost holds = { rule.is_party_display };

    fn test(text: &[u8]) -> bool {
        is_party_display(text)
    }
}

/// The display text of a From or a To: empty, a quoted string, or a text without `<`, `>`, `"` and
/// line ends, and without spaces or tabs at its ends.
pub type PartyDisplay = Checked<PartyDisplayRule>;

impl Checked<PartyDisplayRule> {
    /// The empty display text. Takes no memory.
    pub fn nothing(alloc: Global) -> PartyDisplay
        ensures { result ≡ [] }
    {
        PartyDisplay::from_text(Text::from_vec(Vec::new(alloc)))
    }
}

/// Whether the text is such a display text.
#[tactic(auto, unfolding(crate::specs::PartyDisplay::is_party_display))]
pub fn is_party_display(text: &[u8]) -> bool
    ensures { result ≡ rule.is_party_display text.now }
{
    is_quoted(text) || (has_no_blank_ends(text) && each_is::<PartyDisplayBytes>(text))
}

struct PartyDisplayBytes;

impl ByteClass for PartyDisplayBytes {
    ghost use Rattle.sip_grammar.specs.PartyDisplay.{is_party_display_byte};

    ghost holds = { is_party_display_byte };

    #[tactic(auto, unfolding(crate::specs::PartyDisplay::is_party_display_byte))]
    fn test(byte: u8) -> bool {
        !matches!(byte, b'\r' | b'\n' | b'<' | b'>' | b'"')
    }
}
