//! The name of a header that is kept as it is (RFC 3261, section 7.3.1).
ghost use Rattle.std.specs.Prelude.{◌≡◌};
ghost use Rattle.sip_grammar.specs.OtherName as rule;

use crate::checked::{Checked, Rule};
use crate::header_name::HeaderName;
use sip_text::{is_token, token_eq};

/// The rule of [`OtherName`].
pub struct OtherNameRule;

impl Rule for OtherNameRule {
    ghost use Rattle.sip_grammar.specs.OtherName as rule;

    ghost holds = { rule.is_other_name };

    fn test(text: &[u8]) -> bool {
        is_other_name(text)
    }
}

/// The name of a header that isn't parsed into a field of its own: a token that is neither a name
/// of a parsed header nor one of the compact names of a longer one, in any case of the letters.
pub type OtherName = Checked<OtherNameRule>;

/// Whether the text is such a name.
#[tactic(auto, unfolding(crate::specs::OtherName::is_other_name))]
pub(crate) fn is_other_name(text: &[u8]) -> bool
    ensures { result ≡ rule.is_other_name text.now }
{
    is_token(text) && !(HeaderName::of(text).is_some() || is_compact_name(text))
}

/// Whether the name is the compact name of a header that is kept under its long name.
#[tactic(auto, unfolding(crate::specs::OtherName::is_compact_name))]
fn is_compact_name(name: &[u8]) -> bool
    ensures { result ≡ rule.is_compact_name name.now }
{
    token_eq(name, b"c") || (token_eq(name, b"s") || token_eq(name, b"e"))
}
