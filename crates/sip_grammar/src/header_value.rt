//! The value of a header that is kept as it is (RFC 3261, section 7.3.1).
ghost use Rattle.std.specs.Prelude.{◌≡◌};
ghost use Rattle.sip_grammar.specs.HeaderValue as rule;

use crate::checked::{Checked, Rule};
use sip_text::{find_either, is_blank};

/// The rule of [`HeaderValue`].
pub struct HeaderValueRule;

impl Rule for HeaderValueRule {
    ghost use Rattle.sip_grammar.specs.HeaderValue as rule;

    ghost holds = { rule.is_header_value };

    fn test(text: &[u8]) -> bool {
        is_header_value(text)
    }
}

/// A header's value: without line ends, and without spaces or tabs at its ends. It may be empty.
pub type HeaderValue = Checked<HeaderValueRule>;

/// Whether the text is a header's value.
#[tactic(auto, unfolding(crate::specs::HeaderValue::is_header_value))]
fn is_header_value(text: &[u8]) -> bool
    ensures { result ≡ rule.is_header_value text.now }
{
    has_no_blank_ends(text) && has_no_line_byte(text)
}

/// Whether the text neither begins nor ends with a space or a tab.
pub(crate) fn has_no_blank_ends(text: &[u8]) -> bool
    ensures { result ≡ rule.has_no_blank_ends text.now }
{
    match text {
        [] => true,
        [only] => !is_blank(*only),
        [first, .., last] => !is_blank(*first) && !is_blank(*last),
    }
}

/// Whether the text has neither CR nor LF.
pub fn has_no_line_byte(text: &[u8]) -> bool
    ensures { result ≡ rule.has_no_line_byte text.now }
{
    find_either(b'\r', b'\n', text).is_none()
}
