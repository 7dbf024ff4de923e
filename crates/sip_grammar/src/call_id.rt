//! The Call-ID (RFC 3261, section 20.8).
ghost use Rattle.std.specs.Prelude.{◌≡◌};
ghost use Rattle.sip_grammar.specs.Word as rule;

use crate::checked::{Checked, Rule};
use crate::word::is_word;

/// The rule of [`CallId`].
pub struct CallIdRule;

impl Rule for CallIdRule {
    ghost use Rattle.sip_grammar.specs.Word as rule;

    ghost holds = { rule.is_word };

    fn test(text: &[u8]) -> bool {
        is_word(text)
    }
}

/// A Call-ID: not empty, without spaces, tabs and line ends. Compared byte by byte.
pub type CallId = Checked<CallIdRule>;
