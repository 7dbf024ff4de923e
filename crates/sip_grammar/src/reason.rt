//! The reason of a status line (RFC 3261, section 7.2).
ghost use Rattle.std.specs.Prelude.{◌≡◌, []};
ghost use Rattle.sip_grammar.specs.Reason as rule;

use crate::checked::{Checked, Rule};
use crate::header_value::has_no_line_byte;
use sip_text::Text;
use std::alloc::Global;

/// The rule of [`Reason`].
pub struct ReasonRule;

impl Rule for ReasonRule {
    ghost use Rattle.sip_grammar.specs.Reason as rule;

    ghost holds = { rule.is_reason };

    fn test(text: &[u8]) -> bool {
        is_reason(text)
    }
}

/// A reason phrase: without line ends. It may be empty.
pub type Reason = Checked<ReasonRule>;

impl Checked<ReasonRule> {
    /// The empty reason. Takes no memory.
    pub fn nothing(alloc: Global) -> Reason
        ensures { result ≡ [] }
    {
        Reason::from_text(Text::from_vec(Vec::new(alloc)))
    }
}

/// Whether the text is a reason.
pub(crate) fn is_reason(text: &[u8]) -> bool
    ensures { result ≡ rule.is_reason text.now }
{
    has_no_line_byte(text)
}
