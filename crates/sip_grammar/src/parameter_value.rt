//! The value of a parameter (RFC 3261, section 7.3.1).
ghost use Rattle.std.specs.Prelude.{◌≡◌};
ghost use Rattle.sip_text.specs.Parameter as rule;

use crate::checked::{Checked, Rule};
use sip_text::is_parameter_value;

/// The rule of [`ParameterValue`].
pub struct ParameterValueRule;

impl Rule for ParameterValueRule {
    ghost use Rattle.sip_text.specs.Parameter as rule;

    ghost holds = { rule.is_parameter_value };

    fn test(text: &[u8]) -> bool {
        is_parameter_value(text)
    }
}

/// A quoted string with its quotes, or one or more bytes without spaces, tabs, line ends, `;`, `,`,
/// `<`, `>` and `"`.
pub type ParameterValue = Checked<ParameterValueRule>;
