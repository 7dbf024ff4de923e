//! Texts in lower case, by which branches, hosts and tags are compared (RFC 3261, section 7.3.1).
ghost use Rattle.std.specs.Prelude.{◌≡◌, IfOk};
ghost use Rattle.std.specs.Str.{str_to_ascii_lowercase};

use crate::checked::{Checked, Rule};
use sip_text::Text;
use std::alloc::{AllocError, Global};

/// The rule of [`LowerText`].
pub struct LowerTextRule;

impl Rule for LowerTextRule {
    ghost use Rattle.sip_grammar.specs.LowerText as rule;

    ghost holds = { rule.is_lower_text };

    #[tactic(auto, unfolding(crate::specs::LowerText::is_lower_text))]
    fn test(text: &[u8]) -> bool {
        text.iter().all(|byte| !byte.is_ascii_uppercase())
    }
}

/// A text without capitals: texts that differ only in the case of their letters become the same.
pub type LowerText = Checked<LowerTextRule>;

impl Checked<LowerTextRule> {
    /// The text in lower case.
    pub fn of(alloc: Global, text: &[u8]) -> Result<LowerText, AllocError>
        ensures { IfOk result (λ lower. lower ≡ str_to_ascii_lowercase text.now) }
    {
        Ok(LowerText::from_text(lower_case(alloc, text)?))
    }
}

fn lower_case(alloc: Global, text: &[u8]) -> Result<Text, AllocError>
    ensures { IfOk result (λ lower. lower ≡ str_to_ascii_lowercase text.now) }
{
    let bytes = text
        .iter()
        .map(|byte| byte.to_ascii_lowercase())
        .collect(alloc)?;
    Ok(Text::from_vec(bytes))
}
