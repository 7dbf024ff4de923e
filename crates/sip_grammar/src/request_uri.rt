//! The URI of a request line (RFC 3261, section 7.1).
ghost use Rattle.std.specs.Prelude.{◌≡◌};
ghost use Rattle.sip_grammar.specs.Word as rule;

use crate::checked::{Checked, Rule};
use crate::uri::Uri;
use crate::word::is_word;

/// The rule of [`RequestUri`].
pub struct RequestUriRule;

impl Rule for RequestUriRule {
    ghost use Rattle.sip_grammar.specs.Word as rule;

    ghost holds = { rule.is_word };

    fn test(text: &[u8]) -> bool {
        is_word(text)
    }
}

/// The URI of a request line: not empty, without spaces, tabs and line ends.
pub type RequestUri = Checked<RequestUriRule>;

impl Checked<RequestUriRule> {
    /// The same URI in the place of a Request-URI.
    pub fn from_uri(uri: Uri) -> RequestUri
        ensures { result ≡ uri }
    {
        RequestUri::from_text(uri.into_text())
    }
}
