//! URIs in header fields (RFC 3261, section 19.1).
ghost use Rattle.std.specs.Prelude.{◌≡◌};
ghost use Rattle.sip_grammar.specs.Uri as rule;

use crate::checked::{Checked, Rule};
use sip_text::{ByteClass, is_run};

/// The rule of [`Uri`].
pub struct UriRule;

impl Rule for UriRule {
    ghost use Rattle.sip_grammar.specs.Uri as rule;

    ghost holds = { rule.is_uri };

    fn test(text: &[u8]) -> bool {
        is_uri(text)
    }
}

/// A URI in a header field: not empty, without spaces, tabs, line ends, `<`, `>` and `"`.
pub type Uri = Checked<UriRule>;

/// Whether the text is a URI.
#[tactic(auto, unfolding(crate::specs::Uri::is_uri))]
pub fn is_uri(text: &[u8]) -> bool
    ensures { result ≡ rule.is_uri text.now }
{
    is_run::<UriBytes>(text)
}

// An x in the place of each byte of a URI.
#[rattlefmt::skip]
static URI_BYTES: [u8; 256] = *b"\
    xxxxxxxxx..xx.xxxxxxxxxxxxxxxxxx\
    .x.xxxxxxxxxxxxxxxxxxxxxxxxx.x.x\
    xxxxxxxxxxxxxxxxxxxxxxxxxxxxxxxx\
    xxxxxxxxxxxxxxxxxxxxxxxxxxxxxxxx\
    xxxxxxxxxxxxxxxxxxxxxxxxxxxxxxxx\
    xxxxxxxxxxxxxxxxxxxxxxxxxxxxxxxx\
    xxxxxxxxxxxxxxxxxxxxxxxxxxxxxxxx\
    xxxxxxxxxxxxxxxxxxxxxxxxxxxxxxxx";

/// The bytes of a URI.
pub struct UriBytes;

impl ByteClass for UriBytes {
    ghost use Rattle.sip_grammar.specs.Uri.{is_uri_byte};

    ghost holds = { is_uri_byte };

    fn test(byte: u8) -> bool {
        URI_BYTES[usize::from(byte)] == b'x'
    }
}
