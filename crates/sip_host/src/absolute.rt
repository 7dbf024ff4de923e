//! Whether a URI of a command names its scheme.

ghost use Rattle.std.specs.Prelude.{◌≡◌, List};
ghost use Rattle.std.specs.List.{list_all};
ghost use Rattle.sip_host.specs.Absolute as spec;

use sip_grammar::is_uri;
use sip_text::cut;

/// Whether the text is a URI that begins with a scheme and a colon, such as `sip:` (RFC 3261,
/// section 25.1).
pub(crate) fn is_absolute(text: &[u8]) -> bool
    ensures { result ≡ spec.is_absolute text.now }
{
    is_uri(text) && names_scheme(text)
}

#[tactic(auto, unfolding(crate::specs::Absolute::names_scheme))]
fn names_scheme(text: &[u8]) -> bool
    ensures { result ≡ spec.names_scheme text.now }
{
    match cut(b':', text) {
        Some((scheme, _)) => is_scheme(scheme),
        None => false,
    }
}

fn is_scheme(text: &[u8]) -> bool
    ensures { result ≡ spec.is_scheme text.now }
{
    match text {
        [] => false,
        [first, rest @ ..] => first.is_ascii_alphabetic() && is_tail(rest),
    }
}

fn is_tail(text: &[u8]) -> bool
    ensures { result ≡ list_all spec.is_scheme_byte text.now }
{
    text.iter().all(|byte| is_scheme_byte(*byte))
}

fn is_scheme_byte(byte: u8) -> bool
    ensures { result ≡ spec.is_scheme_byte byte }
{
    byte.is_ascii_alphanumeric() || byte == b'+' || byte == b'-' || byte == b'.'
}
