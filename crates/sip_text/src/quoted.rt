//! Quoted strings (RFC 3261, section 25.1).
ghost use Rattle.std.specs.Prelude.{◌≡◌, false};
ghost use Rattle.sip_text.specs.Quoted as quoted;

use crate::character::is_line_byte;

/// Whether the text is a quoted string, with its quotes. A backslash escapes the next byte.
#[tactic(auto, unfolding(crate::specs::Quoted::is_quoted))]
pub fn is_quoted(text: &[u8]) -> bool
    ensures { result ≡ quoted.is_quoted text.now }
{
    match text {
        [b'"', rest @ ..] => ends_in_quote(rest),
        _ => false,
    }
}

fn ends_in_quote(text: &[u8]) -> bool
    ensures { result ≡ quoted.ends_in_quote false text.now }
{
    let mut rest = text;
    let mut escaped = false;
    while let [byte, after @ ..] = rest {
        if is_line_byte(*byte) {
            return false;
        }
        if !escaped && *byte == b'"' {
            return after.is_empty();
        }
        escaped = !escaped && *byte == b'\\';
        rest = after;
    }
    false
}
