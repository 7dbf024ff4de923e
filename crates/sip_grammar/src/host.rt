//! The host of a Via (RFC 3261, section 20.42).
ghost use Rattle.std.specs.Prelude.{◌≡◌};
ghost use Rattle.sip_grammar.specs.Host as rule;

use crate::checked::{Checked, Rule};
use sip_text::{ByteClass, cut, each_is};

/// The rule of [`Host`].
pub struct HostRule;

impl Rule for HostRule {
    ghost use Rattle.sip_grammar.specs.Host as rule;

    ghost holds = { rule.is_host };

    fn test(text: &[u8]) -> bool {
        is_host(text)
    }
}

/// A host name or address as text. One in brackets may have colons.
pub type Host = Checked<HostRule>;

/// Whether the text is a host.
#[tactic(auto, unfolding(crate::specs::Host::is_host))]
pub fn is_host(text: &[u8]) -> bool
    ensures { result ≡ rule.is_host text.now }
{
    match text {
        [] => false,
        [b'[', rest @ ..] => ends_in_bracket(rest),
        [_, ..] => each_is::<HostBytes>(text),
    }
}

fn ends_in_bracket(text: &[u8]) -> bool
    ensures { result ≡ rule.ends_in_bracket text.now }
{
    match cut(b']', text) {
        Some((inside, [])) => each_is::<BracketBytes>(inside),
        _ => false,
    }
}

struct BracketBytes;

impl ByteClass for BracketBytes {
    ghost use Rattle.sip_grammar.specs.Host.{is_bracket_byte};

    ghost holds = { is_bracket_byte };

    #[tactic(auto, unfolding(crate::specs::Host::is_bracket_byte))]
    fn test(byte: u8) -> bool {
        !matches!(
            byte,
            b' ' | b'\t' | b'\r' | b'\n' | b',' | b';' | b']' | b'"' | b'<' | b'>'
        )
    }
}

// An x in the place of each byte of a host without brackets.
#[rattlefmt::skip]
static HOST_BYTES: [u8; 256] = *b"\
    xxxxxxxxx..xx.xxxxxxxxxxxxxxxxxx\
    .x.xxxxxxxxx.xxxxxxxxxxxxx...x.x\
    xxxxxxxxxxxxxxxxxxxxxxxxxxx.xxxx\
    xxxxxxxxxxxxxxxxxxxxxxxxxxxxxxxx\
    xxxxxxxxxxxxxxxxxxxxxxxxxxxxxxxx\
    xxxxxxxxxxxxxxxxxxxxxxxxxxxxxxxx\
    xxxxxxxxxxxxxxxxxxxxxxxxxxxxxxxx\
    xxxxxxxxxxxxxxxxxxxxxxxxxxxxxxxx";

/// The bytes of a host without brackets.
pub struct HostBytes;

impl ByteClass for HostBytes {
    ghost use Rattle.sip_grammar.specs.Host.{is_host_byte};

    ghost holds = { is_host_byte };

    fn test(byte: u8) -> bool {
        HOST_BYTES[usize::from(byte)] == b'x'
    }
}
