//! The parts of a URI that routing looks at (RFC 3261, section 19.1.1).
ghost use Rattle.std.specs.Prelude.{◌≡◌};
ghost use Rattle.std.specs.List.{list_any, slice_split};
ghost use Rattle.std.specs.Option.{option_copied};
ghost use Rattle.sip_dialog.specs.UriText as uri_text;

use memchr::memrchr;
use sip_text::{cut, token_eq};

/// Whether the URI is that of a loose router: whether it has the parameter `lr` behind its host.
/// Takes no memory.
#[tactic(auto, unfolding(crate::specs::UriText::is_loose))]
pub(crate) fn is_loose(uri: &[u8]) -> bool
    ensures { result ≡ uri_text.is_loose uri.now }
{
    match host_part(uri) {
        Some(part) => has_lr(part),
        None => false,
    }
}

/// The host, the port and the parameters of the URI, or None if it has no host.
#[tactic(auto, unfolding(crate::specs::UriText::host_part))]
pub(crate) fn host_part(uri: &[u8]) -> Option<&[u8]>
    ensures { option_copied result ≡ uri_text.host_part uri.now }
{
    Some(before(b'?', after_userinfo(uri)?))
}

/// The text before the first such byte, or all of it if there is none.
pub(crate) fn before(byte: u8, text: &[u8]) -> &[u8]
    ensures { result.now ≡ uri_text.before byte text.now }
{
    match cut(byte, text) {
        Some((front, _)) => front,
        None => text,
    }
}

#[tactic(auto, unfolding(crate::specs::UriText::after_userinfo))]
fn after_userinfo(uri: &[u8]) -> Option<&[u8]>
    ensures { option_copied result ≡ uri_text.after_userinfo uri.now }
{
    match memrchr(b'@', uri) {
        Some(place) => Some(&uri[place + 1..]),
        None => after_scheme(uri),
    }
}

fn after_scheme(uri: &[u8]) -> Option<&[u8]>
    ensures { option_copied result ≡ uri_text.after_scheme uri.now }
{
    let (_, after) = cut(b':', uri)?;
    Some(after)
}

fn has_lr(part: &[u8]) -> bool
    ensures { result ≡ uri_text.has_lr part.now }
{
    match cut(b';', part) {
        Some((_, parameters)) => any_is_lr(parameters),
        None => false,
    }
}

fn any_is_lr(parameters: &[u8]) -> bool
    ensures { result
        ≡ list_any uri_text.is_lr (slice_split uri_text.is_semicolon parameters.now) }
{
    parameters
        .split(|byte| *byte == b';')
        .any(|parameter| is_lr(parameter))
}

#[tactic(auto, unfolding(crate::specs::UriText::is_lr))]
fn is_lr(parameter: &[u8]) -> bool
    ensures { result ≡ uri_text.is_lr parameter.now }
{
    token_eq(before(b'=', parameter), b"lr")
}
