//! The addresses and the URIs that options spell.

ghost use Rattle.std.specs.Prelude.{◌≡◌, IfOk};
ghost use Rattle.std.specs.List.{list_all};
ghost use Rattle.sip_message.specs.Addr.{addr_text};
ghost use Rattle.sip_ua.specs.Scheme.{is_scheme, is_scheme_byte};

use crate::failure::Failure;
use crate::options::text_of;
use clap::ArgMatches;
use sip_message::{Addr, CallId, Uri};
use sip_text::Text;
use std::alloc::Global;
use std::net::SocketAddrV4;

/// The address that the word of an option spells, in the way of an event file: `a.b.c.d:port`.
pub(crate) fn address_of(alloc: Global, option: &'static str, word: &str) -> Result<Addr, Failure>
    ensures { IfOk result (λ addr. word.now ≡ addr_text addr) }
{
    if let Ok(address) = word.parse::<SocketAddrV4>() {
        let addr = Addr {
            ip: address.ip().octets(),
            port: address.port(),
        };
        let spelled = format!(in alloc; "{addr}")?;
        if spelled.as_str() == word {
            return Ok(addr);
        }
    }
    Err(Failure::of_word(option, "not an address, as 192.0.2.1:5060"))
}

/// The URI that the word of an option spells.
pub(crate) fn uri_of(alloc: Global, option: &'static str, word: &str) -> Result<Uri, Failure> {
    if !has_scheme(word) {
        return Err(Failure::of_word(option, "no scheme, as in sip:bob@192.0.2.9"));
    }
    let text = Text::copy_of(alloc, word.as_bytes())?;
    Uri::new(text).ok_or(Failure::of_word(option, "not a URI"))
}

/// The Call-ID of `--call-id`.
pub(crate) fn call_id_of(alloc: Global, options: &ArgMatches) -> Result<CallId, Failure> {
    let text = Text::copy_of(alloc, text_of(options, "call-id").as_bytes())?;
    CallId::new(text).ok_or(Failure::of_word("call-id", "not a Call-ID"))
}

// Whether a text begins with a scheme and a colon.
fn has_scheme(text: &str) -> bool {
    match text.split_once(':') {
        Some((scheme, _)) => is_scheme(scheme.as_bytes()),
        None => false,
    }
}

fn is_scheme(text: &[u8]) -> bool
    ensures { result ≡ is_scheme text.now }
{
    match text {
        [] => false,
        [first, ..] => first.is_ascii_alphabetic() && are_scheme_bytes(text),
    }
}

fn are_scheme_bytes(text: &[u8]) -> bool
    ensures { result ≡ list_all is_scheme_byte text.now }
{
    text.iter().all(|byte| is_scheme_byte(*byte))
}

fn is_scheme_byte(byte: u8) -> bool
    ensures { result ≡ is_scheme_byte byte }
{
    byte.is_ascii_alphanumeric() || byte == b'+' || byte == b'-' || byte == b'.'
}
