//! Addresses: a display text, a URI and parameters (RFC 3261, section 20.10).
ghost use Rattle.std.specs.Prelude.{◌≡◌, [], IfOk, IfSome, IsTrue};
ghost use Rattle.sip_text.specs.Cut.{both_now};
ghost use Rattle.sip_grammar.specs.Uri.{is_uri};
ghost use Rattle.sip_header_values.specs.Address as values;

use crate::parameter::{parameters_behind, parameters_between};
use crate::row::{Row, checked_in, split_of};
use sip_grammar::{Checked, DisplayTextRule, Parameters, Rule, Uri, UriBytes, UriRule, is_uri};
use sip_message::NameAddr;
use sip_text::{Separator, Series, Text, run_before, trimmed};
use std::alloc::{AllocError, Global};

/// One address of a Contact, a Route or a Record-Route.
pub struct AddressRow;

impl Row for AddressRow {
    ghost use Rattle.sip_header_values.specs.Address.{name_addr_from};

    type Value = NameAddr;

    ghost reads = { name_addr_from };

    #[tactic(auto, unfolding(sip_grammar::specs::DisplayText::is_display_text))]
    fn read(alloc: Global, text: &[u8]) -> Result<Option<NameAddr>, AllocError> {
        let Some((display, (uri, parameters))) = address_in::<DisplayTextRule>(alloc, text)? else {
            return Ok(None);
        };
        Ok(Some(NameAddr {
            display,
            uri,
            parameters,
        }))
    }
}

/// The addresses of a line of a Contact, a Route or a Record-Route.
pub struct AddressListRow;

impl Row for AddressListRow {
    ghost use Rattle.sip_header_values.specs.Address.{name_addrs_from};

    type Value = Series<NameAddr>;

    ghost reads = { name_addrs_from };

    fn read(alloc: Global, text: &[u8]) -> Result<Option<Series<NameAddr>>, AllocError> {
        split_of::<AddressRow>(alloc, Separator::Byte(b','), text)
    }
}

/// A URI and parameters.
pub(crate) type Target = (Uri, Parameters);

/// A display text and a part in brackets, or an address without brackets.
pub(crate) fn address_in<R: Rule>(
    alloc: Global,
    text: &[u8],
) -> Result<Option<(Checked<R>, Target)>, AllocError>
    requires { IsTrue (R.holds []) }
    ensures { IfOk result (λ made. made ≡ values.address_from R.holds text.now) }
{
    let Some((display, rest)) = Separator::Byte(b'<').cut(text) else {
        let Some(target) = bare_in(alloc, text)? else {
            return Ok(None);
        };
        let nothing = Checked::from_text(Text::from_vec(Vec::new(alloc)));
        return Ok(Some((nothing, target)));
    };
    let Some(display) = checked_in(alloc, display)? else {
        return Ok(None);
    };
    let Some(target) = bracketed_in(alloc, rest)? else {
        return Ok(None);
    };
    Ok(Some((display, target)))
}

/// After `<`: a URI, `>` and parameters.
pub(crate) fn bracketed_in(alloc: Global, text: &[u8]) -> Result<Option<Target>, AllocError>
    ensures { IfOk result (λ made. made ≡ values.bracketed_from text.now) }
{
    let Some((uri, rest)) = uri_before_bracket(text) else {
        return Ok(None);
    };
    let Some(parameters) = parameters_behind(alloc, rest)? else {
        return Ok(None);
    };
    Ok(Some((Uri::copy_of(alloc, uri)?, parameters)))
}

/// A URI before `>`, and what follows.
fn uri_before_bracket(text: &[u8]) -> Option<(&[u8], &[u8])>
    ensures exact { both_now result ≡ values.uri_before_bracket text.now }
    ensures rule { IfSome result (λ parts. IsTrue (is_uri parts.0.now)) }
{
    match run_before::<UriBytes>(b'>', text) {
        Some((uri, rest)) => Some((uri, rest)),
        None => cut_at_bracket(text),
    }
}

fn cut_at_bracket(text: &[u8]) -> Option<(&[u8], &[u8])>
    ensures exact { both_now result ≡ values.uri_before_bracket text.now }
    ensures rule { IfSome result (λ parts. IsTrue (is_uri parts.0.now)) }
{
    let (uri, rest) = Separator::Byte(b'>').cut(text)?;
    let uri = trimmed(uri);
    if is_uri(uri) { Some((uri, rest)) } else { None }
}

/// A URI without brackets, and parameters.
pub(crate) fn bare_in(alloc: Global, text: &[u8]) -> Result<Option<Target>, AllocError>
    ensures { IfOk result (λ made. made ≡ values.bare_from text.now) }
{
    let Some((uri, rest)) = Separator::Byte(b';').cut(text) else {
        let Some(uri) = checked_in::<UriRule>(alloc, text)? else {
            return Ok(None);
        };
        return Ok(Some((uri, Parameters::new(alloc))));
    };
    let Some(uri) = checked_in::<UriRule>(alloc, uri)? else {
        return Ok(None);
    };
    let Some(parameters) = parameters_between(alloc, rest)? else {
        return Ok(None);
    };
    Ok(Some((uri, parameters)))
}
