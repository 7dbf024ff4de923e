//! Via values (RFC 3261, section 20.42).
ghost use Rattle.std.specs.Prelude.{◌≡◌, ◌++◌, ◌∷◌, IfOk, IfSome, IsTrue, Some, codes, true};
ghost use Rattle.std.specs.Option.{option_copied, option_map};
ghost use Rattle.sip_text.specs.Cut.{both_now};
ghost use Rattle.sip_text.specs.Token.{is_run, is_token};
ghost use Rattle.sip_text.specs.declared.separator.Separator.TheVariants as separator;
ghost use Rattle.sip_grammar.specs.Host.{is_host, is_host_byte};
ghost use Rattle.sip_grammar.specs.Steps.First.{first, first_now};
ghost use Rattle.sip_header_values.specs.ViaValue as values;

use crate::numeral::{Numeral, numeral_in, numeral_of};
use crate::parameter::parameters_between;
use crate::row::{Row, split_of};
use sip_grammar::{Host, HostBytes, Parameters, Token, behind_semicolon, is_host};
use sip_text::{
    Separator, Series, TokenBytes, has_open_quote, is_token, run_before, run_len, token_eq, trimmed,
};
use std::alloc::{AllocError, Global};

/// One value of a Via. The word in the place of its port may be no number.
#[derive(Drop)]
pub struct ViaDraft {
    pub transport: Token,
    pub host: Host,
    pub port: Option<Numeral>,
    pub parameters: Parameters,
}

/// What comes before the transport, if it is written without white space.
const PROTOCOL: &[u8] = b"SIP/2.0/";

/// One value of a Via.
pub struct ViaRow;

impl Row for ViaRow {
    ghost use Rattle.sip_header_values.specs.ViaValue.{via_from};

    type Value = ViaDraft;

    ghost reads = { via_from };

    fn read(alloc: Global, text: &[u8]) -> Result<Option<ViaDraft>, AllocError> {
        let text = trimmed(text);
        if let Some(hop) = text.strip_prefix(PROTOCOL) {
            return hop_in(alloc, trimmed(hop));
        }
        spaced_in(alloc, text)
    }
}

/// The values of a Via line.
pub struct ViaListRow;

impl Row for ViaListRow {
    ghost use Rattle.sip_header_values.specs.ViaValue.{vias_from};

    type Value = Series<ViaDraft>;

    ghost reads = { vias_from };

    fn read(alloc: Global, text: &[u8]) -> Result<Option<Series<ViaDraft>>, AllocError> {
        split_of::<ViaRow>(alloc, Separator::Byte(b','), text)
    }
}

/// The same, with white space allowed around the slashes, and letters in any case.
fn spaced_in(alloc: Global, text: &[u8]) -> Result<Option<ViaDraft>, AllocError>
    ensures { IfOk result (λ made. made ≡ values.protocol_from text.now) }
{
    let Some((protocol, rest)) = Separator::Byte(b'/').cut(text) else {
        return Ok(None);
    };
    if !token_eq(trimmed(protocol), b"SIP") {
        return Ok(None);
    }
    behind_protocol(alloc, rest)
}

fn behind_protocol(alloc: Global, text: &[u8]) -> Result<Option<ViaDraft>, AllocError>
    ensures { IfOk result (λ made. made ≡ values.behind_protocol_from text.now) }
{
    let Some((version, rest)) = Separator::Byte(b'/').cut(text) else {
        return Ok(None);
    };
    if !token_eq(trimmed(version), b"2.0") {
        return Ok(None);
    }
    hop_in(alloc, trimmed(rest))
}

/// The transport, white space, and what follows it.
fn hop_in(alloc: Global, text: &[u8]) -> Result<Option<ViaDraft>, AllocError>
    ensures { IfOk result (λ made. made ≡ values.hop_from text.now) }
{
    let Some((transport, rest)) = transport_in(text) else {
        return Ok(None);
    };
    let Some(((host, port), parameters)) = end_in(alloc, trimmed(rest))? else {
        return Ok(None);
    };
    Ok(Some(ViaDraft {
        transport: Token::copy_of(alloc, transport)?,
        host,
        port,
        parameters,
    }))
}

/// A token before white space, and what follows.
fn transport_in(text: &[u8]) -> Option<(&[u8], &[u8])>
    ensures exact { both_now result ≡ values.transport_from text.now }
    ensures rule { IfSome result (λ parts. IsTrue (is_token parts.0.now)) }
{
    match run_before::<TokenBytes>(b' ', text) {
        Some((transport, rest)) => Some((transport, rest)),
        None => cut_transport(text),
    }
}

fn cut_transport(text: &[u8]) -> Option<(&[u8], &[u8])>
    ensures exact { both_now result ≡ values.transport_from text.now }
    ensures rule { IfSome result (λ parts. IsTrue (is_token parts.0.now)) }
{
    let (transport, rest) = Separator::Blank.cut(text)?;
    if is_token(transport) {
        Some((transport, rest))
    } else {
        None
    }
}

/// The host, the port and the parameters, which begin at the first semicolon.
fn end_in(alloc: Global, text: &[u8]) -> Result<Option<(SentByDraft, Parameters)>, AllocError>
    ensures { IfOk result (λ made. made ≡ values.end_from text.now) }
{
    if has_open_quote(text) {
        return Ok(None);
    }
    let Some(((host, port), rest)) = first_sent_by(text) else {
        return Ok(None);
    };
    let parameters = match rest {
        None => Parameters::new(alloc),
        Some(rest) => match parameters_between(alloc, rest)? {
            Some(parameters) => parameters,
            None => return Ok(None),
        },
    };
    let host = Host::copy_of(alloc, host)?;
    Ok(Some(((host, port), parameters)))
}

/// A host, and a word in its port's place, if there is one.
type SentByDraft = (Host, Option<Numeral>);

/// The same as parts of a text.
type SentByText<'a> = (&'a [u8], Option<Numeral>);

/// The host and the port, and what follows the first semicolon, if there is one.
fn first_sent_by(text: &[u8]) -> Option<(SentByText<'_>, Option<&[u8]>)>
    ensures exact { option_map (first_now values.sent_by_now) result
        ≡ first (separator.Anywhere 59) values.sent_by_from text.now }
    ensures rule { IfSome result (λ found. IsTrue (is_host found.0.0.now)) }
{
    match plain_sent_by(text) {
        Some(found) => Some(found),
        None => cut_sent_by(text),
    }
}

fn cut_sent_by(text: &[u8]) -> Option<(SentByText<'_>, Option<&[u8]>)>
    ensures exact { option_map (first_now values.sent_by_now) result
        ≡ first (separator.Anywhere 59) values.sent_by_from text.now }
    ensures rule { IfSome result (λ found. IsTrue (is_host found.0.0.now)) }
{
    match Separator::Anywhere(b';').cut(text) {
        None => Some((sent_by_in(text)?, None)),
        Some((sent_by, after)) => Some((sent_by_in(sent_by)?, Some(after))),
    }
}

/// The same in one pass. None if it has white space, the host has brackets, or it is no host and
/// port.
fn plain_sent_by(text: &[u8]) -> Option<(SentByText<'_>, Option<&[u8]>)>
    ensures exact { IfSome result (λ found. first (separator.Anywhere 59) values.sent_by_from
        text.now
        ≡ Some (first_now values.sent_by_now found)) }
    ensures rule { IfSome result (λ found. IsTrue (is_host found.0.0.now)) }
{
    let (host, rest) = text.split_at(run_len::<HostBytes>(text));
    if host.is_empty() {
        return None;
    }
    if let [b':', port @ ..] = rest {
        return plain_port(host, port);
    }
    let after = behind_semicolon(rest)?;
    Some(((host, None), after))
}

/// The same if a colon follows the host.
fn plain_port<'a>(host: &'a [u8], text: &'a [u8]) -> Option<(SentByText<'a>, Option<&'a [u8]>)>
    requires { is_run is_host_byte host.now ≡ true }
    ensures exact { IfSome result (λ found.
        first (separator.Anywhere 59) values.sent_by_from (host.now ++ 58 ∷ text.now)
        ≡ Some (first_now values.sent_by_now found)) }
    ensures rule { IfSome result (λ found. IsTrue (is_host found.0.0.now)) }
{
    let (port, rest) = text.split_at(run_len::<TokenBytes>(text));
    if port.is_empty() {
        return None;
    }
    let after = behind_semicolon(rest)?;
    let port = numeral_of(port);
    Some(((host, Some(port)), after))
}

fn sent_by_in(text: &[u8]) -> Option<SentByText<'_>>
    ensures exact { option_map values.sent_by_now result ≡ values.sent_by_from text.now }
    ensures rule { IfSome result (λ sent_by. IsTrue (is_host sent_by.0.now)) }
{
    match Separator::Colon.cut(text) {
        None => Some((host_in(text)?, None)),
        Some((host, port)) => {
            let host = host_in(host)?;
            let port = numeral_in(trimmed(port))?;
            Some((host, Some(port)))
        }
    }
}

fn host_in(text: &[u8]) -> Option<&[u8]>
    ensures exact { option_copied result ≡ values.host_from text.now }
    ensures rule { IfSome result (λ host. IsTrue (is_host host.now)) }
{
    let host = trimmed(text);
    if is_host(host) { Some(host) } else { None }
}
