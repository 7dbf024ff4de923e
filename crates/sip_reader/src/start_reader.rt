//! Reading of start lines (RFC 3261, sections 7.1 and 7.2).
ghost use Rattle.std.specs.Prelude.{◌≡◌, ◌≤◌, IfOk};
ghost use Rattle.sip_reader.specs.ReadStart as reading;

use crate::first_line::{FirstLine, Method};
use sip_grammar::{Reason, RequestUri, StatusCode};
use sip_text::{Text, cut, is_token, number_u32, token_eq};
use std::alloc::{AllocError, Global};

/// What the start line says, or None if it is neither a request line nor a status line.
#[tactic(auto, unfolding(crate::specs::ReadStart::start_at))]
pub(crate) fn start_of(
    alloc: Global,
    line: &[u8],
) -> Result<Option<FirstLine<Method<'_>>>, AllocError>
    ensures { IfOk result (λ start. start ≡ reading.start_at line.now) }
{
    let Some((first, rest)) = cut(b' ', line) else {
        return Ok(None);
    };
    if token_eq(first, b"SIP/2.0") {
        status_line(alloc, rest)
    } else {
        request_line(alloc, first, rest)
    }
}

#[tactic(auto, unfolding(crate::specs::ReadStart::request_at))]
fn request_line<'a>(
    alloc: Global,
    method: &'a [u8],
    rest: &[u8],
) -> Result<Option<FirstLine<Method<'a>>>, AllocError>
    ensures { IfOk result (λ start. start ≡ reading.request_at method.now rest.now) }
{
    let Some((uri, version)) = cut(b' ', rest) else {
        return Ok(None);
    };
    if !token_eq(version, b"SIP/2.0") {
        return Ok(None);
    }
    if !is_token(method) {
        return Ok(None);
    }
    let Some(uri) = RequestUri::new(Text::copy_of(alloc, uri)?) else {
        return Ok(None);
    };
    Ok(Some(FirstLine::Request {
        method: Method::new(method),
        uri,
    }))
}

#[tactic(auto, unfolding(crate::specs::ReadStart::status_at))]
fn status_line<'a>(alloc: Global, text: &[u8]) -> Result<Option<FirstLine<Method<'a>>>, AllocError>
    ensures { IfOk result (λ start. start ≡ reading.status_at text.now) }
{
    let (code, after) = text.split_at(text.len().min(3));
    let Some(status) = code_of(code) else {
        return Ok(None);
    };
    let Some(reason) = reason_of(alloc, after)? else {
        return Ok(None);
    };
    Ok(Some(FirstLine::Response { status, reason }))
}

#[tactic(auto, unfolding(crate::specs::ReadStart::code_at))]
fn code_of(text: &[u8]) -> Option<StatusCode>
    ensures { result ≡ reading.code_at text.now }
{
    match number_u32(text) {
        Ok(number) => code_from(number),
        Err(_) => None,
    }
}

fn code_from(number: u32) -> Option<StatusCode>
    ensures { result ≡ reading.code_from number }
{
    if number < 100 || 699 < number {
        return None;
    }
    Some(StatusCode::from_code(number as u16))
}

/// Nothing, or a space and a reason.
#[tactic(auto, unfolding(crate::specs::ReadStart::reason_at))]
fn reason_of(alloc: Global, text: &[u8]) -> Result<Option<Reason>, AllocError>
    ensures { IfOk result (λ reason. reason ≡ reading.reason_at text.now) }
{
    match text {
        [] => Ok(Some(Reason::nothing(alloc))),
        [b' ', reason @ ..] => Ok(Reason::new(Text::copy_of(alloc, reason)?)),
        _ => Ok(None),
    }
}
