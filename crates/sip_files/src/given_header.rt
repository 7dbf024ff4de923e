//! The header lines of a session file. Each says a header of the command that follows it (RFC 3261,
//! section 7.3.1).

ghost use Rattle.std.specs.Prelude.{◌≡◌, IfOk};
ghost use Rattle.sip_files.specs.Given as given;
ghost use Rattle.sip_files.specs.Steps.ReadLine as reading;
ghost use Rattle.sip_headers.specs.HeaderFields.{no_header_fields, with_line};

use crate::version::Version;
use crate::words::read_rest;
use sip_header_values::{AddressListRow, Row, TokenListRow};
use sip_headers::{HeaderFields, LineClass, class_of};
use sip_message::{Header, HeaderName, NameAddr, Token};
use sip_text::Series;
use std::alloc::{AllocError, Global};

/// What a header line says. Of the headers that the profile reads, the user may give only these
/// four.
#[derive(Drop)]
pub enum GivenHeader {
    Contact(Series<NameAddr>),
    Route(Series<NameAddr>),
    Supported(Series<Token>),
    Require(Series<Token>),
    /// A header that stays as it stands.
    Other(Header),
}

impl Clone for GivenHeader {
    ghost is_clone = { λ original copy. copy ≡ original };

    fn clone(&self) -> Result<GivenHeader, AllocError> {
        Ok(match self {
            GivenHeader::Contact(contacts) => GivenHeader::Contact(contacts.clone()?),
            GivenHeader::Route(routes) => GivenHeader::Route(routes.clone()?),
            GivenHeader::Supported(tokens) => GivenHeader::Supported(tokens.clone()?),
            GivenHeader::Require(tokens) => GivenHeader::Require(tokens.clone()?),
            GivenHeader::Other(header) => GivenHeader::Other(header.clone()?),
        })
    }
}

/// What the fields of a header line say, if a file of this version may have one: only a session
/// file may.
pub(crate) fn header_in(
    alloc: Global,
    version: Version,
    fields: &[u8],
) -> Result<Option<GivenHeader>, AllocError>
    ensures { IfOk result (λ header. header ≡ reading.header_in version fields.now) }
{
    match version {
        Version::One | Version::Two => Ok(None),
        Version::SessionOne => read_header(alloc, fields),
    }
}

// A header line of a message, as a rest.
#[tactic(auto, unfolding(crate::specs::Steps::ReadLine::header_at))]
fn read_header(alloc: Global, fields: &[u8]) -> Result<Option<GivenHeader>, AllocError>
    ensures { IfOk result (λ header. header ≡ reading.header_at fields.now) }
{
    let Some(line) = read_rest(alloc, fields)? else {
        return Ok(None);
    };
    read_given(alloc, line.as_slice())
}

/// What a header line of a message says. The line stands without its end. None if the text isn't a
/// header line, if the user may not give its header, or if the value doesn't have the header's
/// form.
///
/// # Errors
///
/// Memory ran out.
pub fn read_given(alloc: Global, line: &[u8]) -> Result<Option<GivenHeader>, AllocError>
    ensures { IfOk result (λ header. header ≡ given.given_at line.now) }
{
    match class_of(line) {
        LineClass::Bad => Ok(None),
        LineClass::Known(header, value) => read_value(alloc, header, value),
        LineClass::Other(_, _) => read_other(alloc, line),
    }
}

// The value of a header of the profile, if the user may give that header.
fn read_value(
    alloc: Global,
    header: HeaderName,
    value: &[u8],
) -> Result<Option<GivenHeader>, AllocError>
    ensures { IfOk result (λ made. made ≡ given.value_given header value.now) }
{
    match header {
        HeaderName::Contact => Ok(AddressListRow::read(alloc, value)?.map(GivenHeader::Contact)),
        HeaderName::Route => Ok(AddressListRow::read(alloc, value)?.map(GivenHeader::Route)),
        HeaderName::Supported => Ok(TokenListRow::read(alloc, value)?.map(GivenHeader::Supported)),
        HeaderName::Require => Ok(TokenListRow::read(alloc, value)?.map(GivenHeader::Require)),
        _ => Ok(None),
    }
}

// Another header, with its own name. The draft of a message puts it under its long name.
fn read_other(alloc: Global, line: &[u8]) -> Result<Option<GivenHeader>, AllocError>
    ensures { IfOk result
        (λ made. made ≡ given.other_given (with_line no_header_fields line.now).others) }
{
    let mut draft = HeaderFields::new(alloc);
    draft.add(alloc, line)?;
    let Some(others) = draft.others.take() else {
        return Ok(None);
    };
    Ok(others.into_vec().pop().map(GivenHeader::Other))
}
