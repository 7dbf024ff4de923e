//! The addresses in the values of headers: a display text, a URI and parameters (RFC 3261, section
//! 20.10).

ghost use Rattle.std.specs.Prelude.{◌≡◌, IfOk, OnErr, OnOk};
ghost use Rattle.sip_host.specs.Addresses as spec;
ghost use Rattle.sip_host.specs.Handing.{put_in};

use crate::handing::put;
use sip_grammar::Parameters;
use sip_header_values::{AddressListRow, PartyRow, Row};
use sip_text::ParameterText;
use std::alloc::{AllocError, Global};

/// How long the texts of an address are, in bytes.
#[derive(Clone, Copy)]
pub struct AddressLength {
    /// The display text as it is written, with its quotes.
    pub display: usize,
    pub uri: usize,
    /// The value of the parameter that was asked for, as it is written; none if there is no such
    /// parameter.
    pub value: Option<usize>,
}

/// The lengths of the address with this number, from 0, in the value of a Contact, a Route, a
/// Record-Route or a header of their form, if there is one. The display text, the URI and the value
/// of the parameter with this name go to the beginning of the buffer one after another, if all fit.
///
/// # Errors
///
/// Memory ran out; then nothing was written.
pub fn address_at(
    alloc: Global,
    value: &[u8],
    number: usize,
    parameter: &[u8],
    buffer: &mut [u8],
) -> Result<Option<AddressLength>, AllocError>
    ensures told { IfOk result (spec.TellsAddress (spec.address_at value.now number) parameter.now
        buffer.old buffer.new) }
    ensures same { OnErr result (buffer.new ≡ buffer.old) }
{
    let Some(addresses) = AddressListRow::read(alloc, value)? else {
        return Ok(None);
    };
    let Some(address) = addresses.as_slice().get(number) else {
        return Ok(None);
    };
    let (display, uri) = (address.display.as_slice(), address.uri.as_slice());
    let told = put_address(alloc, display, uri, &address.parameters, parameter, buffer)?;
    Ok(Some(told))
}

/// The same of the value of a From or a To, which is one address.
///
/// # Errors
///
/// As for [`address_at`].
pub fn party_in(
    alloc: Global,
    value: &[u8],
    parameter: &[u8],
    buffer: &mut [u8],
) -> Result<Option<AddressLength>, AllocError>
    ensures told { IfOk result (spec.TellsAddress (spec.party_in value.now) parameter.now
        buffer.old buffer.new) }
    ensures same { OnErr result (buffer.new ≡ buffer.old) }
{
    let Some(party) = PartyRow::read(alloc, value)? else {
        return Ok(None);
    };
    let (display, uri) = (party.display.as_slice(), party.uri.as_slice());
    let parameters = party.parameters.as_parameters();
    let told = put_address(alloc, display, uri, parameters, parameter, buffer)?;
    Ok(Some(told))
}

fn put_address(
    alloc: Global,
    display: &[u8],
    uri: &[u8],
    parameters: &Parameters,
    name: &[u8],
    buffer: &mut [u8],
) -> Result<AddressLength, AllocError>
    ensures lengths { IfOk result (λ told. told ≡ spec.lengths_of name.now (record {
      display = display.now;
      uri = uri.now;
      parameters = parameters.now;
    })) }
    ensures put { OnOk result (buffer.new ≡ put_in (spec.texts_of name.now (record {
      display = display.now;
      uri = uri.now;
      parameters = parameters.now;
    })) buffer.old) }
    ensures same { OnErr result (buffer.new ≡ buffer.old) }
{
    let mut text = Vec::from_slice(alloc, display)?;
    text.extend_from_slice(uri)?;
    text.extend_from_slice(parameters.value_named(name))?;
    put(&text, buffer);
    Ok(AddressLength {
        display: display.len(),
        uri: uri.len(),
        value: value_length(parameters, name),
    })
}

// How long the value of the first parameter with this name is, if there is one.
fn value_length(parameters: &Parameters, name: &[u8]) -> Option<usize>
    ensures { result ≡ spec.value_length name.now parameters.now }
{
    match parameters.named(name) {
        Some(
            ParameterText {
                value: Some(value),
                ..
            },
        ) => Some(value.len()),
        Some(_) => Some(0),
        None => None,
    }
}
