//! Messages as text.
ghost use Rattle.std.specs.Prelude.{◌≡◌, ◌++◌, IfOk, OnOk, codes, decimal};
ghost use Rattle.std.specs.List.{flat_map};
ghost use Rattle.sip_message.specs.Written as written;

use crate::cseq::CSeq;
use crate::header::Header;
use crate::message::Message;
use crate::name_addr::NameAddr;
use crate::party::Party;
use crate::rack::RAck;
use crate::start_line::StartLine;
use crate::via::Via;
use sip_grammar::{Parameters, Token};
use sip_text::decimal;
use std::alloc::{AllocError, Global};

/// How many bytes are reserved for all that comes before a body.
const ROOM_FOR_HEADERS: usize = 512;

/// The one text of the message: its start line, its headers in a fixed order, an empty line and its
/// body.
#[tactic(auto, unfolding(crate::specs::Written::written))]
pub fn write(alloc: Global, message: &Message) -> Result<Vec<u8>, AllocError>
    ensures { IfOk result (λ text. text.items ≡ written.written message.now) }
{
    let mut out = Vec::with_capacity(alloc, room_for(message))?;
    push_head(&mut out, message)?;
    push_identity(&mut out, message)?;
    push_routes(&mut out, message)?;
    push_extensions(&mut out, message)?;
    push_content(&mut out, message)?;
    Ok(out)
}

// How many bytes are reserved for a message, so that few texts grow while they are written.
fn room_for(message: &Message) -> usize {
    ROOM_FOR_HEADERS.saturating_add(message.body.len())
}

#[tactic(auto, unfolding(crate::specs::Written::head_text))]
fn push_head(out: &mut Vec<u8>, message: &Message) -> Result<(), AllocError>
    ensures { OnOk result (out.new.items ≡ out.old.items ++ written.head_text message.now) }
{
    push_start(out, &message.start, &message.cseq.method)?;
    push_vias(out, message.vias.as_slice())?;
    push_number_line(out, b"Max-Forwards", message.max_forwards)
}

#[tactic(auto, unfolding(crate::specs::Written::start_text))]
fn push_start(out: &mut Vec<u8>, start: &StartLine, method: &Token) -> Result<(), AllocError>
    ensures { OnOk result (out.new.items ≡ out.old.items
        ++ written.start_text start.now method.now) }
{
    match start {
        StartLine::Request { uri } => {
            out.extend_from_slice(method.as_slice())?;
            out.push(b' ')?;
            out.extend_from_slice(uri.as_slice())?;
            out.extend_from_slice(b" SIP/2.0\r\n")
        }
        StartLine::Response { status, reason } => {
            out.extend_from_slice(b"SIP/2.0 ")?;
            push_number(out, u64::from(status.code()))?;
            out.push(b' ')?;
            out.extend_from_slice(reason.as_slice())?;
            out.extend_from_slice(b"\r\n")
        }
    }
}

fn push_number(out: &mut Vec<u8>, number: u64) -> Result<(), AllocError>
    ensures { OnOk result (out.new.items ≡ out.old.items ++ decimal number) }
{
    out.extend_from_slice(&decimal(number))
}

#[tactic(auto, unfolding(crate::specs::Written::header_line))]
fn push_header(out: &mut Vec<u8>, name: &[u8], value: &[u8]) -> Result<(), AllocError>
    ensures { OnOk result (out.new.items ≡ out.old.items
        ++ written.header_line name.now value.now) }
{
    out.extend_from_slice(name)?;
    out.extend_from_slice(b": ")?;
    out.extend_from_slice(value)?;
    out.extend_from_slice(b"\r\n")
}

fn push_number_line(out: &mut Vec<u8>, name: &[u8], number: Option<u32>) -> Result<(), AllocError>
    ensures { OnOk result (out.new.items ≡ out.old.items ++ written.number_line name.now number) }
{
    match number {
        None => Ok(()),
        Some(number) => push_header(out, name, &decimal(u64::from(number))),
    }
}

fn push_vias(out: &mut Vec<u8>, vias: &[Via]) -> Result<(), AllocError>
    ensures { OnOk result (out.new.items ≡ out.old.items ++ flat_map written.via_line vias.now) }
{
    for via in vias {
        push_via_line(out, via)?;
    }
    Ok(())
}

#[tactic(auto, unfolding(crate::specs::Written::header_line))]
fn push_via_line(out: &mut Vec<u8>, via: &Via) -> Result<(), AllocError>
    ensures { OnOk result (out.new.items ≡ out.old.items ++ written.via_line via.now) }
{
    out.extend_from_slice(b"Via: ")?;
    push_via(out, via)?;
    out.extend_from_slice(b"\r\n")
}

#[tactic(auto, unfolding(crate::specs::Written::via_text))]
fn push_via(out: &mut Vec<u8>, via: &Via) -> Result<(), AllocError>
    ensures { OnOk result (out.new.items ≡ out.old.items ++ written.via_text via.now) }
{
    out.extend_from_slice(b"SIP/2.0/")?;
    out.extend_from_slice(via.transport.as_slice())?;
    out.push(b' ')?;
    out.extend_from_slice(via.host.as_slice())?;
    push_port(out, via.port)?;
    out.extend_from_slice(via.parameters.as_text())
}

fn push_port(out: &mut Vec<u8>, port: Option<u16>) -> Result<(), AllocError>
    ensures { OnOk result (out.new.items ≡ out.old.items ++ written.port_text port) }
{
    match port {
        None => Ok(()),
        Some(port) => {
            out.push(b':')?;
            push_number(out, u64::from(port))
        }
    }
}

#[tactic(auto, unfolding(crate::specs::Written::identity_text))]
fn push_identity(out: &mut Vec<u8>, message: &Message) -> Result<(), AllocError>
    ensures { OnOk result (out.new.items ≡ out.old.items ++ written.identity_text message.now) }
{
    push_party_line(out, b"From", &message.from)?;
    push_party_line(out, b"To", &message.to)?;
    push_header(out, b"Call-ID", message.call_id.as_slice())?;
    push_cseq_line(out, &message.cseq)
}

#[tactic(auto, unfolding(crate::specs::Written::header_line))]
fn push_party_line(out: &mut Vec<u8>, name: &[u8], party: &Party) -> Result<(), AllocError>
    ensures { OnOk result (out.new.items ≡ out.old.items ++ written.party_line name.now party.now) }
{
    out.extend_from_slice(name)?;
    out.extend_from_slice(b": ")?;
    let parameters = party.parameters.as_parameters();
    push_address(
        out,
        party.display.as_slice(),
        party.uri.as_slice(),
        parameters,
    )?;
    out.extend_from_slice(b"\r\n")
}

#[tactic(auto, unfolding(crate::specs::Written::address_text))]
fn push_address(
    out: &mut Vec<u8>,
    display: &[u8],
    uri: &[u8],
    parameters: &Parameters,
) -> Result<(), AllocError>
    ensures { OnOk result (out.new.items ≡ out.old.items
        ++ written.address_text display.now uri.now parameters.now) }
{
    push_display(out, display)?;
    out.push(b'<')?;
    out.extend_from_slice(uri)?;
    out.push(b'>')?;
    out.extend_from_slice(parameters.as_text())
}

fn push_display(out: &mut Vec<u8>, display: &[u8]) -> Result<(), AllocError>
    ensures { OnOk result (out.new.items ≡ out.old.items ++ written.display_part display.now) }
{
    match display {
        [] => Ok(()),
        [_, ..] => {
            out.extend_from_slice(display)?;
            out.extend_from_slice(b" ")
        }
    }
}

#[tactic(auto, unfolding(crate::specs::Written::header_line, crate::specs::Written::cseq_text))]
fn push_cseq_line(out: &mut Vec<u8>, cseq: &CSeq) -> Result<(), AllocError>
    ensures { OnOk result (out.new.items ≡ out.old.items
        ++ written.header_line (codes "CSeq") (written.cseq_text cseq.now)) }
{
    out.extend_from_slice(b"CSeq: ")?;
    push_number(out, u64::from(cseq.number))?;
    out.push(b' ')?;
    out.extend_from_slice(cseq.method.as_slice())?;
    out.extend_from_slice(b"\r\n")
}

#[tactic(auto, unfolding(crate::specs::Written::routes_text))]
fn push_routes(out: &mut Vec<u8>, message: &Message) -> Result<(), AllocError>
    ensures { OnOk result (out.new.items ≡ out.old.items ++ written.routes_text message.now) }
{
    push_contacts(out, message.contacts.as_slice())?;
    push_addresses(out, b"Record-Route", message.record_routes.as_slice())?;
    push_addresses(out, b"Route", message.routes.as_slice())
}

fn push_contacts(out: &mut Vec<u8>, contacts: &[NameAddr]) -> Result<(), AllocError>
    ensures { OnOk result (out.new.items ≡ out.old.items
        ++ flat_map written.contact_line contacts.now) }
{
    for contact in contacts {
        push_contact_line(out, contact)?;
    }
    Ok(())
}

#[tactic(auto, unfolding(crate::specs::Written::header_line, crate::specs::Written::contact_text))]
fn push_contact_line(out: &mut Vec<u8>, contact: &NameAddr) -> Result<(), AllocError>
    ensures { OnOk result (out.new.items ≡ out.old.items ++ written.contact_line contact.now) }
{
    if contact.is_wildcard() {
        push_header(out, b"Contact", b"*")
    } else {
        push_address_line(out, b"Contact", contact)
    }
}

fn push_addresses(out: &mut Vec<u8>, name: &[u8], addresses: &[NameAddr]) -> Result<(), AllocError>
    ensures { OnOk result (out.new.items ≡ out.old.items
        ++ flat_map (written.address_line name.now) addresses.now) }
{
    for address in addresses {
        push_address_line(out, name, address)?;
    }
    Ok(())
}

#[tactic(auto, unfolding(crate::specs::Written::header_line))]
fn push_address_line(out: &mut Vec<u8>, name: &[u8], address: &NameAddr) -> Result<(), AllocError>
    ensures { OnOk result (out.new.items ≡ out.old.items
        ++ written.address_line name.now address.now) }
{
    out.extend_from_slice(name)?;
    out.extend_from_slice(b": ")?;
    let parameters = &address.parameters;
    push_address(
        out,
        address.display.as_slice(),
        address.uri.as_slice(),
        parameters,
    )?;
    out.extend_from_slice(b"\r\n")
}

#[tactic(auto, unfolding(crate::specs::Written::extensions_text))]
fn push_extensions(out: &mut Vec<u8>, message: &Message) -> Result<(), AllocError>
    ensures { OnOk result (out.new.items ≡ out.old.items ++ written.extensions_text message.now) }
{
    push_tokens_line(out, b"Require", message.require.as_slice())?;
    push_tokens_line(out, b"Supported", message.supported.as_slice())?;
    push_number_line(out, b"RSeq", message.rseq)?;
    push_rack_line(out, &message.rack)
}

#[tactic(auto, unfolding(crate::specs::Written::header_line))]
fn push_tokens_line(out: &mut Vec<u8>, name: &[u8], tokens: &[Token]) -> Result<(), AllocError>
    ensures { OnOk result (out.new.items ≡ out.old.items
        ++ written.tokens_line name.now tokens.now) }
{
    match tokens {
        [] => Ok(()),
        [first, others @ ..] => {
            out.extend_from_slice(name)?;
            out.extend_from_slice(b": ")?;
            push_joined(out, first, others)?;
            out.extend_from_slice(b"\r\n")
        }
    }
}

fn push_joined(out: &mut Vec<u8>, first: &Token, others: &[Token]) -> Result<(), AllocError>
    ensures { OnOk result (out.new.items ≡ out.old.items ++ written.joined first.now others.now) }
{
    out.extend_from_slice(first.as_slice())?;
    for token in others {
        out.extend_from_slice(b", ")?;
        out.extend_from_slice(token.as_slice())?;
    }
    Ok(())
}

fn push_rack_line(out: &mut Vec<u8>, rack: &Option<RAck>) -> Result<(), AllocError>
    ensures { OnOk result (out.new.items ≡ out.old.items ++ written.rack_line rack.now) }
{
    match rack {
        None => Ok(()),
        Some(rack) => push_rack(out, rack),
    }
}

#[tactic(auto, unfolding(crate::specs::Written::header_line, crate::specs::Written::rack_text))]
fn push_rack(out: &mut Vec<u8>, rack: &RAck) -> Result<(), AllocError>
    ensures { OnOk result (out.new.items ≡ out.old.items
        ++ written.header_line (codes "RAck") (written.rack_text rack.now)) }
{
    out.extend_from_slice(b"RAck: ")?;
    push_number(out, u64::from(rack.rseq))?;
    out.push(b' ')?;
    push_number(out, u64::from(rack.cseq))?;
    out.push(b' ')?;
    out.extend_from_slice(rack.method.as_slice())?;
    out.extend_from_slice(b"\r\n")
}

#[tactic(auto, unfolding(crate::specs::Written::content_text))]
fn push_content(out: &mut Vec<u8>, message: &Message) -> Result<(), AllocError>
    ensures { OnOk result (out.new.items ≡ out.old.items ++ written.content_text message.now) }
{
    push_others(out, message.others.as_slice())?;
    push_header(out, b"Content-Length", &decimal(message.body.len() as u64))?;
    out.extend_from_slice(b"\r\n")?;
    out.extend_from_slice(message.body.as_slice())
}

fn push_others(out: &mut Vec<u8>, others: &[Header]) -> Result<(), AllocError>
    ensures { OnOk result (out.new.items ≡ out.old.items
        ++ flat_map written.other_line others.now) }
{
    for header in others {
        push_header(out, header.name.as_slice(), header.value.as_slice())?;
    }
    Ok(())
}
