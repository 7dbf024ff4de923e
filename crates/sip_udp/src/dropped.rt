//! What the user is told about a datagram that was dropped.

ghost use Rattle.std.specs.Prelude.{◌≡◌, IfOk, decimal, string_bytes, take};
ghost use Rattle.std.specs.List.{list_all};
ghost use Rattle.sip_udp.specs.KeepAlive as spec;
ghost use Rattle.sip_files.specs.Outputs.{reason_text};
ghost use Rattle.sip_files.specs.Written.{ended_text};
ghost use Rattle.sip_files.specs.declared.event_line.EventLine.TheVariants as event_line;
ghost use Rattle.sip_message.specs.Fault.{fault_text};
ghost use Rattle.sip_round.specs.declared.round.Event.TheVariants as event;
ghost use Rattle.sip_text.specs.Cut.{cut_at};
ghost use Rattle.sip_udp.specs.LineEnd.{before_cut, first_line};
ghost use Rattle.sip_udp.specs.Telling.{dropped_head, dropped_line, told_id};

use crate::line_end::without;
use sip_files::write_event;
use sip_message::{Addr, Id, ReadFault};
use sip_round::Event;
use sip_text::{Text, cut};
use sip_transactions::DropReason;
use std::alloc::{AllocError, Global};

/// Bytes 4 to 7 of a STUN message (RFC 5389, section 6).
const MAGIC_COOKIE: [u8; 4] = [0x21, 0x12, 0xa4, 0x42];

/// How many bytes of a datagram's first line are shown at most.
const MOST_SHOWN: usize = 200;

/// Whether a datagram only keeps a NAT binding alive: if it has only CR, LF and NUL bytes, or is a
/// STUN message.
pub(crate) fn is_keep_alive(bytes: &[u8]) -> bool
    ensures { result ≡ spec.is_keep_alive bytes.now }
{
    is_blank(bytes) || is_stun(bytes)
}

fn is_blank(bytes: &[u8]) -> bool
    ensures { result ≡ list_all spec.is_blank_byte bytes.now }
{
    bytes.iter().all(|byte| is_blank_byte(*byte))
}

fn is_blank_byte(byte: u8) -> bool
    ensures { result ≡ spec.is_blank_byte byte }
{
    byte == b'\r' || byte == b'\n' || byte == 0
}

fn is_stun(bytes: &[u8]) -> bool
    ensures { result ≡ spec.is_stun bytes.now }
{
    bytes.len() >= 8 && bytes[0] < 2 && &bytes[4..8] == MAGIC_COOKIE.as_slice()
}

/// The line of a drop: its id, its reason, and the datagram's event, with at most 200 bytes of its
/// first line.
pub(crate) fn dropped_line(
    alloc: Global,
    id: Id,
    reason: DropReason,
    from: Addr,
    bytes: &[u8],
) -> Result<Vec<u8>, AllocError>
    ensures { IfOk result (λ text. text.items ≡ dropped_line id reason from bytes.now) }
{
    let mut line = head(alloc, id, reason)?;
    let arrival = arrival_line(alloc, from, bytes)?;
    line.extend_from_slice(&arrival)?;
    Ok(line)
}

// The line of the datagram's event, with only its first line.
fn arrival_line(alloc: Global, from: Addr, bytes: &[u8]) -> Result<Vec<u8>, AllocError>
    ensures { IfOk result (λ text. text.items
        ≡ ended_text (event_line.Event (event.Datagram from (first_line bytes.now)))) }
{
    let bytes = first_line(alloc, bytes)?;
    write_event(alloc, &Event::Datagram { from, bytes })
}

// The line up to its datagram.
fn head(alloc: Global, id: Id, reason: DropReason) -> Result<Vec<u8>, AllocError>
    ensures { IfOk result (λ text. text.items ≡ dropped_head id reason) }
{
    let id = told_id(alloc, id)?;
    let reason = reason_field(alloc, reason)?;
    let mut text = Vec::from_slice(alloc, b"drop ")?;
    text.extend_from_slice(&id)?;
    text.extend_from_slice(&reason)?;
    text.extend_from_slice(b" ")?;
    Ok(text)
}

fn told_id(alloc: Global, id: Id) -> Result<Vec<u8>, AllocError>
    ensures { IfOk result (λ text. text.items ≡ told_id id) }
{
    let round = number(alloc, id.round)?;
    let place = number(alloc, u64::from(id.place))?;
    let mut text = round.into_bytes();
    text.extend_from_slice(b".")?;
    text.extend_from_slice(place.as_bytes())?;
    Ok(text)
}

fn number(alloc: Global, number: u64) -> Result<String, AllocError>
    ensures { IfOk result (λ text. string_bytes text ≡ decimal number) }
{
    format!(in alloc; "{number}")
}

#[tactic(auto, unfolding(sip_files::specs::Field::plain_field))]
fn reason_field(alloc: Global, reason: DropReason) -> Result<Vec<u8>, AllocError>
    ensures { IfOk result (λ text. text.items ≡ reason_text reason) }
{
    match reason {
        DropReason::NotOurs => Vec::from_slice(alloc, b" NotOurs"),
        DropReason::NoTransaction => Vec::from_slice(alloc, b" NoTransaction"),
        DropReason::Unreadable(fault) => {
            let name = fault_name(alloc, fault)?;
            let mut field = Vec::from_slice(alloc, b" ")?;
            field.extend_from_slice(name.as_bytes())?;
            Ok(field)
        }
    }
}

fn fault_name(alloc: Global, fault: ReadFault) -> Result<String, AllocError>
    ensures { IfOk result (λ text. string_bytes text ≡ fault_text fault) }
{
    format!(in alloc; "{fault}")
}

// The first line of a text, without its end, as far as it is shown.
fn first_line(alloc: Global, text: &[u8]) -> Result<Text, AllocError>
    ensures { IfOk result (λ line. line ≡ first_line text.now) }
{
    Text::copy_of(alloc, front(without(b'\r', before_end(text))))
}

// What is shown of a line.
#[tactic(auto, using(std::proofs::lemmas::List::take_min))]
fn front(line: &[u8]) -> &[u8]
    ensures { result.now ≡ take 200 line.now }
{
    &line[..MOST_SHOWN.min(line.len())]
}

// The text before the first LF, or all of the text.
fn before_end(text: &[u8]) -> &[u8]
    ensures { result.now ≡ before_cut text.now (cut_at 10 text.now) }
{
    match cut(b'\n', text) {
        Some((line, _)) => line,
        None => text,
    }
}
