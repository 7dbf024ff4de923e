//! Writes what the user is told about the outputs of a round.

ghost use Rattle.std.specs.Prelude.{◌≡◌, ◌++◌, IfOk, List, OnOk, Some, ℕ};
ghost use Rattle.std.specs.List.{flat_map};
ghost use Rattle.std.specs.Option.{option_copied};
ghost use Rattle.std.specs.Io.KnownBytes.{Appends};
ghost use Rattle.sip_files.specs.Outputs.{output_line};
ghost use Rattle.sip_round.specs.declared.round.Event.TheVariants.{Datagram as ADatagram};
ghost use Rattle.sip_udp.specs.Telling.{AreHeadersOf, Tells, TellsAll, spelled_header, told_datagram, told_drop, told_line};

use crate::dropped::{dropped_line, is_keep_alive};
use crate::fault::UaFault;
use sip_files::{FileKind, write_header_line, write_output};
use sip_message::{Addr, Id};
use sip_reader::{HeaderLine, header_lines};
use sip_round::{Event, Output, PlacedOutput, datagram_at, event_at};
use sip_text::{Series, Text};
use sip_transactions::DropReason;
use std::alloc::{AllocError, Global};
use std::io::{self, Write};

/// What the user is told.
#[derive(Clone, Copy)]
pub(crate) struct Telling {
    /// In a session, a notice comes after the header lines of the datagram that it is about.
    pub(crate) kind: FileKind,
    /// The number of the round, if drops are told.
    pub(crate) drops: Option<u64>,
}

/// Writes the line of each notice as it stands in an output file. If drops are told, it writes a
/// line for each, except those of keep-alives. In a session, the header lines of the datagram that
/// a notice is about stand before the notice's line. What is told of an output is written at once,
/// and all is flushed at the end.
///
/// # Errors
///
/// `Output` or `NoMemory`.
pub(crate) fn write_notices<W: Write>(
    alloc: Global,
    writer: &mut W,
    telling: Telling,
    events: &[Event],
    outputs: &[PlacedOutput],
) -> Result<(), UaFault>
    ensures { OnOk result ((text : List ℕ)
        × TellsAll telling.kind telling.drops events.now outputs.now text
        × Appends (W.contents writer.old) (W.contents writer.new) text) }
{
    for placed in outputs {
        let text = told_text(alloc, telling, events, placed)?;
        write_text(writer, &text)?;
    }
    match writer.flush() {
        Ok(()) => Ok(()),
        Err(_) => Err(UaFault::Output),
    }
}

/// Writes a line with the id of each command among the events of the round with this number.
pub(crate) fn write_ids<W: Write>(
    alloc: Global,
    writer: &mut W,
    round: u64,
    events: &[Event],
) -> Result<(), UaFault> {
    let mut place = 0u32;
    for event in events {
        place = place.saturating_add(1);
        if let Event::Command(_) = event {
            let line = format!(in alloc; "asked {round}.{place}\n")?;
            write_text(writer, line.as_bytes())?;
        }
    }
    Ok(())
}

// What is told of an output: header lines, and its line.
fn told_text(
    alloc: Global,
    telling: Telling,
    events: &[Event],
    placed: &PlacedOutput,
) -> Result<Vec<u8>, AllocError>
    ensures { IfOk result (λ text.
        Tells telling.kind telling.drops events.now placed.now text.items) }
{
    let headers = headers_of(alloc, telling.kind, events, placed)?;
    let mut text = spelled(alloc, headers.as_slice())?;
    let line = line_of(alloc, telling.drops, events, &placed.output)?;
    text.extend_from_slice(&line)?;
    Ok(text)
}

// The header lines that stand before an output.
fn headers_of(
    alloc: Global,
    kind: FileKind,
    events: &[Event],
    placed: &PlacedOutput,
) -> Result<Series<HeaderLine>, AllocError>
    ensures { IfOk result
        (AreHeadersOf (told_datagram kind events.now placed.now.place placed.now.output)) }
{
    match datagram_of(kind, events, placed) {
        Some(bytes) => header_lines(alloc, bytes.as_slice()),
        None => Ok(Series::new(alloc)),
    }
}

// The datagram whose header lines stand before an output.
fn datagram_of<'a>(kind: FileKind, events: &'a [Event], placed: &PlacedOutput) -> Option<&'a Text>
    ensures { option_copied result
        ≡ told_datagram kind events.now placed.now.place placed.now.output }
{
    match (kind, &placed.output) {
        (FileKind::Session, Output::Notice(_)) => datagram_at(events, placed.place),
        _ => None,
    }
}

// Header lines as they stand in a session.
fn spelled(alloc: Global, headers: &[HeaderLine]) -> Result<Vec<u8>, AllocError>
    ensures { IfOk result (λ text. text.items ≡ flat_map spelled_header headers.now) }
{
    let mut text = Vec::new(alloc);
    for header in headers {
        let line = write_header_line(alloc, header.name.as_slice(), header.value.as_slice())?;
        text.extend_from_slice(&line)?;
    }
    Ok(text)
}

/// Writes all bytes, and flushes nothing.
///
/// # Errors
///
/// `Output`.
pub(crate) fn write_text<W: Write>(writer: &mut W, text: &[u8]) -> Result<(), UaFault>
    ensures { OnOk result (Appends (W.contents writer.old) (W.contents writer.new) text.now) }
{
    match writer.write_all(text) {
        Ok(()) => Ok(()),
        Err(_) => Err(UaFault::Output),
    }
}

// The line of an output; no text if it has none.
fn line_of(
    alloc: Global,
    drops: Option<u64>,
    events: &[Event],
    output: &Output,
) -> Result<Vec<u8>, AllocError>
    ensures { IfOk result (λ line. line.items ≡ told_line drops events.now output.now) }
{
    match output {
        Output::Send { .. } => Ok(Vec::new(alloc)),
        Output::Dropped { place, reason } => match drops {
            Some(round) => {
                let id = Id {
                    round,
                    place: *place,
                };
                match event_at(events, *place) {
                    Some(Event::Datagram { from, bytes }) => {
                        drop_line(alloc, id, *reason, *from, bytes.as_slice())
                    }
                    _ => write_output(alloc, output),
                }
            }
            None => Ok(Vec::new(alloc)),
        },
        Output::Notice(_) => write_output(alloc, output),
    }
}

// The line of a datagram that was dropped; no text for a keep-alive.
fn drop_line(
    alloc: Global,
    id: Id,
    reason: DropReason,
    from: Addr,
    bytes: &[u8],
) -> Result<Vec<u8>, AllocError>
    ensures { IfOk result (λ line. line.items
        ≡ told_drop (Some id.round) id.place reason (Some (ADatagram from bytes.now))) }
{
    if is_keep_alive(bytes) {
        return Ok(Vec::new(alloc));
    }
    dropped_line(alloc, id, reason, from, bytes)
}

/// Writes all bytes, and flushes.
///
/// # Errors
///
/// The writer's own error. A front of the bytes may have been written.
pub(crate) fn put<W: Write>(writer: &mut W, text: &[u8]) -> io::Result<()>
    ensures { OnOk result (Appends (W.contents writer.old) (W.contents writer.new) text.now) }
{
    writer.write_all(text)?;
    writer.flush()
}
