//! One line of an event file or of a session file.

ghost use Rattle.std.specs.Prelude.{◌≡◌, IfNone, IfOk, IfSome};
ghost use Rattle.sip_user.specs.declared.command.UserCommand as command;
ghost use Rattle.sip_files.specs.Events.{SpellsHeader};
ghost use Rattle.sip_files.specs.Steps.ReadLine as reading;
ghost use Rattle.sip_files.specs.Written as written;
ghost use Rattle.sip_files.specs.Written.{SpellsCommand, SpellsEventLine};
ghost use Rattle.sip_files.specs.declared.given_header.GivenHeader as header;
ghost use Rattle.sip_round.specs.declared.round.Event as event;

use crate::command_line::read_command;
use crate::failed_line::read_failed;
use crate::given_header::{GivenHeader, header_in};
use crate::numbers::{read_address, read_seed};
use crate::version::{FileKind, Version};
use crate::words::read_rest;
use sip_message::Addr;
use sip_round::Event;
use sip_text::{cut, number_up_to};
use sip_user::UserCommand;
use std::alloc::{AllocError, Global};

/// The highest number of a first round.
const MAX_FIRST: u64 = 1 << 62;

/// What a line of a file says. The line of the version isn't among them.
#[derive(Drop)]
pub enum EventLine {
    /// The address of the agent.
    Local(Addr),
    /// The key of the words in which made names end.
    Seed([u8; 32]),
    /// The number of the first round.
    First(u64),
    /// A round begins, at this moment.
    Round(u64),
    /// An event of the round. The content of a command has only its body.
    Event(Event),
    /// A header of the command that follows.
    Header(GivenHeader),
}

/// What a line says, if a file of this version may have it.
#[tactic(auto, unfolding(crate::specs::Steps::ReadLine::line_at))]
pub(crate) fn read_line(
    alloc: Global,
    version: Version,
    line: &[u8],
) -> Result<Option<EventLine>, AllocError>
    ensures { IfOk result (λ line_read. line_read ≡ reading.line_at version line.now) }
{
    let Some((keyword, fields)) = cut(b' ', line) else {
        return Ok(None);
    };
    if keyword.is_empty() {
        return Ok(header_in(alloc, version, fields)?.map(EventLine::Header));
    }
    read_keyword(alloc, version, keyword, fields)
}

/// The event that a line says, if it is the line of an event. The line stands without its end.
///
/// # Errors
///
/// Memory ran out.
pub fn read_event_line(alloc: Global, line: &[u8]) -> Result<Option<Event>, AllocError>
    ensures some { IfOk result (λ found. IfSome found (SpellsEventLine line.now)) }
    ensures none { IfOk result (λ found. IfNone found
        ((given : event.Event) → ¬ SpellsEventLine line.now given)) }
{
    match read_line(alloc, Version::Two, line)? {
        Some(said) => Ok(event_in(said)),
        None => Ok(None),
    }
}

/// The command that a line says, if it is the line of a command and a file of this kind may have
/// it. The line stands without its end.
///
/// # Errors
///
/// Memory ran out.
pub fn read_command_line(
    alloc: Global,
    kind: FileKind,
    line: &[u8],
) -> Result<Option<UserCommand>, AllocError>
    ensures some { IfOk result (λ found. IfSome found (SpellsCommand kind line.now)) }
    ensures none { IfOk result (λ found. IfNone found
        ((given : command.UserCommand) → ¬ SpellsCommand kind line.now given)) }
{
    match read_line(alloc, kind.written(), line)? {
        Some(said) => Ok(command_in(said)),
        None => Ok(None),
    }
}

/// The header that a line says, if it is a header line. The line stands without its end.
///
/// # Errors
///
/// Memory ran out.
pub fn read_header_line(alloc: Global, line: &[u8]) -> Result<Option<GivenHeader>, AllocError>
    ensures some { IfOk result (λ found. IfSome found (SpellsHeader line.now)) }
    ensures none { IfOk result (λ found. IfNone found
        ((given : header.GivenHeader) → ¬ SpellsHeader line.now given)) }
{
    match read_line(alloc, Version::SessionOne, line)? {
        Some(said) => Ok(header_of(said)),
        None => Ok(None),
    }
}

fn header_of(line: EventLine) -> Option<GivenHeader>
    ensures { result ≡ written.header_of_line line }
{
    match line {
        EventLine::Header(header) => Some(header),
        EventLine::Local(_)
        | EventLine::Seed(_)
        | EventLine::First(_)
        | EventLine::Round(_)
        | EventLine::Event(_) => None,
    }
}

fn event_in(line: EventLine) -> Option<Event>
    ensures { result ≡ written.event_of_line line }
{
    match line {
        EventLine::Event(event) => Some(event),
        EventLine::Local(_)
        | EventLine::Seed(_)
        | EventLine::First(_)
        | EventLine::Round(_)
        | EventLine::Header(_) => None,
    }
}

fn command_in(line: EventLine) -> Option<UserCommand>
    ensures { result ≡ written.user_command_of line }
{
    match line {
        EventLine::Event(Event::Command(command)) => Some(command),
        EventLine::Event(Event::Datagram { .. } | Event::Failed(_))
        | EventLine::Local(_)
        | EventLine::Seed(_)
        | EventLine::First(_)
        | EventLine::Round(_)
        | EventLine::Header(_) => None,
    }
}

#[tactic(auto, unfolding(crate::specs::Steps::ReadLine::keyword_line))]
fn read_keyword(
    alloc: Global,
    version: Version,
    keyword: &[u8],
    fields: &[u8],
) -> Result<Option<EventLine>, AllocError>
    ensures { IfOk result (λ line_read.
        line_read ≡ reading.keyword_line version keyword.now fields.now) }
{
    if keyword == b"local".as_slice() {
        return Ok(read_address(fields).map(EventLine::Local));
    }
    if keyword == b"seed".as_slice() {
        return Ok(read_seed(fields).map(EventLine::Seed));
    }
    if keyword == b"first".as_slice() {
        return Ok(number_up_to(fields, MAX_FIRST).map(EventLine::First));
    }
    if keyword == b"round".as_slice() {
        return Ok(number_up_to(fields, u64::MAX).map(EventLine::Round));
    }
    Ok(read_event(alloc, version, keyword, fields)?.map(EventLine::Event))
}

#[tactic(auto, unfolding(crate::specs::Steps::ReadLine::event_at))]
fn read_event(
    alloc: Global,
    version: Version,
    keyword: &[u8],
    fields: &[u8],
) -> Result<Option<Event>, AllocError>
    ensures { IfOk result (λ event. event ≡ reading.event_at version keyword.now fields.now) }
{
    if keyword == b"datagram".as_slice() {
        return read_datagram(alloc, fields);
    }
    if keyword == b"failed".as_slice() {
        return Ok(read_failed(alloc, fields)?.map(Event::Failed));
    }
    Ok(read_command(alloc, version, keyword, fields)?.map(Event::Command))
}

// `ADDR` and the datagram's bytes as a rest.
#[tactic(auto, unfolding(crate::specs::Steps::ReadLine::datagram_at))]
fn read_datagram(alloc: Global, fields: &[u8]) -> Result<Option<Event>, AllocError>
    ensures { IfOk result (λ event. event ≡ reading.datagram_at fields.now) }
{
    let Some((address, bytes)) = cut(b' ', fields) else {
        return Ok(None);
    };
    let Some(from) = read_address(address) else {
        return Ok(None);
    };
    let Some(bytes) = read_rest(alloc, bytes)? else {
        return Ok(None);
    };
    Ok(Some(Event::Datagram { from, bytes }))
}
