//! Messages, read from their texts.
ghost use Rattle.std.specs.Prelude.{◌≡◌, IfOk, IfErr, length, nat_lt};
ghost use Rattle.sip_message.specs.declared.fault.ReadFault.TheVariants as fault;
ghost use Rattle.sip_message.specs.declared.message.Message.{Message};
ghost use Rattle.sip_headers.specs.Numbers.{numbers_in};
ghost use Rattle.sip_reader.specs.Faults.{TellsFault};
ghost use Rattle.sip_reader.specs.ReadMessage as reading;
ghost use Rattle.sip_reader.specs.Spells.{Spells, Answers};

use crate::leading_line_ends::without_line_ends;
use crate::start_reader::start_of;
use sip_header_values::ViaDraft;
use sip_headers::{Faultless, HeaderFields, Numbers, gather, whole_line, with_ports};
use sip_message::{Message, ReadFault, Vias};
use sip_text::{Series, Text, next_line};
use std::alloc::Global;

/// The largest number of bytes of a message.
pub const MAX_BYTES: usize = 65_535;

/// The message that the text spells.
///
/// # Errors
///
/// The first of the faults of `ReadFault` whose condition is true; NoMemory may be returned in its
/// place.
pub fn read(alloc: Global, text: &[u8]) -> Result<Message, ReadFault>
    // What is read is spelled by the text.
    ensures found { IfOk result (λ message. Spells message text.now) }
    // What the text spells is read, unless memory runs out.
    ensures only { (message : Message) → Spells message text.now → Answers result message }
    // A fault is the first whose condition is true.
    ensures fault { IfErr result (λ fault. TellsFault fault text.now) }
{
    read_text(alloc, text)
}

fn read_text(alloc: Global, text: &[u8]) -> Result<Message, ReadFault>
    ensures { reading.Gives result (reading.message_at text.now) }
{
    if is_too_long(text) {
        return Err(ReadFault::TooLong);
    }
    let Some((line, after)) = next_line(without_line_ends(text)) else {
        return Err(ReadFault::NoEmptyLine);
    };
    let (start_line, after) = whole_line(alloc, line, after)?;
    let Some((draft, rest)) = gather(alloc, after)? else {
        return Err(ReadFault::NoEmptyLine);
    };
    message_of(alloc, start_line.as_slice(), draft, rest)
}

fn is_too_long(text: &[u8]) -> bool
    ensures { result ≡ nat_lt 65535 (length text.now) }
{
    text.len() > MAX_BYTES
}

#[tactic(auto, unfolding(crate::specs::ReadMessage::message_of_lines, crate::specs::ReadMessage::message_of_draft,))]
fn message_of(
    alloc: Global,
    start_line: &[u8],
    draft: Box<HeaderFields>,
    rest: &[u8],
) -> Result<Message, ReadFault>
    ensures { reading.Gives result (reading.message_of_lines start_line.now draft.value rest.now) }
{
    let Some(start) = start_of(alloc, start_line)? else {
        return Err(ReadFault::BadStartLine);
    };
    let mut draft = Faultless::new(draft)?;
    let numbers = numbers_of(&draft)?;
    let vias = vias_of(alloc, draft.take_vias(alloc))?;
    let start = start.fitting(draft.method())?;
    let body = body_of(alloc, rest, numbers.content_length)?;
    Ok(draft.into_message(start, vias, numbers, body))
}

fn numbers_of(draft: &Faultless) -> Result<Numbers, ReadFault>
    ensures { result ≡ reading.or_fault fault.BadNumber (numbers_in draft.now) }
{
    match draft.numbers() {
        Some(numbers) => Ok(numbers),
        None => Err(ReadFault::BadNumber),
    }
}

/// The Via values with their ports; the branch of the first must begin with `z9hG4bK`.
#[tactic(auto, unfolding(crate::specs::ReadMessage::vias_of))]
fn vias_of(alloc: Global, drafts: Series<ViaDraft>) -> Result<Vias, ReadFault>
    ensures { reading.Gives result (reading.vias_of drafts) }
{
    let Some(vias) = with_ports(alloc, drafts)? else {
        return Err(ReadFault::BadNumber);
    };
    let Some(vias) = Vias::new(vias) else {
        return Err(ReadFault::OldBranch);
    };
    Ok(vias)
}

/// The body: as many bytes as the Content-Length says; without it all of them.
#[tactic(auto, unfolding(crate::specs::ReadMessage::body_of))]
fn body_of(alloc: Global, text: &[u8], length: Option<u32>) -> Result<Text, ReadFault>
    ensures { reading.Gives result
        (reading.or_fault fault.Truncated (reading.body_of text.now length)) }
{
    let Some(length) = length else {
        return Ok(Text::copy_of(alloc, text)?);
    };
    let length = length as usize;
    if text.len() < length {
        return Err(ReadFault::Truncated);
    }
    Ok(Text::copy_of(alloc, &text[..length])?)
}
