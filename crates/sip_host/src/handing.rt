//! How an output is handed to a host: its text goes into a buffer. A send may fail.

ghost use Rattle.std.specs.Prelude.{◌≡◌, ◌++◌, Err, IfOk, IfSome, IsSomeAnd, None, OnErr, OnOk, Some};
ghost use Rattle.std.specs.Option.{option_to_list};
ghost use Rattle.sip_files.specs.Written.{FitsSession};
ghost use Rattle.sip_host.specs.Handing as handing;
ghost use Rattle.sip_host.specs.declared.host_fault.HostFault.TheVariants as fault;

use crate::host_fault::HostFault;
use crate::line_length::LineLength;
use crate::next_output::NextOutput;
use crate::start_length::StartLength;
use sip_files::write_output;
use sip_message::Token;
use sip_reader::{FirstLine, HeaderLine};
use sip_round::{Event, Output, PlacedOutput};
use std::alloc::{AllocError, Global};

/// What the output with this index is. Its text goes to the beginning of the buffer, if it fits.
pub(crate) fn put_output(
    alloc: Global,
    index: usize,
    placed: &PlacedOutput,
    buffer: &mut [u8],
) -> Result<NextOutput, AllocError>
    ensures head { IfOk result (λ head. head ≡ handing.head_of index placed.now) }
    ensures put { OnOk result (buffer.new ≡ handing.put_in (handing.text_of placed.now.output)
        buffer.old) }
    ensures same { OnErr result (buffer.new ≡ buffer.old) }
{
    let place = placed.place;
    match &placed.output {
        Output::Send { to, bytes, .. } => {
            put(bytes.as_slice(), buffer);
            Ok(NextOutput {
                index,
                place,
                to: Some(*to),
                len: bytes.len(),
            })
        }
        Output::Dropped { .. } | Output::Notice(_) => {
            let line = write_output(alloc, &placed.output)?;
            put(line.as_slice(), buffer);
            Ok(NextOutput {
                index,
                place,
                to: None,
                len: line.len(),
            })
        }
    }
}

/// What the agent is told of a send that failed: nothing if the send belongs to no transaction.
///
/// # Errors
///
/// `NoSend` if the output isn't a send, or `NoMemory`.
pub(crate) fn failure_of(output: &Output) -> Result<Option<Event>, HostFault>
    ensures no_send { handing.sent_key (Some output.now) ≡ None → result ≡ Err fault.NoSend }
    ensures told { IfOk result (λ told. IsSomeAnd (handing.sent_key (Some output.now))
        (λ key. option_to_list told ≡ handing.told_failure key)) }
    ensures fault { IfSome (handing.sent_key (Some output.now))
        (λ key. OnErr result (result ≡ Err fault.NoMemory)) }
    ensures fits { IfOk result (λ told. IfSome told FitsSession) }
{
    match output {
        Output::Send { key: Some(key), .. } => Ok(Some(Event::Failed(key.clone()?))),
        Output::Send { key: None, .. } => Ok(None),
        Output::Dropped { .. } | Output::Notice(_) => Err(HostFault::NoSend),
    }
}

/// Puts the text at the beginning of the buffer, if it fits.
pub fn put(text: &[u8], buffer: &mut [u8])
    ensures { buffer.new ≡ handing.put_in text.now buffer.old }
{
    if buffer.len() < text.len() {
        return;
    }
    let (front, _) = buffer.split_at_mut(text.len());
    front.copy_from_slice(text);
}

// Puts two texts, one directly after the other, at the beginning of the buffer, if both fit.
#[tactic(auto, using(crate::proofs::PutTexts::pair_too_long, crate::proofs::PutTexts::put_after))]
fn put_pair(first: &[u8], second: &[u8], buffer: &mut [u8])
    ensures { buffer.new ≡ handing.put_in (first.now ++ second.now) buffer.old }
{
    if buffer.len() < first.len() {
        return;
    }
    if buffer.len() - first.len() < second.len() {
        return;
    }
    let (front, rest) = buffer.split_at_mut(first.len());
    front.copy_from_slice(first);
    put(second, rest);
}

/// Puts the name and the value of a header line at the beginning of the buffer, if both fit. Gives
/// how long each is.
pub(crate) fn put_line(line: &HeaderLine, buffer: &mut [u8]) -> LineLength
    ensures lengths { result ≡ handing.length_of_line line.now }
    ensures put { buffer.new ≡ handing.put_in (handing.line_text line.now) buffer.old }
{
    let (name, value) = (line.name.as_slice(), line.value.as_slice());
    put_pair(name, value, buffer);
    LineLength {
        name: name.len(),
        value: value.len(),
    }
}

/// Puts the texts of a start line at the beginning of the buffer, if all of them fit. Gives how
/// long each is.
pub(crate) fn put_start(first: &FirstLine<Token>, buffer: &mut [u8]) -> StartLength
    ensures lengths { result ≡ handing.start_of first.now }
    ensures put { buffer.new ≡ handing.put_in (handing.start_text first.now) buffer.old }
{
    match first {
        FirstLine::Request { method, uri } => {
            put_pair(method.as_slice(), uri.as_slice(), buffer);
            StartLength::Request {
                method: method.as_slice().len(),
                uri: uri.as_slice().len(),
            }
        }
        FirstLine::Response { status, reason } => {
            put(reason.as_slice(), buffer);
            StartLength::Response {
                status: status.code(),
                reason: reason.as_slice().len(),
            }
        }
    }
}
