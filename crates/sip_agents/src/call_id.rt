//! The Call-ID of a datagram, found without reading the whole message.

ghost use Rattle.std.specs.Prelude.{◌≡◌, ◌<◌, ◌≤◌, [], drop, IfOk};
ghost use Rattle.std.specs.Option.{option_copied, option_map_or};
ghost use Rattle.sip_headers.specs.HeaderLine.{class_from};
ghost use Rattle.sip_reader.specs.Steps.ReadHead.{head_at};
ghost use Rattle.sip_agents.specs.Destination as spec;
ghost use Rattle.sip_agents.specs.Steps.HeaderScan as scan;

use sip_grammar::HeaderName;
use sip_headers::{LineClass, class_of, whole_line};
use sip_message::Cut;
use sip_text::next_line;
use std::alloc::{AllocError, Global};

/// The agent of what has no Call-ID.
const FIRST: usize = 0;

/// The agent of the first Call-ID in the head of a datagram; the first agent if it has none.
///
/// # Errors
///
/// Memory ran out. It takes some only where a line that may be the Call-ID is folded.
pub(crate) fn agent_of_datagram<A: Cut>(
    alloc: Global,
    cut: &A,
    agents: usize,
    bytes: &[u8],
) -> Result<usize, AllocError>
    requires some { 0 < agents }
    requires most { agents ≤ 16 }
    ensures { IfOk result (λ agent. agent ≡ option_map_or (spec.agent_of (A.shard_of cut.now) agents)
        (spec.call_id_in bytes.now) 0) }
{
    let Some(lines) = behind_first_line(bytes) else {
        return Ok(FIRST);
    };
    let mut rest = lines;
    while let Some((line, after)) = next_line(rest) {
        if line.is_empty() {
            return Ok(FIRST);
        }
        if may_have_call_id(line) {
            let (whole, _) = whole_line(alloc, line, after)?;
            if let Some(call_id) = call_id_of(whole.as_slice()) {
                return Ok(cut.shard(call_id, agents));
            }
        }
        rest = after;
    }
    Ok(FIRST)
}

/// The text after the first line that isn't empty, if there is one.
fn behind_first_line(text: &[u8]) -> Option<&[u8]>
    ensures { option_map_or scan.lines_behind (option_copied result) [] ≡ drop 1 (head_at text.now) }
{
    let mut rest = text;
    while let Some((line, after)) = next_line(rest) {
        if !line.is_empty() {
            return Some(after);
        }
        rest = after;
    }
    None
}

/// Whether the line begins as "Call-ID" or "i" does, in any case of the letters. A line that
/// doesn't has no Call-ID, whatever continues it.
fn may_have_call_id(line: &[u8]) -> bool
    ensures { result ≡ scan.may_have_call_id line.now }
{
    matches!(line, [b'I' | b'i', ..] | [b'C' | b'c', b'A' | b'a', ..])
}

/// The Call-ID of a header line without folds, if it has one.
fn call_id_of(line: &[u8]) -> Option<&[u8]>
    ensures { option_copied result ≡ scan.call_id_of (class_from line.now) }
{
    match class_of(line) {
        LineClass::Known(HeaderName::CallId, value) => Some(value),
        _ => None,
    }
}
