//! The lines of one event, as they stand in a session file.

ghost use Rattle.std.specs.Prelude.{◌≡◌, ◌≢◌, [], ◌∷◌, IfNone, IfOk, IfSome, None};
ghost use Rattle.sip_files.specs.EventLines as spec;
ghost use Rattle.sip_files.specs.EventLines.{SpellsLines, round_of};
ghost use Rattle.sip_files.specs.declared.events_fault.EventsFault.TheVariants as events_fault;
ghost use Rattle.sip_round.specs.declared.round.Event as event;

use crate::events_fault::EventsFault;
use crate::events_file::read_file;
use crate::version::FileKind;
use sip_round::{Event, Round};
use sip_text::Series;
use std::alloc::{AllocError, Global};

/// A text that may stand before the lines of an event in a session file.
const BEFORE: &[u8] = b"sip-session 1\nlocal 127.0.0.1:5060\nround 0\n";

/// The event that these lines say, if they are those of one event in a session file. These are its
/// line and, for a command, its header lines before that. The last line stands without its end.
///
/// # Errors
///
/// Memory ran out.
pub fn read_event_lines(alloc: Global, lines: &[u8]) -> Result<Option<Event>, AllocError>
    ensures some { IfOk result (λ found. IfSome found (SpellsLines lines.now)) }
    ensures none { IfOk result (λ found. IfNone found
        ((given : event.Event) → ¬ SpellsLines lines.now given)) }
{
    let text = session_with(alloc, lines)?;
    match read_file(alloc, FileKind::Session, &text) {
        Ok((_, rounds)) => Ok(only_event(rounds)),
        Err(fault) => unread(fault),
    }
}

// A session with one round, which has these lines.
#[tactic(auto, unfolding(crate::specs::EventLines::session_with))]
fn session_with(alloc: Global, lines: &[u8]) -> Result<Vec<u8>, AllocError>
    ensures { IfOk result (λ text. text.items ≡ spec.session_with lines.now) }
{
    let mut text = Vec::from_slice(alloc, BEFORE)?;
    text.extend_from_slice(lines)?;
    text.push(b'\n')?;
    Ok(text)
}

// A fault means that there is no event, unless memory ran out.
fn unread(fault: EventsFault) -> Result<Option<Event>, AllocError>
    ensures { IfOk result (λ found. (found ≡ None) × (fault ≢ events_fault.NoMemory)) }
{
    match fault {
        EventsFault::NoMemory => Err(AllocError),
        EventsFault::TooLong | EventsFault::BadVersion | EventsFault::BadLine(_) => Ok(None),
    }
}

// The event of the rounds, if it is the only one.
fn only_event(rounds: Series<Round>) -> Option<Event>
    ensures some { IfSome result (λ event. rounds ≡ round_of event ∷ []) }
    ensures none { IfNone result ((given : event.Event) → ¬ (rounds ≡ round_of given ∷ [])) }
{
    let mut rounds = rounds.into_vec();
    let Round { moment, events } = rounds.pop()?;
    let mut events = events.into_vec();
    let event = events.pop()?;
    if moment == 0 && rounds.is_empty() && events.is_empty() {
        Some(event)
    } else {
        None
    }
}
