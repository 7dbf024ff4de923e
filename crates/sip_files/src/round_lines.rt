//! The lines of one round, as they stand in a session file.

ghost use Rattle.std.specs.Prelude.{◌≡◌, ◌≢◌, ◌≤◌, ◌^◌, ◌∷◌, [], IfErr, IfNone, IfOk, IfSome, List, length, ℕ};
ghost use Rattle.sip_files.specs.EventFile.{TellsFault};
ghost use Rattle.sip_files.specs.declared.version.FileKind.TheVariants as file_kind;
ghost use Rattle.sip_files.specs.Rounds as spec;
ghost use Rattle.sip_files.specs.Rounds.{SpellsRound, TellsLinesFault};

use crate::events_fault::EventsFault;
use crate::events_file::read_file;
use crate::events_writer::write_file_head;
use crate::lines_fault::LinesFault;
use crate::version::FileKind;
use sip_message::Addr;
use sip_round::{Config, Round};
use sip_text::Series;
use std::alloc::{AllocError, Global};

/// How many lines the head of a session has.
const HEAD_LINES: u64 = 4;

/// The round that these lines say, if they are those of one round in a session file.
///
/// # Errors
///
/// The first fault that fits; `NoMemory` may come in place of any answer.
pub fn read_round(alloc: Global, lines: &[u8]) -> Result<Round, LinesFault>
    ensures found { IfOk result (SpellsRound lines.now) }
    ensures size { IfOk result (λ round. length (spec.session_with lines.now) ≤ 2 ^ 26) }
    ensures fault { IfErr result (TellsLinesFault lines.now) }
{
    let text = session_with(alloc, lines)?;
    match read_file(alloc, FileKind::Session, &text) {
        Ok((_, rounds)) => match only_round(rounds) {
            Some(round) => Ok(round),
            None => Err(LinesFault::NotOne),
        },
        Err(fault) => Err(fault_of(fault)),
    }
}

// A session whose rounds have these lines.
#[tactic(auto, unfolding(crate::specs::Rounds::session_with))]
fn session_with(alloc: Global, lines: &[u8]) -> Result<Vec<u8>, AllocError>
    ensures { IfOk result (λ text. text.items ≡ spec.session_with lines.now) }
{
    let mut text = write_file_head(alloc, FileKind::Session, &some_config())?;
    text.extend_from_slice(lines)?;
    Ok(text)
}

// The configuration in the head of that session.
fn some_config() -> Config
    ensures { result ≡ spec.some_config }
{
    Config {
        local: Addr {
            ip: [127, 0, 0, 1],
            port: 5060,
        },
        seed: [0; 32],
        first: 0,
    }
}

// The same fault, with the lines numbered behind those of the head.
fn fault_of(fault: EventsFault) -> LinesFault
    ensures { (lines : List ℕ) → TellsFault file_kind.Session fault (spec.session_with lines)
        → TellsLinesFault lines result }
{
    match fault {
        EventsFault::TooLong => LinesFault::TooLong,
        EventsFault::BadLine(number) => LinesFault::BadLine(number.saturating_sub(HEAD_LINES)),
        EventsFault::BadVersion | EventsFault::NoMemory => LinesFault::NoMemory,
    }
}

// The round, if it is the only one.
fn only_round(rounds: Series<Round>) -> Option<Round>
    ensures some { IfSome result (λ round. rounds ≡ round ∷ []) }
    ensures none { IfNone result (length rounds ≢ 1) }
{
    let mut rounds = rounds.into_vec();
    let round = rounds.pop()?;
    if rounds.is_empty() { Some(round) } else { None }
}
