//! The lines of a head, and those of one round, read behind a head.

ghost use Rattle.std.specs.Prelude.{◌≡◌, ◌≢◌, ◌≤◌, ◌^◌, ◌++◌, ◌∷◌, [], IfErr, IfNone, IfOk, IfSome, List, OnOk, length, ℕ};
ghost use Rattle.sip_files.specs.EventFile.{SpellsFile, TellsFault, version_line};
ghost use Rattle.sip_files.specs.Written.{head_in};
ghost use Rattle.sip_files.specs.declared.version.FileKind.{FileKind};
ghost use Rattle.sip_files.specs.declared.version.Version.{Version};
ghost use Rattle.sip_files.specs.Rounds.{some_config};
ghost use Rattle.sip_round.specs.declared.config.Config.{Config as AConfig};
ghost use Rattle.sip_stream.specs.Steps.{TellsHead, TellsRound};
ghost use Rattle.sip_stream.specs.Streams.{behind_head};

use crate::stream_fault::StreamFault;
use sip_files::{EventsFault, FileKind, LinesFault, read_file, write_file_head};
use sip_message::Addr;
use sip_round::{Config, Round};
use sip_text::{Series, cut};
use std::alloc::{AllocError, Global};

/// How many lines the head has.
const HEAD_LINES: u64 = 4;

/// A head of the version that the first line of a file names.
pub(crate) fn head_like(alloc: Global, file: &[u8]) -> Result<Vec<u8>, AllocError>
    ensures { IfOk result (λ head. (version : Version) (after : List ℕ)
        → file.now ≡ version_line version ++ 10 ∷ after
        → head.items ≡ head_in version some_config) }
{
    let written = write_file_head(alloc, FileKind::Events, &some_config())?;
    let Some((line, _)) = cut(b'\n', file) else {
        return Ok(written);
    };
    let Some((_, others)) = cut(b'\n', &written) else {
        return Ok(written);
    };
    let mut head = Vec::from_slice(alloc, line)?;
    head.push(b'\n')?;
    head.extend_from_slice(others)?;
    Ok(head)
}

/// The configuration that these lines say, if they are a head.
///
/// # Errors
///
/// `Head` with the first fault that fits, or `NoMemory`.
pub(crate) fn read_head(alloc: Global, kind: FileKind, lines: &[u8]) -> Result<Config, StreamFault>
    ensures found { IfOk result (λ config. SpellsFile kind config [] lines.now) }
    ensures size { OnOk result (length lines.now ≤ 2 ^ 26) }
    ensures fault { IfErr result (TellsHead kind lines.now) }
{
    match read_file(alloc, kind, lines) {
        Ok((config, rounds)) if rounds.is_empty() => Ok(config),
        // The lines before the first round have none.
        Ok(_) | Err(EventsFault::NoMemory) => Err(StreamFault::NoMemory),
        Err(fault) => Err(StreamFault::Head(fault)),
    }
}

/// The round with this index, if these lines are those of one round behind a head.
///
/// # Errors
///
/// `Lines` with the index and the first fault that fits, or `NoMemory`.
pub(crate) fn read_round(
    alloc: Global,
    kind: FileKind,
    head: &[u8],
    index: u64,
    lines: &[u8],
) -> Result<Round, StreamFault>
    ensures found { IfOk result (λ round. (config : AConfig)
        × SpellsFile kind config (round ∷ []) (head.now ++ lines.now)) }
    ensures size { OnOk result (length (head.now ++ lines.now) ≤ 2 ^ 26) }
    ensures fault { (version : Version) → head.now ≡ head_in version some_config
        → IfErr result (TellsRound kind version index lines.now) }
{
    let mut file = Vec::from_slice(alloc, head)?;
    file.extend_from_slice(lines)?;
    match read_file(alloc, kind, &file) {
        Ok((_, rounds)) => match only_round(rounds) {
            Some(round) => Ok(round),
            None => Err(StreamFault::Lines(index, LinesFault::NotOne)),
        },
        Err(fault) => Err(fault_of(index, fault)),
    }
}

// The same fault, with the lines numbered behind those of the head. Its version is one of the kind.
fn fault_of(index: u64, fault: EventsFault) -> StreamFault
    ensures { (kind : FileKind) (version : Version) (lines : List ℕ)
        → TellsFault kind fault (behind_head version lines)
        → TellsRound kind version index lines result }
{
    match fault {
        EventsFault::TooLong => StreamFault::Lines(index, LinesFault::TooLong),
        EventsFault::BadLine(line) => {
            let number = line.saturating_sub(HEAD_LINES);
            StreamFault::Lines(index, LinesFault::BadLine(number))
        }
        EventsFault::BadVersion | EventsFault::NoMemory => StreamFault::NoMemory,
    }
}

// The round, if it is the only one.
fn only_round(rounds: Series<Round>) -> Option<Round>
    ensures some { IfSome result (λ round. rounds ≡ round ∷ []) }
    ensures none { IfNone result (length rounds ≢ 1) }
{
    let mut rounds = rounds.into_vec();
    let round = rounds.pop()?;
    if rounds.is_empty() { Some(round) } else { None }
}

// The configuration of that head.
fn some_config() -> Config
    ensures { result ≡ some_config }
{
    Config {
        local: Addr {
            ip: [127, 0, 0, 1],
            port: 5060,
        },
        seed: [0; 32],
        first: 0,
    }
}
