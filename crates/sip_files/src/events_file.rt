//! Event files and session files: the configuration and the rounds of a run.
//!
//! Lines end in LF. After `sip-events 1` or `sip-events 2` comes `local ADDR`, then optionally
//! `seed` and optionally `first N`, in this order, and then the rounds: `round MOMENT`, each
//! followed by the lines of its events. The same comes after `sip-session 1`; there, header lines
//! may stand before the line of a command. They are the headers of its content.

ghost use Rattle.std.specs.Prelude.{◌≡◌, ℕ, List, ◌≤◌, ◌^◌, IfErr, IfOk, MatchResult, length};
ghost use Rattle.sip_round.specs.declared.config.Config as config;
ghost use Rattle.sip_round.specs.declared.round.Round as round;
ghost use Rattle.sip_files.specs.EventFile as spelling;
ghost use Rattle.sip_files.specs.Steps.Lines as lines;

use crate::draft::Draft;
use crate::event_line::read_line;
use crate::events_fault::EventsFault;
use crate::progress::{Progress, with_next};
use crate::version::{FileKind, Version, version_in};
use sip_round::{Config, Round};
use sip_text::{Series, cut};
use std::alloc::Global;

/// The maximum length of an event file or a session file, in bytes.
pub const MAX_EVENTS: usize = 1 << 26;

/// The configuration and the rounds that an event file spells.
///
/// # Errors
///
/// The first fault that fits; `NoMemory` may come in place of any answer.
pub fn read_events(alloc: Global, text: &[u8]) -> Result<(Config, Series<Round>), EventsFault>
    ensures found { IfOk result (λ read. spelling.SpellsEvents read.0 read.1 text.now) }
    ensures size { IfOk result (λ read. length text.now ≤ 2 ^ 26) }
    ensures only { (config : config.Config) (rounds : List round.Round)
        → spelling.SpellsEvents config rounds text.now → length text.now ≤ 2 ^ 26
        → spelling.IsReadAs config rounds result }
    ensures fault { IfErr result (λ fault. spelling.TellsFileFault fault text.now) }
{
    read_file(alloc, FileKind::Events, text)
}

/// The configuration and the rounds that a file of this kind spells.
///
/// # Errors
///
/// The first fault that fits; `NoMemory` may come in place of any answer.
pub fn read_file(
    alloc: Global,
    kind: FileKind,
    text: &[u8],
) -> Result<(Config, Series<Round>), EventsFault>
    ensures found { IfOk result (λ read. spelling.SpellsFile kind read.0 read.1 text.now) }
    ensures size { IfOk result (λ read. length text.now ≤ 2 ^ 26) }
    ensures only { (config : config.Config) (rounds : List round.Round)
        → spelling.SpellsFile kind config rounds text.now → length text.now ≤ 2 ^ 26
        → spelling.IsReadAs config rounds result }
    ensures fault { IfErr result (λ fault. spelling.TellsFault kind fault text.now) }
{
    if text.len() > MAX_EVENTS {
        return Err(EventsFault::TooLong);
    }
    let (version, after) = after_version(kind, text)?;
    let draft = read_lines(alloc, version, after)?;
    Ok((draft.config, draft.rounds))
}

// The version, and what follows its line.
fn after_version(kind: FileKind, text: &[u8]) -> Result<(Version, &[u8]), EventsFault>
    ensures { MatchResult result (λ read. lines.FollowsLine kind read.0 text.now read.1.now)
        (λ fault. lines.TellsVersion kind fault text.now) }
{
    let Some((line, after)) = cut(b'\n', text) else {
        return Err(match version_in(kind, text) {
            Some(_) => EventsFault::BadLine(1),
            None => EventsFault::BadVersion,
        });
    };
    match version_in(kind, line) {
        Some(version) => Ok((version, after)),
        None => Err(EventsFault::BadVersion),
    }
}

// What the lines after the first one say.
fn read_lines(alloc: Global, version: Version, text: &[u8]) -> Result<Draft, EventsFault>
    requires { length text.now ≤ 2 ^ 26 }
    ensures { MatchResult result (λ draft. lines.Drafts version draft text.now)
        (λ fault. lines.TellsLine version fault text.now) }
{
    let mut progress = Progress::new(alloc);
    let mut left = text;
    let mut number = 2u64;
    while !left.is_empty() {
        let Some((line, after)) = cut(b'\n', left) else {
            return Err(EventsFault::BadLine(number));
        };
        let Some(line) = read_line(alloc, version, line)? else {
            return Err(EventsFault::BadLine(number));
        };
        let Some(next) = with_next(alloc, progress, line)? else {
            return Err(EventsFault::BadLine(number));
        };
        progress = next;
        left = after;
        number += 1;
    }
    if !progress.is_whole() {
        return Err(EventsFault::BadLine(number));
    }
    Ok(progress.draft)
}
