//! Replays: an event file or a session file in, its output file out.

ghost use Rattle.std.specs.Prelude.{◌≡◌, ◌≢◌, ◌<◌, ◌≤◌, ◌+◌, ◌^◌, ◌++◌, ℕ, List, map, IfOk, IfErr, IfSome, IsTrue, OnOk, OnErr, Err};
ghost use Rattle.std.specs.List.{zip};
ghost use Rattle.std.specs.Io.KnownBytes.{Appends};
ghost use Rattle.sip_files.specs.Counted.{Counts, CountsAtMost};
ghost use Rattle.sip_files.specs.EventFile.{IsFile};
ghost use Rattle.sip_files.specs.Outputs.{told};
ghost use Rattle.sip_files.specs.Replay.{Replays, TellsRead, TellsReplay, WritesAll, WritesFront, input_failures, output_failures};
ghost use Rattle.sip_files.specs.declared.events_fault.EventsFault.{EventsFault};
ghost use Rattle.sip_files.specs.declared.events_fault.EventsFault.TheVariants as events_fault;
ghost use Rattle.sip_files.specs.declared.file_replay.ReplayFault.TheVariants as replay_fault;
ghost use Rattle.sip_files.specs.declared.version.FileKind.{FileKind};

use crate::counted_read::CountedRead;
use crate::counted_write::CountedWrite;
use crate::events_fault::EventsFault;
use crate::events_file::{MAX_EVENTS, read_file};
use crate::outputs_file::write_outputs;
use crate::version::FileKind;
use sip_message::Cut;
use sip_round::{Gate, Output, Round, RoundFault, run};
use std::alloc::{AllocError, Global};
use std::error::Error;
use std::fmt;
use std::thread::Threads;

/// How many bytes one read asks for.
const CHUNK: usize = 4096;

/// Why a replay stopped.
#[derive(Clone, Copy, Debug, PartialEq, Eq)]
pub enum ReplayFault {
    /// A read failed.
    Input,
    /// What was read isn't a file of its kind.
    Events(EventsFault),
    /// The round with this index, from 0, was refused.
    Round(usize, RoundFault),
    /// A write failed. The beginning of the output file may have been written.
    Output,
    NoMemory,
}

impl From<AllocError> for ReplayFault {
    ghost from_gives = { λ _ fault. fault ≡ replay_fault.NoMemory };

    fn from(_error: AllocError) -> ReplayFault {
        ReplayFault::NoMemory
    }
}

impl fmt::Display for ReplayFault {
    fn fmt<W: fmt::Write>(&self, f: &mut fmt::Formatter<W>) -> fmt::Result {
        match self {
            ReplayFault::Input => write!(f, "input failed"),
            ReplayFault::Events(fault) => write!(f, "{fault}"),
            ReplayFault::Round(_, RoundFault::NoMemory { .. }) => write!(f, "no memory"),
            ReplayFault::Round(index, fault) => write!(f, "round {index}: {fault}"),
            ReplayFault::Output => write!(f, "output failed"),
            ReplayFault::NoMemory => write!(f, "no memory"),
        }
    }
}

impl Error for ReplayFault {}

/// Reads a file of this kind, runs its rounds in `shards` shards, cut by `cut`, on up to `workers`
/// workers, and writes the output file. It reads all before the first round runs, and runs all
/// rounds before it writes the first byte. It reads the reader at most 2^26 + 2 times.
///
/// # Errors
///
/// `Input` at the first read that fails. `Output` at the first write that fails or takes nothing,
/// or at a flush that fails. Neither device is asked again. With every fault but `Output` nothing
/// was written; with `Output` the front of the output file may have been.
pub fn replay<T: Threads + Sync, R: CountedRead, W: CountedWrite, C: Cut + Drop, G: Gate>(
    rt: &T,
    alloc: Global,
    kind: FileKind,
    reader: &mut R,
    writer: &mut W,
    shards: usize,
    workers: usize,
    cut: C,
    gate: &G,
) -> Result<(), ReplayFault>
    requires some_shard { 0 < shards }
    requires most_shards { shards ≤ 256 }
    requires some_worker { 0 < workers }
    requires most_workers { workers ≤ 64 }
    ensures replays { OnOk result (IfSome (R.remaining reader.old)
        (WritesAll kind (W.contents writer.old) (W.contents writer.new))) }
    ensures fault { IfErr result
        (λ fault. IfSome (R.remaining reader.old) (TellsReplay kind fault)) }
    ensures unwritten { IfErr result
        (λ fault. fault ≢ replay_fault.Output → writer.new ≡ writer.old) }
    ensures front { result ≡ Err replay_fault.Output
        → IfSome (R.remaining reader.old)
        (WritesFront kind (W.contents writer.old) (W.contents writer.new)) }
    ensures only { IfSome (R.remaining reader.old) (λ input. IsFile kind input
        → (fault : EventsFault) → result ≡ Err (replay_fault.Events fault)
        → fault ≡ events_fault.NoMemory) }
    ensures reads { CountsAtMost (R.reads reader.old) (R.reads reader.new) (2 ^ 26 + 2) }
    ensures input { Counts (R.failures reader.old) (R.failures reader.new) (input_failures result) }
    ensures output { Counts (W.failures writer.old) (W.failures writer.new)
        (output_failures result) }
    ensures flushed { OnOk result (IfSome (W.flushed writer.new) (λ all. IsTrue all)) }
{
    let text = read_all(alloc, reader)?;
    let file = replayed(rt, alloc, kind, text.as_slice(), shards, workers, cut, gate)?;
    write_whole(writer, file.as_slice())
}

/// All bytes of the reader, up to the limit of a file. Each read gives at least one byte, the end
/// or an error.
///
/// # Errors
///
/// A read failed, the text is too long, or memory ran out.
pub fn read_all<R: CountedRead>(alloc: Global, reader: &mut R) -> Result<Vec<u8>, ReplayFault>
    ensures all { IfOk result (λ text.
        IfSome (R.remaining reader.old) (λ input. text.items ≡ input)) }
    ensures fault { (kind : FileKind) → IfErr result
        (λ fault. IfSome (R.remaining reader.old) (TellsReplay kind fault)) }
    ensures cause { IfErr result (λ fault. IfSome (R.remaining reader.old) (TellsRead fault)) }
    ensures unwritten { IfErr result (λ fault. fault ≢ replay_fault.Output) }
    ensures reads { CountsAtMost (R.reads reader.old) (R.reads reader.new) (2 ^ 26 + 2) }
    ensures input { Counts (R.failures reader.old) (R.failures reader.new) (input_failures result) }
{
    let mut text = Vec::new(alloc);
    let mut chunk = [0u8; CHUNK];
    for _ in 0..MAX_EVENTS + 2 {
        match reader.read_once(&mut chunk) {
            Ok(0) => return Ok(text),
            Ok(count) => text.extend_from_slice(&chunk[..count])?,
            Err(_) => return Err(ReplayFault::Input),
        }
        if text.len() > MAX_EVENTS {
            break;
        }
    }
    Err(ReplayFault::Events(EventsFault::TooLong))
}

// The output file that belongs to a file of this kind.
fn replayed<T: Threads + Sync, C: Cut + Drop, G: Gate>(
    rt: &T,
    alloc: Global,
    kind: FileKind,
    text: &[u8],
    shards: usize,
    workers: usize,
    cut: C,
    gate: &G,
) -> Result<Vec<u8>, ReplayFault>
    requires some_shard { 0 < shards }
    requires most_shards { shards ≤ 256 }
    requires some_worker { 0 < workers }
    requires most_workers { workers ≤ 64 }
    ensures replays { IfOk result (λ file. Replays kind text.now file.items) }
    ensures fault { IfErr result (λ fault. TellsReplay kind fault text.now) }
    ensures read { IfErr result (λ fault. fault ≢ replay_fault.Input) }
    ensures unwritten { IfErr result (λ fault. fault ≢ replay_fault.Output) }
{
    let (config, events) = match read_file(alloc, kind, text) {
        Ok(read) => read,
        Err(fault) => return Err(ReplayFault::Events(fault)),
    };
    let rounds = events.as_slice();
    let answers = match run(rt, alloc, config, shards, workers, cut, gate, rounds) {
        Ok(answers) => answers,
        Err((index, fault)) => return Err(ReplayFault::Round(index, fault)),
    };
    let told = with_moments(alloc, rounds, answers)?;
    let file = write_outputs(alloc, told.as_slice())?;
    Ok(file)
}

// Each answer with the moment of its round.
fn with_moments(
    alloc: Global,
    rounds: &[Round],
    answers: Vec<Vec<Output>>,
) -> Result<Vec<(u64, Vec<Output>)>, AllocError>
    ensures { IfOk result (λ made. told made.items
        ≡ zip (map (λ round. round.moment) rounds.now)
        (map (λ outputs. outputs.items) answers.items)) }
{
    let mut made = Vec::with_capacity(alloc, rounds.len())?;
    let mut left = rounds;
    for outputs in answers {
        let [round, rest @ ..] = left else {
            return Ok(made);
        };
        made.push((round.moment, outputs))?;
        left = rest;
    }
    Ok(made)
}

/// Writes all bytes, and flushes. A write that doesn't take at least one byte counts as failed.
///
/// # Errors
///
/// `Output`; the front of the bytes may have been written.
pub fn write_whole<W: CountedWrite>(writer: &mut W, bytes: &[u8]) -> Result<(), ReplayFault>
    ensures all { OnOk result (Appends (W.contents writer.old) (W.contents writer.new) bytes.now) }
    ensures front { OnErr result ((front rest : List ℕ) × (bytes.now ≡ front ++ rest)
        × Appends (W.contents writer.old) (W.contents writer.new) front) }
    ensures fault { OnErr result (result ≡ Err replay_fault.Output) }
    ensures output { Counts (W.failures writer.old) (W.failures writer.new)
        (output_failures result) }
    ensures flushed { OnOk result (IfSome (W.flushed writer.new) (λ all. IsTrue all)) }
{
    let mut left = bytes;
    while !left.is_empty() {
        match writer.write_once(left) {
            Ok(0) | Err(_) => return Err(ReplayFault::Output),
            Ok(count) => left = &left[count..],
        }
    }
    match writer.flush_once() {
        Ok(()) => Ok(()),
        Err(_) => Err(ReplayFault::Output),
    }
}
