//! Reads an event file or a session file, and writes its ladder.

ghost use Rattle.std.specs.Prelude.{◌≡◌, ◌≢◌, Err, IfErr, IfOk, IfSome, IsTrue, OnOk};
ghost use Rattle.sip_files.specs.Counted.{Counts};
ghost use Rattle.sip_files.specs.Replay.{TellsReplay, input_failures, output_failures};
ghost use Rattle.sip_files.specs.declared.file_replay.ReplayFault.TheVariants as replay_fault;
ghost use Rattle.sip_ladder.specs.Drawing.{DrawsAll, DrawsFile, DrawsFront};

use crate::picture::draw;
use sip_files::{
    CountedRead, CountedWrite, FileKind, ReplayFault, read_all, read_file, write_whole,
};
use sip_message::Spread;
use sip_round::{Gate, run};
use std::alloc::Global;
use std::thread::Threads;

/// Reads a file of this kind, runs its rounds as a replay does, and writes their ladder: a head
/// that names the agent and its peers, and a row of at most 100 characters for each event and each
/// output, in order. The row of a command has its line, without its headers.
///
/// # Errors
///
/// As for a replay. With every fault but `Output` nothing was written; with `Output` the front of
/// the ladder may have been.
pub fn ladder<T: Threads + Sync, R: CountedRead, W: CountedWrite, G: Gate>(
    rt: &T,
    alloc: Global,
    kind: FileKind,
    reader: &mut R,
    writer: &mut W,
    gate: &G,
) -> Result<(), ReplayFault>
    ensures draws { OnOk result (IfSome (R.remaining reader.old)
        (DrawsAll kind (W.contents writer.old) (W.contents writer.new))) }
    ensures fault { IfErr result
        (λ fault. IfSome (R.remaining reader.old) (TellsReplay kind fault)) }
    ensures unwritten { IfErr result
        (λ fault. fault ≢ replay_fault.Output → writer.new ≡ writer.old) }
    ensures front { result ≡ Err replay_fault.Output
        → IfSome (R.remaining reader.old)
        (DrawsFront kind (W.contents writer.old) (W.contents writer.new)) }
    ensures input { Counts (R.failures reader.old) (R.failures reader.new) (input_failures result) }
    ensures output { Counts (W.failures writer.old) (W.failures writer.new)
        (output_failures result) }
    ensures flushed { OnOk result (IfSome (W.flushed writer.new) (λ all. IsTrue all)) }
{
    let text = read_all(alloc, reader)?;
    let picture = drawn(rt, alloc, kind, &text, gate)?;
    write_whole(writer, &picture)
}

// The ladder that belongs to a file of this kind.
fn drawn<T: Threads + Sync, G: Gate>(
    rt: &T,
    alloc: Global,
    kind: FileKind,
    text: &[u8],
    gate: &G,
) -> Result<Vec<u8>, ReplayFault>
    ensures draws { IfOk result (λ picture. DrawsFile kind text.now picture.items) }
    ensures fault { IfErr result (λ fault. TellsReplay kind fault text.now) }
    ensures read { IfErr result (λ fault. fault ≢ replay_fault.Input) }
    ensures unwritten { IfErr result (λ fault. fault ≢ replay_fault.Output) }
{
    let (config, events) = match read_file(alloc, kind, text) {
        Ok(read) => read,
        Err(fault) => return Err(ReplayFault::Events(fault)),
    };
    let rounds = events.as_slice();
    let answers = match run(rt, alloc, config, 1, 1, Spread, gate, rounds) {
        Ok(answers) => answers,
        Err((index, fault)) => return Err(ReplayFault::Round(index, fault)),
    };
    let picture = draw(alloc, config.local, rounds, &answers)?;
    Ok(picture)
}
