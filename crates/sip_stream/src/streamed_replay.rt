//! Replays a file round by round.

ghost use Rattle.std.specs.Prelude.{◌≡◌, ◌<◌, ◌≤◌, IfErr, IfOk, IfSome, IsTrue, OnErr, OnOk};
ghost use Rattle.sip_files.specs.Counted.{Counts};
ghost use Rattle.sip_round.specs.AgentState.{shard_count};
ghost use Rattle.sip_stream.specs.Steps.{Ends};
ghost use Rattle.sip_stream.specs.Streams.{ComesOnly, StandsForFile, StreamsAll, StreamsFront, TellsStream, WritesBefore, input_failures, output_failures};

use crate::round_reader::RoundReader;
use crate::round_text::{head_like, read_head, read_round};
use crate::stream_fault::StreamFault;
use crate::streaming::{OUTPUTS_HEAD, Streaming};
use sip_files::{CountedRead, CountedWrite, FileKind, write_whole};
use sip_message::Cut;
use sip_round::{Agent, Gate};
use std::alloc::Global;
use std::thread::Threads;

/// Reads a file of this kind, of any length, round by round: each round is read, run in `shards`
/// shards, cut by `cut`, on up to `workers` workers, and its outputs are written, before the next
/// one is read. So it holds in memory what the agent holds, and one round. The head, and each round
/// behind a head, may have 2^26 bytes.
///
/// # Errors
///
/// The first fault that comes. `Input` at the first read that fails. `Output` at the first write
/// that fails or takes nothing, or at a flush that fails. Neither device is asked again. What was
/// written before is a front of the output file of the rounds that were read.
#[tactic(auto, using(crate::proofs::Only::only_known))]
pub fn replay_streamed<T: Threads + Sync, R: CountedRead, W: CountedWrite, C: Cut + Drop, G: Gate>(
    rt: &T,
    alloc: Global,
    kind: FileKind,
    reader: &mut R,
    writer: &mut W,
    shards: usize,
    workers: usize,
    cut: C,
    gate: &G,
) -> Result<(), StreamFault>
    requires some_shard { 0 < shards }
    requires most_shards { shards ≤ 256 }
    requires some_worker { 0 < workers }
    requires most_workers { workers ≤ 64 }
    ensures replays { OnOk result (IfSome (R.remaining reader.old)
        (StreamsAll kind (W.contents writer.old) (W.contents writer.new))) }
    ensures front { OnErr result (IfSome (R.remaining reader.old)
        (StreamsFront kind (W.contents writer.old) (W.contents writer.new))) }
    ensures written { IfErr result (λ fault. IfSome (R.remaining reader.old)
        (WritesBefore kind fault (W.contents writer.old) (W.contents writer.new))) }
    ensures fault { IfErr result
        (λ fault. IfSome (R.remaining reader.old) (TellsStream kind fault)) }
    ensures only { IfErr result
        (λ fault. IfSome (R.remaining reader.old) (ComesOnly kind fault)) }
    ensures input { Counts (R.failures reader.old) (R.failures reader.new) (input_failures result) }
    ensures output { Counts (W.failures writer.old) (W.failures writer.new)
        (output_failures result) }
    ensures flushed { OnOk result (IfSome (W.flushed writer.new) (λ all. IsTrue all)) }
{
    match stream(rt, alloc, kind, reader, writer, shards, workers, cut, gate) {
        Ok(_) => Ok(()),
        Err(fault) => Err(fault),
    }
}

/// The head, and then one round after the other. Gives the agent that ran them.
pub(crate) fn stream<T: Threads + Sync, R: CountedRead, W: CountedWrite, C: Cut + Drop, G: Gate>(
    rt: &T,
    alloc: Global,
    kind: FileKind,
    reader: &mut R,
    writer: &mut W,
    shards: usize,
    workers: usize,
    cut: C,
    gate: &G,
) -> Result<Agent<C>, StreamFault>
    requires some_shard { 0 < shards }
    requires most_shards { shards ≤ 256 }
    requires some_worker { 0 < workers }
    requires most_workers { workers ≤ 64 }
    ensures stands { IfOk result (λ agent. IfSome (R.remaining reader.old)
        (StandsForFile C.shard_of kind agent)) }
    ensures count { IfOk result (λ agent. shard_count agent ≡ shards) }
    ensures ends { Ends kind (R.remaining reader.old) (W.contents writer.old) (W.contents writer.new)
        (R.failures reader.old) (R.failures reader.new) (W.failures writer.old)
        (W.failures writer.new) (W.flushed writer.new) result }
{
    let mut input = RoundReader::new(alloc);
    let lines = input.next_lines(reader)?;
    let config = read_head(alloc, kind, &lines)?;
    let head = head_like(alloc, &lines)?;
    let mut streaming = Streaming::new(alloc, config, shards, workers, cut)?;
    let Ok(()) = write_whole(writer, OUTPUTS_HEAD) else {
        return Err(StreamFault::Output);
    };
    for _ in 0..u64::MAX {
        let lines = input.next_lines(reader)?;
        if lines.is_empty() {
            return Ok(streaming.into_agent());
        }
        let round = read_round(alloc, kind, &head, streaming.index(), &lines)?;
        streaming.run(rt, &round, writer, gate)?;
    }
    // An agent has fewer rounds.
    Err(StreamFault::NoMemory)
}
