//! The agent that a file leaves.

ghost use Rattle.std.specs.Prelude.{◌≡◌, ◌≢◌, ◌<◌, ◌≤◌, IfErr, IfOk, IfSome};
ghost use Rattle.sip_files.specs.Counted.{Counts};
ghost use Rattle.sip_round.specs.AgentState.{shard_count};
ghost use Rattle.sip_stream.specs.Streams.{StandsForFile, TellsStream, input_failures};
ghost use Rattle.sip_stream.specs.declared.stream_fault.StreamFault.TheVariants as stream_fault;

use crate::stream_fault::StreamFault;
use crate::streamed_replay::stream;
use sip_files::{CountedRead, FileKind};
use sip_message::Cut;
use sip_round::{Agent, OpenGate};
use std::alloc::Global;
use std::io;
use std::thread::Threads;

/// The agent that has run all rounds of a file of this kind, of any length, in `shards` shards, cut
/// by `cut`, on up to `workers` workers. What the rounds gave is thrown away. Each round is read
/// and run before the next one is read.
///
/// # Errors
///
/// As of `replay_streamed`, but for `Output`.
pub fn resumed_by<T: Threads + Sync, R: CountedRead, C: Cut + Drop>(
    rt: &T,
    alloc: Global,
    kind: FileKind,
    reader: &mut R,
    shards: usize,
    workers: usize,
    cut: C,
) -> Result<Agent<C>, StreamFault>
    requires some_shard { 0 < shards }
    requires most_shards { shards ≤ 256 }
    requires some_worker { 0 < workers }
    requires most_workers { workers ≤ 64 }
    ensures stands { IfOk result (λ agent. IfSome (R.remaining reader.old)
        (StandsForFile C.shard_of kind agent)) }
    ensures count { IfOk result (λ agent. shard_count agent ≡ shards) }
    ensures fault { IfErr result
        (λ fault. IfSome (R.remaining reader.old) (TellsStream kind fault)) }
    ensures input { Counts (R.failures reader.old) (R.failures reader.new) (input_failures result) }
    ensures unwritten { IfErr result (λ fault. fault ≢ stream_fault.Output) }
{
    let mut nowhere = io::sink();
    let sink = &mut nowhere;
    match stream(
        rt, alloc, kind, reader, sink, shards, workers, cut, &OpenGate,
    ) {
        // A sink takes all.
        Err(StreamFault::Output) => Err(StreamFault::NoMemory),
        end => end,
    }
}
