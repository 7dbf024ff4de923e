//! Whether two journals leave agents that answer all that follows alike.

ghost use Rattle.std.specs.Prelude.{◌≡◌, ◌≢◌, ◌<◌, ◌≤◌, ◌⊎◌, IfErr, IfNone, IfOk, IfSome};
ghost use Rattle.sip_files.specs.Counted.{Counts};
ghost use Rattle.sip_round.specs.AgentState.{shard_count};
ghost use Rattle.sip_stream.specs.Journals.{LeaveOthers};
ghost use Rattle.sip_files.specs.declared.version.FileKind.TheVariants.{Session};
ghost use Rattle.sip_stream.specs.Streams.{StandsForFile, TellsStream, failed_reads};
ghost use Rattle.sip_stream.specs.declared.stream_fault.StreamFault.TheVariants as stream_fault;

use crate::one_cut::OneCut;
use crate::resumed_agent::resumed_by;
use crate::stream_fault::StreamFault;
use sip_files::{CountedRead, FileKind};
use sip_round::Agent;
use std::alloc::Global;
use std::thread::Threads;

/// Runs the rounds of two journals, each in `shards` shards, cut by `cut`, on up to `workers`
/// workers. Gives the agent that ran the short journal if it holds the same as the one that ran the
/// long journal; none if it doesn't. An agent that is given answers every later round as after the
/// rounds of the long journal.
///
/// # Errors
///
/// As of `resumed_by`, for the long journal and then for the short one.
pub fn leaves_the_same<T: Threads + Sync, L: CountedRead, S: CountedRead, C: OneCut + Copy>(
    rt: &T,
    alloc: Global,
    long: &mut L,
    short: &mut S,
    shards: usize,
    workers: usize,
    cut: C,
) -> Result<Option<Agent<C>>, StreamFault>
    requires some_shard { 0 < shards }
    requires most_shards { shards ≤ 256 }
    requires some_worker { 0 < workers }
    requires most_workers { workers ≤ 64 }

    // The agent stands for the rounds of the long journal, though it ran those of the short one.
    // So by the clause of `Agent::run_round` each round that follows is answered as after the long
    // one.
    ensures long { IfOk result (λ given. IfSome given (λ agent. IfSome (L.remaining long.old)
        (StandsForFile C.shard_of Session agent))) }
    ensures short { IfOk result (λ given. IfSome given (λ agent. IfSome (S.remaining short.old)
        (StandsForFile C.shard_of Session agent))) }
    ensures count { IfOk result (λ given. IfSome given (λ agent. shard_count agent ≡ shards)) }

    // There is none only if the two leave something else. So it isn't always none.
    ensures none { IfOk result (λ given. IfNone given (IfSome (L.remaining long.old)
        (λ one. IfSome (S.remaining short.old) (LeaveOthers one)))) }
    ensures fault { IfErr result (λ fault.
        IfSome (L.remaining long.old) (TellsStream Session fault)
        ⊎ IfSome (S.remaining short.old) (TellsStream Session fault)) }

    // That a read failed is told only where a reader failed.
    ensures input { IfErr result (λ fault.
        Counts (L.failures long.old) (L.failures long.new) (failed_reads fault)
        ⊎ Counts (S.failures short.old) (S.failures short.new) (failed_reads fault)) }
    ensures unwritten { IfErr result (λ fault. fault ≢ stream_fault.Output) }
{
    let after_long = resumed_by(rt, alloc, FileKind::Session, long, shards, workers, cut)?;
    let after_short = resumed_by(rt, alloc, FileKind::Session, short, shards, workers, cut)?;
    if after_long.holds_the_same(&after_short) {
        Ok(Some(after_short))
    } else {
        Ok(None)
    }
}
