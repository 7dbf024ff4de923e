//! Compacts a journal, and checks what came of it.

ghost use Rattle.std.specs.Prelude.{◌≡◌, ◌≢◌, ◌<◌, ◌≤◌, ◌⊎◌, ℕ, IfErr, IfNone, IfOk, IfSome, List};
ghost use Rattle.sip_files.specs.Counted.{Counts};
ghost use Rattle.sip_files.specs.declared.version.FileKind.TheVariants.{Session};
ghost use Rattle.sip_round.specs.AgentState.{shard_count};
ghost use Rattle.sip_stream.specs.Journals.{LeaveOthers};
ghost use Rattle.sip_stream.specs.Shorter.{Shortens};
ghost use Rattle.sip_stream.specs.Streams.{StandsForFile};
ghost use Rattle.sip_stream.specs.declared.stream_fault.StreamFault.TheVariants as stream_fault;

use crate::compaction::write_shorter;
use crate::equivalence::leaves_the_same;
use crate::in_memory::InMemory;
use crate::one_cut::OneCut;
use crate::stream_fault::StreamFault;
use sip_files::CountedRead;
use sip_round::Agent;
use std::alloc::Global;
use std::thread::Threads;

/// A shorter journal, and the agent that it leaves.
#[derive(Drop)]
pub struct Compacted<C: OneCut> {
    /// The shorter journal.
    pub text: Vec<u8>,
    pub agent: Agent<C>,
}

/// Compacts a journal that three readers read from its beginning. None if the shorter journal
/// leaves another agent than the longer one: then the longer one is needed. What is held in memory
/// is the shorter journal, and twice what an agent holds.
///
/// # Errors
///
/// As of `write_shorter` and `leaves_the_same`, but for `Output`.
pub fn compact<T: Threads + Sync, K: CountedRead, L: CountedRead, M: CountedRead, C: OneCut + Copy>(
    rt: &T,
    alloc: Global,
    journal: &mut K,
    again: &mut L,
    once_more: &mut M,
    shards: usize,
    workers: usize,
    cut: C,
) -> Result<Option<Compacted<C>>, StreamFault>
    requires some_shard { 0 < shards }
    requires most_shards { shards ≤ 256 }
    requires some_worker { 0 < workers }
    requires most_workers { workers ≤ 64 }

    // The agent stands for the rounds of the journal, and for those of the shorter one.
    ensures long { IfOk result (λ given. IfSome given (λ compacted.
        IfSome (M.remaining once_more.old) (StandsForFile C.shard_of Session compacted.agent))) }
    ensures short { IfOk result (λ given. IfSome given (λ compacted.
        StandsForFile C.shard_of Session compacted.agent compacted.text.items)) }
    ensures count { IfOk result (λ given. IfSome given
        (λ compacted. shard_count compacted.agent ≡ shards)) }

    // The text is a shorter journal, and so is one that leaves something else, if there is none.
    ensures shortens { IfOk result (λ given. IfSome given (λ compacted.
        IfSome (L.remaining again.old) (λ long. Shortens long compacted.text.items))) }
    ensures none { IfOk result (λ given. IfNone given (IfSome (L.remaining again.old)
        (λ long. IfSome (M.remaining once_more.old) (λ journal. (short : List ℕ)
        × Shortens long short × LeaveOthers journal short)))) }

    // That a read failed is told only where one of the three failed.
    ensures input { IfErr result (λ fault. fault ≡ stream_fault.Input
        → Counts (K.failures journal.old) (K.failures journal.new) 1
        ⊎ Counts (L.failures again.old) (L.failures again.new) 1
        ⊎ Counts (M.failures once_more.old) (M.failures once_more.new) 1) }
    ensures unwritten { IfErr result (λ fault. fault ≢ stream_fault.Output) }
{
    let text = shorter_text(alloc, journal, again)?;
    let mut short = InMemory { left: &text };
    let agent = leaves_the_same(rt, alloc, once_more, &mut short, shards, workers, cut)?;
    match agent {
        Some(agent) => Ok(Some(Compacted { text, agent })),
        None => Ok(None),
    }
}

// The shorter journal.
fn shorter_text<K: CountedRead, L: CountedRead>(
    alloc: Global,
    journal: &mut K,
    again: &mut L,
) -> Result<Vec<u8>, StreamFault>
    ensures shortens { IfOk result (λ text. IfSome (L.remaining again.old)
        (λ long. Shortens long text.items)) }
    ensures input { IfErr result (λ fault. fault ≡ stream_fault.Input
        → Counts (K.failures journal.old) (K.failures journal.new) 1
        ⊎ Counts (L.failures again.old) (L.failures again.new) 1) }
    ensures unwritten { IfErr result (λ fault. fault ≢ stream_fault.Output) }
{
    let mut text = Vec::new(alloc);
    match write_shorter(alloc, journal, again, &mut text) {
        Ok(()) => Ok(text),
        // It has no room for more.
        Err(StreamFault::Output) => Err(StreamFault::NoMemory),
        Err(fault) => Err(fault),
    }
}
