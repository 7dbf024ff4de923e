//! An agent whose outputs are written round by round.

ghost use Rattle.std.specs.Prelude.{◌≡◌, ◌<◌, ◌≤◌, ◌-◌, [], IfErr, IfOk, IfSome, IsTrue, List, OnErr, OnOk};
ghost use Rattle.sip_files.specs.Counted.{Counts};
ghost use Rattle.sip_files.specs.Outputs.{round_outputs_text};
ghost use Rattle.sip_round.specs.AgentState.{shard_count};
ghost use Rattle.sip_round.specs.declared.config.Config.{Config as AConfig};
ghost use Rattle.sip_round.specs.declared.round.Round.{Round as ARound};
ghost use Rattle.sip_stream.specs.Steps as steps;
ghost use Rattle.sip_stream.specs.Steps.{GoesOn, Stands, Stops, TellsStep};
ghost use Rattle.sip_stream.specs.Streams.{output_failures};
ghost use Rattle.sip_stream.specs.declared.stream_fault.StreamFault.TheVariants as stream_fault;

use crate::stream_fault::StreamFault;
use sip_files::{CountedWrite, write_outputs, write_whole};
use sip_message::Cut;
use sip_round::{Agent, Config, Gate, Output, Round, RoundFault};
use std::alloc::{AllocError, Global};
use std::thread::Threads;

/// The first line of an output file.
pub(crate) const OUTPUTS_HEAD: &[u8] = b"sip-outputs 1\n";

/// An agent, and how it is led through rounds.
#[derive(Drop)]
pub(crate) struct Streaming<C: Cut> {
    alloc: Global,
    agent: Agent<C>,
    // The number of the first round.
    first: u64,
    workers: usize,
    ghost some_worker: { 0 < workers },
    ghost most_workers: { workers ≤ 64 },
}

impl<C: Cut + Drop> Streaming<C> {
    /// An agent before its first round.
    ///
    /// # Errors
    ///
    /// `NoMemory`.
    pub(crate) fn new(
        alloc: Global,
        config: Config,
        shards: usize,
        workers: usize,
        cut: C,
    ) -> Result<Streaming<C>, StreamFault>
        requires some_shard { 0 < shards }
        requires most_shards { shards ≤ 256 }
        requires some_worker { 0 < workers }
        requires most_workers { workers ≤ 64 }
        ensures stands { IfOk result (λ made. Stands C.shard_of made.agent config []) }
        ensures count { IfOk result (λ made. shard_count made.agent ≡ shards) }
        ensures first { IfOk result (λ made. made.first ≡ config.first) }
        ensures fault { IfErr result (λ fault. fault ≡ stream_fault.NoMemory) }
    {
        let Ok(agent) = Agent::new(alloc, config, shards, cut) else {
            return Err(StreamFault::NoMemory);
        };
        Ok(Streaming {
            alloc,
            agent,
            first: config.first,
            workers,
        })
    }

    /// The index of the next round, from 0.
    pub(crate) fn index(&self) -> u64
        ensures { result ≡ self.now.agent.next_round - self.now.first }
    {
        self.agent.next_round().saturating_sub(self.first)
    }

    /// The agent after the rounds that were run.
    pub(crate) fn into_agent(self) -> Agent<C>
        ensures { result ≡ self.agent }
    {
        self.agent
    }

    /// Runs a round, writes its outputs, and flushes.
    ///
    /// # Errors
    ///
    /// `Round` with its index if it is refused, and then nothing is written; `Output` or
    /// `NoMemory`.
    pub(crate) fn run<R: Threads + Sync, W: CountedWrite, G: Gate>(
        &mut self,
        rt: &R,
        round: &Round,
        writer: &mut W,
        gate: &G,
    ) -> Result<(), StreamFault>
        ensures same { self.new.first ≡ self.old.first }
        ensures count { OnOk result (shard_count self.new.agent ≡ shard_count self.old.agent) }
        ensures goes_on { OnOk result ((config : AConfig) (rounds : List ARound)
            → Stands C.shard_of self.old.agent config rounds
            → GoesOn C.shard_of self.new.agent (W.contents writer.old) (W.contents writer.new)
            config rounds round.now) }
        ensures stops { OnErr result ((config : AConfig) (rounds : List ARound)
            → Stands C.shard_of self.old.agent config rounds
            → Stops (W.contents writer.old) (W.contents writer.new) config rounds round.now) }
        ensures fault { IfErr result (λ fault. (config : AConfig) (rounds : List ARound)
            → Stands C.shard_of self.old.agent config rounds → self.old.first ≡ config.first
            → TellsStep (W.contents writer.old) (W.contents writer.new) config rounds round.now
            fault) }
        ensures output { Counts (W.failures writer.old) (W.failures writer.new)
            (output_failures result) }
        ensures flushed { OnOk result (IfSome (W.flushed writer.new) (λ all. IsTrue all)) }
    {
        let index = self.index();
        let outputs = match self.agent.run_round(rt, round, self.workers, gate) {
            Ok(outputs) => outputs,
            Err(fault) => return Err(refused_as(index, fault)),
        };
        let text = round_text(self.alloc, round.moment, outputs)?;
        match write_whole(writer, &text) {
            Ok(()) => Ok(()),
            Err(_) => Err(StreamFault::Output),
        }
    }
}

// The fault of a round that was refused; lack of memory has a fault of its own.
fn refused_as(index: u64, fault: RoundFault) -> StreamFault
    ensures { result ≡ steps.refused_as index fault }
{
    match fault {
        RoundFault::NoMemory { .. } => StreamFault::NoMemory,
        _ => StreamFault::Round(index, fault),
    }
}

// The outputs of a round as they stand in an output file.
fn round_text(alloc: Global, moment: u64, outputs: Vec<Output>) -> Result<Vec<u8>, AllocError>
    ensures { IfOk result (λ text. text.items ≡ round_outputs_text moment outputs.items) }
{
    let mut rounds = Vec::with_capacity(alloc, 1)?;
    rounds.push((moment, outputs))?;
    let mut file = write_outputs(alloc, &rounds)?;
    Ok(file.split_off(OUTPUTS_HEAD.len())?)
}
