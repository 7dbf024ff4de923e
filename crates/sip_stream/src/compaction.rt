//! Writes a shorter journal.

ghost use Rattle.std.specs.Prelude.{◌≡◌, ◌+◌, ◌<◌, ◌⊎◌, Err, IfErr, IfOk, IfSome, List, OnErr, OnOk, Option, ℕ};
ghost use Rattle.std.specs.Io.KnownBytes.{Appends, prepend_known};
ghost use Rattle.sip_files.specs.Counted.{Counts};
ghost use Rattle.sip_files.specs.Written.{session_round_text};
ghost use Rattle.sip_round.specs.declared.round.Round.{Round as ARound};
ghost use Rattle.sip_stream.specs.Shorter.{Shortens, Thins};
ghost use Rattle.sip_stream.specs.Steps.{IsShortened};
ghost use Rattle.sip_stream.specs.Streams.{input_failures, output_failures};
ghost use Rattle.sip_stream.specs.declared.stream_fault.StreamFault.TheVariants as stream_fault;

use crate::call_records::CallRecords;
use crate::journal_rounds::JournalRounds;
use crate::kept_events::kept_events;
use crate::stream_fault::StreamFault;
use sip_files::{
    CountedRead, CountedWrite, FileKind, write_file_head, write_file_round, write_whole,
};
use sip_message::First;
use sip_round::{Agent, Config, Output, Round, RoundFault};
use std::alloc::{AllocError, Global};

/// What a shorter journal keeps.
#[derive(Drop)]
struct Choice {
    records: CallRecords,
    // The number of the first round that it has.
    first: u64,
    // The number of the last round, which it has as a whole.
    last: u64,
}

/// Reads a journal twice, from two readers, and writes a shorter one. It keeps the events of each
/// call of which something may be held at the end, and of those that are linked with it, directly
/// or by others: two are linked if a transaction of one took a datagram that names the other one.
/// It begins with the first round of these calls, and has the last round as a whole. So it should
/// leave an agent that holds the same: `leaves_the_same` tells. It holds in memory what the agent
/// holds, one round, and the keys of the transactions of the calls that it keeps.
///
/// # Errors
///
/// The first fault that comes. `Output` at the first write or flush that fails. `NoMemory` also if
/// the second reader gives other rounds.
pub fn write_shorter<L: CountedRead, M: CountedRead, W: CountedWrite>(
    alloc: Global,
    journal: &mut L,
    again: &mut M,
    shorter: &mut W,
) -> Result<(), StreamFault>
    ensures shortens { OnOk result (IfSome (M.remaining again.old) (λ long. (short : List ℕ)
        × Shortens long short
        × Appends (W.contents shorter.old) (W.contents shorter.new) short)) }

    // That a read failed is told only where one of the two failed.
    ensures input { IfErr result (λ fault. fault ≡ stream_fault.Input
        → Counts (L.failures journal.old) (L.failures journal.new) 1
        ⊎ Counts (M.failures again.old) (M.failures again.new) 1) }
    ensures output { Counts (W.failures shorter.old) (W.failures shorter.new)
        (output_failures result) }
{
    let choice = choose(alloc, journal)?;
    let mut rounds = JournalRounds::new(alloc, again)?;
    let head = rounds.config();
    let config = Config {
        first: choice.first.max(head.first),
        ..head
    };
    write(
        shorter,
        &write_file_head(alloc, FileKind::Session, &config)?,
    )?;
    let first = config.first;
    write_rounds(alloc, &choice, first, &mut rounds, again, shorter)
}

// Writes the rounds from this first one on.
fn write_rounds<R: CountedRead, W: CountedWrite>(
    alloc: Global,
    choice: &Choice,
    first: u64,
    rounds: &mut JournalRounds,
    reader: &mut R,
    writer: &mut W,
) -> Result<(), StreamFault>
    ensures shortens { OnOk result ((input before : Option (List ℕ))
        → IsShortened first choice.now.last rounds.old.config rounds.old.number input
        (prepend_known rounds.old.input.text.items (R.remaining reader.old)) before
        (W.contents writer.old)
        → IfSome input (λ long. (short : List ℕ) × Shortens long short
        × Appends before (W.contents writer.new) short)) }
    ensures input { Counts (R.failures reader.old) (R.failures reader.new) (input_failures result) }
    ensures output { Counts (W.failures writer.old) (W.failures writer.new)
        (output_failures result) }
{
    for _ in 0..u64::MAX {
        let number = rounds.number();
        let Some(round) = rounds.next_round(reader)? else {
            return choice.end(rounds.config().first, first, number);
        };
        if number >= first {
            write(writer, &choice.lines_of(alloc, number, round)?)?;
        }
    }
    // A journal has fewer rounds.
    Err(StreamFault::NoMemory)
}

fn write<W: CountedWrite>(writer: &mut W, text: &[u8]) -> Result<(), StreamFault>
    ensures all { OnOk result (Appends (W.contents writer.old) (W.contents writer.new) text.now) }
    ensures fault { OnErr result (result ≡ Err stream_fault.Output) }
    ensures output { Counts (W.failures writer.old) (W.failures writer.new)
        (output_failures result) }
{
    match write_whole(writer, text) {
        Ok(()) => Ok(()),
        Err(_) => Err(StreamFault::Output),
    }
}

impl Choice {
    // Runs the rounds, and chooses by what they leave.
    fn take_rounds<R: CountedRead>(
        &mut self,
        agent: &mut Agent<First>,
        rounds: &mut JournalRounds,
        reader: &mut R,
    ) -> Result<(), StreamFault>
        ensures input { Counts (R.failures reader.old) (R.failures reader.new)
            (input_failures result) }
        ensures unwritten { output_failures result ≡ 0 }
    {
        let mut moment = 0;
        for _ in 0..u64::MAX {
            let (index, number) = (rounds.index(), rounds.number());
            let Some(round) = rounds.next_round(reader)? else {
                break;
            };
            let outputs = run(agent, index, &round)?;
            self.records.take_round(number, &round, &outputs)?;
            self.last = number;
            moment = round.moment;
        }
        self.records.forget(moment)?;
        self.first = match self.records.first_round() {
            Some(first) if first < self.last => first,
            _ => self.last,
        };
        Ok(())
    }

    // The lines that stand for this round.
    fn lines_of(&self, alloc: Global, number: u64, round: Round) -> Result<Vec<u8>, AllocError>
        ensures { IfOk result (λ text. (kept : ARound) × Thins round kept
            × (number ≡ self.now.last → kept ≡ round)
            × (text.items ≡ session_round_text kept)) }
    {
        if number == self.last {
            return write_file_round(alloc, FileKind::Session, &round);
        }
        let kept = kept_events(alloc, &self.records, number, round)?;
        write_file_round(alloc, FileKind::Session, &kept)
    }

    // The end of rounds from this first number up to the one before `next`, of which those from
    // `kept` on were written. It is one if the last one is the last that was chosen.
    fn end(&self, first: u64, kept: u64, next: u64) -> Result<(), StreamFault>
        ensures ends { OnOk result ((next ≡ first) × (kept ≡ first)
            ⊎ (kept < next) × (next ≡ self.now.last + 1)) }
        ensures fault { OnErr result (result ≡ Err stream_fault.NoMemory) }
    {
        let is_empty = next == first && kept == first;
        let is_last = kept < next && Some(next) == self.last.checked_add(1);
        if is_empty || is_last {
            Ok(())
        } else {
            Err(StreamFault::NoMemory)
        }
    }
}

// Runs a journal, and finds of which calls something may be held at its end.
fn choose<R: CountedRead>(alloc: Global, reader: &mut R) -> Result<Choice, StreamFault>
    ensures input { Counts (R.failures reader.old) (R.failures reader.new) (input_failures result) }
    ensures unwritten { output_failures result ≡ 0 }
{
    let mut rounds = JournalRounds::new(alloc, reader)?;
    let Ok(mut agent) = Agent::new(alloc, rounds.config(), 1, First) else {
        return Err(StreamFault::NoMemory);
    };
    let mut choice = Choice {
        records: CallRecords::new(alloc),
        first: rounds.number(),
        last: rounds.number(),
    };
    choice.take_rounds(&mut agent, &mut rounds, reader)?;
    Ok(choice)
}

// Runs the round with this index.
fn run(agent: &mut Agent<First>, index: u64, round: &Round) -> Result<Vec<Output>, StreamFault>
    ensures input { input_failures result ≡ 0 }
    ensures unwritten { output_failures result ≡ 0 }
{
    match agent.run_round_in_turn(round) {
        Ok(outputs) => Ok(outputs),
        Err(RoundFault::NoMemory { .. }) => Err(StreamFault::NoMemory),
        Err(fault) => Err(StreamFault::Round(index, fault)),
    }
}
