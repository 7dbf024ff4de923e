//! Reads a journal round by round.

ghost use Rattle.std.specs.Prelude.{◌≡◌, ◌+◌, [], IfNone, IfOk, IfSome, List, OnOk, ℕ};
ghost use Rattle.std.specs.Io.KnownBytes.{Consumes, IsAtEnd, prepend_known};
ghost use Rattle.sip_files.specs.Counted.{Counts};
ghost use Rattle.sip_files.specs.EventFile.{SpellsSession};
ghost use Rattle.sip_files.specs.Rounds.{SpellsRound};
ghost use Rattle.sip_stream.specs.Streams.{input_failures, output_failures};

use crate::round_reader::RoundReader;
use crate::round_text::read_head;
use crate::stream_fault::StreamFault;
use sip_files::{CountedRead, FileKind, LinesFault, read_round};
use sip_round::{Config, Round};
use std::alloc::Global;

/// The rounds of a journal that weren't read yet.
#[derive(Drop)]
pub(crate) struct JournalRounds {
    alloc: Global,
    input: RoundReader,
    config: Config,
    // The number of the next round.
    number: u64,
}

impl JournalRounds {
    /// Reads the head of a journal.
    ///
    /// # Errors
    ///
    /// `Input`, `Head` or `NoMemory`.
    pub(crate) fn new<R: CountedRead>(
        alloc: Global,
        reader: &mut R,
    ) -> Result<JournalRounds, StreamFault>
        ensures head { IfOk result (λ made. (lines : List ℕ) × SpellsSession made.config [] lines
            × Consumes (R.remaining reader.old)
            (prepend_known made.input.text.items (R.remaining reader.new)) lines) }
        ensures number { IfOk result (λ made. made.number ≡ made.config.first) }
        ensures input { Counts (R.failures reader.old) (R.failures reader.new)
            (input_failures result) }
        ensures unwritten { output_failures result ≡ 0 }
    {
        let mut input = RoundReader::new(alloc);
        let lines = input.next_lines(reader)?;
        let config = read_head(alloc, FileKind::Session, &lines)?;
        Ok(JournalRounds {
            alloc,
            input,
            config,
            number: config.first,
        })
    }

    /// The configuration in the head.
    pub(crate) fn config(&self) -> Config
        ensures { result ≡ self.now.config }
    {
        self.config
    }

    /// The index of the next round, from 0.
    pub(crate) fn index(&self) -> u64 {
        self.number.saturating_sub(self.config.first)
    }

    /// The number of the next round.
    pub(crate) fn number(&self) -> u64
        ensures { result ≡ self.now.number }
    {
        self.number
    }

    /// The next round; none at the end.
    ///
    /// # Errors
    ///
    /// `Input`, `Lines` or `NoMemory`.
    pub(crate) fn next_round<R: CountedRead>(
        &mut self,
        reader: &mut R,
    ) -> Result<Option<Round>, StreamFault>
        ensures lines { IfOk result (λ next. IfSome next (λ round. (lines : List ℕ)
            × SpellsRound lines round
            × Consumes (prepend_known self.old.input.text.items (R.remaining reader.old))
            (prepend_known self.new.input.text.items (R.remaining reader.new)) lines)) }
        ensures end { IfOk result (λ next. IfNone next
            (IsAtEnd (prepend_known self.old.input.text.items (R.remaining reader.old)))) }
        ensures number { IfOk result (λ next. IfSome next
            (λ _. self.new.number ≡ self.old.number + 1)) }
        ensures config { OnOk result (self.new.config ≡ self.old.config) }
        ensures input { Counts (R.failures reader.old) (R.failures reader.new)
            (input_failures result) }
        ensures unwritten { output_failures result ≡ 0 }
    {
        let lines = self.input.next_lines(reader)?;
        if lines.is_empty() {
            return Ok(None);
        }
        match read_round(self.alloc, &lines) {
            Ok(round) => {
                // A journal has fewer rounds.
                self.number = self.number.checked_add(1).ok_or(StreamFault::NoMemory)?;
                Ok(Some(round))
            }
            Err(LinesFault::NoMemory) => Err(StreamFault::NoMemory),
            Err(fault) => Err(StreamFault::Lines(self.index(), fault)),
        }
    }
}
