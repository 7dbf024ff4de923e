//! Reads a file by the lines of its rounds.

ghost use Rattle.std.specs.Prelude.{◌≡◌, ◌⊎◌, ◌≤◌, ◌+◌, ◌++◌, ℕ, List, [], false, drop, length, take, IfErr, IfOk, IfSome, OnOk};
ghost use Rattle.std.specs.Io.KnownBytes.{Consumes, IsAtEnd, Keeps, prepend_known};
ghost use Rattle.sip_files.specs.Counted.{Counts};
ghost use Rattle.sip_stream.specs.Streams.{IsNext, input_failures};
ghost use Rattle.sip_stream.specs.declared.stream_fault.StreamFault.TheVariants as stream_fault;

use crate::stream_fault::StreamFault;
use sip_files::{CountedRead, MAX_EVENTS, first_round_of};
use std::alloc::Global;
use std::mem;

/// How many bytes one read asks for.
const CHUNK: usize = 4096;

/// More bytes than a file may have.
const TOO_MANY: usize = MAX_EVENTS + 1;

/// The beginning of a line that begins a round.
const ROUND: &[u8] = b"round ";

/// What was read of a file and not given yet.
#[derive(Drop)]
pub struct RoundReader {
    text: Vec<u8>,
}

impl RoundReader {
    /// Nothing was read yet.
    pub fn new(alloc: Global) -> RoundReader
        ensures { result.text.items ≡ [] }
    {
        RoundReader {
            text: Vec::new(alloc),
        }
    }

    /// The lines up to the next one that begins a round; none at the end. Of lines that are longer
    /// than a file may be, it may give only a front that is, too. It reads no further than the read
    /// that tells where they end, so that it doesn't wait for more, and adds at most 4,102 bytes to
    /// those that it has read ahead.
    ///
    /// # Errors
    ///
    /// `Input` or `NoMemory`. What was read may be lost then: begin anew.
    pub fn next_lines<R: CountedRead>(&mut self, reader: &mut R) -> Result<Vec<u8>, StreamFault>
        ensures given { IfOk result (λ lines.
            Consumes (prepend_known self.old.text.items (R.remaining reader.old))
            (prepend_known self.new.text.items (R.remaining reader.new)) lines.items) }
        ensures next { IfOk result (λ lines.
            IfSome (prepend_known self.new.text.items (R.remaining reader.new))
            (IsNext lines.items)) }
        ensures end { IfOk result (λ lines. lines.items ≡ []
            → IsAtEnd (prepend_known self.new.text.items (R.remaining reader.new))) }
        ensures held { OnOk result
            (length self.new.text.items ≤ length self.old.text.items + 4102) }
        ensures fault { IfErr result (λ fault.
            (fault ≡ stream_fault.Input) ⊎ (fault ≡ stream_fault.NoMemory)) }
        ensures input { Counts (R.failures reader.old) (R.failures reader.new)
            (input_failures result) }
    {
        let mut has_more = true;
        // No round begins before it.
        let mut searched = 0;
        for _ in 0..=TOO_MANY + ROUND.len() {
            let len = searched + first_round_of(&self.text[searched..]).len();
            if len < self.text.len() || !has_more {
                return Ok(self.take(len)?);
            }
            // The line that begins the next round may have come in part.
            if self.text.len() >= TOO_MANY + ROUND.len() {
                return Ok(self.take(TOO_MANY)?);
            }
            searched = self.text.len().saturating_sub(ROUND.len());
            has_more = self.read_more(reader)?;
        }
        // Each turn read a byte at least, so there was one with too many.
        Err(StreamFault::NoMemory)
    }

    // Takes the first bytes.
    fn take(&mut self, len: usize) -> Result<Vec<u8>, StreamFault>
        requires { len ≤ length self.old.text.items }
        ensures taken { IfOk result (λ taken. taken.items ≡ take len self.old.text.items) }
        ensures rest { OnOk result (self.new.text.items ≡ drop len self.old.text.items) }
        ensures fault { IfErr result (λ fault. fault ≡ stream_fault.NoMemory) }
    {
        let rest = self.text.split_off(len)?;
        Ok(mem::replace(&mut self.text, rest))
    }

    // Reads once. Gives whether there may be more.
    fn read_more<R: CountedRead>(&mut self, reader: &mut R) -> Result<bool, StreamFault>
        ensures same { OnOk result (Keeps
            (prepend_known self.old.text.items (R.remaining reader.old))
            (prepend_known self.new.text.items (R.remaining reader.new))) }
        ensures read { OnOk result ((more : List ℕ) × (length more ≤ 4096)
            × (self.new.text.items ≡ self.old.text.items ++ more)) }
        ensures end { IfOk result
            (λ has_more. has_more ≡ false → IsAtEnd (R.remaining reader.new)) }
        ensures fault { IfErr result (λ fault.
            (fault ≡ stream_fault.Input) ⊎ (fault ≡ stream_fault.NoMemory)) }
        ensures input { Counts (R.failures reader.old) (R.failures reader.new)
            (input_failures result) }
    {
        let mut chunk = [0u8; CHUNK];
        match reader.read_once(&mut chunk) {
            Ok(count) => {
                self.text.extend_from_slice(&chunk[..count])?;
                Ok(0 < count)
            }
            Err(_) => Err(StreamFault::Input),
        }
    }
}
