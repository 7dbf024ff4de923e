//! Reads a journal: the lines of its head, and then those of each round.

use crate::fault::UaFault;
use crate::record_file::RecordFile;
use sip_files::{EventsFault, FileKind, first_round_of, read_file, write_file_head};
use sip_round::Config;
use std::alloc::Global;

/// How many bytes are read at once at least.
const CHUNK: usize = 65_536;

/// How far a journal was read. A last line without its end is left out: the process died while it
/// wrote that line.
#[derive(Drop)]
pub struct Past {
    alloc: Global,
    // What was read and stands behind the lines that were given before.
    text: Vec<u8>,
    // How many of these bytes were given, and how many were given before them.
    given: usize,
    before: u64,
    has_ended: bool,
}

impl Past {
    /// A journal of which nothing was read. Takes no memory.
    pub fn new(alloc: Global) -> Past {
        Past {
            alloc,
            text: Vec::new(alloc),
            given: 0,
            before: 0,
            has_ended: false,
        }
    }

    /// Whether nothing stands in the file, as far as it was read.
    pub fn is_empty(&self) -> bool {
        self.before == 0 && self.text.is_empty()
    }

    /// The configuration that the head says; none if the file is empty.
    ///
    /// # Errors
    ///
    /// `NoJournal` if the file doesn't begin with a head as it is written; `Journal` if it can't be
    /// read; or `NoMemory`.
    pub fn head<F: RecordFile>(&mut self, file: &mut F) -> Result<Option<Config>, UaFault> {
        let Some(lines) = self.next_lines(file)? else {
            return if self.text.is_empty() {
                Ok(None)
            } else {
                Err(UaFault::NoJournal)
            };
        };
        let config = match read_file(self.alloc, FileKind::Session, &lines) {
            Ok((config, _)) => config,
            Err(EventsFault::NoMemory) => return Err(UaFault::NoMemory),
            Err(_) => return Err(UaFault::NoJournal),
        };
        // The head as it is written has all that a session may leave out.
        if write_file_head(self.alloc, FileKind::Session, &config)? == lines {
            Ok(Some(config))
        } else {
            Err(UaFault::NoJournal)
        }
    }

    /// The next lines; none at the end.
    ///
    /// # Errors
    ///
    /// `Journal` if the file can't be read, or `NoMemory`.
    pub(crate) fn next_lines<F: RecordFile>(
        &mut self,
        file: &mut F,
    ) -> Result<Option<Vec<u8>>, UaFault> {
        for _ in 0..u64::MAX {
            let (_, left) = self.text.split_at(self.given.min(self.text.len()));
            let lines = first_round_of(left);
            if lines.len() < left.len() || self.has_ended {
                let lines = Vec::from_slice(self.alloc, whole_lines(lines))?;
                self.given = self.given.saturating_add(lines.len());
                return Ok(if lines.is_empty() { None } else { Some(lines) });
            }
            self.read_more(file)?;
        }
        Ok(None)
    }

    /// How many bytes were given.
    pub(crate) fn given(&self) -> u64 {
        self.before.saturating_add(self.given as u64)
    }

    /// How many bytes were read.
    pub(crate) fn read(&self) -> u64 {
        self.before.saturating_add(self.text.len() as u64)
    }

    /// Whether no whole line is left.
    pub(crate) fn is_over(&self) -> bool {
        let (_, left) = self.text.split_at(self.given.min(self.text.len()));
        self.has_ended && whole_lines(left).is_empty()
    }

    // Reads as much again as is left, or what there is.
    fn read_more<F: RecordFile>(&mut self, file: &mut F) -> Result<(), UaFault> {
        self.before = self.given();
        self.text = self.text.split_off(self.given.min(self.text.len()))?;
        self.given = 0;
        let mut buffer = vec![in self.alloc; 0u8; self.text.len().max(CHUNK)]?;
        let Ok(count) = file.read_past(&mut buffer) else {
            return Err(UaFault::Journal);
        };
        let Some(bytes) = buffer.get(..count) else {
            return Err(UaFault::Journal);
        };
        self.has_ended = bytes.is_empty();
        self.text.extend_from_slice(bytes)?;
        Ok(())
    }
}

// A text up to its last line feed.
fn whole_lines(text: &[u8]) -> &[u8] {
    match text.iter().rposition(|byte| *byte == b'\n') {
        Some(last) => text.get(..=last).unwrap_or(&[]),
        None => &[],
    }
}
