//! Records a run: the event file or the session file of its rounds, or its journal.

ghost use Rattle.std.specs.Prelude.{◌≡◌, List, None, ℕ, OnOk, Option, IfSome, false};
ghost use Rattle.sip_udp.specs.declared.record.Keeping.TheVariants.{MayFail};
ghost use Rattle.sip_udp.specs.Recording.{KeepsIfNeeded, Records};
ghost use Rattle.sip_files.specs.Written.{file_head, round_in};

use crate::fault::UaFault;
use crate::notices::put;
use crate::past::Past;
use crate::record_file::RecordFile;
use sip_files::{FileKind, LinesFault, MAX_EVENTS, read_round, write_file_head, write_file_round};
use sip_round::{Config, Round};
use std::alloc::Global;
use std::fmt::Display;
use std::io::Write;

/// How many bytes the lines of a journal's round may have: as many as can be read again, less some
/// for the head that is read with them.
const MAX_LINES: usize = MAX_EVENTS - 4096;

/// What becomes of a run whose record can't be written.
#[derive(Clone, Copy)]
pub enum Keeping {
    /// It goes on without its record.
    MayFail,
    /// It ends: nothing is sent or told that isn't recorded.
    Needed,
}

/// Where a run is recorded, as long as no write fails.
#[derive(Drop)]
pub(crate) struct Record<F> {
    file: Option<F>,
    kind: FileKind,
    keeping: Keeping,
    /// Whether it is a journal.
    pub(crate) is_journal: bool,
    // Whether the file has its head.
    has_head: bool,
}

impl<F: RecordFile> Record<F> {
    /// A record in this kind of file, if there is a file; a journal, if there is a past.
    pub(crate) fn new(
        file: Option<F>,
        kind: FileKind,
        keeping: Keeping,
        past: Option<&Past>,
    ) -> Record<F> {
        match past {
            Some(past) => Record {
                file,
                kind: FileKind::Session,
                keeping,
                is_journal: true,
                has_head: !past.is_empty(),
            },
            None => Record {
                file,
                kind,
                keeping: Keeping::MayFail,
                is_journal: false,
                has_head: false,
            },
        }
    }

    /// The next round of a journal, which has this number. None at the end, or if the last round
    /// isn't whole.
    ///
    /// # Errors
    ///
    /// `JournalLines` if its lines aren't those of a round; `Journal` if the file can't be read, or
    /// `NoMemory`.
    pub(crate) fn next_round(
        &mut self,
        alloc: Global,
        past: &mut Past,
        number: u64,
    ) -> Result<Option<Round>, UaFault> {
        let Some(file) = &mut self.file else {
            return Ok(None);
        };
        let Some(lines) = past.next_lines(file)? else {
            return Ok(None);
        };
        match read_round(alloc, &lines) {
            Ok(round) => Ok(Some(round)),
            Err(LinesFault::NoMemory) => Err(UaFault::NoMemory),
            Err(_) if past.is_over() => Ok(None),
            Err(fault) => Err(UaFault::JournalLines { number, fault }),
        }
    }

    /// Leaves only so many of the bytes that were read, those of whole rounds, and says how many are
    /// left out, if any.
    ///
    /// # Errors
    ///
    /// `Journal`.
    pub(crate) fn cut<E: Write>(
        &mut self,
        read: u64,
        whole: u64,
        errors: &mut E,
    ) -> Result<(), UaFault> {
        let left_out = read.saturating_sub(whole);
        if left_out == 0 {
            return Ok(());
        }
        let is_cut = match &mut self.file {
            Some(file) => file.cut(whole).is_ok(),
            None => true,
        };
        if !is_cut {
            return Err(UaFault::Journal);
        }
        let _ = writeln!(
            errors,
            "ua: {left_out} bytes at the end of the journal left out"
        );
        Ok(())
    }

    /// Records the head, if the file doesn't have it.
    ///
    /// # Errors
    ///
    /// `Journal` if the record is needed and can't be written, or `NoMemory`.
    pub(crate) fn begin<E: Write>(
        &mut self,
        alloc: Global,
        config: &Config,
        errors: &mut E,
    ) -> Result<(), UaFault>
        ensures text { self.old.has_head ≡ false → OnOk result (Records F.contents
            self.old.file self.new.file (file_head self.old.kind config.now)) }
        ensures kept { OnOk result (KeepsIfNeeded self.old self.new) }
    {
        if self.file.is_some() && !self.has_head {
            let text = write_file_head(alloc, self.kind, config)?;
            self.write(&text, errors)?;
        }
        Ok(())
    }

    /// Records a round.
    ///
    /// # Errors
    ///
    /// `Journal` if the record is needed and can't be written, or if it is a journal from which the
    /// round couldn't be read again, since its lines are too long; or `NoMemory`.
    pub(crate) fn add<E: Write>(
        &mut self,
        alloc: Global,
        round: &Round,
        errors: &mut E,
    ) -> Result<(), UaFault>
        ensures text { OnOk result (Records F.contents self.old.file self.new.file
            (round_in self.old.kind round.now)) }
        ensures kept { OnOk result (KeepsIfNeeded self.old self.new) }
    {
        if self.file.is_some() {
            let text = write_file_round(alloc, self.kind, round)?;
            if self.is_journal && text.len() > MAX_LINES {
                if let Some(file) = &mut self.file {
                    file.lacks_round();
                }
                return self.give_up(&"round too long", errors);
            }
            self.write(&text, errors)?;
        }
        Ok(())
    }

    // Writes the text. If that fails, it gives up recording or the run.
    fn write<E: Write>(&mut self, text: &[u8], errors: &mut E) -> Result<(), UaFault>
        ensures text { OnOk result (Records F.contents self.old.file self.new.file text.now) }
        ensures kept { OnOk result (KeepsIfNeeded self.old self.new) }
    {
        let Some(mut file) = self.file.take() else {
            return Ok(());
        };
        match put(&mut file, text) {
            Ok(()) => {
                self.file = Some(file);
                Ok(())
            }
            Err(error) => self.give_up(&error, errors),
        }
    }

    // Says why, and gives up recording, or the run if it needs its record.
    fn give_up<D: Display, E: Write>(&mut self, why: &D, errors: &mut E) -> Result<(), UaFault>
        ensures gone { self.new.file ≡ None }
        ensures kept { OnOk result (self.old.keeping ≡ MayFail) }
    {
        self.file = None;
        match self.keeping {
            Keeping::MayFail => {
                let _ = errors.write_all(b"ua: record failed\n");
                let _ = writeln!(errors, "ua: --record: {why}");
                Ok(())
            }
            Keeping::Needed => {
                let _ = writeln!(errors, "ua: --journal: {why}");
                Err(UaFault::Journal)
            }
        }
    }
}
