//! What `ua compact` does.

use crate::failure::Failure;
use crate::host::{Access, Journals, has_alone, open};
use crate::options::text_of;
use crate::shortening::Readers;
use clap::ArgMatches;
use sip_stream::StreamFault;
use sip_udp::UaFault;
use std::alloc::Global;
use std::fs::File;
use std::io::{self, Write};
use std::thread::Threads;

/// Writes a shorter journal, whose agent answers all that follows alike, to a new file. If none was
/// found, it says so and writes the whole journal.
pub(crate) fn compact_by<T: Threads + Journals + Sync, E: Write>(
    rt: &T,
    alloc: Global,
    options: &ArgMatches,
    errors: &mut E,
) -> Result<(), Failure> {
    let path = text_of(options, "journal");
    let mut journal = own_journal(rt, path)?;
    let text = compact_text(rt, alloc, path)?;
    if text.is_none() {
        let _ = writeln!(errors, "ua: no shorter journal was found");
    }
    let into = text_of(options, "into");
    match write_new(rt, into, text, &mut journal) {
        Ok(()) => Ok(()),
        Err(error) => Err(Failure::of_file(UaFault::Output, "into", error)),
    }
}

// The journal, which this process has for itself from now on.
fn own_journal<T: Journals>(rt: &T, path: &str) -> Result<File, Failure> {
    match open(rt, path, Access::Read) {
        Ok(journal) if has_alone(rt, &journal, path) => Ok(journal),
        Ok(_) => Err(Failure::of_word("journal", "another process has it")),
        Err(error) => Err(unread(error)),
    }
}

// A shorter text than that of the journal, if one was found.
fn compact_text<T: Threads + Journals + Sync>(
    rt: &T,
    alloc: Global,
    path: &str,
) -> Result<Option<Vec<u8>>, Failure> {
    match Readers::open(rt, path, u64::MAX) {
        Ok(mut readers) => match readers.compact(rt, alloc) {
            Ok(text) => Ok(text),
            Err(fault) => Err(Failure::from(fault_of(fault))),
        },
        Err(error) => Err(unread(error)),
    }
}

fn unread(error: io::Error) -> Failure {
    Failure::of_file(UaFault::Journal, "journal", error)
}

// Writes the text, or the whole journal, to a new file: none is overwritten. A part of it doesn't
// stay.
fn write_new<T: Journals>(
    rt: &T,
    path: &str,
    text: Option<Vec<u8>>,
    journal: &mut File,
) -> io::Result<()> {
    let mut file = open(rt, path, Access::AppendNew)?;
    let end = fill(&mut file, text, journal);
    if end.is_err() {
        let _ = rt.remove(path);
    }
    end
}

// Gives the file the permissions of the journal, which has secrets, and then its text.
fn fill(file: &mut File, text: Option<Vec<u8>>, journal: &mut File) -> io::Result<()> {
    file.set_permissions(journal.metadata()?.permissions())?;
    match text {
        Some(text) => file.write_all(&text)?,
        None => {
            io::copy(journal, file)?;
        }
    }
    Ok(())
}

// The fault for that of the journal.
fn fault_of(fault: StreamFault) -> UaFault {
    match fault {
        StreamFault::Input => UaFault::Journal,
        StreamFault::Head(_) => UaFault::NoJournal,
        StreamFault::Lines(number, fault) => UaFault::JournalLines { number, fault },
        StreamFault::Round(number, fault) => UaFault::Round { number, fault },
        StreamFault::Output => UaFault::Output,
        StreamFault::NoMemory => UaFault::NoMemory,
    }
}
