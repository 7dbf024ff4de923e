//! A thread that writes a shorter journal while the run goes on.

ghost use denote.Param.Send.{IsSync};

use crate::host::{Access, Host, Journals, open};
use rtrb::{Consumer, Producer, RingBuffer};
use sip_message::Spread;
use sip_stream::{StreamFault, compact};
use sip_udp::Bell;
use std::alloc::Global;
use std::fs::File;
use std::io::{self, ErrorKind, Read, Seek, SeekFrom, Take, Write};
use std::sync::Arc;
use std::thread::{self, Threads};
use std::time::Duration;

/// How long the thread waits at its bell at most, in ms.
const PAUSE: u64 = 1_000;

/// Three readers of a front of a journal.
#[derive(Drop)]
pub(crate) struct Readers {
    journal: Take<File>,
    again: Take<File>,
    once_more: Take<File>,
}

impl Readers {
    /// Readers of the first `front` bytes of the file with this path, each at its beginning.
    ///
    /// # Errors
    ///
    /// The system's own error.
    pub(crate) fn open<T: Journals>(rt: &T, path: &str, front: u64) -> io::Result<Readers> {
        Ok(Readers {
            journal: open(rt, path, Access::Read)?.take(front),
            again: open(rt, path, Access::Read)?.take(front),
            once_more: open(rt, path, Access::Read)?.take(front),
        })
    }

    /// A shorter journal than the front, if one was found. All of the front is read then.
    ///
    /// # Errors
    ///
    /// As of `compact`.
    pub(crate) fn compact<T: Threads + Sync>(
        &mut self,
        rt: &T,
        alloc: Global,
    ) -> Result<Option<Vec<u8>>, StreamFault> {
        let Readers {
            journal,
            again,
            once_more,
        } = self;
        match compact(rt, alloc, journal, again, once_more, 1, 1, Spread) {
            Ok(Some(compacted)) => Ok(Some(compacted.text)),
            Ok(None) => Ok(None),
            Err(fault) => Err(fault),
        }
    }
}

/// A file that is to stand in the place of a front of a journal: a compact journal, after which an
/// agent holds the same, and behind it what the journal had by the time that it was written.
#[derive(Drop)]
pub(crate) struct Shorter {
    pub readers: Readers,
    /// A new file.
    pub file: File,
    /// How many bytes of the journal it stands for. The readers read so many, as long as nothing is
    /// written.
    pub front: u64,
    /// How many bytes of the file, the first ones, are the compact journal.
    pub compact: u64,
    /// How many bytes the file has.
    pub len: u64,
}

impl Shorter {
    // Writes the file. Says whether there is a compact journal that is at most half as long.
    fn write<T: Threads + Sync>(&mut self, rt: &T, alloc: Global) -> io::Result<bool> {
        let text = match self.readers.compact(rt, alloc) {
            Ok(Some(text)) if text.len() as u64 <= self.front / 2 => text,
            Ok(_) => return Ok(false),
            Err(StreamFault::NoMemory) => return Err(io::Error::from(ErrorKind::OutOfMemory)),
            Err(_) => return Err(io::Error::from(ErrorKind::InvalidData)),
        };
        self.file.write_all(&text)?;
        let rest = &mut self.readers.once_more;
        rest.set_limit(u64::MAX);
        let behind = io::copy(rest, &mut self.file)?;
        self.file.sync_data()?;
        self.front = self.front.saturating_add(behind);
        self.compact = text.len() as u64;
        self.len = self.compact.saturating_add(behind);
        Ok(true)
    }

    /// Writes what stands behind the front of the journal, which has so many bytes.
    ///
    /// # Errors
    ///
    /// The system's own error; `UnexpectedEof` if the journal has another length.
    pub(crate) fn append_behind(&mut self, journal: &mut File, len: u64) -> io::Result<()> {
        journal.seek(SeekFrom::Start(self.front))?;
        let copied = io::copy(journal, &mut self.file)?;
        if self.front.checked_add(copied) != Some(len) {
            return Err(io::Error::from(ErrorKind::UnexpectedEof));
        }
        self.file.sync_data()
    }
}

/// What comes of a shorter journal: whether there is one, or why it can't be made.
pub(crate) type End = (Shorter, io::Result<bool>);

/// A thread that writes shorter journals, one after the other, as long as this lives.
#[derive(Drop)]
pub(crate) struct Shortening {
    tasks: Producer<Shorter>,
    ends: Consumer<End>,
    bell: Arc<Bell>,
    is_at_work: bool,
}

impl Shortening {
    /// Starts the thread.
    ///
    /// # Errors
    ///
    /// `OutOfMemory`, or the system has no more threads or sockets.
    pub(crate) fn start<T: Threads + Host>(rt: &T, alloc: Global) -> io::Result<Shortening> {
        let Ok(bell) = Arc::new(alloc, rt.bell()?) else {
            return Err(io::Error::from(ErrorKind::OutOfMemory));
        };
        let ear = bell.clone()?;
        let (tasks, mut asked) = RingBuffer::new(alloc, 1)?;
        let (mut answers, ends) = RingBuffer::new(alloc, 1)?;
        let own = *rt;
        let thread = thread::spawn(
            rt,
            move || -> ()
                requires { IsSync T.row }
            { serve(&own, alloc, &mut asked, &mut answers, &ear) },
        );
        match thread {
            Ok(_) => Ok(Shortening {
                tasks,
                ends,
                bell,
                is_at_work: false,
            }),
            Err(_) => Err(io::Error::from(ErrorKind::WouldBlock)),
        }
    }

    /// Gives the thread a file to write. It takes one at a time.
    pub(crate) fn begin(&mut self, shorter: Shorter) {
        self.is_at_work = self.tasks.push(shorter).is_ok();
        self.bell.ring();
    }

    /// Whether the thread writes a file that wasn't taken yet.
    pub(crate) fn is_at_work(&self) -> bool {
        self.is_at_work
    }

    /// What came of the file. None as long as the thread is at work.
    pub(crate) fn end(&mut self) -> Option<End> {
        let end = self.ends.pop().ok()?;
        self.is_at_work = false;
        Some(end)
    }
}

// Writes each file, until nobody is there any more who gives one.
fn serve<T: Threads + Sync>(
    rt: &T,
    alloc: Global,
    tasks: &mut Consumer<Shorter>,
    ends: &mut Producer<End>,
    bell: &Bell,
) {
    for _ in 0..u64::MAX {
        match tasks.pop() {
            Ok(mut shorter) => {
                let end = shorter.write(rt, alloc);
                let _ = ends.push((shorter, end));
            }
            Err(_) if tasks.is_abandoned() => return,
            Err(_) => {
                if bell.wait(Duration::from_millis(PAUSE)).is_err() {
                    return;
                }
            }
        }
    }
}
