//! The file to which a run is written: a record, or a journal. Whenever a journal has become long,
//! a shorter one takes its place while the run goes on. One that lacks rounds loses its name, so
//! that no process goes on from it: it would give the same tags again.

ghost use Rattle.std.specs.Prelude.{◌≤◌, IfOk, length};

use crate::host::{Access, Host, Journals, has_alone, is_at, open};
use crate::shortening::{Readers, Shortening, Shorter};
use sip_udp::RecordFile;
use std::alloc::Global;
use std::fs::{File, OpenFile};
use std::io::{self, ErrorKind, Read, Seek, SeekFrom, Write};
use std::mem;
use std::string::String;
use std::thread::Threads;

/// The least length of a journal that is made shorter, in bytes.
const LONG: u64 = 1 << 24;

/// How many times as long as the last compact journal it is then. A process that goes on with it
/// should be there before its peers give up, after 32 s.
const TIMES: u64 = 3;

/// What the options say about a journal.
#[derive(Clone, Copy)]
pub(crate) struct JournalWords<'a> {
    pub path: &'a str,
    /// Whether it waits for the disk at each flush.
    pub is_synced: bool,
    /// Whether the run goes on if a write fails.
    pub may_fail: bool,
}

/// The paths of a journal. A record has none.
#[derive(Drop)]
struct Paths {
    // Without symbolic links, since another file gets this name.
    own: String,
    // That of a shorter journal, until it has the name of this one.
    shorter: String,
    // That of this journal once it has failed.
    failed: String,
}

impl Paths {
    fn none(alloc: Global) -> Paths {
        Paths {
            own: String::new(alloc),
            shorter: String::new(alloc),
            failed: String::new(alloc),
        }
    }

    fn of<T: Journals>(rt: &T, alloc: Global, path: &str) -> io::Result<Paths> {
        let own = rt.canonical(alloc, path)?;
        let shorter = format!(in alloc; "{own}.being-compacted")?;
        let failed = format!(in alloc; "{own}.failed")?;
        Ok(Paths {
            own,
            shorter,
            failed,
        })
    }
}

/// The file to which a run is written. This process has that of a journal for itself.
#[derive(Drop)]
pub(crate) struct RunFile<T> {
    rt: T,
    file: File,
    paths: Paths,
    // A record, or a device, isn't watched, and keeps its name.
    is_watched: bool,
    is_synced: bool,
    may_fail: bool,
    // How many bytes it has, and with how many it is made shorter.
    len: u64,
    limit: u64,
    // The thread that writes shorter ones.
    shortening: Option<Shortening>,
}

impl<T: Threads + Host> RunFile<T> {
    /// From now on a thread makes a long journal shorter, unless the system has no more threads.
    /// Neither a record nor a device is made shorter.
    pub(crate) fn start_shortening(&mut self, alloc: Global) {
        if self.is_watched {
            self.shortening = Shortening::start(&self.rt, alloc).ok();
        }
    }
}

impl<T: Journals> RunFile<T> {
    /// Opens the journal with this path, or a new one. None if another process has it. What a
    /// process that died has left of a shorter one is removed. If one that failed is left, this is
    /// said.
    ///
    /// # Errors
    ///
    /// The system's own error; `OutOfMemory`.
    pub(crate) fn journal(
        rt: &T,
        alloc: Global,
        words: JournalWords<'_>,
    ) -> io::Result<Option<RunFile<T>>> {
        let file = open(rt, words.path, Access::Append)?;
        if !has_alone(rt, &file, words.path) {
            return Ok(None);
        }
        let metadata = file.metadata()?;
        let journal = RunFile {
            rt: *rt,
            file,
            paths: Paths::of(rt, alloc, words.path)?,
            is_watched: metadata.is_file(),
            is_synced: words.is_synced,
            may_fail: words.may_fail,
            len: metadata.len(),
            limit: LONG,
            shortening: None,
        };
        journal.remove_shorter();
        journal.tell_failed();
        Ok(Some(journal))
    }

    /// A record in this file.
    pub(crate) fn record(rt: &T, alloc: Global, file: File) -> RunFile<T> {
        RunFile {
            rt: *rt,
            file,
            paths: Paths::none(alloc),
            is_watched: false,
            is_synced: false,
            may_fail: false,
            len: 0,
            limit: LONG,
            shortening: None,
        }
    }

    // Removes what was written of a shorter journal.
    fn remove_shorter(&self) {
        let _ = self.rt.remove(self.paths.shorter.as_str());
    }

    // Says that this journal has failed before, if that one is still there.
    fn tell_failed(&self) {
        if self.rt.metadata(self.paths.failed.as_str()).is_ok() {
            let path = &self.paths.own;
            let failed = &self.paths.failed;
            let _ = eprintln!(self.rt;
                "ua: --journal {path}: {failed} lacks rounds, and isn't resumed"
            );
        }
    }

    // Begins to make a long journal shorter, or goes on in the shorter one as soon as that is
    // written.
    fn keep_short(&mut self) -> io::Result<()> {
        match &mut self.shortening {
            Some(shortening) if shortening.is_at_work() => match shortening.end() {
                Some((mut shorter, end)) => self.go_on_in(&mut shorter, end),
                None => Ok(()),
            },
            Some(_) if self.len >= self.limit => {
                // If no shorter one comes of it, it is tried again with twice as many bytes.
                self.limit = self.len.saturating_mul(2);
                self.begin();
                Ok(())
            }
            _ => Ok(()),
        }
    }

    // Gives the thread a shorter journal to write.
    fn begin(&mut self) {
        match self.new_shorter() {
            Ok(shorter) => {
                if let Some(shortening) = &mut self.shortening {
                    shortening.begin(shorter);
                }
            }
            Err(error) => self.stay_long(&error),
        }
    }

    // A shorter journal that is still to be written.
    fn new_shorter(&self) -> io::Result<Shorter> {
        self.check_place()?;
        Ok(Shorter {
            readers: Readers::open(&self.rt, &self.paths.own, self.len)?,
            file: self.new_file()?,
            front: self.len,
            compact: 0,
            len: 0,
        })
    }

    // The file of the shorter journal. It can be read by those alone who can read the journal.
    fn new_file(&self) -> io::Result<File> {
        let path = self.paths.shorter.as_str();
        self.remove_shorter();
        let file = open(&self.rt, path, Access::AppendNew)?;
        if !has_alone(&self.rt, &file, path) {
            return Err(io::Error::from(ErrorKind::WouldBlock));
        }
        file.set_permissions(self.file.metadata()?.permissions())?;
        Ok(file)
    }

    // An error if somebody has moved or removed the journal.
    fn check_place(&self) -> io::Result<()> {
        if has_alone(&self.rt, &self.file, self.paths.own.as_str()) {
            Ok(())
        } else {
            Err(io::Error::from(ErrorKind::NotFound))
        }
    }

    // Goes on in the shorter journal, if there is one and it can take this one's place.
    fn go_on_in(&mut self, shorter: &mut Shorter, end: io::Result<bool>) -> io::Result<()> {
        match self.replace_by(shorter, end) {
            Ok(true) => {
                let behind = self.len.saturating_sub(shorter.front);
                self.len = shorter.len.saturating_add(behind);
                self.limit = shorter.compact.saturating_mul(TIMES).max(LONG);
                mem::swap(&mut self.file, &mut shorter.file);
                self.sync_name()
            }
            Ok(false) => {
                self.remove_shorter();
                Ok(())
            }
            Err(error) => {
                self.stay_long(&error);
                Ok(())
            }
        }
    }

    // Says why the journal isn't made shorter, and removes what there is of a shorter one.
    fn stay_long(&self, why: &io::Error) {
        let path = &self.paths.own;
        let _ = eprintln!(self.rt; "ua: --journal {path}: not made shorter: {why}");
        self.remove_shorter();
    }

    // If there is a shorter one, writes what stands behind the front of the journal to its file, and
    // gives that file the journal's name.
    fn replace_by(&mut self, shorter: &mut Shorter, end: io::Result<bool>) -> io::Result<bool> {
        if !end? {
            return Ok(false);
        }
        shorter.append_behind(&mut self.file, self.len)?;
        self.check_place()?;
        self.rt
            .rename(self.paths.shorter.as_str(), self.paths.own.as_str())?;
        Ok(true)
    }

    // The name is that of the new file after a power cut, too.
    fn sync_name(&self) -> io::Result<()> {
        if self.is_synced {
            open(&self.rt, folder_of(&self.paths.own), Access::Read)?.sync_all()?;
        }
        Ok(())
    }

    // Appends to the file, if it is as this process left it.
    fn append(&mut self, bytes: &[u8]) -> io::Result<usize>
        ensures bound { IfOk result (λ count. count ≤ length bytes.now) }
    {
        if !self.is_whole() {
            return Err(io::Error::other("moved, removed or changed by another process"));
        }
        let count = self.file.write(bytes)?;
        self.len = self.len.saturating_add(count as u64);
        Ok(count)
    }

    // Whether the file has its name, and the length that this process gave it.
    fn is_whole(&self) -> bool {
        if !self.is_watched {
            return true;
        }
        match self.file.metadata() {
            Ok(own) => own.len() == self.len && is_at(&self.rt, &own, self.paths.own.as_str()),
            Err(_) => false,
        }
    }

    // What was written is on the disk now, and perhaps in a shorter journal.
    fn settle(&mut self) -> io::Result<()> {
        self.file.flush()?;
        if self.is_synced {
            self.file.sync_data()?;
        }
        self.keep_short()
    }

    // Leaves a journal to which a write failed, perhaps to be tried again. If the run goes on, or
    // if the file was cut, it lacks rounds. One that nothing was written to can be resumed.
    fn fail(&self, error: io::Error) -> io::Error {
        if error.kind() == ErrorKind::Interrupted {
            return error;
        }
        if let Some(shortening) = &self.shortening
            && shortening.is_at_work()
        {
            self.remove_shorter();
        }
        if self.is_watched && self.len > 0 && (self.may_fail || self.is_cut()) {
            self.set_aside();
        }
        error
    }

    fn is_cut(&self) -> bool {
        match self.file.metadata() {
            Ok(own) => own.len() < self.len,
            Err(_) => false,
        }
    }

    // Takes its name from the journal, and says so.
    fn set_aside(&self) {
        let path = &self.paths.own;
        let failed = &self.paths.failed;
        let _ = match self.rename() {
            Ok(()) => eprintln!(self.rt; "ua: --journal {path}: it lacks rounds: now {failed}"),
            Err(error) => eprintln!(self.rt;
                "ua: --journal {path}: it lacks rounds, but isn't renamed: {error}"
            ),
        };
    }

    // Gives the journal the name of one that failed, or the file that has its name now, if no
    // other process has that.
    fn rename(&self) -> io::Result<()> {
        let path = self.paths.own.as_str();
        if self.check_place().is_err() {
            let other = open(&self.rt, path, Access::Read)?;
            if !has_alone(&self.rt, &other, path) {
                return Err(io::Error::from(ErrorKind::WouldBlock));
            }
        }
        self.rt.rename(path, self.paths.failed.as_str())?;
        self.sync_name()
    }
}

impl<T: Journals + Drop> Write for RunFile<T> {
    fn write(&mut self, bytes: &[u8]) -> io::Result<usize> {
        match self.append(bytes) {
            Ok(count) => Ok(count),
            Err(error) => Err(self.fail(error)),
        }
    }

    fn flush(&mut self) -> io::Result<()> {
        match self.settle() {
            Ok(()) => Ok(()),
            Err(error) => Err(self.fail(error)),
        }
    }
}

impl<T: Journals + Drop> RecordFile for RunFile<T> {
    fn read_past(&mut self, buffer: &mut [u8]) -> io::Result<usize> {
        self.file.read(buffer)
    }

    fn cut(&mut self, len: u64) -> io::Result<()> {
        self.file.set_len(len)?;
        self.len = len;
        Ok(())
    }

    fn lacks_round(&mut self) {
        let _ = self.fail(io::Error::from(ErrorKind::InvalidInput));
    }
}

// The folder of a file with this path, which begins with a slash.
fn folder_of(path: &str) -> &str {
    match path.rsplit_once('/') {
        Some((folder, _)) if !folder.is_empty() => folder,
        _ => "/",
    }
}
