//! The file in which a run is recorded.

use std::io::{self, ErrorKind, Write};

/// A file in which a run is recorded. That of a journal can also be read and cut.
pub trait RecordFile: Write + Drop {
    /// Reads what comes next of what the file had in it when it was opened, as `Read::read` does.
    ///
    /// # Errors
    ///
    /// The file's own error.
    fn read_past(&mut self, _buffer: &mut [u8]) -> io::Result<usize> {
        Ok(0)
    }

    /// Leaves only so many bytes, the first ones.
    ///
    /// # Errors
    ///
    /// The file's own error.
    fn cut(&mut self, _len: u64) -> io::Result<()> {
        Err(io::Error::from(ErrorKind::Unsupported))
    }

    /// A round can't be written to it. If the run goes on all the same, no process may go on from
    /// this file: it would give the same tags again.
    fn lacks_round(&mut self) {}
}

impl RecordFile for Vec<u8> {}
