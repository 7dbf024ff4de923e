//! Where the bytes of an event file come from.

ghost use Rattle.std.specs.Prelude.{List, ℕ, Option, None};
ghost use Rattle.std.specs.Io.{ReadsAtMost};
ghost use Rattle.std.specs.Io.KnownBytes.{ReadConsumes};
ghost use Rattle.sip_files.specs.Counted.{Counts, failures_of};

use std::io::{self, Read};

/// A reader that may count its reads and those that failed.
pub trait CountedRead {
    // The bytes that are left, if they are known.
    ghost remaining: { Self → Option (List ℕ) };

    // How often it was read, if it tells.
    ghost reads: { Self → Option ℕ };

    // How many of its reads failed, if it tells.
    ghost failures: { Self → Option ℕ };

    /// One read, as by `Read::read`.
    ///
    /// # Errors
    ///
    /// The reader's own error.
    fn read_once(&mut self, buf: &mut [u8]) -> io::Result<usize>
        ensures bound { ReadsAtMost result buf.new }
        ensures bytes { ReadConsumes (remaining self.old) (remaining self.new) result buf.new }
        ensures counted { Counts (reads self.old) (reads self.new) 1 }
        ensures failed { Counts (failures self.old) (failures self.new) (failures_of result) };
}

/// A reader of `std` tells neither how often it was read nor how often that failed.
impl<R: Read> CountedRead for R {
    ghost remaining = { R.remaining };

    ghost reads = { λ _. None };

    ghost failures = { λ _. None };

    fn read_once(&mut self, buf: &mut [u8]) -> io::Result<usize> {
        self.read(buf)
    }
}
