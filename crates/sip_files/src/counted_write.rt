//! Where the bytes of an output file go.

ghost use Rattle.std.specs.Prelude.{Bool, IfSome, IsTrue, List, OnOk, ℕ, Option, None};
ghost use Rattle.std.specs.Io.{WritesAtMost};
ghost use Rattle.std.specs.Io.KnownBytes.{Keeps, WriteAppends};
ghost use Rattle.sip_files.specs.Counted.{Counts, failures_of, failures_of_write};

use std::io::{self, Write};

/// A writer that may count its writes and flushes that failed.
pub trait CountedWrite {
    // All bytes that it took, if they are known.
    ghost contents: { Self → Option (List ℕ) };

    // How many of its writes failed or took nothing, and how many flushes failed, if it tells.
    ghost failures: { Self → Option ℕ };

    // Whether all that it took is flushed, if it tells.
    ghost flushed: { Self → Option Bool };

    /// One write, as by `Write::write`.
    ///
    /// # Errors
    ///
    /// The writer's own error.
    fn write_once(&mut self, bytes: &[u8]) -> io::Result<usize>
        ensures bound { WritesAtMost result bytes.now }
        ensures bytes { WriteAppends (contents self.old) (contents self.new) result bytes.now }
        ensures failed { Counts (failures self.old) (failures self.new)
            (failures_of_write result) };

    /// One flush, as by `Write::flush`.
    ///
    /// # Errors
    ///
    /// The writer's own error.
    fn flush_once(&mut self) -> io::Result<()>
        ensures bytes { Keeps (contents self.old) (contents self.new) }
        ensures failed { Counts (failures self.old) (failures self.new) (failures_of result) }
        ensures flushed { OnOk result (IfSome (flushed self.new) (λ all. IsTrue all)) };
}

/// A writer of `std` tells neither how often it failed nor what it flushed.
impl<W: Write> CountedWrite for W {
    ghost contents = { W.contents };

    ghost failures = { λ _. None };

    ghost flushed = { λ _. None };

    fn write_once(&mut self, bytes: &[u8]) -> io::Result<usize> {
        self.write(bytes)
    }

    fn flush_once(&mut self) -> io::Result<()> {
        self.flush()
    }
}
