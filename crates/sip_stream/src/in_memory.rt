//! A reader of bytes in memory, which never fails.

ghost use Rattle.std.specs.Prelude.{None, Some};

use sip_files::CountedRead;
use std::io::{self, Read};

/// The bytes of a text that weren't read yet.
#[derive(Drop)]
pub(crate) struct InMemory<'a> {
    pub(crate) left: &'a [u8],
}

impl CountedRead for InMemory<'_> {
    ghost remaining = { λ text. Some text.left.now };

    ghost reads = { λ _. None };

    ghost failures = { λ _. Some 0 };

    fn read_once(&mut self, buf: &mut [u8]) -> io::Result<usize> {
        self.left.read(buf)
    }
}
