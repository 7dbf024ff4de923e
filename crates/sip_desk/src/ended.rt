//! What is left of a poster, if anything.

use rtrb::Finished;
use std::error::Error;
use std::fmt;

/// What is left of a poster that has finished. It shows all that was posted on its line.
#[derive(Drop)]
pub struct Ended<E> {
    pub(crate) line: usize,
    pub(crate) ring: Finished<E>,
}

/// The desk was gone before the poster finished, so its line is never settled.
#[derive(Clone, Copy, Debug, PartialEq, Eq)]
pub struct Unfinished;

impl fmt::Display for Unfinished {
    ghost use Rattle.std.specs.Prelude.{Some, codes};

    ghost output = { λ _. Some (codes "the desk is gone") };

    fn fmt<W: fmt::Write>(&self, f: &mut fmt::Formatter<W>) -> fmt::Result {
        write!(f, "the desk is gone")
    }
}

impl Error for Unfinished {}
