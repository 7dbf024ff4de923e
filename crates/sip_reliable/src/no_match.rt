//! The only error of an acknowledgment.

use std::error::Error;
use std::fmt;

/// A PRACK names no reliable provisional response that waits for a PRACK.
#[derive(Clone, Copy, Debug, PartialEq, Eq)]
pub struct NoMatch;

impl fmt::Display for NoMatch {
    fn fmt<W: fmt::Write>(&self, f: &mut fmt::Formatter<W>) -> fmt::Result {
        write!(f, "no such reliable provisional response waits")
    }
}

impl Error for NoMatch {}
