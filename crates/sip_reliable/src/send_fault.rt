//! Why a reliable provisional response can't be sent.

use std::error::Error;
use std::fmt;

/// Why a reliable provisional response can't be sent: the first reason that fits.
#[derive(Clone, Copy, Debug, PartialEq, Eq)]
pub enum SendFault {
    /// A final response was sent.
    Closed,
    /// The peer doesn't support 100rel.
    NotSupported,
    /// The first one sent still waits for its PRACK, or 8 do, or one that was given up does.
    Unacknowledged,
    /// The last number was 4,294,967,295.
    NumbersUsedUp,
}

impl fmt::Display for SendFault {
    fn fmt<W: fmt::Write>(&self, f: &mut fmt::Formatter<W>) -> fmt::Result {
        match self {
            SendFault::Closed => write!(f, "a final response was sent"),
            SendFault::NotSupported => write!(f, "100rel is not supported"),
            SendFault::Unacknowledged => write!(
                f,
                "reliable provisional responses are not acknowledged"
            ),
            SendFault::NumbersUsedUp => write!(f, "the RSeq numbers are used up"),
        }
    }
}

impl Error for SendFault {}
