//! Why lines aren't those of one round.

ghost use Rattle.std.specs.Prelude.{◌≡◌};

use std::alloc::AllocError;
use thiserror::Error;

/// Why lines aren't those of one round: the first reason that fits.
#[derive(Clone, Copy, Debug, PartialEq, Eq, Error)]
pub enum LinesFault {
    /// With the head of a session they are over 2^26 bytes.
    #[error("round too long")]
    TooLong,
    /// The first line that breaks a rule, numbered from 1.
    #[error("round line {0}")]
    BadLine(u64),
    /// They are the lines of no round or of several.
    #[error("not one round")]
    NotOne,
    #[error("no memory")]
    NoMemory,
}

impl From<AllocError> for LinesFault {
    ghost use Rattle.sip_files.specs.declared.lines_fault.LinesFault.TheVariants.{NoMemory};

    ghost from_gives = { λ _ fault. fault ≡ NoMemory };

    fn from(_error: AllocError) -> LinesFault {
        LinesFault::NoMemory
    }
}
