//! Why a text isn't an event file.

ghost use Rattle.std.specs.Prelude.{◌≡◌};

use std::alloc::AllocError;
use thiserror::Error;

/// Why a text isn't an event file: the first reason that fits.
#[derive(Clone, Copy, Debug, PartialEq, Eq, Error)]
pub enum EventsFault {
    /// Over 2^26 bytes.
    #[error("event file too long")]
    TooLong,
    /// The first line doesn't name a version that can be read.
    #[error("event file version")]
    BadVersion,
    /// The first line that breaks a rule, numbered from 1.
    #[error("event file line {0}")]
    BadLine(u64),
    #[error("no memory")]
    NoMemory,
}

impl From<AllocError> for EventsFault {
    ghost use Rattle.sip_files.specs.declared.events_fault.EventsFault.TheVariants.{NoMemory};

    ghost from_gives = { λ _ fault. fault ≡ NoMemory };

    fn from(_error: AllocError) -> EventsFault {
        EventsFault::NoMemory
    }
}
