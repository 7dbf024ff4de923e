//! Why a replay round by round stopped.

ghost use Rattle.std.specs.Prelude.{◌≡◌};

use sip_files::{EventsFault, LinesFault};
use sip_round::RoundFault;
use std::alloc::AllocError;
use thiserror::Error;

/// Why a replay round by round stopped. The outputs of the rounds before were written.
#[derive(Clone, Copy, Debug, PartialEq, Eq, Error)]
pub enum StreamFault {
    /// A read failed.
    #[error("input failed")]
    Input,
    /// The lines before the first round aren't the head of a file of its kind.
    #[error("{0}")]
    Head(EventsFault),
    /// The lines of the round with this index, from 0, aren't those of a round.
    #[error("round {0}: {1}")]
    Lines(u64, LinesFault),
    /// The round with this index, from 0, was refused.
    #[error("round {0}: {1}")]
    Round(u64, RoundFault),
    /// A write failed. The front of the outputs of its round may have been written.
    #[error("output failed")]
    Output,
    #[error("no memory")]
    NoMemory,
}

impl From<AllocError> for StreamFault {
    ghost use Rattle.sip_stream.specs.declared.stream_fault.StreamFault.TheVariants.{NoMemory};

    ghost from_gives = { λ _ fault. fault ≡ NoMemory };

    fn from(_error: AllocError) -> StreamFault {
        StreamFault::NoMemory
    }
}
