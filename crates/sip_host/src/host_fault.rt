//! Why a call of a host was refused.

ghost use Rattle.std.specs.Prelude.{◌≡◌};

use crate::field::Field;
use sip_round::RoundFault;
use std::alloc::AllocError;
use thiserror::Error;

/// Why a call was refused.
#[derive(Clone, Copy, Debug, PartialEq, Eq, Error)]
pub enum HostFault {
    /// The line isn't that of an event.
    #[error("BadLine")]
    BadLine,
    /// A part of a command doesn't keep its rule.
    #[error("BadField")]
    BadField(Field),
    /// The next round has 65,536 events already.
    #[error("TooManyEvents")]
    TooManyEvents,
    /// The last round has no send with this index.
    #[error("NoSend")]
    NoSend,
    /// Outputs of the last round weren't taken yet.
    #[error("OutputsLeft")]
    OutputsLeft,
    /// The agent refused the round, or ran out of memory in it.
    #[error("{0}")]
    Round(RoundFault),
    /// Memory ran out.
    #[error("NoMemory")]
    NoMemory,
}

impl From<AllocError> for HostFault {
    ghost use Rattle.sip_host.specs.declared.host_fault.HostFault.TheVariants.{NoMemory};

    ghost from_gives = { λ _ fault. fault ≡ NoMemory };

    fn from(_error: AllocError) -> HostFault {
        HostFault::NoMemory
    }
}
