//! Why a user agent stopped before its last turn.

ghost use Rattle.std.specs.Prelude.{◌≡◌};

use sip_files::LinesFault;
use sip_round::RoundFault;
use std::alloc::AllocError;
use thiserror::Error;

/// Why a user agent stopped before its last turn.
#[derive(Clone, Copy, Debug, PartialEq, Eq, Error)]
pub enum UaFault {
    /// The socket can't be used, the clock fails, or a thread can't be started.
    #[error("socket failed")]
    Socket,
    /// The pipe can't be read.
    #[error("input failed")]
    Input,
    /// The notices can't be written.
    #[error("output failed")]
    Output,
    /// The round with this number was refused.
    #[error("round {number}: {fault}")]
    Round { number: u64, fault: RoundFault },
    /// The journal can't be read, written or cut. What it doesn't have isn't sent.
    #[error("journal failed")]
    Journal,
    /// The file of the journal begins with something else.
    #[error("not a journal")]
    NoJournal,
    /// The lines of the round with this number, in the journal, aren't those of a round.
    #[error("journal round {number}: {fault}")]
    JournalLines { number: u64, fault: LinesFault },
    /// No 2xx came to a call that had to be answered.
    #[error("not answered")]
    NotAnswered,
    #[error("no memory")]
    NoMemory,
}

impl From<AllocError> for UaFault {
    ghost use Rattle.sip_udp.specs.declared.fault.UaFault.TheVariants.{NoMemory};

    ghost from_gives = { λ _ fault. fault ≡ NoMemory };

    fn from(_error: AllocError) -> UaFault {
        UaFault::NoMemory
    }
}

impl From<sip_round::NoMemory> for UaFault {
    ghost use Rattle.sip_udp.specs.declared.fault.UaFault.TheVariants.{NoMemory};

    ghost from_gives = { λ _ fault. fault ≡ NoMemory };

    fn from(_error: sip_round::NoMemory) -> UaFault {
        UaFault::NoMemory
    }
}
