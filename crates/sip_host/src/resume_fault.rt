//! Why a round of a journal wasn't run again.

ghost use Rattle.std.specs.Prelude.{◌≡◌};

use sip_files::LinesFault;
use sip_round::RoundFault;
use thiserror::Error;

/// Why a round of a journal wasn't run again.
#[derive(Clone, Copy, Debug, PartialEq, Eq, Error)]
pub enum ResumeFault {
    /// Events wait for the next round, or outputs of the last round weren't taken yet.
    #[error("Busy")]
    Busy,
    /// The lines aren't those of a round, or memory ran out before the round.
    #[error("{0}")]
    Lines(LinesFault),
    /// The agent refused the round, or ran out of memory in it.
    #[error("{0}")]
    Round(RoundFault),
}

impl From<LinesFault> for ResumeFault {
    ghost use Rattle.sip_host.specs.declared.resume_fault.ResumeFault.TheVariants.{Lines};

    ghost from_gives = { λ why fault. fault ≡ Lines why };

    fn from(why: LinesFault) -> ResumeFault {
        ResumeFault::Lines(why)
    }
}

impl From<RoundFault> for ResumeFault {
    ghost use Rattle.sip_host.specs.declared.resume_fault.ResumeFault.TheVariants.{Round};

    ghost from_gives = { λ why fault. fault ≡ Round why };

    fn from(why: RoundFault) -> ResumeFault {
        ResumeFault::Round(why)
    }
}
