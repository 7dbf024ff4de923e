//! Why a round is refused.

use thiserror::Error;

/// Why a round was refused: the first reason that fits.
#[derive(Clone, Copy, Debug, PartialEq, Eq, Error)]
pub enum RoundFault {
    /// An earlier round ran out of memory.
    #[error("Broken")]
    Broken,
    /// The moment is before that of the last round.
    #[error("MomentBackwards")]
    MomentBackwards,
    /// The moment is above 2^62.
    #[error("MomentTooLarge")]
    MomentTooLarge,
    /// The round has more than 65,536 events.
    #[error("TooManyEvents")]
    TooManyEvents,
    /// The round's number would be above 2^62.
    #[error("RoundsUsedUp")]
    RoundsUsedUp,
    /// Memory ran out. If `broken`, every later call that can fail answers `Broken`.
    #[error("NoMemory")]
    NoMemory { broken: bool },
}
