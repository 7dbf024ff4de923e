//! Why a shard refuses a call.

ghost use Rattle.keyed_machine.specs.declared.fault.ShardFault.TheVariants.{NoMemory};
ghost use Rattle.std.specs.Prelude.{◌≡◌};

use std::alloc::{AllocError, AllocFailed};
use thiserror::Error;

/// Why a shard refused a call.
#[derive(Clone, Copy, Debug, PartialEq, Eq, Error)]
pub enum ShardFault {
    /// An earlier call ran out of memory.
    #[error("broken by an earlier want of memory")]
    Broken,
    /// Memory ran out. From then on every call that can fail answers `Broken`.
    #[error("no memory")]
    NoMemory,
}

impl From<AllocError> for ShardFault {
    ghost from_gives = { λ _ fault. fault ≡ NoMemory };

    fn from(_error: AllocError) -> ShardFault {
        ShardFault::NoMemory
    }
}
