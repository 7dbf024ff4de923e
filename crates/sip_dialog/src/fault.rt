//! Why a dialog refuses a call.

ghost use Rattle.sip_dialog.specs.declared.fault.DialogFault.TheVariants.{NoMemory};
ghost use Rattle.std.specs.Prelude.{◌≡◌};

use std::alloc::AllocError;
use thiserror::Error;

/// Why a dialog refused a call. Then it is unchanged.
#[derive(Clone, Copy, Debug, PartialEq, Eq, Error)]
pub enum DialogFault {
    /// The local CSeq is 2^31 - 1 or more, and the next one has to be below 2^31 (RFC 3261, section
    /// 8.1.1.5).
    #[error("the sequence numbers are used up")]
    SequenceUsedUp,
    /// The dialog is early, and an INVITE or an ACK was asked for.
    #[error("the dialog is early")]
    NotConfirmed,
    /// The dialog has ended.
    #[error("the dialog has ended")]
    Ended,
    /// The first route is a strict router: its URI has no parameter `lr` (RFC 3261, section
    /// 19.1.1).
    #[error("the first route is a strict router")]
    StrictRoute,
    /// The number isn't above the remote CSeq.
    #[error("the sequence number is out of order")]
    OutOfOrder,
    /// Memory ran out.
    #[error("no memory")]
    NoMemory,
}

impl From<AllocError> for DialogFault {
    ghost from_gives = { λ _ fault. fault ≡ NoMemory };

    fn from(_error: AllocError) -> DialogFault {
        DialogFault::NoMemory
    }
}
