//! The outputs of a round.

use sip_message::{Addr, SharedKey};
use sip_text::Text;
use sip_transactions::DropReason;
use sip_user::Notice;

/// One output of a round.
#[derive(Drop)]
pub enum Output {
    /// A datagram to send. The key is that of its transaction; there is none if the send belongs to
    /// no transaction.
    Send {
        key: Option<SharedKey>,
        to: Addr,
        bytes: Text,
    },
    /// The datagram at this place was dropped.
    Dropped {
        place: u32,
        reason: DropReason,
    },
    /// The user is told this.
    Notice(Notice),
}

/// An output with the place of the event that it belongs to.
#[derive(Drop)]
pub struct PlacedOutput {
    /// From 1, as the events stand in their round. It is 0 if the output comes at the round's
    /// ticks, or if a command of a call sends it.
    pub place: u32,
    pub output: Output,
}
