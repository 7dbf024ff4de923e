//! What is owed in a dialog.

use sip_message::Id;

/// A request that a response to an INVITE asked for and that hasn't been sent yet.
#[derive(Clone, Copy, Drop)]
pub enum PendingRequest {
    /// The ACK of a 2xx, to the INVITE of this id and CSeq number (RFC 3261, section 13.2.2.4).
    Ack { invite: Id, number: u32 },
    /// The PRACK of a reliable provisional response with this RSeq, to the INVITE of this CSeq
    /// number (RFC 3262, section 4).
    Prack { rseq: u32, number: u32 },
}
