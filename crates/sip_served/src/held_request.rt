//! A server request that is held.

ghost use Rattle.std.specs.Prelude.{◌≡◌};
ghost use Rattle.sip_served.specs.Arrival.{held_first};

use crate::arrival::Arrival;
use crate::provisionals::Provisionals;
use sip_held_dialogs::DialogReference;
use sip_held_dialogs::request::supports_100rel;
use sip_message::{Addr, Id, Message, SharedKey, Token};
use sip_reliable::Outbound;
use sip_text::Boxed;
use std::alloc::Global;

/// The RSeq of the first reliable provisional response to a request.
const FIRST_RSEQ: u32 = 1;

/// A request that came up and of which the user was told.
pub struct HeldRequest {
    pub id: Id,
    /// The key of its transaction.
    pub key: SharedKey,
    pub request: Boxed<Message>,
    /// The address of its answers.
    pub reply_to: Addr,
    /// The To tag of its answers.
    pub tag: Token,
    /// The dialog that it came in, or that its answer made.
    pub dialog: Option<DialogReference>,
    /// The reliable provisional responses to it that were sent.
    pub ledger: Outbound,
    /// The messages of those that wait for their PRACK.
    pub provisionals: Provisionals,
    /// The 2xx to an INVITE.
    pub success: Option<Boxed<Success>>,
    /// After the final response: the moment in ms at which it is removed.
    pub removal: Option<u64>,
}

impl HeldRequest {
    /// A request that came up in this dialog, if any. No answer to it was sent. Takes no memory.
    pub(crate) fn new(
        alloc: Global,
        arrival: Arrival,
        dialog: Option<DialogReference>,
    ) -> HeldRequest
        ensures { result ≡ held_first dialog arrival }
    {
        let Arrival {
            id,
            key,
            request,
            reply_to,
            tag,
        } = arrival;
        let ledger = Outbound::new(FIRST_RSEQ, supports_100rel(request.get()));
        HeldRequest {
            id,
            key,
            request,
            reply_to,
            tag,
            dialog,
            ledger,
            provisionals: Provisionals::new(alloc),
            success: None,
            removal: None,
        }
    }
}

/// The 2xx response to an INVITE, which is sent again until its ACK comes (RFC 3261, section
/// 13.3.1.4).
pub struct Success {
    pub response: Boxed<Message>,
    /// The moment in ms at which it is given up.
    pub end: u64,
    /// When it is sent again, while its ACK is awaited.
    pub retransmission: Retransmission,
    /// None while its ACK is awaited.
    pub over: Option<SuccessEnd>,
}

/// Why a 2xx isn't sent again.
#[derive(Clone, Copy)]
pub enum SuccessEnd {
    /// Its ACK came.
    Acknowledged,
    /// Its ACK didn't come in time.
    GivenUp,
}

/// When a response is sent again, and the interval before it, both in ms.
#[derive(Clone, Copy)]
pub struct Retransmission {
    pub due: u64,
    pub interval: u64,
}

impl Drop for HeldRequest {
    fn drop(self) {
        let HeldRequest {
            id: _,
            key: _,
            request: _,
            reply_to: _,
            tag: _,
            dialog: _,
            ledger: _,
            provisionals: _,
            success: _,
            removal: _,
        } = self;
    }
}

impl Drop for Success {
    fn drop(self) {
        let Success {
            response: _,
            end: _,
            retransmission: _,
            over: _,
        } = self;
    }
}
