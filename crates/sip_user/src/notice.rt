//! What the user is told of a call.

use crate::refusal::Refusal;
use sip_message::{CallId, Id, StatusCode, Token};
use sip_text::Text;

/// What the user is told of a call. A tag is empty if the message has none.
#[derive(Drop)]
pub enum Notice {
    /// A request came up and is held.
    Request {
        call_id: CallId,
        id: Id,
        method: Token,
        /// The tag that its responses carry in To.
        local_tag: Text,
        remote_tag: Text,
        body: Text,
    },
    /// A response to a client request came up.
    Response {
        call_id: CallId,
        id: Id,
        status: StatusCode,
        local_tag: Text,
        remote_tag: Text,
        body: Text,
    },
    /// The ACK of the 2xx to an INVITE came up.
    Ack {
        call_id: CallId,
        id: Id,
        body: Text,
    },
    /// The PRACK of a reliable provisional response to an INVITE came up.
    Prack {
        call_id: CallId,
        id: Id,
        rseq: u32,
        body: Text,
    },
    /// A transaction timed out.
    Timeout {
        call_id: CallId,
        id: Id,
    },
    /// A message of a transaction could not be sent.
    Failed {
        call_id: CallId,
        id: Id,
    },
    /// No ACK came for the 2xx to an INVITE.
    NoAck {
        call_id: CallId,
        id: Id,
    },
    /// No PRACK came for a reliable provisional response.
    NoPrack {
        call_id: CallId,
        id: Id,
    },
    /// The peer cancelled an INVITE.
    Cancel {
        call_id: CallId,
        id: Id,
    },
    /// A dialog ended.
    Ended {
        call_id: CallId,
        local_tag: Text,
        remote_tag: Text,
    },
    /// The command at this place in the round was refused.
    Refused {
        call_id: CallId,
        place: u32,
        refusal: Refusal,
    },
}
