//! What a transaction says.

use sip_message::{Addr, CallId, Id, Message, ReadFault, SharedKey};
use sip_text::{Boxed, Text};

/// What is handed up to the call.
#[derive(Drop)]
pub enum UpKind {
    /// The request that began the transaction, and the address of its answers.
    Request(Boxed<Message>, Addr),
    /// An ACK.
    Ack(Boxed<Message>),
    /// A response.
    Response(Boxed<Message>),
    /// No final response came in time, or no ACK.
    Timeout,
    /// A send failed.
    Failed,
}

/// Something handed up, under the id and the Call-ID of the input that began the transaction's
/// life.
#[derive(Drop)]
pub struct Up {
    pub key: SharedKey,
    pub id: Id,
    pub call_id: CallId,
    pub kind: UpKind,
}

/// Why a datagram was dropped.
#[derive(Clone, Copy, Debug, PartialEq, Eq)]
pub enum DropReason {
    /// A response whose top Via names another sender.
    NotOurs,
    /// A response to no transaction.
    NoTransaction,
    /// The datagram spells no message.
    Unreadable(ReadFault),
}

/// What a transaction says.
#[derive(Drop)]
pub enum Out {
    /// It hands something up.
    Up(Up),
    /// It sends bytes.
    Send {
        key: SharedKey,
        to: Addr,
        bytes: Text,
    },
    /// It drops the message of the event at this place.
    Dropped {
        place: u32,
        reason: DropReason,
    },
}
