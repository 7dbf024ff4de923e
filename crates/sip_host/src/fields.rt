//! The fields of commands, as texts that a host hasn't checked.

use sip_message::{Addr, Id};
use sip_user::{ProvisionalSupport, Reliability};

/// A command by its fields.
#[derive(Clone, Copy)]
pub enum CommandFields<'a> {
    /// Starts a call: a first INVITE to an address.
    Invite(InviteFields<'a>),
    /// Sends a request outside of any dialog.
    Plain(PlainFields<'a>),
    /// Sends a request in a dialog.
    Request(RequestFields<'a>),
    /// Sends a response to a request.
    Respond(RespondFields<'a>),
    /// Sends the ACK of the oldest 2xx of a dialog that is owed one.
    Ack(BodyFields<'a>),
    /// Sends the PRACK of the oldest provisional response of a dialog that is owed one.
    Prack(BodyFields<'a>),
    /// Cancels an INVITE that was sent. A CANCEL takes no headers.
    Cancel(CancelFields<'a>),
    /// Gives up a request that was sent: it is no longer held, and nothing more is sent or told of
    /// it. Takes no headers.
    AbandonRequest(AbandonRequestFields<'a>),
    /// Gives up a dialog: it ends, and nothing is sent. Takes no headers.
    AbandonDialog(AbandonDialogFields<'a>),
}

/// The fields of a first INVITE, which goes to an address.
#[derive(Clone, Copy)]
pub struct InviteFields<'a> {
    pub call_id: &'a [u8],
    pub address: Addr,
    pub request_uri: &'a [u8],
    pub from: &'a [u8],
    pub to: &'a [u8],
    pub support: ProvisionalSupport,
    pub body: &'a [u8],
}

/// The fields of a request outside of any dialog.
#[derive(Clone, Copy)]
pub struct PlainFields<'a> {
    pub call_id: &'a [u8],
    pub address: Addr,
    pub method: &'a [u8],
    pub request_uri: &'a [u8],
    pub from: &'a [u8],
    pub to: &'a [u8],
    pub body: &'a [u8],
}

/// The fields of a request in a dialog. An absent tag is empty.
#[derive(Clone, Copy)]
pub struct RequestFields<'a> {
    pub call_id: &'a [u8],
    pub local_tag: &'a [u8],
    pub remote_tag: &'a [u8],
    pub method: &'a [u8],
    pub body: &'a [u8],
}

/// The fields of a response to a request.
#[derive(Clone, Copy)]
pub struct RespondFields<'a> {
    pub call_id: &'a [u8],
    /// The request that is answered.
    pub id: Id,
    pub status: u16,
    pub reliability: Reliability,
    pub reason: &'a [u8],
    pub body: &'a [u8],
}

/// The fields of an ACK or a PRACK in a dialog. An absent tag is empty.
#[derive(Clone, Copy)]
pub struct BodyFields<'a> {
    pub call_id: &'a [u8],
    pub local_tag: &'a [u8],
    pub remote_tag: &'a [u8],
    pub body: &'a [u8],
}

/// The fields of a command that gives a request up.
#[derive(Clone, Copy)]
pub struct AbandonRequestFields<'a> {
    pub call_id: &'a [u8],
    /// The request that is given up.
    pub id: Id,
}

/// The fields of a command that gives a dialog up. An absent tag is empty.
#[derive(Clone, Copy)]
pub struct AbandonDialogFields<'a> {
    pub call_id: &'a [u8],
    pub local_tag: &'a [u8],
    pub remote_tag: &'a [u8],
}

/// The fields of a CANCEL.
#[derive(Clone, Copy)]
pub struct CancelFields<'a> {
    pub call_id: &'a [u8],
    /// The INVITE that is cancelled.
    pub id: Id,
}
