//! A client request that is held.

ghost use Rattle.std.specs.Prelude.{◌≡◌};
ghost use Rattle.sip_clients.specs.Client as spec;

use crate::answers::Answers;
use seeded_hash::HashSeed;
use sip_held_dialogs::DialogReference;
use sip_message::{Addr, Id, Message};
use sip_reliable::Inbound;
use std::alloc::Global;

/// What a client request is for.
pub enum RequestKind {
    /// The INVITE of a call, whose responses make dialogs (RFC 3261, section 13.2).
    InitialInvite,
    /// An INVITE in this dialog (RFC 3261, section 14.1).
    ReInvite(DialogReference),
    /// Any other request in this dialog (RFC 3261, section 12.2.1).
    InDialog(DialogReference),
    /// Any other request outside of dialogs.
    OutOfDialog,
}

/// Whether a CANCEL of an INVITE was asked for.
#[derive(Clone, Copy)]
pub enum Cancelling {
    NotAsked,
    /// By the event of this id. The CANCEL waits for a provisional response.
    Waits(Id),
    Sent,
}

/// A request that was sent. The user is told of its responses.
pub struct Client {
    /// The event that sent it, by which it is found.
    pub id: Id,
    pub kind: RequestKind,
    pub request: Message,
    /// The address to which it was sent.
    pub to: Addr,
    /// Whether a provisional response to it came.
    pub provisional: bool,
    pub cancel: Cancelling,
    /// For a re-INVITE: the latest RSeq that was taken, if any.
    pub last_rseq: Inbound,
    /// The 2xx responses to an INVITE.
    pub answers: Answers,
    /// Set by the first 2xx: the moment in ms at which the INVITE is removed.
    pub removal: Option<u64>,
}

/// A request that was just sent. The hashes of the dialogs of its 2xx have this seed.
pub(crate) fn client_for(
    alloc: Global,
    hash_seed: HashSeed,
    id: Id,
    kind: RequestKind,
    request: Message,
    to: Addr,
) -> Client
    ensures { result ≡ spec.client_for id kind request to }
{
    Client {
        id,
        kind,
        request,
        to,
        provisional: false,
        cancel: Cancelling::NotAsked,
        last_rseq: Inbound::new(),
        answers: Answers::new(alloc, hash_seed),
        removal: None,
    }
}

impl Drop for RequestKind {
    fn drop(self) {
        match self {
            RequestKind::InitialInvite | RequestKind::OutOfDialog => {}
            RequestKind::ReInvite(_) => {}
            RequestKind::InDialog(_) => {}
        }
    }
}

impl Drop for Client {
    fn drop(self) {
        let Client {
            id: _,
            kind: _,
            request: _,
            to: _,
            provisional: _,
            cancel: _,
            last_rseq: _,
            answers: _,
            removal: _,
        } = self;
    }
}
