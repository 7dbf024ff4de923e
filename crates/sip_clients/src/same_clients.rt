//! Client requests that are held alike.

use crate::answers::SentAck;
use crate::client::{Cancelling, Client, RequestKind};
use sip_same::SameValue;

impl SameValue for RequestKind {
    fn is_same(&self, other: &RequestKind) -> bool {
        match (self, other) {
            (RequestKind::InitialInvite, RequestKind::InitialInvite) => true,
            (RequestKind::ReInvite(dialog), RequestKind::ReInvite(other)) => dialog.is_same(other),
            (RequestKind::InDialog(dialog), RequestKind::InDialog(other)) => dialog.is_same(other),
            (RequestKind::OutOfDialog, RequestKind::OutOfDialog) => true,
            _ => false,
        }
    }
}

impl SameValue for Cancelling {
    fn is_same(&self, other: &Cancelling) -> bool {
        match (self, other) {
            (Cancelling::NotAsked, Cancelling::NotAsked) => true,
            (Cancelling::Waits(id), Cancelling::Waits(other)) => id.is_same(other),
            (Cancelling::Sent, Cancelling::Sent) => true,
            _ => false,
        }
    }
}

impl SameValue for SentAck {
    fn is_same(&self, other: &SentAck) -> bool {
        self.to.is_same(&other.to) && self.bytes.is_same(&other.bytes)
    }
}

impl SameValue for Client {
    fn is_same(&self, other: &Client) -> bool {
        self.id.is_same(&other.id)
            && self.kind.is_same(&other.kind)
            && self.request.is_same(&other.request)
            && self.to.is_same(&other.to)
            && self.provisional.is_same(&other.provisional)
            && self.cancel.is_same(&other.cancel)
            && self.last_rseq.is_same(&other.last_rseq)
            && self.answers.is_same(&other.answers)
            && self.removal.is_same(&other.removal)
    }
}
