//! Dialogs that are held alike.

use crate::held_dialog::{DialogId, DialogReference, HeldDialog};
use crate::pending_request::PendingRequest;
use sip_same::SameValue;

impl SameValue for DialogId {
    fn is_same(&self, other: &DialogId) -> bool {
        self.local.is_same(&other.local) && self.remote.is_same(&other.remote)
    }
}

impl SameValue for DialogReference {
    fn is_same(&self, other: &DialogReference) -> bool {
        self.name.is_same(&other.name) && self.created_by.is_same(&other.created_by)
    }
}

impl SameValue for PendingRequest {
    fn is_same(&self, other: &PendingRequest) -> bool {
        match (self, other) {
            (
                PendingRequest::Ack { invite, number },
                PendingRequest::Ack {
                    invite: other_invite,
                    number: other_number,
                },
            ) => invite.is_same(other_invite) && number.is_same(other_number),
            (
                PendingRequest::Prack { rseq, number },
                PendingRequest::Prack {
                    rseq: other_rseq,
                    number: other_number,
                },
            ) => rseq.is_same(other_rseq) && number.is_same(other_number),
            _ => false,
        }
    }
}

impl SameValue for HeldDialog {
    fn is_same(&self, other: &HeldDialog) -> bool {
        self.dialog.is_same(&other.dialog)
            && self.address.is_same(&other.address)
            && self.invite.is_same(&other.invite)
            && self.created_by.is_same(&other.created_by)
            && self.last_rseq.is_same(&other.last_rseq)
            && self.pending_requests.is_same(&other.pending_requests)
    }
}
