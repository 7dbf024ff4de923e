//! Server requests that are held alike.

use crate::held_request::{HeldRequest, Retransmission, Success, SuccessEnd};
use crate::provisionals::{Provisionals, ReliableResponse};
use sip_same::{SameValue, are_same};

impl SameValue for Retransmission {
    fn is_same(&self, other: &Retransmission) -> bool {
        self.due == other.due && self.interval == other.interval
    }
}

impl SameValue for SuccessEnd {
    fn is_same(&self, other: &SuccessEnd) -> bool {
        match (self, other) {
            (SuccessEnd::Acknowledged, SuccessEnd::Acknowledged) => true,
            (SuccessEnd::GivenUp, SuccessEnd::GivenUp) => true,
            _ => false,
        }
    }
}

impl SameValue for Success {
    fn is_same(&self, other: &Success) -> bool {
        self.response.is_same(&other.response)
            && self.end == other.end
            && self.retransmission.is_same(&other.retransmission)
            && self.over.is_same(&other.over)
    }
}

impl SameValue for ReliableResponse {
    fn is_same(&self, other: &ReliableResponse) -> bool {
        self.number == other.number && self.response.is_same(&other.response)
    }
}

impl SameValue for Provisionals {
    fn is_same(&self, other: &Provisionals) -> bool {
        are_same(self.as_slice(), other.as_slice())
    }
}

impl SameValue for HeldRequest {
    fn is_same(&self, other: &HeldRequest) -> bool {
        self.id.is_same(&other.id)
            && self.key.is_same(&other.key)
            && self.request.is_same(&other.request)
            && self.reply_to.is_same(&other.reply_to)
            && self.tag.is_same(&other.tag)
            && self.dialog.is_same(&other.dialog)
            && self.ledger.is_same(&other.ledger)
            && self.provisionals.is_same(&other.provisionals)
            && self.success.is_same(&other.success)
            && self.removal.is_same(&other.removal)
    }
}
