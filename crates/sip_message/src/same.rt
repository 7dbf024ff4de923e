//! Whether two messages, or parts of them, are the same; so the names of events, addresses, and the
//! keys of transactions.

use crate::{
    Addr, CSeq, Header, Id, Message, NameAddr, Party, RAck, SharedKey, StartLine, Via, Vias,
};
use sip_same::{SameValue, are_same};

impl SameValue for Id {
    fn is_same(&self, other: &Id) -> bool {
        *self == *other
    }
}

impl SameValue for Addr {
    fn is_same(&self, other: &Addr) -> bool {
        *self == *other
    }
}

impl SameValue for SharedKey {
    #[tactic(auto, using(crate::proofs::SameKeys::same_keys, crate::proofs::SameKeys::equal_keys))]
    fn is_same(&self, other: &SharedKey) -> bool {
        *self == *other
    }
}

impl SameValue for StartLine {
    fn is_same(&self, other: &StartLine) -> bool {
        match (self, other) {
            (StartLine::Request { uri }, StartLine::Request { uri: other }) => uri.is_same(other),
            (
                StartLine::Response { status, reason },
                StartLine::Response {
                    status: other_status,
                    reason: other_reason,
                },
            ) => status.is_same(other_status) && reason.is_same(other_reason),
            _ => false,
        }
    }
}

impl SameValue for Via {
    fn is_same(&self, other: &Via) -> bool {
        self.transport.is_same(&other.transport)
            && self.host.is_same(&other.host)
            && self.port.is_same(&other.port)
            && self.parameters.is_same(&other.parameters)
    }
}

impl SameValue for Vias {
    fn is_same(&self, other: &Vias) -> bool {
        are_same(self.as_slice(), other.as_slice())
    }
}

impl SameValue for Party {
    fn is_same(&self, other: &Party) -> bool {
        self.display.is_same(&other.display)
            && self.uri.is_same(&other.uri)
            && self.parameters.is_same(&other.parameters)
    }
}

impl SameValue for NameAddr {
    fn is_same(&self, other: &NameAddr) -> bool {
        self.display.is_same(&other.display)
            && self.uri.is_same(&other.uri)
            && self.parameters.is_same(&other.parameters)
    }
}

impl SameValue for CSeq {
    fn is_same(&self, other: &CSeq) -> bool {
        self.number == other.number && self.method.is_same(&other.method)
    }
}

impl SameValue for RAck {
    fn is_same(&self, other: &RAck) -> bool {
        self.rseq == other.rseq && self.cseq == other.cseq && self.method.is_same(&other.method)
    }
}

impl SameValue for Header {
    fn is_same(&self, other: &Header) -> bool {
        self.name.is_same(&other.name) && self.value.is_same(&other.value)
    }
}

impl SameValue for Message {
    fn is_same(&self, other: &Message) -> bool {
        self.start.is_same(&other.start)
            && self.vias.is_same(&other.vias)
            && self.max_forwards.is_same(&other.max_forwards)
            && self.from.is_same(&other.from)
            && self.to.is_same(&other.to)
            && self.call_id.is_same(&other.call_id)
            && self.cseq.is_same(&other.cseq)
            && self.contacts.is_same(&other.contacts)
            && self.record_routes.is_same(&other.record_routes)
            && self.routes.is_same(&other.routes)
            && self.require.is_same(&other.require)
            && self.supported.is_same(&other.supported)
            && self.rseq.is_same(&other.rseq)
            && self.rack.is_same(&other.rack)
            && self.others.is_same(&other.others)
            && self.body.is_same(&other.body)
    }
}
