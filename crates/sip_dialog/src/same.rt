//! Whether two dialogs, or ends of them, are the same.

use crate::{Dialog, Endpoint};
use sip_same::{SameValue, are_same};

impl SameValue for Endpoint {
    fn is_same(&self, other: &Endpoint) -> bool {
        self.uri.is_same(&other.uri) && self.tag.is_same(&other.tag)
    }
}

impl SameValue for Dialog {
    fn is_same(&self, other: &Dialog) -> bool {
        self.side() == other.side()
            && self.state() == other.state()
            && self.call_id().is_same(other.call_id())
            && self.local().is_same(other.local())
            && self.remote().is_same(other.remote())
            && self.target().is_same(other.target())
            && are_same(self.route_set(), other.route_set())
            && self.local_cseq() == other.local_cseq()
            && self.remote_cseq().is_same(&other.remote_cseq())
    }
}
