//! Calls that are the same.

use crate::call::Call;
use crate::calls::Calls;
use keyed_machine::ComparableMachine;
use sip_same::SameValue;

impl SameValue for Call {
    fn is_same(&self, other: &Call) -> bool {
        self.served.is_same(&other.served) && self.clients.is_same(&other.clients)
    }
}

impl ComparableMachine for Calls {
    fn is_same_state(&self, state: &Call, other: &Call) -> bool {
        state.is_same(other)
    }
}

impl SameValue for Calls {
    fn is_same(&self, other: &Calls) -> bool {
        self.local.is_same(&other.local) && self.seed == other.seed
    }
}
