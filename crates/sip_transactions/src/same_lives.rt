//! Lives that are the same.

use crate::life::{Context, Life};
use crate::machine::Transactions;
use keyed_machine::ComparableMachine;
use sip_same::SameValue;

impl SameValue for Life {
    fn is_same(&self, other: &Life) -> bool {
        self.state == other.state && self.context.is_same(&other.context)
    }
}

impl SameValue for Context {
    fn is_same(&self, other: &Context) -> bool {
        self.id.is_same(&other.id)
            && self.call_id.is_same(&other.call_id)
            && self.to.is_same(&other.to)
            && self.request.is_same(&other.request)
            && self.last.is_same(&other.last)
            && self.timers.is_same(&other.timers)
    }
}

impl ComparableMachine for Transactions {
    fn is_same_state(&self, state: &Life, other: &Life) -> bool {
        state.is_same(other)
    }
}
