//! What is held of a transaction.

ghost use Rattle.std.specs.Prelude.{◌≡◌, ◌≤◌, ◌^◌, None, Some, if◌then◌else◌};
ghost use Rattle.std.specs.Option.{option_copied};
ghost use Rattle.sip_transactions.specs.Steps.Life.{armed, context_by, last_of, life_after};
ghost use Rattle.sip_transactions.specs.Timers.{IsTimely};

use crate::state::State;
use crate::step::{Due, Next, Step};
use crate::timers::Timers;
use sip_message::{Addr, CallId, Id, Message};
use sip_text::{Boxed, Text};

/// A life of a transaction: from the input that made it to the one that ends it.
#[derive(Drop)]
pub struct Life {
    pub state: State,
    pub context: Context,
}

/// What is held of a transaction, apart from its state.
#[derive(Drop)]
pub struct Context {
    /// The event of the first input.
    pub id: Id,
    /// The Call-ID of the first input.
    pub call_id: CallId,
    /// The address to which it sends.
    pub to: Addr,
    /// The INVITE that its client was started with. ACKs are made from it.
    pub request: Option<Boxed<Message>>,
    /// What it sent last.
    pub last: Option<Text>,
    /// When that is retransmitted, and when the life ends.
    pub timers: Timers,
}

impl Context {
    /// The context with which an input with this id and Call-ID begins a life: nothing was sent
    /// yet, and nothing is due.
    pub(crate) fn new(id: Id, call_id: CallId, to: Addr, request: Option<Boxed<Message>>) -> Context
        ensures { result ≡ context_by id call_id to request }
    {
        Context {
            id,
            call_id,
            to,
            request,
            last: None,
            timers: Timers::new(),
        }
    }

    /// The INVITE that its client was started with.
    pub(crate) fn request(&self) -> Option<&Message>
        ensures { option_copied result ≡ self.now.request }
    {
        match &self.request {
            None => None,
            Some(request) => Some(request.get()),
        }
    }

    /// Begins a life by a row that made a message with these bytes, if there is a state after the
    /// row.
    #[tactic(auto, unfolding(crate::specs::Steps::Life::life_after))]
    pub(crate) fn begin(mut self, step: Step, now: u64, made: Option<Text>) -> Option<Life>
        requires bound { now ≤ 2 ^ 62 }
        requires timely { IsTimely step.due now self.timers }
        ensures { result ≡ life_after None self step now made }
    {
        let Next::Become(state) = step.next else {
            return None;
        };
        self.go_on(step.due, now, made);
        Some(Life {
            state,
            context: self,
        })
    }

    // Notes what a row sent, and the due moments after it.
    fn go_on(&mut self, due: Due, now: u64, made: Option<Text>)
        requires bound { now ≤ 2 ^ 62 }
        requires timely { IsTimely due now self.old.timers }
        ensures { self.new ≡ armed due now (last_of made self.old) }
    {
        if let Some(bytes) = made {
            self.last = Some(bytes);
        }
        self.timers.rearm(due, now);
    }
}

impl Life {
    /// Takes a row that made a message with these bytes. Returns whether the life goes on.
    #[tactic(auto, unfolding(crate::specs::Steps::Life::life_after))]
    pub(crate) fn go_on(&mut self, step: Step, now: u64, made: Option<Text>) -> bool
        requires bound { now ≤ 2 ^ 62 }
        requires timely { IsTimely step.due now self.old.context.timers }
        ensures { (if result then Some self.new else None)
            ≡ life_after (Some self.old.state) self.old.context step now made }
    {
        self.context.go_on(step.due, now, made);
        match step.next {
            Next::Same => true,
            Next::Ended => false,
            Next::Become(state) => {
                self.state = state;
                true
            }
        }
    }
}
