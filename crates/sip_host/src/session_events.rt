//! The events that a host was given for its next round. A session may have each.

ghost use Rattle.std.specs.Prelude.{◌≡◌, ◌++◌, ◌∷◌, [], length, OnErr, OnOk};
ghost use Rattle.sip_files.specs.Written.{FitsSession};

use crate::session_round::SessionRound;
use sip_round::{Event, Round};
use sip_text::Series;
use std::alloc::{AllocError, Global};
use std::marker::Model;

/// Events of which a session may have each. A contract sees the list of them.
pub(crate) struct SessionEvents {
    pub(crate) events: Series<Event>,
}

impl Model for SessionEvents {
    ghost use Rattle.std.specs.Prelude.{List};
    ghost use Rattle.std.specs.List.{AllByRecursion};
    ghost use Rattle.sip_files.specs.Written.{FitsSession};
    ghost use Rattle.sip_round.specs.declared.round.Event.{Event};

    ghost Value = { List Event };

    ghost view = { λ a. a.events };

    ghost invariant = { λ a. AllByRecursion FitsSession a.events };
}

impl SessionEvents {
    /// No events. Takes no memory.
    pub(crate) fn new(alloc: Global) -> SessionEvents
        ensures { result ≡ [] }
    {
        SessionEvents {
            events: Series::new(alloc),
        }
    }

    pub(crate) fn len(&self) -> usize
        ensures { result ≡ length self.now }
    {
        self.events.len()
    }

    /// Adds an event at the end. If memory runs out, the events stay as they are.
    pub(crate) fn push(&mut self, event: Event) -> Result<(), AllocError>
        requires { FitsSession event }
        ensures ok { OnOk result (self.new ≡ self.old ++ event ∷ []) }
        ensures err { OnErr result (self.new ≡ self.old) }
    {
        self.events.push(event)
    }

    /// The round of these events at a moment.
    pub(crate) fn at(self, moment: u64) -> SessionRound
        ensures { result ≡ record { moment = moment; events = self } }
    {
        let SessionEvents { events } = self;
        SessionRound {
            round: Round { moment, events },
        }
    }
}

impl Drop for SessionEvents {
    fn drop(self) {
        let SessionEvents { events: _ } = self;
    }
}
