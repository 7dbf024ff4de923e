//! A user of the agent.

use crate::answering::Answering;
use crate::bell::Bell;
use crate::calling::Calling;
use crate::piped::Piped;
use crate::time_limit::TimeLeft;
use sip_round::{Event, Output, PlacedOutput};
use std::alloc::{AllocError, Global};
use std::io::Write;
use std::sync::Arc;

/// Asks the agent's calls for things, and is told about them. Moments are in ms since the start.
#[derive(Drop)]
pub(crate) enum User {
    Answering(Answering),
    Calling(Calling),
    Piped(Piped),
}

impl User {
    /// Adds what the user asks for before it is told anything.
    ///
    /// # Errors
    ///
    /// Memory ran out.
    pub(crate) fn begin(&self, alloc: Global, events: &mut Vec<Event>) -> Result<(), AllocError> {
        match self {
            User::Calling(calling) => calling.begin(alloc, events),
            User::Answering(_) | User::Piped(_) => Ok(()),
        }
    }

    /// Adds what the user asks for when it is told the notices of a round at the moment `now`.
    ///
    /// # Errors
    ///
    /// Memory ran out.
    pub(crate) fn told_all(
        &mut self,
        alloc: Global,
        now: u64,
        outputs: &[PlacedOutput],
        events: &mut Vec<Event>,
    ) -> Result<(), AllocError> {
        for placed in outputs {
            let Output::Notice(notice) = &placed.output else {
                continue;
            };
            match self {
                User::Answering(answering) => answering.told(alloc, now, notice, events)?,
                User::Calling(calling) => calling.told(alloc, now, notice, events)?,
                User::Piped(_) => {}
            }
        }
        Ok(())
    }

    /// Adds what the user asks for by itself at the moment `now`, when this much time is left. What
    /// is wrong with its own commands is written to `errors`.
    ///
    /// # Errors
    ///
    /// Memory ran out.
    pub(crate) fn turn<E: Write>(
        &mut self,
        alloc: Global,
        now: u64,
        left: TimeLeft,
        events: &mut Vec<Event>,
        errors: &mut E,
    ) -> Result<(), AllocError> {
        match self {
            User::Answering(answering) => answering.turn(alloc, now, left, events),
            User::Calling(calling) => calling.turn(alloc, now, left, events),
            User::Piped(piped) => piped.turn(alloc, now, events, errors),
        }
    }

    /// Whether it wants no more turns, when the agent holds something or nothing.
    pub(crate) fn is_over(&self, now: u64, holds: bool) -> bool {
        match self {
            User::Answering(answering) => answering.is_leaving && !holds,
            User::Calling(calling) => calling.is_ending() && !holds,
            User::Piped(piped) => piped.is_over(now, holds),
        }
    }

    /// Whether a turn begins as soon as there is an event, and is left out if there is nothing to
    /// do.
    pub(crate) fn is_eager(&self) -> bool {
        matches!(self, User::Piped(_))
    }

    /// Where the turns of an eager user wait for the first event.
    pub(crate) fn bell(&self) -> Option<&Arc<Bell>> {
        match self {
            User::Piped(piped) => piped.flags.bell.as_ref(),
            User::Answering(_) | User::Calling(_) => None,
        }
    }

    /// Whether, at the end, it got the least that it had to get.
    pub(crate) fn is_satisfied(&self) -> bool {
        match self {
            User::Answering(answering) => answering.shared.is_satisfied(),
            User::Calling(calling) => calling.is_satisfied(),
            User::Piped(_) => true,
        }
    }
}
