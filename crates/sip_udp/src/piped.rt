//! The user of `agent`: it asks for what the pipe says.

ghost use Rattle.std.specs.Prelude.{◌≡◌, ◌++◌, OnOk};
ghost use Rattle.sip_udp.specs.Piping as piping;

use crate::listener::Flags;
use crate::pipe_input::PipeLine;
use crate::turns::MOST_COLLECTED;
use crate::waiting_headers::WaitingHeaders;
use sip_desk::Desk;
use sip_round::Event;
use std::alloc::{AllocError, Global};
use std::io::Write;
use std::sync::Arc;
use std::sync::atomic::Ordering;

/// Asks for what the pipe says. After the end of the pipe it is done as soon as nothing is held, or
/// `linger` ms later.
#[derive(Drop)]
pub(crate) struct Piped {
    pipe: Desk<PipeLine>,
    // The header lines that wait for their command.
    waiting: WaitingHeaders,
    pub(crate) flags: Arc<Flags>,
    linger: u32,
    // The moment at which everything from the pipe had been taken.
    ended_at: Option<u64>,
}

impl Piped {
    pub(crate) fn new(
        alloc: Global,
        pipe: Desk<PipeLine>,
        flags: Arc<Flags>,
        linger: u32,
    ) -> Piped {
        Piped {
            pipe,
            waiting: WaitingHeaders::new(alloc),
            flags,
            linger,
            ended_at: None,
        }
    }

    /// Adds what the lines ask for that have come by the moment `now`. What is wrong with them is
    /// written to `errors`.
    ///
    /// # Errors
    ///
    /// Memory ran out.
    pub(crate) fn turn<E: Write>(
        &mut self,
        alloc: Global,
        now: u64,
        events: &mut Vec<Event>,
        errors: &mut E,
    ) -> Result<(), AllocError> {
        if self.ended_at.is_some() {
            return Ok(());
        }
        let has_ended = self.flags.ended.load(Ordering::SeqCst);
        let Ok(lines) = self.pipe.collect(MOST_COLLECTED) else {
            return Err(AllocError);
        };
        if has_ended && lines.is_empty() {
            self.ended_at = Some(now);
            self.waiting.refuse(alloc, errors);
        }
        ask_for(alloc, lines, &mut self.waiting, events, errors)
    }

    /// Whether it wants no more turns at the moment `now`, when the agent holds something or
    /// nothing.
    pub(crate) fn is_over(&self, now: u64, holds: bool) -> bool {
        match self.ended_at {
            None => false,
            Some(ended_at) => !holds || now >= ended_at.saturating_add(u64::from(self.linger)),
        }
    }
}

// Adds the commands among these lines, each with the header lines before it.
fn ask_for<E: Write>(
    alloc: Global,
    lines: Vec<PipeLine>,
    waiting: &mut WaitingHeaders,
    events: &mut Vec<Event>,
    errors: &mut E,
) -> Result<(), AllocError>
    ensures asked { OnOk result (events.new.items
        ≡ events.old.items ++ piping.all_asked waiting.old.headers lines.items) }
    ensures wait { OnOk result (waiting.new.headers
        ≡ piping.headers_at_end waiting.old.headers lines.items) }
{
    for line in lines {
        waiting.take(alloc, line, events, errors)?;
    }
    Ok(())
}
