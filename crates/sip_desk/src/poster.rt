//! The posting end of a line.

ghost use Rattle.std.specs.Prelude.{◌≡◌, ◌+◌, ◌<◌, ◌≤◌, length};
ghost use Rattle.rtrb.specs.Ring.{sent, known_free, producer_capacity};

use crate::{Ended, Unfinished};
use rtrb::{Producer, PushError};

/// The end of a line that posts events. It can move to a thread of its own.
#[derive(Drop)]
pub struct Poster<E> {
    pub(crate) line: usize,
    pub(crate) ring: Producer<E>,
    // Each slot that isn't known to be free was filled.
    ghost room: { producer_capacity ring ≤ known_free ring + length (sent ring) },
}

impl<E: Drop> Poster<E> {
    ghost use Rattle.std.specs.Prelude.{IsOk, OnOk, OnErr, IfOk, IfErr};
    ghost use Rattle.sip_desk.specs.Lines.{posted, capacity_of, Pushes, SameLine, IsFinal, IsEndOfLine};

    /// Puts an event on the line, behind those that are there, or gives it back if the line is
    /// full. Takes no memory and doesn't wait.
    ///
    /// # Errors
    ///
    /// The event; then the line is as it was.
    pub fn post(&mut self, event: E) -> Result<(), E>
        ensures ok { OnOk result (Pushes self.old self.new event) }
        ensures full { IfErr result (λ back. back ≡ event) }
        ensures unposted { OnErr result (posted self.new ≡ posted self.old) }
        ensures room { length (posted self.old) < capacity_of self.old → IsOk result }
        ensures same { SameLine self.old self.new }
    {
        match self.ring.push(event) {
            Ok(()) => Ok(()),
            Err(PushError::Full(event)) => Err(event),
        }
    }

    /// Ends the line: nothing more is posted on it.
    ///
    /// # Errors
    ///
    /// `Unfinished` if the desk is gone.
    pub fn finish(self) -> Result<Ended<E>, Unfinished>
        ensures kept { IfOk result (λ ended. IsFinal self ended) }
        ensures end { IfOk result (λ ended. IsEndOfLine self ended) }
    {
        let Poster { line, ring } = self;
        let ring = ring.finish().ok_or(Unfinished)?;
        Ok(Ended { line, ring })
    }
}
