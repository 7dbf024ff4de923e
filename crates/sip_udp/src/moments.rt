//! The moments of a run, by the clock.

use crate::fault::UaFault;
use std::time::{Clock, Instant, SystemTime};

/// How the moments of a run, in ms, follow from the clock. They don't go back.
#[derive(Clone, Copy)]
pub(crate) struct Moments {
    // When they began, and the moment of that.
    start: Instant,
    base: u64,
    /// The moment of the last round.
    pub(crate) last: u64,
}

impl Moments {
    /// The first one is 0.
    ///
    /// # Errors
    ///
    /// `Socket` if the clock fails.
    pub(crate) fn new<R: Clock>(rt: &R) -> Result<Moments, UaFault> {
        Ok(Moments {
            start: time_now(rt)?,
            base: 0,
            last: 0,
        })
    }

    /// From here they go on by the clock, as the ms since 1970.
    ///
    /// # Errors
    ///
    /// `Socket` if the clock fails.
    pub(crate) fn restart<R: Clock>(&mut self, rt: &R) -> Result<(), UaFault> {
        self.base = since_1970(rt)?.max(self.last);
        self.start = time_now(rt)?;
        Ok(())
    }

    /// The moment by the clock.
    ///
    /// # Errors
    ///
    /// `Socket` if the clock fails.
    pub(crate) fn now<R: Clock>(&self, rt: &R) -> Result<u64, UaFault> {
        let passed = time_now(rt)?.duration_since(self.start).as_millis();
        let passed = u64::try_from(passed).unwrap_or(u64::MAX);
        Ok(self.base.saturating_add(passed).max(self.last))
    }

    /// The ms from the start to this moment.
    pub(crate) fn passed(&self, now: u64) -> u64 {
        now.saturating_sub(self.base)
    }
}

// The time by the clock.
fn time_now<R: Clock>(rt: &R) -> Result<Instant, UaFault> {
    match Instant::now(rt) {
        Ok(now) => Ok(now),
        Err(_) => Err(UaFault::Socket),
    }
}

// The ms since 1970.
fn since_1970<R: Clock>(rt: &R) -> Result<u64, UaFault> {
    let Ok(now) = SystemTime::now(rt) else {
        return Err(UaFault::Socket);
    };
    match now.duration_since(SystemTime::UNIX_EPOCH) {
        Ok(passed) => Ok(u64::try_from(passed.as_millis()).unwrap_or(u64::MAX)),
        Err(_) => Err(UaFault::Socket),
    }
}
