//! The due moments of a transaction.

ghost use Rattle.std.specs.Prelude.{◌≡◌, ◌≤◌, ◌^◌, ◌<◌, true, false, None};
ghost use Rattle.sip_timers.specs.Queue.{is_due};
ghost use Rattle.sip_transactions.specs.Timers.{interval, rearmed, first_due, IsTimely};

use crate::step::{Due, Pace};
use sip_same::SameValue;
use sip_timers::{LIFETIME, T1, earlier};
use std::marker::Model;

/// T2, the greatest interval between retransmissions, in ms (T2 and T4: RFC 3261, section
/// 17.1.2.2).
pub const T2: u32 = 4_000;

/// T4, how long a message may stay in the network, in ms: timers I and K.
pub(crate) const T4: u32 = 5_000;

/// At most one moment at which to send again, and at most one at which to end, in milliseconds.
#[derive(Drop)]
pub struct Timers {
    repeat: Option<u64>,
    // how often the repeat has fired
    fired: u32,
    ending: Option<u64>,
}

impl Model for Timers {
    ghost use Rattle.std.specs.Prelude.{IsTrue};
    ghost use Rattle.sip_transactions.specs.Dues.{Dues, is_paced};

    ghost Value = { Dues };

    ghost view = { λ t. record { repeat = t.repeat; fired = t.fired; ending = t.ending } };

    ghost invariant = { λ t. IsTrue (is_paced t.repeat t.fired t.ending) };
}

impl Timers {
    ghost use Rattle.std.specs.Prelude.{None};

    /// Nothing is due.
    pub fn new() -> Self
        ensures { result ≡ record { repeat = None; fired = 0; ending = None } }
    {
        Timers {
            repeat: None,
            fired: 0,
            ending: None,
        }
    }

    /// The next moment at which something is due, if any.
    pub fn first_due(&self) -> Option<u64>
        ensures { result ≡ first_due self.now }
    {
        earlier(self.ending, self.repeat)
    }

    /// Whether the end is due.
    pub fn is_ending_due(&self, now: u64) -> bool
        ensures { result ≡ is_due now self.now.ending }
    {
        is_due(now, self.ending)
    }

    /// Whether the repeat is due.
    pub fn is_repeat_due(&self, now: u64) -> bool
        ensures { result ≡ is_due now self.now.repeat }
    {
        is_due(now, self.repeat)
    }

    /// Changes the due moments as a row says that is taken at this moment.
    pub fn rearm(&mut self, due: Due, now: u64)
        requires bound { now ≤ 2 ^ 62 }
        requires timely { IsTimely due now self.old }
        ensures { self.new ≡ rearmed due now self.old }
    {
        match due {
            Due::Keep => {}
            Due::Clear => *self = Timers::new(),
            Due::Ending(after) => {
                *self = Timers {
                    repeat: None,
                    fired: 0,
                    ending: Some(now + u64::from(after)),
                };
            }
            Due::Both => {
                *self = Timers {
                    repeat: Some(now + u64::from(T1)),
                    fired: 0,
                    ending: Some(now + u64::from(LIFETIME)),
                };
            }
            Due::Again(pace) => *self = self.again(pace, now),
        }
    }

    // The due moments once the repeat fires.
    fn again(&self, pace: Pace, now: u64) -> Self
        requires bound { now ≤ 2 ^ 62 }
        requires due { is_due now self.now.repeat ≡ true }
        requires before_end { is_due now self.now.ending ≡ false }
        ensures { result ≡ rearmed (Due.Again pace) now self.now }
    {
        let fired = self.fired + 1;
        Timers {
            repeat: Some(now + interval(pace, fired)),
            fired,
            ending: self.ending,
        }
    }
}

impl SameValue for Timers {
    fn is_same(&self, other: &Timers) -> bool {
        self.repeat.is_same(&other.repeat)
            && self.fired == other.fired
            && self.ending.is_same(&other.ending)
    }
}

// The interval after so many firings.
fn interval(pace: Pace, fired: u32) -> u64
    requires { fired ≤ 10 }
    ensures value { result ≡ interval pace fired }
    ensures bound { result ≤ 512000 }
{
    match pace {
        Pace::Doubled => u64::from(T1) << fired,
        Pace::Capped => (u64::from(T1) << fired).min(u64::from(T2)),
        Pace::Even => u64::from(T2),
    }
}

fn is_due(now: u64, due: Option<u64>) -> bool
    ensures { result ≡ is_due now due }
{
    match due {
        None => false,
        Some(due) => due <= now,
    }
}
