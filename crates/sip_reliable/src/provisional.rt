//! One reliable provisional response that was sent, and when it is sent again.

ghost use Rattle.std.specs.Prelude.{◌≡◌, ◌↔◌, IsTrue, ◌≤◌, ◌+◌, ◌^◌, [], None};
ghost use Rattle.sip_reliable.specs.Provisional as spec;

use sip_same::SameValue;
use sip_timers::{LIFETIME, T1};
use std::default::Default;
use std::marker::Model;

/// How many reliable provisional responses to one INVITE may wait for their PRACK at the same time.
pub const MOST_WAITING: usize = 8;

/// A reliable provisional response that waits for its PRACK.
///
/// A contract sees it as the record of its fields.
#[derive(Drop)]
pub(crate) struct Provisional {
    number: u32,
    has_body: bool,
    // The moment in ms.
    sent: u64,
    // None after it was given up.
    retransmission: Option<Retransmission>,
}

/// When a response is sent again, in ms, and how often it was sent again.
#[derive(Clone, Copy)]
pub(crate) struct Retransmission {
    pub(crate) due: u64,
    pub(crate) repeats: u32,
}

impl Model for Provisional {
    ghost use Rattle.std.specs.Prelude.{◌≤◌, ◌+◌, ◌*◌, ◌^◌};
    ghost use Rattle.std.specs.Option.{ForSome};
    ghost use Rattle.sip_timers.specs.declared.estimate.TheConstants.{T1};
    ghost use Rattle.sip_reliable.specs.Provisional.{Provisional, interval_after};

    ghost Value = { Provisional };

    ghost view = { λ p. record {
      number = p.number;
      has_body = p.has_body;
      sent = p.sent;
      retransmission = p.retransmission;
    } };

    ghost invariant = { λ p. (p.sent ≤ 2 ^ 62) × ForSome p.retransmission
        (λ r. (p.sent + 2 * interval_after r.repeats ≤ r.due + T1) × (r.due ≤ 2 ^ 63 + T1)) };
}

impl Default for Provisional {
    fn default() -> Provisional {
        Provisional {
            number: 0,
            has_body: false,
            sent: 0,
            retransmission: None,
        }
    }
}

impl Provisional {
    pub(crate) fn new(number: u32, has_body: bool, now: u64) -> Provisional
        requires { now ≤ 2 ^ 62 }
        ensures { result ≡ spec.sent_before number has_body now [] }
    {
        Provisional {
            number,
            has_body,
            sent: now,
            retransmission: Some(Retransmission {
                due: now + u64::from(T1),
                repeats: 0,
            }),
        }
    }

    pub(crate) fn number(&self) -> u32
        ensures { result ≡ self.now.number }
    {
        self.number
    }

    pub(crate) fn has_body(&self) -> bool
        ensures { result ≡ self.now.has_body }
    {
        self.has_body
    }

    pub(crate) fn is_given_up(&self) -> bool
        ensures { result ≡ spec.is_given_up self.now }
    {
        self.retransmission.is_none()
    }

    /// Whether no PRACK came in time.
    pub(crate) fn is_late(&self, now: u64) -> bool
        ensures { result ≡ spec.is_late now self.now }
    {
        self.retransmission.is_some() && self.end() <= now
    }

    /// Whether it is to be sent again.
    pub(crate) fn is_repeated(&self, now: u64) -> bool
        ensures { result ≡ spec.is_repeated now self.now }
    {
        match self.retransmission {
            Some(next) => next.due <= now,
            None => false,
        }
    }

    /// From now on it isn't sent again.
    pub(crate) fn give_up(&mut self)
        ensures { self.new ≡ spec.given_up self.old }
    {
        self.retransmission = None;
    }

    /// If it is due, it is sent again, and gets its next interval.
    pub(crate) fn repeat(&mut self, now: u64)
        requires { now ≤ 2 ^ 62 }
        ensures { self.new ≡ spec.after_repeat now self.old }
    {
        let Some(last) = self.retransmission else {
            return;
        };
        if last.due <= now {
            let repeats = last.repeats + 1;
            let due = now + (u64::from(T1) << repeats);
            self.retransmission = Some(Retransmission { due, repeats });
        }
    }

    /// The next moment in ms at which it is sent again or given up, if there is one.
    pub(crate) fn next_due(&self) -> Option<u64>
        ensures { result ≡ spec.due_moment self.now }
    {
        let next = self.retransmission?;
        Some(next.due.min(self.end()))
    }

    // The moment at which it is given up: 64*T1 after it was sent.
    fn end(&self) -> u64
        ensures { result ≡ spec.end_of self.now }
    {
        self.sent + u64::from(LIFETIME)
    }
}

impl SameValue for Retransmission {
    fn is_same(&self, other: &Retransmission) -> bool {
        self.due == other.due && self.repeats == other.repeats
    }
}

impl SameValue for Provisional {
    fn is_same(&self, other: &Provisional) -> bool {
        self.number == other.number
            && self.has_body == other.has_body
            && self.sent == other.sent
            && self.retransmission.is_same(&other.retransmission)
    }
}
