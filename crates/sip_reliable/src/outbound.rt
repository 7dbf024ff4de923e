//! The reliable provisional responses that a callee sends.

ghost use Rattle.std.specs.Prelude.{◌≡◌, ℕ, Bool, ◌^◌, ◌≤◌, [], ◌∷◌, ◌++◌, List, IsTrue, ◌↔◌, IfOk, OnOk, OnErr, IsOk};
ghost use Rattle.std.specs.List.{list_any};
ghost use Rattle.std.specs.List.Sorted.{IsStrictlyIncreasing};
ghost use Rattle.arrayvec.specs.ArrayVec.{ArrayVec as Numbers};
ghost use Rattle.sip_reliable.specs.declared.tick.Tick.TheVariants.{Again};
ghost use Rattle.sip_reliable.specs.Happening.{Happening, Sends, Acknowledges, Closes};
ghost use Rattle.sip_reliable.specs.Ledger.{ledger_after, must_wait, send_fault, send_answer, with_sent, tick_answer, ticked, happenings_of, waits_for, acknowledged, closed_now, next_moment, FewWait, IsNextDue};
ghost use Rattle.sip_reliable.specs.Sound.{IsSound};

use crate::provisional::{MOST_WAITING, Provisional};
use crate::waiting::{
    any_given_up, any_late, any_numbered, any_repeated, any_with_body, due_numbers, give_up,
    next_due, repeat,
};
use crate::{NoMatch, SendFault, Tick};
use arrayvec::ArrayVec;
use sip_same::{SameValue, are_same};
use std::marker::Model;

/// The reliable provisional responses that a callee sends for one INVITE (RFC 3262 section 3).
///
/// Each has an RSeq number, one more than the last. It is retransmitted after 500 ms, then after
/// 1,000 ms, and so on, with the interval doubled each time, until its PRACK comes. If one has no
/// PRACK 32,000 ms after it was sent, all are given up. Until the first is acknowledged, no other
/// is sent; after that at most 8 wait for their PRACK at a time.
/// Moments are in ms. Nothing takes memory.
///
/// A contract sees it as a `Ledger`; `ledger_after` says which one stands for all that happened.
#[derive(Drop)]
pub struct Outbound {
    first: u32,
    // The next number, or 2^32 if all are used up.
    next: u64,
    supported: bool,
    closed: bool,
    // In the order of their numbers.
    waiting: ArrayVec<Provisional, MOST_WAITING>,
}

impl Model for Outbound {
    ghost use Rattle.std.specs.Prelude.{◌≤◌, ◌^◌};
    ghost use Rattle.sip_reliable.specs.Ledger.{Ledger};
    ghost use Rattle.sip_reliable.specs.Sound.{IsSound};

    ghost Value = { Ledger };

    ghost view = { λ o. record {
      first = o.first;
      next = o.next;
      supported = o.supported;
      closed = o.closed;
      waiting = o.waiting.items;
    } };

    ghost invariant = { λ o. (1 ≤ o.next) × (o.next ≤ 2 ^ 32)
        × IsSound o.first o.next o.waiting.items };
}

impl Outbound {
    /// Nothing was sent; the first number will be `first`. `supported` says whether the INVITE has
    /// 100rel.
    pub fn new(first: u32, supported: bool) -> Outbound
        requires { 1 ≤ first }
        ensures { result ≡ ledger_after first supported [] }
    {
        Outbound {
            first,
            next: u64::from(first),
            supported,
            closed: false,
            waiting: ArrayVec::new(),
        }
    }

    /// Takes the next number for a response that is sent at `now`. `now` is at most 2^62.
    ///
    /// # Errors
    ///
    /// The first `SendFault` that fits; then nothing changes.
    pub fn send(&mut self, now: u64, has_body: bool) -> Result<u32, SendFault>
        requires { now ≤ 2 ^ 62 }
        ensures answer { result ≡ send_answer self.old }
        ensures ok { OnOk result (self.new ≡ with_sent has_body now self.old) }
        ensures err { OnErr result (self.new ≡ self.old) }
        ensures number { IfOk result (λ number. 1 ≤ number) }
        ensures few_wait { FewWait self.new }
        ensures stands { (first : ℕ) (supported : Bool) (life : List Happening)
            → self.old ≡ ledger_after first supported life
            → IfOk result (λ number. self.new
            ≡ ledger_after first supported (life ++ Sends number has_body now ∷ [])) }
    {
        self.send_step(now, has_body)
    }

    fn send_step(&mut self, now: u64, has_body: bool) -> Result<u32, SendFault>
        requires { now ≤ 2 ^ 62 }
        ensures answer { result ≡ send_answer self.old }
        ensures ok { OnOk result (self.new ≡ with_sent has_body now self.old) }
        ensures err { OnErr result (self.new ≡ self.old) }
        ensures number { IfOk result (λ number. 1 ≤ number) }
        ensures few_wait { FewWait self.new }
        ensures next { IfOk result (λ number. number ≡ self.old.next) }
    {
        let number = self.next_number()?;
        self.waiting.push(Provisional::new(number, has_body, now));
        self.next += 1;
        Ok(number)
    }

    /// The number that the next response gets.
    ///
    /// # Errors
    ///
    /// The first `SendFault` that fits.
    pub fn next_number(&self) -> Result<u32, SendFault>
        ensures { result ≡ send_answer self.now }
    {
        match self.fault() {
            Some(fault) => Err(fault),
            None => Ok(self.next as u32),
        }
    }

    // Why the next response can't be sent.
    fn fault(&self) -> Option<SendFault>
        ensures { result ≡ send_fault self.now }
    {
        if self.closed {
            Some(SendFault::Closed)
        } else if !self.supported {
            Some(SendFault::NotSupported)
        } else if self.must_wait() {
            Some(SendFault::Unacknowledged)
        } else if self.next > u64::from(u32::MAX) {
            Some(SendFault::NumbersUsedUp)
        } else {
            None
        }
    }

    // Whether a PRACK has to come before the next response is sent.
    fn must_wait(&self) -> bool
        ensures { result ≡ must_wait self.now }
    {
        any_numbered(self.waiting.as_slice(), self.first)
            || self.waiting.is_full()
            || any_given_up(self.waiting.as_slice())
    }

    /// Does what is due at `now`, at most 2^62: each waiting response whose interval is over is
    /// sent again, or all are given up.
    pub fn tick(&mut self, now: u64) -> Tick
        requires { now ≤ 2 ^ 62 }
        ensures answer { result ≡ tick_answer self.old now }
        ensures after { self.new ≡ ticked result self.old now }
        ensures in_order { (numbers : Numbers ℕ) → result ≡ Again numbers
            → IsStrictlyIncreasing numbers.items }
        ensures stands { (first : ℕ) (supported : Bool) (life : List Happening)
            → self.old ≡ ledger_after first supported life
            → self.new ≡ ledger_after first supported (life ++ happenings_of result now) }
    {
        self.tick_step(now)
    }

    fn tick_step(&mut self, now: u64) -> Tick
        requires { now ≤ 2 ^ 62 }
        ensures answer { result ≡ tick_answer self.old now }
        ensures after { self.new ≡ ticked result self.old now }
        ensures sound { IsSound self.old.first self.old.next self.old.waiting }
    {
        if self.closed {
            return Tick::Nothing;
        }
        if any_late(self.waiting.as_slice(), now) {
            give_up(self.waiting.as_mut_slice());
            return Tick::GivenUp;
        }
        if any_repeated(self.waiting.as_slice(), now) {
            let numbers = due_numbers(self.waiting.as_slice(), now);
            repeat(self.waiting.as_mut_slice(), now);
            return Tick::Again(numbers);
        }
        Tick::Nothing
    }

    /// The PRACK for the number `rseq` came. It acknowledges a response even after the ledger was
    /// closed or its responses were given up.
    ///
    /// # Errors
    ///
    /// `NoMatch` if no response with that number waits; then nothing changes.
    pub fn acknowledge(&mut self, rseq: u32) -> Result<(), NoMatch>
        ensures matches { IsOk result ↔ IsTrue (waits_for rseq self.old) }
        ensures ok { OnOk result (self.new ≡ acknowledged rseq self.old) }
        ensures err { OnErr result (self.new ≡ self.old) }
        ensures stands { (first : ℕ) (supported : Bool) (life : List Happening)
            → self.old ≡ ledger_after first supported life
            → OnOk result (self.new
            ≡ ledger_after first supported (life ++ Acknowledges rseq ∷ [])) }
    {
        self.acknowledge_step(rseq)
    }

    fn acknowledge_step(&mut self, rseq: u32) -> Result<(), NoMatch>
        ensures matches { IsOk result ↔ IsTrue (waits_for rseq self.old) }
        ensures ok { OnOk result (self.new ≡ acknowledged rseq self.old) }
        ensures err { OnErr result (self.new ≡ self.old) }
    {
        if !any_numbered(self.waiting.as_slice(), rseq) {
            return Err(NoMatch);
        }
        self.waiting.retain(|one| one.number() != rseq);
        Ok(())
    }

    /// A final response was sent. From then on nothing is sent again or given up.
    pub fn close(&mut self)
        ensures closed { self.new ≡ closed_now self.old }
        ensures stands { (first : ℕ) (supported : Bool) (life : List Happening)
            → self.old ≡ ledger_after first supported life
            → self.new ≡ ledger_after first supported (life ++ Closes ∷ []) }
    {
        self.closed = true;
    }

    /// The earliest moment at which `tick` isn't `Nothing`.
    pub fn next_due(&self) -> Option<u64>
        ensures moment { result ≡ next_moment self.now }
        ensures earliest { IsNextDue (tick_answer self.now) result }
    {
        self.next_moment()
    }

    fn next_moment(&self) -> Option<u64>
        ensures { result ≡ next_moment self.now }
    {
        if self.closed {
            return None;
        }
        next_due(self.waiting.as_slice())
    }

    /// Whether a response with the number `rseq` waits for its PRACK.
    pub fn waits_for(&self, rseq: u32) -> bool
        ensures { result ≡ waits_for rseq self.now }
    {
        any_numbered(self.waiting.as_slice(), rseq)
    }

    /// Whether a response that waits for its PRACK has a body.
    pub fn body_waits(&self) -> bool
        ensures { result ≡ list_any (λ p. p.has_body) self.now.waiting }
    {
        any_with_body(self.waiting.as_slice())
    }
}

impl SameValue for Outbound {
    fn is_same(&self, other: &Outbound) -> bool {
        self.first == other.first
            && self.next == other.next
            && self.supported == other.supported
            && self.closed == other.closed
            && are_same(self.waiting.as_slice(), other.waiting.as_slice())
    }
}
