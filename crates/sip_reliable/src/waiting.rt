//! All reliable provisional responses to one INVITE that wait for their PRACK.

ghost use Rattle.std.specs.Prelude.{◌≡◌, ◌↔◌, IsTrue, ◌==◌, ◌≤◌, ◌^◌, map, fold, length, None};
ghost use Rattle.std.specs.List.{list_any};
ghost use Rattle.sip_timers.specs.Earlier.{earlier};
ghost use Rattle.sip_reliable.specs.Provisional as spec;
ghost use Rattle.sip_reliable.specs.Ledger as ledger;

use crate::provisional::{MOST_WAITING, Provisional};
use arrayvec::ArrayVec;
use sip_timers::earlier;

/// Whether one has this number.
pub(crate) fn any_numbered(waiting: &[Provisional], number: u32) -> bool
    ensures { result ≡ list_any (λ p. p.number == number) waiting.now }
{
    waiting.iter().any(|one| one.number() == number)
}

/// Whether one has a body.
pub(crate) fn any_with_body(waiting: &[Provisional]) -> bool
    ensures { result ≡ list_any (λ p. p.has_body) waiting.now }
{
    waiting.iter().any(|one| one.has_body())
}

/// Whether one was given up.
pub(crate) fn any_given_up(waiting: &[Provisional]) -> bool
    ensures { result ≡ list_any spec.is_given_up waiting.now }
{
    waiting.iter().any(|one| one.is_given_up())
}

/// Whether no PRACK of one came in time.
pub(crate) fn any_late(waiting: &[Provisional], now: u64) -> bool
    ensures { result ≡ list_any (spec.is_late now) waiting.now }
{
    waiting.iter().any(|one| one.is_late(now))
}

/// Whether one is to be sent again.
pub(crate) fn any_repeated(waiting: &[Provisional], now: u64) -> bool
    ensures { result ≡ list_any (spec.is_repeated now) waiting.now }
{
    waiting.iter().any(|one| one.is_repeated(now))
}

/// The numbers of those that are to be sent again.
pub(crate) fn due_numbers(waiting: &[Provisional], now: u64) -> ArrayVec<u32, MOST_WAITING>
    requires { length waiting.now ≤ MOST_WAITING }
    ensures { result.items ≡ ledger.due_numbers now waiting.now }
{
    let mut numbers = ArrayVec::new();
    for one in waiting {
        if one.is_repeated(now) {
            numbers.push(one.number());
        }
    }
    numbers
}

/// Sends each that is due again.
pub(crate) fn repeat(waiting: &mut [Provisional], now: u64)
    requires { now ≤ 2 ^ 62 }
    ensures { waiting.new ≡ map (spec.after_repeat now) waiting.old }
{
    for one in waiting.iter_mut() {
        one.repeat(now);
    }
}

/// From now on none is sent again.
pub(crate) fn give_up(waiting: &mut [Provisional])
    ensures { waiting.new ≡ map spec.given_up waiting.old }
{
    for one in waiting.iter_mut() {
        one.give_up();
    }
}

/// The next moment in ms at which one is sent again or given up, if there is one.
pub(crate) fn next_due(waiting: &[Provisional]) -> Option<u64>
    ensures { result ≡ ledger.first_moment waiting.now }
{
    waiting
        .iter()
        .fold(None, |due, one| earlier(due, one.next_due()))
}
