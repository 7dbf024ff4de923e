//! The reliable provisional responses that a caller takes.

ghost use Rattle.std.specs.Prelude.{◌≡◌, ◌↔◌, ℕ, IsTrue, List, [], ◌∷◌, ◌++◌, ◌≢◌, None, AllPairs};
ghost use Rattle.sip_reliable.specs.Inbound.{in_order, latest, offered, taken, latest_after, IsConsecutive};

use crate::Offer;
use sip_same::SameValue;
use std::marker::Model;

/// The reliable provisional responses of one early dialog that a caller takes, by their RSeq
/// numbers (RFC 3262 section 4).
///
/// A contract sees it as the latest number taken.
#[derive(Clone, Copy)]
pub struct Inbound {
    latest: Option<u32>,
}

impl Model for Inbound {
    ghost use Rattle.std.specs.Prelude.{ℕ, Option};

    ghost Value = { Option ℕ };

    ghost view = { λ i. i.latest };

    ghost inverse = { λ latest. record { latest = latest } };
}

impl Inbound {
    /// No response came yet.
    pub fn new() -> Inbound
        ensures none { result ≡ None }
        ensures came { result ≡ latest [] }
    {
        Inbound { latest: None }
    }

    /// Takes the number `rseq` if it is the first one, or one more than the latest taken.
    pub fn offer(&mut self, rseq: u32) -> Offer
        ensures answer { result ≡ offered self.old rseq }
        ensures after { self.new ≡ latest_after result self.old rseq }

        // Of all numbers that came, up to this one, those taken are the ones in order.
        ensures stays { (came : List ℕ) → self.old ≡ latest came
            → self.new ≡ latest (came ++ rseq ∷ []) }
        ensures in_order { (came : List ℕ) → self.old ≡ latest came
            → in_order (came ++ rseq ∷ []) ≡ in_order came ++ taken result rseq }
    {
        self.step(rseq)
    }

    fn step(&mut self, rseq: u32) -> Offer
        ensures answer { result ≡ offered self.old rseq }
        ensures after { self.new ≡ latest_after result self.old rseq }
    {
        let offer = self.judge(rseq);
        if let Offer::Taken = offer {
            self.latest = Some(rseq);
        }
        offer
    }

    fn judge(&self, rseq: u32) -> Offer
        ensures { result ≡ offered self.now rseq }
    {
        match self.latest {
            None => Offer::Taken,
            Some(latest) if rseq <= latest => Offer::Repeat,
            Some(latest) if rseq - latest == 1 => Offer::Taken,
            Some(_) => Offer::Gap,
        }
    }
}

/// A law: whatever numbers came, those taken are consecutive, so none is taken twice.
pub fn taken_in_order()
    ensures consecutive { (came : List ℕ) → IsConsecutive (in_order came) }
    ensures once { (came : List ℕ) → AllPairs (λ x y. x ≢ y) (in_order came) }
{}

impl SameValue for Inbound {
    fn is_same(&self, other: &Inbound) -> bool {
        self.latest.is_same(&other.latest)
    }
}
