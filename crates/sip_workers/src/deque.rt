//! The deque of pieces that an owner and thieves share.

ghost use Rattle.std.specs.Prelude.{List};

use crate::Piece;
use crossbeam_deque::protocol::{Join, Outcome, Protocol, Split};
use crossbeam_deque::{Pass, Stealer, Worker};
use std::alloc::Global;
use std::collections::LinkedList;

// What a pass has put into the deque and taken from it, and how many of the 64 parts it holds; only
// the holder of all parts knows the whole. It exists in contracts only: no value of it is made.
pub struct Log<J> {
    pub parts: u64,
    pub put: LinkedList<Piece<J>>,
    pub taken: LinkedList<Piece<J>>,
}

// The rule of the deque: what was put in is what it holds and what was taken.
pub struct Fair;

impl<J> Protocol<Piece<J>, Log<J>> for Fair {
    ghost use Rattle.std.specs.Prelude.{[]};
    ghost use Rattle.sip_workers.specs.Balance.{log, Balanced};

    ghost holds = { Balanced };

    ghost first = { log 64 [] [] };

    ghost guest = { log 0 [] [] };
}

// A pass is split off.
pub struct Cut;

impl<J> Split<Log<J>> for Cut {
    ghost use Rattle.std.specs.Prelude.{◌-◌, []};
    ghost use Rattle.sip_workers.specs.Balance.{log};

    ghost left = { λ v. log (v.parts - 1) v.put v.taken };

    ghost right = { λ v. log 1 [] [] };
}

// A pass is joined.
pub struct Joined;

impl<J> Join<Log<J>> for Joined {
    ghost use Rattle.std.specs.Prelude.{◌+◌, ◌++◌, []};
    ghost use Rattle.sip_workers.specs.Balance.{log};

    ghost both = { λ v w. log (v.parts + w.parts) (v.put ++ w.put) (v.taken ++ w.taken) };

    ghost spent = { log 0 [] [] };
}

// A piece is put in.
pub struct Puts;

impl<J> Outcome<Piece<J>, Log<J>> for Puts {
    ghost use Rattle.std.specs.Prelude.{◌≡◌, ◌++◌};
    ghost use Rattle.sip_workers.specs.Balance.{log};

    ghost then = { λ v xs w. w ≡ log v.parts (v.put ++ xs) v.taken };
}

// The owner pops a piece. If it has every part and finds none, it knows that all were taken.
pub struct Pops;

impl<J> Outcome<Piece<J>, Log<J>> for Pops {
    ghost use Rattle.std.specs.Prelude.{◌≡◌, ◌≤◌, ◌++◌, length};
    ghost use Rattle.std.specs.List.Sorted.{IsPermutation};
    ghost use Rattle.sip_workers.specs.Balance.{log};

    ghost then = { λ v xs w. (w ≡ log v.parts v.put (v.taken ++ xs))
        × (v.parts ≡ 64 → length (v.taken ++ xs) ≤ length v.put) };

    ghost empty = { λ v. v.parts ≡ 64 → IsPermutation v.put v.taken };
}

// A thief steals a piece.
pub struct Steals;

impl<J> Outcome<Piece<J>, Log<J>> for Steals {
    ghost use Rattle.std.specs.Prelude.{◌≡◌, ◌++◌};
    ghost use Rattle.sip_workers.specs.Balance.{log};

    ghost then = { λ v xs w. w ≡ log v.parts v.put (v.taken ++ xs) };
}

pub type Owner<J> = Worker<Piece<J>, Global, Log<J>, Fair>;

pub type Thief<J> = Stealer<Piece<J>, Global, Log<J>, Fair>;

pub type ThiefPass<J> = Pass<Piece<J>, Log<J>>;
