//! The results of the pieces, in the order of their numbers.

ghost use Rattle.std.specs.Prelude.{◌≡◌, ℕ, List, map, nat_eq, IfOk};
ghost use Rattle.std.specs.List.{AllZip, IsDistinct};
ghost use Rattle.sip_workers.specs.declared.piece.Piece.{Piece};
ghost use Rattle.sip_workers.specs.Ran.{AllRan, IsGathered, IsNumbered};

use crate::{Job, NoMemory};
use std::alloc::Global;

/// The dones in the order of their numbers. The numbers must differ.
///
/// # Errors
///
/// `NoMemory`.
pub fn gather<D: Drop>(alloc: Global, mut dones: Vec<(usize, D)>) -> Result<Vec<D>, NoMemory>
    requires { IsDistinct nat_eq (map (λ d. d.0) dones.items) }
    ensures { IfOk result (λ gathered. IsGathered dones.items gathered.items) }
{
    dones.sort_unstable_by_key(|done| done.0);
    without_numbers(alloc, dones)
}

fn without_numbers<D: Drop>(alloc: Global, dones: Vec<(usize, D)>) -> Result<Vec<D>, NoMemory>
    ensures { IfOk result (λ bare. bare.items ≡ map (λ d. d.1) dones.items) }
{
    Ok(dones.into_iter().map(|done| done.1).collect(alloc)?)
}

/// Laws: if the pieces are numbered from 0 on, their numbers differ, and gathering their dones
/// gives a done of each piece at its place.
pub fn dones_in_order<J: Job>()
    ensures differ { (pieces : List (Piece J)) → IsNumbered pieces
        → IsDistinct nat_eq (map (λ p. p.shard) pieces) }
    ensures in_order { (pieces : List (Piece J)) (dones : List (ℕ × J.Done))
        (gathered : List J.Done)
        → IsNumbered pieces → AllRan J.gives pieces dones → IsGathered dones gathered
        → AllZip (λ piece done. J.gives piece.job done) pieces gathered }
{}
