//! Groups of outputs in the order of their labels.

ghost use Rattle.std.specs.Prelude.{◌≡◌};
ghost use Rattle.std.specs.List.Sorted.{IsPermutation, IsSortedBy};
ghost use Rattle.std.specs.Ordering.{is_lt};
ghost use Rattle.keyed_machine.specs.Groups.{Sorts, groups};

use std::cmp::Ordering;

/// The same groups, in the order of their labels. If the labels differ, there is only one such
/// order: the groups of several shards, joined in any order, become those of all.
pub fn by_label<L: Ord + Drop, O: Drop>(mut told: Vec<(L, Vec<O>)>) -> Vec<(L, Vec<O>)>
    ensures same { IsPermutation told.items result.items }
    ensures in_order { IsSortedBy (λ one other. is_lt (L.cmp one.0 other.0)) result.items }
    ensures sorts { Sorts L.cmp (groups told.items) (groups result.items) }
{
    told.sort_unstable_by(
        |one, other| -> Ordering
            ensures { result ≡ L.cmp one.now.0 other.now.0 }
        { one.0.cmp(&other.0) },
    );
    told
}
