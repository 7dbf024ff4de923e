//! Maps in the order of insertion.

ghost use Rattle.std.specs.Prelude.{◌≡◌, ◌↔◌, IsTrue};

use crate::lists::are_same;
use crate::same_value::SameValue;
use indexmap::IndexMap;
use std::hash::{BuildHasher, Hash};

/// Whether two maps have the same entries in the same order.
#[tactic(auto, using(crate::proofs::SameMaps::same_entries))]
pub fn are_same_maps<K: SameValue + Eq + Hash, V: SameValue, S: BuildHasher>(
    entries: &IndexMap<K, V, S>,
    others: &IndexMap<K, V, S>,
) -> bool
    ensures { IsTrue result ↔ (entries.now.entries ≡ others.now.entries) }
{
    are_same(entries.keys().as_slice(), others.keys().as_slice())
        && are_same(entries.values().as_slice(), others.values().as_slice())
}
