//! The values of maps in the order of their keys.

ghost use Rattle.std.specs.Prelude.{◌≡◌, ◌↔◌, IsTrue};
ghost use Rattle.std.specs.Map.{values_of};

use crate::same_value::SameValue;
use std::collections::BTreeMap;

/// Whether these are the values of a map, in the order of their keys.
pub fn are_values<K: Ord, V: SameValue>(map: &BTreeMap<K, V>, values: &[V]) -> bool
    ensures { IsTrue result ↔ (values_of map.now.entries ≡ values.now) }
{
    let mut others = values.iter();
    for value in map.values() {
        match others.next() {
            Some(other) if value.is_same(other) => {}
            _ => return false,
        }
    }
    others.next().is_none()
}

/// Whether two maps have the same values, in the order of their keys.
pub fn have_same_values<K: Ord, V: SameValue>(map: &BTreeMap<K, V>, other: &BTreeMap<K, V>) -> bool
    ensures { IsTrue result ↔ (values_of map.now.entries ≡ values_of other.now.entries) }
{
    let mut others = other.values();
    for value in map.values() {
        match others.next() {
            Some(other) if value.is_same(other) => {}
            _ => return false,
        }
    }
    others.next().is_none()
}
