//! Lists of values.

ghost use Rattle.std.specs.Prelude.{◌≡◌, ◌↔◌, IsTrue};

use crate::same_value::SameValue;

/// Whether two lists have the same values in the same order.
#[tactic(auto, using(crate::proofs::SameLists::same_at, crate::proofs::SameLists::one_more_same))]
pub fn are_same<T: SameValue>(values: &[T], others: &[T]) -> bool
    ensures { IsTrue result ↔ (values.now ≡ others.now) }
{
    if values.len() != others.len() {
        return false;
    }
    for (place, value) in values.iter().enumerate() {
        if !value.is_same(&others[place]) {
            return false;
        }
    }
    true
}

/// Whether two texts have the same bytes.
pub fn are_same_bytes(text: &[u8], other: &[u8]) -> bool
    ensures { IsTrue result ↔ (text.now ≡ other.now) }
{
    text == other
}
