//! Whether two values are the same, in all that a contract sees of them. For values whose `==`
//! leaves something out, or that have none. Each crate says it of its own types.
#![tactic(auto)]

mod lists;
mod maps;
mod ordered_maps;
mod same_value;

pub use lists::{are_same, are_same_bytes};
pub use maps::are_same_maps;
pub use ordered_maps::{are_values, have_same_values};
pub use same_value::SameValue;
