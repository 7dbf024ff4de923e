//! A map in the order of insertion, from which entries are also removed in little time.
#![tactic(auto)]

mod ordered_map;

pub use ordered_map::OrderedMap;
