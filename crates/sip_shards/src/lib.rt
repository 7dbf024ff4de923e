//! Shards of a machine's keys: a phase over all of them, on workers or shard after shard, and held
//! keys moved to other shards.
#![tactic(auto)]

mod due;
mod parts;
mod phase;
mod same_shards;
mod shard_work;
mod transfers;

pub use due::next_due_in;
pub use parts::{Named, empty_parts, parts_of, put};
pub use phase::{Phase, are_idle, deal_phase, tell_of_each};
pub use same_shards::hold_the_same;
pub use transfers::transfer;
