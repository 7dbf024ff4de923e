//! Transactions: the machine of one transaction, as a table of rows, and the shard that holds many.
#![tactic(auto)]

mod input;
pub mod laws;
mod life;
mod machine;
mod made;
mod matching;
mod output;
mod rows;
mod said;
mod same_lives;
mod shard;
mod state;
mod step;
mod timers;
mod trigger;

pub use input::{Command, Input};
pub use keyed_machine::ShardFault;
pub use machine::Transactions;
pub use matching::{is_stray, keyed_input};
pub use output::{DropReason, Out, Up, UpKind};
pub use shard::Shard;
pub use state::State;
pub use timers::T2;
