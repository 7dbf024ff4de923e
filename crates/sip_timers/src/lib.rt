//! A queue of timers: for each key the moment at which it is due. Also T1 and 64 times T1.
#![tactic(auto)]

mod estimate;
mod first_of;
mod queue;
mod schedule;

pub use estimate::{LIFETIME, T1};
pub use first_of::earlier;
pub use out_of_memory::NoMemory;
pub use queue::Queue;
pub use schedule::Schedule;
