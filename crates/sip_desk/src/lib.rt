//! Lines that bring events from other threads to one desk. No thread waits for another.
#![tactic(auto)]

mod desk;
mod ended;
mod laws;
mod poster;
mod settle_fault;

pub use desk::{Desk, open};
pub use ended::{Ended, Unfinished};
pub use laws::{drained_line_settles, merges_in_rounds};
pub use out_of_memory::NoMemory;
pub use poster::Poster;
pub use settle_fault::SettleFault;
