//! Pieces of work on several threads: an owner takes pieces from a deque, and thieves steal from
//! it.
#![tactic(auto)]

mod deque;
mod gate;
mod gathered;
mod job;
mod piece;
mod pieces;
mod seat;

pub use gate::{Gate, OpenGate};
pub use gathered::{dones_in_order, gather};
pub use job::Job;
pub use out_of_memory::NoMemory;
pub use piece::Piece;
pub use pieces::{run_alone, run_pieces};
