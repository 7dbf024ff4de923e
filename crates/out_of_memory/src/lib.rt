//! The error of a call that fails only if memory runs out.
#![tactic(auto)]

mod no_memory;

pub use no_memory::NoMemory;
