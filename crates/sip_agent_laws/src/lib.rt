//! Laws of one agent, each for whatever came to it: by when everything goes on and ends, what it
//! sends again, and what it holds and sends by its history.
#![tactic(auto)]

pub mod agents;
pub mod calls;
pub mod histories;
pub mod repeats;
pub mod transactions;
