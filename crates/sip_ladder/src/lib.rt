//! Ladders: the call flow of an event file or a session file as a picture in text.
#![tactic(auto)]

mod before;
mod columns;
mod drawing;
mod head;
mod label;
mod line;
mod lines;
mod picture;
mod row;

pub use drawing::ladder;
pub use line::{Line, Way};
