//! The names of events.

/// An event's name: its round, and its place in the round, from 1. Place 0 is that of the round's
/// ticks.
#[derive(Clone, Copy, Debug, PartialEq, Eq, PartialOrd, Ord, Hash)]
pub struct Id {
    pub round: u64,
    pub place: u32,
}
