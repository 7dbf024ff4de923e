//! What is due at a tick.

use crate::provisional::MOST_WAITING;
use arrayvec::ArrayVec;

/// What is due for the reliable provisional responses that were sent (RFC 3262 section 3).
#[derive(Debug, Drop, PartialEq, Eq)]
pub enum Tick {
    Nothing,
    /// The responses with these numbers are to be sent again, in the order of the numbers.
    Again(ArrayVec<u32, MOST_WAITING>),
    /// One had no PRACK for 32,000 ms: from now on none is sent again.
    GivenUp,
}
