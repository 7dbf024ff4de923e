//! What becomes of a reliable provisional response that came.

/// What becomes of a reliable provisional response that came (RFC 3262 section 4).
#[derive(Clone, Copy, Debug, PartialEq, Eq)]
pub enum Offer {
    /// It is the next in order.
    Taken,
    /// Its number is at or below the latest taken.
    Repeat,
    /// Its number is above the one that is awaited.
    Gap,
}
