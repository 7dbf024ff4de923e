//! What a host holds.

/// What a host holds, and what waits in it.
#[derive(Clone, Copy)]
pub struct Holdings {
    /// Transactions and calls that have begun and haven't ended.
    pub transactions: u128,
    pub calls: u128,
    /// The number of the next round.
    pub next_round: u64,
    /// Events of the next round.
    pub events: usize,
    /// Outputs of the last round that weren't taken yet.
    pub outputs: usize,
}
