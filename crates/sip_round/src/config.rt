//! The configuration of an agent.

use sip_message::Addr;

/// The values with which an agent is started.
#[derive(Clone, Copy, PartialEq, Eq)]
pub struct Config {
    /// The address from which it sends. It stands in the Via of the agent's requests.
    pub local: Addr,
    /// The key of the words in which made names end, and of the hashes of what is held.
    pub seed: [u8; 32],
    /// The number of the first round, at most 2^62.
    pub first: u64,
}
