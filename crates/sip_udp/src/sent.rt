//! Which datagrams were sent before.

use sip_message::{Addr, SharedKey};
use std::alloc::{AllocError, Global};
use std::collections::BTreeSet;
use std::mem;

/// How long a datagram is remembered at least, in ms. A transaction retransmits sooner than that
/// (RFC 3261, section 17: T2 is 4 s, and it is over after 64 times T1).
const MEMORY: u64 = 64_000;

/// The start value and the factor of the 64-bit FNV-1a hash.
const OFFSET: u64 = 0xcbf2_9ce4_8422_2325;

const PRIME: u64 = 0x0100_0000_01b3;

/// The datagrams that were sent in the last one or two minutes, by their hashes.
#[derive(Drop)]
pub(crate) struct Sent {
    alloc: Global,
    recent: BTreeSet<u64>,
    former: BTreeSet<u64>,
    // The moment, in ms, at which the recent ones become the former ones.
    until: u64,
}

impl Sent {
    pub(crate) fn new(alloc: Global) -> Sent {
        Sent {
            alloc,
            recent: BTreeSet::new(alloc),
            former: BTreeSet::new(alloc),
            until: MEMORY,
        }
    }

    /// Remembers that this was sent to this address for a transaction at the moment `now`, and says
    /// whether it was sent before.
    ///
    /// # Errors
    ///
    /// Memory ran out.
    pub(crate) fn add(
        &mut self,
        now: u64,
        key: Option<&SharedKey>,
        to: Addr,
        bytes: &[u8],
    ) -> Result<bool, AllocError> {
        if now >= self.until {
            self.former = mem::replace(&mut self.recent, BTreeSet::new(self.alloc));
            self.until = now.saturating_add(MEMORY);
        }
        let branch = match key {
            Some(key) => key.get().branch(),
            None => b"".as_slice(),
        };
        let address = hash_of(hash_of(OFFSET, &to.ip), &to.port.to_be_bytes());
        let hash = hash_of(hash_of(address, branch), bytes);
        let is_new = self.recent.insert(hash)?;
        Ok(!is_new || self.former.contains(&hash))
    }
}

// Continues the hash with these bytes.
fn hash_of(hash: u64, bytes: &[u8]) -> u64 {
    let mut hash = hash;
    for byte in bytes {
        hash = (hash ^ u64::from(*byte)).wrapping_mul(PRIME);
    }
    hash
}
