//! The columns of a ladder.

ghost use Rattle.std.specs.Prelude.{◌≡◌, ◌≤◌, List, [], ◌∷◌, ◌++◌, length, map, take, IfOk, OnOk};
ghost use Rattle.sip_ladder.specs.Row as row;
ghost use Rattle.sip_ladder.specs.Columns as spec;
ghost use Rattle.sip_message.specs.declared.addr.Addr as addr;

use crate::line::Line;
use sip_message::Addr;
use sip_text::Series;
use std::alloc::{AllocError, Global};

/// How many peers have a column of their own. All others share the last one.
const MOST_PEERS: usize = 11;

/// How many characters the columns may take together, and how far apart two neighbours may be.
const SPACE: usize = 36;

const MOST_WIDTH: usize = 18;

/// The columns of the peers, from the left. The agent's column stands before them.
#[derive(Drop)]
pub struct Columns {
    pub peers: Series<Addr>,
    pub count: usize,
    /// How many characters a column stands after the one before it.
    pub width: usize,
}

impl Columns {
    /// A column for each peer of the lines, in the order in which they come.
    #[tactic(auto, unfolding(crate::specs::Columns::columns_of))]
    pub(crate) fn of(alloc: Global, lines: &[Line]) -> Result<Columns, AllocError>
        ensures { IfOk result (λ columns.
            columns ≡ spec.columns_of (map (λ line. line.way) lines.now)) }
    {
        let mut peers = Vec::new(alloc);
        for line in lines {
            if let Some(peer) = line.way.peer() {
                add_peer(&mut peers, peer)?;
            }
        }
        let count = peers.len();
        peers.truncate(MOST_PEERS);
        Ok(Columns {
            peers: Series::from_vec(peers),
            count,
            width: (SPACE / count.max(1)).min(MOST_WIDTH),
        })
    }

    /// How many columns of peers stand before the column of this one.
    pub(crate) fn place(&self, peer: Addr) -> usize
        ensures { result ≡ row.place_of self.now.peers peer }
    {
        place_in(self.peers.as_slice(), peer)
    }
}

// Adds a peer that isn't there, if there is room for one more column.
fn add_peer(peers: &mut Vec<Addr>, peer: Addr) -> Result<(), AllocError>
    ensures { (all : List addr.Addr) → peers.old.items ≡ take 12 (spec.distinct all)
        → OnOk result (peers.new.items ≡ take 12 (spec.distinct (all ++ peer ∷ []))) }
{
    let known = peers.len();
    if known > MOST_PEERS || place_in(peers.as_slice(), peer) < known {
        return Ok(());
    }
    peers.push(peer)?;
    Ok(())
}

// How many peers stand before this one; all of them if it isn't there.
fn place_in(peers: &[Addr], address: Addr) -> usize
    ensures place { result ≡ row.place_of peers.now address }
    ensures bound { result ≤ length peers.now }
{
    let Some((peer, others)) = peers.split_first() else {
        return 0;
    };
    if is_same(*peer, address) {
        0
    } else {
        1 + place_in(others, address)
    }
}

fn is_same(one: Addr, other: Addr) -> bool
    ensures { result ≡ row.is_same_address one other }
{
    one.port == other.port && one.ip.as_slice() == other.ip.as_slice()
}
