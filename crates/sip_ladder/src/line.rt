//! The lines of a ladder.

ghost use Rattle.std.specs.Prelude.{IsTrue};
ghost use Rattle.std.specs.List.{list_all};
ghost use Rattle.sip_ladder.specs.Label.{is_printable};

use sip_message::Addr;
use sip_text::Text;

/// Where a line's arrow is drawn.
#[derive(Clone, Copy)]
pub enum Way {
    /// From this peer to the agent.
    In(Addr),
    /// From the agent to this peer.
    Out(Addr),
    /// There is no arrow: the line stands at the agent's column.
    Own,
}

impl Way {
    ghost use Rattle.std.specs.Prelude.{◌≡◌};
    ghost use Rattle.sip_ladder.specs.Columns.{peer_of};

    /// The peer of an arrow.
    pub(crate) fn peer(self) -> Option<Addr>
        ensures { result ≡ peer_of self }
    {
        match self {
            Way::In(peer) | Way::Out(peer) => Some(peer),
            Way::Own => None,
        }
    }
}

/// A line of a ladder.
#[derive(Drop)]
pub struct Line {
    /// In ms.
    pub moment: u64,
    pub way: Way,
    /// The text beside the arrow, without a line end.
    pub label: Text,
    ghost printable: { IsTrue (list_all is_printable label) },
}
