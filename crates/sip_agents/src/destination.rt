//! Which agent an event is for.

ghost use Rattle.std.specs.Prelude.{◌≡◌, ◌<◌, ◌≤◌, IfOk};
ghost use Rattle.sip_agents.specs.Destination as spec;

use crate::call_id::agent_of_datagram;
use sip_message::Cut;
use sip_round::Event;
use std::alloc::{AllocError, Global};

/// Which of several agents an event is for.
#[derive(Clone, Copy, Debug, PartialEq, Eq)]
pub enum Destination {
    /// The agent with this number, from 0.
    One(usize),
    /// Each of them.
    All,
}

/// Which of `agents` agents an event is for, if `cut` distributes Call-IDs among them. A command is
/// for the agent of its Call-ID, and so is a datagram; one without a Call-ID is for the first
/// agent. A failed send is for all: nothing but its transaction heeds it.
///
/// Of a datagram it reads the header lines alone, up to the Call-ID. It takes memory only where a
/// line that may be the Call-ID is folded.
///
/// # Errors
///
/// Memory ran out.
pub fn destination_of<A: Cut>(
    alloc: Global,
    cut: &A,
    agents: usize,
    event: &Event,
) -> Result<Destination, AllocError>
    requires some { 0 < agents }
    requires most { agents ≤ 16 }
    ensures { IfOk result (λ destination. destination
        ≡ spec.destination (spec.agent_of (A.shard_of cut.now) agents) event.now) }
{
    match event {
        Event::Datagram { bytes, .. } => {
            let agent = agent_of_datagram(alloc, cut, agents, bytes.as_slice())?;
            Ok(Destination::One(agent))
        }
        Event::Command(command) => {
            let agent = cut.shard(command.call_id().as_slice(), agents);
            Ok(Destination::One(agent))
        }
        Event::Failed(_) => Ok(Destination::All),
    }
}
