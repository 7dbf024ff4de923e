//! The numbers of the rounds of several agents.

ghost use Rattle.std.specs.Prelude.{◌≡◌, ◌<◌, ◌^◌};
ghost use Rattle.sip_agents.specs.Stripes as spec;

use sip_message::Id;
use sip_round::Config;

/// The maximum number of agents.
pub const MAX_AGENTS: usize = 16;

/// How far apart the numbers of the first rounds of two neighbours are. So the number of an id's
/// round, divided by this, is the number of its agent.
pub const STRIPE: u64 = 1 << 58;

/// The configuration of the agent with this number. Its rounds have numbers of their own, so that
/// no two agents give an event the same id, or make the same name.
pub fn config_of(config: Config, number: usize) -> Config
    requires first { config.first < 2 ^ 58 }
    requires number { number < 16 }
    ensures { result ≡ spec.config_of config number }
{
    let first = config.first + number as u64 * STRIPE;
    Config { first, ..config }
}

/// The number of the agent that gave an event this id. Takes no memory.
pub fn agent_of_id(id: Id) -> usize
    ensures { result ≡ spec.agent_of_id id }
{
    (id.round / STRIPE) as usize
}
