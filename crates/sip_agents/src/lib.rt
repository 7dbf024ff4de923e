//! Several agents that share one user agent's work: each call goes to the agent of its Call-ID.
#![tactic(auto)]

mod call_id;
mod destination;
mod laws;
mod stripes;

pub use destination::{Destination, destination_of};
pub use laws::{
    call_id_of_each_message, each_id_says_its_agent, failure_elsewhere_does_nothing,
    names_of_agents_differ,
};
pub use stripes::{MAX_AGENTS, STRIPE, agent_of_id, config_of};
