//! The ledgers of reliable provisional responses (RFC 3262): those that a caller takes, and those
//! that a callee sends and sends again.
#![tactic(auto)]

mod inbound;
mod no_match;
mod offer;
mod outbound;
mod provisional;
mod send_fault;
mod tick;
mod waiting;

pub use inbound::{Inbound, taken_in_order};
pub use no_match::NoMatch;
pub use offer::Offer;
pub use outbound::Outbound;
pub use provisional::MOST_WAITING;
pub use send_fault::SendFault;
pub use tick::Tick;
