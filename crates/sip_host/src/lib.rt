//! An agent for a host that has the socket, the clock and the user. It takes datagrams, commands
//! and moments as values, and gives its outputs one after another. It starts no thread.
#![tactic(auto)]

mod absolute;
mod addresses;
mod asking;
mod field;
mod fields;
mod given;
mod handing;
mod header_texts;
mod holdings;
mod host;
mod host_fault;
mod line_length;
mod next_output;
mod request_traits;
mod resume_fault;
mod session_events;
mod session_round;
mod start_length;

pub use addresses::{AddressLength, address_at, party_in};
pub use field::Field;
pub use fields::{
    AbandonDialogFields, AbandonRequestFields, BodyFields, CancelFields, CommandFields,
    InviteFields, PlainFields, RequestFields, RespondFields,
};
pub use handing::put;
pub use holdings::Holdings;
pub use host::Host;
pub use host_fault::HostFault;
pub use line_length::LineLength;
pub use next_output::NextOutput;
pub use request_traits::RequestTraits;
pub use resume_fault::ResumeFault;
pub use start_length::StartLength;
