//! What the user of a call asks for and is told: commands, notices and refusals; and what a call is
//! given and gives.
#![tactic(auto)]

mod command;
mod item;
mod notice;
pub mod outputs;
mod refusal;

pub use command::{
    AbandonDialog, AbandonRequest, Cancel, DialogBody, DialogRequest, Invite, Plain,
    ProvisionalSupport, Reliability, Respond, UserCommand,
};
pub use item::{CallOut, Item};
pub use notice::Notice;
pub use refusal::Refusal;
