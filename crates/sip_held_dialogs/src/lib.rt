//! The dialogs that a call holds, which both of its sides share, and what a request or a response
//! says.
#![tactic(auto)]

mod dialog_map;
pub mod dialogs;
mod held_dialog;
mod laws;
mod pending_request;
pub mod request;
mod same_dialogs;

pub use dialog_map::{DialogList, Dialogs};
pub use held_dialog::{DialogId, DialogReference, HeldDialog};
pub use laws::a_dialog_stands_for_its_story;
pub use pending_request::PendingRequest;
