//! Dialogs (RFC 3261, section 12): how a dialog begins, what changes it, and the requests that are
//! sent in it.
#![tactic(auto)]

mod address;
mod branch;
mod dialog;
mod endpoint;
mod fault;
mod laws;
mod opening;
mod own_headers;
mod request;
mod route;
mod same;
mod uri_text;

pub use branch::Branch;
pub use dialog::{Dialog, DialogState, Side};
pub use endpoint::Endpoint;
pub use fault::DialogFault;
pub use laws::an_address_has_its_own_texts;
pub use own_headers::{own_contact, own_via};
