//! The header lines of a message, gathered by header (RFC 3261, section 7.3).
#![tactic(auto)]

mod faultless;
mod faults;
mod folding;
mod header_fields;
mod laws;
mod line_class;
mod numbers;
mod slot;

pub use faultless::Faultless;
pub use faults::Presence;
pub use folding::{Whole, gather, whole_line};
pub use header_fields::{HeaderFields, long_name};
pub use laws::{what_headers_are, what_is_gathered, what_is_missing, what_is_repeated};
pub use line_class::{LineClass, class_of};
pub use numbers::{Numbers, with_ports};
pub use slot::{Slot, read_list, read_once};
