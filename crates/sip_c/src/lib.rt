//! A host's agent, as a static library for C. `include/sip_ua.h` says how to call it.
#![tactic(auto)]

mod addresses;
mod commands;
mod exports;
mod handle;
mod journal;
mod owned;
mod questions;
mod status;
mod typed;
mod values;

pub use addresses::{sip_ua_raw_address, sip_ua_raw_party};
pub use commands::{
    sip_ua_raw_abandon_dialog, sip_ua_raw_abandon_request, sip_ua_raw_ack, sip_ua_raw_cancel,
    sip_ua_raw_header, sip_ua_raw_invite, sip_ua_raw_plain, sip_ua_raw_prack, sip_ua_raw_request,
    sip_ua_raw_respond,
};
pub use exports::{
    sip_ua_raw_datagram, sip_ua_raw_event_line, sip_ua_raw_event_lines, sip_ua_raw_failed,
    sip_ua_raw_free, sip_ua_raw_new, sip_ua_raw_next, sip_ua_raw_next_due, sip_ua_raw_next_output,
    sip_ua_raw_run, sip_ua_raw_skip,
};
pub use handle::Handle;
pub use journal::{sip_ua_raw_resume, sip_ua_raw_round_text};
pub use questions::{
    sip_ua_raw_datagram_at, sip_ua_raw_header_line, sip_ua_raw_header_lines,
    sip_ua_raw_header_value, sip_ua_raw_header_values, sip_ua_raw_last_id, sip_ua_raw_opening_tag,
    sip_ua_raw_request_traits, sip_ua_raw_start_line, sip_ua_raw_stats, sip_ua_raw_would_begin,
};
pub use typed::TypedOutput;
pub use values::{
    Address, AddressLengths, Asked, Configuration, Datagram, Due, EventId, HeaderLengths,
    RequestTraits, Resumed, StartLine, Stats, TextLength, Told,
};
