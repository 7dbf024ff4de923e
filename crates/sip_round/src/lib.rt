//! Rounds of events, with any number of shards and workers.
#![tactic(auto)]

mod agent;
mod arrival;
mod config;
mod event_run;
mod form;
mod laws;
mod lead;
mod output;
mod outs;
mod phases;
mod reading;
mod round;
mod round_fault;
mod shards;
mod waiting;
mod whole_run;

pub use agent::{Agent, MAX_EVENTS_OF_ROUND, MAX_MOMENT};
pub use config::Config;
pub use laws::{
    each_dialog_holds_its_history, each_dialog_owes_as_told, each_invite_awaits_its_ack,
    each_request_holds_its_history, each_request_is_held_by_id, each_response_awaits_its_prack,
    nothing_after_each_end, one_request_in_each_life, provisionals_in_each_life,
};
pub use output::{Output, PlacedOutput};
pub use round::{Event, Round, datagram_at, event_at};
pub use round_fault::RoundFault;
pub use sip_clients::opening_tag;
pub use sip_workers::{Gate, NoMemory, OpenGate};
pub use whole_run::run;
