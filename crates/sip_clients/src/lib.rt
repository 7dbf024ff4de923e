//! The client side of one Call-ID: the requests that were sent and wait for their responses, the
//! dialogs that the responses make, and the names that the agent makes.
#![tactic(auto)]

mod abandon;
mod answers;
mod cancel_command;
mod chacha;
mod client;
mod client_map;
mod clients;
mod commands;
mod dialogs;
mod event;
mod held;
mod laws;
mod name;
mod outputs;
mod outside;
mod pending;
mod replied;
mod reply;
mod rules;
mod same_clients;
mod send_outcome;
mod tick;

pub use answers::{Answers, SentAck};
pub use client::{Cancelling, Client, RequestKind};
pub use clients::Clients;
pub use event::Event;
pub use laws::{
    a_cancel_waits_for_a_provisional, each_client_request_is_told,
    each_client_request_keeps_the_rules, each_notice_is_of_its_call, each_request_has_its_branch,
    names_differ, no_other_step_sends_a_cancel_or_an_ack, quiet_until_due,
};
pub use name::{made_name, opening_tag};
pub use rules::{commands_are_by_the_rules, responses_and_ends_are_by_the_rules};
