//! The server side of one Call-ID: the requests that came up, with their answers, and the dialogs.
#![tactic(auto)]

mod acknowledgment;
mod arrival;
mod by_number;
mod change;
mod held_request;
mod held_requests;
mod incoming_cancel;
mod index;
mod indexed_requests;
mod indices;
mod laws;
mod outputs;
mod provisionals;
mod request_keys;
mod requests;
mod respond;
mod retransmissions;
mod same_requests;
mod served;
mod server_side;
mod unsupported;

pub use arrival::Arrival;
pub use held_request::{HeldRequest, Retransmission, Success, SuccessEnd};
pub use laws::{
    a_cancel_answers_as_the_user_would, each_notice_is_of_its_call, each_request_is_told_once,
    few_provisionals_wait, the_rules_say_the_steps, ticks_when_due,
};
pub use provisionals::{Provisionals, ReliableResponse};
pub use served::Served;
pub use server_side::ServerSide;
pub use sip_user::{CallOut, Item, Notice, UserCommand};
