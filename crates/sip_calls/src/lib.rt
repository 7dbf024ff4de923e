//! Calls: all that is held under one Call-ID, and the shard of many calls.
#![tactic(auto)]

mod call;
mod calls;
mod laws;
mod same_calls;
mod shard;

pub use call::Call;
pub use calls::Calls;
pub use laws::{
    a_client_request_holds_its_history, a_dialog_holds_its_history, a_dialog_is_held_until_it_ends,
    a_dialog_owes_as_told, a_request_holds_its_history, a_response_awaits_its_prack_as_told,
    an_invite_awaits_its_ack_as_told, each_end_is_told_once, each_notice_is_of_its_call,
    each_request_is_told_once, provisionals_shown_in_order, refused_commands_change_nothing,
    requests_are_held_by_id, the_rules_say_the_steps,
};
pub use shard::CallShard;
pub use sip_clients::{Client, Clients, names_differ};
pub use sip_user::{CallOut, Item, Notice, UserCommand};
