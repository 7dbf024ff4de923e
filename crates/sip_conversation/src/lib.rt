//! Laws of two agents over a network: whatever comes to one side, and whatever its user is told of,
//! the other side sent. If the network delivers one of several copies, the requests that one side
//! sends come to the other one.
#![tactic(auto)]

mod delivery;
mod laws;

pub use delivery::{answers_arrive, requests_arrive, requests_go_out, what_is_asked_for_arrives};
pub use laws::{
    acks_follow_responses, acks_told_were_said, calls_hear_unchanged, calls_keep_rules,
    cancels_told_were_asked_for, datagrams_are_texts_said, messages_come_unchanged,
    pracks_follow_responses, pracks_told_were_said, provisionals_come_whole,
    provisionals_told_were_said, requests_told_were_asked_for, responses_told_were_said,
    the_first_is_told_first,
};
