//! The tables, as code (RFC 3261, sections 17.1 and 17.2, and RFC 6026, section 7). Beside an arm
//! are the letters of the timers that it sets (+) or that fire in it (!).

ghost use Rattle.std.specs.Prelude.{◌≡◌, IfSome};
ghost use Rattle.sip_transactions.specs.Repeats.{FiresWhenDue};
ghost use Rattle.sip_transactions.specs.Rows.{row_of, rows_of, invite_client_rows, client_rows, invite_server_rows, server_rows};

use crate::state::Role;
use crate::state::State::{self, Accepted, Calling, Completed, Confirmed, Proceeding, Trying};
use crate::step::{Due, Pace, Sent, Step, UpAction};
use crate::timers::T4;
use crate::trigger::Class;
use crate::trigger::Trigger::{
    self, Ack, Answer, Failed, Request, Response, RetransmitDue, Start, TimeoutDue,
};
use sip_timers::LIFETIME;

/// The row of a table that fits a state and a trigger. No state is `None`.
pub fn step_of(role: Role, state: Option<State>, trigger: Trigger) -> Option<Step>
    ensures row { result ≡ row_of (rows_of role) state trigger }
    ensures repeat { IfSome result (λ step. FiresWhenDue step.due trigger) }
{
    match role {
        Role::InviteClient => invite_client_step(state, trigger),
        Role::Client => client_step(state, trigger),
        Role::InviteServer => invite_server_step(state, trigger),
        Role::Server => server_step(state, trigger),
    }
}

// The table of the client of an INVITE.
fn invite_client_step(state: Option<State>, trigger: Trigger) -> Option<Step>
    ensures row { result ≡ row_of invite_client_rows state trigger }
    ensures repeat { IfSome result (λ step. FiresWhenDue step.due trigger) }
{
    let step = match (state, trigger) {
        (None, Start) => Step::enter(Calling, UpAction::Nothing, Sent::Given, Due::Both), // +A +B
        (Some(Calling), RetransmitDue) => Step::repeat(Pace::Doubled), // !A +A
        (Some(Calling), TimeoutDue) => Step::end(UpAction::Timeout), // !B
        (Some(Calling | Completed), Failed) => Step::end(UpAction::Failed),
        (Some(Calling | Proceeding), Response(Class::Trying | Class::Provisional)) => Step::enter(
            Proceeding,
            UpAction::Message,
            Sent::Nothing,
            Due::Clear,
        ),
        (Some(Calling | Proceeding), Response(Class::Success)) => Step::enter(
            Accepted,
            UpAction::Message,
            Sent::Nothing,
            Due::Ending(LIFETIME),
        ), // +M
        (Some(Calling | Proceeding), Response(Class::Failure)) => Step::enter(
            Completed,
            UpAction::Message,
            Sent::Ack,
            Due::Ending(LIFETIME),
        ), // +D
        (Some(Completed), Response(Class::Failure)) => Step::stay(UpAction::Nothing, Sent::Latest),
        (Some(Accepted), Response(Class::Success)) => Step::stay(UpAction::Message, Sent::Nothing),
        (Some(Completed | Accepted), TimeoutDue) => Step::end(UpAction::Nothing), // !D !M
        (None, Response(_)) => Step::end(UpAction::NoTransaction),
        _ => return None,
    };
    Some(step)
}

// The table of the client of any other request.
fn client_step(state: Option<State>, trigger: Trigger) -> Option<Step>
    ensures row { result ≡ row_of client_rows state trigger }
    ensures repeat { IfSome result (λ step. FiresWhenDue step.due trigger) }
{
    let step = match (state, trigger) {
        (None, Start) => Step::enter(Trying, UpAction::Nothing, Sent::Given, Due::Both), // +E +F
        (Some(Trying), RetransmitDue) => Step::repeat(Pace::Capped), // !E +E
        (Some(Proceeding), RetransmitDue) => Step::repeat(Pace::Even), // !E +E
        (Some(Trying | Proceeding), TimeoutDue) => Step::end(UpAction::Timeout), // !F
        (Some(Trying | Proceeding), Failed) => Step::end(UpAction::Failed),
        (Some(Trying | Proceeding), Response(Class::Trying | Class::Provisional)) => Step::enter(
            Proceeding,
            UpAction::Message,
            Sent::Nothing,
            Due::Keep,
        ),
        (Some(Trying | Proceeding), Response(Class::Success | Class::Failure)) => Step::enter(
            Completed,
            UpAction::Message,
            Sent::Nothing,
            Due::Ending(T4),
        ), // +K
        (Some(Completed), TimeoutDue) => Step::end(UpAction::Nothing), // !K
        (None, Response(_)) => Step::end(UpAction::NoTransaction),
        _ => return None,
    };
    Some(step)
}

// The table of the server of an INVITE.
fn invite_server_step(state: Option<State>, trigger: Trigger) -> Option<Step>
    ensures row { result ≡ row_of invite_server_rows state trigger }
    ensures repeat { IfSome result (λ step. FiresWhenDue step.due trigger) }
{
    let step = match (state, trigger) {
        (None, Request) => Step::enter(Proceeding, UpAction::Message, Sent::Trying, Due::Clear),
        (Some(Proceeding | Completed), Request) => Step::stay(UpAction::Nothing, Sent::Latest),
        (Some(Proceeding), Answer(Class::Provisional)) => Step::stay(
            UpAction::Nothing,
            Sent::Given,
        ),
        (Some(Proceeding), Answer(Class::Success)) => Step::enter(
            Accepted,
            UpAction::Nothing,
            Sent::Given,
            Due::Ending(LIFETIME),
        ), // +L
        (Some(Proceeding), Answer(Class::Failure)) => Step::enter(
            Completed,
            UpAction::Nothing,
            Sent::Given,
            Due::Both,
        ), // +G +H
        (Some(Completed), RetransmitDue) => Step::repeat(Pace::Capped), // !G +G
        (Some(Completed), Ack) => Step::enter(
            Confirmed,
            UpAction::Nothing,
            Sent::Nothing,
            Due::Ending(T4),
        ), // +I
        (Some(Completed), TimeoutDue) => Step::end(UpAction::Timeout), // !H
        (Some(Accepted), Ack) => Step::stay(UpAction::Message, Sent::Nothing),
        (Some(Accepted), Answer(Class::Success)) => Step::stay(UpAction::Nothing, Sent::Given),
        (Some(Confirmed | Accepted), TimeoutDue) => Step::end(UpAction::Nothing), // !I !L
        (Some(Proceeding | Completed | Accepted | Confirmed), Failed) => Step::stay(
            UpAction::Failed,
            Sent::Nothing,
        ),
        (None, Ack) => Step::end(UpAction::Message),
        _ => return None,
    };
    Some(step)
}

// The table of the server of any other request.
fn server_step(state: Option<State>, trigger: Trigger) -> Option<Step>
    ensures row { result ≡ row_of server_rows state trigger }
    ensures repeat { IfSome result (λ step. FiresWhenDue step.due trigger) }
{
    let step = match (state, trigger) {
        (None, Request) => Step::enter(Trying, UpAction::Message, Sent::Nothing, Due::Clear),
        (Some(Trying | Proceeding), Answer(Class::Provisional)) => Step::enter(
            Proceeding,
            UpAction::Nothing,
            Sent::Given,
            Due::Clear,
        ),
        (Some(Trying | Proceeding), Answer(Class::Success | Class::Failure)) => Step::enter(
            Completed,
            UpAction::Nothing,
            Sent::Given,
            Due::Ending(LIFETIME),
        ), // +J
        (Some(Proceeding | Completed), Request) => Step::stay(UpAction::Nothing, Sent::Latest),
        (Some(Completed), TimeoutDue) => Step::end(UpAction::Nothing), // !J
        (Some(Trying | Proceeding | Completed), Failed) => Step::stay(
            UpAction::Failed,
            Sent::Nothing,
        ),
        _ => return None,
    };
    Some(step)
}
