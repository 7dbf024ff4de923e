//! What an input is to a transaction.

ghost use Rattle.std.specs.Prelude.{◌≡◌, codes, IfSome};
ghost use Rattle.std.specs.Option.{option_copied};
ghost use Rattle.sip_transactions.specs.Repeats.{RepeatIsDue};
ghost use Rattle.sip_transactions.specs.Steps.Input.{class_of, trigger_of, arrival_of, answer_of, tick_of, is_same_method};

use crate::input::Input;
use crate::life::Life;
use sip_message::{Message, StartLine, StatusCode};

/// The class of a response's status.
#[derive(Clone, Copy)]
pub enum Class {
    /// 100.
    Trying,
    /// 101 to 199.
    Provisional,
    /// 200 to 299.
    Success,
    /// 300 to 699.
    Failure,
}

/// What an input is to a transaction, by which its row is chosen.
#[derive(Clone, Copy)]
pub enum Trigger {
    /// The user starts a client transaction.
    Start,
    /// The moment to send again has come.
    RetransmitDue,
    /// The moment to end has come.
    TimeoutDue,
    /// A send failed.
    Failed,
    /// A response came.
    Response(Class),
    /// A request came, other than ACK.
    Request,
    /// An ACK came.
    Ack,
    /// The user answers with a response.
    Answer(Class),
}

/// The class of a status code.
pub fn class_of(status: StatusCode) -> Class
    ensures { result ≡ class_of status }
{
    match status.code() {
        100 => Class::Trying,
        101..=199 => Class::Provisional,
        200..=299 => Class::Success,
        _ => Class::Failure,
    }
}

/// What an input at a moment is to a transaction, or a tick if there is no input.
pub fn trigger_of(held: Option<&Life>, now: u64, input: Option<&Input>) -> Option<Trigger>
    ensures value { result ≡ trigger_of (option_copied held.entry) now (option_copied input.entry) }
    ensures repeat { IfSome result
        (λ trigger. RepeatIsDue trigger now (option_copied held.entry)) }
{
    match input {
        None => tick_of(now, held),
        Some(Input::Receive { message, .. }) => Some(arrival_of(message.get())),
        Some(Input::Start { .. }) => Some(Trigger::Start),
        Some(Input::Answer { message, .. }) => answer_of(message.get()),
        Some(Input::Failed { .. }) => Some(Trigger::Failed),
        Some(Input::Abandon) => None,
    }
}

fn arrival_of(message: &Message) -> Trigger
    ensures { result ≡ arrival_of message.now.start message.now.cseq.method }
{
    match &message.start {
        StartLine::Request { .. } if is_ack(message) => Trigger::Ack,
        StartLine::Request { .. } => Trigger::Request,
        StartLine::Response { status, .. } => Trigger::Response(class_of(*status)),
    }
}

/// Whether the message's method is ACK.
pub fn is_ack(message: &Message) -> bool
    ensures { result ≡ is_same_method message.now.cseq.method (codes "ACK") }
{
    message.cseq.method.as_slice() == b"ACK".as_slice()
}

fn answer_of(message: &Message) -> Option<Trigger>
    ensures { result ≡ answer_of message.now.start }
{
    match &message.start {
        StartLine::Request { .. } => None,
        StartLine::Response { status, .. } => Some(Trigger::Answer(class_of(*status))),
    }
}

fn tick_of(now: u64, held: Option<&Life>) -> Option<Trigger>
    ensures value { result ≡ tick_of now (option_copied held.entry) }
    ensures repeat { IfSome result
        (λ trigger. RepeatIsDue trigger now (option_copied held.entry)) }
{
    match held {
        None => None,
        Some(life) if life.context.timers.is_ending_due(now) => Some(Trigger::TimeoutDue),
        Some(life) if life.context.timers.is_repeat_due(now) => Some(Trigger::RetransmitDue),
        Some(_) => None,
    }
}
