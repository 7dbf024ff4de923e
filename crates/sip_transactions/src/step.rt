//! What a row does.

ghost use Rattle.std.specs.Prelude.{◌≡◌};

use crate::state::State;

/// The state after a row.
#[derive(Clone, Copy)]
pub enum Next {
    /// The state stays.
    Same,
    /// The transaction ends.
    Ended,
    /// The transaction is in this state.
    Become(State),
}

/// What a row hands up.
#[derive(Clone, Copy)]
pub enum UpAction {
    /// Nothing.
    Nothing,
    /// The message that came.
    Message,
    /// The report that no response came in time, or no ACK.
    Timeout,
    /// The report that a send failed.
    Failed,
    /// Nothing: the response is dropped, since no transaction waits for it.
    NoTransaction,
}

/// What a row sends.
#[derive(Clone, Copy)]
pub enum Sent {
    /// Nothing.
    Nothing,
    /// The message that the user gave.
    Given,
    /// The message that was sent last, once more.
    Latest,
    /// 100 Trying to the request that came.
    Trying,
    /// The ACK of the response that came, made from it and the request that the life keeps.
    Ack,
}

/// The intervals between repeats. `j` counts how often the repeat has fired.
#[derive(Clone, Copy)]
pub enum Pace {
    /// T1 * 2^j.
    Doubled,
    /// T1 * 2^j, at most T2.
    Capped,
    /// T2.
    Even,
}

/// What a row does to the two due moments.
#[derive(Clone, Copy)]
pub enum Due {
    /// Both stay.
    Keep,
    /// Nothing is due any more.
    Clear,
    /// Only the end is due, after this time in milliseconds.
    Ending(u32),
    /// The repeat is due after T1, and the end after 64 times T1.
    Both,
    /// The repeat has fired, and is due again after the next interval. The end stays.
    Again(Pace),
}

/// What a row does.
#[derive(Clone, Copy)]
pub struct Step {
    pub next: Next,
    pub handed: UpAction,
    pub sent: Sent,
    pub due: Due,
}

impl Step {
    /// The transaction enters a state.
    pub fn enter(state: State, handed: UpAction, sent: Sent, due: Due) -> Step
        ensures { result ≡ record {
          next = Next.Become state;
          handed = handed;
          sent = sent;
          due = due;
        } }
    {
        Step {
            next: Next::Become(state),
            handed,
            sent,
            due,
        }
    }

    /// The state and both due moments stay.
    pub fn stay(handed: UpAction, sent: Sent) -> Step
        ensures { result ≡ record {
          next = Next.Same;
          handed = handed;
          sent = sent;
          due = Due.Keep;
        } }
    {
        Step {
            next: Next::Same,
            handed,
            sent,
            due: Due::Keep,
        }
    }

    /// The repeat fires: what was sent last is sent once more.
    pub fn repeat(pace: Pace) -> Step
        ensures { result
            ≡ record {
              next = Next.Same;
              handed = UpAction.Nothing;
              sent = Sent.Latest;
              due = Due.Again pace;
            } }
    {
        Step {
            next: Next::Same,
            handed: UpAction::Nothing,
            sent: Sent::Latest,
            due: Due::Again(pace),
        }
    }

    /// The transaction ends.
    pub fn end(handed: UpAction) -> Step
        ensures { let quiet = Sent.Nothing in
            result ≡ record { next = Next.Ended; handed = handed; sent = quiet; due = Due.Clear } }
    {
        Step {
            next: Next::Ended,
            handed,
            sent: Sent::Nothing,
            due: Due::Clear,
        }
    }
}
