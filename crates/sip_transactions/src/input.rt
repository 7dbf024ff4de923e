//! What comes to a transaction.

ghost use Rattle.std.specs.Prelude.{◌≡◌, Some};

use sip_message::{Addr, CallId, Id, Message, SharedKey};
use sip_text::Boxed;

/// What the user of the transactions asks.
pub enum Command {
    /// Starts a client transaction, which sends the request to an address.
    Start {
        key: SharedKey,
        call_id: CallId,
        message: Boxed<Message>,
        to: Addr,
    },
    /// Answers a server transaction's request with a response.
    Answer {
        key: SharedKey,
        message: Boxed<Message>,
    },
    /// Ends a transaction, whatever its state: nothing more is sent or handed up.
    Abandon {
        key: SharedKey,
    },
}

impl Command {
    ghost use Rattle.sip_transactions.specs.Shard.{command_key, asked_by};

    /// The key of the transaction that it is for, and the input that it is to it, with this id if
    /// it has one.
    pub fn addressed(self, id: Id) -> (SharedKey, Input)
        ensures { result ≡ (command_key self, asked_by id self) }
    {
        match self {
            Command::Start {
                key,
                call_id,
                message,
                to,
            } => (
                key,
                Input::Start {
                    id,
                    call_id,
                    message,
                    to,
                },
            ),
            Command::Answer { key, message } => (key, Input::Answer { id, message }),
            Command::Abandon { key } => (key, Input::Abandon),
        }
    }
}

impl Drop for Command {
    fn drop(self) {
        match self {
            Command::Start {
                key: _,
                call_id: _,
                message: _,
                to: _,
            } => {}
            Command::Answer { key: _, message: _ } => {}
            Command::Abandon { key: _ } => {}
        }
    }
}

/// One input of one transaction.
#[derive(Drop)]
pub enum Input {
    /// A message came. A response to it goes to `reply_to`.
    Receive {
        id: Id,
        message: Boxed<Message>,
        reply_to: Addr,
    },
    /// The user starts the transaction.
    Start {
        id: Id,
        call_id: CallId,
        message: Boxed<Message>,
        to: Addr,
    },
    /// The user answers.
    Answer {
        id: Id,
        message: Boxed<Message>,
    },
    /// A send failed.
    Failed {
        id: Id,
    },
    /// The user gives the transaction up.
    Abandon,
}

impl Input {
    ghost use Rattle.std.specs.Option.{option_copied};
    ghost use Rattle.sip_transactions.specs.Steps.Input.{message_in, arrived_in};

    /// The message that came or that the user gave, if there is one.
    pub(crate) fn message(&self) -> Option<&Message>
        ensures { option_copied result ≡ message_in (Some self.now) }
    {
        match self {
            Input::Receive { message, .. }
            | Input::Start { message, .. }
            | Input::Answer { message, .. } => Some(message.get()),
            Input::Failed { .. } | Input::Abandon => None,
        }
    }

    /// The message that came, if one did, and the address of a response to it.
    pub(crate) fn into_arrived(self) -> Option<(Boxed<Message>, Addr)>
        ensures { result ≡ arrived_in (Some self) }
    {
        match self {
            Input::Receive {
                message,
                reply_to,
                ..
            } => Some((message, reply_to)),
            Input::Start { .. } | Input::Answer { .. } | Input::Failed { .. } | Input::Abandon =>
                None,
        }
    }
}
