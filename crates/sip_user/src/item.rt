//! What a call is given, and what it gives.

ghost use Rattle.std.specs.Prelude.{◌≡◌};

use crate::command::UserCommand;
use crate::notice::Notice;
use sip_message::{Addr, CallId, Id};
use sip_text::Text;
use sip_transactions::{Command, Up};

/// What a call is given: what a transaction hands up, or a command of the user.
#[derive(Drop)]
pub enum Item {
    Up(Up),
    User(UserCommand),
}

impl Item {
    ghost use Rattle.sip_user.specs.Command.{call_of_item};

    /// The Call-ID of the call that takes it.
    pub fn call_id(&self) -> &CallId
        ensures { result.now ≡ call_of_item self.now }
    {
        match self {
            Item::Up(up) => &up.call_id,
            Item::User(command) => command.call_id(),
        }
    }
}

/// What a call gives.
#[derive(Drop)]
pub enum CallOut {
    Notice(Notice),
    /// A command for the transaction of the request of this id.
    Command(Id, Command),
    /// Bytes that are sent outside of any transaction.
    Direct { to: Addr, bytes: Text },
}
