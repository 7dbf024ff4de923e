//! Which transaction a message is for, and responses to other senders.

ghost use Rattle.std.specs.Prelude.{◌≡◌, IfOk};
ghost use Rattle.sip_transactions.specs.Shard as spec;

use crate::input::Input;
use sip_message::{Addr, Id, Message, SharedKey, is_sent_by, key_of};
use sip_text::Boxed;
use std::alloc::{AllocError, Global};

/// Whether the message is a response whose top Via names a sender other than the agent (RFC 3261,
/// section 18.1.2).
pub fn is_stray(local: Addr, message: &Message) -> bool
    ensures { result ≡ spec.is_stray local message.now }
{
    !message.is_request() && !is_sent_by(message, local)
}

/// The key of the transaction that a message is for, and the input that it is to it. A request is
/// stamped with its source, and its answers go to `reply_to`. A response to another sender is for
/// none.
pub fn keyed_input(
    alloc: Global,
    local: Addr,
    id: Id,
    message: Message,
    reply_to: Addr,
) -> Result<Option<(SharedKey, Input)>, AllocError>
    ensures { IfOk result (λ input. input ≡ spec.keyed_input local id message reply_to) }
{
    if is_stray(local, &message) {
        return Ok(None);
    }
    let key = key_of(alloc, &message)?;
    let message = Boxed::new(alloc, message)?;
    let input = Input::Receive {
        id,
        message,
        reply_to,
    };
    Ok(Some((key, input)))
}
