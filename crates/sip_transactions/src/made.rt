//! The messages that a transaction makes: 100 Trying, and the ACK of a final response of 300 to
//! 699.

ghost use Rattle.std.specs.Prelude.{◌≡◌, IfOk, codes};
ghost use Rattle.std.specs.Option.{option_copied};
ghost use Rattle.sip_message.specs.Written.{written};
ghost use Rattle.sip_transactions.specs.Steps.Output.{made_bytes, trying_of};

use crate::step::Sent;
use sip_message::{Message, Reason, StatusCode, ack_for, response_to, write};
use sip_text::Text;
use std::alloc::{AllocError, Global};

/// The status of 100 Trying.
const TRYING: u16 = 100;

/// The bytes of the message that a row makes, if it makes one. It is made from a message that came
/// or that the user gave; an ACK also from the request that the life keeps.
#[tactic(auto, unfolding(crate::specs::Steps::Output::made_of))]
pub(crate) fn made_bytes(
    alloc: Global,
    request: Option<&Message>,
    sent: Sent,
    message: Option<&Message>,
) -> Result<Option<Text>, AllocError>
    ensures { let bytes = made_bytes (option_copied request.entry) sent
        (option_copied message.entry) in
        IfOk result (λ made. made ≡ bytes) }
{
    let Some(message) = message else {
        return Ok(None);
    };
    match (sent, request) {
        (Sent::Given, _) => Ok(Some(text_of(alloc, message)?)),
        (Sent::Trying, _) => Ok(Some(text_of(alloc, &trying_for(alloc, message)?)?)),
        (Sent::Ack, Some(request)) => {
            Ok(Some(text_of(alloc, &ack_for(alloc, request, message)?)?))
        }
        (Sent::Ack, None) | (Sent::Nothing | Sent::Latest, _) => Ok(None),
    }
}

fn text_of(alloc: Global, message: &Message) -> Result<Text, AllocError>
    ensures { IfOk result (λ text. text ≡ written message.now) }
{
    Ok(Text::from_vec(write(alloc, message)?))
}

// A 100 gets no To tag.
fn trying_for(alloc: Global, request: &Message) -> Result<Message, AllocError>
    ensures { IfOk result (λ made. made ≡ trying_of request.now) }
{
    let status = StatusCode::from_code(TRYING);
    response_to(alloc, request, status, trying(alloc)?, request.method())
}

#[tactic(auto, unfolding(sip_grammar::specs::Reason::is_reason))]
fn trying(alloc: Global) -> Result<Reason, AllocError>
    ensures { IfOk result (λ reason. reason ≡ codes "Trying") }
{
    Reason::copy_of(alloc, b"Trying")
}
