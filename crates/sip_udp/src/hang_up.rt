//! The end of a dialog: its BYE.

ghost use Rattle.std.specs.Prelude.{◌≡◌, [], IfOk, codes};
ghost use Rattle.sip_message.specs.Content.{content_of_body};

use sip_message::{CallId, Content, Token};
use sip_round::Event;
use sip_text::Text;
use sip_user::{DialogRequest, UserCommand};
use std::alloc::{AllocError, Global};

/// No headers and no body.
pub(crate) fn nothing(alloc: Global) -> Content
    ensures { result ≡ content_of_body [] }
{
    let body = Text::from_vec(Vec::new(alloc));
    Content::of_body(body)
}

/// Ends a dialog: asks for its BYE.
///
/// # Errors
///
/// Memory ran out.
pub(crate) fn end_dialog(
    alloc: Global,
    call_id: &CallId,
    local_tag: &Text,
    remote_tag: &Text,
    events: &mut Vec<Event>,
) -> Result<(), AllocError> {
    let call_id = call_id.clone()?;
    let local_tag = Token::new(local_tag.clone()?);
    let remote_tag = Token::new(remote_tag.clone()?);
    let request = DialogRequest {
        call_id,
        local_tag,
        remote_tag,
        method: bye_method(alloc)?,
        content: nothing(alloc),
    };
    events.push(Event::Command(UserCommand::Request(request)))?;
    Ok(())
}

#[tactic(auto, unfolding(sip_text::specs::Token::is_token, sip_text::specs::Token::is_token_byte))]
fn bye_method(alloc: Global) -> Result<Token, AllocError>
    ensures { IfOk result (λ token. token ≡ codes "BYE") }
{
    Token::copy_of(alloc, b"BYE")
}
