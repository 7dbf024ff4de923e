//! What a request or a response says.

ghost use Rattle.std.specs.Prelude.{◌≡◌, ℕ, List, IfOk, unwrap_or};
ghost use Rattle.std.specs.List.{list_any};
ghost use Rattle.sip_held_dialogs.specs.Requests as requests;

use crate::held_dialog::DialogId;
use sip_message::{Message, StatusCode, Token};
use sip_text::token_eq;
use std::alloc::{AllocError, Global};

/// Whether it is an INVITE. Methods are compared byte by byte.
pub fn is_invite(request: &Message) -> bool
    ensures { result ≡ requests.is_invite request.now }
{
    request.method().as_slice() == b"INVITE".as_slice()
}

/// Whether it is a BYE.
pub fn is_bye(request: &Message) -> bool
    ensures { result ≡ requests.is_bye request.now }
{
    request.method().as_slice() == b"BYE".as_slice()
}

/// Whether it is a CANCEL.
pub fn is_cancel(request: &Message) -> bool
    ensures { result ≡ requests.is_cancel request.now }
{
    request.method().as_slice() == b"CANCEL".as_slice()
}

/// Whether it is a PRACK.
pub fn is_prack(request: &Message) -> bool
    ensures { result ≡ requests.is_prack request.now }
{
    request.method().as_slice() == b"PRACK".as_slice()
}

/// Whether it has a To tag, and so was sent inside a dialog.
pub fn has_to_tag(request: &Message) -> bool
    ensures { result ≡ requests.has_to_tag request.now }
{
    !request.to.tag().is_empty()
}

fn is_100rel(option: &Token) -> bool
    ensures { result ≡ requests.is_100rel option.now }
{
    token_eq(option.as_slice(), b"100rel")
}

/// Whether the agent doesn't know an option.
pub fn is_unknown_option(option: &Token) -> bool
    ensures { result ≡ requests.is_unknown_option option.now }
{
    !is_100rel(option)
}

/// Whether its Require has `100rel`.
pub fn requires_100rel(request: &Message) -> bool
    ensures { result ≡ requests.requires_100rel request.now }
{
    has_100rel(request.require.as_slice())
}

/// Whether its Supported or its Require has `100rel`.
pub fn supports_100rel(request: &Message) -> bool
    ensures { result ≡ requests.supports_100rel request.now }
{
    has_100rel(request.supported.as_slice()) || requires_100rel(request)
}

fn has_100rel(options: &[Token]) -> bool
    ensures { result ≡ list_any requests.is_100rel options.now }
{
    options.iter().any(|option| is_100rel(option))
}

/// The tag that the answers to a request carry in To.
pub fn local_tag<'a>(request: &'a Message, made: &'a Token) -> &'a [u8]
    ensures { result.now ≡ requests.local_tag_of request.now made.now }
{
    let own = request.to.tag();
    if own.is_empty() { made.as_slice() } else { own }
}

/// The To tag of a request, if it has one. If not, its answers get the tag that is made for it.
pub fn own_tag(alloc: Global, request: &Message) -> Result<Option<Token>, AllocError>
    ensures { IfOk result (λ own. (made : List ℕ)
        → unwrap_or own made ≡ requests.local_tag_of request.now made) }
{
    let own = request.to.tag();
    if own.is_empty() {
        return Ok(None);
    }
    let _parameters = request.to.parameters.as_parameters();
    Ok(Some(Token::copy_of(alloc, own)?))
}

/// The name of the dialog that a request is in, or that its answer makes.
pub fn dialog_id_of(alloc: Global, request: &Message, made: &Token) -> Result<DialogId, AllocError>
    ensures { IfOk result (λ name. name ≡ requests.dialog_id_of request.now made.now) }
{
    DialogId::of_tags(alloc, local_tag(request, made), request.from.tag())
}

/// Whether a status is that of a provisional response.
pub fn is_provisional(status: u16) -> bool
    ensures { result ≡ requests.is_provisional status }
{
    status < StatusCode::FIRST_FINAL
}

/// Whether a status is a 2xx.
pub fn is_success(status: u16) -> bool
    ensures { result ≡ requests.is_success status }
{
    StatusCode::FIRST_FINAL <= status && status < StatusCode::FIRST_REJECTING
}

/// Whether a status is that of a final response.
pub fn is_final(status: u16) -> bool
    ensures { result ≡ requests.is_final status }
{
    StatusCode::FIRST_FINAL <= status
}
