//! How a dialog begins (RFC 3261, section 12.1).
ghost use Rattle.std.specs.Prelude.{◌≡◌, [], IfOk, reverse};
ghost use Rattle.std.specs.Option.{option_copied};
ghost use Rattle.sip_dialog.specs.Life.{dialog_after};
ghost use Rattle.sip_dialog.specs.Opening.{ByRequest, ByResponse};
ghost use Rattle.sip_dialog.specs.Opening as opening;

use crate::dialog::{Dialog, DialogState, Side};
use crate::endpoint::Endpoint;
use sip_grammar::{RequestUri, StatusCode, Token, Uri};
use sip_message::{Message, NameAddr, StartLine};
use sip_text::Series;
use std::alloc::{AllocError, Global};

impl Dialog {
    /// The dialog that an answer with this status makes at the callee. `tag` is the tag that the
    /// answer has in To (RFC 3261, section 12.1.1). A provisional status makes an early dialog.
    pub fn from_request(
        alloc: Global,
        request: &Message,
        tag: Token,
        status: StatusCode,
    ) -> Result<Dialog, AllocError>
        ensures value { IfOk result (λ dialog. dialog
            ≡ opening.opened_by_request request.now tag status) }
        ensures life { IfOk result (λ dialog. dialog
            ≡ dialog_after (ByRequest request.now tag status) []) }
    {
        opened_by_request(alloc, request, tag, status)
    }

    /// The dialog that a response to the request makes at the caller (RFC 3261, section 12.1.2).
    pub fn from_response(
        alloc: Global,
        request: &Message,
        response: &Message,
    ) -> Result<Dialog, AllocError>
        ensures value { IfOk result (λ dialog. dialog
            ≡ opening.opened_by_response request.now response.now) }
        ensures life { IfOk result (λ dialog. dialog
            ≡ dialog_after (ByResponse request.now response.now) []) }
    {
        opened_by_response(alloc, request, response)
    }
}

fn opened_by_request(
    alloc: Global,
    request: &Message,
    tag: Token,
    status: StatusCode,
) -> Result<Dialog, AllocError>
    ensures { IfOk result (λ dialog. dialog ≡ opening.opened_by_request request.now tag status) }
{
    let call_id = request.call_id.clone()?;
    let uri = request.to.uri.clone()?;
    let remote = Endpoint::new(alloc, &request.from.uri, &request.from)?;
    let target = match contact_uri(request) {
        Some(contact) => target_of(contact)?,
        None => target_of(&request.from.uri)?,
    };
    let route_set = request.record_routes.clone()?;
    Ok(Dialog {
        alloc,
        side: Side::Callee,
        state: state_by(status),
        call_id,
        local: Endpoint {
            uri,
            tag: Some(tag),
        },
        remote,
        target,
        route_set,
        local_cseq: 0,
        remote_cseq: Some(request.cseq.number),
    })
}

fn opened_by_response(
    alloc: Global,
    request: &Message,
    response: &Message,
) -> Result<Dialog, AllocError>
    ensures { IfOk result (λ dialog. dialog ≡ opening.opened_by_response request.now response.now) }
{
    let call_id = request.call_id.clone()?;
    let local = Endpoint::new(alloc, &request.from.uri, &request.from)?;
    let remote = Endpoint::new(alloc, &request.to.uri, &response.to)?;
    let target = match contact_uri(response) {
        Some(contact) => target_of(contact)?,
        None => request_uri(request)?,
    };
    let route_set = reversed(&response.record_routes)?;
    Ok(Dialog {
        alloc,
        side: Side::Caller,
        state: state_of(response),
        call_id,
        local,
        remote,
        target,
        route_set,
        local_cseq: request.cseq.number,
        remote_cseq: None,
    })
}

/// The state of a dialog that an answer with this status makes.
fn state_by(status: StatusCode) -> DialogState
    ensures { result ≡ opening.state_by status }
{
    if status.code() < StatusCode::FIRST_FINAL {
        DialogState::Early
    } else {
        DialogState::Confirmed
    }
}

/// The state of a dialog that this response makes.
fn state_of(response: &Message) -> DialogState
    ensures { result ≡ opening.first_state response.now.start }
{
    match &response.start {
        StartLine::Request { .. } => DialogState::Confirmed,
        StartLine::Response { status, .. } => state_by(*status),
    }
}

/// The URI of the first Contact, or None if there is none.
pub(crate) fn contact_uri(message: &Message) -> Option<&Uri>
    ensures { option_copied result ≡ opening.contact_uri message.now }
{
    Some(&message.contacts.first()?.uri)
}

/// This URI as a target.
pub(crate) fn target_of(uri: &Uri) -> Result<RequestUri, AllocError>
    ensures { IfOk result (λ target. target ≡ uri.now) }
{
    Ok(RequestUri::from_uri(uri.clone()?))
}

/// The URI of the request line, or that of To if the message has no request line.
fn request_uri(request: &Message) -> Result<RequestUri, AllocError>
    ensures { IfOk result (λ uri. uri
        ≡ opening.request_uri_or request.now.to.uri request.now.start) }
{
    match &request.start {
        StartLine::Request { uri } => uri.clone(),
        StartLine::Response { .. } => target_of(&request.to.uri),
    }
}

/// The routes in reverse order.
pub(crate) fn reversed(routes: &Series<NameAddr>) -> Result<Series<NameAddr>, AllocError>
    ensures { IfOk result (λ made. made ≡ reverse routes.now) }
{
    let mut routes = routes.clone()?.into_vec();
    routes.reverse();
    Ok(Series::from_vec(routes))
}
