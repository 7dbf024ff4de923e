//! What a call gives.

ghost use Rattle.std.specs.Prelude.{◌≡◌, ◌≤◌, IfOk, OnOk, filter, codes, IsTrue};
ghost use Rattle.sip_message.specs.Response.{response_of};
ghost use Rattle.sip_grammar.specs.Reason.{is_reason};
ghost use Rattle.sip_served.specs.Arrival as arrived;
ghost use Rattle.sip_held_dialogs.specs.Requests.{is_unknown_option};
ghost use Rattle.sip_user.specs.declared.item.CallOut.TheVariants as call_out;
ghost use Rattle.sip_transactions.specs.declared.input.Command.TheVariants.{Answer};

use crate::arrival::Arrival;
use crate::unsupported::unsupported;
use sip_message::{CallId, Header, Id, Message, Reason, SharedKey, StatusCode, Token, response_to};
use sip_text::{Boxed, Text};
use sip_transactions::Command;
use sip_user::outputs::one;
use sip_user::{CallOut, Notice};
use std::alloc::{AllocError, Global};

/// The command that gives a response to the transaction of its request.
pub(crate) fn command_for(
    alloc: Global,
    id: Id,
    key: &SharedKey,
    response: Message,
) -> Result<CallOut, AllocError>
    ensures { IfOk result (λ out. out ≡ call_out.Command id (Answer key.now response)) }
{
    let key = key.clone()?;
    let message = Boxed::new(alloc, response)?;
    Ok(CallOut::Command(id, Command::Answer { key, message }))
}

fn response_with(
    alloc: Global,
    arrival: &Arrival,
    status: u16,
    reason: &[u8],
    tag: &Token,
) -> Result<Message, AllocError>
    requires low { 100 ≤ status }
    requires high { status ≤ 699 }
    requires reason { IsTrue (is_reason reason.now) }
    ensures { IfOk result (λ response. response
        ≡ response_of arrival.now.request status reason.now tag.now) }
{
    let reason = Reason::copy_of(alloc, reason)?;
    let status = StatusCode::from_code(status);
    response_to(alloc, arrival.request.get(), status, reason, tag)
}

/// The agent's own answer to a request, as the only output.
pub(crate) fn answered_with(
    alloc: Global,
    arrival: &Arrival,
    status: u16,
    reason: &[u8],
) -> Result<Vec<CallOut>, AllocError>
    requires low { 100 ≤ status }
    requires high { status ≤ 699 }
    requires reason { IsTrue (is_reason reason.now) }
    ensures { IfOk result (λ outs. outs.items
        ≡ arrived.answered_with arrival.now status reason.now) }
{
    let response = response_with(alloc, arrival, status, reason, &arrival.tag)?;
    one(
        alloc,
        command_for(alloc, arrival.id, &arrival.key, response)?,
    )
}

/// The 482 to a merged request, which came by another path too (RFC 3261, section 8.2.2.2).
pub(crate) fn merged_request(alloc: Global, arrival: &Arrival) -> Result<Vec<CallOut>, AllocError>
    ensures { IfOk result (λ outs. outs.items
        ≡ arrived.answered_with arrival.now 482 (codes "Loop Detected")) }
{
    answered_with(alloc, arrival, 482, b"Loop Detected")
}

/// The 481 to a request for a dialog that isn't held, to a PRACK if no response waits for it, or to
/// a CANCEL of no held request.
pub(crate) fn no_such_dialog(alloc: Global, arrival: &Arrival) -> Result<Vec<CallOut>, AllocError>
    ensures { IfOk result (λ outs. outs.items ≡ arrived.no_such_dialog arrival.now) }
{
    answered_with(alloc, arrival, 481, b"Call/Transaction Does Not Exist")
}

/// The 200 to a request, with this tag in To if the request has none.
pub(crate) fn ok_with_tag(
    alloc: Global,
    arrival: &Arrival,
    tag: &Token,
) -> Result<CallOut, AllocError>
    ensures { IfOk result (λ out. out ≡ arrived.command_for arrival.now
        (response_of arrival.now.request 200 (codes "OK") tag.now)) }
{
    let response = response_with(alloc, arrival, 200, b"OK", tag)?;
    command_for(alloc, arrival.id, &arrival.key, response)
}

/// The 420 to a request that requires options that the agent doesn't know; it names them (RFC 3261,
/// section 8.2.2.3).
pub(crate) fn bad_extension(alloc: Global, arrival: &Arrival) -> Result<Vec<CallOut>, AllocError>
    ensures { IfOk result (λ outs. outs.items ≡ arrived.refused_extension arrival.now) }
{
    let response = bad_extension_response(alloc, arrival)?;
    one(
        alloc,
        command_for(alloc, arrival.id, &arrival.key, response)?,
    )
}

fn bad_extension_response(alloc: Global, arrival: &Arrival) -> Result<Message, AllocError>
    ensures { IfOk result (λ response. response
        ≡ arrived.with_header (arrived.unsupported
        (filter is_unknown_option arrival.now.request.require))
        (response_of arrival.now.request 420 (codes "Bad Extension") arrival.now.tag)) }
{
    let header = unsupported(alloc, arrival.request.get().require.as_slice())?;
    let mut response = response_with(alloc, arrival, 420, b"Bad Extension", &arrival.tag)?;
    add_header(&mut response, header)?;
    Ok(response)
}

fn add_header(response: &mut Message, header: Header) -> Result<(), AllocError>
    ensures { OnOk result (response.new ≡ arrived.with_header header response.old) }
{
    response.others.push(header)
}

/// The notice of a request.
pub(crate) fn notice_of_request(
    alloc: Global,
    call_id: CallId,
    arrival: &Arrival,
) -> Result<Notice, AllocError>
    ensures { IfOk result (λ notice. notice ≡ arrived.request_notice call_id arrival.now) }
{
    let request = arrival.request.get();
    Ok(Notice::Request {
        call_id,
        id: arrival.id,
        method: request.cseq.method.clone()?,
        local_tag: Text::copy_of(alloc, arrival.tag.as_slice())?,
        remote_tag: Text::copy_of(alloc, request.from.tag())?,
        body: request.body.clone()?,
    })
}
