//! The lines of the user's commands.

ghost use Rattle.std.specs.Prelude.{◌≡◌, IfOk};
ghost use Rattle.sip_files.specs.Steps.ReadLine as reading;

use crate::fields::{
    address_of_call, call_id_field, dialog_fields, id_field, method_field, read_reason, read_tag,
    reliability_field, status_field, support_field, tag_field, uri_fields, word_field,
};
use crate::numbers::read_id;
use crate::version::Version;
use crate::words::read_word;
use sip_message::Content;
use sip_text::Series;
use sip_user::{
    AbandonDialog, AbandonRequest, Cancel, DialogBody, DialogRequest, Invite, Plain, Respond,
    UserCommand,
};
use std::alloc::{AllocError, Global};

/// What the line of a command says, by its first word, if a file of this version may have it.
pub(crate) fn read_command(
    alloc: Global,
    version: Version,
    keyword: &[u8],
    fields: &[u8],
) -> Result<Option<UserCommand>, AllocError>
    ensures { IfOk result (λ command.
        command ≡ reading.command_at version keyword.now fields.now) }
{
    if keyword == b"invite".as_slice() {
        return Ok(read_invite(alloc, fields)?.map(UserCommand::Invite));
    }
    if keyword == b"plain".as_slice() {
        return Ok(read_plain(alloc, fields)?.map(UserCommand::Plain));
    }
    if keyword == b"request".as_slice() {
        return Ok(read_request(alloc, fields)?.map(UserCommand::Request));
    }
    if keyword == b"respond".as_slice() {
        return Ok(read_respond(alloc, fields)?.map(UserCommand::Respond));
    }
    if keyword == b"ack".as_slice() {
        return Ok(read_body(alloc, fields)?.map(UserCommand::Ack));
    }
    if keyword == b"prack".as_slice() {
        return Ok(read_body(alloc, fields)?.map(UserCommand::Prack));
    }
    if keyword == b"cancel".as_slice() {
        return Ok(cancel_in(alloc, version, fields)?.map(UserCommand::Cancel));
    }
    if keyword == b"abandon".as_slice() {
        return abandon_in(alloc, version, fields);
    }
    Ok(None)
}

// The Call-ID as a word, the address, three URIs as words, the support, and the body as a word.
#[tactic(auto, unfolding(crate::specs::Steps::ReadLine::invite_at))]
fn read_invite(alloc: Global, fields: &[u8]) -> Result<Option<Invite>, AllocError>
    ensures { IfOk result (λ invite. invite ≡ reading.invite_at fields.now) }
{
    let Some(((call_id, address), fields)) = address_of_call(alloc, fields)? else {
        return Ok(None);
    };
    let Some((uris, fields)) = uri_fields(alloc, fields)? else {
        return Ok(None);
    };
    let Some((support, body)) = support_field(fields) else {
        return Ok(None);
    };
    let Some(body) = read_word(alloc, body)? else {
        return Ok(None);
    };
    let (request_uri, from, to) = uris.apart();
    Ok(Some(Invite {
        call_id,
        address,
        request_uri,
        from,
        to,
        routes: Series::new(alloc),
        support,
        content: Content::of_body(body),
    }))
}

// The Call-ID as a word, the address, the method, three URIs as words, and the body as a word.
#[tactic(auto, unfolding(crate::specs::Steps::ReadLine::plain_at))]
fn read_plain(alloc: Global, fields: &[u8]) -> Result<Option<Plain>, AllocError>
    ensures { IfOk result (λ plain. plain ≡ reading.plain_at fields.now) }
{
    let Some(((call_id, address), fields)) = address_of_call(alloc, fields)? else {
        return Ok(None);
    };
    let Some((method, fields)) = method_field(alloc, fields)? else {
        return Ok(None);
    };
    let Some((uris, body)) = uri_fields(alloc, fields)? else {
        return Ok(None);
    };
    let Some(body) = read_word(alloc, body)? else {
        return Ok(None);
    };
    let (request_uri, from, to) = uris.apart();
    Ok(Some(Plain {
        call_id,
        address,
        method,
        request_uri,
        from,
        to,
        routes: Series::new(alloc),
        content: Content::of_body(body),
    }))
}

// The Call-ID and both tags as words, the method, and the body as a word.
#[tactic(auto, unfolding(crate::specs::Steps::ReadLine::request_at))]
fn read_request(alloc: Global, fields: &[u8]) -> Result<Option<DialogRequest>, AllocError>
    ensures { IfOk result (λ request. request ≡ reading.request_at fields.now) }
{
    let Some((dialog, fields)) = dialog_fields(alloc, fields)? else {
        return Ok(None);
    };
    let Some((method, body)) = method_field(alloc, fields)? else {
        return Ok(None);
    };
    let Some(body) = read_word(alloc, body)? else {
        return Ok(None);
    };
    let (call_id, local_tag, remote_tag) = dialog.apart();
    Ok(Some(DialogRequest {
        call_id,
        local_tag,
        remote_tag,
        method,
        content: Content::of_body(body),
    }))
}

// The Call-ID and both tags as words, and the body as a word.
#[tactic(auto, unfolding(crate::specs::Steps::ReadLine::body_at))]
fn read_body(alloc: Global, fields: &[u8]) -> Result<Option<DialogBody>, AllocError>
    ensures { IfOk result (λ body. body ≡ reading.body_at fields.now) }
{
    let Some((dialog, body)) = dialog_fields(alloc, fields)? else {
        return Ok(None);
    };
    let Some(body) = read_word(alloc, body)? else {
        return Ok(None);
    };
    let (call_id, local_tag, remote_tag) = dialog.apart();
    Ok(Some(DialogBody {
        call_id,
        local_tag,
        remote_tag,
        content: Content::of_body(body),
    }))
}

// The Call-ID as a word, the request's id, the status, `plain` or `reliable`, the body as a word,
// and the reason as a rest.
#[tactic(auto, unfolding(crate::specs::Steps::ReadLine::respond_at))]
fn read_respond(alloc: Global, fields: &[u8]) -> Result<Option<Respond>, AllocError>
    ensures { IfOk result (λ respond. respond ≡ reading.respond_at fields.now) }
{
    let Some((call_id, fields)) = call_id_field(alloc, fields)? else {
        return Ok(None);
    };
    let Some((id, fields)) = id_field(fields) else {
        return Ok(None);
    };
    let Some((status, fields)) = status_field(fields) else {
        return Ok(None);
    };
    let Some((reliability, fields)) = reliability_field(fields) else {
        return Ok(None);
    };
    let Some((body, reason)) = word_field(alloc, fields)? else {
        return Ok(None);
    };
    let Some(reason) = read_reason(alloc, reason)? else {
        return Ok(None);
    };
    Ok(Some(Respond {
        call_id,
        id,
        status,
        reliability,
        content: Content::of_body(body),
        reason,
    }))
}

// Only version 1 doesn't have the line.
fn cancel_in(alloc: Global, version: Version, fields: &[u8]) -> Result<Option<Cancel>, AllocError>
    ensures { IfOk result (λ cancel. cancel ≡ reading.cancel_in version fields.now) }
{
    match version {
        Version::One => Ok(None),
        Version::Two | Version::SessionOne => read_cancel(alloc, fields),
    }
}

// The Call-ID as a word, and the id of the INVITE.
#[tactic(auto, unfolding(crate::specs::Steps::ReadLine::cancel_at))]
fn read_cancel(alloc: Global, fields: &[u8]) -> Result<Option<Cancel>, AllocError>
    ensures { IfOk result (λ cancel. cancel ≡ reading.cancel_at fields.now) }
{
    let Some((call_id, id)) = call_id_field(alloc, fields)? else {
        return Ok(None);
    };
    let Some(id) = read_id(id) else {
        return Ok(None);
    };
    Ok(Some(Cancel { call_id, id }))
}

// Only a session has the line.
fn abandon_in(
    alloc: Global,
    version: Version,
    fields: &[u8],
) -> Result<Option<UserCommand>, AllocError>
    ensures { IfOk result (λ abandon. abandon ≡ reading.abandon_in version fields.now) }
{
    match version {
        Version::One | Version::Two => Ok(None),
        Version::SessionOne => read_abandon(alloc, fields),
    }
}

// A request has one field after the Call-ID, a dialog two.
#[tactic(auto, unfolding(crate::specs::Steps::ReadLine::abandon_at))]
fn read_abandon(alloc: Global, fields: &[u8]) -> Result<Option<UserCommand>, AllocError>
    ensures { IfOk result (λ abandon. abandon ≡ reading.abandon_at fields.now) }
{
    match read_abandon_request(alloc, fields)? {
        Some(request) => Ok(Some(UserCommand::AbandonRequest(request))),
        None => Ok(read_abandon_dialog(alloc, fields)?.map(UserCommand::AbandonDialog)),
    }
}

// The Call-ID as a word, and the id of the request.
#[tactic(auto, unfolding(crate::specs::Steps::ReadLine::abandon_request_at))]
fn read_abandon_request(alloc: Global, fields: &[u8]) -> Result<Option<AbandonRequest>, AllocError>
    ensures { IfOk result (λ abandon. abandon ≡ reading.abandon_request_at fields.now) }
{
    let Some((call_id, id)) = call_id_field(alloc, fields)? else {
        return Ok(None);
    };
    let Some(id) = read_id(id) else {
        return Ok(None);
    };
    Ok(Some(AbandonRequest { call_id, id }))
}

// The Call-ID and both tags as words.
#[tactic(auto, unfolding(crate::specs::Steps::ReadLine::abandon_dialog_at))]
fn read_abandon_dialog(alloc: Global, fields: &[u8]) -> Result<Option<AbandonDialog>, AllocError>
    ensures { IfOk result (λ abandon. abandon ≡ reading.abandon_dialog_at fields.now) }
{
    let Some((call_id, tags)) = call_id_field(alloc, fields)? else {
        return Ok(None);
    };
    let Some((local_tag, remote_tag)) = tag_field(alloc, tags)? else {
        return Ok(None);
    };
    let Some(remote_tag) = read_tag(alloc, remote_tag)? else {
        return Ok(None);
    };
    Ok(Some(AbandonDialog {
        call_id,
        local_tag,
        remote_tag,
    }))
}
