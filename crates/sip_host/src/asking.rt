//! Commands made of fields. Each rule is tested before any memory is taken.

ghost use Rattle.std.specs.Prelude.{◌≡◌, IfOk, IsTrue};
ghost use Rattle.sip_message.specs.Content.{content_of_body};
ghost use Rattle.sip_host.specs.Asking as asking;

use crate::absolute::is_absolute;
use crate::field::Field;
use crate::fields::{
    BodyFields, CommandFields, InviteFields, PlainFields, RequestFields, RespondFields,
};
use crate::host_fault::HostFault;
use sip_grammar::{has_no_line_byte, is_word};
use sip_message::{CallId, Content, Reason, Token, Uri};
use sip_text::{Series, Text, is_token};
use sip_user::{
    AbandonDialog, AbandonRequest, Cancel, DialogBody, DialogRequest, Invite, Plain, Respond,
    UserCommand,
};
use std::alloc::{AllocError, Global};

/// The lowest and the highest status of a response that the user can send.
const MIN_STATUS: u16 = 101;

const MAX_STATUS: u16 = 699;

/// The command of these fields, without headers.
///
/// # Errors
///
/// `BadField` for the first field that doesn't keep its rule, or `NoMemory`.
#[tactic(auto, using(crate::proofs::KeptRules::kept_all))]
pub(crate) fn command_of(
    alloc: Global,
    fields: &CommandFields<'_>,
) -> Result<UserCommand, HostFault>
    ensures { asking.Makes (asking.command_of fields.now) result }
{
    match bad_field(fields) {
        Some(field) => Err(HostFault::BadField(field)),
        None => Ok(command_copy(alloc, fields)?),
    }
}

// The first field that doesn't keep its rule.
fn bad_field(fields: &CommandFields<'_>) -> Option<Field>
    ensures { result ≡ asking.first_bad (asking.rules_of (asking.command_of fields.now)) }
{
    match fields {
        CommandFields::Invite(fields) => first_bad(&[
            (Field::CallId, is_word(fields.call_id)),
            (Field::RequestUri, is_absolute(fields.request_uri)),
            (Field::From, is_absolute(fields.from)),
            (Field::To, is_absolute(fields.to)),
        ]),
        CommandFields::Plain(fields) => first_bad(&[
            (Field::CallId, is_word(fields.call_id)),
            (Field::Method, is_token(fields.method)),
            (Field::RequestUri, is_absolute(fields.request_uri)),
            (Field::From, is_absolute(fields.from)),
            (Field::To, is_absolute(fields.to)),
        ]),
        CommandFields::Request(fields) => first_bad(&[
            (Field::CallId, is_word(fields.call_id)),
            (Field::LocalTag, is_tag(fields.local_tag)),
            (Field::RemoteTag, is_tag(fields.remote_tag)),
            (Field::Method, is_token(fields.method)),
        ]),
        CommandFields::Respond(fields) => first_bad(&[
            (Field::CallId, is_word(fields.call_id)),
            (Field::Status, is_status(fields.status)),
            (Field::Reason, has_no_line_byte(fields.reason)),
        ]),
        CommandFields::Ack(fields) | CommandFields::Prack(fields) => {
            bad_in_dialog(fields.call_id, fields.local_tag, fields.remote_tag)
        }
        CommandFields::AbandonDialog(fields) => {
            bad_in_dialog(fields.call_id, fields.local_tag, fields.remote_tag)
        }
        CommandFields::Cancel(fields) => { first_bad(&[(Field::CallId, is_word(fields.call_id))]) }
        CommandFields::AbandonRequest(fields) => {
            first_bad(&[(Field::CallId, is_word(fields.call_id))])
        }
    }
}

fn bad_in_dialog(call_id: &[u8], local_tag: &[u8], remote_tag: &[u8]) -> Option<Field>
    ensures { result ≡ asking.first_bad (asking.dialog_rules call_id.now
        (asking.tag_of local_tag.now) (asking.tag_of remote_tag.now)) }
{
    first_bad(&[
        (Field::CallId, is_word(call_id)),
        (Field::LocalTag, is_tag(local_tag)),
        (Field::RemoteTag, is_tag(remote_tag)),
    ])
}

// The first of these fields that doesn't keep its rule.
#[tactic(auto, using(crate::proofs::KeptRules::bad_from, crate::proofs::KeptRules::none_after))]
fn first_bad(rules: &[(Field, bool)]) -> Option<Field>
    ensures { result ≡ asking.first_bad rules.now }
{
    for (field, is_kept) in rules {
        if !*is_kept {
            return Some(*field);
        }
    }
    None
}

// The command of fields that keep their rules.
fn command_copy(alloc: Global, fields: &CommandFields<'_>) -> Result<UserCommand, AllocError>
    requires { asking.AllKept (asking.rules_of (asking.command_of fields.now)) }
    ensures { IfOk result (λ made. made ≡ asking.command_of fields.now) }
{
    match fields {
        CommandFields::Invite(fields) => invite(alloc, fields),
        CommandFields::Plain(fields) => plain(alloc, fields),
        CommandFields::Request(fields) => request(alloc, fields),
        CommandFields::Respond(fields) => respond(alloc, fields),
        CommandFields::Ack(fields) => Ok(UserCommand::Ack(dialog_body(alloc, fields)?)),
        CommandFields::Prack(fields) => Ok(UserCommand::Prack(dialog_body(alloc, fields)?)),
        CommandFields::Cancel(fields) => Ok(UserCommand::Cancel(Cancel {
            call_id: CallId::copy_of(alloc, fields.call_id)?,
            id: fields.id,
        })),
        CommandFields::AbandonRequest(fields) => Ok(UserCommand::AbandonRequest(AbandonRequest {
            call_id: CallId::copy_of(alloc, fields.call_id)?,
            id: fields.id,
        })),
        CommandFields::AbandonDialog(fields) => Ok(UserCommand::AbandonDialog(AbandonDialog {
            call_id: CallId::copy_of(alloc, fields.call_id)?,
            local_tag: tag(alloc, fields.local_tag)?,
            remote_tag: tag(alloc, fields.remote_tag)?,
        })),
    }
}

fn invite(alloc: Global, fields: &InviteFields<'_>) -> Result<UserCommand, AllocError>
    requires { asking.AllKept (asking.rules_of (asking.invite_of fields.now)) }
    ensures { IfOk result (λ made. made ≡ asking.invite_of fields.now) }
{
    Ok(UserCommand::Invite(Invite {
        call_id: CallId::copy_of(alloc, fields.call_id)?,
        address: fields.address,
        request_uri: Uri::copy_of(alloc, fields.request_uri)?,
        from: Uri::copy_of(alloc, fields.from)?,
        to: Uri::copy_of(alloc, fields.to)?,
        routes: Series::new(alloc),
        support: fields.support,
        content: content(alloc, fields.body)?,
    }))
}

fn plain(alloc: Global, fields: &PlainFields<'_>) -> Result<UserCommand, AllocError>
    requires { asking.AllKept (asking.rules_of (asking.plain_of fields.now)) }
    ensures { IfOk result (λ made. made ≡ asking.plain_of fields.now) }
{
    Ok(UserCommand::Plain(Plain {
        call_id: CallId::copy_of(alloc, fields.call_id)?,
        address: fields.address,
        method: Token::copy_of(alloc, fields.method)?,
        request_uri: Uri::copy_of(alloc, fields.request_uri)?,
        from: Uri::copy_of(alloc, fields.from)?,
        to: Uri::copy_of(alloc, fields.to)?,
        routes: Series::new(alloc),
        content: content(alloc, fields.body)?,
    }))
}

fn request(alloc: Global, fields: &RequestFields<'_>) -> Result<UserCommand, AllocError>
    requires { asking.AllKept (asking.rules_of (asking.request_of fields.now)) }
    ensures { IfOk result (λ made. made ≡ asking.request_of fields.now) }
{
    Ok(UserCommand::Request(DialogRequest {
        call_id: CallId::copy_of(alloc, fields.call_id)?,
        local_tag: tag(alloc, fields.local_tag)?,
        remote_tag: tag(alloc, fields.remote_tag)?,
        method: Token::copy_of(alloc, fields.method)?,
        content: content(alloc, fields.body)?,
    }))
}

fn respond(alloc: Global, fields: &RespondFields<'_>) -> Result<UserCommand, AllocError>
    requires { asking.AllKept (asking.rules_of (asking.respond_of fields.now)) }
    ensures { IfOk result (λ made. made ≡ asking.respond_of fields.now) }
{
    Ok(UserCommand::Respond(Respond {
        call_id: CallId::copy_of(alloc, fields.call_id)?,
        id: fields.id,
        status: fields.status,
        reliability: fields.reliability,
        content: content(alloc, fields.body)?,
        reason: Reason::copy_of(alloc, fields.reason)?,
    }))
}

fn dialog_body(alloc: Global, fields: &BodyFields<'_>) -> Result<DialogBody, AllocError>
    requires { asking.AllKept (asking.rules_of (asking.ack_of fields.now)) }
    ensures { IfOk result (λ body. body ≡ asking.body_of fields.now) }
{
    Ok(DialogBody {
        call_id: CallId::copy_of(alloc, fields.call_id)?,
        local_tag: tag(alloc, fields.local_tag)?,
        remote_tag: tag(alloc, fields.remote_tag)?,
        content: content(alloc, fields.body)?,
    })
}

fn is_status(status: u16) -> bool
    ensures { result ≡ asking.is_status status }
{
    MIN_STATUS <= status && status <= MAX_STATUS
}

fn is_tag(text: &[u8]) -> bool
    ensures { result ≡ asking.is_tag (asking.tag_of text.now) }
{
    match text {
        [] => true,
        [_, ..] => is_token(text),
    }
}

// The tag. It keeps its rule.
fn tag(alloc: Global, text: &[u8]) -> Result<Option<Token>, AllocError>
    requires { IsTrue (asking.is_tag (asking.tag_of text.now)) }
    ensures { IfOk result (λ tag. tag ≡ asking.tag_of text.now) }
{
    match text {
        [] => Ok(None),
        [_, ..] => Ok(Some(Token::copy_of(alloc, text)?)),
    }
}

fn content(alloc: Global, body: &[u8]) -> Result<Content, AllocError>
    ensures { IfOk result (λ content. content ≡ content_of_body body.now) }
{
    Ok(Content::of_body(Text::copy_of(alloc, body)?))
}
