//! Writes the lines of the user's commands.

ghost use Rattle.std.specs.Prelude.{◌≡◌, ◌++◌, OnOk};
ghost use Rattle.sip_user.specs.declared.command.UserCommand.TheVariants as command;
ghost use Rattle.sip_files.specs.Events as written;
ghost use Rattle.sip_files.specs.Field as field;

use crate::field_writer::{
    push_address, push_id, push_number, push_plain, push_rest_field, push_text,
};
use sip_message::{Addr, CallId, Token, Uri};
use sip_user::{
    AbandonDialog, AbandonRequest, Cancel, DialogBody, DialogRequest, Invite, Plain,
    ProvisionalSupport, Reliability, Respond, UserCommand,
};
use std::alloc::AllocError;

/// The line of a command, without its line end.
pub(crate) fn push_command(file: &mut Vec<u8>, command: &UserCommand) -> Result<(), AllocError>
    ensures { OnOk result (file.new.items ≡ file.old.items ++ written.command_text command.now) }
{
    match command {
        UserCommand::Invite(invite) => push_invite(file, invite),
        UserCommand::Plain(plain) => push_plain_request(file, plain),
        UserCommand::Request(request) => push_dialog_request(file, request),
        UserCommand::Respond(respond) => push_respond(file, respond),
        UserCommand::Ack(ack) => {
            file.extend_from_slice(b"ack")?;
            push_dialog_body(file, ack)
        }
        UserCommand::Prack(prack) => {
            file.extend_from_slice(b"prack")?;
            push_dialog_body(file, prack)
        }
        UserCommand::Cancel(cancel) => push_cancel(file, cancel),
        UserCommand::AbandonRequest(abandon) => push_abandon_request(file, abandon),
        UserCommand::AbandonDialog(abandon) => push_abandon_dialog(file, abandon),
    }
}

fn push_invite(file: &mut Vec<u8>, invite: &Invite) -> Result<(), AllocError>
    ensures { OnOk result (file.new.items ≡ file.old.items
        ++ written.command_text (command.Invite invite.now)) }
{
    file.extend_from_slice(b"invite")?;
    push_call(file, &invite.call_id, invite.address)?;
    push_uris(file, &invite.request_uri, &invite.from, &invite.to)?;
    push_plain(file, support_text(invite.support))?;
    push_text(file, invite.content.body().as_slice())
}

fn push_plain_request(file: &mut Vec<u8>, plain: &Plain) -> Result<(), AllocError>
    ensures { OnOk result (file.new.items ≡ file.old.items
        ++ written.command_text (command.Plain plain.now)) }
{
    file.extend_from_slice(b"plain")?;
    push_call(file, &plain.call_id, plain.address)?;
    push_plain(file, plain.method.as_slice())?;
    push_uris(file, &plain.request_uri, &plain.from, &plain.to)?;
    push_text(file, plain.content.body().as_slice())
}

fn push_dialog_request(file: &mut Vec<u8>, request: &DialogRequest) -> Result<(), AllocError>
    ensures { OnOk result (file.new.items ≡ file.old.items
        ++ written.command_text (command.Request request.now)) }
{
    file.extend_from_slice(b"request")?;
    push_dialog(
        file,
        &request.call_id,
        &request.local_tag,
        &request.remote_tag,
    )?;
    push_plain(file, request.method.as_slice())?;
    push_text(file, request.content.body().as_slice())
}

fn push_respond(file: &mut Vec<u8>, respond: &Respond) -> Result<(), AllocError>
    ensures { OnOk result (file.new.items ≡ file.old.items
        ++ written.command_text (command.Respond respond.now)) }
{
    file.extend_from_slice(b"respond")?;
    push_text(file, respond.call_id.as_slice())?;
    push_id(file, respond.id)?;
    push_number(file, u64::from(respond.status))?;
    push_plain(file, reliability_text(respond.reliability))?;
    push_text(file, respond.content.body().as_slice())?;
    push_rest_field(file, respond.reason.as_slice())
}

// What follows the word `ack` or `prack`.
fn push_dialog_body(file: &mut Vec<u8>, given: &DialogBody) -> Result<(), AllocError>
    ensures { OnOk result (file.new.items ≡ file.old.items ++ (field.word_field given.now.call_id
        ++ written.tag_field given.now.local_tag ++ written.tag_field given.now.remote_tag
        ++ field.word_field given.now.content.body)) }
{
    push_dialog(file, &given.call_id, &given.local_tag, &given.remote_tag)?;
    push_text(file, given.content.body().as_slice())
}

fn push_cancel(file: &mut Vec<u8>, cancel: &Cancel) -> Result<(), AllocError>
    ensures { OnOk result (file.new.items ≡ file.old.items
        ++ written.command_text (command.Cancel cancel.now)) }
{
    file.extend_from_slice(b"cancel")?;
    push_text(file, cancel.call_id.as_slice())?;
    push_id(file, cancel.id)
}

fn push_abandon_request(file: &mut Vec<u8>, abandon: &AbandonRequest) -> Result<(), AllocError>
    ensures { OnOk result (file.new.items ≡ file.old.items
        ++ written.command_text (command.AbandonRequest abandon.now)) }
{
    file.extend_from_slice(b"abandon")?;
    push_text(file, abandon.call_id.as_slice())?;
    push_id(file, abandon.id)
}

fn push_abandon_dialog(file: &mut Vec<u8>, abandon: &AbandonDialog) -> Result<(), AllocError>
    ensures { OnOk result (file.new.items ≡ file.old.items
        ++ written.command_text (command.AbandonDialog abandon.now)) }
{
    file.extend_from_slice(b"abandon")?;
    push_dialog(
        file,
        &abandon.call_id,
        &abandon.local_tag,
        &abandon.remote_tag,
    )
}

// A call, and the address to which its first request goes.
fn push_call(file: &mut Vec<u8>, call_id: &CallId, address: Addr) -> Result<(), AllocError>
    ensures { OnOk result (file.new.items ≡ file.old.items
        ++ (field.word_field call_id.now ++ field.address_field address)) }
{
    push_text(file, call_id.as_slice())?;
    push_address(file, address)
}

fn push_uris(file: &mut Vec<u8>, request_uri: &Uri, from: &Uri, to: &Uri) -> Result<(), AllocError>
    ensures { OnOk result (file.new.items ≡ file.old.items ++ (field.word_field request_uri.now
        ++ field.word_field from.now ++ field.word_field to.now)) }
{
    push_text(file, request_uri.as_slice())?;
    push_text(file, from.as_slice())?;
    push_text(file, to.as_slice())
}

// The fields that name a dialog.
fn push_dialog(
    file: &mut Vec<u8>,
    call_id: &CallId,
    local_tag: &Option<Token>,
    remote_tag: &Option<Token>,
) -> Result<(), AllocError>
    ensures { OnOk result (file.new.items ≡ file.old.items ++ (field.word_field call_id.now
        ++ written.tag_field local_tag.now ++ written.tag_field remote_tag.now)) }
{
    push_text(file, call_id.as_slice())?;
    push_tag(file, local_tag)?;
    push_tag(file, remote_tag)
}

fn push_tag(file: &mut Vec<u8>, tag: &Option<Token>) -> Result<(), AllocError>
    ensures { OnOk result (file.new.items ≡ file.old.items ++ written.tag_field tag.now) }
{
    match tag {
        Some(tag) => push_text(file, tag.as_slice()),
        None => push_text(file, b""),
    }
}

fn support_text(support: ProvisionalSupport) -> &'static [u8]
    ensures { result.now ≡ written.support_text support }
{
    match support {
        ProvisionalSupport::None => b"none",
        ProvisionalSupport::Supported => b"supported",
        ProvisionalSupport::Required => b"required",
    }
}

fn reliability_text(reliability: Reliability) -> &'static [u8]
    ensures { result.now ≡ written.reliability_text reliability }
{
    match reliability {
        Reliability::Plain => b"plain",
        Reliability::Reliable => b"reliable",
    }
}
