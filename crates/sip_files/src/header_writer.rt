//! Writes the header lines of a session file, which stand before the line of a command.

ghost use Rattle.std.specs.Prelude.{◌≡◌, ◌++◌, IfOk, OnOk};
ghost use Rattle.std.specs.List.{flat_map};
ghost use Rattle.sip_files.specs.Written as written;
ghost use Rattle.sip_message.specs.Written as message;

use crate::field_writer::push_rest_field;
use sip_message::{Content, Header, NameAddr, Token};
use sip_round::Event;
use sip_user::UserCommand;
use std::alloc::{AllocError, Global};

/// The header line of a session file with this name and this value, with its end.
///
/// # Errors
///
/// Memory ran out.
pub fn write_header_line(alloc: Global, name: &[u8], value: &[u8]) -> Result<Vec<u8>, AllocError>
    ensures { IfOk result (λ line. line.items ≡ written.header_line name.now value.now) }
{
    let mut line = Vec::new(alloc);
    push_line(&mut line, name, value)?;
    Ok(line)
}

/// The headers of an event, if it is a command.
pub(crate) fn push_headers(file: &mut Vec<u8>, event: &Event) -> Result<(), AllocError>
    ensures { OnOk result (file.new.items ≡ file.old.items ++ written.event_headers event.now) }
{
    match event {
        Event::Datagram { .. } | Event::Failed(_) => Ok(()),
        Event::Command(command) => push_command_headers(file, command),
    }
}

fn push_command_headers(file: &mut Vec<u8>, command: &UserCommand) -> Result<(), AllocError>
    ensures { OnOk result (file.new.items ≡ file.old.items
        ++ written.command_headers command.now) }
{
    match command {
        UserCommand::Invite(invite) => {
            push_content(file, invite.routes.as_slice(), &invite.content)
        }
        UserCommand::Plain(plain) => push_content(file, plain.routes.as_slice(), &plain.content),
        UserCommand::Request(request) => push_content(file, &[], &request.content),
        UserCommand::Respond(respond) => push_content(file, &[], &respond.content),
        UserCommand::Ack(ack) => push_content(file, &[], &ack.content),
        UserCommand::Prack(prack) => push_content(file, &[], &prack.content),
        UserCommand::Cancel(_) | UserCommand::AbandonRequest(_) | UserCommand::AbandonDialog(_) =>
            Ok(()),
    }
}

// The lines stand in the order in which a message has the headers.
#[tactic(auto, unfolding(crate::specs::Written::content_lines))]
fn push_content(
    file: &mut Vec<u8>,
    routes: &[NameAddr],
    content: &Content,
) -> Result<(), AllocError>
    ensures { OnOk result (file.new.items ≡ file.old.items
        ++ written.content_lines routes.now content.now) }
{
    push_contacts(file, content.contacts())?;
    push_addresses(file, b"Route", routes)?;
    push_tokens(file, b"Require", content.require())?;
    push_tokens(file, b"Supported", content.supported())?;
    push_others(file, content.others())
}

fn push_contacts(file: &mut Vec<u8>, contacts: &[NameAddr]) -> Result<(), AllocError>
    ensures { OnOk result (file.new.items ≡ file.old.items
        ++ flat_map written.contact_line contacts.now) }
{
    for contact in contacts {
        push_contact(file, contact)?;
    }
    Ok(())
}

#[tactic(auto, unfolding(sip_message::specs::Written::contact_text))]
fn push_contact(file: &mut Vec<u8>, contact: &NameAddr) -> Result<(), AllocError>
    ensures { OnOk result (file.new.items ≡ file.old.items ++ written.contact_line contact.now) }
{
    if contact.is_wildcard() {
        push_line(file, b"Contact", b"*")
    } else {
        push_address(file, b"Contact", contact)
    }
}

fn push_addresses(file: &mut Vec<u8>, name: &[u8], addresses: &[NameAddr]) -> Result<(), AllocError>
    ensures { OnOk result (file.new.items ≡ file.old.items
        ++ flat_map (written.address_line name.now) addresses.now) }
{
    for address in addresses {
        push_address(file, name, address)?;
    }
    Ok(())
}

fn push_address(file: &mut Vec<u8>, name: &[u8], address: &NameAddr) -> Result<(), AllocError>
    ensures { OnOk result (file.new.items ≡ file.old.items
        ++ written.address_line name.now address.now) }
{
    let value = address_value(*file.allocator(), address)?;
    push_line(file, name, value.as_slice())
}

fn push_tokens(file: &mut Vec<u8>, name: &[u8], tokens: &[Token]) -> Result<(), AllocError>
    ensures { OnOk result (file.new.items ≡ file.old.items
        ++ flat_map (written.header_line name.now) tokens.now) }
{
    for token in tokens {
        push_line(file, name, token.as_slice())?;
    }
    Ok(())
}

fn push_others(file: &mut Vec<u8>, headers: &[Header]) -> Result<(), AllocError>
    ensures { OnOk result (file.new.items ≡ file.old.items
        ++ flat_map written.other_line headers.now) }
{
    for header in headers {
        push_line(file, header.name.as_slice(), header.value.as_slice())?;
    }
    Ok(())
}

// A header line with its end.
#[tactic(auto, unfolding(crate::specs::Written::header_line))]
fn push_line(file: &mut Vec<u8>, name: &[u8], value: &[u8]) -> Result<(), AllocError>
    ensures { OnOk result (file.new.items ≡ file.old.items
        ++ written.header_line name.now value.now) }
{
    let header = header_text(*file.allocator(), name, value)?;
    push_rest_field(file, header.as_slice())?;
    file.push(b'\n')?;
    Ok(())
}

fn header_text(alloc: Global, name: &[u8], value: &[u8]) -> Result<Vec<u8>, AllocError>
    ensures { IfOk result (λ text. text.items ≡ written.header_text name.now value.now) }
{
    let mut text = Vec::new(alloc);
    text.extend_from_slice(name)?;
    text.extend_from_slice(b": ")?;
    text.extend_from_slice(value)?;
    Ok(text)
}

// An address as a message has it.
#[tactic(auto, unfolding(sip_message::specs::Written::address_text))]
fn address_value(alloc: Global, address: &NameAddr) -> Result<Vec<u8>, AllocError>
    ensures { IfOk result (λ text. text.items ≡ written.address_value address.now) }
{
    let mut text = Vec::new(alloc);
    push_display(&mut text, address.display.as_slice())?;
    text.push(b'<')?;
    text.extend_from_slice(address.uri.as_slice())?;
    text.push(b'>')?;
    text.extend_from_slice(address.parameters.as_text())?;
    Ok(text)
}

fn push_display(text: &mut Vec<u8>, display: &[u8]) -> Result<(), AllocError>
    ensures { OnOk result (text.new.items ≡ text.old.items ++ message.display_part display.now) }
{
    match display {
        [] => Ok(()),
        [_, ..] => {
            text.extend_from_slice(display)?;
            text.extend_from_slice(b" ")
        }
    }
}
