//! Writes event files and session files: the head, and then one round after another, as a run goes
//! on.

ghost use Rattle.std.specs.Prelude.{◌≡◌, ◌++◌, IfOk, OnOk, codes};
ghost use Rattle.std.specs.List.{flat_map};
ghost use Rattle.sip_files.specs.Written as written;
ghost use Rattle.sip_files.specs.Field as field;
ghost use Rattle.sip_files.specs.Word.{hex_pair};
ghost use Rattle.sip_files.specs.declared.event_line.EventLine.TheVariants as line;
ghost use Rattle.sip_message.specs.declared.key.Key.TheVariants as key;

use crate::command_writer::push_command;
use crate::field_writer::{push_address, push_number, push_plain, push_rest_field, push_text};
use crate::header_writer::push_headers;
use crate::version::{FileKind, Version};
use crate::words::push_hex;
use sip_grammar::LowerText;
use sip_message::{Addr, Key, SentBy, Token};
use sip_round::{Config, Event, Round};
use std::alloc::{AllocError, Global};

/// The head of an event file for an agent with this configuration: version 2, and its three lines.
pub fn write_head(alloc: Global, config: &Config) -> Result<Vec<u8>, AllocError>
    ensures { IfOk result (λ text. text.items ≡ written.head_text config.now) }
{
    write_file_head(alloc, FileKind::Events, config)
}

/// The head of a file of this kind, for an agent with this configuration: its version, and its
/// three lines.
pub fn write_file_head(
    alloc: Global,
    kind: FileKind,
    config: &Config,
) -> Result<Vec<u8>, AllocError>
    ensures { IfOk result (λ text. text.items ≡ written.file_head kind config.now) }
{
    head_in(alloc, kind.written(), config)
}

/// The lines of a round in an event file.
pub fn write_round(alloc: Global, round: &Round) -> Result<Vec<u8>, AllocError>
    ensures { IfOk result (λ text. text.items ≡ written.round_text round.now) }
{
    write_file_round(alloc, FileKind::Events, round)
}

/// The lines of a round in a file of this kind. In a session file they include the headers of
/// commands.
#[tactic(auto, unfolding(crate::specs::Written::round_in))]
pub fn write_file_round(alloc: Global, kind: FileKind, round: &Round) -> Result<Vec<u8>, AllocError>
    ensures { IfOk result (λ text. text.items ≡ written.round_in kind round.now) }
{
    let mut file = Vec::new(alloc);
    push_moment(&mut file, round.moment)?;
    push_events(&mut file, kind, round.events.as_slice())?;
    Ok(file)
}

/// The line of one event in an event file, with its end.
pub fn write_event(alloc: Global, event: &Event) -> Result<Vec<u8>, AllocError>
    ensures { IfOk result (λ text. text.items ≡ written.ended_text (line.Event event.now)) }
{
    let mut text = Vec::new(alloc);
    push_event(&mut text, event)?;
    Ok(text)
}

#[tactic(auto, unfolding(crate::specs::Written::head_in))]
fn head_in(alloc: Global, version: Version, config: &Config) -> Result<Vec<u8>, AllocError>
    ensures { IfOk result (λ text. text.items ≡ written.head_in version config.now) }
{
    let mut file = Vec::new(alloc);
    file.extend_from_slice(version.line())?;
    file.push(b'\n')?;
    push_local(&mut file, config.local)?;
    push_seed(&mut file, &config.seed)?;
    push_first(&mut file, config.first)?;
    Ok(file)
}

#[tactic(auto, unfolding(crate::specs::Written::ended_text))]
fn push_local(file: &mut Vec<u8>, local: Addr) -> Result<(), AllocError>
    ensures { OnOk result (file.new.items ≡ file.old.items
        ++ written.ended_text (line.Local local)) }
{
    file.extend_from_slice(b"local")?;
    push_address(file, local)?;
    file.push(b'\n')?;
    Ok(())
}

#[tactic(auto, unfolding(crate::specs::Written::ended_text, crate::specs::Field::plain_field))]
fn push_seed(file: &mut Vec<u8>, seed: &[u8]) -> Result<(), AllocError>
    ensures { OnOk result (file.new.items ≡ file.old.items
        ++ written.ended_text (line.Seed seed.now)) }
{
    file.extend_from_slice(b"seed")?;
    file.push(b' ')?;
    push_hex_pairs(file, seed)?;
    file.push(b'\n')?;
    Ok(())
}

#[tactic(auto, unfolding(crate::specs::Written::ended_text))]
fn push_first(file: &mut Vec<u8>, first: u64) -> Result<(), AllocError>
    ensures { OnOk result (file.new.items ≡ file.old.items
        ++ written.ended_text (line.First first)) }
{
    file.extend_from_slice(b"first")?;
    push_number(file, first)?;
    file.push(b'\n')?;
    Ok(())
}

#[tactic(auto, unfolding(crate::specs::Written::ended_text))]
fn push_moment(file: &mut Vec<u8>, moment: u64) -> Result<(), AllocError>
    ensures { OnOk result (file.new.items ≡ file.old.items
        ++ written.ended_text (line.Round moment)) }
{
    file.extend_from_slice(b"round")?;
    push_number(file, moment)?;
    file.push(b'\n')?;
    Ok(())
}

fn push_hex_pairs(file: &mut Vec<u8>, bytes: &[u8]) -> Result<(), AllocError>
    ensures { OnOk result (file.new.items ≡ file.old.items ++ flat_map hex_pair bytes.now) }
{
    for byte in bytes {
        push_hex(file, *byte)?;
    }
    Ok(())
}

fn push_events(file: &mut Vec<u8>, kind: FileKind, events: &[Event]) -> Result<(), AllocError>
    ensures { OnOk result (file.new.items ≡ file.old.items
        ++ flat_map (written.event_lines kind) events.now) }
{
    for event in events {
        push_lines(file, kind, event)?;
    }
    Ok(())
}

fn push_lines(file: &mut Vec<u8>, kind: FileKind, event: &Event) -> Result<(), AllocError>
    ensures { OnOk result (file.new.items ≡ file.old.items
        ++ written.event_lines kind event.now) }
{
    match kind {
        FileKind::Events => push_event(file, event),
        FileKind::Session => {
            push_headers(file, event)?;
            push_event(file, event)
        }
    }
}

// The line of an event, with its end.
#[tactic(auto, unfolding(crate::specs::Written::ended_text))]
fn push_event(file: &mut Vec<u8>, event: &Event) -> Result<(), AllocError>
    ensures { OnOk result (file.new.items ≡ file.old.items
        ++ written.ended_text (line.Event event.now)) }
{
    push_event_text(file, event)?;
    file.push(b'\n')?;
    Ok(())
}

fn push_event_text(file: &mut Vec<u8>, event: &Event) -> Result<(), AllocError>
    ensures { OnOk result (file.new.items ≡ file.old.items ++ written.event_text event.now) }
{
    match event {
        Event::Datagram { from, bytes } => push_datagram(file, *from, bytes.as_slice()),
        Event::Failed(key) => push_failed(file, key.get()),
        Event::Command(command) => push_command(file, command),
    }
}

fn push_datagram(file: &mut Vec<u8>, from: Addr, bytes: &[u8]) -> Result<(), AllocError>
    ensures { OnOk result (file.new.items ≡ file.old.items
        ++ (codes "datagram" ++ field.address_field from ++ field.rest_field bytes.now)) }
{
    file.extend_from_slice(b"datagram")?;
    push_address(file, from)?;
    push_rest_field(file, bytes)
}

fn push_failed(file: &mut Vec<u8>, key: &Key) -> Result<(), AllocError>
    ensures { OnOk result (file.new.items ≡ file.old.items ++ written.failed_text key.now) }
{
    match key {
        Key::Client { branch, method } => push_failed_client(file, branch, method),
        Key::Server {
            branch,
            sent_by,
            method,
        } => push_failed_server(file, branch, sent_by, method),
    }
}

fn push_failed_client(
    file: &mut Vec<u8>,
    branch: &LowerText,
    method: &Token,
) -> Result<(), AllocError>
    ensures { OnOk result (file.new.items ≡ file.old.items
        ++ written.failed_text (key.Client branch.now method.now)) }
{
    file.extend_from_slice(b"failed client")?;
    push_text(file, branch.as_slice())?;
    push_plain(file, method.as_slice())
}

fn push_failed_server(
    file: &mut Vec<u8>,
    branch: &LowerText,
    sent_by: &SentBy,
    method: &Token,
) -> Result<(), AllocError>
    ensures { OnOk result (file.new.items ≡ file.old.items
        ++ written.failed_text (key.Server branch.now sent_by.now method.now)) }
{
    file.extend_from_slice(b"failed server")?;
    push_text(file, branch.as_slice())?;
    push_sent_by(file, sent_by)?;
    push_plain(file, method.as_slice())
}

fn push_sent_by(file: &mut Vec<u8>, sent_by: &SentBy) -> Result<(), AllocError>
    ensures { OnOk result (file.new.items ≡ file.old.items
        ++ (field.word_field sent_by.now.host ++ field.number_field sent_by.now.port)) }
{
    push_text(file, sent_by.host.as_slice())?;
    push_number(file, u64::from(sent_by.port))
}
