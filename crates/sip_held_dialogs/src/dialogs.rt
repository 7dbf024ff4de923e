//! What happens to the held dialogs.

ghost use Rattle.std.specs.Prelude.{◌≡◌, IfOk, OnOk, not};
ghost use Rattle.sip_held_dialogs.specs.Counted.{IsMadeBy};
ghost use Rattle.sip_held_dialogs.specs.Dialogs as spec;
ghost use Rattle.sip_held_dialogs.specs.declared.dialog_map.MadeBy.TheVariants.{One};

use crate::dialog_map::{DialogList, Dialogs, MadeBy};
use crate::held_dialog::{DialogId, DialogReference, HeldDialog};
use crate::request::{has_to_tag, is_invite};
use sip_dialog::{DialogFault, DialogState, Endpoint};
use sip_message::{Id, Message};
use sip_text::Text;
use sip_user::{CallOut, Notice};
use std::alloc::{AllocError, Global};

/// Whether a CSeq number is above those that came in the dialog before.
pub fn takes(held: &HeldDialog, number: u32) -> bool
    ensures { result ≡ spec.takes held.now number }
{
    match held.dialog.state() {
        DialogState::Ended => false,
        DialogState::Early | DialogState::Confirmed => {
            !held.dialog.remote_cseq().is_some_and(|last| number <= last)
        }
    }
}

/// Whether the dialog of this reference is still held.
pub fn lives(dialogs: &Dialogs, life: &DialogReference) -> bool
    ensures { result ≡ spec.lives dialogs.now.entries life.now }
{
    match dialogs.get(&life.name) {
        Some(held) => held.created_by == life.created_by,
        None => false,
    }
}

/// A reference to the held dialog of this name, if the request has a To tag.
pub fn dialog_of_request(
    dialogs: &Dialogs,
    request: &Message,
    name: &DialogId,
) -> Result<Option<DialogReference>, AllocError>
    ensures { IfOk result (λ dialog. dialog
        ≡ spec.dialog_of_request request.now name.now dialogs.now.entries) }
{
    if has_to_tag(request) {
        life_at(dialogs, name)
    } else {
        Ok(None)
    }
}

fn life_at(dialogs: &Dialogs, name: &DialogId) -> Result<Option<DialogReference>, AllocError>
    ensures { IfOk result (λ dialog. dialog ≡ spec.reference_at name.now dialogs.now.entries) }
{
    let Some(held) = dialogs.get(name) else {
        return Ok(None);
    };
    Ok(Some(DialogReference {
        name: name.clone()?,
        created_by: held.created_by,
    }))
}

/// Notes a request in the dialog of this name: its number and its target.
pub fn visit(dialogs: &mut Dialogs, name: &DialogId, request: &Message) -> Result<(), AllocError>
    ensures { OnOk result (dialogs.new.entries
        ≡ spec.dialog_changed name.now (spec.visited request.now) dialogs.old.entries) }
{
    let Some(held) = dialogs.all.get_mut(name) else {
        return Ok(());
    };
    visit_dialog(held, request)
}

fn visit_dialog(held: &mut HeldDialog, request: &Message) -> Result<(), AllocError>
    ensures held { OnOk result (held.new ≡ spec.visited request.now held.old) }
    ensures same_invite { held.new.invite ≡ held.old.invite }
{
    number(held, request.cseq.number);
    refresh(held, request)
}

fn number(held: &mut HeldDialog, cseq: u32)
    ensures { held.new ≡ spec.lived (spec.numbers cseq held.old) held.old }
{
    let _ = held.dialog.accept(cseq);
}

// A re-INVITE with a Contact refreshes the target.
fn refresh(held: &mut HeldDialog, request: &Message) -> Result<(), AllocError>
    ensures held { OnOk result (held.new
        ≡ spec.lived (spec.refreshes request.now held.old) held.old) }
    ensures same_invite { held.new.invite ≡ held.old.invite }
{
    if !is_invite(request) {
        return Ok(());
    }
    let Some(contact) = request.contacts.first() else {
        return Ok(());
    };
    let uri = contact.uri.clone()?;
    let _ = held.dialog.refresh(uri);
    Ok(())
}

/// A 2xx confirms the dialog of this name.
pub fn confirm(dialogs: &mut Dialogs, name: &DialogId, response: &Message) -> Result<(), AllocError>
    ensures { OnOk result (dialogs.new.entries
        ≡ spec.dialog_changed name.now (spec.confirmed response.now) dialogs.old.entries) }
{
    let Some(held) = dialogs.all.get_mut(name) else {
        return Ok(());
    };
    confirm_dialog(held, response)
}

/// A 2xx confirms this dialog.
pub fn confirm_dialog(held: &mut HeldDialog, response: &Message) -> Result<(), AllocError>
    ensures held { OnOk result (held.new ≡ spec.confirmed response.now held.old) }
    ensures same_invite { held.new.invite ≡ held.old.invite }
{
    match held.dialog.confirm(response) {
        Ok(()) | Err(DialogFault::Ended) => Ok(()),
        Err(_) => Err(AllocError),
    }
}

/// Ends the dialog of this name and tells the user, if there is one.
pub fn end(
    alloc: Global,
    dialogs: &mut Dialogs,
    name: &DialogId,
) -> Result<Vec<CallOut>, AllocError>
    ensures { IfOk result (λ outs. (dialogs.new.entries, outs.items)
        ≡ spec.ended_at name.now dialogs.old.entries) }
{
    let mut outs = Vec::new(alloc);
    if let Some(held) = dialogs.remove(name) {
        outs.push(ended_notice(alloc, &held)?)?;
    }
    Ok(outs)
}

/// Ends the early dialogs that an INVITE made, and tells the user of each.
pub fn end_early(
    alloc: Global,
    dialogs: &mut Dialogs,
    invite: Id,
) -> Result<Vec<CallOut>, AllocError>
    ensures { IfOk result (λ outs. (dialogs.new.entries, outs.items)
        ≡ spec.early_ended invite dialogs.old.entries) }
{
    match dialogs.made_by(invite)? {
        MadeBy::Nothing => Ok(Vec::new(alloc)),
        MadeBy::One(name) => end_one_early(alloc, dialogs, &name, invite),
        MadeBy::Several => end_each_early(alloc, dialogs, invite),
    }
}

// The same for the only dialog that an INVITE made.
fn end_one_early(
    alloc: Global,
    dialogs: &mut Dialogs,
    name: &DialogId,
    invite: Id,
) -> Result<Vec<CallOut>, AllocError>
    requires { IsMadeBy invite dialogs.old.entries (One name.now) }
    ensures { IfOk result (λ outs. (dialogs.new.entries, outs.items)
        ≡ spec.early_ended invite dialogs.old.entries) }
{
    let Some(held) = dialogs.get(name) else {
        return Ok(Vec::new(alloc));
    };
    if !is_early_of(held, invite) {
        return Ok(Vec::new(alloc));
    }
    end(alloc, dialogs, name)
}

// The same with a look at all dialogs.
fn end_each_early(
    alloc: Global,
    dialogs: &mut Dialogs,
    invite: Id,
) -> Result<Vec<CallOut>, AllocError>
    ensures { IfOk result (λ outs. (dialogs.new.entries, outs.items)
        ≡ spec.early_ended invite dialogs.old.entries) }
{
    let mut list = dialogs.take().into_list()?;
    let outs = early_notices(alloc, &list, invite)?;
    drop_early(&mut list, invite);
    *dialogs = Dialogs::of_list(alloc, list)?;
    Ok(outs)
}

/// The notices of the end of the early dialogs of an INVITE.
pub fn early_notices(
    alloc: Global,
    dialogs: &DialogList,
    invite: Id,
) -> Result<Vec<CallOut>, AllocError>
    ensures { IfOk result (λ outs. outs.items ≡ (spec.early_ended invite dialogs.now.entries).1) }
{
    let mut outs = Vec::new(alloc);
    for held in dialogs.values().as_slice() {
        if is_early_of(held, invite) {
            outs.push(ended_notice(alloc, held)?)?;
        }
    }
    Ok(outs)
}

fn drop_early(dialogs: &mut DialogList, invite: Id)
    ensures { dialogs.new.entries ≡ (spec.early_ended invite dialogs.old.entries).0 }
{
    dialogs.retain(
        |_name, held| -> bool
            ensures kept { result ≡ not (spec.is_early_of invite held.old) }
            ensures same { held.new ≡ held.old }
        { !is_early_of(held, invite) },
    );
}

/// Whether a dialog is an early one that this INVITE made.
pub fn is_early_of(held: &HeldDialog, invite: Id) -> bool
    ensures { result ≡ spec.is_early_of invite held.now }
{
    match held.dialog.state() {
        DialogState::Early => held.invite == invite,
        DialogState::Confirmed | DialogState::Ended => false,
    }
}

// The notice of the end of a dialog.
fn ended_notice(alloc: Global, held: &HeldDialog) -> Result<CallOut, AllocError>
    ensures { IfOk result (λ out. out ≡ spec.ended_notice held.now) }
{
    let call_id = held.dialog.call_id().clone()?;
    let local_tag = tag_text(alloc, held.dialog.local())?;
    let remote_tag = tag_text(alloc, held.dialog.remote())?;
    Ok(CallOut::Notice(Notice::Ended {
        call_id,
        local_tag,
        remote_tag,
    }))
}

fn tag_text(alloc: Global, endpoint: &Endpoint) -> Result<Text, AllocError>
    ensures { IfOk result (λ text. text ≡ spec.tag_text endpoint.now.tag) }
{
    match &endpoint.tag {
        Some(tag) => Text::copy_of(alloc, tag.as_slice()),
        None => Ok(Text::from_vec(Vec::new(alloc))),
    }
}
