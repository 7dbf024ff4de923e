//! What a response, or the end of a client request, does to the held dialogs.

ghost use Rattle.std.specs.Prelude.{◌≡◌, IfOk, OnOk};
ghost use Rattle.indexmap.specs.IndexMap.{insert_entry};
ghost use Rattle.sip_held_dialogs.specs.Dialogs.{is_dialog_id};
ghost use Rattle.sip_clients.specs.Dialogs as spec;

use crate::client::{Client, RequestKind};
use crate::event::Event;
use crate::pending::send_pending;
use crate::reply::ReceivedResponse;
use crate::send_outcome::SendOutcome;
use sip_dialog::Dialog;
use sip_held_dialogs::dialogs::{confirm_dialog, end, end_early, lives};
use sip_held_dialogs::{DialogId, DialogReference, Dialogs, HeldDialog, PendingRequest};
use sip_message::{Content, Message};
use sip_reliable::Inbound;
use sip_text::Series;
use sip_user::CallOut;
use std::alloc::{AllocError, Global};

/// The dialog that a response makes (RFC 3261, section 12.1.2).
pub(crate) fn made_dialog(
    alloc: Global,
    client: &Client,
    reply: &ReceivedResponse,
) -> Result<HeldDialog, AllocError>
    ensures { IfOk result (λ made. made ≡ spec.dialog_by_response client.now reply.now) }
{
    Ok(HeldDialog {
        dialog: Dialog::from_response(alloc, &client.request, &reply.response)?,
        address: client.to,
        invite: client.id,
        created_by: reply.event.id,
        last_rseq: Inbound::new(),
        pending_requests: Series::new(alloc),
    })
}

/// Holds a dialog that was made under this name.
pub(crate) fn hold(
    dialogs: &mut Dialogs,
    name: DialogId,
    made: HeldDialog,
) -> Result<(), AllocError>
    ensures { OnOk result (dialogs.new.entries
        ≡ insert_entry is_dialog_id dialogs.old.entries name made) }
{
    dialogs.insert(name, made)?;
    Ok(())
}

/// The first 2xx of a held dialog confirms it, or, to a re-INVITE, refreshes its target (RFC 3261,
/// sections 13.2.2.4 and 12.2.1.2).
pub(crate) fn accept(
    held: &mut HeldDialog,
    kind: &RequestKind,
    response: &Message,
) -> Result<(), AllocError>
    ensures held { OnOk result (held.new ≡ spec.accepted_in kind.now response.now held.old) }
    ensures same_invite { held.new.invite ≡ held.old.invite }
{
    match kind {
        RequestKind::InitialInvite => confirm_dialog(held, response),
        RequestKind::ReInvite(_) => refresh_dialog(held, response),
        RequestKind::InDialog(_) | RequestKind::OutOfDialog => Ok(()),
    }
}

fn refresh_dialog(held: &mut HeldDialog, response: &Message) -> Result<(), AllocError>
    ensures held { OnOk result (held.new ≡ spec.refreshed response.now held.old) }
    ensures same_invite { held.new.invite ≡ held.old.invite }
{
    let Some(contact) = response.contacts.first() else {
        return Ok(());
    };
    let uri = contact.uri.clone()?;
    let _ = held.dialog.refresh(uri);
    Ok(())
}

/// A reliable provisional response with this RSeq came in a dialog.
pub(crate) fn hear(held: &mut HeldDialog, rseq: u32)
    ensures { held.new ≡ spec.hearing rseq held.old }
{
    let _ = held.last_rseq.offer(rseq);
}

/// Sends what is owed in the dialog of this name, as the user's command asks.
pub(crate) fn pay_at(
    alloc: Global,
    dialogs: &mut Dialogs,
    name: &DialogId,
    event: Event,
    pending: PendingRequest,
    content: Content,
) -> Result<SendOutcome, AllocError>
    ensures outcome { IfOk result (λ outcome. outcome
        ≡ (spec.paid_at name.now event pending content dialogs.old.entries).1) }
    ensures dialogs { OnOk result (dialogs.new.entries
        ≡ (spec.paid_at name.now event pending content dialogs.old.entries).0) }
{
    let Some(held) = dialogs.all.get_mut(name) else {
        return Ok(SendOutcome::Waits);
    };
    send_pending(alloc, held, event, pending, content)
}

/// Ends what ends with a client request: the early dialogs that it made, and, if `ends`, the dialog
/// that it was sent in.
pub(crate) fn end_with(
    alloc: Global,
    dialogs: &mut Dialogs,
    client: &Client,
    ends: bool,
) -> Result<Vec<CallOut>, AllocError>
    ensures { IfOk result (λ outs. (dialogs.new.entries, outs.items)
        ≡ spec.ended_with client.now ends dialogs.old.entries) }
{
    let mut outs = end_early(alloc, dialogs, client.id)?;
    outs.append(&mut end_own(alloc, dialogs, &client.kind, ends)?)?;
    Ok(outs)
}

fn end_own(
    alloc: Global,
    dialogs: &mut Dialogs,
    kind: &RequestKind,
    ends: bool,
) -> Result<Vec<CallOut>, AllocError>
    ensures { IfOk result (λ outs. (dialogs.new.entries, outs.items)
        ≡ spec.own_ended kind.now ends dialogs.old.entries) }
{
    match kind {
        RequestKind::ReInvite(life) | RequestKind::InDialog(life) if ends => end_life(
            alloc, dialogs, life,
        ),
        _ => Ok(Vec::new(alloc)),
    }
}

fn end_life(
    alloc: Global,
    dialogs: &mut Dialogs,
    life: &DialogReference,
) -> Result<Vec<CallOut>, AllocError>
    ensures { IfOk result (λ outs. (dialogs.new.entries, outs.items)
        ≡ spec.life_ended life.now dialogs.old.entries) }
{
    if lives(dialogs, life) {
        end(alloc, dialogs, &life.name)
    } else {
        Ok(Vec::new(alloc))
    }
}
