//! The outcome of a request to send in a dialog.

ghost use Rattle.std.specs.Prelude.{◌≡◌, ◌∷◌, ◌++◌, [], ℕ, IfOk, List, OnOk, Option, Some, codes};
ghost use Rattle.sip_dialog.specs.declared.fault.DialogFault.{DialogFault};
ghost use Rattle.sip_dialog.specs.Fault.{or_no_memory};
ghost use Rattle.sip_clients.specs.declared.send_outcome.OutgoingRequest.{OutgoingRequest};
ghost use Rattle.sip_held_dialogs.specs.declared.held_dialog.HeldDialog.{HeldDialog};
ghost use Rattle.sip_held_dialogs.specs.Dialogs.{lived};
ghost use Rattle.sip_clients.specs.SendOutcome as spec;

use crate::event::Event;
use sip_dialog::DialogFault;
use sip_held_dialogs::{HeldDialog, PendingRequest};
use sip_message::{Addr, Content, Id, Message, RAck, Token};
use sip_user::Refusal;
use std::alloc::{AllocError, Global};

/// A request that is sent in a dialog.
pub(crate) struct OutgoingRequest {
    pub(crate) message: Message,
    pub(crate) to: Addr,
    /// The event that made the dialog.
    pub(crate) created_by: Id,
}

/// The outcome of a request to send in a dialog.
#[derive(Drop)]
pub(crate) enum SendOutcome {
    Sent(OutgoingRequest),
    /// It waits for the user's command.
    Waits,
    Refused(Refusal),
}

impl OutgoingRequest {
    /// The request, and its address.
    pub(crate) fn into_parts(self) -> (Message, Addr)
        ensures { result ≡ (self.message, self.to) }
    {
        let OutgoingRequest {
            message,
            to,
            created_by: _,
        } = self;
        (message, to)
    }
}

impl Drop for OutgoingRequest {
    fn drop(self) {
        let OutgoingRequest {
            message: _,
            to: _,
            created_by: _,
        } = self;
    }
}

/// Sends a request of this method, with a RAck if it is a PRACK.
pub(crate) fn request(
    alloc: Global,
    held: &mut HeldDialog,
    event: Event,
    method: Token,
    rack: Option<RAck>,
    content: Content,
) -> Result<SendOutcome, AllocError>
    ensures outcome { IfOk result (λ outcome. outcome
        ≡ (spec.requested event method rack content held.old).1) }
    ensures held { OnOk result (held.new ≡ (spec.requested event method rack content held.old).0) }
    ensures same_invite { held.new.invite ≡ held.old.invite }
{
    let to = held.dialog.hop(held.address);
    let created_by = held.created_by;
    let branch = event.branch(alloc)?;
    match held
        .dialog
        .next_request(method, content, branch, event.local)
    {
        Ok(message) => Ok(SendOutcome::Sent(OutgoingRequest {
            message: with_rack(message, rack),
            to,
            created_by,
        })),
        Err(fault) => refused_by(fault),
    }
}

fn with_rack(mut message: Message, rack: Option<RAck>) -> Message
    ensures { result ≡ spec.with_rack rack message }
{
    message.rack = rack;
    message
}

// The ACK of the INVITE of this number.
fn ack(
    alloc: Global,
    held: &HeldDialog,
    event: Event,
    number: u32,
    content: Content,
) -> Result<SendOutcome, AllocError>
    ensures { IfOk result (λ outcome. outcome ≡ spec.acked event held.now number content) }
{
    let to = held.dialog.hop(held.address);
    let branch = event.branch(alloc)?;
    match held.dialog.ack(number, content, branch, event.local) {
        Ok(message) => Ok(SendOutcome::Sent(OutgoingRequest {
            message,
            to,
            created_by: held.created_by,
        })),
        Err(fault) => refused_by(fault),
    }
}

// The PRACK of this RSeq.
#[tactic(auto, unfolding(sip_text::specs::Token::is_token, sip_text::specs::Token::is_token_byte))]
fn prack(
    alloc: Global,
    held: &mut HeldDialog,
    event: Event,
    rseq: u32,
    number: u32,
    content: Content,
) -> Result<SendOutcome, AllocError>
    ensures outcome { IfOk result (λ outcome. outcome
        ≡ (spec.prack_requested event rseq number content held.old).1) }
    ensures held { OnOk result (held.new ≡ (spec.prack_requested event rseq number content
        held.old).0) }
    ensures same_invite { held.new.invite ≡ held.old.invite }
{
    let rack = RAck {
        rseq,
        cseq: number,
        method: Token::copy_of(alloc, b"INVITE")?,
    };
    let method = Token::copy_of(alloc, b"PRACK")?;
    request(alloc, held, event, method, Some(rack), content)
}

// Why a dialog refused a request, or that memory ran out.
fn refused_by(fault: DialogFault) -> Result<SendOutcome, AllocError>
    ensures outcome { (found : Option DialogFault) (sending : OutgoingRequest) → fault
        ≡ or_no_memory found
        → IfOk result (λ outcome. outcome ≡ spec.outcome_by found sending) }
    ensures held { (found : Option DialogFault) (method : List ℕ) (held : HeldDialog)
        → fault ≡ or_no_memory found → OnOk result (held
        ≡ lived (spec.happens_by_sending method found) held) }
{
    match fault {
        DialogFault::NoMemory => Err(AllocError),
        DialogFault::StrictRoute => Ok(SendOutcome::Refused(Refusal::StrictRoute)),
        DialogFault::NotConfirmed => Ok(SendOutcome::Refused(Refusal::BadMethod)),
        DialogFault::Ended => Ok(SendOutcome::Refused(Refusal::DialogEnded)),
        DialogFault::SequenceUsedUp | DialogFault::OutOfOrder => {
            Ok(SendOutcome::Refused(Refusal::SequenceUsedUp))
        }
    }
}

/// Sends an ACK or PRACK with its content. Without a content it waits for the user.
#[tactic(auto, unfolding(crate::specs::SendOutcome::discharged))]
pub(crate) fn discharge(
    alloc: Global,
    held: &mut HeldDialog,
    event: Event,
    pending: PendingRequest,
    offer: Option<Content>,
) -> Result<SendOutcome, AllocError>
    ensures outcome { IfOk result (λ outcome. outcome
        ≡ (spec.discharged event pending offer held.old).1) }
    ensures held { OnOk result (held.new ≡ (spec.discharged event pending offer held.old).0) }
    ensures same_invite { held.new.invite ≡ held.old.invite }
{
    let Some(content) = offer else {
        return Ok(SendOutcome::Waits);
    };
    match pending {
        PendingRequest::Ack { invite: _, number } => ack(alloc, held, event, number, content),
        PendingRequest::Prack { rseq, number } => prack(alloc, held, event, rseq, number, content),
    }
}
