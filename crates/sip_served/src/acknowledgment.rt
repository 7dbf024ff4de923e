//! The ACK of a 2xx, and PRACKs (RFC 3261, section 13.3.1.4; RFC 3262, section 3).

ghost use Rattle.std.specs.Prelude.{◌≡◌, ◌&&◌, false, is_none};
ghost use Rattle.std.specs.Option.{option_map_or};
ghost use Rattle.sip_reliable.specs.Ledger.{acknowledged};
ghost use Rattle.sip_served.specs.Acknowledgment as spec;
ghost use Rattle.sip_served.specs.Arrival.{pracked};

use crate::held_request::{HeldRequest, SuccessEnd};
use sip_held_dialogs::request::is_invite;
use sip_message::{Id, Message};
use sip_reliable::Outbound;
use sip_text::token_eq;

/// The id of the first INVITE whose 2xx this ACK is for.
pub(crate) fn acknowledged_invite(ack: &Message, requests: &[HeldRequest]) -> Option<Id>
    ensures { result ≡ spec.acknowledged_invite ack.now requests.now }
{
    let held = requests.iter().find(|held| takes_ack(held, ack))?;
    Some(held.id)
}

/// Whether the ACK is for the 2xx to this INVITE, which still waits for it.
pub(crate) fn takes_ack(held: &HeldRequest, ack: &Message) -> bool
    ensures { result ≡ (spec.awaits_ack held.now && spec.is_ack_of ack.now held.now) }
{
    awaits_ack(held) && is_ack_of(ack, held)
}

fn awaits_ack(held: &HeldRequest) -> bool
    ensures { result ≡ spec.awaits_ack held.now }
{
    is_invite(held.request.get()) && is_awaited(held)
}

fn is_awaited(held: &HeldRequest) -> bool
    ensures { result ≡ option_map_or (λ success. is_none success.over) held.now.success false }
{
    match &held.success {
        Some(success) => success.get().over.is_none(),
        None => false,
    }
}

fn is_ack_of(ack: &Message, held: &HeldRequest) -> bool
    ensures { result ≡ spec.is_ack_of ack.now held.now }
{
    token_eq(ack.to.tag(), held.tag.as_slice())
        && token_eq(ack.from.tag(), held.request.get().from.tag())
        && ack.cseq.number == held.request.get().cseq.number
}

/// The 2xx isn't sent again.
pub(crate) fn end_success(held: &mut HeldRequest, end: SuccessEnd)
    ensures { held.new ≡ spec.success_ended end held.old }
{
    if let Some(success) = &mut held.success {
        success.get_mut().over = Some(end);
    }
}

/// The PRACK of the response to this INVITE with this RSeq came.
pub(crate) fn prack(held: &mut HeldRequest, rseq: u32)
    ensures { held.new ≡ pracked rseq held.old }
{
    acknowledge_number(&mut held.ledger, rseq);
    held.provisionals.remove(rseq);
}

fn acknowledge_number(ledger: &mut Outbound, rseq: u32)
    ensures { ledger.new ≡ acknowledged rseq ledger.old }
{
    let _ = ledger.acknowledge(rseq);
}
