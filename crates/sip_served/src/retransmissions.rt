//! A tick: what is sent again, given up and removed.

ghost use Rattle.std.specs.Prelude.{◌≡◌, ◌≤◌, ◌^◌, ◌++◌, [], IfOk, OnOk, filter, map, None};
ghost use Rattle.std.specs.List.{flat_map};
ghost use Rattle.std.specs.Option.{option_and_then};
ghost use Rattle.sip_reliable.specs.Happening.{is_among};
ghost use Rattle.sip_served.specs.RequestLife as life;
ghost use Rattle.sip_served.specs.Tick as spec;
ghost use Rattle.sip_user.specs.declared.notice.Notice.TheVariants as notices;

use crate::acknowledgment::end_success;
use crate::held_request::{HeldRequest, Retransmission, Success, SuccessEnd};
use crate::outputs::command_for;
use sip_reliable::Tick;
use sip_timers::earlier;
use sip_transactions::T2;
use sip_user::{CallOut, Notice};
use std::alloc::{AllocError, Global};

/// What is due of the 2xx to an INVITE (RFC 3261, section 13.3.1.4).
#[derive(Clone, Copy)]
enum SuccessDue {
    Nothing,
    /// It is sent again.
    Again,
    /// Its ACK didn't come in time: it isn't sent again.
    GivenUp,
}

/// Does what is due for each held request at the moment `now`, in ms.
pub(crate) fn tick_requests(
    alloc: Global,
    requests: &mut Vec<HeldRequest>,
    now: u64,
    outs: &mut Vec<CallOut>,
) -> Result<(), AllocError>
    requires { now ≤ 2 ^ 62 }
    ensures requests { OnOk result (requests.new.items
        ≡ map (λ held. (spec.request_ticked now held).0) requests.old.items) }
    ensures outs { OnOk result (outs.new.items ≡ outs.old.items
        ++ flat_map (λ held. (spec.request_ticked now held).1) requests.old.items) }
{
    for held in requests.iter_mut() {
        tick_request(alloc, held, now, outs)?;
    }
    Ok(())
}

// First the 2xx, and then the reliable provisional responses.
pub(crate) fn tick_request(
    alloc: Global,
    held: &mut HeldRequest,
    now: u64,
    outs: &mut Vec<CallOut>,
) -> Result<(), AllocError>
    requires { now ≤ 2 ^ 62 }
    ensures held { OnOk result (held.new ≡ (spec.request_ticked now held.old).0) }
    ensures outs { OnOk result (outs.new.items ≡ outs.old.items
        ++ (spec.request_ticked now held.old).1) }
{
    retransmit_2xx(alloc, held, now, outs)?;
    tick_provisionals(alloc, held, now, outs)
}

// What is due of the 2xx to an INVITE.
fn retransmit_2xx(
    alloc: Global,
    held: &mut HeldRequest,
    now: u64,
    outs: &mut Vec<CallOut>,
) -> Result<(), AllocError>
    requires { now ≤ 2 ^ 62 }
    ensures held { OnOk result (held.new ≡ (spec.success_ticked now held.old).0) }
    ensures outs { OnOk result (outs.new.items ≡ outs.old.items
        ++ (spec.success_ticked now held.old).1) }
{
    let Some(success) = &held.success else {
        return Ok(());
    };
    match success_answer(success.get(), now) {
        SuccessDue::Nothing => Ok(()),
        SuccessDue::Again => {
            let response = success.get().response.get().clone()?;
            outs.push(command_for(alloc, held.id, &held.key, response)?)?;
            set_next_2xx(held, now);
            Ok(())
        }
        SuccessDue::GivenUp => {
            outs.push(CallOut::Notice(no_ack(held)?))?;
            end_success(held, SuccessEnd::GivenUp);
            Ok(())
        }
    }
}

fn success_answer(success: &Success, now: u64) -> SuccessDue
    ensures { result ≡ spec.success_answer now success.now }
{
    if success.over.is_some() {
        SuccessDue::Nothing
    } else if success.end <= now {
        SuccessDue::GivenUp
    } else if success.retransmission.due <= now {
        SuccessDue::Again
    } else {
        SuccessDue::Nothing
    }
}

fn set_next_2xx(held: &mut HeldRequest, now: u64)
    requires { now ≤ 2 ^ 62 }
    ensures { held.new ≡ life.request_happened held.old (life.RepeatsSuccess now) }
{
    if let Some(success) = &mut held.success {
        let success = success.get_mut();
        success.retransmission = next_retransmission(success.retransmission, now);
    }
}

fn next_retransmission(last: Retransmission, now: u64) -> Retransmission
    requires { now ≤ 2 ^ 62 }
    ensures { result ≡ life.next_retransmission now last }
{
    let interval = last.interval.saturating_mul(2).min(u64::from(T2));
    Retransmission {
        due: now + interval,
        interval,
    }
}

fn no_ack(held: &HeldRequest) -> Result<Notice, AllocError>
    ensures { IfOk result (λ notice. notice ≡ notices.NoAck held.now.request.call_id held.now.id) }
{
    Ok(Notice::NoAck {
        call_id: held.request.get().call_id.clone()?,
        id: held.id,
    })
}

// What is due of the reliable provisional responses that wait.
#[tactic(auto, using(crate::proofs::RequestLives::provisionals_alone))]
fn tick_provisionals(
    alloc: Global,
    held: &mut HeldRequest,
    now: u64,
    outs: &mut Vec<CallOut>,
) -> Result<(), AllocError>
    requires { now ≤ 2 ^ 62 }
    ensures held { OnOk result (held.new ≡ (spec.provisionals_ticked now held.old).0) }
    ensures outs { OnOk result (outs.new.items ≡ outs.old.items
        ++ (spec.provisionals_ticked now held.old).1) }
{
    let tick = held.ledger.tick(now);
    tell_provisionals(alloc, held, tick, outs)
}

fn tell_provisionals(
    alloc: Global,
    held: &HeldRequest,
    tick: Tick,
    outs: &mut Vec<CallOut>,
) -> Result<(), AllocError>
    ensures { OnOk result (outs.new.items ≡ outs.old.items
        ++ spec.provisionals_told tick held.now) }
{
    match tick {
        Tick::Nothing => Ok(()),
        Tick::Again(numbers) => retransmit_provisionals(alloc, held, numbers.as_slice(), outs),
        Tick::GivenUp => {
            outs.push(CallOut::Notice(no_prack(held)?))?;
            Ok(())
        }
    }
}

// Sends the responses with these numbers again.
fn retransmit_provisionals(
    alloc: Global,
    held: &HeldRequest,
    numbers: &[u32],
    outs: &mut Vec<CallOut>,
) -> Result<(), AllocError>
    ensures { OnOk result (outs.new.items ≡ outs.old.items
        ++ spec.sent_again numbers.now held.now) }
{
    for one in held.provisionals.as_slice() {
        if is_among(numbers, one.number) {
            let response = one.response.get().clone()?;
            outs.push(command_for(alloc, held.id, &held.key, response)?)?;
        }
    }
    Ok(())
}

fn is_among(numbers: &[u32], wanted: u32) -> bool
    ensures { result ≡ is_among numbers.now wanted }
{
    numbers.contains(&wanted)
}

fn no_prack(held: &HeldRequest) -> Result<Notice, AllocError>
    ensures { IfOk result (λ notice. notice
        ≡ notices.NoPrack held.now.request.call_id held.now.id) }
{
    Ok(Notice::NoPrack {
        call_id: held.request.get().call_id.clone()?,
        id: held.id,
    })
}

/// Removes the requests whose moment of removal has come.
pub(crate) fn remove_over(requests: &mut Vec<HeldRequest>, now: u64)
    ensures { requests.new.items ≡ filter (spec.is_kept_at now) requests.old.items }
{
    requests.retain(|held| is_kept(held, now));
}

// Whether a request isn't removed yet.
pub(crate) fn is_kept(held: &HeldRequest, now: u64) -> bool
    ensures { result ≡ spec.is_kept_at now held.now }
{
    match held.removal {
        Some(moment) => now < moment,
        None => true,
    }
}

/// The first moment, in ms, at which something of a request is due, if there is one.
pub(crate) fn next_due(requests: &[HeldRequest]) -> Option<u64>
    ensures { result ≡ spec.next_due_of requests.now }
{
    requests
        .iter()
        .fold(None, |due, held| earlier(due, request_due(held)))
}

/// The first moment, in ms, at which something of this request is due, if there is one.
pub(crate) fn request_due(held: &HeldRequest) -> Option<u64>
    ensures { result ≡ spec.request_due held.now }
{
    earlier(
        earlier(success_due(held), held.ledger.next_due()),
        held.removal,
    )
}

fn success_due(held: &HeldRequest) -> Option<u64>
    ensures { result ≡ option_and_then spec.success_moment held.now.success }
{
    let success = held.success.as_ref()?.get();
    if success.over.is_some() {
        return None;
    }
    Some(success.end.min(success.retransmission.due))
}
