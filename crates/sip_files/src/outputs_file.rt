//! Output files, version 1: for each round its moment and its outputs.

ghost use Rattle.std.specs.Prelude.{◌≡◌, ◌++◌, IfOk, OnOk, codes};
ghost use Rattle.std.specs.List.{flat_map};
ghost use Rattle.sip_message.specs.Fault.{fault_text};
ghost use Rattle.sip_user.specs.declared.notice.Notice.TheVariants as notice;
ghost use Rattle.sip_files.specs.Field as field;
ghost use Rattle.sip_files.specs.Outputs as written;

use crate::field_writer::{
    push_address, push_id, push_number, push_plain, push_rest_field, push_text,
};
use sip_message::{Addr, CallId, Id, ReadFault, StatusCode, Token};
use sip_round::Output;
use sip_text::Text;
use sip_transactions::DropReason;
use sip_user::{Notice, Refusal};
use std::alloc::{AllocError, Global};

/// The output file for the outputs of rounds, each with its round's moment.
#[tactic(auto, unfolding(crate::specs::Outputs::outputs_text))]
pub fn write_outputs(alloc: Global, rounds: &[(u64, Vec<Output>)]) -> Result<Vec<u8>, AllocError>
    ensures { IfOk result (λ file. file.items ≡ written.outputs_text (written.told rounds.now)) }
{
    let mut file = Vec::new(alloc);
    file.extend_from_slice(b"sip-outputs 1\n")?;
    push_rounds(&mut file, rounds)?;
    Ok(file)
}

/// The line of one output in an output file, with its end.
pub fn write_output(alloc: Global, output: &Output) -> Result<Vec<u8>, AllocError>
    ensures { IfOk result (λ line. line.items ≡ written.output_line output.now) }
{
    let mut line = Vec::new(alloc);
    push_line(&mut line, output)?;
    Ok(line)
}

fn push_rounds(file: &mut Vec<u8>, rounds: &[(u64, Vec<Output>)]) -> Result<(), AllocError>
    ensures { OnOk result (file.new.items ≡ file.old.items
        ++ written.rounds_text (written.told rounds.now)) }
{
    for (moment, outputs) in rounds {
        push_round(file, *moment, outputs.as_slice())?;
    }
    Ok(())
}

#[tactic(auto, unfolding(crate::specs::Outputs::round_outputs_text))]
fn push_round(file: &mut Vec<u8>, moment: u64, outputs: &[Output]) -> Result<(), AllocError>
    ensures { OnOk result (file.new.items ≡ file.old.items
        ++ written.round_outputs_text moment outputs.now) }
{
    file.extend_from_slice(b"round")?;
    push_number(file, moment)?;
    file.push(b'\n')?;
    push_lines(file, outputs)
}

fn push_lines(file: &mut Vec<u8>, outputs: &[Output]) -> Result<(), AllocError>
    ensures { OnOk result (file.new.items ≡ file.old.items
        ++ flat_map written.output_line outputs.now) }
{
    for output in outputs {
        push_line(file, output)?;
    }
    Ok(())
}

#[tactic(auto, unfolding(crate::specs::Outputs::output_line))]
fn push_line(file: &mut Vec<u8>, output: &Output) -> Result<(), AllocError>
    ensures { OnOk result (file.new.items ≡ file.old.items ++ written.output_line output.now) }
{
    push_output(file, output)?;
    file.push(b'\n')?;
    Ok(())
}

fn push_output(file: &mut Vec<u8>, output: &Output) -> Result<(), AllocError>
    ensures { OnOk result (file.new.items ≡ file.old.items ++ written.output_text output.now) }
{
    match output {
        Output::Dropped { place, reason } => push_drop(file, *place, *reason),
        Output::Send { to, bytes, .. } => push_send(file, *to, bytes.as_slice()),
        Output::Notice(notice) => push_notice(file, notice),
    }
}

fn push_drop(file: &mut Vec<u8>, place: u32, reason: DropReason) -> Result<(), AllocError>
    ensures { OnOk result (file.new.items ≡ file.old.items
        ++ (codes "drop" ++ field.number_field place ++ written.reason_text reason)) }
{
    file.extend_from_slice(b"drop")?;
    push_number(file, u64::from(place))?;
    push_reason(file, reason)
}

fn push_reason(file: &mut Vec<u8>, reason: DropReason) -> Result<(), AllocError>
    ensures { OnOk result (file.new.items ≡ file.old.items ++ written.reason_text reason) }
{
    match reason {
        DropReason::Unreadable(fault) => push_fault(file, fault),
        DropReason::NotOurs => push_plain(file, b"NotOurs"),
        DropReason::NoTransaction => push_plain(file, b"NoTransaction"),
    }
}

// The name of the fault. For two faults the name of the header follows.
#[tactic(auto, unfolding(crate::specs::Field::plain_field))]
fn push_fault(file: &mut Vec<u8>, fault: ReadFault) -> Result<(), AllocError>
    ensures { OnOk result (file.new.items ≡ file.old.items
        ++ field.plain_field (fault_text fault)) }
{
    push_plain(file, fault.as_str().as_bytes())?;
    match fault {
        ReadFault::Missing(header) | ReadFault::Repeated(header) => {
            push_plain(file, header.as_str().as_bytes())
        }
        _ => Ok(()),
    }
}

fn push_send(file: &mut Vec<u8>, to: Addr, bytes: &[u8]) -> Result<(), AllocError>
    ensures { OnOk result (file.new.items ≡ file.old.items
        ++ (codes "send" ++ field.address_field to ++ field.rest_field bytes.now)) }
{
    file.extend_from_slice(b"send")?;
    push_address(file, to)?;
    push_rest_field(file, bytes)
}

fn push_notice(file: &mut Vec<u8>, notice: &Notice) -> Result<(), AllocError>
    ensures { OnOk result (file.new.items ≡ file.old.items ++ written.notice_text notice.now) }
{
    match notice {
        Notice::Request {
            call_id,
            id,
            method,
            local_tag,
            remote_tag,
            body,
        } => push_request(file, call_id, *id, method, local_tag, remote_tag, body),
        Notice::Response {
            call_id,
            id,
            status,
            local_tag,
            remote_tag,
            body,
        } => push_response(file, call_id, *id, *status, local_tag, remote_tag, body),
        Notice::Ack { call_id, id, body } => push_ack(file, call_id, *id, body),
        Notice::Prack {
            call_id,
            id,
            rseq,
            body,
        } => push_prack(file, call_id, *id, *rseq, body),
        Notice::Timeout { call_id, id } => push_head(file, call_id, b"timeout", *id),
        Notice::Failed { call_id, id } => push_head(file, call_id, b"failed", *id),
        Notice::NoAck { call_id, id } => push_head(file, call_id, b"noack", *id),
        Notice::NoPrack { call_id, id } => push_head(file, call_id, b"noprack", *id),
        Notice::Cancel { call_id, id } => push_head(file, call_id, b"cancel", *id),
        Notice::Ended {
            call_id,
            local_tag,
            remote_tag,
        } => push_ended(file, call_id, local_tag, remote_tag),
        Notice::Refused {
            call_id,
            place,
            refusal,
        } => push_refused(file, call_id, u64::from(*place), *refusal),
    }
}

fn push_request(
    file: &mut Vec<u8>,
    call_id: &CallId,
    id: Id,
    method: &Token,
    local_tag: &Text,
    remote_tag: &Text,
    body: &Text,
) -> Result<(), AllocError>
    ensures { OnOk result (file.new.items ≡ file.old.items ++ written.notice_text
        (notice.Request call_id.now id method.now local_tag.now remote_tag.now body.now)) }
{
    push_head(file, call_id, b"request", id)?;
    push_plain(file, method.as_slice())?;
    push_text(file, local_tag.as_slice())?;
    push_text(file, remote_tag.as_slice())?;
    push_text(file, body.as_slice())
}

fn push_response(
    file: &mut Vec<u8>,
    call_id: &CallId,
    id: Id,
    status: StatusCode,
    local_tag: &Text,
    remote_tag: &Text,
    body: &Text,
) -> Result<(), AllocError>
    ensures { OnOk result (file.new.items ≡ file.old.items ++ written.notice_text
        (notice.Response call_id.now id status local_tag.now remote_tag.now body.now)) }
{
    push_head(file, call_id, b"response", id)?;
    push_number(file, u64::from(status.code()))?;
    push_text(file, local_tag.as_slice())?;
    push_text(file, remote_tag.as_slice())?;
    push_text(file, body.as_slice())
}

fn push_ack(file: &mut Vec<u8>, call_id: &CallId, id: Id, body: &Text) -> Result<(), AllocError>
    ensures { OnOk result (file.new.items ≡ file.old.items
        ++ written.notice_text (notice.Ack call_id.now id body.now)) }
{
    push_head(file, call_id, b"ack", id)?;
    push_text(file, body.as_slice())
}

fn push_prack(
    file: &mut Vec<u8>,
    call_id: &CallId,
    id: Id,
    rseq: u32,
    body: &Text,
) -> Result<(), AllocError>
    ensures { OnOk result (file.new.items ≡ file.old.items
        ++ written.notice_text (notice.Prack call_id.now id rseq body.now)) }
{
    push_head(file, call_id, b"prack", id)?;
    push_number(file, u64::from(rseq))?;
    push_text(file, body.as_slice())
}

fn push_ended(
    file: &mut Vec<u8>,
    call_id: &CallId,
    local_tag: &Text,
    remote_tag: &Text,
) -> Result<(), AllocError>
    ensures { OnOk result (file.new.items ≡ file.old.items
        ++ written.notice_text (notice.Ended call_id.now local_tag.now remote_tag.now)) }
{
    push_form(file, call_id, b"ended")?;
    push_text(file, local_tag.as_slice())?;
    push_text(file, remote_tag.as_slice())
}

fn push_refused(
    file: &mut Vec<u8>,
    call_id: &CallId,
    place: u64,
    refusal: Refusal,
) -> Result<(), AllocError>
    ensures { OnOk result (file.new.items ≡ file.old.items
        ++ written.notice_text (notice.Refused call_id.now place refusal)) }
{
    push_form(file, call_id, b"refused")?;
    push_number(file, place)?;
    push_number(file, u64::from(refusal.number()))
}

// The call as a word, and the name of the notice's form.
#[tactic(auto, unfolding(crate::specs::Outputs::form_text))]
fn push_form(file: &mut Vec<u8>, call_id: &CallId, form: &[u8]) -> Result<(), AllocError>
    ensures { OnOk result (file.new.items ≡ file.old.items
        ++ written.form_text call_id.now form.now) }
{
    file.extend_from_slice(b"notice")?;
    push_text(file, call_id.as_slice())?;
    push_plain(file, form)
}

// The same, followed by an id.
#[tactic(auto, unfolding(crate::specs::Outputs::form_with_id))]
fn push_head(file: &mut Vec<u8>, call_id: &CallId, form: &[u8], id: Id) -> Result<(), AllocError>
    ensures { OnOk result (file.new.items ≡ file.old.items
        ++ written.form_with_id call_id.now form.now id) }
{
    push_form(file, call_id, form)?;
    push_id(file, id)
}
