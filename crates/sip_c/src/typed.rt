//! An output as fields: numbers, and texts one after another.

ghost use Rattle.std.specs.Prelude.{◌≡◌, IfOk};
ghost use Rattle.sip_user.specs.OwnCall.{call_of_notice};
ghost use Rattle.sip_c.specs.Typed as spec;

use crate::values::{Address, EventId, address_of, id_of};
use sip_message::{CallId, HeaderName, Id, ReadFault};
use sip_round::{Output, PlacedOutput};
use sip_transactions::DropReason;
use sip_user::Notice;
use std::alloc::{AllocError, Global};

/// An output: what `Told` says, and the fields that an output of its kind has; all others are zero.
/// The lengths are those of its texts in bytes, in the order in which the texts stand, one after
/// another.
#[repr(C)]
#[derive(Clone, Copy)]
pub struct TypedOutput {
    pub kind: u32,
    pub to: Address,
    pub place: u32,
    pub index: usize,
    pub id: EventId,
    pub status: u32,
    pub rseq: u32,
    pub command: u32,
    pub refusal: u32,
    pub reason: u32,
    pub header: u32,
    pub call_id_len: usize,
    pub local_tag_len: usize,
    pub remote_tag_len: usize,
    pub method_len: usize,
    pub body_len: usize,
}

/// No output.
pub(crate) fn nothing_typed() -> TypedOutput
    ensures { result ≡ spec.nothing_typed }
{
    TypedOutput {
        kind: 0,
        to: address_of(None),
        place: 0,
        index: 0,
        id: id_of(None),
        status: 0,
        rseq: 0,
        command: 0,
        refusal: 0,
        reason: 0,
        header: 0,
        call_id_len: 0,
        local_tag_len: 0,
        remote_tag_len: 0,
        method_len: 0,
        body_len: 0,
    }
}

/// The output with this index.
pub(crate) fn typed_of(index: usize, placed: &PlacedOutput) -> TypedOutput
    ensures { result ≡ spec.typed_of index placed.now }
{
    let mut typed = fields_of(&placed.output);
    typed.kind = kind_of_output(&placed.output);
    typed.to = match &placed.output {
        Output::Send { to, .. } => address_of(Some(*to)),
        Output::Dropped { .. } | Output::Notice(_) => address_of(None),
    };
    typed.place = placed.place;
    typed.index = index;
    typed
}

/// Its texts, one after another.
pub(crate) fn texts_of(alloc: Global, output: &Output) -> Result<Vec<u8>, AllocError>
    ensures { IfOk result (λ texts. texts.items ≡ spec.texts_of output.now) }
{
    match output {
        Output::Send { bytes, .. } => Vec::from_slice(alloc, bytes.as_slice()),
        Output::Dropped { .. } => Ok(Vec::new(alloc)),
        Output::Notice(notice) => {
            let mut texts = Vec::from_slice(alloc, call_id_of(notice).as_slice())?;
            texts.extend_from_slice(local_tag_of(notice))?;
            texts.extend_from_slice(remote_tag_of(notice))?;
            texts.extend_from_slice(method_of(notice))?;
            texts.extend_from_slice(body_of(notice))?;
            Ok(texts)
        }
    }
}

fn fields_of(output: &Output) -> TypedOutput
    ensures { result ≡ spec.fields_of output.now }
{
    let mut fields = nothing_typed();
    match output {
        Output::Send { bytes, .. } => {
            fields.body_len = bytes.len();
        }
        Output::Dropped { reason, .. } => {
            fields.reason = number_of_reason(*reason);
            fields.header = header_of_reason(*reason);
        }
        Output::Notice(notice) => {
            fields.id = id_of(id_of_notice(notice));
            fields.status = status_of_notice(notice);
            fields.rseq = rseq_of_notice(notice);
            fields.command = command_of_notice(notice);
            fields.refusal = refusal_of_notice(notice);
            fields.call_id_len = call_id_of(notice).as_slice().len();
            fields.local_tag_len = local_tag_of(notice).len();
            fields.remote_tag_len = remote_tag_of(notice).len();
            fields.method_len = method_of(notice).len();
            fields.body_len = body_of(notice).len();
        }
    }
    fields
}

fn kind_of_output(output: &Output) -> u32
    ensures { result ≡ spec.kind_of_output output.now }
{
    match output {
        Output::Send { .. } => 1,
        Output::Dropped { .. } => 3,
        Output::Notice(notice) => kind_of_notice(notice),
    }
}

fn kind_of_notice(notice: &Notice) -> u32
    ensures { result ≡ spec.kind_of_notice notice.now }
{
    match notice {
        Notice::Request { .. } => 4,
        Notice::Response { .. } => 5,
        Notice::Ack { .. } => 6,
        Notice::Prack { .. } => 7,
        Notice::Timeout { .. } => 8,
        Notice::Failed { .. } => 9,
        Notice::NoAck { .. } => 10,
        Notice::NoPrack { .. } => 11,
        Notice::Cancel { .. } => 12,
        Notice::Ended { .. } => 13,
        Notice::Refused { .. } => 14,
    }
}

fn id_of_notice(notice: &Notice) -> Option<Id>
    ensures { result ≡ spec.id_of_notice notice.now }
{
    match notice {
        Notice::Request { id, .. }
        | Notice::Response { id, .. }
        | Notice::Ack { id, .. }
        | Notice::Prack { id, .. }
        | Notice::Timeout { id, .. }
        | Notice::Failed { id, .. }
        | Notice::NoAck { id, .. }
        | Notice::NoPrack { id, .. }
        | Notice::Cancel { id, .. } => Some(*id),
        Notice::Ended { .. } | Notice::Refused { .. } => None,
    }
}

fn status_of_notice(notice: &Notice) -> u32
    ensures { result ≡ spec.status_of_notice notice.now }
{
    match notice {
        Notice::Response { status, .. } => u32::from(status.code()),
        _ => 0,
    }
}

fn rseq_of_notice(notice: &Notice) -> u32
    ensures { result ≡ spec.rseq_of_notice notice.now }
{
    match notice {
        Notice::Prack { rseq, .. } => *rseq,
        _ => 0,
    }
}

fn command_of_notice(notice: &Notice) -> u32
    ensures { result ≡ spec.command_of_notice notice.now }
{
    match notice {
        Notice::Refused { place, .. } => *place,
        _ => 0,
    }
}

fn refusal_of_notice(notice: &Notice) -> u32
    ensures { result ≡ spec.refusal_of_notice notice.now }
{
    match notice {
        Notice::Refused { refusal, .. } => u32::from(refusal.number()),
        _ => 0,
    }
}

fn call_id_of(notice: &Notice) -> &CallId
    ensures { result.now ≡ call_of_notice notice.now }
{
    match notice {
        Notice::Request { call_id, .. }
        | Notice::Response { call_id, .. }
        | Notice::Ack { call_id, .. }
        | Notice::Prack { call_id, .. }
        | Notice::Timeout { call_id, .. }
        | Notice::Failed { call_id, .. }
        | Notice::NoAck { call_id, .. }
        | Notice::NoPrack { call_id, .. }
        | Notice::Cancel { call_id, .. }
        | Notice::Ended { call_id, .. }
        | Notice::Refused { call_id, .. } => call_id,
    }
}

fn local_tag_of(notice: &Notice) -> &[u8]
    ensures { result.now ≡ spec.local_tag_of notice.now }
{
    match notice {
        Notice::Request { local_tag, .. }
        | Notice::Response { local_tag, .. }
        | Notice::Ended { local_tag, .. } => local_tag.as_slice(),
        _ => &[],
    }
}

fn remote_tag_of(notice: &Notice) -> &[u8]
    ensures { result.now ≡ spec.remote_tag_of notice.now }
{
    match notice {
        Notice::Request { remote_tag, .. }
        | Notice::Response { remote_tag, .. }
        | Notice::Ended { remote_tag, .. } => remote_tag.as_slice(),
        _ => &[],
    }
}

fn method_of(notice: &Notice) -> &[u8]
    ensures { result.now ≡ spec.method_of notice.now }
{
    match notice {
        Notice::Request { method, .. } => method.as_slice(),
        _ => &[],
    }
}

fn body_of(notice: &Notice) -> &[u8]
    ensures { result.now ≡ spec.body_of notice.now }
{
    match notice {
        Notice::Request { body, .. }
        | Notice::Response { body, .. }
        | Notice::Ack { body, .. }
        | Notice::Prack { body, .. } => body.as_slice(),
        _ => &[],
    }
}

fn number_of_reason(reason: DropReason) -> u32
    ensures { result ≡ spec.number_of_reason reason }
{
    match reason {
        DropReason::NotOurs => 1,
        DropReason::NoTransaction => 2,
        DropReason::Unreadable(fault) => number_of_fault(fault),
    }
}

fn header_of_reason(reason: DropReason) -> u32
    ensures { result ≡ spec.header_of_reason reason }
{
    match reason {
        DropReason::Unreadable(fault) => header_of_fault(fault),
        DropReason::NotOurs | DropReason::NoTransaction => 0,
    }
}

fn number_of_fault(fault: ReadFault) -> u32
    ensures { result ≡ spec.number_of_fault fault }
{
    match fault {
        ReadFault::TooLong => 3,
        ReadFault::NoEmptyLine => 4,
        ReadFault::BadStartLine => 5,
        ReadFault::BadHeader => 6,
        ReadFault::Missing(_) => 7,
        ReadFault::Repeated(_) => 8,
        ReadFault::BadNumber => 9,
        ReadFault::OldBranch => 10,
        ReadFault::MethodMismatch => 11,
        ReadFault::Truncated => 12,
        ReadFault::NoMemory => 13,
    }
}

fn header_of_fault(fault: ReadFault) -> u32
    ensures { result ≡ spec.header_of_fault fault }
{
    match fault {
        ReadFault::Missing(header) | ReadFault::Repeated(header) => number_of_header(header),
        _ => 0,
    }
}

fn number_of_header(header: HeaderName) -> u32
    ensures { result ≡ spec.number_of_header header }
{
    match header {
        HeaderName::Via => 1,
        HeaderName::From => 2,
        HeaderName::To => 3,
        HeaderName::CallId => 4,
        HeaderName::CSeq => 5,
        HeaderName::MaxForwards => 6,
        HeaderName::ContentLength => 7,
        HeaderName::RSeq => 8,
        HeaderName::RAck => 9,
        HeaderName::Contact => 10,
        HeaderName::RecordRoute => 11,
        HeaderName::Route => 12,
        HeaderName::Require => 13,
        HeaderName::Supported => 14,
    }
}
