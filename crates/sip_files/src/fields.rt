//! The fields of the lines of an event file. Reading a field also gives the text of the fields
//! after it.

ghost use Rattle.std.specs.Prelude.{◌≡◌, IfOk};
ghost use Rattle.sip_text.specs.Number.{number_at};
ghost use Rattle.sip_text.specs.Cut.{field_at};
ghost use Rattle.sip_files.specs.Steps.Reading.{address_at, id_at, read_now, word_at};
ghost use Rattle.sip_files.specs.Steps.ReadLine as reading;

use crate::numbers::{read_address, read_id};
use crate::words::{read_rest, read_word};
use sip_message::{Addr, CallId, Id, Reason, Token, Uri};
use sip_text::{Text, cut, number_up_to};
use sip_user::{ProvisionalSupport, Reliability};
use std::alloc::{AllocError, Global};

/// The highest status of a line.
const MAX_STATUS: u64 = 999;

/// The URIs of a request outside of dialogs.
pub struct Uris {
    pub request_uri: Uri,
    pub from: Uri,
    pub to: Uri,
}

/// The parts that name a dialog. An absent tag is the empty tag.
pub struct Dialog {
    pub call_id: CallId,
    pub local_tag: Option<Token>,
    pub remote_tag: Option<Token>,
}

impl Uris {
    pub(crate) fn apart(self) -> (Uri, Uri, Uri)
        ensures { result ≡ (self.request_uri, self.from, self.to) }
    {
        let Uris {
            request_uri,
            from,
            to,
        } = self;
        (request_uri, from, to)
    }
}

impl Drop for Uris {
    fn drop(self) {
        let Uris {
            request_uri: _,
            from: _,
            to: _,
        } = self;
    }
}

impl Dialog {
    pub(crate) fn apart(self) -> (CallId, Option<Token>, Option<Token>)
        ensures { result ≡ (self.call_id, self.local_tag, self.remote_tag) }
    {
        let Dialog {
            call_id,
            local_tag,
            remote_tag,
        } = self;
        (call_id, local_tag, remote_tag)
    }
}

impl Drop for Dialog {
    fn drop(self) {
        let Dialog {
            call_id: _,
            local_tag: _,
            remote_tag: _,
        } = self;
    }
}

/// A call, and the address to which its first request goes.
pub(crate) fn address_of_call(
    alloc: Global,
    fields: &[u8],
) -> Result<Option<((CallId, Addr), &[u8])>, AllocError>
    ensures { IfOk result (λ read. read_now read ≡ reading.address_of_call_at fields.now) }
{
    let Some((call_id, fields)) = call_id_field(alloc, fields)? else {
        return Ok(None);
    };
    let Some((address, fields)) = address_field(fields) else {
        return Ok(None);
    };
    Ok(Some(((call_id, address), fields)))
}

#[tactic(auto, unfolding(crate::specs::Steps::ReadLine::uris_at))]
pub(crate) fn uri_fields(alloc: Global, fields: &[u8]) -> Result<Option<(Uris, &[u8])>, AllocError>
    ensures { IfOk result (λ read. read_now read ≡ reading.uris_at fields.now) }
{
    let Some((request_uri, fields)) = uri_field(alloc, fields)? else {
        return Ok(None);
    };
    let Some((from, fields)) = uri_field(alloc, fields)? else {
        return Ok(None);
    };
    let Some((to, fields)) = uri_field(alloc, fields)? else {
        return Ok(None);
    };
    let uris = Uris {
        request_uri,
        from,
        to,
    };
    Ok(Some((uris, fields)))
}

#[tactic(auto, unfolding(crate::specs::Steps::ReadLine::dialog_at))]
pub(crate) fn dialog_fields(
    alloc: Global,
    fields: &[u8],
) -> Result<Option<(Dialog, &[u8])>, AllocError>
    ensures { IfOk result (λ read. read_now read ≡ reading.dialog_at fields.now) }
{
    let Some((call_id, fields)) = call_id_field(alloc, fields)? else {
        return Ok(None);
    };
    let Some((local_tag, fields)) = tag_field(alloc, fields)? else {
        return Ok(None);
    };
    let Some((remote_tag, fields)) = tag_field(alloc, fields)? else {
        return Ok(None);
    };
    let dialog = Dialog {
        call_id,
        local_tag,
        remote_tag,
    };
    Ok(Some((dialog, fields)))
}

pub(crate) fn call_id_field(
    alloc: Global,
    fields: &[u8],
) -> Result<Option<(CallId, &[u8])>, AllocError>
    ensures { IfOk result (λ read. read_now read ≡ field_at 32 reading.call_id_at fields.now) }
{
    let Some((call_id, fields)) = cut(b' ', fields) else {
        return Ok(None);
    };
    let Some(call_id) = read_call_id(alloc, call_id)? else {
        return Ok(None);
    };
    Ok(Some((call_id, fields)))
}

pub(crate) fn word_field(alloc: Global, fields: &[u8]) -> Result<Option<(Text, &[u8])>, AllocError>
    ensures { IfOk result (λ read. read_now read ≡ field_at 32 word_at fields.now) }
{
    let Some((word, fields)) = cut(b' ', fields) else {
        return Ok(None);
    };
    let Some(word) = read_word(alloc, word)? else {
        return Ok(None);
    };
    Ok(Some((word, fields)))
}

pub(crate) fn id_field(fields: &[u8]) -> Option<(Id, &[u8])>
    ensures { read_now result ≡ field_at 32 id_at fields.now }
{
    let (id, fields) = cut(b' ', fields)?;
    Some((read_id(id)?, fields))
}

pub(crate) fn status_field(fields: &[u8]) -> Option<(u16, &[u8])>
    ensures { read_now result ≡ field_at 32 (number_at 999) fields.now }
{
    let (status, fields) = cut(b' ', fields)?;
    Some((number_up_to(status, MAX_STATUS)? as u16, fields))
}

pub(crate) fn port_field(fields: &[u8]) -> Option<(u16, &[u8])>
    ensures { read_now result ≡ field_at 32 (number_at 65535) fields.now }
{
    let (port, fields) = cut(b' ', fields)?;
    Some((number_up_to(port, u64::from(u16::MAX))? as u16, fields))
}

pub(crate) fn reliability_field(fields: &[u8]) -> Option<(Reliability, &[u8])>
    ensures { read_now result ≡ field_at 32 reading.reliability_at fields.now }
{
    let (reliability, fields) = cut(b' ', fields)?;
    Some((read_reliability(reliability)?, fields))
}

#[tactic(auto, unfolding(crate::specs::Steps::ReadLine::call_id_at))]
fn read_call_id(alloc: Global, field: &[u8]) -> Result<Option<CallId>, AllocError>
    ensures { IfOk result (λ call_id. call_id ≡ reading.call_id_at field.now) }
{
    let Some(text) = read_word(alloc, field)? else {
        return Ok(None);
    };
    Ok(CallId::new(text))
}

#[tactic(auto, unfolding(crate::specs::Steps::ReadLine::reason_at))]
pub(crate) fn read_reason(alloc: Global, field: &[u8]) -> Result<Option<Reason>, AllocError>
    ensures { IfOk result (λ reason. reason ≡ reading.reason_at field.now) }
{
    let Some(text) = read_rest(alloc, field)? else {
        return Ok(None);
    };
    Ok(Reason::new(text))
}

#[tactic(auto, unfolding(crate::specs::Steps::ReadLine::reliability_at))]
fn read_reliability(field: &[u8]) -> Option<Reliability>
    ensures { result ≡ reading.reliability_at field.now }
{
    if field == b"plain".as_slice() {
        return Some(Reliability::Plain);
    }
    if field == b"reliable".as_slice() {
        return Some(Reliability::Reliable);
    }
    None
}

fn address_field(fields: &[u8]) -> Option<(Addr, &[u8])>
    ensures { read_now result ≡ field_at 32 address_at fields.now }
{
    let (address, fields) = cut(b' ', fields)?;
    Some((read_address(address)?, fields))
}

fn uri_field(alloc: Global, fields: &[u8]) -> Result<Option<(Uri, &[u8])>, AllocError>
    ensures { IfOk result (λ read. read_now read ≡ field_at 32 reading.uri_at fields.now) }
{
    let Some((uri, fields)) = cut(b' ', fields) else {
        return Ok(None);
    };
    let Some(uri) = read_uri(alloc, uri)? else {
        return Ok(None);
    };
    Ok(Some((uri, fields)))
}

pub(crate) fn tag_field(
    alloc: Global,
    fields: &[u8],
) -> Result<Option<(Option<Token>, &[u8])>, AllocError>
    ensures { IfOk result (λ read. read_now read ≡ field_at 32 reading.tag_at fields.now) }
{
    let Some((tag, fields)) = cut(b' ', fields) else {
        return Ok(None);
    };
    let Some(tag) = read_tag(alloc, tag)? else {
        return Ok(None);
    };
    Ok(Some((tag, fields)))
}

pub(crate) fn method_field(
    alloc: Global,
    fields: &[u8],
) -> Result<Option<(Token, &[u8])>, AllocError>
    ensures { IfOk result (λ read. read_now read ≡ field_at 32 reading.method_at fields.now) }
{
    let Some((method, fields)) = cut(b' ', fields) else {
        return Ok(None);
    };
    let Some(method) = read_method(alloc, method)? else {
        return Ok(None);
    };
    Ok(Some((method, fields)))
}

pub(crate) fn support_field(fields: &[u8]) -> Option<(ProvisionalSupport, &[u8])>
    ensures { read_now result ≡ field_at 32 reading.support_at fields.now }
{
    let (support, fields) = cut(b' ', fields)?;
    Some((read_support(support)?, fields))
}

#[tactic(auto, unfolding(crate::specs::Steps::ReadLine::uri_at))]
fn read_uri(alloc: Global, field: &[u8]) -> Result<Option<Uri>, AllocError>
    ensures { IfOk result (λ uri. uri ≡ reading.uri_at field.now) }
{
    let Some(text) = read_word(alloc, field)? else {
        return Ok(None);
    };
    Ok(Uri::new(text))
}

// A method stands for itself.
#[tactic(auto, unfolding(crate::specs::Steps::ReadLine::method_at))]
pub(crate) fn read_method(alloc: Global, field: &[u8]) -> Result<Option<Token>, AllocError>
    ensures { IfOk result (λ method. method ≡ reading.method_at field.now) }
{
    Ok(Token::new(Text::copy_of(alloc, field)?))
}

// A token, or nothing for the empty tag.
#[tactic(auto, unfolding(crate::specs::Steps::ReadLine::tag_at))]
pub(crate) fn read_tag(alloc: Global, field: &[u8]) -> Result<Option<Option<Token>>, AllocError>
    ensures { IfOk result (λ tag. tag ≡ reading.tag_at field.now) }
{
    let Some(text) = read_word(alloc, field)? else {
        return Ok(None);
    };
    if text.is_empty() {
        return Ok(Some(None));
    }
    Ok(Token::new(text).map(Some))
}

#[tactic(auto, unfolding(crate::specs::Steps::ReadLine::support_at))]
fn read_support(field: &[u8]) -> Option<ProvisionalSupport>
    ensures { result ≡ reading.support_at field.now }
{
    if field == b"none".as_slice() {
        return Some(ProvisionalSupport::None);
    }
    if field == b"supported".as_slice() {
        return Some(ProvisionalSupport::Supported);
    }
    if field == b"required".as_slice() {
        return Some(ProvisionalSupport::Required);
    }
    None
}
