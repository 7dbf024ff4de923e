//! The keys by which held requests are found.

ghost use Rattle.std.specs.Prelude.{◌≡◌, IfOk};
ghost use Rattle.sip_served.specs.Steps.Keys as keys;

use crate::held_request::HeldRequest;
use sip_grammar::LowerText;
use sip_held_dialogs::request::is_invite;
use sip_message::{Id, Key, Message};
use sip_text::Text;
use std::alloc::{AllocError, Global};

/// Two texts and a number, by which a request is found.
pub(crate) type TextKey = (Text, Text, u32);

/// What the PRACK of a response to an INVITE has: the event that made its dialog, and the number of
/// the CSeq in its RAck (RFC 3262, section 7.2).
pub(crate) type PrackKey = (Id, u32);

/// What the same request has that came by another path: the From tag, in lower case, the method,
/// and the number of its CSeq (RFC 3261, section 8.2.2.2).
pub(crate) fn merge_key(alloc: Global, request: &Message) -> Result<TextKey, AllocError>
    ensures { IfOk result (λ key. key ≡ keys.merge_key request.now) }
{
    Ok((
        LowerText::of(alloc, request.from.tag())?.into_text(),
        Text::copy_of(alloc, request.cseq.method.as_slice())?,
        request.cseq.number,
    ))
}

/// What the ACK of an INVITE has: the tags, in lower case, and the number of its CSeq (RFC 3261,
/// section 13.2.2.4).
pub(crate) fn ack_key(
    alloc: Global,
    local: &[u8],
    remote: &[u8],
    number: u32,
) -> Result<TextKey, AllocError>
    ensures { IfOk result (λ key. key ≡ keys.ack_key local.now remote.now number) }
{
    Ok((
        LowerText::of(alloc, local)?.into_text(),
        LowerText::of(alloc, remote)?.into_text(),
        number,
    ))
}

/// The key of the ACK of a held request, if that is an INVITE.
pub(crate) fn ack_of(alloc: Global, held: &HeldRequest) -> Result<Option<TextKey>, AllocError>
    ensures { IfOk result (λ key. key ≡ keys.ack_of held.now) }
{
    let request = held.request.get();
    if !is_invite(request) {
        return Ok(None);
    }
    let key = ack_key(
        alloc,
        held.tag.as_slice(),
        request.from.tag(),
        request.cseq.number,
    )?;
    Ok(Some(key))
}

/// The key of a PRACK for a held request, if that is in a dialog.
pub(crate) fn prack_of(held: &HeldRequest) -> Option<PrackKey>
    ensures { result ≡ keys.prack_of held.now }
{
    let dialog = held.dialog.as_ref()?;
    Some((dialog.created_by, held.request.get().cseq.number))
}

/// What the CANCEL of a request has: its branch, and the host and the port of its sent-by (RFC
/// 3261, section 9.2). Only the key of a server transaction has them.
pub(crate) fn branch_key(alloc: Global, key: &Key) -> Result<Option<TextKey>, AllocError>
    ensures { IfOk result (λ branch. branch ≡ keys.branch_key key.now) }
{
    match key {
        Key::Server {
            branch,
            sent_by,
            ..
        } => Ok(Some((
            Text::copy_of(alloc, branch.as_slice())?,
            Text::copy_of(alloc, sent_by.host.as_slice())?,
            u32::from(sent_by.port),
        ))),
        Key::Client { .. } => Ok(None),
    }
}
