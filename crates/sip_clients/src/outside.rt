//! The requests that are sent outside of dialogs (RFC 3261, sections 8.1.1 and 13.2.1).

ghost use Rattle.std.specs.Prelude.{◌≡◌, ◌∷◌, [], IfOk, codes};
ghost use Rattle.sip_clients.specs.Outside as spec;

use crate::event::Event;
use sip_dialog::{own_contact, own_via};
use sip_message::{
    Addr, CSeq, CallId, MAX_FORWARDS, Message, Party, RequestUri, StartLine, Token, Uri,
};
use sip_text::Series;
use sip_user::{Invite, Plain, ProvisionalSupport};
use std::alloc::{AllocError, Global};

/// The CSeq number of a request outside of dialogs.
const FIRST_CSEQ: u32 = 1;

/// The INVITE that the user asks for.
pub(crate) fn invite_of(alloc: Global, event: Event, invite: &Invite) -> Result<Message, AllocError>
    ensures { IfOk result (λ made. made ≡ spec.invite_of event invite.now) }
{
    let mut message = bare_invite(alloc, event, invite)?;
    message.routes = invite.routes.clone()?;
    message.with_content(alloc, invite.content.clone()?)
}

/// The request that the user asks for outside of dialogs.
pub(crate) fn plain_of(alloc: Global, event: Event, plain: &Plain) -> Result<Message, AllocError>
    ensures { IfOk result (λ made. made ≡ spec.plain_of event plain.now) }
{
    let mut message = bare_plain(alloc, event, plain)?;
    message.routes = plain.routes.clone()?;
    message.with_content(alloc, plain.content.clone()?)
}

#[tactic(auto, unfolding(sip_text::specs::Token::is_token, sip_text::specs::Token::is_token_byte))]
fn bare_invite(alloc: Global, event: Event, invite: &Invite) -> Result<Message, AllocError>
    ensures { IfOk result (λ made. made ≡ spec.bare_invite event invite.now) }
{
    let method = Token::copy_of(alloc, b"INVITE")?;
    let call_id = invite.call_id.clone()?;
    let uri = invite.request_uri.clone()?;
    let from = invite.from.clone()?;
    let to = invite.to.clone()?;
    let message = bare_request(alloc, event, call_id, method, uri, from, to)?;
    calling(alloc, event.local, invite.support, message)
}

fn bare_plain(alloc: Global, event: Event, plain: &Plain) -> Result<Message, AllocError>
    ensures { IfOk result (λ made. made ≡ spec.bare_plain event plain.now) }
{
    let method = plain.method.clone()?;
    let call_id = plain.call_id.clone()?;
    let uri = plain.request_uri.clone()?;
    let from = plain.from.clone()?;
    let to = plain.to.clone()?;
    bare_request(alloc, event, call_id, method, uri, from, to)
}

// Adds to an INVITE the Contact, and the use of reliable provisional responses that the user asks
// for.
fn calling(
    alloc: Global,
    local: Addr,
    support: ProvisionalSupport,
    mut message: Message,
) -> Result<Message, AllocError>
    ensures { IfOk result (λ made. made
        ≡ spec.supporting support (spec.with_contact local message)) }
{
    let mut contacts = Series::new(alloc);
    contacts.push(own_contact(alloc, local)?)?;
    message.contacts = contacts;
    support_in(alloc, support, message)
}

fn support_in(
    alloc: Global,
    support: ProvisionalSupport,
    mut message: Message,
) -> Result<Message, AllocError>
    ensures { IfOk result (λ made. made ≡ spec.supporting support message) }
{
    match support {
        ProvisionalSupport::None => {}
        ProvisionalSupport::Supported => message.supported = only_100rel(alloc)?,
        ProvisionalSupport::Required => message.require = only_100rel(alloc)?,
    }
    Ok(message)
}

#[tactic(auto, unfolding(sip_text::specs::Token::is_token, sip_text::specs::Token::is_token_byte))]
fn only_100rel(alloc: Global) -> Result<Series<Token>, AllocError>
    ensures { IfOk result (λ options. options ≡ codes "100rel" ∷ []) }
{
    let mut options = Series::new(alloc);
    options.push(Token::copy_of(alloc, b"100rel")?)?;
    Ok(options)
}

// The request of a method from one URI to another, without its routes and its content.
#[tactic(auto, unfolding(crate::specs::Outside::bare_request))]
fn bare_request(
    alloc: Global,
    event: Event,
    call_id: CallId,
    method: Token,
    uri: Uri,
    from: Uri,
    to: Uri,
) -> Result<Message, AllocError>
    ensures { IfOk result (λ made. made ≡ spec.bare_request event call_id method uri from to) }
{
    let vias = own_via(alloc, event.local, event.branch(alloc)?)?;
    let from = Party::new(alloc, from, Some(event.from_tag(alloc)?))?;
    let to = Party::new(alloc, to, None)?;
    let start = StartLine::Request {
        uri: RequestUri::from_uri(uri),
    };
    let cseq = CSeq {
        number: FIRST_CSEQ,
        method,
    };
    let mut made = Message::bare(alloc, start, vias, from, to, call_id, cseq);
    made.max_forwards = Some(MAX_FORWARDS);
    Ok(made)
}
