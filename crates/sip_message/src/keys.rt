//! The keys of messages (RFC 3261, sections 17.1.3 and 17.2.3).
ghost use Rattle.std.specs.Prelude.{◌≡◌, IfOk, codes};
ghost use Rattle.sip_message.specs.MessageKey.{key_of_message, transaction_method};
ghost use Rattle.sip_message.specs.TopVia as top;

use crate::addr::{Addr, ip_text};
use crate::key::Key;
use crate::message::Message;
use crate::shared_key::SharedKey;
use crate::start_line::StartLine;
use crate::via::Via;
use sip_grammar::Token;
use std::alloc::{AllocError, Global};

/// The port of a Via that names none.
pub(crate) const DEFAULT_PORT: u16 = 5060;

/// The key of the transaction that the message belongs to.
#[tactic(auto, unfolding(crate::specs::MessageKey::key_of_message))]
pub fn key_of(alloc: Global, message: &Message) -> Result<SharedKey, AllocError>
    ensures { IfOk result (λ key. key ≡ key_of_message message.now) }
{
    let via = message.vias.top();
    match &message.start {
        StartLine::Request { .. } => {
            let method = transaction_method(alloc, &message.cseq.method)?;
            Key::server(
                alloc,
                via.branch(),
                via.host.as_slice(),
                port_of(via),
                method,
            )
        }
        StartLine::Response { .. } => {
            Key::client(alloc, via.branch(), message.cseq.method.clone()?)
        }
    }
}

#[tactic(auto, unfolding(crate::specs::MessageKey::transaction_method))]
fn transaction_method(alloc: Global, method: &Token) -> Result<Token, AllocError>
    ensures { IfOk result (λ token. token ≡ transaction_method method.now) }
{
    if method.as_slice() == b"ACK".as_slice() {
        invite(alloc)
    } else {
        method.clone()
    }
}

#[tactic(auto, unfolding(sip_text::specs::Token::is_token, sip_text::specs::Token::is_token_byte))]
fn invite(alloc: Global) -> Result<Token, AllocError>
    ensures { IfOk result (λ token. token ≡ codes "INVITE") }
{
    Token::copy_of(alloc, b"INVITE")
}

/// The port of a Via, 5060 if it names none.
pub(crate) fn port_of(via: &Via) -> u16
    ensures { result ≡ top.port_of via.now }
{
    via.port.unwrap_or(DEFAULT_PORT)
}

/// Whether the top Via of the message names this address. Takes no memory.
#[tactic(auto, unfolding(crate::specs::TopVia::is_sent_by_of))]
pub fn is_sent_by(message: &Message, local: Addr) -> bool
    ensures { result ≡ top.is_sent_by_of message.now local }
{
    is_via_of(message.vias.top(), local)
}

fn is_via_of(via: &Via, local: Addr) -> bool
    ensures { result ≡ top.is_via_of local via.now }
{
    let ip = ip_text(local.ip);
    via.host.as_slice() == ip.as_slice() && port_of(via) == local.port
}
