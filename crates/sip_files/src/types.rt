//! What the types of an event say of its parts: that they can be written. The contract of each
//! function is what is said, and a call does nothing.

ghost use Rattle.std.specs.Prelude.{◌≡◌, ◌≤◌, IsTrue};
ghost use Rattle.std.specs.List.{AllByRecursion};
ghost use Rattle.std.specs.Str.{str_to_ascii_lowercase};
ghost use Rattle.sip_message.specs.Addr.{IsAddr};
ghost use Rattle.sip_files.specs.Events.{IsCallIdWord, IsId, IsTag, IsUri};
ghost use Rattle.sip_files.specs.Word.{are_bytes};
ghost use Rattle.sip_files.specs.Written.{AreHeaders, FitsSession, HasStatus, IsAddressValue, IsEventOf, IsKey, IsKeptHeader, IsOptionTag, IsSessionCommand, by_header, headers_of};
ghost use Rattle.sip_files.specs.Unregister.{contacts_fit};

use sip_message::{Addr, CallId, Content, Header, Id, Key, NameAddr, SentBy, Token, Uri};
use sip_round::Event;
use sip_user::UserCommand;

/// An event that fits can be written in a session.
pub(crate) fn event_fits(event: &Event)
    ensures { FitsSession event.now → IsEventOf IsSessionCommand event.now }
{
    match event {
        Event::Datagram { from, bytes } => {
            addr_fits(*from);
            text_fits(bytes.as_slice());
        }
        Event::Failed(key) => key_fits(key.get()),
        Event::Command(command) => command_fits(command),
    }
}

#[tactic(auto, using(crate::proofs::LowerTexts::stays_lower))]
fn key_fits(key: &Key)
    ensures { IsKey key.now }
{
    match key {
        Key::Client { branch, method } => {
            text_fits(branch.as_slice());
            let _method = method.as_slice();
        }
        Key::Server {
            branch,
            sent_by,
            method,
        } => {
            text_fits(branch.as_slice());
            let _method = method.as_slice();
            sent_by_fits(sent_by);
        }
    }
}

#[tactic(auto, using(crate::proofs::LowerTexts::stays_lower))]
fn sent_by_fits(sent_by: &SentBy)
    ensures host { (str_to_ascii_lowercase sent_by.now.host ≡ sent_by.now.host)
        × IsTrue (are_bytes sent_by.now.host) }
    ensures port { sent_by.now.port ≤ 65535 }
{
    text_fits(sent_by.host.as_slice());
    let _port = sent_by.port;
}

fn command_fits(command: &UserCommand)
    ensures { HasStatus command.now → IsTrue (contacts_fit (headers_of command.now) command.now)
        → IsSessionCommand command.now }
{
    match command {
        UserCommand::Invite(invite) => {
            call_id_fits(&invite.call_id);
            addr_fits(invite.address);
            uri_fits(&invite.request_uri);
            uri_fits(&invite.from);
            uri_fits(&invite.to);
            content_fits(invite.routes.as_slice(), &invite.content);
        }
        UserCommand::Plain(plain) => {
            call_id_fits(&plain.call_id);
            addr_fits(plain.address);
            let _method = plain.method.as_slice();
            uri_fits(&plain.request_uri);
            uri_fits(&plain.from);
            uri_fits(&plain.to);
            content_fits(plain.routes.as_slice(), &plain.content);
        }
        UserCommand::Request(request) => {
            call_id_fits(&request.call_id);
            tag_fits(&request.local_tag);
            tag_fits(&request.remote_tag);
            let _method = request.method.as_slice();
            content_fits(&[], &request.content);
        }
        UserCommand::Respond(respond) => {
            call_id_fits(&respond.call_id);
            id_fits(respond.id);
            text_fits(respond.reason.as_slice());
            content_fits(&[], &respond.content);
        }
        UserCommand::Ack(given) | UserCommand::Prack(given) => {
            call_id_fits(&given.call_id);
            tag_fits(&given.local_tag);
            tag_fits(&given.remote_tag);
            content_fits(&[], &given.content);
        }
        UserCommand::Cancel(cancel) => {
            call_id_fits(&cancel.call_id);
            id_fits(cancel.id);
        }
        UserCommand::AbandonRequest(abandon) => {
            call_id_fits(&abandon.call_id);
            id_fits(abandon.id);
        }
        UserCommand::AbandonDialog(abandon) => {
            call_id_fits(&abandon.call_id);
            tag_fits(&abandon.local_tag);
            tag_fits(&abandon.remote_tag);
        }
    }
}

fn content_fits(routes: &[NameAddr], content: &Content)
    ensures headers { AreHeaders (by_header routes.now content.now) }
    ensures body { IsTrue (are_bytes content.now.body) }
{
    name_addrs_fit(content.contacts());
    name_addrs_fit(routes);
    tokens_fit(content.require());
    tokens_fit(content.supported());
    headers_fit(content.others());
    text_fits(content.body().as_slice());
}

fn name_addrs_fit(addresses: &[NameAddr])
    ensures { AllByRecursion IsAddressValue addresses.now }
{
    for address in addresses {
        name_addr_fits(address);
    }
}

#[tactic(auto, unfolding(sip_message::specs::Written::address_text))]
fn name_addr_fits(address: &NameAddr)
    ensures { IsAddressValue address.now }
{
    text_fits(address.display.as_slice());
    text_fits(address.uri.as_slice());
    text_fits(address.parameters.as_text());
}

fn tokens_fit(tokens: &[Token])
    ensures { AllByRecursion IsOptionTag tokens.now }
{
    for token in tokens {
        text_fits(token.as_slice());
    }
}

fn headers_fit(headers: &[Header])
    ensures { AllByRecursion IsKeptHeader headers.now }
{
    for header in headers {
        text_fits(header.name.as_slice());
        text_fits(header.value.as_slice());
    }
}

fn call_id_fits(call_id: &CallId)
    ensures { IsCallIdWord call_id.now }
{
    text_fits(call_id.as_slice());
}

fn uri_fits(uri: &Uri)
    ensures { IsUri uri.now }
{
    text_fits(uri.as_slice());
}

fn tag_fits(tag: &Option<Token>)
    ensures { IsTag tag.now }
{
    if let Some(tag) = tag {
        text_fits(tag.as_slice());
    }
}

fn id_fits(id: Id)
    ensures { IsId id }
{
    let _round = id.round;
    let _place = id.place;
}

fn addr_fits(address: Addr)
    ensures { IsAddr address }
{
    let [_a, _b, _c, _d] = address.ip;
    let _port = address.port;
}

fn text_fits(text: &[u8])
    ensures { IsTrue (are_bytes text.now) }
{}
