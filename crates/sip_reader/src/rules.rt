//! Every message satisfies the rules, since its parts do.
ghost use Rattle.std.specs.Prelude.{◌<◌, ◌^◌, IfSome, IsTrue};
ghost use Rattle.std.specs.List.{AllByRecursion};
ghost use Rattle.sip_text.specs.Token.{is_token};
ghost use Rattle.sip_message.specs.Rules as rules;

use sip_grammar::Token;
use sip_message::{Header, Message, NameAddr, Party, RAck, StartLine, Via};

/// A message satisfies the rules of its parts.
pub fn keeps_rules(message: &Message)
    ensures { rules.IsMessage message.now }
{
    start_line_keeps(&message.start);
    vias_keep(message.vias.as_slice());
    number_keeps(message.max_forwards);
    party_keeps(&message.from);
    party_keeps(&message.to);
    let _call_id = message.call_id.as_slice();
    let _number = message.cseq.number;
    let _method = message.cseq.method.as_slice();
    addresses_keep(message.contacts.as_slice());
    addresses_keep(message.record_routes.as_slice());
    addresses_keep(message.routes.as_slice());
    tokens_keep(message.require.as_slice());
    tokens_keep(message.supported.as_slice());
    number_keeps(message.rseq);
    rack_keeps(&message.rack);
    others_keep(message.others.as_slice());
}

fn start_line_keeps(start: &StartLine)
    ensures { rules.IsStartLine start.now }
{
    match start {
        StartLine::Request { uri } => {
            let _uri = uri.as_slice();
        }
        StartLine::Response { status, reason } => {
            let _code = status.code();
            let _reason = reason.as_slice();
        }
    }
}

fn vias_keep(vias: &[Via])
    ensures { AllByRecursion rules.IsVia vias.now }
{
    for via in vias {
        via_keeps(via);
    }
}

fn via_keeps(via: &Via)
    ensures { rules.IsVia via.now }
{
    let _transport = via.transport.as_slice();
    let _host = via.host.as_slice();
    port_keeps(via.port);
    let _parameters = via.parameters.as_text();
}

fn port_keeps(port: Option<u16>)
    ensures { IfSome port (λ number. number < 2 ^ 16) }
{
    match port {
        None => {}
        Some(number) => {
            let _number = number;
        }
    }
}

fn number_keeps(number: Option<u32>)
    ensures { IfSome number (λ n. n < 2 ^ 32) }
{
    match number {
        None => {}
        Some(number) => {
            let _number = number;
        }
    }
}

fn rack_keeps(rack: &Option<RAck>)
    ensures { IfSome rack.now rules.IsRAck }
{
    match rack {
        None => {}
        Some(rack) => {
            let _rseq = rack.rseq;
            let _cseq = rack.cseq;
            let _method = rack.method.as_slice();
        }
    }
}

fn party_keeps(party: &Party)
    ensures { rules.IsParty party.now }
{
    let _display = party.display.as_slice();
    let _uri = party.uri.as_slice();
    let _tag = party.parameters.as_parameters();
    let _parameters = party.parameters.as_parameters().as_text();
}

fn addresses_keep(addresses: &[NameAddr])
    ensures { AllByRecursion rules.IsNameAddr addresses.now }
{
    for address in addresses {
        address_keeps(address);
    }
}

fn address_keeps(address: &NameAddr)
    ensures { rules.IsNameAddr address.now }
{
    let _display = address.display.as_slice();
    let _uri = address.uri.as_slice();
    let _parameters = address.parameters.as_text();
}

fn tokens_keep(tokens: &[Token])
    ensures { AllByRecursion (λ token. IsTrue (is_token token)) tokens.now }
{
    for token in tokens {
        let _token = token.as_slice();
    }
}

fn others_keep(others: &[Header])
    ensures { AllByRecursion rules.IsOtherHeader others.now }
{
    for other in others {
        other_keeps(other);
    }
}

fn other_keeps(other: &Header)
    ensures { rules.IsOtherHeader other.now }
{
    let _name = other.name.as_slice();
    let _value = other.value.as_slice();
}
