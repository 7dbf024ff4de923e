//! The source of a request (RFC 3261, section 18.2.1; RFC 3581).
ghost use Rattle.std.specs.Prelude.{◌≡◌, ◌++◌, IfOk, IsTrue, OnOk, OnErr, Some, unwrap_or};
ghost use Rattle.sip_text.specs.Parameter.{is_parameter_value};
ghost use Rattle.sip_text.specs.Token.{is_token};
ghost use Rattle.sip_message.specs.Source as source_of;

use crate::addr::{Addr, ip_text};
use crate::keys::port_of;
use crate::message::Message;
use crate::via::Via;
use sip_grammar::Parameters;
use sip_text::decimal;
use std::alloc::{AllocError, Global};

/// Notes the source in the top Via, and returns the address to which the answer goes. If the first
/// `rport` has no value, it gets the source port, `received` gets the source IP, and the answer
/// goes to the source. Otherwise `received` is set if the Via names a host other than the source
/// IP, and the answer goes to the source IP and the port of the sent-by. The other values don't
/// change, and nothing is copied if nothing changes. If memory runs out the message doesn't change.
#[tactic(auto, unfolding(crate::specs::Source::stamped, crate::specs::Source::answer_address))]
pub fn stamp_source(alloc: Global, message: &mut Message, source: Addr) -> Result<Addr, AllocError>
    ensures stamped { OnOk result (message.new ≡ source_of.stamped message.old source) }
    ensures address { IfOk result (λ address. address
        ≡ source_of.answer_address message.old source) }
    ensures err { OnErr result (message.new ≡ message.old) }
{
    let (address, parameters) = stamp_of(alloc, message.vias.top(), source)?;
    if let Some(parameters) = parameters {
        message.vias.set_top_parameters(alloc, parameters);
    }
    Ok(address)
}

/// The address to which the answer goes, and the parameters with the source, or None if they don't
/// change.
#[tactic(auto, unfolding(crate::specs::Source::stamped_parameters))]
fn stamp_of(
    alloc: Global,
    via: &Via,
    source: Addr,
) -> Result<(Addr, Option<Parameters>), AllocError>
    ensures address { IfOk result (λ made. made.0 ≡ source_of.answered_at source via.now) }
    ensures parameters { IfOk result (λ made. unwrap_or made.1 via.now.parameters
        ≡ source_of.stamped_parameters source via.now) }
{
    if asks_port(via) {
        let with_port = with_port(alloc, &via.parameters, source)?;
        return Ok((source, Some(and_received(alloc, with_port, source)?)));
    }
    let ip = source.ip;
    let port = port_of(via);
    let address = Addr { ip, port };
    if via.host.as_slice() == ip_text(ip).as_slice() {
        return Ok((address, None));
    }
    let parameters = with_received(alloc, &via.parameters, source)?;
    Ok((address, Some(parameters)))
}

/// Whether the first `rport` has no value.
fn asks_port(via: &Via) -> bool
    ensures { result ≡ source_of.asks_port via.now }
{
    match via.parameters.named(b"rport") {
        None => false,
        Some(parameter) => parameter.value.is_none(),
    }
}

#[tactic(auto, unfolding(sip_text::specs::Token::is_token, sip_text::specs::Token::is_token_byte))]
fn with_received(
    alloc: Global,
    parameters: &Parameters,
    source: Addr,
) -> Result<Parameters, AllocError>
    ensures { IfOk result (λ made. made ≡ source_of.with_received source parameters.now) }
{
    let ip = ip_text(source.ip);
    parameters.with_value(alloc, b"received", &ip)
}

/// The same, without a copy if there is no `received`.
#[tactic(auto, unfolding(sip_text::specs::Token::is_token, sip_text::specs::Token::is_token_byte))]
fn and_received(
    alloc: Global,
    parameters: Parameters,
    source: Addr,
) -> Result<Parameters, AllocError>
    ensures { IfOk result (λ made. made ≡ source_of.with_received source parameters) }
{
    let ip = ip_text(source.ip);
    parameters.and_value(alloc, b"received", &ip)
}

#[tactic(auto, unfolding(sip_text::specs::Token::is_token, sip_text::specs::Token::is_token_byte))]
fn with_port(alloc: Global, parameters: &Parameters, source: Addr) -> Result<Parameters, AllocError>
    ensures { IfOk result (λ made. made ≡ source_of.with_port source parameters.now) }
{
    let port = decimal(u64::from(source.port));
    parameters.with_value(alloc, b"rport", &port)
}
