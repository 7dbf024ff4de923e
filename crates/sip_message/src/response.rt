//! Responses made from requests (RFC 3261, section 8.2.6).
ghost use Rattle.std.specs.Prelude.{◌≡◌, ◌++◌, ◌∷◌, [], None, IfOk, OnOk, IsTrue, codes};
ghost use Rattle.sip_text.specs.Token as token_rule;
ghost use Rattle.sip_grammar.specs.Parameters.{parameter_named};
ghost use Rattle.sip_message.specs.Response as response;

use crate::cseq::CSeq;
use crate::message::Message;
use crate::party::Party;
use crate::start_line::StartLine;
use crate::vias::Vias;
use sip_grammar::{CallId, Parameters, PartyParameters, Reason, StatusCode, Token};
use sip_text::ParameterText;
use std::alloc::{AllocError, Global};

/// The response to the request: its Via, From, To, Call-ID and CSeq, no other header and no body.
/// To gets the tag as its last parameter, if it has none and the status isn't 100.
#[tactic(auto, unfolding(crate::specs::Response::response_of))]
pub fn response_to(
    alloc: Global,
    request: &Message,
    status: StatusCode,
    reason: Reason,
    tag: &Token,
) -> Result<Message, AllocError>
    ensures { IfOk result (λ made. made ≡ response.response_of request.now status reason tag.now) }
{
    let vias = request.vias.clone()?;
    let from = request.from.clone()?;
    let to = answering_to(alloc, &request.to, status, tag)?;
    let call_id = request.call_id.clone()?;
    let cseq = request.cseq.clone()?;
    let start = StartLine::Response { status, reason };
    Ok(Message::bare(alloc, start, vias, from, to, call_id, cseq))
}

fn answering_to(
    alloc: Global,
    to: &Party,
    status: StatusCode,
    tag: &Token,
) -> Result<Party, AllocError>
    ensures { IfOk result (λ party. party ≡ response.answering_to to.now status tag.now) }
{
    if status.code() == 100 {
        return to.clone();
    }
    tagged(alloc, to, tag)
}

/// The party with this tag as its last parameter, if it has none.
#[tactic(auto, unfolding(crate::specs::Response::tagged))]
pub(crate) fn tagged(alloc: Global, party: &Party, tag: &Token) -> Result<Party, AllocError>
    ensures { IfOk result (λ made. made ≡ response.tagged party.now tag.now) }
{
    if is_tagged(party) {
        return party.clone();
    }
    Ok(Party {
        display: party.display.clone()?,
        uri: party.uri.clone()?,
        parameters: with_tag(party.parameters.clone()?.into_parameters(), tag)?,
    })
}

#[tactic(auto, unfolding(crate::specs::Response::is_tagged))]
fn is_tagged(party: &Party) -> bool
    ensures { result ≡ response.is_tagged party.now }
{
    party.parameters.as_parameters().named(b"tag").is_some()
}

/// The parameters, with a tag at the end.
#[tactic(auto, unfolding(sip_text::specs::Token::is_token, sip_text::specs::Token::is_token_byte))]
pub(crate) fn with_tag(parameters: Parameters, tag: &Token) -> Result<PartyParameters, AllocError>
    requires { parameter_named (codes "tag") parameters ≡ None }
    ensures { IfOk result (λ made. made ≡ parameters ++ response.tag_parameter tag.now ∷ []) }
{
    let name = b"tag";
    let value = Some(tag.as_slice());
    let all = parameters.with(ParameterText { name, value })?;
    Ok(PartyParameters::from_parameters(all))
}
