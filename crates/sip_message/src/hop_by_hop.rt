//! The requests that follow another one on its own hop: the ACK of a response of 300 to 699 (RFC
//! 3261, section 17.1.1.3), and CANCEL (RFC 3261, section 9.1).
ghost use Rattle.std.specs.Prelude.{◌≡◌, IfOk, take};
ghost use Rattle.sip_message.specs.HopByHop as spec;

use crate::cseq::CSeq;
use crate::message::{MAX_FORWARDS, Message};
use crate::party::Party;
use crate::vias::Vias;
use sip_grammar::Token;
use sip_text::Series;
use std::alloc::{AllocError, Global};

/// The ACK that the client of an INVITE sends for a response of 300 to 699: the start line, From,
/// Call-ID, CSeq number and Route of the request, only its top Via, the To of the response, and no
/// body.
#[tactic(auto, unfolding(sip_text::specs::Token::is_token, sip_text::specs::Token::is_token_byte))]
pub fn ack_for(alloc: Global, request: &Message, response: &Message) -> Result<Message, AllocError>
    ensures { IfOk result (λ made. made ≡ spec.ack_of request.now response.now) }
{
    let to = response.to.clone()?;
    hop_by_hop(alloc, request, to, Token::copy_of(alloc, b"ACK")?)
}

/// The CANCEL of a request: its start line, From, To, Call-ID, CSeq number and Route, only its top
/// Via, and no body.
#[tactic(auto, unfolding(sip_text::specs::Token::is_token, sip_text::specs::Token::is_token_byte))]
pub fn cancel_for(alloc: Global, request: &Message) -> Result<Message, AllocError>
    ensures { IfOk result (λ made. made ≡ spec.cancel_of request.now) }
{
    let to = request.to.clone()?;
    hop_by_hop(alloc, request, to, Token::copy_of(alloc, b"CANCEL")?)
}

fn hop_by_hop(
    alloc: Global,
    request: &Message,
    to: Party,
    method: Token,
) -> Result<Message, AllocError>
    ensures { IfOk result (λ made. made ≡ spec.hop_by_hop_of method request.now to) }
{
    let start = request.start.clone()?;
    let vias = top_alone(alloc, &request.vias)?;
    let from = request.from.clone()?;
    let call_id = request.call_id.clone()?;
    let cseq = CSeq {
        number: request.cseq.number,
        method,
    };
    let mut made = Message::bare(alloc, start, vias, from, to, call_id, cseq);
    made.max_forwards = Some(MAX_FORWARDS);
    made.routes = request.routes.clone()?;
    Ok(made)
}

#[tactic(auto, unfolding(crate::specs::Via::are_vias))]
fn top_alone(alloc: Global, vias: &Vias) -> Result<Vias, AllocError>
    ensures { IfOk result (λ made. made ≡ take 1 vias.now) }
{
    let [top, ..] = vias.as_slice() else {
        return vias.clone();
    };
    let mut alone = Series::new(alloc);
    alone.push(top.clone()?)?;
    Ok(Vias::from_series(alone))
}
