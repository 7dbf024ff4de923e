//! The headers of a request that the agent makes in which its own address stands (RFC 3261,
//! sections 8.1.1.7 and 8.1.1.8).
ghost use Rattle.std.specs.Prelude.{◌≡◌, ◌∷◌, ◌++◌, [], IfOk, OnOk, IsTrue, codes};
ghost use Rattle.sip_message.specs.Addr.{addr_text};
ghost use Rattle.sip_message.specs.Ip.{ip_text};
ghost use Rattle.sip_dialog.specs.Branch.{is_branch};
ghost use Rattle.sip_dialog.specs.Request as request;

use crate::branch::Branch;
use sip_grammar::{DisplayText, Host, Parameters, Token, Uri};
use sip_message::{Addr, NameAddr, Via, Vias, ip_text};
use sip_text::{ParameterText, Series, Text, decimal};
use std::alloc::{AllocError, Global};

/// Whether the method is INVITE. Methods are compared byte by byte.
pub(crate) fn is_invite(method: &Token) -> bool
    ensures { result ≡ request.is_invite_method method.now }
{
    method.as_slice() == b"INVITE".as_slice()
}

/// The Via of a request that the agent makes. It asks for `rport` (RFC 3581, section 3).
#[tactic(auto, unfolding(sip_text::specs::Token::is_token, sip_text::specs::Token::is_token_byte))]
pub fn own_via(alloc: Global, local: Addr, branch: Branch) -> Result<Vias, AllocError>
    ensures { IfOk result (λ vias. vias ≡ request.agent_via local branch ∷ []) }
{
    let transport = Token::copy_of(alloc, b"UDP")?;
    let host = own_host(alloc, local)?;
    let parameters = via_parameters(alloc, &branch)?;
    let mut vias = Vec::new(alloc);
    vias.push(Via {
        transport,
        host,
        port: Some(local.port),
        parameters,
    })?;
    Ok(Vias::from_series(Series::from_vec(vias)))
}

/// The Contact of an INVITE that the agent makes; no other request has one.
#[tactic(auto, unfolding(crate::specs::Request::contacts_of))]
pub(crate) fn contacts_of(
    alloc: Global,
    method: &Token,
    local: Addr,
) -> Result<Series<NameAddr>, AllocError>
    ensures { IfOk result (λ contacts. contacts ≡ request.contacts_of method.now local) }
{
    let mut contacts = Series::new(alloc);
    if is_invite(method) {
        contacts.push(own_contact(alloc, local)?)?;
    }
    Ok(contacts)
}

/// The method ACK.
#[tactic(auto, unfolding(sip_text::specs::Token::is_token, sip_text::specs::Token::is_token_byte))]
pub(crate) fn ack(alloc: Global) -> Result<Token, AllocError>
    ensures { IfOk result (λ token. token ≡ codes "ACK") }
{
    Token::copy_of(alloc, b"ACK")
}

fn own_host(alloc: Global, local: Addr) -> Result<Host, AllocError>
    ensures { IfOk result (λ host. host ≡ ip_text local.ip) }
{
    let [_a, _b, _c, _d] = local.ip;
    Host::copy_of(alloc, &ip_text(local.ip))
}

#[tactic(auto, unfolding(sip_text::specs::Token::is_token, sip_text::specs::Token::is_token_byte))]
fn via_parameters(alloc: Global, branch: &Branch) -> Result<Parameters, AllocError>
    ensures value { IfOk result (λ made. made ≡ request.via_parameters branch.now) }
    ensures rule { OnOk result (IsTrue (is_branch branch.now)) }
{
    let rport = ParameterText {
        name: b"rport",
        value: None,
    };
    let branch = ParameterText {
        name: b"branch",
        value: Some(branch.as_slice()),
    };
    Parameters::new(alloc).with(rport)?.with(branch)
}

/// `<sip:local>`, the Contact of the agent's own messages.
pub fn own_contact(alloc: Global, local: Addr) -> Result<NameAddr, AllocError>
    ensures { IfOk result (λ contact. contact ≡ request.contact_of local) }
{
    let uri = own_uri(alloc, local)?;
    let display = DisplayText::nothing(alloc);
    let parameters = Parameters::new(alloc);
    Ok(NameAddr {
        display,
        uri,
        parameters,
    })
}

fn own_uri(alloc: Global, local: Addr) -> Result<Uri, AllocError>
    ensures { IfOk result (λ uri. uri ≡ codes "sip:" ++ addr_text local) }
{
    let [_a, _b, _c, _d] = local.ip;
    let mut text = Text::copy_of(alloc, b"sip:")?;
    text.extend_from_slice(&ip_text(local.ip))?;
    text.extend_from_slice(b":")?;
    text.extend_from_slice(&decimal(u64::from(local.port)))?;
    Ok(Uri::from_text(text))
}
