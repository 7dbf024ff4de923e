//! From and To (RFC 3261, sections 20.20 and 20.39).
ghost use Rattle.std.specs.Prelude.{◌≡◌, IfOk};
ghost use Rattle.sip_message.specs.Party as party;

use crate::response::with_tag;
use sip_grammar::{Parameters, PartyDisplay, PartyParameters, Token, Uri};
use std::alloc::{AllocError, Global};

/// The value of a From or a To: a display text, a URI and parameters, among them the tag.
pub struct Party {
    pub display: PartyDisplay,
    pub uri: Uri,
    pub parameters: PartyParameters,
}

impl Party {
    ghost use Rattle.sip_message.specs.Party.{tag_of, party_of};

    /// The party of this URI, without a display text, and with this tag if there is one.
    pub fn new(alloc: Global, uri: Uri, tag: Option<Token>) -> Result<Party, AllocError>
        ensures { IfOk result (λ party. party ≡ party_of uri tag) }
    {
        Ok(Party {
            display: PartyDisplay::nothing(alloc),
            uri,
            parameters: tag_alone(alloc, tag)?,
        })
    }

    /// The tag: empty if there is none.
    pub fn tag(&self) -> &[u8]
        ensures { result.now ≡ tag_of self.now }
    {
        self.parameters.tag()
    }
}

#[tactic(auto, unfolding(sip_grammar::specs::Tag::has_good_tag))]
fn tag_alone(alloc: Global, tag: Option<Token>) -> Result<PartyParameters, AllocError>
    ensures { IfOk result (λ parameters. parameters ≡ party.tag_alone tag) }
{
    let parameters = Parameters::new(alloc);
    match tag {
        None => Ok(PartyParameters::from_parameters(parameters)),
        Some(tag) => with_tag(parameters, &tag),
    }
}

impl Drop for Party {
    fn drop(self) {
        let Party {
            display: _,
            uri: _,
            parameters: _,
        } = self;
    }
}

impl Clone for Party {
    ghost is_clone = { λ original copy. copy ≡ original };

    fn clone(&self) -> Result<Party, AllocError> {
        Ok(Party {
            display: self.display.clone()?,
            uri: self.uri.clone()?,
            parameters: self.parameters.clone()?,
        })
    }
}
