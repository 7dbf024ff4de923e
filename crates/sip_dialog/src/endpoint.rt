//! The two ends of a dialog (RFC 3261, section 12).
ghost use Rattle.std.specs.Prelude.{◌≡◌, IfOk};
ghost use Rattle.sip_message.specs.Party.{party_of};
ghost use Rattle.sip_dialog.specs.Endpoint as endpoint;

use sip_grammar::{Token, Uri};
use sip_message::Party;
use std::alloc::{AllocError, Global};

/// One end of a dialog: its URI, and its tag, if it had one, as it was spelled when the dialog was
/// made.
pub struct Endpoint {
    pub uri: Uri,
    pub tag: Option<Token>,
}

impl Endpoint {
    ghost use Rattle.sip_dialog.specs.Endpoint.{endpoint_of};

    /// The end named by a From or To, with this URI and the tag of the party.
    pub(crate) fn new(alloc: Global, uri: &Uri, party: &Party) -> Result<Endpoint, AllocError>
        ensures { IfOk result (λ made. made ≡ endpoint_of uri.now party.now) }
    {
        let uri = uri.clone()?;
        let tag = tag_of(alloc, party)?;
        Ok(Endpoint { uri, tag })
    }

    /// A From or To that names this end, without a display text.
    pub(crate) fn to_party(&self, alloc: Global) -> Result<Party, AllocError>
        ensures { IfOk result (λ party. party ≡ party_of self.now.uri self.now.tag) }
    {
        let uri = self.uri.clone()?;
        let tag = self.tag.clone()?;
        Party::new(alloc, uri, tag)
    }
}

fn tag_of(alloc: Global, party: &Party) -> Result<Option<Token>, AllocError>
    ensures { IfOk result (λ tag. tag ≡ endpoint.tag_option party.now) }
{
    let _parameters = party.parameters.as_parameters();
    let tag = party.tag();
    if tag.is_empty() {
        return Ok(None);
    }
    Ok(Some(Token::copy_of(alloc, tag)?))
}

impl Drop for Endpoint {
    fn drop(self) {
        let Endpoint { uri: _, tag: _ } = self;
    }
}

impl Clone for Endpoint {
    ghost is_clone = { λ original copy. copy ≡ original };

    fn clone(&self) -> Result<Endpoint, AllocError> {
        Ok(Endpoint {
            uri: self.uri.clone()?,
            tag: self.tag.clone()?,
        })
    }
}
