//! What `call` does.

use sip_message::{Addr, CallId, Content, Uri};
use sip_text::{Series, Text};
use sip_user::{Invite, ProvisionalSupport};
use std::alloc::{AllocError, Global};

/// Which call is made, and how.
#[derive(Drop)]
pub struct CallPlan {
    /// Where the INVITE is sent.
    pub to: Addr,
    /// Who is called.
    pub uri: Uri,
    pub call_id: CallId,
    /// The body of the INVITE.
    pub body: Text,
    /// Whether it supports reliable provisional responses (RFC 3262, section 4).
    pub is_reliable: bool,
    /// How many ms the first dialog that a 2xx confirms stays up. Without it the BYE is sent at
    /// once.
    pub hold: Option<u32>,
    /// One second before the last turn, a call that isn't answered yet is cancelled, and one that
    /// is up is ended. The turns are over as soon as nothing is held.
    pub leaves: bool,
    /// Whether it is a fault if no 2xx came.
    pub must_answer: bool,
}

impl CallPlan {
    /// A call to this URI at this address, without a body. It ends as soon as it is answered.
    pub(crate) fn usual(alloc: Global, to: Addr, uri: Uri, call_id: CallId) -> CallPlan {
        CallPlan {
            to,
            uri,
            call_id,
            body: Text::from_vec(Vec::new(alloc)),
            is_reliable: false,
            hold: None,
            leaves: false,
            must_answer: false,
        }
    }

    /// The INVITE, with this URI in From.
    ///
    /// # Errors
    ///
    /// Memory ran out.
    pub(crate) fn invite(&self, alloc: Global, from: Uri) -> Result<Invite, AllocError> {
        let call_id = self.call_id.clone()?;
        let request_uri = self.uri.clone()?;
        let to = self.uri.clone()?;
        let body = self.body.clone()?;
        Ok(Invite {
            call_id,
            address: self.to,
            request_uri,
            from,
            to,
            routes: Series::new(alloc),
            support: if self.is_reliable {
                ProvisionalSupport::Supported
            } else {
                ProvisionalSupport::None
            },
            content: Content::of_body(body),
        })
    }
}
