//! Messages (RFC 3261, section 7).
ghost use Rattle.std.specs.Prelude.{◌≡◌, IfOk};

use crate::content::Content;
use crate::cseq::CSeq;
use crate::header::Header;
use crate::name_addr::NameAddr;
use crate::party::Party;
use crate::rack::RAck;
use crate::start_line::StartLine;
use crate::vias::Vias;
use sip_grammar::{CallId, Token};
use sip_text::{Series, Text};
use std::alloc::{AllocError, Global};

/// The Max-Forwards of a made request (RFC 3261, section 8.1.1.6).
pub const MAX_FORWARDS: u32 = 70;

/// A request or a response. Lists are in the order of the message; the top Via is the first.
pub struct Message {
    pub start: StartLine,
    pub vias: Vias,
    pub max_forwards: Option<u32>,
    pub from: Party,
    pub to: Party,
    pub call_id: CallId,
    pub cseq: CSeq,
    pub contacts: Series<NameAddr>,
    pub record_routes: Series<NameAddr>,
    pub routes: Series<NameAddr>,
    pub require: Series<Token>,
    pub supported: Series<Token>,
    pub rseq: Option<u32>,
    pub rack: Option<RAck>,
    pub others: Series<Header>,
    pub body: Text,
}

impl Message {
    ghost use Rattle.sip_message.specs.Content.{with_content_of};
    ghost use Rattle.sip_message.specs.Message.{bare, is_request_message};

    /// A message with no header but these and without a body. Takes no memory.
    pub fn bare(
        alloc: Global,
        start: StartLine,
        vias: Vias,
        from: Party,
        to: Party,
        call_id: CallId,
        cseq: CSeq,
    ) -> Message
        ensures { result ≡ bare start vias from to call_id cseq }
    {
        Message {
            start,
            vias,
            max_forwards: None,
            from,
            to,
            call_id,
            cseq,
            contacts: Series::new(alloc),
            record_routes: Series::new(alloc),
            routes: Series::new(alloc),
            require: Series::new(alloc),
            supported: Series::new(alloc),
            rseq: None,
            rack: None,
            others: Series::new(alloc),
            body: Text::from_vec(Vec::new(alloc)),
        }
    }

    pub fn is_request(&self) -> bool
        ensures { result ≡ is_request_message self.now }
    {
        match &self.start {
            StartLine::Request { .. } => true,
            StartLine::Response { .. } => false,
        }
    }

    /// The method of a request, and of the request that a response answers.
    pub fn method(&self) -> &Token
        ensures { result.now ≡ self.now.cseq.method }
    {
        &self.cseq.method
    }

    /// The message with what the user puts into it: the user's contacts in place of the agent's
    /// own, if there are any, the user's other headers after the agent's own, and the user's body,
    /// which is SDP if no Content-Type says otherwise. Values are moved; memory is taken only if
    /// both have values, or for the Content-Type.
    pub fn with_content(mut self, alloc: Global, content: Content) -> Result<Message, AllocError>
        ensures { IfOk result (λ made. made ≡ with_content_of self content) }
    {
        content.put_into(alloc, &mut self)?;
        Ok(self)
    }
}

// Written out, so that a message is dropped by one call, wherever a value that holds one is
// dropped.
impl Drop for Message {
    fn drop(self) {
        let Message {
            start: _,
            vias: _,
            max_forwards: _,
            from: _,
            to: _,
            call_id: _,
            cseq: _,
            contacts: _,
            record_routes: _,
            routes: _,
            require: _,
            supported: _,
            rseq: _,
            rack: _,
            others: _,
            body: _,
        } = self;
    }
}

impl Clone for Message {
    ghost is_clone = { λ original copy. copy ≡ original };

    fn clone(&self) -> Result<Message, AllocError> {
        Ok(Message {
            start: self.start.clone()?,
            vias: self.vias.clone()?,
            max_forwards: self.max_forwards,
            from: self.from.clone()?,
            to: self.to.clone()?,
            call_id: self.call_id.clone()?,
            cseq: self.cseq.clone()?,
            contacts: self.contacts.clone()?,
            record_routes: self.record_routes.clone()?,
            routes: self.routes.clone()?,
            require: self.require.clone()?,
            supported: self.supported.clone()?,
            rseq: self.rseq,
            rack: self.rack.clone()?,
            others: self.others.clone()?,
            body: self.body.clone()?,
        })
    }
}
