//! The requests that the agent makes in a dialog (RFC 3261, sections 8.1.1 and 12.2.1.1).
ghost use Rattle.std.specs.Prelude.{◌≡◌, ◌+◌, ◌++◌, ◌∷◌, [], List, IfErr, IfOk, OnErr, OnOk, None};
ghost use Rattle.sip_dialog.specs.Fault.{request_fault, ack_fault, or_no_memory};
ghost use Rattle.sip_dialog.specs.Life.{Happening, Requests, Acknowledges, dialog_after};
ghost use Rattle.sip_dialog.specs.Opening.{Opening};
ghost use Rattle.sip_dialog.specs.Request.{request_in, bare_request_in, ack_in};
ghost use Rattle.sip_dialog.specs.Step.{with_next_number};

use crate::branch::Branch;
use crate::dialog::{Dialog, DialogState};
use crate::fault::DialogFault;
use crate::own_headers::{ack, contacts_of, is_invite, own_via};
use sip_grammar::Token;
use sip_message::{Addr, CSeq, Content, MAX_FORWARDS, Message, StartLine};
use std::alloc::AllocError;

/// The highest CSeq of a request that the agent makes: it is below 2^31 (RFC 3261, section
/// 8.1.1.5).
const LAST_CSEQ: u32 = 2_147_483_647;

impl Dialog {
    /// The next request with this method and content. It takes the next local CSeq, and is sent
    /// from the address `local` (RFC 3261, section 12.2.1.1).
    ///
    /// # Errors
    ///
    /// The first that fits: `Ended`, `NotConfirmed` for an INVITE in an early dialog,
    /// `StrictRoute`, `SequenceUsedUp` or `NoMemory`. Then the dialog is unchanged.
    pub fn next_request(
        &mut self,
        method: Token,
        content: Content,
        branch: Branch,
        local: Addr,
    ) -> Result<Message, DialogFault>
        ensures made { IfOk result (λ message. message
            ≡ request_in self.old method (self.old.local_cseq + 1) content branch local) }
        ensures open { OnOk result (request_fault self.old method ≡ None) }
        ensures fault { IfErr result (λ fault. fault
            ≡ or_no_memory (request_fault self.old method)) }
        ensures ok { OnOk result (self.new ≡ with_next_number self.old) }
        ensures err { OnErr result (self.new ≡ self.old) }
        ensures life { (start : Opening) (life : List Happening)
            → self.old ≡ dialog_after start life
            → OnOk result (self.new ≡ dialog_after start (life ++ Requests method ∷ [])) }
    {
        if let Some(fault) = self.request_fault(&method) {
            return Err(fault);
        }
        let number = self.local_cseq + 1;
        let message = self.request(method, number, content, branch, local)?;
        self.local_cseq = number;
        Ok(message)
    }

    // Why no request with this method can be made.
    fn request_fault(&self, method: &Token) -> Option<DialogFault>
        ensures { result ≡ request_fault self.now method.now }
    {
        if self.state == DialogState::Ended {
            Some(DialogFault::Ended)
        } else if self.state == DialogState::Early && is_invite(method) {
            Some(DialogFault::NotConfirmed)
        } else if self.is_strict() {
            Some(DialogFault::StrictRoute)
        } else if self.local_cseq >= LAST_CSEQ {
            Some(DialogFault::SequenceUsedUp)
        } else {
            None
        }
    }

    /// The ACK of the INVITE with this CSeq number, with this content. It takes no number of its
    /// own (RFC 3261, section 13.2.2.4), and is sent from the address `local`.
    ///
    /// # Errors
    ///
    /// The first that fits: `Ended`, `NotConfirmed`, `StrictRoute` or `NoMemory`.
    pub fn ack(
        &self,
        cseq: u32,
        content: Content,
        branch: Branch,
        local: Addr,
    ) -> Result<Message, DialogFault>
        ensures made { IfOk result (λ message. message
            ≡ ack_in self.now cseq content branch local) }
        ensures open { OnOk result (ack_fault self.now ≡ None) }
        ensures fault { IfErr result (λ fault. fault ≡ or_no_memory (ack_fault self.now)) }
        ensures life { (start : Opening) (life : List Happening)
            → self.now ≡ dialog_after start life
            → self.now ≡ dialog_after start (life ++ Acknowledges cseq ∷ []) }
    {
        self.ack_step(cseq, content, branch, local)
    }

    fn ack_step(
        &self,
        cseq: u32,
        content: Content,
        branch: Branch,
        local: Addr,
    ) -> Result<Message, DialogFault>
        ensures made { IfOk result (λ message. message
            ≡ ack_in self.now cseq content branch local) }
        ensures open { OnOk result (ack_fault self.now ≡ None) }
        ensures fault { IfErr result (λ fault. fault ≡ or_no_memory (ack_fault self.now)) }
    {
        if let Some(fault) = self.ack_fault() {
            return Err(fault);
        }
        let method = ack(self.alloc)?;
        Ok(self.request(method, cseq, content, branch, local)?)
    }

    // Why no ACK can be made.
    fn ack_fault(&self) -> Option<DialogFault>
        ensures { result ≡ ack_fault self.now }
    {
        match self.state {
            DialogState::Ended => Some(DialogFault::Ended),
            DialogState::Early => Some(DialogFault::NotConfirmed),
            DialogState::Confirmed if self.is_strict() => Some(DialogFault::StrictRoute),
            DialogState::Confirmed => None,
        }
    }

    // The request with this method, number and content.
    fn request(
        &self,
        method: Token,
        number: u32,
        content: Content,
        branch: Branch,
        local: Addr,
    ) -> Result<Message, AllocError>
        ensures { IfOk result (λ message. message
            ≡ request_in self.now method number content branch local) }
    {
        let message = self.bare_request(method, number, branch, local)?;
        message.with_content(self.alloc, content)
    }

    // The request without its content.
    fn bare_request(
        &self,
        method: Token,
        number: u32,
        branch: Branch,
        local: Addr,
    ) -> Result<Message, AllocError>
        ensures { IfOk result (λ message. message
            ≡ bare_request_in self.now method number branch local) }
    {
        let start = StartLine::Request {
            uri: self.target.clone()?,
        };
        let vias = own_via(self.alloc, local, branch)?;
        let from = self.local.to_party(self.alloc)?;
        let to = self.remote.to_party(self.alloc)?;
        let call_id = self.call_id.clone()?;
        let contacts = contacts_of(self.alloc, &method, local)?;
        let cseq = CSeq { number, method };
        let mut made = Message::bare(self.alloc, start, vias, from, to, call_id, cseq);
        made.max_forwards = Some(MAX_FORWARDS);
        made.contacts = contacts;
        made.routes = self.route_set.clone()?;
        Ok(made)
    }
}
