//! Dialogs (RFC 3261, section 12).
ghost use Rattle.std.specs.Prelude.{◌≡◌, ◌++◌, ◌∷◌, [], List, IfErr, OnErr, OnOk, None};
ghost use Rattle.std.specs.Option.{option_copied};
ghost use Rattle.sip_dialog.specs.Fault.{accept_fault, ended_fault, ok_unless, or_no_memory};
ghost use Rattle.sip_dialog.specs.Life.{Happening, Accepts, Refreshes, Confirms, Ends, dialog_after};
ghost use Rattle.sip_dialog.specs.Opening.{Opening};
ghost use Rattle.sip_dialog.specs.Step as step;

use crate::endpoint::Endpoint;
use crate::fault::DialogFault;
use crate::opening::{contact_uri, reversed, target_of};
use sip_grammar::{CallId, RequestUri, Uri};
use sip_message::{Message, NameAddr};
use sip_text::Series;
use std::alloc::{AllocError, Global};

/// The agent's own side in the dialog.
#[derive(Clone, Copy, PartialEq, Eq)]
pub enum Side {
    /// It sent the INVITE.
    Caller,
    /// It answers the INVITE.
    Callee,
}

/// How far a dialog has come.
#[derive(Clone, Copy, PartialEq, Eq)]
pub enum DialogState {
    /// Made by a provisional response.
    Early,
    Confirmed,
    Ended,
}

/// A dialog: a relationship of two user agents that lasts for some time, and in which requests are
/// numbered and routed (RFC 3261, section 12).
///
/// A contract sees it as its opening and the list of what happened in it.
pub struct Dialog {
    pub(crate) alloc: Global,
    pub(crate) side: Side,
    pub(crate) state: DialogState,
    pub(crate) call_id: CallId,
    pub(crate) local: Endpoint,
    pub(crate) remote: Endpoint,
    pub(crate) target: RequestUri,
    pub(crate) route_set: Series<NameAddr>,
    pub(crate) local_cseq: u32,
    pub(crate) remote_cseq: Option<u32>,
}

impl Dialog {
    /// Takes the number of a request that the peer sent in the dialog (RFC 3261, section 12.2.2).
    /// Takes no memory.
    ///
    /// # Errors
    ///
    /// `Ended`, or `OutOfOrder` if the number isn't above the remote CSeq. Then the dialog is
    /// unchanged.
    pub fn accept(&mut self, cseq: u32) -> Result<(), DialogFault>
        ensures answer { result ≡ ok_unless (accept_fault self.old cseq) }
        ensures ok { OnOk result (self.new ≡ step.with_accepted self.old cseq) }
        ensures err { OnErr result (self.new ≡ self.old) }
        ensures life { (start : Opening) (life : List Happening)
            → self.old ≡ dialog_after start life
            → OnOk result (self.new ≡ dialog_after start (life ++ Accepts cseq ∷ [])) }
    {
        self.accept_step(cseq)
    }

    fn accept_step(&mut self, cseq: u32) -> Result<(), DialogFault>
        ensures answer { result ≡ ok_unless (accept_fault self.old cseq) }
        ensures ok { OnOk result (self.new ≡ step.with_accepted self.old cseq) }
        ensures err { OnErr result (self.new ≡ self.old) }
    {
        self.check_open()?;
        if self.remote_cseq.is_some_and(|last| cseq <= last) {
            return Err(DialogFault::OutOfOrder);
        }
        self.remote_cseq = Some(cseq);
        Ok(())
    }

    // Refuses an ended dialog.
    fn check_open(&self) -> Result<(), DialogFault>
        ensures { result ≡ ok_unless (ended_fault self.now) }
    {
        match self.state {
            DialogState::Ended => Err(DialogFault::Ended),
            DialogState::Early | DialogState::Confirmed => Ok(()),
        }
    }

    /// Makes this URI the target, as a re-INVITE with a Contact does, and its 2xx (RFC 3261,
    /// section 12.2). Takes no memory.
    ///
    /// # Errors
    ///
    /// `Ended`. Then the dialog is unchanged.
    pub fn refresh(&mut self, uri: Uri) -> Result<(), DialogFault>
        ensures answer { result ≡ ok_unless (ended_fault self.old) }
        ensures ok { OnOk result (self.new ≡ step.with_target self.old uri) }
        ensures err { OnErr result (self.new ≡ self.old) }
        ensures life { (start : Opening) (life : List Happening)
            → self.old ≡ dialog_after start life
            → OnOk result (self.new ≡ dialog_after start (life ++ Refreshes uri ∷ [])) }
    {
        self.refresh_step(uri)
    }

    fn refresh_step(&mut self, uri: Uri) -> Result<(), DialogFault>
        ensures answer { result ≡ ok_unless (ended_fault self.old) }
        ensures ok { OnOk result (self.new ≡ step.with_target self.old uri) }
        ensures err { OnErr result (self.new ≡ self.old) }
    {
        self.check_open()?;
        self.target = RequestUri::from_uri(uri);
        Ok(())
    }

    /// Confirms the dialog by a 2xx response (RFC 3261, sections 12.1 and 13.2.2.4). At the callee
    /// only the state changes. At the caller the route set is read anew from the response, and the
    /// target too if it has a Contact. The sequence numbers stay.
    ///
    /// # Errors
    ///
    /// `Ended` and, only at the caller, `NoMemory`, in this order. Then the dialog is unchanged.
    pub fn confirm(&mut self, response: &Message) -> Result<(), DialogFault>
        ensures open { OnOk result (ended_fault self.old ≡ None) }
        ensures fault { IfErr result (λ fault. fault ≡ or_no_memory (ended_fault self.old)) }
        ensures callee { self.old.side ≡ Side.Callee
            → IfErr result (λ fault. ended_fault self.old ≡ Some fault) }
        ensures ok { OnOk result (self.new ≡ step.confirmed_by self.old response.now) }
        ensures err { OnErr result (self.new ≡ self.old) }
        ensures life { (start : Opening) (life : List Happening)
            → self.old ≡ dialog_after start life
            → OnOk result (self.new ≡ dialog_after start (life ++ Confirms response.now ∷ [])) }
    {
        self.confirm_step(response)
    }

    fn confirm_step(&mut self, response: &Message) -> Result<(), DialogFault>
        ensures open { OnOk result (ended_fault self.old ≡ None) }
        ensures fault { IfErr result (λ fault. fault ≡ or_no_memory (ended_fault self.old)) }
        ensures callee { self.old.side ≡ Side.Callee
            → IfErr result (λ fault. ended_fault self.old ≡ Some fault) }
        ensures ok { OnOk result (self.new ≡ step.confirmed_by self.old response.now) }
        ensures err { OnErr result (self.new ≡ self.old) }
    {
        self.check_open()?;
        match self.side {
            Side::Caller => self.route_by(response)?,
            Side::Callee => {}
        }
        self.state = DialogState::Confirmed;
        Ok(())
    }

    // Reads the route set from the response, and the target if it has a Contact.
    fn route_by(&mut self, response: &Message) -> Result<(), AllocError>
        ensures ok { OnOk result (self.new ≡ step.routed_by self.old response.now) }
        ensures err { OnErr result (self.new ≡ self.old) }
    {
        let route_set = reversed(&response.record_routes)?;
        if let Some(contact) = contact_uri(response) {
            self.target = target_of(contact)?;
        }
        self.route_set = route_set;
        Ok(())
    }

    /// Ends the dialog. A second end does nothing. Takes no memory.
    pub fn end(&mut self)
        ensures after { self.new ≡ step.ended_now self.old }
        ensures life { (start : Opening) (life : List Happening)
            → self.old ≡ dialog_after start life
            → self.new ≡ dialog_after start (life ++ Ends ∷ []) }
    {
        self.end_step();
    }

    fn end_step(&mut self)
        ensures { self.new ≡ step.ended_now self.old }
    {
        self.state = DialogState::Ended;
    }

    /// The agent's own side.
    pub fn side(&self) -> Side
        ensures { result ≡ self.now.side }
    {
        self.side
    }

    /// How far it has come.
    pub fn state(&self) -> DialogState
        ensures { result ≡ self.now.state }
    {
        self.state
    }

    pub fn call_id(&self) -> &CallId
        ensures { result.now ≡ self.now.call_id }
    {
        &self.call_id
    }

    /// The agent's own URI, and its tag as it was spelled when the dialog was made.
    pub fn local(&self) -> &Endpoint
        ensures { result.now ≡ self.now.local }
    {
        &self.local
    }

    /// The peer's URI, and its tag as it was spelled when the dialog was made.
    pub fn remote(&self) -> &Endpoint
        ensures { result.now ≡ self.now.remote }
    {
        &self.remote
    }

    /// The URI that requests in the dialog have as their Request-URI.
    pub fn target(&self) -> &RequestUri
        ensures { result.now ≡ self.now.target }
    {
        &self.target
    }

    /// The route set of requests in the dialog, the first hop first.
    pub fn route_set(&self) -> &[NameAddr]
        ensures { result.now ≡ self.now.route_set }
    {
        self.route_set.as_slice()
    }

    /// The CSeq of the last request that was made in the dialog. At the caller that is at first the
    /// request with which it began; without one it is 0.
    pub fn local_cseq(&self) -> u32
        ensures { result ≡ self.now.local_cseq }
    {
        self.local_cseq
    }

    /// The CSeq of the last request of the peer, if there was one.
    pub fn remote_cseq(&self) -> Option<u32>
        ensures { result ≡ self.now.remote_cseq }
    {
        self.remote_cseq
    }
}

impl Drop for Dialog {
    fn drop(self) {
        let Dialog {
            alloc: _,
            side: _,
            state: _,
            call_id: _,
            local: _,
            remote: _,
            target: _,
            route_set: _,
            local_cseq: _,
            remote_cseq: _,
        } = self;
    }
}
