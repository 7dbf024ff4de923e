//! The user of `listen`.

use crate::answer::{
    RINGING, SESSION_PROGRESS, TEMPORARILY_UNAVAILABLE, contact, respond, respond_with, status_for,
};
use crate::hang_up::nothing;
use crate::made_dialogs::MadeDialogs;
use crate::shared_plan::SharedPlan;
use crate::time_limit::TimeLeft;
use sip_message::{CallId, Content, Id};
use sip_round::Event;
use sip_text::Text;
use sip_user::{Notice, Refusal, Reliability};
use std::alloc::{AllocError, Global};
use std::mem;
use std::sync::Arc;
use std::sync::atomic::Ordering;

/// An INVITE that isn't answered yet.
#[derive(Drop)]
struct Unanswered {
    call_id: CallId,
    id: Id,
    /// Its body, if it has one.
    offer: Text,
    /// How many INVITEs came before it in its dialog.
    before: u32,
    /// The moment, in ms, at which it is answered; none while its 183 isn't acknowledged.
    due: Option<u64>,
}

/// Answers INVITEs by its plan, re-INVITEs at once, BYE and OPTIONS with 200, and every other
/// request with 501. A dialog without the ACK of its INVITE gets a BYE. When the input has ended,
/// INVITEs that aren't answered yet get 480, and each dialog gets a BYE.
#[derive(Drop)]
pub(crate) struct Answering {
    pub(crate) shared: Arc<SharedPlan>,
    unanswered: Vec<Unanswered>,
    dialogs: MadeDialogs,
    pub(crate) is_leaving: bool,
}

impl Answering {
    pub(crate) fn new(alloc: Global, shared: Arc<SharedPlan>) -> Answering {
        Answering {
            shared,
            unanswered: Vec::new(alloc),
            dialogs: MadeDialogs::new(alloc),
            is_leaving: false,
        }
    }

    /// Adds what it asks for when it is told this notice at the moment `now`.
    ///
    /// # Errors
    ///
    /// Memory ran out.
    pub(crate) fn told(
        &mut self,
        alloc: Global,
        now: u64,
        notice: &Notice,
        events: &mut Vec<Event>,
    ) -> Result<(), AllocError> {
        match notice {
            Notice::Request {
                call_id,
                id,
                method,
                local_tag,
                remote_tag,
                body,
            } => {
                let method = method.as_slice();
                if method == b"INVITE".as_slice() {
                    let tags = (local_tag, remote_tag);
                    return self.invited(alloc, now, call_id, *id, tags, body, events);
                }
                respond(alloc, call_id, *id, status_for(method), events)
            }
            Notice::Prack { call_id, id, .. } | Notice::NoPrack { call_id, id } => {
                self.go_on(alloc, now, call_id, Some(*id), events)
            }
            Notice::Refused {
                call_id,
                refusal: Refusal::NotSupported,
                ..
            } => self.go_on(alloc, now, call_id, None, events),
            Notice::Cancel { id, .. } => {
                self.unanswered.retain(|one| one.id != *id);
                self.dialogs.remove_of(*id);
                Ok(())
            }
            Notice::Ack { id, .. } => {
                self.dialogs.confirm(*id);
                if self.is_leaving {
                    self.dialogs.end(alloc, *id, events)?;
                    self.dialogs.remove_of(*id);
                }
                Ok(())
            }
            Notice::NoAck { id, .. } => self.dialogs.end(alloc, *id, events),
            Notice::Ended {
                call_id,
                local_tag,
                remote_tag,
            } => {
                self.dialogs.remove(call_id, (local_tag, remote_tag));
                Ok(())
            }
            _ => Ok(()),
        }
    }

    /// Adds what it asks for by itself at the moment `now`, when this much time is left.
    ///
    /// # Errors
    ///
    /// Memory ran out.
    pub(crate) fn turn(
        &mut self,
        alloc: Global,
        now: u64,
        left: TimeLeft,
        events: &mut Vec<Event>,
    ) -> Result<(), AllocError> {
        if matches!(left, TimeLeft::InputEnded) && !self.is_leaving {
            return self.leave(alloc, events);
        }
        for one in mem::replace(&mut self.unanswered, Vec::new(alloc)) {
            match one.due {
                Some(due) if due <= now => {
                    self.answer(alloc, &one, events)?;
                }
                _ => self.unanswered.push(one)?,
            }
        }
        Ok(())
    }

    // An INVITE with this body came with these tags. The first is the agent's own. A re-INVITE in a
    // dialog is answered at once. Nobody answers any more, once the user is leaving.
    fn invited(
        &mut self,
        alloc: Global,
        now: u64,
        call_id: &CallId,
        id: Id,
        tags: (&Text, &Text),
        body: &Text,
        events: &mut Vec<Event>,
    ) -> Result<(), AllocError> {
        if self.is_leaving {
            return respond(alloc, call_id, id, TEMPORARILY_UNAVAILABLE, events);
        }
        let before = self.dialogs.re_invited(call_id, tags);
        let invite = Unanswered {
            call_id: call_id.clone()?,
            id,
            offer: body.clone()?,
            before: before.unwrap_or(0),
            due: None,
        };
        if before.is_some() {
            return self.answer(alloc, &invite, events);
        }
        if self.shared.plan.makes_dialogs() {
            self.dialogs.add(call_id, id, tags)?;
        }
        if !self.shared.plan.reliable {
            return self.alert(alloc, now, invite, events);
        }
        // A 183, which the caller has to acknowledge (RFC 3262, section 3).
        let (status, reliability) = (SESSION_PROGRESS, Reliability::Reliable);
        let content = nothing(alloc);
        respond_with(alloc, call_id, id, status, reliability, content, events)?;
        self.unanswered.push(invite)?;
        Ok(())
    }

    // Lets the phone ring, if the plan says so, or answers.
    fn alert(
        &mut self,
        alloc: Global,
        now: u64,
        mut invite: Unanswered,
        events: &mut Vec<Event>,
    ) -> Result<(), AllocError> {
        let Some(ring) = self.shared.plan.ring else {
            return self.answer(alloc, &invite, events);
        };
        respond(alloc, &invite.call_id, invite.id, RINGING, events)?;
        invite.due = Some(now.saturating_add(u64::from(ring)));
        self.unanswered.push(invite)?;
        Ok(())
    }

    // Answers waiting INVITEs with 480, and sends a BYE in each confirmed dialog.
    fn leave(&mut self, alloc: Global, events: &mut Vec<Event>) -> Result<(), AllocError> {
        self.is_leaving = true;
        for one in mem::replace(&mut self.unanswered, Vec::new(alloc)) {
            let status = TEMPORARILY_UNAVAILABLE;
            respond(alloc, &one.call_id, one.id, status, events)?;
        }
        self.dialogs.hang_up(alloc, events)
    }

    // Gives an INVITE its final response.
    fn answer(
        &mut self,
        alloc: Global,
        invite: &Unanswered,
        events: &mut Vec<Event>,
    ) -> Result<(), AllocError> {
        if invite.before == 0 && self.shared.plan.makes_dialogs() {
            self.shared.answered.fetch_add(1, Ordering::SeqCst);
        }
        let Unanswered { call_id, id, .. } = invite;
        let (status, reliability) = (self.shared.plan.status, Reliability::Plain);
        let content = self.content(alloc, invite)?;
        respond_with(alloc, call_id, *id, status, reliability, content, events)
    }

    // What a final response has besides its status: a 2xx has the body.
    fn content(&self, alloc: Global, invite: &Unanswered) -> Result<Content, AllocError> {
        if self.shared.plan.makes_dialogs() {
            let Unanswered { before, offer, .. } = invite;
            let body = self
                .shared
                .plan
                .body
                .to(alloc, self.shared.ip, *before, offer)?;
            return Ok(Content::of_body(body));
        }
        match &self.shared.plan.contact {
            Some(uri) => contact(alloc, uri.clone()?),
            None => Ok(nothing(alloc)),
        }
    }

    // The 183s of a call, or that of one INVITE, needn't be acknowledged any more.
    fn go_on(
        &mut self,
        alloc: Global,
        now: u64,
        call_id: &CallId,
        id: Option<Id>,
        events: &mut Vec<Event>,
    ) -> Result<(), AllocError> {
        for one in mem::replace(&mut self.unanswered, Vec::new(alloc)) {
            let is_meant = match id {
                Some(id) => one.id == id,
                None => one.call_id == *call_id,
            };
            if one.due.is_none() && is_meant {
                self.alert(alloc, now, one, events)?;
            } else {
                self.unanswered.push(one)?;
            }
        }
        Ok(())
    }
}
