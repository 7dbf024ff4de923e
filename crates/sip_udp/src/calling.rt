//! The user of `call`.

use crate::answer::{respond, status_for};
use crate::call_plan::CallPlan;
use crate::hang_up::end_dialog;
use crate::sdp;
use crate::time_limit::TimeLeft;
use sip_message::{Addr, Content, Id, Token, Uri, ip_text};
use sip_round::{Config, Event, opening_tag};
use sip_text::Text;
use sip_user::{Cancel, DialogBody, Notice, UserCommand};
use std::alloc::{AllocError, Global};
use std::mem;

/// The id of the INVITE: it is the first event of the first round.
const INVITE: Id = Id { round: 0, place: 1 };

/// How far the call is.
#[derive(Clone, Copy)]
enum Stage {
    /// The INVITE has no final response yet.
    Asked,
    /// It has none, and was cancelled.
    Cancelled,
    /// A 2xx came.
    Answered,
    /// It was rejected, or it failed.
    Refused,
}

/// A dialog that stays up until its BYE.
#[derive(Drop)]
struct Up {
    remote_tag: Text,
    /// The moment of the BYE, in ms.
    due: u64,
}

/// Sends an INVITE, and ends each dialog that a 2xx to it confirms with a BYE, the first one as
/// late as its plan says. If that 2xx, or a reliable provisional response, has an offer and the
/// INVITE had none, its ACK or PRACK waits for the user, who answers that its streams are inactive.
/// The peer's BYE and OPTIONS get 200, a re-INVITE gets 488, and every other request 501. In the
/// last second a call that isn't answered is cancelled and one that is up is ended, if the plan
/// says so; after the end of the input this is always done.
#[derive(Drop)]
pub(crate) struct Calling {
    // The agent's own address, and its tag in the dialogs of the INVITE. A notice has the tag that
    // the peer's response has in its place.
    local: Addr,
    local_tag: Text,
    plan: CallPlan,
    // Whether the call is ended in the last second.
    leaves: bool,
    stage: Stage,
    up: Option<Up>,
}

impl Calling {
    /// The user of an agent with this configuration.
    pub(crate) fn new(
        alloc: Global,
        config: &Config,
        plan: CallPlan,
    ) -> Result<Calling, AllocError> {
        let tag = opening_tag(alloc, config.seed, INVITE)?;
        Ok(Calling {
            local: config.local,
            local_tag: tag.into_text(alloc)?,
            leaves: plan.leaves,
            plan,
            stage: Stage::Asked,
            up: None,
        })
    }

    /// Asks for the INVITE.
    ///
    /// # Errors
    ///
    /// Memory ran out.
    pub(crate) fn begin(&self, alloc: Global, events: &mut Vec<Event>) -> Result<(), AllocError> {
        let from = own_uri(alloc, self.local)?;
        let invite = self.plan.invite(alloc, from)?;
        events.push(Event::Command(UserCommand::Invite(invite)))?;
        Ok(())
    }

    /// Adds what it asks for when it is told this notice at the moment `now`.
    ///
    /// # Errors
    ///
    /// Memory ran out.
    pub(crate) fn told(
        &mut self,
        alloc: Global,
        now: u64,
        notice: &Notice,
        events: &mut Vec<Event>,
    ) -> Result<(), AllocError> {
        match notice {
            Notice::Request {
                call_id,
                id,
                method,
                ..
            } => return respond(alloc, call_id, *id, status_for(method.as_slice()), events),
            Notice::Response {
                id,
                status,
                remote_tag,
                body,
                ..
            } if *id == INVITE => {
                return self.responded(alloc, now, status.code(), remote_tag, body, events);
            }
            Notice::Timeout { id, .. } | Notice::Failed { id, .. } if *id == INVITE => {
                self.refused();
            }
            Notice::Ended { remote_tag, .. } => match &self.up {
                Some(up) if up.remote_tag == *remote_tag => self.up = None,
                _ => {}
            },
            _ => {}
        }
        Ok(())
    }

    /// Adds what it asks for by itself at the moment `now`, when this much time is left.
    ///
    /// # Errors
    ///
    /// Memory ran out.
    pub(crate) fn turn(
        &mut self,
        alloc: Global,
        now: u64,
        left: TimeLeft,
        events: &mut Vec<Event>,
    ) -> Result<(), AllocError> {
        self.leaves = self.leaves || matches!(left, TimeLeft::InputEnded);
        let is_leaving = self.leaves && !matches!(left, TimeLeft::More);
        match self.up.take() {
            Some(up) if is_leaving || up.due <= now => self.end(alloc, &up.remote_tag, events)?,
            up => self.up = up,
        }
        if is_leaving && matches!(self.stage, Stage::Asked) {
            self.stage = Stage::Cancelled;
            let cancel = Cancel {
                call_id: self.plan.call_id.clone()?,
                id: INVITE,
            };
            events.push(Event::Command(UserCommand::Cancel(cancel)))?;
        }
        Ok(())
    }

    /// Whether its call is over, and it wants no more turns.
    pub(crate) fn is_ending(&self) -> bool {
        self.leaves && matches!(self.stage, Stage::Answered | Stage::Refused)
    }

    /// Whether the call was answered, if it had to be.
    pub(crate) fn is_satisfied(&self) -> bool {
        !self.plan.must_answer || matches!(self.stage, Stage::Answered)
    }

    // A response to the INVITE came, with this status. The dialog of the first 2xx stays up, if the
    // plan says so.
    fn responded(
        &mut self,
        alloc: Global,
        now: u64,
        status: u16,
        remote_tag: &Text,
        body: &Text,
        events: &mut Vec<Event>,
    ) -> Result<(), AllocError> {
        let is_success = (200..=299).contains(&status);
        if status > 299 {
            self.refused();
        }
        if is_success || (status < 200 && self.plan.is_reliable) {
            self.answer_offer(alloc, is_success, remote_tag, body, events)?;
        }
        if !is_success {
            return Ok(());
        }
        match (
            self.plan.hold,
            mem::replace(&mut self.stage, Stage::Answered),
        ) {
            (Some(hold), Stage::Asked) => {
                self.up = Some(Up {
                    remote_tag: remote_tag.clone()?,
                    due: now.saturating_add(u64::from(hold)),
                });
                Ok(())
            }
            _ => self.end(alloc, remote_tag, events),
        }
    }

    // Ends the dialog with this remote tag.
    fn end(
        &self,
        alloc: Global,
        remote_tag: &Text,
        events: &mut Vec<Event>,
    ) -> Result<(), AllocError> {
        let call_id = &self.plan.call_id;
        end_dialog(alloc, call_id, &self.local_tag, remote_tag, events)
    }

    // Answers the offer of a response with this remote tag, if its body is one: in the ACK of a
    // 2xx, or in the PRACK of a provisional response. If the INVITE has a body, that is the
    // offer, and the body of its 2xx is the answer.
    fn answer_offer(
        &self,
        alloc: Global,
        is_success: bool,
        remote_tag: &Text,
        offer: &Text,
        events: &mut Vec<Event>,
    ) -> Result<(), AllocError> {
        if offer.is_empty() || !self.plan.body.is_empty() {
            return Ok(());
        }
        let call_id = self.plan.call_id.clone()?;
        let local_tag = Token::new(self.local_tag.clone()?);
        let remote_tag = Token::new(remote_tag.clone()?);
        let answer = sdp::inactive(alloc, self.local.ip, 0, offer.as_slice())?;
        let body = DialogBody {
            call_id,
            local_tag,
            remote_tag,
            content: Content::of_body(answer),
        };
        let command = if is_success {
            UserCommand::Ack(body)
        } else {
            UserCommand::Prack(body)
        };
        events.push(Event::Command(command))?;
        Ok(())
    }

    // If no answer has come so far, none will come.
    fn refused(&mut self) {
        if !matches!(self.stage, Stage::Answered) {
            self.stage = Stage::Refused;
        }
    }
}

// `sip:ua@` and the local IP.
fn own_uri(alloc: Global, local: Addr) -> Result<Uri, AllocError> {
    let [_a, _b, _c, _d] = local.ip;
    let mut text = Text::copy_of(alloc, b"sip:ua@")?;
    text.extend_from_slice(&ip_text(local.ip))?;
    Ok(Uri::from_text(text))
}
