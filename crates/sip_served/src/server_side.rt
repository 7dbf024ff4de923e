//! The server side of one Call-ID: what it holds, and how each item changes it.

ghost use Rattle.std.specs.Prelude.{◌≡◌, ◌≤◌, ◌^◌, [], ◌∷◌, ◌++◌, IfOk, OnOk, true, false, find};
ghost use Rattle.sip_held_dialogs.specs.Requests.{has_to_tag};
ghost use Rattle.sip_user.specs.declared.item.CallOut.TheVariants as call_out;
ghost use Rattle.sip_served.specs.Acknowledgment.{ack_taken};
ghost use Rattle.sip_served.specs.Arrival as arrived;
ghost use Rattle.sip_served.specs.Cancel as cancels;
ghost use Rattle.sip_served.specs.Respond as answers;
ghost use Rattle.sip_served.specs.Rules.Arrivals as rules;
ghost use Rattle.sip_served.specs.Rules.Responses.{respond_command};
ghost use Rattle.sip_served.specs.Rules.Ticks.{server_due, server_tick};
ghost use Rattle.sip_served.specs.State as state;
ghost use Rattle.sip_served.specs.Step as step;
ghost use Rattle.std.specs.Option.{option_map_or};
ghost use Rattle.sip_served.specs.State.{has_id};
ghost use Rattle.sip_served.specs.declared.held_request.HeldRequest.{HeldRequest};

use crate::arrival::{Arrival, ArrivalCase, case_inside, requires_unknown};
use crate::change::Change;
use crate::held_request::HeldRequest;
use crate::held_requests::HeldRequests;
use crate::incoming_cancel::{
    REQUEST_TERMINATED, cancel_accepted, is_unanswered_invite, request_terminated, termination_told,
};
use crate::outputs::{
    answered_with, bad_extension, merged_request, no_such_dialog, notice_of_request, ok_with_tag,
};
use crate::respond::{answer_dialogs, answer_to, refusal_for};
use seeded_hash::HashSeed;
use sip_held_dialogs::dialogs::{dialog_of_request, end, end_early, visit};
use sip_held_dialogs::request::{dialog_id_of, has_to_tag, is_bye, is_cancel, is_prack, own_tag};
use sip_held_dialogs::{DialogId, DialogReference, Dialogs};
use sip_message::{Addr, CallId, Id, Message, Token};
use sip_same::SameValue;
use sip_text::Boxed;
use sip_transactions::{Command, Up, UpKind};
use sip_user::outputs::{joined, one, refused, tell};
use sip_user::{CallOut, Item, Notice, Refusal, Reliability, Respond, UserCommand};
use std::alloc::{AllocError, Global};
use std::marker::Model;

/// The held requests in the order in which they came up, and the held dialogs in the order in which
/// they were made (RFC 3261, sections 8.2, 9.2, 12 and 13.3; RFC 3262, section 3).
///
/// If memory ran out in a call, it isn't known what is held.
pub struct ServerSide {
    alloc: Global,
    local: Addr,
    requests: HeldRequests,
    dialogs: Dialogs,
}

impl Model for ServerSide {
    ghost use Rattle.sip_served.specs.State.{State};

    ghost Value = { State };

    ghost view = { λ h. record {
      local = h.local;
      requests = h.requests;
      dialogs = h.dialogs.entries;
    } };
}

impl SameValue for ServerSide {
    fn is_same(&self, other: &ServerSide) -> bool {
        self.local.is_same(&other.local)
            && self.requests.is_same(&other.requests)
            && self.dialogs.is_same(&other.dialogs)
    }
}

impl ServerSide {
    ghost use Rattle.std.specs.Borrow.{sem};
    ghost use Rattle.sip_served.specs.Lending.{SideLends};
    ghost use Rattle.sip_served.specs.State.{State, empty_at};

    /// The server side of a Call-ID under which nothing is held, at the address `local`, with the
    /// seed of its hashes. Takes no memory.
    pub fn new(alloc: Global, local: Addr, hash_seed: HashSeed) -> ServerSide
        ensures { result ≡ empty_at local }
    {
        ServerSide {
            alloc,
            local,
            requests: HeldRequests::new(alloc),
            dialogs: Dialogs::new(alloc, hash_seed),
        }
    }

    /// The agent's own address. Takes no memory.
    pub(crate) fn local(&self) -> Addr
        ensures { result ≡ self.now.local }
    {
        self.local
    }

    /// Whether any request or dialog is held. Takes no memory.
    pub fn holds(&self) -> bool
        ensures { result ≡ state.holds self.now }
    {
        !self.requests.is_empty() || !self.dialogs.is_empty()
    }

    /// The first moment, in ms, at which a tick does something, if there is one. Takes no memory.
    #[tactic(auto, using(crate::proofs::TickRules::due_same))]
    pub fn next_due(&self) -> Option<u64>
        ensures { result ≡ server_due self.now }
    {
        self.requests.next_due()
    }

    /// The held dialogs, for writing. Takes no memory.
    pub fn dialogs(&mut self) -> &mut Dialogs
        ensures* writes_back { sem 𝓛 (SideLends self.entry result) }
        ensures value { result.now.entries ≡ self.old.dialogs }
    {
        &mut self.dialogs
    }

    /// Lets go of all that is held. Takes no memory.
    pub(crate) fn clear(&mut self, local: Addr)
        ensures { self.new ≡ empty_at local }
    {
        *self = ServerSide::new(self.alloc, local, self.dialogs.hash_seed());
    }

    /// Takes an item of the event of this id, at the moment `now` in ms. `tag` is the To tag for
    /// the answers to a request without one.
    pub(crate) fn item(
        &mut self,
        tag: Token,
        id: Id,
        item: Item,
        now: u64,
    ) -> Result<Vec<CallOut>, AllocError>
        requires { now ≤ 2 ^ 62 }
        ensures { IfOk result (λ outs. (self.new, outs.items)
            ≡ rules.server_item self.old tag id item now) }
    {
        match item {
            Item::Up(up) => self.come_up(tag, up, now),
            Item::User(UserCommand::Respond(respond)) => self.respond(id, respond, now),
            Item::User(_) => Ok(Vec::new(self.alloc)),
        }
    }

    // What a transaction hands up.
    fn come_up(&mut self, tag: Token, up: Up, now: u64) -> Result<Vec<CallOut>, AllocError>
        requires { now ≤ 2 ^ 62 }
        ensures { IfOk result (λ outs. (self.new, outs.items)
            ≡ rules.server_received self.old tag up up.kind now) }
    {
        let Up {
            key,
            id,
            call_id,
            kind,
        } = up;
        match kind {
            UpKind::Request(request, reply_to) => {
                let tag = own_tag(self.alloc, request.get())?.unwrap_or(tag);
                let arrival = Arrival {
                    id,
                    key,
                    request,
                    reply_to,
                    tag,
                };
                self.request(call_id, arrival, now)
            }
            UpKind::Ack(ack) => self.ack(call_id, ack.get()),
            UpKind::Response(_) | UpKind::Timeout | UpKind::Failed => Ok(Vec::new(self.alloc)),
        }
    }

    /// Takes a request that comes up, at the moment `now` in ms (RFC 3261, sections 8.2, 9.2 and
    /// 12.2.2). The Call-ID is that of its transaction.
    ///
    /// # Errors
    ///
    /// Want of memory.
    pub fn request(
        &mut self,
        call_id: CallId,
        arrival: Arrival,
        now: u64,
    ) -> Result<Vec<CallOut>, AllocError>
        requires { now ≤ 2 ^ 62 }
        ensures { IfOk result (λ outs. (self.new, outs.items)
            ≡ rules.request_received self.old call_id arrival now) }
    {
        if is_cancel(arrival.request.get()) {
            self.cancel(call_id, &arrival, now)
        } else {
            self.take_request(call_id, arrival)
        }
    }

    // A CANCEL.
    fn cancel(
        &mut self,
        call_id: CallId,
        arrival: &Arrival,
        now: u64,
    ) -> Result<Vec<CallOut>, AllocError>
        requires { now ≤ 2 ^ 62 }
        ensures { IfOk result (λ outs. (self.new, outs.items)
            ≡ cancels.cancel_taken self.old call_id arrival.now now) }
    {
        let Some(held) = self.requests.cancelled_request(arrival.key.get())? else {
            return no_such_dialog(self.alloc, arrival);
        };
        if !is_unanswered_invite(held) {
            return one(self.alloc, cancel_accepted(self.alloc, arrival, held)?);
        }
        let (invite, response) = (held.id, request_terminated(self.alloc, held)?);
        let told = termination_told(self.alloc, call_id, arrival, held, &response)?;
        let ended = self.terminate(invite, &response, now)?;
        joined(told, ended)
    }

    // The INVITE that a CANCEL names gets its final response, and its early dialogs end.
    fn terminate(
        &mut self,
        invite: Id,
        response: &Message,
        now: u64,
    ) -> Result<Vec<CallOut>, AllocError>
        requires { now ≤ 2 ^ 62 }
        ensures { IfOk result (λ outs. (self.new, outs.items)
            ≡ cancels.invite_terminated response.now invite now self.old) }
    {
        let change = Change::FinalResponse {
            response,
            status: REQUEST_TERMINATED,
            now,
        };
        self.requests.change(invite, change)?;
        end_early(self.alloc, &mut self.dialogs, invite)
    }

    // Any other request.
    fn take_request(
        &mut self,
        call_id: CallId,
        arrival: Arrival,
    ) -> Result<Vec<CallOut>, AllocError>
        ensures { IfOk result (λ outs. (self.new, outs.items)
            ≡ arrived.request_taken self.old call_id arrival) }
    {
        if has_to_tag(arrival.request.get()) {
            self.take_inside(call_id, arrival)
        } else {
            self.take_outside(call_id, arrival)
        }
    }

    // A request outside of any dialog: no dialog is looked up, so no name is made.
    #[tactic(auto, using(crate::proofs::Outside::merged_taken, crate::proofs::Outside::unknown_taken, crate::proofs::Outside::lone_taken, crate::proofs::Outside::user_taken))]
    fn take_outside(
        &mut self,
        call_id: CallId,
        arrival: Arrival,
    ) -> Result<Vec<CallOut>, AllocError>
        requires { has_to_tag arrival.request ≡ false }
        ensures { IfOk result (λ outs. (self.new, outs.items)
            ≡ arrived.request_taken self.old call_id arrival) }
    {
        let request = arrival.request.get();
        if self.requests.merges(request)? {
            merged_request(self.alloc, &arrival)
        } else if requires_unknown(request) {
            bad_extension(self.alloc, &arrival)
        } else if is_bye(request) || is_prack(request) {
            no_such_dialog(self.alloc, &arrival)
        } else {
            self.hold(call_id, None, arrival)
        }
    }

    // A request inside of a dialog.
    fn take_inside(&mut self, call_id: CallId, arrival: Arrival) -> Result<Vec<CallOut>, AllocError>
        requires { has_to_tag arrival.request ≡ true }
        ensures { IfOk result (λ outs. (self.new, outs.items)
            ≡ arrived.request_taken self.old call_id arrival) }
    {
        let request = arrival.request.get();
        let name = dialog_id_of(self.alloc, request, &arrival.tag)?;
        let case = case_inside(&self.requests, &self.dialogs, &name, request);
        self.by_case(case, call_id, name, arrival)
    }

    fn by_case(
        &mut self,
        case: ArrivalCase,
        call_id: CallId,
        name: DialogId,
        arrival: Arrival,
    ) -> Result<Vec<CallOut>, AllocError>
        ensures { IfOk result (λ outs. (self.new, outs.items)
            ≡ arrived.by_case case self.old call_id name arrival) }
    {
        match case {
            ArrivalCase::Merged => merged_request(self.alloc, &arrival),
            ArrivalCase::BadExtension => bad_extension(self.alloc, &arrival),
            ArrivalCase::NoDialog => no_such_dialog(self.alloc, &arrival),
            ArrivalCase::OutOfOrder => {
                answered_with(self.alloc, &arrival, 500, b"Server Internal Error")
            },
            ArrivalCase::Acknowledges(invite, rseq) => {
                self.note(&name, arrival.request.get())?;
                self.prack(call_id, &arrival, invite, rseq)
            }
            ArrivalCase::AcknowledgesNothing => {
                self.note(&name, arrival.request.get())?;
                no_such_dialog(self.alloc, &arrival)
            }
            ArrivalCase::ForUser => {
                self.note(&name, arrival.request.get())?;
                self.for_user(call_id, name, arrival)
            }
        }
    }

    // A request in a dialog is noted in that dialog.
    fn note(&mut self, name: &DialogId, request: &Message) -> Result<(), AllocError>
        ensures { OnOk result (self.new ≡ arrived.noted self.old name.now request.now) }
    {
        if has_to_tag(request) {
            visit(&mut self.dialogs, name, request)?;
        }
        Ok(())
    }

    // A PRACK that names a response that waits for it.
    fn prack(
        &mut self,
        call_id: CallId,
        arrival: &Arrival,
        invite: Id,
        rseq: u32,
    ) -> Result<Vec<CallOut>, AllocError>
        ensures { IfOk result (λ outs. (self.new, outs.items)
            ≡ arrived.prack_taken self.old call_id arrival.now invite rseq) }
    {
        let mut outs = one(self.alloc, ok_with_tag(self.alloc, arrival, &arrival.tag)?)?;
        outs.push(CallOut::Notice(Notice::Prack {
            call_id,
            id: invite,
            rseq,
            body: arrival.request.get().body.clone()?,
        }))?;
        self.requests.change(invite, Change::Prack { rseq })?;
        Ok(outs)
    }

    // A request for the user. A BYE ends its dialog.
    fn for_user(
        &mut self,
        call_id: CallId,
        name: DialogId,
        arrival: Arrival,
    ) -> Result<Vec<CallOut>, AllocError>
        ensures { IfOk result (λ outs. (self.new, outs.items)
            ≡ arrived.for_user self.old call_id name arrival) }
    {
        let ends = has_to_tag(arrival.request.get()) && is_bye(arrival.request.get());
        let dialog = dialog_of_request(&self.dialogs, arrival.request.get(), &name)?;
        let held = self.hold(call_id, dialog, arrival)?;
        if !ends {
            return Ok(held);
        }
        let ended = end(self.alloc, &mut self.dialogs, &name)?;
        joined(held, ended)
    }

    // Holds a request, as one of this dialog if there is one, and tells the user.
    fn hold(
        &mut self,
        call_id: CallId,
        dialog: Option<DialogReference>,
        arrival: Arrival,
    ) -> Result<Vec<CallOut>, AllocError>
        ensures held { OnOk result (self.new ≡ record self.old {
          requests = self.old.requests ++ arrived.held_first dialog arrival ∷ [];
        }) }
        ensures told { IfOk result (λ outs. outs.items
            ≡ call_out.Notice (arrived.request_notice call_id arrival) ∷ []) }
    {
        let notice = notice_of_request(self.alloc, call_id, &arrival)?;
        self.requests
            .push(HeldRequest::new(self.alloc, arrival, dialog))?;
        tell(self.alloc, notice)
    }

    /// Takes an ACK of a 2xx that comes up (RFC 3261, section 13.3.1.4). The Call-ID is that of its
    /// transaction.
    ///
    /// # Errors
    ///
    /// Want of memory.
    pub fn ack(&mut self, call_id: CallId, ack: &Message) -> Result<Vec<CallOut>, AllocError>
        ensures { IfOk result (λ outs. (self.new, outs.items)
            ≡ rules.ack_received self.old call_id ack.now) }
    {
        self.take_ack(call_id, ack)
    }

    // The ACK of a 2xx that waits for it, or another ACK.
    fn take_ack(&mut self, call_id: CallId, ack: &Message) -> Result<Vec<CallOut>, AllocError>
        ensures { IfOk result (λ outs. (self.new, outs.items)
            ≡ ack_taken self.old call_id ack.now) }
    {
        let Some(invite) = self.requests.acknowledged_invite(ack)? else {
            return Ok(Vec::new(self.alloc));
        };
        let body = ack.body.clone()?;
        self.requests.change(invite, Change::Ack)?;
        let notice = Notice::Ack {
            call_id,
            id: invite,
            body,
        };
        tell(self.alloc, notice)
    }

    /// Takes an answer of the user, in the event of this id, at the moment `now` in ms (RFC 3261,
    /// sections 8.2.6, 12.1.1 and 13.3.1).
    ///
    /// # Errors
    ///
    /// Want of memory.
    #[tactic(auto, using(crate::proofs::ResponseRules::respond_same))]
    pub fn respond(
        &mut self,
        event: Id,
        respond: Respond,
        now: u64,
    ) -> Result<Vec<CallOut>, AllocError>
        requires { now ≤ 2 ^ 62 }
        ensures { IfOk result (λ outs. (self.new, outs.items)
            ≡ respond_command self.old event respond now) }
    {
        let Some(held) = self.requests.get(respond.id) else {
            return refused(self.alloc, event, respond.call_id, Refusal::NoSuchRequest);
        };
        match refusal_for(&self.dialogs, &respond, held) {
            Some(refusal) => refused(self.alloc, event, respond.call_id, refusal),
            None => self.give(event, respond, now),
        }
    }

    // An answer to a held request goes out.
    fn give(&mut self, event: Id, respond: Respond, now: u64) -> Result<Vec<CallOut>, AllocError>
        requires moment { now ≤ 2 ^ 62 }
        requires low { 101 ≤ respond.status }
        requires high { respond.status ≤ 699 }
        ensures { IfOk result (λ outs. (self.new, outs.items)
            ≡ option_map_or (answers.answer_given self.old event respond now)
            (find (has_id respond.id) self.old.requests) (state.quiet self.old)) }
    {
        let (invite, status, reliability) = (respond.id, respond.status, respond.reliability);
        let Some(held) = self.requests.get(invite) else {
            return Ok(Vec::new(self.alloc));
        };
        let (id, key) = (held.id, held.key.clone()?);
        let response = answer_to(self.alloc, self.local, held, respond)?;
        let ends = self.note_answer(invite, event, status, reliability, &response, now)?;
        let message = Boxed::new(self.alloc, response)?;
        let command = CallOut::Command(id, Command::Answer { key, message });
        joined(one(self.alloc, command)?, ends)
    }

    // What is held after an answer to the request of this id, and the notices of the dialogs that
    // end.
    fn note_answer(
        &mut self,
        id: Id,
        event: Id,
        status: u16,
        reliability: Reliability,
        response: &Message,
        now: u64,
    ) -> Result<Vec<CallOut>, AllocError>
        requires moment { now ≤ 2 ^ 62 }
        requires low { 101 ≤ status }
        requires high { status ≤ 699 }
        ensures { IfOk result (λ outs. (self.new, outs.items) ≡ option_map_or
            (answers.answer_noted self.old id event status reliability response.now now)
            (find (has_id id) self.old.requests) (state.quiet self.old)) }
    {
        let Some(held) = self.requests.get(id) else {
            return Ok(Vec::new(self.alloc));
        };
        let ends = answer_dialogs(self.alloc, &mut self.dialogs, event, held, status, response)?;
        let change = Change::Answer {
            event,
            response,
            status,
            reliability,
            now,
        };
        self.requests.change(id, change)?;
        Ok(ends)
    }

    /// Does what is due at the moment `now`, in ms (RFC 3261, section 13.3.1.4; RFC 3262, section
    /// 3).
    ///
    /// # Errors
    ///
    /// Want of memory.
    pub fn tick(&mut self, now: u64) -> Result<Vec<CallOut>, AllocError>
        requires { now ≤ 2 ^ 62 }
        ensures { IfOk result (λ outs. (self.new, outs.items) ≡ server_tick self.old now) }
    {
        let mut outs = Vec::new(self.alloc);
        self.requests.tick(now, &mut outs)?;
        Ok(outs)
    }
}

impl Drop for ServerSide {
    fn drop(self) {
        let ServerSide {
            alloc: _,
            local: _,
            requests: _,
            dialogs: _,
        } = self;
    }
}
