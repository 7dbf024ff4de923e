//! The client requests of one Call-ID.

ghost use Rattle.std.specs.Prelude.{◌≡◌, ◌≤◌, ◌==◌, ◌^◌, [], IfOk, OnErr, OnOk, length};
ghost use Rattle.sip_held_dialogs.specs.Dialogs as held;
ghost use Rattle.sip_clients.specs.Clients as spec;
ghost use Rattle.sip_clients.specs.Rules.Abandon.{abandon_dialog_command, abandon_request_command};
ghost use Rattle.sip_clients.specs.Rules.Ends as ends;
ghost use Rattle.sip_clients.specs.Rules.Requests as requests;
ghost use Rattle.sip_clients.specs.Rules.Responses.{response_received};

use crate::abandon::{abandon_dialog, abandon_request};
use crate::cancel_command::take_cancel;
use crate::client::{RequestKind, client_for};
use crate::client_map::ClientMap;
use crate::commands::{ack_told, is_bad_outside, name_in, pending_for, prack_told, request_told};
use crate::event::Event;
use crate::held::{fail_request, note_ack, settle, start, take_response};
use crate::outputs::ClientChange;
use crate::outside::{invite_of, plain_of};
use crate::pending::PendingKind;
use crate::tick::{drop_clients, drop_dialogs, over_notices};
use sip_held_dialogs::{DialogId, Dialogs, PendingRequest};
use sip_message::{CallId, Id, Message};
use sip_same::SameValue;
use sip_user::outputs::refused;
use sip_user::{
    AbandonDialog, AbandonRequest, CallOut, Cancel, DialogBody, DialogRequest, Invite, Plain,
    Refusal,
};
use std::alloc::{AllocError, Global};
use std::marker::Model;

/// The held requests that were sent under one Call-ID, in the order in which they were sent. They
/// change the dialogs of the Call-ID that are handed in (RFC 3261, sections 8.1, 12.2.1, 13.2 and
/// 17.1; RFC 3262, section 4).
///
/// After memory ran out no request is held, and it isn't known what was done to the dialogs.
pub struct Clients {
    alloc: Global,
    requests: ClientMap,
}

impl Model for Clients {
    ghost use Rattle.std.specs.Prelude.{List};
    ghost use Rattle.sip_message.specs.declared.id.Id.{Id};
    ghost use Rattle.sip_clients.specs.declared.client.Client.{Client};

    ghost Value = { List (Id × Client) };

    ghost view = { λ c. c.requests.entries };
}

impl Clients {
    /// No request. Takes no memory.
    pub fn new(alloc: Global) -> Clients
        ensures { result ≡ [] }
    {
        Clients {
            alloc,
            requests: ClientMap::new(alloc),
        }
    }

    /// Whether no request is held. Takes no memory.
    pub fn is_empty(&self) -> bool
        ensures { result ≡ (length self.now == 0) }
    {
        self.requests.is_empty()
    }

    /// The first moment, in ms, at which a tick does something, if there is one. Takes no memory.
    #[tactic(auto, using(crate::proofs::RuleEnds::removal_same))]
    pub fn next_due(&self) -> Option<u64>
        ensures { result ≡ ends.client_due self.now }
    {
        self.requests.next_due()
    }

    // The requests, to be put back once all is done.
    fn take(&mut self) -> ClientMap
        ensures requests { result.entries ≡ self.old }
        ensures nothing { self.new ≡ [] }
    {
        self.requests.take()
    }

    /// The moment `now`, in ms, has come: INVITEs are removed 64*T1 after their first 2xx, and
    /// those of their dialogs that are still early end.
    pub fn tick(&mut self, dialogs: &mut Dialogs, now: u64) -> Result<Vec<CallOut>, AllocError>
        ensures taken { IfOk result (λ outs.
            (record { dialogs = dialogs.new.entries; clients = self.new }, outs.items)
            ≡ ends.client_tick record { dialogs = dialogs.old.entries; clients = self.old }
            now) }
        ensures err { OnErr result (self.new ≡ []) }
    {
        // Most ticks are for the server side: they look at no dialog.
        if !self.requests.is_any_over(now) {
            return Ok(Vec::new(self.alloc));
        }
        let mut requests = self.take().into_list()?;
        let mut list = dialogs.take().into_list()?;
        let outs = over_notices(self.alloc, &list, &requests, now)?;
        drop_dialogs(self.alloc, &mut list, &requests, now)?;
        *dialogs = Dialogs::of_list(self.alloc, list)?;
        drop_clients(&mut requests, now);
        self.requests = ClientMap::of_list(self.alloc, requests)?;
        Ok(outs)
    }

    // ---- responses

    /// A response to the request that the event `id` sent comes up (RFC 3261, sections 12.2.1.2 and
    /// 13.2.2).
    pub fn response(
        &mut self,
        dialogs: &mut Dialogs,
        event: Event,
        id: Id,
        call_id: CallId,
        response: Message,
    ) -> Result<Vec<CallOut>, AllocError>
        requires { event.moment ≤ 2 ^ 62 }
        ensures taken { IfOk result (λ outs.
            (record { dialogs = dialogs.new.entries; clients = self.new }, outs.items)
            ≡ response_received event id call_id response
            record { dialogs = dialogs.old.entries; clients = self.old }) }
        ensures err { OnErr result (self.new ≡ []) }
    {
        let alloc = self.alloc;
        let mut requests = self.take();
        let outs = take_response(alloc, &mut requests, dialogs, event, id, call_id, response)?;
        self.requests = requests;
        Ok(outs)
    }

    /// The transaction of the request that the event `id` sent timed out, or its message could not
    /// be sent: it is no longer held. The early dialogs that it made end. If it timed out, the
    /// dialog that it was sent in ends too (RFC 3261, section 12.2.1.2).
    pub fn fail_request(
        &mut self,
        dialogs: &mut Dialogs,
        id: Id,
        timed_out: bool,
    ) -> Result<Vec<CallOut>, AllocError>
        ensures taken { IfOk result (λ outs.
            (record { dialogs = dialogs.new.entries; clients = self.new }, outs.items)
            ≡ ends.request_is_lost id timed_out record {
              dialogs = dialogs.old.entries;
              clients = self.old;
            }) }
        ensures err { OnErr result (self.new ≡ []) }
    {
        let mut requests = self.take();
        let outs = fail_request(self.alloc, &mut requests, dialogs, id, timed_out)?;
        self.requests = requests;
        Ok(outs)
    }

    // ---- commands

    /// The user starts the call by an INVITE (RFC 3261, section 13.2.1).
    pub fn invite(&mut self, event: Event, invite: &Invite) -> Result<Vec<CallOut>, AllocError>
        ensures taken { IfOk result (λ outs. (self.new, outs.items)
            ≡ requests.invite_command event invite.now self.old) }
        ensures err { OnErr result (self.new ≡ []) }
    {
        let alloc = self.alloc;
        let mut requests = self.take();
        let message = invite_of(alloc, event, invite)?;
        let client = client_for(
            alloc,
            event.hash_seed(),
            event.id,
            RequestKind::InitialInvite,
            message,
            invite.address,
        );
        let outs = start(alloc, &mut requests, event, client)?;
        self.requests = requests;
        Ok(outs)
    }

    /// The user sends a request outside of dialogs (RFC 3261, section 8.1.1).
    pub fn plain(&mut self, event: Event, plain: &Plain) -> Result<Vec<CallOut>, AllocError>
        ensures taken { IfOk result (λ outs. (self.new, outs.items)
            ≡ requests.plain_command event plain.now self.old) }
        ensures err { OnErr result (self.new ≡ []) }
    {
        let mut requests = self.take();
        let outs = plain_told(self.alloc, &mut requests, event, plain)?;
        self.requests = requests;
        Ok(outs)
    }

    /// The user sends a request in a dialog (RFC 3261, sections 12.2.1.1, 14.1 and 15.1.1).
    pub fn request(
        &mut self,
        dialogs: &mut Dialogs,
        event: Event,
        command: &DialogRequest,
    ) -> Result<Vec<CallOut>, AllocError>
        ensures taken { IfOk result (λ outs.
            (record { dialogs = dialogs.new.entries; clients = self.new }, outs.items)
            ≡ requests.request_command event command.now
            record { dialogs = dialogs.old.entries; clients = self.old }) }
        ensures err { OnErr result (self.new ≡ []) }
    {
        let alloc = self.alloc;
        let mut requests = self.take();
        let name = name_in(alloc, &command.local_tag, &command.remote_tag)?;
        let told = request_told(alloc, dialogs, event, &name, command)?;
        let outs = finish_request(alloc, &mut requests, event, told)?;
        self.requests = requests;
        Ok(outs)
    }

    /// The user cancels an INVITE: at once if a provisional response to it came, otherwise when the
    /// first one comes (RFC 3261, section 9.1).
    pub fn cancel(&mut self, event: Event, command: &Cancel) -> Result<Vec<CallOut>, AllocError>
        ensures taken { IfOk result (λ outs. (dialogs : held.Dialogs)
            → (record { dialogs = dialogs; clients = self.new }, outs.items)
            ≡ requests.cancel_command event command.now
            record { dialogs = dialogs; clients = self.old }) }
        ensures err { OnErr result (self.new ≡ []) }
    {
        let mut requests = self.take();
        let outs = take_cancel(self.alloc, &mut requests, event, command)?;
        self.requests = requests;
        Ok(outs)
    }

    /// The user gives the ACK of the oldest 2xx of a dialog that waits for it (RFC 3261, section
    /// 13.2.2.4).
    pub fn ack(
        &mut self,
        dialogs: &mut Dialogs,
        event: Event,
        command: &DialogBody,
    ) -> Result<Vec<CallOut>, AllocError>
        ensures taken { IfOk result (λ outs.
            (record { dialogs = dialogs.new.entries; clients = self.new }, outs.items)
            ≡ requests.ack_command event command.now
            record { dialogs = dialogs.old.entries; clients = self.old }) }
        ensures err { OnErr result (self.new ≡ []) }
    {
        let mut requests = self.take();
        let outs = take_ack(self.alloc, &mut requests, dialogs, event, command)?;
        self.requests = requests;
        Ok(outs)
    }

    /// The user gives the PRACK of the oldest reliable provisional response of a dialog that waits
    /// for it (RFC 3262, section 4).
    pub fn prack(
        &mut self,
        dialogs: &mut Dialogs,
        event: Event,
        command: &DialogBody,
    ) -> Result<Vec<CallOut>, AllocError>
        ensures taken { IfOk result (λ outs.
            (record { dialogs = dialogs.new.entries; clients = self.new }, outs.items)
            ≡ requests.prack_command event command.now
            record { dialogs = dialogs.old.entries; clients = self.old }) }
        ensures err { OnErr result (self.new ≡ []) }
    {
        let mut requests = self.take();
        let outs = take_prack(self.alloc, &mut requests, dialogs, event, command)?;
        self.requests = requests;
        Ok(outs)
    }

    // ---- giving up

    /// The user gives a request up: it is no longer held, and its transaction ends. The early
    /// dialogs that it made end.
    pub fn abandon_request(
        &mut self,
        dialogs: &mut Dialogs,
        event: Event,
        command: &AbandonRequest,
    ) -> Result<Vec<CallOut>, AllocError>
        ensures taken { IfOk result (λ outs.
            (record { dialogs = dialogs.new.entries; clients = self.new }, outs.items)
            ≡ abandon_request_command event command.now
            record { dialogs = dialogs.old.entries; clients = self.old }) }
        ensures err { OnErr result (self.new ≡ []) }
    {
        let mut requests = self.take();
        let outs = abandon_request(self.alloc, &mut requests, dialogs, event, command)?;
        self.requests = requests;
        Ok(outs)
    }

    /// The user gives a dialog up: it ends, and nothing is sent.
    pub fn abandon_dialog(
        &mut self,
        dialogs: &mut Dialogs,
        event: Event,
        command: &AbandonDialog,
    ) -> Result<Vec<CallOut>, AllocError>
        ensures taken { IfOk result (λ outs.
            (record { dialogs = dialogs.new.entries; clients = self.new }, outs.items)
            ≡ abandon_dialog_command event command.now
            record { dialogs = dialogs.old.entries; clients = self.old }) }
        ensures err { OnErr result (self.new ≡ []) }
    {
        let requests = self.take();
        let outs = abandon_dialog(self.alloc, dialogs, event, command)?;
        self.requests = requests;
        Ok(outs)
    }
}

impl SameValue for Clients {
    fn is_same(&self, other: &Clients) -> bool {
        self.requests.is_same(&other.requests)
    }
}

impl Drop for Clients {
    fn drop(self) {
        let Clients {
            alloc: _,
            requests: _,
        } = self;
    }
}

// A request outside of dialogs is sent, or its method is refused.
fn plain_told(
    alloc: Global,
    requests: &mut ClientMap,
    event: Event,
    plain: &Plain,
) -> Result<Vec<CallOut>, AllocError>
    ensures { IfOk result (λ outs. (requests.new.entries, outs.items)
        ≡ spec.plain_taken event plain.now requests.old.entries) }
{
    if is_bad_outside(&plain.method) {
        return refused(alloc, event.id, plain.call_id.clone()?, Refusal::BadMethod);
    }
    let message = plain_of(alloc, event, plain)?;
    let client = client_for(
        alloc,
        event.hash_seed(),
        event.id,
        RequestKind::OutOfDialog,
        message,
        plain.address,
    );
    start(alloc, requests, event, client)
}

// The requests after one in a dialog, and the outputs in their order.
fn finish_request(
    alloc: Global,
    requests: &mut ClientMap,
    event: Event,
    told: (Vec<CallOut>, ClientChange, Vec<CallOut>),
) -> Result<Vec<CallOut>, AllocError>
    ensures { IfOk result (λ outs. (requests.new.entries, outs.items)
        ≡ spec.request_settled event told.0.items told.1 told.2.items requests.old.entries) }
{
    let (mut outs, change, mut ends) = told;
    outs.append(&mut settle(alloc, requests, event, event.id, change)?)?;
    outs.append(&mut ends)?;
    Ok(outs)
}

// Sends an ACK, or tells why not.
fn take_ack(
    alloc: Global,
    requests: &mut ClientMap,
    dialogs: &mut Dialogs,
    event: Event,
    command: &DialogBody,
) -> Result<Vec<CallOut>, AllocError>
    ensures { IfOk result (λ outs.
        (record { dialogs = dialogs.new.entries; clients = requests.new.entries }, outs.items)
        ≡ spec.ack_by_user event command.now
        record { dialogs = dialogs.old.entries; clients = requests.old.entries }) }
{
    let name = name_in(alloc, &command.local_tag, &command.remote_tag)?;
    match pending_for(dialogs, &name, PendingKind::Ack) {
        Err(refusal) => refused(alloc, event.id, command.call_id.clone()?, refusal),
        Ok(pending) => pay_ack(alloc, requests, dialogs, event, name, command, pending),
    }
}

fn pay_ack(
    alloc: Global,
    requests: &mut ClientMap,
    dialogs: &mut Dialogs,
    event: Event,
    name: DialogId,
    command: &DialogBody,
    pending: PendingRequest,
) -> Result<Vec<CallOut>, AllocError>
    ensures { IfOk result (λ outs.
        (record { dialogs = dialogs.new.entries; clients = requests.new.entries }, outs.items)
        ≡ spec.ack_paid event command.now name pending
        record { dialogs = dialogs.old.entries; clients = requests.old.entries }) }
{
    let (outs, ack) = ack_told(alloc, dialogs, event, &name, command, pending)?;
    note_ack(requests, pending, name, ack)?;
    Ok(outs)
}

// Sends a PRACK, or tells why not.
fn take_prack(
    alloc: Global,
    requests: &mut ClientMap,
    dialogs: &mut Dialogs,
    event: Event,
    command: &DialogBody,
) -> Result<Vec<CallOut>, AllocError>
    ensures { IfOk result (λ outs.
        (record { dialogs = dialogs.new.entries; clients = requests.new.entries }, outs.items)
        ≡ spec.prack_by_user event command.now
        record { dialogs = dialogs.old.entries; clients = requests.old.entries }) }
{
    let name = name_in(alloc, &command.local_tag, &command.remote_tag)?;
    match pending_for(dialogs, &name, PendingKind::Prack) {
        Err(refusal) => refused(alloc, event.id, command.call_id.clone()?, refusal),
        Ok(pending) => pay_prack(alloc, requests, dialogs, event, name, command, pending),
    }
}

fn pay_prack(
    alloc: Global,
    requests: &mut ClientMap,
    dialogs: &mut Dialogs,
    event: Event,
    name: DialogId,
    command: &DialogBody,
    pending: PendingRequest,
) -> Result<Vec<CallOut>, AllocError>
    ensures { IfOk result (λ outs.
        (record { dialogs = dialogs.new.entries; clients = requests.new.entries }, outs.items)
        ≡ spec.prack_paid event command.now name pending
        record { dialogs = dialogs.old.entries; clients = requests.old.entries }) }
{
    let (mut outs, change) = prack_told(alloc, dialogs, event, &name, command, pending)?;
    outs.append(&mut settle(alloc, requests, event, event.id, change)?)?;
    Ok(outs)
}
