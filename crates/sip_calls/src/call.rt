//! One call.

ghost use Rattle.std.specs.Prelude.{◌≡◌, ◌≤◌, ◌^◌, IfOk};
ghost use Rattle.sip_timers.specs.Earlier as timers;
ghost use Rattle.sip_served.specs.Rules.Ticks.{server_due};
ghost use Rattle.sip_clients.specs.Rules.Abandon.{abandon_dialog_command, abandon_request_command};
ghost use Rattle.sip_clients.specs.Rules.Ends.{request_is_lost, client_due, client_tick};
ghost use Rattle.sip_clients.specs.Rules.Requests as requests;
ghost use Rattle.sip_clients.specs.Rules.Responses.{response_received};
ghost use Rattle.sip_calls.specs.Call.{call_tick};
ghost use Rattle.sip_calls.specs.Sides as spec;

use sip_clients::{Clients, Event};
use sip_message::{CallId, Id, Message};
use sip_served::ServerSide;
use sip_timers::earlier;
use sip_user::{AbandonDialog, AbandonRequest, CallOut, Cancel, DialogBody, DialogRequest};
use std::alloc::{AllocError, Global};

/// All that is held under one Call-ID: the server requests and the dialogs, and the client
/// requests.
pub struct Call {
    pub served: ServerSide,
    pub clients: Clients,
}

impl Call {
    /// Whether anything is held.
    pub(crate) fn holds(&self) -> bool
        ensures { result ≡ spec.holds_any self.now }
    {
        self.served.holds() || !self.clients.is_empty()
    }

    /// The first moment, in ms, at which something is due.
    pub(crate) fn next_due(&self) -> Option<u64>
        ensures { result
            ≡ timers.earlier (server_due self.now.served) (client_due self.now.clients) }
    {
        earlier(self.served.next_due(), self.clients.next_due())
    }

    /// The moment `now`, in ms, has come, first for the server side.
    pub(crate) fn tick(&mut self, now: u64) -> Result<Vec<CallOut>, AllocError>
        requires { now ≤ 2 ^ 62 }
        ensures { IfOk result (λ outs. (self.new, outs.items) ≡ call_tick self.old now) }
    {
        let mut outs = self.served.tick(now)?;
        outs.append(&mut self.tick_clients(now)?)?;
        Ok(outs)
    }

    // ---- the client side

    fn tick_clients(&mut self, now: u64) -> Result<Vec<CallOut>, AllocError>
        ensures { IfOk result (λ outs. (self.new, outs.items)
            ≡ spec.by_clients self.old (client_tick (spec.side_of self.old) now)) }
    {
        self.clients.tick(self.served.dialogs(), now)
    }

    /// A response to the request that the event `id` sent comes up.
    pub(crate) fn response(
        &mut self,
        event: Event,
        id: Id,
        call_id: CallId,
        response: Message,
    ) -> Result<Vec<CallOut>, AllocError>
        requires { event.moment ≤ 2 ^ 62 }
        ensures { IfOk result (λ outs. (self.new, outs.items)
            ≡ spec.by_clients self.old (response_received event id call_id response
            (spec.side_of self.old))) }
    {
        self.clients
            .response(self.served.dialogs(), event, id, call_id, response)
    }

    /// The transaction of the request that the event `id` sent is lost.
    pub(crate) fn fail_request(
        &mut self,
        id: Id,
        timed_out: bool,
    ) -> Result<Vec<CallOut>, AllocError>
        ensures { IfOk result (λ outs. (self.new, outs.items)
            ≡ spec.by_clients self.old (request_is_lost id timed_out
            (spec.side_of self.old))) }
    {
        self.clients
            .fail_request(self.served.dialogs(), id, timed_out)
    }

    /// The user sends a request in a dialog.
    pub(crate) fn request(
        &mut self,
        event: Event,
        command: &DialogRequest,
    ) -> Result<Vec<CallOut>, AllocError>
        ensures { IfOk result (λ outs. (self.new, outs.items)
            ≡ spec.by_clients self.old (requests.request_command event command.now
            (spec.side_of self.old))) }
    {
        self.clients.request(self.served.dialogs(), event, command)
    }

    /// The user gives an ACK.
    pub(crate) fn ack(
        &mut self,
        event: Event,
        command: &DialogBody,
    ) -> Result<Vec<CallOut>, AllocError>
        ensures { IfOk result (λ outs. (self.new, outs.items)
            ≡ spec.by_clients self.old (requests.ack_command event command.now
            (spec.side_of self.old))) }
    {
        self.clients.ack(self.served.dialogs(), event, command)
    }

    /// The user gives a PRACK.
    pub(crate) fn prack(
        &mut self,
        event: Event,
        command: &DialogBody,
    ) -> Result<Vec<CallOut>, AllocError>
        ensures { IfOk result (λ outs. (self.new, outs.items)
            ≡ spec.by_clients self.old (requests.prack_command event command.now
            (spec.side_of self.old))) }
    {
        self.clients.prack(self.served.dialogs(), event, command)
    }

    /// The user cancels an INVITE.
    pub(crate) fn cancel(
        &mut self,
        event: Event,
        command: &Cancel,
    ) -> Result<Vec<CallOut>, AllocError>
        ensures { IfOk result (λ outs. (self.new, outs.items)
            ≡ spec.by_clients self.old (requests.cancel_command event command.now
            (spec.side_of self.old))) }
    {
        self.clients.cancel(event, command)
    }

    /// The user gives a client request up.
    pub(crate) fn abandon_request(
        &mut self,
        event: Event,
        command: &AbandonRequest,
    ) -> Result<Vec<CallOut>, AllocError>
        ensures { IfOk result (λ outs. (self.new, outs.items)
            ≡ spec.by_clients self.old (abandon_request_command event command.now
            (spec.side_of self.old))) }
    {
        self.clients
            .abandon_request(self.served.dialogs(), event, command)
    }

    /// The user gives a dialog up.
    pub(crate) fn abandon_dialog(
        &mut self,
        event: Event,
        command: &AbandonDialog,
    ) -> Result<Vec<CallOut>, AllocError>
        ensures { IfOk result (λ outs. (self.new, outs.items)
            ≡ spec.by_clients self.old (abandon_dialog_command event command.now
            (spec.side_of self.old))) }
    {
        self.clients
            .abandon_dialog(self.served.dialogs(), event, command)
    }
}

impl Drop for Call {
    fn drop(self) {
        let Call {
            served: _,
            clients: _,
        } = self;
    }
}
