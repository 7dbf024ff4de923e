//! Laws of made names, of ticks, and of the Call-ID of what is held and told.

ghost use Rattle.std.specs.Prelude.{◌≡◌, ℕ, Bool, List, Option, Some, false};
ghost use Rattle.sip_message.specs.Content.{Content};
ghost use Rattle.sip_message.specs.declared.id.Id.{Id};
ghost use Rattle.sip_message.specs.declared.message.Message.{Message};
ghost use Rattle.sip_message.specs.declared.rack.RAck.{RAck};
ghost use Rattle.sip_message.specs.TopVia.{top_via};
ghost use Rattle.sip_timers.specs.Queue.{is_due};
ghost use Rattle.sip_dialog.specs.Request.{agent_via};
ghost use Rattle.sip_user.specs.declared.command.AbandonDialog.{AbandonDialog};
ghost use Rattle.sip_user.specs.declared.command.AbandonRequest.{AbandonRequest};
ghost use Rattle.sip_user.specs.declared.command.Cancel.{Cancel};
ghost use Rattle.sip_user.specs.declared.command.DialogBody.{DialogBody};
ghost use Rattle.sip_user.specs.declared.command.DialogRequest.{DialogRequest};
ghost use Rattle.sip_user.specs.declared.command.Invite.{Invite};
ghost use Rattle.sip_user.specs.declared.command.Plain.{Plain};
ghost use Rattle.sip_held_dialogs.specs.declared.held_dialog.HeldDialog.{HeldDialog};
ghost use Rattle.sip_clients.specs.declared.client.Client.{Client};
ghost use Rattle.sip_clients.specs.declared.event.Event.{Event};
ghost use Rattle.sip_clients.specs.Abandon.{dialog_abandoned, request_abandoned};
ghost use Rattle.sip_clients.specs.Cancel.{cancel_by_user, cancel_client};
ghost use Rattle.sip_clients.specs.Client.{Side, nothing_done};
ghost use Rattle.sip_clients.specs.ClientRules.{HoldsRules, KeepsWaiting, SendsByStatus, SendsNoAck, SendsNoCancel};
ghost use Rattle.sip_clients.specs.ClientTelling.{HoldsStories, abandon_told, ack_told, cancel_told, in_dialog_told, invite_told, lost_told, plain_told, response_told, ticked_told};
ghost use Rattle.sip_clients.specs.Clients.{ack_by_user, invite_taken, request_lost, plain_taken, prack_by_user, request_by_user, response_taken};
ghost use Rattle.sip_clients.specs.Commands.{name_in};
ghost use Rattle.sip_clients.specs.Event.{branch_of};
ghost use Rattle.sip_clients.specs.Name.{NamesDiffer};
ghost use Rattle.sip_clients.specs.Outside.{invite_of, plain_of};
ghost use Rattle.sip_clients.specs.SendOutcome.{sending_in};
ghost use Rattle.sip_clients.specs.OwnCall.{KeepsTo, on_side};
ghost use Rattle.sip_clients.specs.Tick.{next_removal, clients_ticked};

/// Names of different rounds, places or indexes differ, whatever the seeds are.
pub fn names_differ()
    ensures { NamesDiffer }
{}

/// The top Via of a request that is made has the branch that its event makes (RFC 3261, section
/// 8.1.1.7). The top Via of a CANCEL is that of its INVITE (section 9.1). The transaction of each
/// is started with that branch.
pub fn each_request_has_its_branch()
    ensures invite { (event : Event) (invite : Invite)
        → top_via (invite_of event invite) ≡ Some (agent_via event.local (branch_of event)) }
    ensures plain { (event : Event) (plain : Plain)
        → top_via (plain_of event plain) ≡ Some (agent_via event.local (branch_of event)) }
    ensures request { (event : Event) (method : List ℕ) (rack : Option RAck) (content : Content)
        (held : HeldDialog) → top_via (sending_in event method rack content held).message
        ≡ Some (agent_via event.local (branch_of event)) }
    ensures cancel { (id : Id) (invite : Client)
        → top_via (cancel_client id invite).request ≡ top_via invite.request }
{}

/// Before the moment at which an INVITE is removed, a tick does nothing and says nothing.
pub fn quiet_until_due()
    ensures { (side : Side) (now : ℕ) → is_due now (next_removal side.clients) ≡ false
        → clients_ticked side now ≡ nothing_done side }
{}

/// If each held dialog, and the request of each held client request, has the Call-ID of its call,
/// this is still true after a response, the loss of a request, a command of the user or a tick.
/// Each notice has it too (RFC 3261, sections 8.1.1.4, 9.1, 12.1.2 and 12.2.1.1).
pub fn each_notice_is_of_its_call()
    ensures response { (event : Event) (id : Id) (call_id : List ℕ) (response : Message)
        → KeepsTo call_id (response_taken event id call_id response) }
    ensures lost { (call_id : List ℕ) (id : Id) (timed_out : Bool)
        → KeepsTo call_id (request_lost id timed_out) }
    ensures invite { (event : Event) (invite : Invite)
        → KeepsTo invite.call_id (on_side (invite_taken event invite)) }
    ensures plain { (event : Event) (plain : Plain)
        → KeepsTo plain.call_id (on_side (plain_taken event plain)) }
    ensures request { (event : Event) (command : DialogRequest)
        → KeepsTo command.call_id (request_by_user event command) }
    ensures ack { (event : Event) (command : DialogBody)
        → KeepsTo command.call_id (ack_by_user event command) }
    ensures prack { (event : Event) (command : DialogBody)
        → KeepsTo command.call_id (prack_by_user event command) }
    ensures cancel { (event : Event) (command : Cancel)
        → KeepsTo command.call_id (cancel_by_user event command) }
    ensures abandon_request { (event : Event) (command : AbandonRequest)
        → KeepsTo command.call_id (request_abandoned event command) }
    ensures abandon_dialog { (event : Event) (command : AbandonDialog)
        → KeepsTo command.call_id (dialog_abandoned event command) }
    ensures tick { (call_id : List ℕ) (now : ℕ) → KeepsTo call_id
        (λ side. clients_ticked side now) }
{}

/// If each held client request is what its story says, this is still true after a response, the
/// loss of a request, a command of the user or a tick. What these add to the stories follows from
/// what comes and what goes out (RFC 3261, sections 9.1, 13.2.2.4 and 17.1.1; RFC 3262, section 4).
pub fn each_client_request_is_told()
    ensures response { (event : Event) (id : Id) (call_id : List ℕ) (response : Message)
        → HoldsStories (response_taken event id call_id response)
        (λ side outs stories. response_told event id response side outs stories) }
    ensures lost { (id : Id) (timed_out : Bool) → HoldsStories (request_lost id timed_out)
        (λ side outs stories. lost_told id stories) }
    ensures invite { (event : Event) (invite : Invite)
        → HoldsStories (on_side (invite_taken event invite))
        (λ side outs stories. invite_told outs stories) }
    ensures plain { (event : Event) (plain : Plain)
        → HoldsStories (on_side (plain_taken event plain))
        (λ side outs stories. plain_told outs stories) }
    ensures request { (event : Event) (command : DialogRequest)
        → HoldsStories (request_by_user event command) (λ side outs stories.
        in_dialog_told event (name_in command.local_tag command.remote_tag) side outs stories) }
    ensures ack { (event : Event) (command : DialogBody)
        → HoldsStories (ack_by_user event command)
        (λ side outs stories. ack_told command side outs stories) }
    ensures prack { (event : Event) (command : DialogBody)
        → HoldsStories (prack_by_user event command) (λ side outs stories.
        in_dialog_told event (name_in command.local_tag command.remote_tag) side outs stories) }
    ensures cancel { (event : Event) (command : Cancel)
        → HoldsStories (cancel_by_user event command)
        (λ side outs stories. cancel_told event command outs stories) }
    ensures abandon_request { (event : Event) (command : AbandonRequest)
        → HoldsStories (request_abandoned event command)
        (λ side outs stories. abandon_told command outs stories) }
    ensures abandon_dialog { (event : Event) (command : AbandonDialog)
        → HoldsStories (dialog_abandoned event command) (λ side outs stories. stories) }
    ensures tick { (now : ℕ) → HoldsStories (λ side. clients_ticked side now)
        (λ side outs stories. ticked_told now stories) }
{}

/// In the story of each held client request, what happens is allowed by what happened before; this
/// is still true after each step. A CANCEL goes out once, after a provisional response and before
/// any 2xx, under the id of the first command that asked for it, with the branch and the address of
/// its INVITE (RFC 3261, section 9.1). An ACK that answers a retransmitted 2xx has the same bytes,
/// and goes to the same address, as the one that went out for it (section 13.2.2.4).
pub fn each_client_request_keeps_the_rules()
    ensures response { (event : Event) (id : Id) (call_id : List ℕ) (response : Message)
        → HoldsRules (response_taken event id call_id response)
        (λ side outs stories. response_told event id response side outs stories) }
    ensures lost { (id : Id) (timed_out : Bool) → HoldsRules (request_lost id timed_out)
        (λ side outs stories. lost_told id stories) }
    ensures invite { (event : Event) (invite : Invite)
        → HoldsRules (on_side (invite_taken event invite))
        (λ side outs stories. invite_told outs stories) }
    ensures plain { (event : Event) (plain : Plain)
        → HoldsRules (on_side (plain_taken event plain))
        (λ side outs stories. plain_told outs stories) }
    ensures request { (event : Event) (command : DialogRequest)
        → HoldsRules (request_by_user event command) (λ side outs stories.
        in_dialog_told event (name_in command.local_tag command.remote_tag) side outs stories) }
    ensures ack { (event : Event) (command : DialogBody)
        → HoldsRules (ack_by_user event command)
        (λ side outs stories. ack_told command side outs stories) }
    ensures prack { (event : Event) (command : DialogBody)
        → HoldsRules (prack_by_user event command) (λ side outs stories.
        in_dialog_told event (name_in command.local_tag command.remote_tag) side outs stories) }
    ensures cancel { (event : Event) (command : Cancel)
        → HoldsRules (cancel_by_user event command)
        (λ side outs stories. cancel_told event command outs stories) }
    ensures abandon_request { (event : Event) (command : AbandonRequest)
        → HoldsRules (request_abandoned event command)
        (λ side outs stories. abandon_told command outs stories) }
    ensures abandon_dialog { (event : Event) (command : AbandonDialog)
        → HoldsRules (dialog_abandoned event command) (λ side outs stories. stories) }
    ensures tick { (now : ℕ) → HoldsRules (λ side. clients_ticked side now)
        (λ side outs stories. ticked_told now stories) }
{}

/// A CANCEL goes out only by a provisional response or a command Cancel, and an ACK of a 2xx only
/// by a final response or a command Ack.
pub fn no_other_step_sends_a_cancel_or_an_ack()
    ensures response { (event : Event) (id : Id) (call_id : List ℕ) (response : Message)
        → SendsByStatus response (response_taken event id call_id response) }
    ensures lost { (id : Id) (timed_out : Bool) → SendsNoCancel (request_lost id timed_out)
        × SendsNoAck (request_lost id timed_out) }
    ensures invite { (event : Event) (invite : Invite)
        → SendsNoCancel (on_side (invite_taken event invite))
        × SendsNoAck (on_side (invite_taken event invite)) }
    ensures plain { (event : Event) (plain : Plain)
        → SendsNoCancel (on_side (plain_taken event plain))
        × SendsNoAck (on_side (plain_taken event plain)) }
    ensures request { (event : Event) (command : DialogRequest)
        → SendsNoCancel (request_by_user event command)
        × SendsNoAck (request_by_user event command) }
    ensures ack { (event : Event) (command : DialogBody)
        → SendsNoCancel (ack_by_user event command) }
    ensures prack { (event : Event) (command : DialogBody)
        → SendsNoCancel (prack_by_user event command)
        × SendsNoAck (prack_by_user event command) }
    ensures cancel { (event : Event) (command : Cancel)
        → SendsNoAck (cancel_by_user event command) }
    ensures abandon_request { (event : Event) (command : AbandonRequest)
        → SendsNoCancel (request_abandoned event command)
        × SendsNoAck (request_abandoned event command) }
    ensures abandon_dialog { (event : Event) (command : AbandonDialog)
        → SendsNoCancel (dialog_abandoned event command)
        × SendsNoAck (dialog_abandoned event command) }
    ensures tick { (now : ℕ) → SendsNoCancel (λ side. clients_ticked side now)
        × SendsNoAck (λ side. clients_ticked side now) }
{}

/// A CANCEL that was asked for waits only while no provisional response came. If this is true of
/// each held client request, it is true after each step (RFC 3261, section 9.1).
pub fn a_cancel_waits_for_a_provisional()
    ensures response { (event : Event) (id : Id) (call_id : List ℕ) (response : Message)
        → KeepsWaiting (response_taken event id call_id response) }
    ensures lost { (id : Id) (timed_out : Bool)
        → KeepsWaiting (request_lost id timed_out) }
    ensures invite { (event : Event) (invite : Invite)
        → KeepsWaiting (on_side (invite_taken event invite)) }
    ensures plain { (event : Event) (plain : Plain)
        → KeepsWaiting (on_side (plain_taken event plain)) }
    ensures request { (event : Event) (command : DialogRequest)
        → KeepsWaiting (request_by_user event command) }
    ensures ack { (event : Event) (command : DialogBody)
        → KeepsWaiting (ack_by_user event command) }
    ensures prack { (event : Event) (command : DialogBody)
        → KeepsWaiting (prack_by_user event command) }
    ensures cancel { (event : Event) (command : Cancel)
        → KeepsWaiting (cancel_by_user event command) }
    ensures abandon_request { (event : Event) (command : AbandonRequest)
        → KeepsWaiting (request_abandoned event command) }
    ensures abandon_dialog { (event : Event) (command : AbandonDialog)
        → KeepsWaiting (dialog_abandoned event command) }
    ensures tick { (now : ℕ)
        → KeepsWaiting (λ side. clients_ticked side now) }
{}
