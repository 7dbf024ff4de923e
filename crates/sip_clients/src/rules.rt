//! The steps of the client side do what the rules of `specs/Rules` say.

ghost use Rattle.std.specs.Prelude.{◌≡◌, ℕ, Bool, List};
ghost use Rattle.sip_message.specs.declared.id.Id.{Id};
ghost use Rattle.sip_message.specs.declared.message.Message.{Message};
ghost use Rattle.sip_user.specs.declared.command.AbandonDialog.{AbandonDialog};
ghost use Rattle.sip_user.specs.declared.command.AbandonRequest.{AbandonRequest};
ghost use Rattle.sip_user.specs.declared.command.Cancel.{Cancel};
ghost use Rattle.sip_user.specs.declared.command.DialogBody.{DialogBody};
ghost use Rattle.sip_user.specs.declared.command.DialogRequest.{DialogRequest};
ghost use Rattle.sip_user.specs.declared.command.Invite.{Invite};
ghost use Rattle.sip_user.specs.declared.command.Plain.{Plain};
ghost use Rattle.sip_clients.specs.declared.event.Event.{Event};
ghost use Rattle.sip_clients.specs.Abandon.{dialog_abandoned, request_abandoned};
ghost use Rattle.sip_clients.specs.Cancel.{cancel_by_user};
ghost use Rattle.sip_clients.specs.Client.{Clients, Side};
ghost use Rattle.sip_clients.specs.Clients.{ack_by_user, invite_taken, plain_taken, prack_by_user, request_by_user, request_lost, response_taken};
ghost use Rattle.sip_clients.specs.Rules.Abandon.{abandon_dialog_command, abandon_request_command};
ghost use Rattle.sip_clients.specs.Rules.Ends.{request_is_lost, client_due, client_tick};
ghost use Rattle.sip_clients.specs.Rules.Requests.{ack_command, cancel_command, invite_command, plain_command, prack_command, request_command};
ghost use Rattle.sip_clients.specs.Rules.Responses.{response_received};
ghost use Rattle.sip_clients.specs.Tick.{clients_ticked, next_removal};

/// A response, the loss of a request and a tick do to the client requests and the dialogs of a
/// Call-ID what the rules say, and tell and send what they say (RFC 3261, sections 12.2.1.2, 13.2.2
/// and 13.2.2.4; RFC 3262, section 4; RFC 6026, section 7.2).
pub fn responses_and_ends_are_by_the_rules()
    ensures response { (event : Event) (id : Id) (call_id : List ℕ) (response : Message)
        (side : Side) → response_received event id call_id response side
        ≡ response_taken event id call_id response side }
    ensures lost { (id : Id) (timed_out : Bool) (side : Side)
        → request_is_lost id timed_out side ≡ request_lost id timed_out side }
    ensures tick { (side : Side) (now : ℕ) → client_tick side now ≡ clients_ticked side now }
    ensures removal { (clients : Clients) → client_due clients ≡ next_removal clients }
{}

/// A command of the user does to them what the rules say, and sends the same request or is refused
/// for the same reason (RFC 3261, sections 8.1.1, 9.1, 12.2.1.1, 13.2.1, 13.2.2.4 and 15.1.1; RFC
/// 3262, section 4).
pub fn commands_are_by_the_rules()
    ensures invite { (event : Event) (invite : Invite) (clients : Clients)
        → invite_command event invite clients ≡ invite_taken event invite clients }
    ensures plain { (event : Event) (plain : Plain) (clients : Clients)
        → plain_command event plain clients ≡ plain_taken event plain clients }
    ensures request { (event : Event) (command : DialogRequest) (side : Side)
        → request_command event command side ≡ request_by_user event command side }
    ensures ack { (event : Event) (command : DialogBody) (side : Side)
        → ack_command event command side ≡ ack_by_user event command side }
    ensures prack { (event : Event) (command : DialogBody) (side : Side)
        → prack_command event command side ≡ prack_by_user event command side }
    ensures cancel { (event : Event) (command : Cancel) (side : Side)
        → cancel_command event command side ≡ cancel_by_user event command side }
    ensures abandon_request { (event : Event) (command : AbandonRequest) (side : Side)
        → abandon_request_command event command side ≡ request_abandoned event command side }
    ensures abandon_dialog { (event : Event) (command : AbandonDialog) (side : Side)
        → abandon_dialog_command event command side ≡ dialog_abandoned event command side }
{}
