//! Laws of the server side of a call.

ghost use Rattle.std.specs.Prelude.{◌≡◌, ◌≢◌, ◌≤◌, ℕ, List, [], ◌∷◌, Some, count_by, find, true, false};
ghost use Rattle.std.specs.List.{AllByRecursion};
ghost use Rattle.sip_message.specs.declared.id.Id.{Id};
ghost use Rattle.sip_message.specs.declared.addr.Addr.{Addr};
ghost use Rattle.sip_timers.specs.Queue.{is_due};
ghost use Rattle.sip_transactions.specs.declared.output.UpKind.{UpKind};
ghost use Rattle.sip_transactions.specs.declared.output.Up.{Up};
ghost use Rattle.sip_transactions.specs.declared.input.Command.TheVariants.{Answer};
ghost use Rattle.sip_served.specs.Cancel.{invite_terminated, is_unanswered_invite, request_terminated, user_termination};
ghost use Rattle.sip_user.specs.OwnCall.{IsNoticeOf};
ghost use Rattle.sip_user.specs.declared.command.Respond.{Respond};
ghost use Rattle.sip_user.specs.declared.item.Item.{Item};
ghost use Rattle.sip_served.specs.OwnCall.{IsEventOf, IsStateOf};
ghost use Rattle.sip_served.specs.Respond.{respond_taken};
ghost use Rattle.sip_served.specs.Run.{Event, FewWaitEach, event_taken, server_state_after};
ghost use Rattle.sip_served.specs.ForUser.{brings, ids_for_user, told_by, told_from};
ghost use Rattle.sip_held_dialogs.specs.Ids.{is_id};
ghost use Rattle.sip_served.specs.Rules.Arrivals.{server_received, server_item};
ghost use Rattle.sip_served.specs.Rules.Responses.{respond_command};
ghost use Rattle.sip_served.specs.Rules.Ticks.{server_due, server_tick};
ghost use Rattle.sip_served.specs.Step.{kind_taken, server_item_taken};
ghost use Rattle.sip_served.specs.State.{State, empty_at, followed, has_id, quiet};
ghost use Rattle.sip_served.specs.Tick.{next_server_due, tick_taken};
ghost use Rattle.sip_served.specs.declared.held_request.HeldRequest.{HeldRequest};
ghost use Rattle.sip_user.specs.declared.item.CallOut.TheVariants.{Command};

/// Before the moment at which something is due, a tick does nothing and says nothing; from then on
/// it does or says something. If nothing is due ever, no tick does anything.
pub fn ticks_when_due()
    ensures before { (state : State) (now : ℕ) → is_due now (next_server_due state) ≡ false
        → tick_taken state now ≡ quiet state }
    ensures from { (state : State) (now : ℕ) → is_due now (next_server_due state) ≡ true
        → tick_taken state now ≢ quiet state }
{}

/// Whatever happened to the server side of a call: for each held request at most 8 reliable
/// provisional responses wait for their PRACK, and until the first was acknowledged, only that one
/// (RFC 3262, section 3).
pub fn few_provisionals_wait()
    ensures held { (local : Addr) (events : List Event)
        → FewWaitEach (server_state_after local events) }
{}

/// An event tells the user of the request that it brings for the user, and of no other. So in any
/// list of events the user is told of no request more often than it comes up.
pub fn each_request_is_told_once()
    ensures as_it_comes { (state : State) (event : Event)
        → told_by state event ≡ ids_for_user state event }
    ensures once { (local : Addr) (events : List Event) (id : Id)
        → count_by (is_id id) (told_from (empty_at local) events) ≤ count_by (brings id) events }
{}

/// A CANCEL of an INVITE does the same to it as a 487 of the user: the same final response goes
/// out, and its early dialogs end (RFC 3261, section 9.2).
pub fn a_cancel_answers_as_the_user_would()
    ensures { (state : State) (event : Id) (call_id : List ℕ) (now : ℕ) (held : HeldRequest)
        → find (has_id held.id) state.requests ≡ Some held → is_unanswered_invite held ≡ true
        → respond_taken state event (user_termination call_id held.id) now
        ≡ followed (state, Command held.id (Answer held.key (request_terminated held)) ∷ [])
        (invite_terminated (request_terminated held) held.id now) }
{}

/// All that the server side of a call holds and tells the user has its own Call-ID. If what is held
/// and what happens have a Call-ID, so do what is held afterwards and each notice (RFC 3261,
/// section 8.1.1.4).
pub fn each_notice_is_of_its_call()
    ensures state { (call_id : List ℕ) (state : State) (event : Event) → IsStateOf call_id state
        → IsEventOf call_id event → IsStateOf call_id (event_taken state event).0 }
    ensures notices { (call_id : List ℕ) (state : State) (event : Event) → IsStateOf call_id state
        → IsEventOf call_id event
        → AllByRecursion (IsNoticeOf call_id) (event_taken state event).1 }
{}

/// The rules of the server side say the same as its steps, for what comes up, for the user's answer
/// (RFC 3261, sections 8.2, 9.2, 12 and 13.3; RFC 3262, section 3), for a tick, and for the moment
/// at which one is due.
pub fn the_rules_say_the_steps()
    ensures item { (state : State) (tag : List ℕ) (id : Id) (item : Item) (now : ℕ)
        → server_item state tag id item now ≡ server_item_taken state tag id item now }
    ensures kind { (state : State) (tag : List ℕ) (up : Up) (kind : UpKind) (now : ℕ)
        → server_received state tag up kind now ≡ kind_taken state tag up kind now }
    ensures answer { (state : State) (event : Id) (respond : Respond) (now : ℕ)
        → respond_command state event respond now ≡ respond_taken state event respond now }
    ensures tick { (state : State) (now : ℕ) → server_tick state now ≡ tick_taken state now }
    ensures due { (state : State) → server_due state ≡ next_server_due state }
{}
