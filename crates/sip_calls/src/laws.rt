//! Laws of calls.

ghost use Rattle.std.specs.Prelude.{◌≡◌, ℕ, Option};
ghost use Rattle.sip_calls.specs.Awaiting.{AwaitsAsTold};
ghost use Rattle.sip_calls.specs.Call.{CallItem, call_due, call_step};
ghost use Rattle.sip_calls.specs.ClientHistories.{CancelsOnce, HoldsClientStories, RepeatsItsAck, WaitsAsAsked};
ghost use Rattle.sip_calls.specs.HeldById.{HeldById};
ghost use Rattle.sip_calls.specs.HeldDialogs.{EachEndHasItsOpening, EachEndIsToldOnce, HeldUntilItEnds};
ghost use Rattle.sip_calls.specs.Histories.{CountsItsRequests, HasItsName, HasTheGreatestNumber, HasTheLatestRoute, HasTheNextNumber, HoldsItsHistory, NumbersItsRequests};
ghost use Rattle.sip_calls.specs.OwnCall.{EachNoticeIsOwn};
ghost use Rattle.sip_calls.specs.Owing.{OwesAsTold};
ghost use Rattle.sip_calls.specs.Provisionals.{ShownConsecutive, ShownInOrder, ShownOnce};
ghost use Rattle.sip_calls.specs.RefusedCommands.{RefusedAlone};
ghost use Rattle.sip_calls.specs.RequestHistories.{FewUnacknowledged, HoldsItsStories};
ghost use Rattle.sip_calls.specs.Requests.{EachToldOnce};
ghost use Rattle.sip_calls.specs.Steps.Call.{due_taken, step_taken};
ghost use Rattle.sip_calls.specs.declared.call.Call.{Call};
ghost use Rattle.sip_calls.specs.declared.calls.Calls.{Calls};
ghost use Rattle.sip_calls.specs.Unacknowledged.{AwaitedAsTold, KeptAsTold, RepeatedAsTold};

/// Whatever comes to a call, if events differ: of the reliable provisional responses to an INVITE
/// in one life of a dialog, from the event that makes it to the one that ends it, the user is told
/// of the first, and then of each whose RSeq is one more than the last one told. So their RSeqs are
/// consecutive, and none is told twice (RFC 3262, section 4).
pub fn provisionals_shown_in_order()
    ensures in_order { ShownInOrder }
    ensures consecutive { ShownConsecutive }
    ensures once { ShownOnce }
{}

/// Whatever is held under a Call-ID, a command of the user that is refused only gives its notice,
/// and changes nothing.
pub fn refused_commands_change_nothing()
    ensures { RefusedAlone }
{}

/// All that is held of a call, and all that the user is told of it, has its own Call-ID. If what is
/// held and what happens have a Call-ID, so do what is held afterwards and each notice (RFC 3261,
/// section 8.1.1.4).
pub fn each_notice_is_of_its_call()
    ensures { EachNoticeIsOwn }
{}

/// Whatever is held under a Call-ID, only the input that brings a request tells the user of it,
/// once.
pub fn each_request_is_told_once()
    ensures { EachToldOnce }
{}

/// Whatever comes to a call, if events differ: each held dialog, at either side, is what its
/// opening and all that happened in it since make it. It opened by a message at one of the inputs.
/// Since then requests of the peer were accepted in it, responses and answers confirmed it or gave
/// it another target, and requests of the agent went out in it. So its local CSeq is that of its
/// opening and one more for each request that went out in it, and each of these had the number
/// after the one before it. Its remote CSeq is the greatest that was accepted. Its routes and its
/// target are those that came last (RFC 3261, section 12).
pub fn a_dialog_holds_its_history()
    ensures history { HoldsItsHistory }
    ensures name { HasItsName }
    ensures local { CountsItsRequests }
    ensures numbers { NumbersItsRequests }
    ensures next { HasTheNextNumber }
    ensures remote { HasTheGreatestNumber }
    ensures route { HasTheLatestRoute }
{}

/// Whatever comes to a call: each held request of the peer is what its story says. The story begins
/// as the request came up. Since then answers went out, its PRACKs or the ACK of its 2xx came, a
/// CANCEL ended it, or time passed. So its 2xx goes out again after T1, twice that and so on up to
/// T2, and 64*T1 after its final response the request is removed (RFC 3261, section 13.3.1.4). At
/// most 8 of its reliable provisional responses have no PRACK; until the first has one, it is the
/// only one (RFC 3262, section 3).
pub fn a_request_holds_its_history()
    ensures history { HoldsItsStories }
    ensures few { FewUnacknowledged }
{}

/// Whatever comes to a call, if the ids of the requests that come up rise: the held requests are in
/// the order of their ids. So the first that fits has the lowest id, and the last the highest.
pub fn requests_are_held_by_id()
    ensures { HeldById }
{}

/// Whatever comes to a call, if no id of a request comes up twice: a held INVITE awaits its ACK if
/// a 2xx to it went out, and since then the user was told neither of its ACK nor that none came
/// (RFC 3261, section 13.3.1.4).
pub fn an_invite_awaits_its_ack_as_told()
    ensures { AwaitsAsTold }
{}

/// Whatever comes to a call, if events differ: in a held dialog these are owed, the oldest first:
/// the ACK of each 2xx and the PRACK of each reliable provisional response to an INVITE of which
/// the user was told since the dialog was made, unless it went out at once, or later by a command
/// Ack or Prack, which sends the oldest of its kind (RFC 3261, section 13.2.2.4; RFC 3262, section
/// 4).
pub fn a_dialog_owes_as_told()
    ensures { OwesAsTold }
{}

/// Whatever comes to a call, if no id of a request comes up twice: of the responses to a held
/// INVITE, those await their PRACK that went out with an RSeq and of whose PRACK the user wasn't
/// told since. These are kept, and only a PRACK of these gets a 200. They are sent again until a
/// final response goes out or the user is told that no PRACK came (RFC 3262, section 3).
pub fn a_response_awaits_its_prack_as_told()
    ensures kept { KeptAsTold }
    ensures awaited { AwaitedAsTold }
    ensures repeated { RepeatedAsTold }
{}

/// Whatever comes to a call: each held client request is what its story says. The story begins as
/// the request was sent. Since then responses to it came, its ACKs went out, or the user asked to
/// cancel it. An INVITE is removed 64*T1 after its first 2xx. Its CANCEL goes out once, after a
/// provisional response and before any 2xx, under the id of the command that asked for it, and with
/// the INVITE's branch; it waits only while no provisional response came (RFC 3261, section 9.1).
/// An ACK that answers a retransmitted 2xx has the bytes of the one that went out for it, and goes
/// to the same address (section 13.2.2.4).
pub fn a_client_request_holds_its_history()
    ensures history { HoldsClientStories }
    ensures cancel { CancelsOnce }
    ensures waits { WaitsAsAsked }
    ensures ack { RepeatsItsAck }
{}

/// Whatever comes to a call: a dialog of a name is held if an input opened it and none ended it
/// since. At the callee it opens by the first response of 101 to 299 that goes out to an INVITE
/// outside of dialogs; at the caller by a response of 101 to 199 with a To tag, or by the first 2xx
/// with its tags, to such an INVITE (RFC 3261, section 12.1). It ends by a BYE that goes out, or
/// comes up and is accepted (section 15.1), and by a 481, a 408 or a timeout of a request in it
/// (section 12.2.1.2). While it is early it also ends by a final response of 300 to 699 to its
/// INVITE, by a CANCEL or the loss of that INVITE, and 64*T1 after the first 2xx to it (sections
/// 9.2, 12.3 and 13.2.2.4). It also ends if the user gives it up, or while it is early its INVITE.
pub fn a_dialog_is_held_until_it_ends()
    ensures { HeldUntilItEnds }
{}

/// Whatever came to a call before: only the input that ends a dialog tells the user of its end,
/// once. So between two such notices of a name an input opened a dialog of it.
pub fn each_end_is_told_once()
    ensures once { EachEndIsToldOnce }
    ensures opening { EachEndHasItsOpening }
{}

/// The rules of a call say the same as the steps of the code, for each call that is held or isn't,
/// each input and each moment; and they say when the call is due.
pub fn the_rules_say_the_steps()
    ensures step { (calls : Calls) (call : Option Call) (input : Option CallItem) (now : ℕ)
        → call_step calls call input now ≡ step_taken calls call input now }
    ensures due { (call : Call) → call_due call ≡ due_taken call }
{}
