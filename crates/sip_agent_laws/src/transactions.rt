//! By when a transaction goes on and ends, for any list of its inputs.

ghost use Rattle.sip_transactions.specs.Machine.{transaction_machine};
ghost use Rattle.sip_agent_laws.specs.Transactions.Acks.{AcksComeUp};
ghost use Rattle.sip_agent_laws.specs.Transactions.Answered.{AnsweredAsBefore};
ghost use Rattle.sip_agent_laws.specs.Transactions.Closing.{ClosedInTime, RejectedInTime};
ghost use Rattle.sip_agent_laws.specs.Transactions.Copies.{EachRejectionIsRepeated, EachRequestIsRepeated};
ghost use Rattle.sip_agent_laws.specs.Transactions.Outcomes.{AtMostOneOutcome, EachInviteEnds, EachRequestEnds, NoEarlyTimeout, ResponsesComeUp};
ghost use Rattle.sip_agent_laws.specs.Transactions.Timers.{GoneUnlessWaiting, NothingLeftDue, RepeatedInTime, TicksAreQuiet, WaitsWithoutTimers};

/// If the inputs other than ticks came by a moment, in whatever order, then after ticks of which
/// one is 64*T1 later or later still, a transaction is gone, or it waits without a timer: the
/// client of an INVITE after a provisional response, a server without a final response (RFC 3261,
/// sections 17.1.1.2, 17.2.1 and 17.2.2).
pub fn gone_unless_waiting()
    ensures { GoneUnlessWaiting transaction_machine }
{}

/// What is held waits like that exactly if none of its timers runs. So what waits is never due.
pub fn waits_without_timers()
    ensures { WaitsWithoutTimers transaction_machine }
{}

/// After a tick nothing of a transaction is due at the moment of the tick.
pub fn nothing_left_due()
    ensures { NothingLeftDue transaction_machine }
{}

/// A tick hands up no message, but at most that no answer came, and drops nothing.
pub fn ticks_are_quiet()
    ensures { TicksAreQuiet transaction_machine }
{}

/// If the repeat (timer A, E or G) is due at a tick and the end isn't, what was sent last goes out
/// again, once (RFC 3261, sections 17.1.1.2, 17.1.2.2 and 17.2.1).
pub fn repeated_in_time()
    ensures { RepeatedInTime transaction_machine }
{}

/// If its request comes again, a server that answered it sends again what it sent last, once, and
/// nothing else happens. Of a 2xx to an INVITE this isn't said, nor after the ACK (RFC 3261,
/// sections 17.2.1 and 17.2.2).
pub fn answered_again_as_before()
    ensures { AnsweredAsBefore transaction_machine }
{}

/// A client of a request other than INVITE tells of at most one outcome: a final response, a
/// timeout or a failed send. By its end, and by the first tick 64*T1 after its start or later, it
/// has told of one, unless the user gave it up (RFC 3261, section 17.1.2.2).
pub fn each_request_ends()
    ensures most { AtMostOneOutcome transaction_machine }
    ensures ends { EachRequestEnds transaction_machine }
{}

/// By its end, and by the first tick 64*T1 after its start or later, a client of an INVITE has told
/// of an outcome, unless the user gave it up; or a provisional response came up, and it waits (RFC
/// 3261, section 17.1.1.2). It may tell of more than one: of more 2xx, or after a rejection of a
/// failed send of its ACK.
pub fn each_invite_ends()
    ensures { EachInviteEnds transaction_machine }
{}

/// From its final response on a transaction is held for 64*T1, or T4 for timers K and I, and ends
/// at the first tick from then on, whatever else comes. Only the user ends it sooner, or a failed
/// send of its ACK. For a server of an INVITE that was rejected this holds from the ACK on (RFC
/// 3261, sections 17.1.1.2, 17.1.2.2, 17.2.1 and 17.2.2; RFC 6026, section 7).
pub fn closed_in_time()
    ensures { ClosedInTime transaction_machine }
{}

/// A server of an INVITE that was rejected is held until its ACK, or until a tick 64*T1 later
/// (timer H). Then it is gone, or got its ACK (RFC 3261, section 17.2.1).
pub fn rejected_in_time()
    ensures { RejectedInTime transaction_machine }
{}

/// No client tells of a timeout before a tick 64*T1 after its start (RFC 3261, sections 17.1.1.2
/// and 17.1.2.2).
pub fn no_early_timeout()
    ensures { NoEarlyTimeout transaction_machine }
{}

/// A client's request goes out when it is started, and again at each moment of timer A (an INVITE)
/// or timer E: after T1, then after that interval doubled each time, which for timer E is at most
/// T2 (RFC 3261, sections 17.1.1.2 and 17.1.2.2). Let each tick come at most `lag` ms after what it
/// finds due. If one comes after the latest moment of so many repeats, all of them have gone out
/// before it, with the same bytes, to the same address. Only a response ends this, or timer B or F,
/// the user, who gives the request up, or a failed send. So with no lag a request goes out 11 times
/// in 64*T1, an INVITE 7 times; by `few_sends` of sip_transactions it never goes out more often.
pub fn a_request_is_repeated()
    ensures { EachRequestIsRepeated transaction_machine }
{}

/// A response of 300 to 699 to an INVITE goes out when the server is given it, and again at each
/// moment of timer G, as a request does of timer E (see `a_request_is_repeated`): with the same
/// bytes, to the address of the INVITE's answers, so 11 times in 64*T1 with no lag. Only its ACK
/// ends this, or timer H, or the user, who gives the transaction up (RFC 3261, section 17.2.1; RFC
/// 6026, section 7.1, for failed sends).
pub fn a_rejection_is_repeated()
    ensures { EachRejectionIsRepeated transaction_machine }
{}

/// As long as a client has no final response, each response that comes to it comes up, once, as it
/// came, and nothing else does (RFC 3261, sections 17.1.1.2 and 17.1.2.2). So does an ACK of an
/// INVITE's server that is gone, or that was given a 2xx (section 13.3.1.4; RFC 6026, section 7.1).
pub fn responses_and_acks_come_up()
    ensures responses { ResponsesComeUp transaction_machine }
    ensures acks { AcksComeUp transaction_machine }
{}
