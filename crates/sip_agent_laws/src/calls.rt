//! By when what is in a call goes on and ends: what is rejected or given up is gone, and 64*T1
//! after the last message or command nothing is due.

ghost use Rattle.sip_agent_laws.specs.Calls.Arrived.{AckIsTold, CancelAnsweredBy487, OwnAnswered, ToldOrAnswered};
ghost use Rattle.sip_agent_laws.specs.Calls.Commanded.{EachCommandIsAnswered};
ghost use Rattle.sip_agent_laws.specs.Calls.Ending.{DialogGivenUp, EndingAddsNothing, EndingEnds, OthersAddNothing, RequestGivenUp, UserEndsAll};
ghost use Rattle.sip_agent_laws.specs.Calls.InTime.{ClientsRemoved, NoAckTold, NoPrackTold, OnlyTicksTell, RequestsRemoved};
ghost use Rattle.sip_agent_laws.specs.Calls.Outcomes.{CancelGoesOut, CancelWaits, OutcomeCloses, WaitingGoesOut};
ghost use Rattle.sip_agent_laws.specs.Calls.Rejections.{RejectionsAreAccepted};
ghost use Rattle.sip_agent_laws.specs.Calls.Rest.{AtRestAfterAll, NothingLeft};
ghost use Rattle.sip_agent_laws.specs.Calls.Successes.{FirstSuccessIsAcknowledged};
ghost use Rattle.sip_agent_laws.specs.Calls.Told.{ItemsOnlyAnswer, ProvisionalsAreTold, TicksOnlyAnswer, ToldAsTheyCome, ToldOnce};

/// Whatever is held under a Call-ID: a plain response of 300 to 699 to a held request of the peer
/// that has no final response isn't refused. It goes out once, the early dialogs of an INVITE end,
/// and 64*T1 later the request is removed. So no request of the peer can hold the user (RFC 3261,
/// sections 8.2.6 and 13.3.1.3).
pub fn rejections_are_accepted()
    ensures { RejectionsAreAccepted }
{}

/// Whatever came to a call: a client request that is held and given up is gone, with the early
/// dialogs that it made; so is a dialog. Neither this nor a rejection adds what waits for the user,
/// nor do ticks and the reports of transactions. So in an agent a rejection of each request of the
/// peer, and giving up each INVITE and each dialog, leave nothing that waits for the user.
pub fn given_up_is_gone()
    ensures request { RequestGivenUp }
    ensures dialog { DialogGivenUp }
    ensures others { OthersAddNothing }
    ensures ending { EndingAddsNothing }
    ensures ends { EndingEnds }
    ensures all { UserEndsAll }
{}

/// If all messages and commands of a call came by a moment, then after a tick 64*T1 later the call
/// is at rest: nothing of it is due at any moment, each held request of the peer lacks its final
/// response, and each of the agent's lacks a 2xx. Ticks, and transactions that time out or can't
/// send, may come before and after (RFC 3261, sections 13.2.2.4 and 13.3.1.4; RFC 3262, section 3).
pub fn at_rest_after_all()
    ensures { AtRestAfterAll }
{}

/// A call at rest isn't held, unless something in it waits for the user (a request of the peer, an
/// INVITE of the agent or a dialog), or another request of the agent for its transaction.
pub fn nothing_left()
    ensures { NothingLeft }
{}

/// The first tick at the moment of a request's removal or later removes it, whatever else is due
/// then, and no tick removes it before (RFC 3261, sections 13.2.2.4 and 13.3.1.4).
pub fn removed_in_time()
    ensures requests { RequestsRemoved }
    ensures clients { ClientsRemoved }
{}

/// A tick tells the user that no ACK of a 2xx came, or no PRACK of a reliable provisional response,
/// if it was sent 64*T1 ago or more, and not before. No other input tells of either (RFC 3261,
/// section 13.3.1.4; RFC 3262, section 3).
pub fn told_in_time()
    ensures ack { NoAckTold }
    ensures prack { NoPrackTold }
    ensures ticks { OnlyTicksTell }
{}

/// Whatever is held under a Call-ID: the input that brings a request of the peer tells the user of
/// it once, and it is held without a final response; or the agent gives it its final response at
/// once. So a CANCEL and a PRACK get it always (RFC 3261, sections 8.2, 9.2 and 12.2.2; RFC 3262,
/// section 3). The input that brings the ACK of a 2xx that waits for it tells of that (section
/// 13.3.1.4).
pub fn told_or_answered()
    ensures either { ToldOrAnswered }
    ensures own { OwnAnswered }
    ensures ack { AckIsTold }
{}

/// Whatever is held under a Call-ID: a CANCEL of an INVITE without a final response gets a 200.
/// Then it does what a 487 of the user to the INVITE does: the 487 goes out, the same is held, and
/// the same is told, and that the CANCEL came (RFC 3261, section 9.2).
pub fn a_cancel_is_answered_by_487()
    ensures { CancelAnsweredBy487 }
{}

/// Whatever is held under a Call-ID: a command of the user is refused, and changes nothing; or it
/// gives what it asks for, once, and nothing else goes out.
pub fn each_command_is_answered()
    ensures { EachCommandIsAnswered }
{}

/// Whatever is held under a Call-ID: the user is told of a response only by the input that brings
/// one to the same request, and by no tick, command or other message. It tells of that one alone,
/// once, with its status, tags and body. Each provisional one to a request that is held is told,
/// unless it is reliable (of these those that come in order). For final ones see
/// `an_outcome_closes_its_request` and `a_success_is_acknowledged`.
pub fn responses_are_told_as_they_come()
    ensures comes { ToldAsTheyCome }
    ensures once { ToldOnce }
    ensures provisional { ProvisionalsAreTold }
{}

/// The server side of a call gives notices and responses alone: it starts no transaction, so it
/// sends no CANCEL, and it sends no ACK.
pub fn the_server_side_only_answers()
    ensures items { ItemsOnlyAnswer }
    ensures ticks { TicksOnlyAnswer }
{}

/// Whatever came to a call: the outcome of a client request that is held (a timeout, a failure to
/// send, or a final response other than a 2xx to an INVITE) closes it at once. The user is told
/// which, with the status of a response, and it is no longer held (RFC 3261, sections 8.1.3.1 and
/// 17.1).
pub fn an_outcome_closes_its_request()
    ensures { OutcomeCloses }
{}

/// Whatever is held under a Call-ID: the CANCEL of an INVITE without a final response goes out by
/// the first command to cancel it, if a provisional response came before. Otherwise it waits, and
/// goes out by the first provisional response (RFC 3261, section 9.1).
pub fn a_cancel_goes_out()
    ensures asked { CancelGoesOut }
    ensures waits { CancelWaits }
    ensures waiting { WaitingGoesOut }
{}

/// Whatever is held under a Call-ID: the first 2xx of a dialog to an INVITE that is held is told,
/// once (to a re-INVITE, if its dialog is held). If it has an offer, its ACK waits for the
/// application. If not, the ACK goes out, or the agent refuses to send it, tells why, and it waits
/// (RFC 3261, sections 13.2.1 and 13.2.2.4).
pub fn a_success_is_acknowledged()
    ensures { FirstSuccessIsAcknowledged }
{}
