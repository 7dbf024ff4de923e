//! By when everything in an agent ends, and that nothing stays.

ghost use Rattle.sip_agent_laws.specs.Agents.AtRest.{EachAgentComesToRest};
ghost use Rattle.sip_agent_laws.specs.Agents.NothingLeft.{NoTransactionStays, NothingStays};
ghost use Rattle.sip_agent_laws.specs.Agents.Open.{EachOpenIsHeld};
ghost use Rattle.sip_agent_laws.specs.Agents.Outcomes.{AtMostOneIsTold, EachRequestHasOneOutcome, OutcomeIsTold};
ghost use Rattle.sip_agent_laws.specs.Agents.UserEnds.{UserEndsAgent, UserEndsTransactions};

/// After any rounds, each server transaction, and each client of an INVITE, that has no final
/// response belongs to a call: the call of its Call-ID holds its request, under its id, without a
/// final response. So what waits without a timer waits for the user (RFC 3261, sections 17.1.1.2,
/// 17.2.1 and 17.2.2).
pub fn each_open_transaction_is_held()
    ensures { EachOpenIsHeld }
{}

/// Whatever came in rounds up to a moment: after rounds without events, of which one is 64*T1 later
/// or later still, each transaction is gone, or waits without a timer, no request in a call has a
/// final response, and nothing in the agent is due at any moment. A host needn't run a round again
/// until something comes.
pub fn each_agent_comes_to_rest()
    ensures { EachAgentComesToRest }
{}

/// If nothing waits for the user in any call, then after 64*T1 without events no transaction is
/// held. If no request of the agent waits for its transaction either, then nothing is held: no
/// transaction and no call.
pub fn nothing_stays()
    ensures transactions { NoTransactionStays }
    ensures all { NothingStays }
{}

/// Whatever the peers did, the user can end all: after one round that rejects each request of the
/// peer that has no final response, and gives up each INVITE of the agent and each dialog, and then
/// 64*T1 without events, no transaction is held. If the round gives up each other request of the
/// agent too, no call is held either.
pub fn the_user_ends_all()
    ensures transactions { UserEndsTransactions }
    ensures all { UserEndsAgent }
{}

/// Of a request other than INVITE that the agent sends, the application is told of at most one
/// outcome under the request's id: a final response, a timeout, or that it couldn't be sent. It is
/// told of one by the first round 64*T1 later, unless it gives the request up (RFC 3261, sections
/// 8.1.3.1 and 17.1.2.2). Once the request doesn't wait any longer, it was told which: a final
/// response that came, with its status, tags and body; that none came by a tick 64*T1 later; or a
/// failed send that was reported. CANCEL and PRACK, which have commands of their own, are left out.
pub fn each_request_has_one_outcome()
    ensures most { AtMostOneIsTold }
    ensures one { EachRequestHasOneOutcome }
    ensures told { OutcomeIsTold }
{}
