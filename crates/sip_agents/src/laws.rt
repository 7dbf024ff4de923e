//! Laws of several agents.

ghost use Rattle.sip_agents.specs.Laws as laws;

/// The id of an event says which agent it is an event of.
pub fn each_id_says_its_agent()
    ensures { laws.EachIdSaysItsAgent }
{}

/// Two agents make no equal names, neither tags nor branches, though they share a seed (RFC 3261,
/// sections 8.1.1.7 and 19.3).
pub fn names_of_agents_differ()
    ensures { laws.NamesOfAgentsDiffer }
{}

/// The first Call-ID in the head of a message is the Call-ID of the message (RFC 3261, section
/// 20.8). So all messages of a call go to one agent, as its commands do.
pub fn call_id_of_each_message()
    ensures { laws.CallIdOfEachMessage }
{}

/// Where no transaction has the key of a failed send, the failure does nothing. So only the agent
/// that holds the transaction heeds it.
pub fn failure_elsewhere_does_nothing()
    ensures { laws.FailureElsewhereDoesNothing }
{}
