//! Laws of transactions: what is true for any list of inputs of one transaction.

ghost use Rattle.std.specs.Prelude.{◌≡◌, Option};
ghost use Rattle.sip_message.specs.declared.key.Key.{Key};
ghost use Rattle.keyed_machine.specs.Machine.{Timed};
ghost use Rattle.sip_transactions.specs.Abandoned.{AbandonEnds, LateResponseIsDropped};
ghost use Rattle.sip_transactions.specs.declared.input.Input.{Input};
ghost use Rattle.sip_transactions.specs.declared.life.Life.{Life};
ghost use Rattle.sip_transactions.specs.Laws.{AtMostOneRow, CommandsOnlySend, OneRequestUp, RequestsComeUpById, NothingAfterTheEnd, FewSends};
ghost use Rattle.sip_transactions.specs.Steps.Life.{stepped};
ghost use Rattle.sip_transactions.specs.Machine.{life_due, transaction_machine};
ghost use Rattle.sip_transactions.specs.ServerLaws.{AnsweredAgain, EndsAfterItsAnswer, FailedSendKeeps};
ghost use Rattle.sip_transactions.specs.Timers.{first_due};

/// In each table at most one row fits a state and a trigger.
pub fn at_most_one_row()
    ensures { AtMostOneRow }
{}

/// A command hands nothing up and drops nothing.
pub fn commands_only_send()
    ensures { CommandsOnlySend transaction_machine }
{}

/// A life of a server transaction hands its request up once, by its first input.
pub fn one_request_up()
    ensures { OneRequestUp transaction_machine }
{}

/// If the ids of requests and starts rise, a transaction hands requests up in the order of their
/// ids, at most one for each id.
pub fn requests_come_up_by_id()
    ensures { RequestsComeUpById transaction_machine }
{}

/// If the ids of requests and starts differ, nothing is handed up under the id of a life that has
/// ended.
pub fn nothing_after_the_end()
    ensures { NothingAfterTheEnd transaction_machine }
{}

/// A life of a client sends its request at most 11 times, an INVITE at most 7 times.
pub fn few_sends()
    ensures { FewSends transaction_machine }
{}

/// A retransmitted request that was answered gets the same bytes again, and nothing else happens
/// (RFC 3261, sections 17.2.1 and 17.2.2).
pub fn answered_again()
    ensures { AnsweredAgain transaction_machine }
{}

/// A failed send doesn't change the life of a server.
pub fn failed_send_keeps()
    ensures { FailedSendKeeps transaction_machine }
{}

/// The server of a request other than INVITE is held for 64*T1 after its final answer, and ends at
/// the first tick from then on (RFC 3261, section 17.2.2).
pub fn ends_after_its_answer()
    ensures { EndsAfterItsAnswer transaction_machine }
{}

/// A transaction that the user gives up ends, whatever its state, and says nothing. A response to
/// it that comes afterwards is dropped.
pub fn an_abandoned_transaction_ends()
    ensures ends { AbandonEnds transaction_machine }
    ensures late { LateResponseIsDropped transaction_machine }
{}

/// The machine of transactions, which is defined by the rules, takes the same steps as the code,
/// and says when its next timer fires.
pub fn the_rules_say_the_steps()
    ensures step { (key : Key) (held : Option Life) (timed : Timed Input)
        → transaction_machine.step key held timed ≡ stepped key held timed }
    ensures due { (life : Life) → life_due life ≡ first_due life.context.timers }
{}
