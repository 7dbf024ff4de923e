//! Laws of whole runs.

ghost use Rattle.std.specs.Prelude.{List};
ghost use Rattle.sip_round.specs.Answers.{answers};
ghost use Rattle.sip_round.specs.CallsHeld.{DialogsHaveTheirHistory, EachDialogOwesAsTold, EachInviteAwaitsAsTold, EachRequestHasItsStory, EachRequestHeldById, EachResponseAwaitsAsTold, InputsNumberOn};
ghost use Rattle.sip_round.specs.Given.{AnswersGiveOwnNotices, AnswersGiveOwnSends, GivesNothingAfterEnds, GivesProvisionalsInOrder, GivesRequestsById, GivesRequestsOnce, GivesStartedRequests};
ghost use Rattle.sip_round.specs.Laws.{NothingAfterEachEnd, OneRequestInEachLife, ProvisionalsInLives};
ghost use Rattle.sip_round.specs.declared.config.Config.{Config};
ghost use Rattle.sip_round.specs.declared.round.Round.{Round};

use crate::config::Config;
use keyed_machine::laws_of_phases;
use sip_calls::{Calls, provisionals_shown_in_order};
use sip_transactions::Transactions;
use sip_transactions::laws::{nothing_after_the_end, one_request_up};

/// In any rounds, what is said for a transaction is what its own inputs add, in order. Each life of
/// a server transaction hands its request up once, with its first input.
pub fn one_request_in_each_life()
    ensures { OneRequestInEachLife }
{
    laws_of_phases(&Transactions);
    one_request_up();
}

/// In any rounds, nothing is handed up under the id of a transaction's life after that life has
/// ended.
pub fn nothing_after_each_end()
    ensures { NothingAfterEachEnd }
{
    nothing_after_the_end();
}

/// In any rounds, what is said for a call is what its own inputs add, in order. Of the reliable
/// provisional responses to an INVITE that come in one life of a dialog, the user is told of the
/// first, and then of each whose RSeq is one more than the one told before it: consecutive numbers,
/// each once (RFC 3262, section 4).
pub fn provisionals_in_each_life(config: &Config)
    ensures { (rounds : List Round) → ProvisionalsInLives config.now rounds }
{
    let calls = Calls {
        local: config.local,
        seed: config.seed,
    };
    laws_of_phases(&calls);
    provisionals_shown_in_order();
}

/// After any rounds, each held dialog, at either side, is what its opening and all that has
/// happened in it since make of it, under the name of its tags. Its local CSeq is that of its
/// opening, and one more for each request that went out in it; each of these had the number after
/// the one before it. Its remote CSeq is the highest accepted one. Its routes and its target are
/// those that came last (RFC 3261, section 12). What the rounds' phases say for the call ends, in
/// that dialog, with those requests. What each input of a call sends in a dialog has the numbers
/// after its local CSeq.
pub fn each_dialog_holds_its_history(config: &Config)
    ensures history { (rounds : List Round) → DialogsHaveTheirHistory config.now rounds }
    ensures next { (rounds : List Round) → InputsNumberOn config.now rounds }
{
    let calls = Calls {
        local: config.local,
        seed: config.seed,
    };
    laws_of_phases(&calls);
}

/// After any rounds, the held requests of a call are in the order of their ids. So the first that
/// fits has the lowest id, and the last has the highest.
pub fn each_request_is_held_by_id()
    ensures { EachRequestHeldById }
{}

/// After any rounds, each held request of the peer in a call is what its story says: how it came
/// up, and what has happened to it since by the inputs of its call (RFC 3261, section 13.3.1.4; RFC
/// 3262, section 3).
pub fn each_request_holds_its_history()
    ensures { EachRequestHasItsStory }
{}

/// After any rounds, a held INVITE awaits its ACK if a 2xx to it went out and the user has been
/// told since neither of its ACK nor that none came (RFC 3261, section 13.3.1.4).
pub fn each_invite_awaits_its_ack()
    ensures { EachInviteAwaitsAsTold }
{}

/// After any rounds, those reliable provisional responses to a held INVITE await their PRACK that
/// went out with an RSeq, and whose PRACK the user hasn't been told of since. They are sent again
/// until a final response goes out, or the user is told that no PRACK came (RFC 3262, section 3).
pub fn each_response_awaits_its_prack()
    ensures { EachResponseAwaitsAsTold }
{}

/// After any rounds, a held dialog owes, the oldest first, the ACK of each 2xx and the PRACK of
/// each reliable provisional response that the user was told of since the dialog was made, unless
/// it went out (RFC 3261, section 13.2.2.4; RFC 3262, section 4).
pub fn each_dialog_owes_as_told()
    ensures { EachDialogOwesAsTold }
{}

/// In any rounds, the Sends with a transaction's key, among all that the rounds give, are exactly
/// what that transaction's own history says to send, in order.
pub fn own_sends_given()
    ensures { AnswersGiveOwnSends }
{}

/// In any rounds, the notices with a Call-ID, among all that the rounds give, are exactly those
/// that the call's own history says, in order.
pub fn own_notices_given()
    ensures { AnswersGiveOwnNotices }
{}

/// In any rounds, each life of a server transaction hands its request up once, and at most one
/// notice `request` that the rounds give has a given id.
pub fn requests_given_once()
    ensures { (config : Config) (rounds : List Round)
        → GivesRequestsOnce config rounds (answers config rounds) }
{
    one_request_in_each_life();
}

/// In any rounds, the notices `request` come by rising ids: in the order of the events with which
/// the requests came, and at most one with each id.
pub fn requests_given_by_id()
    ensures { (config : Config) (rounds : List Round) → GivesRequestsById (answers config rounds) }
{}

/// In any rounds, each life of a client transaction begins with a request that is started. The
/// Sends with its key are those of the time before, then one with that request as it is written, to
/// the address with which it is started, and then the rest.
pub fn started_requests_given()
    ensures { (config : Config) (rounds : List Round)
        → GivesStartedRequests config rounds (answers config rounds) }
{
    laws_of_phases(&Transactions);
    own_sends_given();
}

/// In any rounds, what they give for a call is what its inputs add. Of the reliable provisional
/// responses to an INVITE that came with these in one life of a dialog, the user is told of those
/// in order, and of each once.
pub fn provisionals_given_in_order(config: &Config)
    ensures { (rounds : List Round)
        → GivesProvisionalsInOrder config.now rounds (answers config.now rounds) }
{
    own_notices_given();
    provisionals_in_each_life(config);
}

/// In any rounds, nothing is handed up under the id of a transaction's life after that life has
/// ended. In later rounds, nothing that a call is given comes from the transaction under that id.
pub fn nothing_given_after_ends(config: &Config)
    ensures { (rounds : List Round)
        → GivesNothingAfterEnds config.now rounds (answers config.now rounds) }
{
    let calls = Calls {
        local: config.local,
        seed: config.seed,
    };
    laws_of_phases(&Transactions);
    laws_of_phases(&calls);
    nothing_after_each_end();
}
