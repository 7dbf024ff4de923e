//! The client requests and the dialogs that an agent holds, each by its history, and the ACKs that
//! it sends.

ghost use Rattle.std.specs.Prelude.{List};
ghost use Rattle.sip_agent_laws.specs.Histories.ClientRequests.{EachCancelGoesOnce, EachCancelWaitsAsAsked, EachClientRequestHasItsStory, EachRepeatedAckIsTheSame};
ghost use Rattle.sip_agent_laws.specs.Histories.HeldDialogs.{EachDialogIsHeldUntilItEnds, EachEndHasItsOpening, EachEndIsToldOnce, NoEndIsUntold};
ghost use Rattle.sip_agent_laws.specs.Histories.DirectSends.{GivesAcksOfCalls, GivesDirectSends};
ghost use Rattle.sip_agent_laws.specs.Histories.OneAck.{OneAckAnInput};
ghost use Rattle.sip_round.specs.Answers.{answers};
ghost use Rattle.sip_round.specs.declared.round.Round.{Round};

use keyed_machine::laws_of_phases;
use sip_calls::Calls;
use sip_round::Config;

/// After any rounds, each client request that is held in a call is what its story says: as it was
/// sent, and what has happened to it since by the inputs of its call. An INVITE is removed 64*T1
/// after its first 2xx. Its CANCEL goes out once, after a provisional response and before any 2xx,
/// under the id of the command that asked for it, and with the INVITE's branch. It waits only while
/// no provisional response came (RFC 3261, section 9.1). An ACK that answers a retransmitted 2xx
/// has the bytes of the one that went out for it, and goes to the same address (section 13.2.2.4).
pub fn each_client_request_holds_its_history()
    ensures history { EachClientRequestHasItsStory }
    ensures cancel { EachCancelGoesOnce }
    ensures waits { EachCancelWaitsAsAsked }
    ensures ack { EachRepeatedAckIsTheSame }
{}

/// After any rounds, a dialog of a name is held in a call if an input of the call opened it, and
/// none has ended it since (RFC 3261, sections 12.1, 12.3 and 15.1).
pub fn each_dialog_is_held_until_it_ends()
    ensures { EachDialogIsHeldUntilItEnds }
{}

/// In any rounds, only the input of a call that ends a dialog tells the user of its end, once. So
/// between two such notices of a name an input opened a dialog of it (RFC 3261, sections 12.3 and
/// 15.1). And an input after which a dialog is no longer held tells of its end.
pub fn each_end_is_told_once()
    ensures once { EachEndIsToldOnce }
    ensures opening { EachEndHasItsOpening }
    ensures untold { NoEndIsUntold }
{}

/// In any rounds, the Sends without a transaction's key that a round gives are exactly those that
/// the calls say in it, in order. Each is an ACK that one of the calls sends directly, as is done
/// for a 2xx (RFC 3261, section 13.2.2.4); nothing else is sent without a transaction's key.
pub fn direct_sends_are_of_calls(config: &Config)
    ensures sends { (rounds : List Round)
        → GivesDirectSends config.now rounds (answers config.now rounds) }
    ensures acks { (rounds : List Round)
        → GivesAcksOfCalls config.now rounds (answers config.now rounds) }
{
    let calls = Calls {
        local: config.local,
        seed: config.seed,
    };
    laws_of_phases(&calls);
}

/// Whatever is held under a Call-ID, by one input the call sends no ACK directly, or one: the user
/// gives it, in a dialog that is held before and after; or the first 2xx of a dialog comes to a
/// held INVITE, and the dialog is held after it; or such a 2xx comes again, and the ACK that went
/// out for it goes out again, even if the dialog has ended since (RFC 3261, section 13.2.2.4).
pub fn one_ack_an_input()
    ensures { OneAckAnInput }
{}
