//! Laws of what arrives, over a network that delivers.

ghost use Rattle.std.specs.Prelude.{List};
ghost use Rattle.sip_conversation.specs.AnswersArrive.{AnswersArrive, ApplicationsAnswersArrive};
ghost use Rattle.sip_conversation.specs.GoOut.{AskedArrive, RequestsGoOut};
ghost use Rattle.sip_conversation.specs.Commands.{CommandsKeepTypes};
ghost use Rattle.sip_conversation.specs.Conversation.{Carried, Turn, of_sides};
ghost use Rattle.sip_conversation.specs.Delivery.{RequestsArrive};

use crate::laws::sides_are_fair;
use sip_round::Config;

/// A conversation in which datagrams may be lost, duplicated, late or out of order, but not all of
/// them. The moments of its turns are of one clock. Each side runs its next round at most `lag` ms
/// after a timer of a transaction is due. Of any so many copies of a datagram that a side sends to
/// the other one, one after another, one at least comes within `delay` ms. Then each request that a
/// side sends to the other one arrives, if it isn't given up, none of its sends is reported to have
/// failed, and its text has at most 65,507 bytes. Its tries are the request and its repeats (see
/// `a_request_is_repeated` of sip_agent_laws). It arrives by the latest moment of its last try and
/// that delay, if these are before timer B or F fires. So this is said of 11 tries of a request
/// other than INVITE if 10 lags and the delay are below 500 ms, of 10 if 9 lags and the delay are
/// below 4,500 ms, of 9 if 8 lags and the delay are below 8,500 ms; and of 6 tries of an INVITE if
/// 5 lags and the delay are below 16,500 ms.
///
/// The request comes up to the call of its Call-ID, as it was sent, except for the stamp. The other
/// user is told of it, and of the end of a dialog of that call if it is a BYE. Or the other agent
/// gives the final response by itself: 420, 481, 482 or 500, or 200 to a PRACK. To a request in a
/// dialog, such as a BYE, but no PRACK, it gives 481 only if it doesn't hold that dialog. As long
/// as its transaction is held there, the request comes up once (`one_request_up` of
/// sip_transactions).
///
/// This isn't said of a CANCEL. The rounds of the side that sends have numbers below 2^64 and fewer
/// than 2^64 events each. If the last try or the delay ends after timer B or F, nothing is said.
pub fn requests_arrive(one: Config, other: Config)
    ensures { (turns : List Turn) → Carried (of_sides one other) turns
        → CommandsKeepTypes turns
        → RequestsArrive (of_sides one other) turns }
{
    sides_are_fair(&one, &other);
}

/// In any rounds, a command of a user for a request (Invite, Plain or Request) is an input of its
/// call. He is told that it is refused. Or at this moment a transaction is started with a request
/// of this Call-ID, with the method and the body of the command (INVITE for Invite), under the id
/// of its event. If it is a BYE, he is told of the end of a dialog of that call (RFC 3261, section
/// 15.1.1). `requests_arrive` says of such a start that the request arrives.
pub fn requests_go_out(config: Config)
    ensures { RequestsGoOut config }
{
    sides_are_fair(&config, &config);
}

/// Both together, in a conversation as in `requests_arrive`. A user's command for a request, other
/// than CANCEL, is refused, and he is told so; or its request goes out at once. If this is sent to
/// the other side, isn't given up, none of its sends is reported to have failed, and its text has
/// at most 65,507 bytes, it arrives there, by the latest moment of its last try and the delay: the
/// other user is told of it, or the other agent responds by itself. After a BYE both users are told
/// of the end of a dialog of the call; or the other agent doesn't hold that dialog, and answers
/// 481; or it answers 420, 482 or 500.
pub fn what_is_asked_for_arrives(one: Config, other: Config)
    ensures { (turns : List Turn) → Carried (of_sides one other) turns
        → CommandsKeepTypes turns
        → AskedArrive (of_sides one other) turns }
{
    sides_are_fair(&one, &other);
}

/// Over such a network a final response arrives, too. A side has sent a request to the other one:
/// no INVITE, no CANCEL and no PRACK. There the transaction of the request is given a final
/// response, the first one. It is sent then, and again at each repeat of the request that comes.
/// Then the application that asked for the request is told of a response, under the Call-ID of the
/// call and the id of its command: with the status, the tags and the body of that one. That holds
/// unless it gives the request up, or a send of it is reported to have failed. It also holds of the
/// final response that the other application gives to the request: its command has the id under
/// which the request came up, and wasn't refused; the response has its status and its body.
///
/// The time for that, from the response on, depends on how many copies of a datagram it takes until
/// one comes. If each comes, that is the delay. If one of two does, it is 8 s and twice the lag and
/// the delay: time for two repeats of the request, of which one comes, and for the second copy of
/// the response. If one of three does, it is 24 s, 6 lags and 3 delays. This is said if that ends
/// before timer F fires, so if the other side responds so much earlier than 64*T1 after the request
/// was sent. The response has at most 65,507 bytes. If the other side responds later, or the one
/// that waits runs no round after that time, nothing is said.
pub fn answers_arrive(one: Config, other: Config)
    ensures given { (turns : List Turn) → Carried (of_sides one other) turns
        → CommandsKeepTypes turns
        → AnswersArrive (of_sides one other) turns }
    ensures by_the_application { (turns : List Turn) → Carried (of_sides one other) turns
        → CommandsKeepTypes turns
        → ApplicationsAnswersArrive (of_sides one other) turns }
{
    sides_are_fair(&one, &other);
}
