//! Laws of conversations.

ghost use Rattle.std.specs.Prelude.{List};
ghost use Rattle.sip_message.specs.Addr.{IsAddr};
ghost use Rattle.sip_conversation.specs.AckedResponses.{AcksFollowResponses};
ghost use Rattle.sip_conversation.specs.Acks.{AcksToldWereSaid};
ghost use Rattle.sip_conversation.specs.Cancels.{CancelsToldWereAskedFor};
ghost use Rattle.sip_conversation.specs.ComeWhole.{ProvisionalsComeWhole};
ghost use Rattle.sip_conversation.specs.Commands.{CommandsKeepTypes};
ghost use Rattle.sip_conversation.specs.Conversation.{Carried, Turn, of_sides};
ghost use Rattle.sip_conversation.specs.Datagrams.{DatagramsAreTextsSaid};
ghost use Rattle.sip_conversation.specs.Steps.Fair.{IsFair};
ghost use Rattle.sip_conversation.specs.Messages.{CallsHearUnchanged, CallsKeepRules, MessagesComeUnchanged};
ghost use Rattle.sip_conversation.specs.Pracks.{PracksFollowResponses, TheFirstIsToldFirst};
ghost use Rattle.sip_conversation.specs.Provisionals.{ProvisionalsToldAsSaid};
ghost use Rattle.sip_conversation.specs.Replies.{ResponsesToldWereSaid};
ghost use Rattle.sip_conversation.specs.Requests.{RequestsToldWereAskedFor};
ghost use Rattle.sip_conversation.specs.ToldPracks.{PracksToldWereSaid};

use keyed_machine::laws_of_phases;
use sip_calls::Calls;
use sip_message::Addr;
use sip_round::{Config, provisionals_in_each_life};
use sip_transactions::Transactions;

/// In a carried conversation, each message that comes to a transaction of one side in a turn is one
/// that the other side said in the turns before, and sent: a datagram with its text went out. One
/// of its calls asked to send the message, or one of its transactions made it from what it was
/// given. The message comes unchanged, except for the stamp of its source in a request (RFC 3261,
/// section 18.2.1). Here and in the laws below, the parts of each command are what their types say.
/// A program can give no other command.
pub fn messages_come_unchanged(one: Config, other: Config)
    ensures { (turns : List Turn) → Carried (of_sides one other) turns
        → CommandsKeepTypes turns
        → MessagesComeUnchanged (of_sides one other) turns }
{
    sides_are_fair(&one, &other);
}

/// In such a conversation each datagram that comes in a turn is the text of a message that the
/// other side said in the turns before. It is read as that message, unless it has more than 65535
/// bytes.
pub fn datagrams_are_texts_said(one: Config, other: Config)
    ensures { (turns : List Turn) → Carried (of_sides one other) turns
        → CommandsKeepTypes turns
        → DatagramsAreTextsSaid (of_sides one other) turns }
{
    sides_are_fair(&one, &other);
}

/// In such a conversation each message that comes up to a call in a turn is also one that the other
/// side said and sent in the turns before, except for the stamp.
pub fn calls_hear_unchanged(one: Config, other: Config)
    ensures { (turns : List Turn) → Carried (of_sides one other) turns
        → CommandsKeepTypes turns
        → CallsHearUnchanged (of_sides one other) turns }
{
    sides_are_fair(&one, &other);
}

/// In such a conversation, the reliable provisional responses to an INVITE that a user is told of,
/// in one life of a dialog, have consecutive RSeqs, and the user is told of each once (RFC 3262,
/// section 4). In the turns before the one in which the user is told, the other side said and sent
/// a reliable provisional response with this RSeq and with the status, the tags and the body that
/// are told. Its user answered the request with that status and body, in the call of the request.
/// If the RSeq is above 1, this side said and sent in those turns, in the dialog of that response,
/// a PRACK whose RAck has RSeq 1, the response's CSeq number and INVITE (RFC 3262, section 7.2). If
/// the rounds of this side are counted as below, the response has the Call-ID that is told.
/// The law doesn't say that the response was to this INVITE, or that the first of these RSeqs is 1.
/// `provisionals_come_whole` does, of the INVITE of a call.
pub fn provisionals_told_were_said(one: Config, other: Config)
    ensures { (turns : List Turn) → Carried (of_sides one other) turns
        → CommandsKeepTypes turns
        → ProvisionalsToldAsSaid (of_sides one other) turns }
{
    sides_are_fair(&one, &other);
    provisionals_in_each_life(&one);
    provisionals_in_each_life(&other);
}

/// In such a conversation, for each response that a user is told of in a turn, the other side said
/// and sent one with that status, those tags in From and To, and that body, in the turns before.
/// The response copies Via, From, Call-ID and CSeq from a request that came to the other side, and
/// that this side said and sent before, except for the stamp; and To, if that has a tag (RFC 3261,
/// section 8.2.6.2). The other side's user answered that request so: he gave its call a command to
/// respond with that status and body, which names the request by the id under which it came up; it
/// wasn't refused, since at that input the call asked the request's transaction to send this
/// response. Or the agent answered it by itself, without a body: with 100, 420, 481, 482 or 500,
/// with 200 if it is a PRACK or a CANCEL, or with 487 if it is an INVITE for which a CANCEL came.
/// So a user is told of a 2xx to an INVITE only if the other user gave it. A transaction with the
/// branch and the method of the response was started under the Call-ID and the id that the user is
/// told.
///
/// If the rounds of the side that is told have numbers below 2^64 and fewer than 2^64 events each,
/// of which branches are made: the response has that Call-ID. And unless it is to a CANCEL, it
/// answers the request of that id: the request that came to the other side is the one with which
/// that transaction was started, with the stamp of its source.
pub fn responses_told_were_said(one: Config, other: Config)
    ensures { (turns : List Turn) → Carried (of_sides one other) turns
        → CommandsKeepTypes turns
        → ResponsesToldWereSaid (of_sides one other) turns }
{
    sides_are_fair(&one, &other);
}

/// In such a conversation, a PRACK with a RAck that a side says follows the response that it
/// acknowledges: in the same turn or before, the user was told of a response under the Call-ID of
/// the PRACK. It is among the reliable provisional responses to one INVITE, in one life of the
/// PRACK's dialog, that he was told of, with the RSeq that the RAck names. In the turns before, the
/// other side said and sent that response as a reliable provisional one with that RSeq, as its user
/// answered the request so. Its CSeq has the number that the RAck names, if the rounds of the side
/// that says the PRACK are counted as above; and the RAck's method is INVITE (RFC 3262, sections 4
/// and 7.2). Whenever a call asks a transaction to send such a PRACK, the user is told of that
/// response by an output of the call that stands before, also among the outputs of one input.
pub fn pracks_follow_responses(one: Config, other: Config)
    ensures { (turns : List Turn) → Carried (of_sides one other) turns
        → CommandsKeepTypes turns
        → PracksFollowResponses (of_sides one other) turns }
{
    sides_are_fair(&one, &other);
}

/// In such a conversation, each text that a call sends directly is that of an ACK of its Call-ID,
/// which keeps the rules of messages and follows the 2xx that it acknowledges: by an output that
/// stands before it, also among the outputs of one input, the call told its user of a 2xx. In the
/// turns before, the other side said and sent that response. If the rounds of the side that sends
/// the ACK are counted as above, the response answers an INVITE with the ACK's CSeq number, and the
/// ACK is in the dialog of the response's tags, unless that INVITE was sent in a dialog without a
/// remote tag (RFC 3261, section 13.2.2.4). No call asks a transaction to send an ACK. So a
/// transaction sends only the ACK that it makes for a response of 300 to 699 (section 17.1.1.3).
pub fn acks_follow_responses(one: Config, other: Config)
    ensures { (turns : List Turn) → Carried (of_sides one other) turns
        → CommandsKeepTypes turns
        → AcksFollowResponses (of_sides one other) turns }
{
    sides_are_fair(&one, &other);
}

/// In such a conversation, if the user is told of a reliable provisional response with an RSeq
/// above 1, he was told of one with RSeq 1 in the turns before, under the Call-ID and in the dialog
/// of that response. If the rounds of the side that is told are counted as above, that is the
/// Call-ID that is told, and the other side said and sent the first one with the number of that
/// response's CSeq (RFC 3262, sections 3 and 4). The law doesn't say that both were to one INVITE,
/// or in one life of that dialog.
pub fn the_first_is_told_first(one: Config, other: Config)
    ensures { (turns : List Turn) → Carried (of_sides one other) turns
        → CommandsKeepTypes turns
        → TheFirstIsToldFirst (of_sides one other) turns }
{
    sides_are_fair(&one, &other);
    provisionals_in_each_life(&one);
    provisionals_in_each_life(&other);
}

/// In such a conversation, the reliable provisional responses to the INVITE of a call come whole.
/// Those that a user is told of in one life of a dialog are consecutive ones of those that the
/// other side's user gave to one request in the turns before. That request is the INVITE of this
/// side that the notices name by their id, and it came up to the other side's call of their
/// Call-ID. The responses given to it have the RSeqs 1, 2, 3 and so on. They come in the order in
/// which he gave them, with their RSeqs, statuses, tags and bodies. If the user was told of no
/// others in that dialog, they are the first ones given (RFC 3262, sections 3 and 4). The rounds of
/// both sides have to be counted as above.
pub fn provisionals_come_whole(one: Config, other: Config)
    ensures { (turns : List Turn) → Carried (of_sides one other) turns
        → CommandsKeepTypes turns
        → ProvisionalsComeWhole (of_sides one other) turns }
{
    sides_are_fair(&one, &other);
    provisionals_in_each_life(&one);
    provisionals_in_each_life(&other);
}

/// In such a conversation, for each request that a user is told of in a turn, the other side's user
/// gave the command Invite, Plain or Request in the turns before, under the Call-ID that is told,
/// with the method and the body that are told (INVITE for the command Invite). Under the id of that
/// command its call started a transaction with a request of that Call-ID, method and body, which
/// went out. The request has the remote tag in From, and in To the local tag or none.
pub fn requests_told_were_asked_for(one: Config, other: Config)
    ensures { (turns : List Turn) → Carried (of_sides one other) turns
        → CommandsKeepTypes turns
        → RequestsToldWereAskedFor (of_sides one other) turns }
{
    sides_are_fair(&one, &other);
}

/// In such a conversation, for each ACK that a user is told of in a turn, the other side said and
/// sent an ACK with that body in the turns before, and with the Call-ID that is told, if that
/// side's rounds are counted as above. Either a call sent it directly, after the user of that side
/// was told of the 2xx that it acknowledges, as in `acks_follow_responses`. Or a transaction made
/// it for a response of 300 to 699 (RFC 3261, sections 13.2.2.4 and 17.1.1.3). An INVITE came up to
/// this side under the Call-ID and the id that are told, and its user answered it with a 2xx. The
/// ACK has the CSeq number of that INVITE, and is in the dialog of the tags of that 2xx (section
/// 13.3.1.4).
pub fn acks_told_were_said(one: Config, other: Config)
    ensures { (turns : List Turn) → Carried (of_sides one other) turns
        → CommandsKeepTypes turns
        → AcksToldWereSaid (of_sides one other) turns }
{
    sides_are_fair(&one, &other);
}

/// In such a conversation, for each PRACK that a user is told of in a turn, the other side said and
/// sent a PRACK of that Call-ID in the turns before, with that body, and with the RSeq that is told
/// in RAck (RFC 3262, section 7.2). Its user gave the command Prack under that Call-ID with that
/// body, and a transaction was started with the PRACK under the id of that command. Or there is no
/// body: such a PRACK may be the agent's own.
pub fn pracks_told_were_said(one: Config, other: Config)
    ensures { (turns : List Turn) → Carried (of_sides one other) turns
        → CommandsKeepTypes turns
        → PracksToldWereSaid (of_sides one other) turns }
{
    sides_are_fair(&one, &other);
}

/// In such a conversation, for each CANCEL that a user is told of in a turn, the other side said
/// and sent a CANCEL of that Call-ID in the turns before, because its user gave the command Cancel
/// in that call. It is the CANCEL of the INVITE that was sent under the id that the command names
/// (RFC 3261, section 9.1), and a transaction was started with it under the id of the command. It
/// came up for an INVITE that came up under the Call-ID and the id that are told: the transactions
/// of both have one branch and one sent-by (section 9.2). If the rounds of the side that said the
/// CANCEL are counted as above, that is the INVITE that the command names, with the stamp of its
/// source.
pub fn cancels_told_were_asked_for(one: Config, other: Config)
    ensures { (turns : List Turn) → Carried (of_sides one other) turns
        → CommandsKeepTypes turns
        → CancelsToldWereAskedFor (of_sides one other) turns }
{
    sides_are_fair(&one, &other);
}

/// In such a conversation, each message that a call asks a transaction to send keeps the rules of
/// messages, and each text that it sends directly is that of such a message.
pub fn calls_keep_rules(one: Config, other: Config)
    ensures { (turns : List Turn) → Carried (of_sides one other) turns
        → CommandsKeepTypes turns
        → CallsKeepRules (of_sides one other) turns }
{
    sides_are_fair(&one, &other);
}

// What the laws rest on, of both sides.
pub(crate) fn sides_are_fair(one: &Config, other: &Config)
    ensures { IsFair (of_sides one.now other.now) }
{
    numbers_fit(one.local);
    numbers_fit(other.local);
    let (local, seed) = (one.local, one.seed);
    let calls_of_one = Calls { local, seed };
    let (local, seed) = (other.local, other.seed);
    let calls_of_other = Calls { local, seed };
    laws_of_phases(&Transactions);
    laws_of_phases(&calls_of_one);
    laws_of_phases(&calls_of_other);
}

fn numbers_fit(address: Addr)
    ensures { IsAddr address }
{
    let [_a, _b, _c, _d] = address.ip;
    let _port = address.port;
}
