//! Whether a journal of `ua call` has the call that the words ask for.

use crate::failure::Failure;
use crate::host::{Access, Journals, open};
use crate::repair::whole;
use sip_files::{FileKind, first_round_of, read_round};
use sip_round::{Event, Round};
use sip_udp::{CallPlan, UaFault};
use sip_user::{Invite, UserCommand};
use std::alloc::Global;
use std::io::{self, Read};

/// How many bytes of a journal are read: the head, and a first round whose INVITE has a body as
/// long as a datagram.
const BEGINNING: u64 = 1 << 20;

/// Refuses a journal that begins with something else than the call of this plan: that call would
/// never be made. A journal without a whole round is that of any call.
///
/// # Errors
///
/// `BadArgument` with the option that asks for something else; `Journal`.
pub(crate) fn check_call<T: Journals>(
    rt: &T,
    alloc: Global,
    path: &str,
    plan: &CallPlan,
) -> Result<(), Failure> {
    match first_round(rt, alloc, path) {
        Ok(Some(first)) => check_events(first.events.as_slice(), plan),
        Ok(None) => Ok(()),
        Err(error) => Err(Failure::of_file(UaFault::Journal, "journal", error)),
    }
}

// The first round of a journal, if it has one.
fn first_round<T: Journals>(rt: &T, alloc: Global, path: &str) -> io::Result<Option<Round>> {
    let mut text = Vec::new(alloc);
    let file = open(rt, path, Access::Read)?;
    file.take(BEGINNING).read_to_end(&mut text)?;
    Ok(round_after_head(alloc, whole(FileKind::Events, &text)))
}

fn round_after_head(alloc: Global, text: &[u8]) -> Option<Round> {
    let head = first_round_of(text);
    let rest = text.get(head.len()..)?;
    read_round(alloc, first_round_of(rest)).ok()
}

fn check_events(events: &[Event], plan: &CallPlan) -> Result<(), Failure> {
    match events {
        [] => Ok(()),
        [Event::Command(UserCommand::Invite(invite)), ..] => check_invite(invite, plan),
        _ => Err(Failure::of_word("journal", "not of a call")),
    }
}

fn check_invite(invite: &Invite, plan: &CallPlan) -> Result<(), Failure> {
    let option = if invite.address != plan.to {
        "to"
    } else if invite.request_uri != plan.uri {
        "uri"
    } else if invite.call_id != plan.call_id {
        "call-id"
    } else {
        return Ok(());
    };
    Err(Failure::of_word(option, "not that of the journal"))
}
