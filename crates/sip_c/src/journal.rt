//! The functions by which C keeps a journal of an agent's rounds, and goes on from one.

ghost use Rattle.std.specs.Prelude.{◌≡◌, IfSome, None};
ghost use Rattle.sip_c.specs.Called.{TellsNothing, TellsOrNot};
ghost use Rattle.sip_c.specs.Journal.{Resumes, TellsRound, nothing_resumed};

use crate::handle::Handle;
use crate::questions::tell_text;
use crate::status::{NO_AGENT, NO_MEMORY, number_of_resume};
use crate::values::{Resumed, resumed_of};
use std::alloc::Global;

/// The lines of the last round.
#[unsafe(no_mangle)]
pub extern "C" fn sip_ua_raw_round_text(
    alloc: Global,
    handle: &mut Handle,
    len: &mut usize,
    buffer: &mut [u8],
) -> u32
    ensures same { handle.new.owned.host ≡ handle.old.owned.host }
    ensures none { handle.old.owned.host ≡ None
        → TellsNothing result len.new 0 buffer.old buffer.new }
    ensures told { IfSome handle.old.owned.host (λ host.
        TellsOrNot result len.new 0 buffer.old buffer.new
        (TellsRound result len.new buffer.old buffer.new host)) }
{
    *len = 0;
    let Some(host) = handle.take(alloc) else {
        return NO_AGENT;
    };
    let answer = host.round_text();
    handle.put(host);
    match answer {
        Ok(text) => tell_text(&text, len, buffer),
        Err(_) => NO_MEMORY,
    }
}

/// Runs the first round of a text again, which says the rounds of an agent.
#[unsafe(no_mangle)]
pub extern "C" fn sip_ua_raw_resume(
    alloc: Global,
    handle: &mut Handle,
    text: &[u8],
    told: &mut Resumed,
) -> u32
    ensures { Resumes handle.old.owned.host handle.new.owned.host result told.new text.now }
{
    let Some(mut host) = handle.take(alloc) else {
        *told = Resumed {
            len: 0,
            bad_line: 0,
        };
        return NO_AGENT;
    };
    let answer = host.resume(text);
    handle.put(host);
    *told = resumed_of(&answer);
    number_of_resume(&answer)
}
