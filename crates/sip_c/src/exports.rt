//! The functions by which C begins, feeds, runs and ends an agent, and takes its outputs. Each
//! takes the agent out of its handle, calls it, and puts it back. Those of `questions` do the same.

ghost use Rattle.std.specs.Prelude.{◌≡◌, ℕ, IfOk, IfSome, IsSome, List, None, OnErr, Option, is_some, if◌then◌else◌};
ghost use Rattle.std.specs.List.{slice_get};
ghost use Rattle.sip_round.specs.Answers.{StandsFor};
ghost use Rattle.sip_host.specs.Hosting.{RunsRound, TakesDatagram, TakesFailure, TakesLine, TakesLines, shard_of};
ghost use Rattle.sip_round.specs.declared.config.Config.{Config};
ghost use Rattle.sip_round.specs.declared.round.Round.{Round};
ghost use Rattle.sip_c.specs.Typed.{GivesNextTyped, GivesTyped};
ghost use Rattle.sip_c.specs.Called.{Calls, GivesNext, IsNextDue, Makes, Skips, addr_of, can_begin, config_of, due_of};

use crate::handle::Handle;
use crate::status::{
    AGENT_EXISTS, BAD_CONFIGURATION, NO_AGENT, NO_MEMORY, OK, number_of, number_of_answer,
    room_answer,
};
use crate::typed::{TypedOutput, nothing_typed, texts_of, typed_of};
use crate::values::{self, Address, Configuration, Due, Told};
use sip_host::{Host, put};
use sip_round::MAX_MOMENT;
use std::alloc::{AllocError, Global};

/// The maximum number of shards.
const MAX_SHARDS: usize = 256;

/// Begins an agent with `shards` shards, in a handle that holds none.
#[unsafe(no_mangle)]
pub extern "C" fn sip_ua_raw_new(
    alloc: Global,
    handle: &mut Handle,
    configuration: &Configuration,
    shards: usize,
) -> u32
    ensures held { IsSome handle.old.owned.host
        → (result ≡ 2) × (handle.new.owned.host ≡ handle.old.owned.host) }
    ensures made { handle.old.owned.host ≡ None
        → Makes (can_begin (config_of configuration.now) shards) handle.new.owned.host result
        (config_of configuration.now) shards }
{
    if handle.is_held() {
        return AGENT_EXISTS;
    }
    if !can_begin(configuration, shards) {
        return BAD_CONFIGURATION;
    }
    let Ok(host) = Host::new(alloc, configuration.config(), shards) else {
        return NO_MEMORY;
    };
    let Ok(host) = Box::new(alloc, host) else {
        return NO_MEMORY;
    };
    handle.put(host);
    OK
}

// Whether an agent with this configuration and this number of shards can begin.
fn can_begin(configuration: &Configuration, shards: usize) -> bool
    ensures { result ≡ can_begin (config_of configuration.now) shards }
{
    1 <= shards && shards <= MAX_SHARDS && configuration.first <= MAX_MOMENT
}

/// A datagram came in.
#[unsafe(no_mangle)]
pub extern "C" fn sip_ua_raw_datagram(
    alloc: Global,
    handle: &mut Handle,
    from: &Address,
    bytes: &[u8],
) -> u32
    ensures { Calls handle.old.owned.host handle.new.owned.host result
        (TakesDatagram (addr_of from.now) bytes.now) }
{
    let Some(mut host) = handle.take(alloc) else {
        return NO_AGENT;
    };
    let answer = host.datagram(from.addr(), bytes);
    handle.put(host);
    number_of_answer(answer)
}

/// A line of an event file that says an event, without its line end.
#[unsafe(no_mangle)]
pub extern "C" fn sip_ua_raw_event_line(alloc: Global, handle: &mut Handle, line: &[u8]) -> u32
    ensures { Calls handle.old.owned.host handle.new.owned.host result (TakesLine line.now) }
{
    let Some(mut host) = handle.take(alloc) else {
        return NO_AGENT;
    };
    let answer = host.event_line(line);
    handle.put(host);
    number_of_answer(answer)
}

/// The lines of an event as a session file has them. The last one stands without its end.
#[unsafe(no_mangle)]
pub extern "C" fn sip_ua_raw_event_lines(alloc: Global, handle: &mut Handle, lines: &[u8]) -> u32
    ensures { Calls handle.old.owned.host handle.new.owned.host result (TakesLines lines.now) }
{
    let Some(mut host) = handle.take(alloc) else {
        return NO_AGENT;
    };
    let answer = host.event_lines(lines);
    handle.put(host);
    number_of_answer(answer)
}

/// The output with this index in the last round is a send that failed.
#[unsafe(no_mangle)]
pub extern "C" fn sip_ua_raw_failed(alloc: Global, handle: &mut Handle, output: usize) -> u32
    ensures { Calls handle.old.owned.host handle.new.owned.host result (TakesFailure output) }
{
    let Some(mut host) = handle.take(alloc) else {
        return NO_AGENT;
    };
    let answer = host.failed(output);
    handle.put(host);
    number_of_answer(answer)
}

/// Runs a round with the events, at a moment in ms.
#[unsafe(no_mangle)]
pub extern "C" fn sip_ua_raw_run(alloc: Global, handle: &mut Handle, moment: u64) -> u32
    ensures { Calls handle.old.owned.host handle.new.owned.host result (RunsRound moment) }
{
    let Some(mut host) = handle.take(alloc) else {
        return NO_AGENT;
    };
    let answer = host.run(moment);
    handle.put(host);
    number_of_answer(answer)
}

/// The next output of the last round, if one is left. It is taken if its text fits into the buffer.
#[unsafe(no_mangle)]
pub extern "C" fn sip_ua_raw_next_output(
    alloc: Global,
    handle: &mut Handle,
    told: &mut Told,
    buffer: &mut [u8],
) -> u32
    ensures { GivesNext handle.old.owned.host handle.new.owned.host result told.new buffer.old
        buffer.new }
{
    *told = values::told_of(None);
    let Some(mut host) = handle.take(alloc) else {
        return NO_AGENT;
    };
    let room = buffer.len();
    let answer = host.next_output(buffer);
    handle.put(host);
    match answer {
        Ok(next) => {
            *told = values::told_of(next);
            room_answer(told.len, room)
        }
        Err(fault) => number_of(fault),
    }
}

/// The next output of the last round, by its fields, if one is left. It is taken if its texts fit
/// into the buffer.
#[unsafe(no_mangle)]
pub extern "C" fn sip_ua_raw_next(
    alloc: Global,
    handle: &mut Handle,
    told: &mut TypedOutput,
    buffer: &mut [u8],
) -> u32
    ensures { GivesNextTyped handle.old.owned.host handle.new.owned.host result told.new buffer.old
        buffer.new }
{
    *told = nothing_typed();
    let Some(mut host) = handle.take(alloc) else {
        return NO_AGENT;
    };
    let answer = give(alloc, &mut host, buffer);
    handle.put(host);
    match answer {
        Ok((number, typed)) => {
            *told = typed;
            number
        }
        Err(_) => NO_MEMORY,
    }
}

// The number of the call, and the next output. It is taken if its texts fit into the buffer.
fn give(alloc: Global, host: &mut Host, buffer: &mut [u8]) -> Result<(u32, TypedOutput), AllocError>
    ensures given { IfOk result (λ told. GivesTyped (slice_get host.old.outputs.items
        host.old.taken) host.old host.new told.0 told.1 buffer.old buffer.new) }
    ensures left { slice_get host.old.outputs.items host.old.taken ≡ None
        → OnErr result ⊥ }
    ensures same { OnErr result ((host.new ≡ host.old) × (buffer.new ≡ buffer.old)) }
{
    let Some(placed) = host.peek() else {
        return Ok((OK, nothing_typed()));
    };
    let texts = texts_of(alloc, &placed.output)?;
    let typed = typed_of(host.taken(), placed);
    put(&texts, buffer);
    if texts.len() <= buffer.len() {
        host.take();
    }
    Ok((room_answer(texts.len(), buffer.len()), typed))
}

/// Takes the next output of the last round without its text, if one is left: one that no buffer has
/// room for, or that nobody wants.
#[unsafe(no_mangle)]
pub extern "C" fn sip_ua_raw_skip(alloc: Global, handle: &mut Handle) -> u32
    ensures { Skips handle.old.owned.host handle.new.owned.host result }
{
    match handle.take(alloc) {
        Some(mut host) => {
            host.take();
            handle.put(host);
            OK
        }
        None => NO_AGENT,
    }
}

/// The first moment at which a held transaction or call is due, if there is one.
#[unsafe(no_mangle)]
pub extern "C" fn sip_ua_raw_next_due(alloc: Global, handle: &mut Handle, due: &mut Due) -> u32
    ensures same { handle.new.owned.host ≡ handle.old.owned.host }
    ensures none { handle.old.owned.host ≡ None → (result ≡ 1) × (due.new ≡ due_of None) }
    ensures told { IfSome handle.old.owned.host (λ host. (moment : Option ℕ) × (result ≡ 0)
        × (due.new ≡ due_of moment) × (host.agent.shards ≡ None → moment ≡ None)
        × ((config : Config) (rounds : List Round)
        → StandsFor shard_of host.agent config rounds → IsNextDue config rounds moment)) }
{
    let Some(host) = handle.take(alloc) else {
        *due = values::due_of(None);
        return NO_AGENT;
    };
    *due = values::due_of(host.next_due());
    handle.put(host);
    OK
}

/// Ends the agent of a handle, which holds none after that.
#[unsafe(no_mangle)]
pub extern "C" fn sip_ua_raw_free(alloc: Global, handle: &mut Handle) -> u32
    ensures none { handle.new.owned.host ≡ None }
    ensures told { result ≡ (if is_some handle.old.owned.host then 0 else 1) }
{
    match handle.take(alloc) {
        Some(_) => OK,
        None => NO_AGENT,
    }
}
