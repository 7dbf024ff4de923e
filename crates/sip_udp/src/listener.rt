//! The listener: it reads datagrams on a thread of its own, and posts each to its agent.

ghost use Rattle.std.specs.Prelude.{◌≡◌, ◌≢◌, ◌∷◌, ◌<◌, ◌≤◌, [], Err, ℕ, List, length, IfNone, IfOk, IfSome, Some, slice_get};
ghost use Rattle.std.specs.List.{AllZip};
ghost use Rattle.sip_desk.specs.Lines.{SameLine, posted};
ghost use Rattle.sip_desk.specs.declared.poster.Poster.{Poster as APoster};
ghost use Rattle.sip_round.specs.declared.round.Event.{Event as AnEvent};
ghost use Rattle.sip_round.specs.declared.round.Event.TheVariants.{Datagram as ADatagram};
ghost use Rattle.sip_udp.specs.declared.fault.UaFault.TheVariants.{NoMemory};
ghost use Rattle.sip_udp.specs.Hearing.{EndsAsPosted, EndsLine, Hears, Posts, agent_of_datagram, ended_with, posted_by};

use crate::bell::Bell;
use crate::fault::UaFault;
use crate::inlet::{Inlet, Received};
use sip_agents::{Destination, MAX_AGENTS, destination_of};
use sip_desk::{Ended, Poster};
use sip_message::{Addr, Spread};
use sip_round::Event;
use sip_text::Text;
use std::alloc::{AllocError, Global};
use std::sync::Arc;
use std::sync::atomic::{AtomicBool, Ordering};

/// How many receives may fail in a row.
const MAX_FAILED: u32 = 100;

/// The agent of what isn't divided.
const FIRST: usize = 0;

/// What the listener and the turns tell each other.
#[derive(Drop)]
pub struct Flags {
    /// The turns are over.
    pub stop: AtomicBool,
    /// The listener has ended.
    pub ended: AtomicBool,
    /// The bell rings when the listener has posted something or has ended.
    pub(crate) bell: Option<Arc<Bell>>,
}

impl Flags {
    /// Neither the turns are over, nor has the listener ended.
    pub fn new() -> Flags {
        Flags {
            stop: AtomicBool::new(false),
            ended: AtomicBool::new(false),
            bell: None,
        }
    }

    /// Wakes the turns.
    pub(crate) fn ring(&self) {
        if let Some(bell) = &self.bell {
            bell.ring();
        }
    }

    /// Says that the listener has ended.
    pub(crate) fn end(&self) {
        self.ended.store(true, Ordering::SeqCst);
        self.ring();
    }
}

/// What is left of a listener.
#[derive(Drop)]
pub struct Heard {
    /// The end of each line, unless its desk is gone. No ends if memory ran out.
    pub ends: Option<Vec<Option<Ended<Event>>>>,
    /// Why it ended before it was told to.
    pub fault: Option<UaFault>,
    /// How many datagrams their lines had no room for.
    pub lost: u64,
}

/// Posts each datagram that comes in until it is told to stop, and then ends the lines. There is a
/// line for each agent, up to 16: a datagram goes to the agent of its Call-ID, and without one to
/// the first. If its line has no room for a datagram, the datagram is lost.
pub fn hear<I: Inlet>(
    alloc: Global,
    inlet: &mut I,
    mut buffer: Vec<u8>,
    mut lines: Vec<Poster<Event>>,
    flags: Arc<Flags>,
) -> Heard
    ensures ends { IfSome result.ends (λ ends. AllZip EndsLine lines.items ends.items) }
    ensures memory { IfNone result.ends (result.fault ≡ Some NoMemory) }

    // Unless memory ran out, each datagram that came stands on the line of its agent, or is lost.
    ensures hears { IfSome result.ends (λ ends. result.fault ≢ Some NoMemory
        → Hears (I.given inlet.old) (I.given inlet.new) lines.items (ended_with ends.items)
        result.lost) }
{
    let mut lost = 0;
    let posted = post_all(alloc, inlet, &mut buffer, &mut lines, &flags, &mut lost);
    let heard = finish_all(alloc, lines, posted.err(), lost);
    flags.end();
    heard
}

// Ends the lines of a listener.
fn finish_all(alloc: Global, lines: Vec<Poster<Event>>, fault: Option<UaFault>, lost: u64) -> Heard
    ensures ends { IfSome result.ends (λ ends. AllZip EndsLine lines.items ends.items) }
    ensures posted { IfSome result.ends (λ ends. AllZip EndsAsPosted lines.items ends.items) }
    ensures memory { IfNone result.ends (result.fault ≡ Some NoMemory) }
    ensures fault { IfSome result.ends (λ ends. result.fault ≡ fault) }
    ensures lost { result.lost ≡ lost }
{
    match ends_of(alloc, lines) {
        Ok(ends) => Heard {
            ends: Some(ends),
            fault,
            lost,
        },
        Err(AllocError) => Heard {
            ends: None,
            fault: Some(UaFault::NoMemory),
            lost,
        },
    }
}

// The ends of these lines.
fn ends_of(
    alloc: Global,
    lines: Vec<Poster<Event>>,
) -> Result<Vec<Option<Ended<Event>>>, AllocError>
    ensures ends { IfOk result (λ ends. AllZip EndsLine lines.items ends.items) }
    ensures posted { IfOk result (λ ends. AllZip EndsAsPosted lines.items ends.items) }
{
    let mut ends = Vec::with_capacity(alloc, lines.len())?;
    for line in lines {
        ends.push(line.finish().ok())?;
    }
    Ok(ends)
}

// Posts datagrams until it is told to stop.
fn post_all<I: Inlet>(
    alloc: Global,
    inlet: &mut I,
    buffer: &mut [u8],
    lines: &mut [Poster<Event>],
    flags: &Flags,
    lost: &mut u64,
) -> Result<(), UaFault>
    requires { lost.old ≡ 0 }
    ensures same { AllZip SameLine lines.old lines.new }
    ensures hears { result ≢ Err NoMemory → Hears (I.given inlet.old) (I.given inlet.new) lines.old
        (posted_by lines.new) lost.new }
{
    let mut failed = 0;
    for _ in 0..u64::MAX {
        if flags.stop.load(Ordering::SeqCst) {
            break;
        }
        match inlet.receive(buffer) {
            Received::Datagram { from, length } => {
                if !post(alloc, lines, from, &buffer[..length])? {
                    *lost = lost.saturating_add(1);
                }
                flags.ring();
                failed = 0;
            }
            Received::Nothing => failed = 0,
            Received::Failed if failed == MAX_FAILED - 1 => return Err(UaFault::Socket),
            Received::Failed => failed += 1,
        }
    }
    Ok(())
}

// Posts a datagram to its agent if there is room, and says whether there was.
fn post(
    alloc: Global,
    lines: &mut [Poster<Event>],
    from: Addr,
    bytes: &[u8],
) -> Result<bool, AllocError>
    ensures same { AllZip SameLine lines.old lines.new }
    ensures posted { IfOk result (λ has_room. (number : ℕ) (line later : APoster AnEvent)
        → slice_get lines.old number ≡ Some line → slice_get lines.new number ≡ Some later
        → Posts (length lines.old) number line (posted later)
        ((ADatagram from bytes.now, has_room) ∷ [])) }
{
    let bytes = Text::copy_of(alloc, bytes)?;
    let event = Event::Datagram { from, bytes };
    let agent = agent_of(alloc, lines.len(), &event)?;
    if agent >= lines.len() {
        return Ok(false);
    }
    Ok(lines[agent].post(event).is_ok())
}

// Which of so many agents a datagram is for. With one agent no Call-ID is looked for.
fn agent_of(alloc: Global, agents: usize, event: &Event) -> Result<usize, AllocError>
    ensures { IfOk result (λ agent. (from : Addr) (bytes : List ℕ)
        → event.now ≡ ADatagram from bytes → agent ≡ agent_of_datagram agents bytes) }
{
    if agents < 2 || agents > MAX_AGENTS {
        return Ok(FIRST);
    }
    match destination_of(alloc, &Spread, agents, event)? {
        Destination::One(agent) => Ok(agent),
        Destination::All => Ok(FIRST),
    }
}
