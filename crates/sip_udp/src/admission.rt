//! Which datagrams get into the rounds of an agent: those that would begin a transaction may not be
//! too large, and not too many.

ghost use Rattle.std.specs.Prelude.{◌≡◌, ◌+◌, ◌-◌, ◌^◌, ◌++◌, ◌∷◌, [], IfOk, List, Ok, OnOk, filter, length, min, not};
ghost use Rattle.std.specs.List.{list_all};
ghost use Rattle.sip_reader.specs.ReadMessage.{Gives, message_at};
ghost use Rattle.sip_round.specs.Answers.{StandsFor, past_of};
ghost use Rattle.sip_round.specs.Live.{live_of};
ghost use Rattle.sip_round.specs.declared.config.Config.{Config as AConfig};
ghost use Rattle.sip_round.specs.declared.round.Round.{Round as ARound};
ghost use Rattle.sip_udp.specs.Admission as spec;
ghost use Rattle.sip_udp.specs.Admission.{is_shed, shard_of};

use sip_message::{Message, ReadFault, Spread};
use sip_reader::read;
use sip_round::{Agent, Event};
use std::alloc::{AllocError, Global};

/// How much an agent holds, compared with the most that it is to hold.
#[derive(Clone, Copy)]
pub(crate) enum Load {
    /// Less.
    Low,
    /// As much, but less than twice as much.
    High,
    /// Twice as much.
    Full,
}

/// Up to how many bytes a datagram is let in without a look at its Via values. Its responses repeat
/// them, so that a few bytes of a repeat could send many.
const USUAL_LENGTH: usize = 1200;

/// What a request may have that would begin a transaction.
#[derive(Clone, Copy)]
pub struct RequestLimits {
    /// How many bytes.
    pub largest: u32,
    /// How many Via values, if it has more than 1,200 bytes.
    pub vias: u32,
}

impl RequestLimits {
    /// The usual ones.
    pub const USUAL: RequestLimits = RequestLimits {
        largest: 16_384,
        vias: 70,
    };
}

/// How many transactions an agent is to hold, what may begin one, and how many datagrams were shed.
#[derive(Clone, Copy)]
pub(crate) struct Admission {
    most: Option<u32>,
    limits: RequestLimits,
    shed: u64,
}

impl Admission {
    /// Requests above the limits that would begin a transaction are shed. At a load of `most`
    /// transactions all others are, too, unless they are of a call that stands; at twice that load
    /// also these. With `None` any load is a low one.
    pub(crate) fn new(most: Option<u32>, limits: RequestLimits) -> Admission
        ensures most { result.most ≡ most }
        ensures limits { result.limits ≡ limits }
    {
        Admission {
            most,
            limits,
            shed: 0,
        }
    }

    /// How many datagrams were shed, if any were or might have been for the load.
    pub(crate) fn shed(self) -> Option<u64>
        ensures { result ≡ spec.shed_told self.most self.shed }
    {
        if self.most.is_some() || self.shed > 0 {
            Some(self.shed)
        } else {
            None
        }
    }

    /// The events without the datagrams that are shed.
    ///
    /// # Errors
    ///
    /// Memory ran out. Then the events are lost.
    pub(crate) fn admit(
        &mut self,
        alloc: Global,
        agent: &Agent<Spread>,
        events: Vec<Event>,
    ) -> Result<Vec<Event>, AllocError>
        ensures most { self.new.most ≡ self.old.most }
        ensures limits { self.new.limits ≡ self.old.limits }
        ensures admitted { IfOk result (λ admitted. (config : AConfig) (rounds : List ARound)
            → StandsFor shard_of agent.now config rounds
            → admitted.items ≡ filter (λ event. not (is_shed config rounds self.old.limits
            (spec.load_of self.old.most (live_of config (past_of config rounds)).0) event))
            events.items) }
        ensures count { IfOk result (λ admitted. self.new.shed
            ≡ spec.shed_after self.old.shed (length events.items) (length admitted.items)) }
    {
        let load = load_of(self.most, agent.live().0);
        let given = events.len();
        let admitted = admitted_by(alloc, agent, self.limits, load, events)?;
        let shed = given.saturating_sub(admitted.len()) as u64;
        self.shed = self.shed.saturating_add(shed);
        Ok(admitted)
    }

    /// Counts what another agent shed as well.
    pub(crate) fn add(&mut self, other: Admission)
        ensures most { self.new.most ≡ self.old.most }
        ensures limits { self.new.limits ≡ self.old.limits }
        ensures sum { self.new.shed ≡ min (self.old.shed + other.shed) (2 ^ 64 - 1) }
    {
        self.shed = self.shed.saturating_add(other.shed);
    }
}

// The load of an agent that holds so many transactions.
fn load_of(most: Option<u32>, held: u128) -> Load
    ensures { result ≡ spec.load_of most held }
{
    let Some(most) = most.map(u128::from) else {
        return Load::Low;
    };
    if held < most {
        Load::Low
    } else if held < 2 * most {
        Load::High
    } else {
        Load::Full
    }
}

// The events without the datagrams that are shed at this load.
fn admitted_by(
    alloc: Global,
    agent: &Agent<Spread>,
    limits: RequestLimits,
    load: Load,
    events: Vec<Event>,
) -> Result<Vec<Event>, AllocError>
    ensures { IfOk result (λ admitted. (config : AConfig) (rounds : List ARound)
        → StandsFor shard_of agent.now config rounds
        → admitted.items ≡ filter (λ event. not (is_shed config rounds limits load event))
        events.items) }
{
    if are_usual(limits, load, &events) {
        return Ok(events);
    }
    let mut admitted = Vec::with_capacity(alloc, events.len())?;
    for event in events {
        admit_one(alloc, agent, limits, load, event, &mut admitted)?;
    }
    Ok(admitted)
}

// Adds an event to those that are let in, unless it is shed.
fn admit_one(
    alloc: Global,
    agent: &Agent<Spread>,
    limits: RequestLimits,
    load: Load,
    event: Event,
    admitted: &mut Vec<Event>,
) -> Result<(), AllocError>
    ensures { OnOk result ((config : AConfig) (rounds : List ARound)
        → StandsFor shard_of agent.now config rounds
        → admitted.new.items ≡ admitted.old.items
        ++ filter (λ event. not (is_shed config rounds limits load event)) (event ∷ [])) }
{
    if is_shed_at(alloc, agent, limits, load, &event)? {
        return Ok(());
    }
    admitted.push(event)?;
    Ok(())
}

// Whether each event is let in without a look at its message.
fn are_usual(limits: RequestLimits, load: Load, events: &[Event]) -> bool
    ensures { result ≡ list_all (spec.is_usual limits load) events.now }
{
    events.iter().all(|event| is_usual(limits, load, event))
}

fn is_usual(limits: RequestLimits, load: Load, event: &Event) -> bool
    ensures { result ≡ spec.is_usual limits load event.now }
{
    match (event, load) {
        (Event::Datagram { bytes, .. }, Load::Low) => {
            let len = bytes.as_slice().len();
            len <= limits.largest as usize && len <= USUAL_LENGTH
        }
        (Event::Datagram { .. }, Load::High | Load::Full) => false,
        (Event::Failed(_) | Event::Command(_), _) => true,
    }
}

fn is_shed_at(
    alloc: Global,
    agent: &Agent<Spread>,
    limits: RequestLimits,
    load: Load,
    event: &Event,
) -> Result<bool, AllocError>
    ensures { IfOk result (λ shed. (config : AConfig) (rounds : List ARound)
        → StandsFor shard_of agent.now config rounds
        → shed ≡ is_shed config rounds limits load event.now) }
{
    let Event::Datagram { bytes, .. } = event else {
        return Ok(false);
    };
    if is_usual(limits, load, event) {
        return Ok(false);
    }
    let bytes = bytes.as_slice();
    match read_datagram(alloc, bytes) {
        Ok(message) => is_shed_message(agent, limits, load, bytes.len(), &message),
        Err(ReadFault::NoMemory) => Err(AllocError),
        Err(_) => Ok(false),
    }
}

fn read_datagram(alloc: Global, bytes: &[u8]) -> Result<Message, ReadFault>
    ensures { Gives result (message_at bytes.now) }
{
    read(alloc, bytes)
}

fn is_shed_message(
    agent: &Agent<Spread>,
    limits: RequestLimits,
    load: Load,
    len: usize,
    message: &Message,
) -> Result<bool, AllocError>
    ensures { IfOk result (λ shed. (config : AConfig) (rounds : List ARound)
        → StandsFor shard_of agent.now config rounds
        → shed ≡ spec.is_shed_message config rounds limits load len (Ok message.now)) }
{
    if is_let_in(load, message) && !is_too_large(limits, len, message) {
        return Ok(false);
    }
    agent.would_begin(message)
}

// Whether a message of so many bytes is larger than a request may be that begins a transaction.
fn is_too_large(limits: RequestLimits, len: usize, message: &Message) -> bool
    ensures { result ≡ spec.is_too_large limits len message.now }
{
    len > limits.largest as usize
        || len > USUAL_LENGTH && message.vias.as_slice().len() > limits.vias as usize
}

// Whether the message is let in, whatever it begins.
fn is_let_in(load: Load, message: &Message) -> bool
    ensures { result ≡ spec.is_let_in load message.now }
{
    match load {
        Load::Low => true,
        Load::High => is_of_a_call(message),
        Load::Full => false,
    }
}

// Whether a request may be of a call that stands: it is in a dialog, or a CANCEL.
fn is_of_a_call(message: &Message) -> bool
    ensures { result ≡ spec.is_of_a_call message.now }
{
    !message.to.tag().is_empty() || message.method().as_slice() == b"CANCEL".as_slice()
}
