//! The turns of a user agent. Each turn is a round, or several while they are full.

ghost use Rattle.std.specs.Prelude.{◌≡◌, ◌++◌, List, OnOk, map};
ghost use Rattle.sip_desk.specs.Lines.{KeepsLines};
ghost use Rattle.sip_round.specs.declared.round.Event.{Event as AnEvent};
ghost use Rattle.sip_udp.specs.Sending.{SendsAll};

use crate::bell::Bell;
use crate::counts::Tally;
use crate::division::Division;
use crate::dropped_bytes::{put_back, take_dropped};
use crate::endpoint::Endpoint;
use crate::fault::UaFault;
use crate::moments::Moments;
use crate::notices::{Telling, write_ids, write_notices, write_text};
use crate::outlet::{CountedSocket, Outlet};
use crate::record::Record;
use crate::record_file::RecordFile;
use crate::reflected::take_reflected;
use crate::sending::send_all;
use crate::time_limit::{TimeLeft, TimeLimit};
use crate::user::User;
use sip_desk::Desk;
use sip_files::{FileKind, write_event};
use sip_message::Spread;
use sip_round::{Agent, Event, OpenGate, PlacedOutput, Round, RoundFault};
use sip_text::Series;
use std::alloc::{AllocError, Global};
use std::io::Write;
use std::mem;
use std::sync::Arc;
use std::sync::atomic::{AtomicBool, Ordering};
use std::thread::{self, Threads};
use std::time::{Clock, Duration};

/// How many datagrams, or lines of a pipe, are collected at one time at most.
pub(crate) const MOST_COLLECTED: usize = 1024;

/// How many rounds a turn has at most.
const MOST_ROUNDS: u32 = 64;

/// How long a turn takes at least, in ms; at its bell it waits at most that long.
const PAUSE: u64 = 10;

/// How a turn ends.
#[derive(Clone, Copy)]
enum TurnEnd {
    /// The turns are over.
    Over,
    /// Nothing waits.
    Done,
    /// Its last round was full, so that more may wait.
    Full,
}

/// A round of a journal that was run again.
#[derive(Drop)]
struct PastRound {
    number: u64,
    round: Round,
    outputs: Vec<PlacedOutput>,
}

/// An agent between two turns.
pub(crate) struct Turns<F> {
    alloc: Global,
    /// The endpoint, without its record and its past.
    pub(crate) endpoint: Endpoint<F>,
    agent: Agent<Spread>,
    pub(crate) user: User,
    record: Record<F>,
    limit: TimeLimit,
    pub(crate) tally: Tally,
    moments: Moments,
    // The number of the next round.
    number: u64,
    // The events of the next rounds.
    waiting: Vec<Event>,
}

impl<F: Drop> Drop for Turns<F> {
    fn drop(self) {
        let Turns {
            alloc: _,
            endpoint: _,
            agent: _,
            user: _,
            record: _,
            limit: _,
            tally: _,
            moments: _,
            number: _,
            waiting: _,
        } = self;
    }
}

impl<F: RecordFile> Turns<F> {
    /// The turns of a user at an endpoint, before the first one. They take the endpoint's record;
    /// the head of one that is new is written.
    ///
    /// # Errors
    ///
    /// `Socket` if the clock fails; `Journal` or `NoMemory`.
    pub(crate) fn new<R: Clock, E: Write>(
        rt: &R,
        alloc: Global,
        mut endpoint: Endpoint<F>,
        user: User,
        errors: &mut E,
    ) -> Result<Turns<F>, UaFault> {
        let moments = Moments::new(rt)?;
        let config = endpoint.config;
        let agent = Agent::new(alloc, config, endpoint.division.shards, Spread)?;
        let mut turns = Turns {
            alloc,
            agent,
            user,
            record: endpoint.take_record(),
            limit: TimeLimit::new(endpoint.seconds, endpoint.input.take()),
            tally: Tally::new(alloc, &endpoint),
            endpoint,
            moments,
            number: config.first,
            waiting: Vec::new(alloc),
        };
        let begun = &mut turns;
        begun.user.begin(alloc, &mut begun.waiting)?;
        begun.record.begin(alloc, &config, errors)?;
        Ok(turns)
    }

    /// Runs the rounds of the journal again, if there is one, without sending what they give. The
    /// notices of the last one are told again, after a line that says so. What isn't whole at the
    /// end is cut off.
    ///
    /// # Errors
    ///
    /// `JournalLines` for the lines of another round than the last; `Round` for a round that the
    /// agent refuses; `Socket` if the clock fails; `Journal`, `Output` or `NoMemory`.
    pub(crate) fn resume<R: Threads + Clock + Sync, W: Write, E: Write>(
        &mut self,
        rt: &R,
        notices: &mut W,
        errors: &mut E,
    ) -> Result<(), UaFault> {
        let Some(mut past) = self.endpoint.past.take() else {
            return Ok(());
        };
        let mut last = None;
        let mut whole = past.given();
        for _ in 0..u64::MAX {
            let number = self.number;
            let Some(round) = self.record.next_round(self.alloc, &mut past, number)? else {
                break;
            };
            last = Some(self.run_again(rt, round, last.is_none(), errors)?);
            whole = past.given();
        }
        self.record.cut(past.read(), whole, errors)?;
        self.moments.restart(rt)?;
        match last {
            Some(last) => tell_again(self.alloc, self.endpoint.kind, &last, notices),
            None => Ok(()),
        }
    }

    // Runs a past round again. What the user asked for in it was asked for then; the first one has
    // all that the user begins with, unless its end was cut off.
    fn run_again<R: Threads + Clock + Sync, E: Write>(
        &mut self,
        rt: &R,
        round: Round,
        is_first: bool,
        errors: &mut E,
    ) -> Result<PastRound, UaFault> {
        let (alloc, number) = (self.alloc, self.number);
        if is_first && has_commands(round.events.as_slice()) {
            self.waiting = Vec::new(alloc);
        }
        let (user, waiting) = (&mut self.user, &mut self.waiting);
        skip_asked(alloc, user, waiting, &round, errors)?;
        let division = self.endpoint.division;
        let outputs = run(rt, &mut self.agent, division, number, &round)?;
        self.moments.last = round.moment;
        self.number = number.saturating_add(1);
        self.user
            .told_all(alloc, round.moment, &outputs, &mut self.waiting)?;
        Ok(PastRound {
            number,
            round,
            outputs,
        })
    }

    /// Takes its turns: fewer than the endpoint says if the time is over, the user wants no more,
    /// or the listener has ended.
    pub(crate) fn take<R: Threads + Clock + Sync, W: Write, E: Write>(
        &mut self,
        rt: &R,
        desk: &mut Desk<Event>,
        notices: &mut W,
        errors: &mut E,
        listener_ended: &AtomicBool,
    ) -> Result<(), UaFault>
        ensures { KeepsLines desk.old desk.new }
    {
        for turns_left in (0..self.endpoint.turns).rev() {
            if listener_ended.load(Ordering::SeqCst) {
                break;
            }
            let start = self.moments.now(rt)?;
            match self.turn(rt, turns_left, desk, notices, errors)? {
                TurnEnd::Over => break,
                TurnEnd::Full => {}
                TurnEnd::Done if self.user.is_eager() && !self.waiting.is_empty() => {}
                TurnEnd::Done => {
                    let due = self.agent.next_due();
                    pause(rt, self.user.bell(), &self.moments, start, due)?;
                }
            }
        }
        Ok(())
    }

    // A turn: a round, and others while they are full. For an eager user, and with a journal, a
    // round is run only if it may give or change something.
    fn turn<R: Threads + Clock + Sync, W: Write, E: Write>(
        &mut self,
        rt: &R,
        turns_left: u64,
        desk: &mut Desk<Event>,
        notices: &mut W,
        errors: &mut E,
    ) -> Result<TurnEnd, UaFault>
        ensures { KeepsLines desk.old desk.new }
    {
        let is_sparing = self.user.is_eager() || self.record.is_journal;
        let limit = self.endpoint.division.most_events(self.record.is_journal);
        for _ in 0..MOST_ROUNDS {
            let now = self.moments.now(rt)?;
            self.gather(now, turns_left, limit, desk, errors)?;
            let waits = !self.waiting.is_empty();
            let holds = waits || self.agent.live() != (0, 0);
            if self.limit.is_past(self.moments.passed(now)) || self.user.is_over(now, holds) {
                return Ok(TurnEnd::Over);
            }
            let is_due = matches!(self.agent.next_due(), Some(due) if due <= now);
            let is_full = self.waiting.len() >= limit;
            if waits || !is_sparing || is_due {
                self.round(rt, now, limit, notices, errors)?;
            }
            if !is_full {
                return Ok(TurnEnd::Done);
            }
        }
        Ok(TurnEnd::Full)
    }

    // Gathers what the user asks for by itself, and what was posted and is admitted, unless a full
    // round of so many events waits.
    fn gather<E: Write>(
        &mut self,
        now: u64,
        turns_left: u64,
        limit: usize,
        desk: &mut Desk<Event>,
        errors: &mut E,
    ) -> Result<(), UaFault>
        ensures { KeepsLines desk.old desk.new }
    {
        let passed = self.moments.passed(now);
        self.limit.look(passed);
        if self.waiting.len() >= limit {
            return Ok(());
        }
        let left = self.limit.left(passed, turns_left);
        self.user
            .turn(self.alloc, now, left, &mut self.waiting, errors)?;
        let events = desk.collect(MOST_COLLECTED)?;
        let mut events = self.tally.admission.admit(self.alloc, &self.agent, events)?;
        self.waiting.append(&mut events)?;
        Ok(())
    }

    // A round at this moment with the waiting events, so many at most, which is recorded before its
    // outputs are sent and told. The others go on waiting. Responses that would go to a victim are
    // left out.
    fn round<R: Threads + Clock + Sync, W: Write, E: Write>(
        &mut self,
        rt: &R,
        now: u64,
        limit: usize,
        notices: &mut W,
        errors: &mut E,
    ) -> Result<(), UaFault> {
        let rest = self.waiting.split_off(limit.min(self.waiting.len()))?;
        let events = mem::replace(&mut self.waiting, rest);
        let round = Round {
            moment: now,
            events: Series::from_vec(events),
        };
        let (division, number) = (self.endpoint.division, self.number);
        let mut outputs = run(rt, &mut self.agent, division, number, &round)?;
        self.moments.last = now;
        let reflected = take_reflected(round.events.as_slice(), &mut outputs);
        let round = self.keep(round, &outputs, errors)?;
        self.tell(&round, &outputs, reflected, notices)
    }

    // Records a round, and gives it back. A journal has the datagrams that were dropped without
    // their bytes.
    fn keep<E: Write>(
        &mut self,
        round: Round,
        outputs: &[PlacedOutput],
        errors: &mut E,
    ) -> Result<Round, UaFault> {
        if !self.record.is_journal {
            self.record.add(self.alloc, &round, errors)?;
            return Ok(round);
        }
        let Round { moment, events } = round;
        let mut events = events.into_vec();
        let dropped = take_dropped(self.alloc, &mut events, outputs)?;
        let events = Series::from_vec(events);
        let round = Round { moment, events };
        self.record.add(self.alloc, &round, errors)?;
        let mut events = round.events.into_vec();
        put_back(&mut events, dropped);
        let events = Series::from_vec(events);
        Ok(Round { moment, events })
    }

    // Counts, sends and tells the outputs of a round, from which so many reflected responses were
    // taken.
    fn tell<W: Write>(
        &mut self,
        round: &Round,
        outputs: &[PlacedOutput],
        reflected: usize,
        notices: &mut W,
    ) -> Result<(), UaFault> {
        let number = self.number;
        let held = self.agent.live();
        self.tally.add(number, round, outputs, held, reflected)?;
        self.number = number.saturating_add(1);
        let mut outlet = CountedSocket {
            socket: &self.endpoint.socket,
            failed: self.tally.unsent,
        };
        send(self.alloc, &mut outlet, outputs, &mut self.waiting)?;
        self.tally.unsent = outlet.failed;
        self.user
            .told_all(self.alloc, round.moment, outputs, &mut self.waiting)?;
        if self.endpoint.tells_ids {
            write_ids(self.alloc, notices, number, round.events.as_slice())?;
        }
        let tells_drops = self.endpoint.tells_drops || self.user.is_eager();
        let telling = Telling {
            kind: self.endpoint.kind,
            drops: tells_drops.then_some(number),
        };
        let events = round.events.as_slice();
        write_notices(self.alloc, notices, telling, events, outputs)
    }
}

// Runs a round, the one with this number, on as many threads as the division says, and gives its
// outputs.
fn run<R: Threads + Sync>(
    rt: &R,
    agent: &mut Agent<Spread>,
    division: Division,
    number: u64,
    round: &Round,
) -> Result<Vec<PlacedOutput>, UaFault> {
    let workers = division.workers_of(round.events.len());
    match agent.run_round_with_places(rt, round, workers, &OpenGate) {
        Ok(outputs) => Ok(outputs),
        Err(RoundFault::NoMemory { .. }) => Err(UaFault::NoMemory),
        Err(fault) => Err(UaFault::Round { number, fault }),
    }
}

// Sleeps until the turn that started at this moment is over, or waits at the bell for the first
// event, until the next key is due at most.
fn pause<R: Clock>(
    rt: &R,
    bell: Option<&Arc<Bell>>,
    moments: &Moments,
    start: u64,
    due: Option<u64>,
) -> Result<(), UaFault> {
    let now = moments.now(rt)?;
    let Some(bell) = bell else {
        let passed = now.saturating_sub(start);
        thread::sleep(rt, Duration::from_millis(PAUSE.saturating_sub(passed)));
        return Ok(());
    };
    let left = match due {
        Some(due) => due.saturating_sub(now).clamp(1, PAUSE),
        None => PAUSE,
    };
    match bell.wait(Duration::from_millis(left)) {
        Ok(()) => Ok(()),
        Err(_) => Err(UaFault::Socket),
    }
}

// Asks the user at the moment of a past round, and leaves out what was asked for in that round
// already. What was asked for while a full round waited stands in a later one: it goes on waiting
// until then.
fn skip_asked<E: Write>(
    alloc: Global,
    user: &mut User,
    waiting: &mut Vec<Event>,
    round: &Round,
    errors: &mut E,
) -> Result<(), AllocError> {
    if !user.is_eager() {
        user.turn(alloc, round.moment, TimeLeft::More, waiting, errors)?;
    }
    for event in round.events.as_slice() {
        if let Event::Command(_) = event {
            take_same(alloc, event, waiting)?;
        }
    }
    Ok(())
}

// Tells the notices of the last round of a journal, after the line `resumed` with its number.
fn tell_again<W: Write>(
    alloc: Global,
    kind: FileKind,
    last: &PastRound,
    notices: &mut W,
) -> Result<(), UaFault> {
    let number = last.number;
    let line = format!(in alloc; "resumed {number}\n")?;
    write_text(notices, line.as_bytes())?;
    let telling = Telling { kind, drops: None };
    let events = last.round.events.as_slice();
    write_notices(alloc, notices, telling, events, &last.outputs)
}

// Sends the outputs. What failed waits for the next round.
fn send<O: Outlet>(
    alloc: Global,
    outlet: &mut O,
    outputs: &[PlacedOutput],
    waiting: &mut Vec<Event>,
) -> Result<(), AllocError>
    ensures { OnOk result ((failed : List AnEvent)
        × SendsAll (O.asked outlet.old) (O.asked outlet.new)
        (map (λ placed. placed.output) outputs.now) failed
        × (waiting.new.items ≡ waiting.old.items ++ failed)) }
{
    let mut failed = send_all(alloc, outlet, outputs)?;
    waiting.append(&mut failed)?;
    Ok(())
}

fn has_commands(events: &[Event]) -> bool {
    for event in events {
        if let Event::Command(_) = event {
            return true;
        }
    }
    false
}

// Takes the first of these events that says the same as this one, if there is one.
fn take_same(alloc: Global, event: &Event, events: &mut Vec<Event>) -> Result<(), AllocError> {
    let line = write_event(alloc, event)?;
    let index = index_of(alloc, &line, events)?;
    if index < events.len() {
        events.remove(index);
    }
    Ok(())
}

// Where the first of these events stands whose line is this one; behind the last if there is none.
fn index_of(alloc: Global, line: &[u8], events: &[Event]) -> Result<usize, AllocError> {
    for (index, event) in events.iter().enumerate() {
        if write_event(alloc, event)?.as_slice() == line {
            return Ok(index);
        }
    }
    Ok(events.len())
}
