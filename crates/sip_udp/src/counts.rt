//! The counts of a run.

use crate::admission::Admission;
use crate::dropped::is_keep_alive;
use crate::endpoint::Endpoint;
use crate::sent::Sent;
use crate::socket_table::system_drops;
use sip_message::{Addr, Id};
use sip_round::{Event, Output, PlacedOutput, Round, datagram_at};
use sip_transactions::DropReason;
use sip_user::{Notice, UserCommand};
use std::alloc::{AllocError, Global};
use std::collections::BTreeSet;
use std::io::{self, Write};
use std::rt::Files;

/// The final response to an INVITE that was cancelled (RFC 3261, section 9.2).
const REQUEST_TERMINATED: u16 = 487;

/// What is counted.
#[derive(Clone, Copy)]
enum Counted {
    Rounds,
    Datagrams,
    KeepAlives,
    /// Datagrams that were sent.
    Sent,
    /// Those that couldn't be sent.
    Unsent,
    /// Those that were sent before.
    Again,
    Invites,
    /// INVITEs that got a 2xx.
    Answered,
    /// INVITEs that got another final response.
    Rejected,
    Cancelled,
    /// INVITEs without a final response in time, or of which a send failed.
    Unanswered,
    /// INVITEs with none of these outcomes.
    Open,
    /// How many transactions and calls were held at most.
    Held,
    /// Datagrams for which the line of the listener had no room.
    Unposted,
    /// Responses that weren't sent since their request came again from another address.
    Reflected,
}

/// How many of them there are.
const TOTALS: usize = 15;

/// What each of them is called, in their order. The last is told only if there is one.
const NAMES: [&str; TOTALS - 1] = [
    "rounds",
    "datagrams read",
    "keep-alives",
    "sent",
    "failed",
    "again",
    "INVITEs",
    "answered",
    "rejected",
    "cancelled",
    "unanswered",
    "open",
    "held at most",
    "lost",
];

/// What an agent counts: what it sheds and couldn't send, and all else if that is told at the end.
#[derive(Drop)]
pub(crate) struct Tally {
    pub(crate) admission: Admission,
    pub(crate) unsent: u64,
    is_counted: bool,
    alloc: Global,
    local: Addr,
    totals: [u64; TOTALS],
    dropped: Vec<Dropped>,
    before: Sent,
    // The INVITEs that have no outcome so far.
    open: BTreeSet<Id>,
}

/// How many datagrams were dropped for one reason.
#[derive(Clone, Copy)]
struct Dropped {
    reason: DropReason,
    count: u64,
}

impl Tally {
    /// Nothing so far, at this endpoint.
    pub(crate) fn new<F>(alloc: Global, endpoint: &Endpoint<F>) -> Tally {
        Tally {
            admission: Admission::new(endpoint.held_limit, endpoint.request_limits),
            unsent: 0,
            is_counted: endpoint.is_counted,
            alloc,
            local: endpoint.config.local,
            totals: [0; TOTALS],
            dropped: Vec::new(alloc),
            before: Sent::new(alloc),
            open: BTreeSet::new(alloc),
        }
    }

    /// Counts the round with this number, after which `held` transactions and calls are held, and
    /// from whose outputs so many reflected responses were taken.
    ///
    /// # Errors
    ///
    /// Memory ran out.
    pub(crate) fn add(
        &mut self,
        number: u64,
        round: &Round,
        outputs: &[PlacedOutput],
        held: (u128, u128),
        reflected: usize,
    ) -> Result<(), AllocError> {
        if !self.is_counted {
            return Ok(());
        }
        self.count(Counted::Rounds, 1);
        self.count(Counted::Reflected, reflected as u64);
        let held = u64::try_from(held.0.saturating_add(held.1)).unwrap_or(u64::MAX);
        let most = self.totals[Counted::Held as usize];
        self.count(Counted::Held, held.saturating_sub(most));
        let events = round.events.as_slice();
        let refused = refused_places(self.alloc, outputs)?;
        self.add_events(number, events, &refused)?;
        for placed in outputs {
            self.add_output(round.moment, events, &placed.output)?;
        }
        Ok(())
    }

    /// Adds what another agent counted at the same address, whose ids are others, but not what it
    /// couldn't send. The most that this one and the other held are added, too, though they may not
    /// have held them at one time.
    ///
    /// # Errors
    ///
    /// Memory ran out.
    pub(crate) fn add_all(&mut self, other: &Tally) -> Result<(), AllocError> {
        self.admission.add(other.admission);
        for (index, more) in other.totals.iter().enumerate() {
            self.totals[index] = self.totals[index].saturating_add(*more);
        }
        self.count(Counted::Open, other.open.len() as u64);
        self.add_all_dropped(&other.dropped)
    }

    /// Writes the counts, if that was asked for. So many datagrams couldn't be sent, and for so
    /// many the line of the listener had no room.
    pub(crate) fn tell<R: Files, E: Write>(
        &mut self,
        rt: &R,
        unsent: u64,
        unposted: u64,
        errors: &mut E,
    ) {
        if !self.is_counted {
            return;
        }
        let sent = self.totals[Counted::Sent as usize];
        self.totals[Counted::Sent as usize] = sent.saturating_sub(unsent);
        self.count(Counted::Unsent, unsent);
        self.count(Counted::Unposted, unposted);
        let open = self.open.len() as u64;
        self.count(Counted::Open, open);
        let by_system = system_drops(rt, self.alloc, self.local);
        let _ = self.write(by_system, errors);
    }

    fn count(&mut self, counted: Counted, more: u64) {
        let total = &mut self.totals[counted as usize];
        *total = total.saturating_add(more);
    }

    // Counts the datagrams of the round with this number, and what came of INVITEs by its commands
    // that weren't refused.
    fn add_events(
        &mut self,
        round: u64,
        events: &[Event],
        refused: &[u32],
    ) -> Result<(), AllocError> {
        let mut place = 0u32;
        for event in events {
            place = place.saturating_add(1);
            match event {
                Event::Datagram { .. } => self.count(Counted::Datagrams, 1),
                Event::Command(command) if !refused.contains(&place) => {
                    self.add_step(asked_by(Id { round, place }, command))?;
                }
                _ => {}
            }
        }
        Ok(())
    }

    fn add_output(
        &mut self,
        now: u64,
        events: &[Event],
        output: &Output,
    ) -> Result<(), AllocError> {
        match output {
            Output::Send { key, to, bytes } => {
                self.count(Counted::Sent, 1);
                if self.before.add(now, key.as_ref(), *to, bytes.as_slice())? {
                    self.count(Counted::Again, 1);
                }
                Ok(())
            }
            Output::Dropped { place, reason } => match datagram_at(events, *place) {
                Some(bytes) if is_keep_alive(bytes.as_slice()) => {
                    self.count(Counted::KeepAlives, 1);
                    Ok(())
                }
                _ => self.add_dropped(*reason, 1),
            },
            Output::Notice(notice) => self.add_step(told_by(notice)),
        }
    }

    // Counts an INVITE, or the outcome of a request if it is an INVITE that has none so far.
    fn add_step(&mut self, step: Option<(Id, Counted)>) -> Result<(), AllocError> {
        match step {
            Some((id, Counted::Invites)) => {
                self.open.insert(id)?;
                self.count(Counted::Invites, 1);
            }
            Some((id, outcome)) if self.open.remove(&id) => self.count(outcome, 1),
            _ => {}
        }
        Ok(())
    }

    fn add_all_dropped(&mut self, dropped: &[Dropped]) -> Result<(), AllocError> {
        for one in dropped {
            self.add_dropped(one.reason, one.count)?;
        }
        Ok(())
    }

    fn add_dropped(&mut self, reason: DropReason, count: u64) -> Result<(), AllocError> {
        for dropped in self.dropped.iter_mut() {
            if dropped.reason == reason {
                dropped.count = dropped.count.saturating_add(count);
                return Ok(());
            }
        }
        self.dropped.push(Dropped { reason, count })?;
        Ok(())
    }

    // Writes the counts in one line, with how many datagrams the system dropped before they were
    // read, if it says.
    fn write<E: Write>(&self, by_system: Option<u64>, errors: &mut E) -> io::Result<()> {
        let local = self.local;
        write!(errors, "ua: local {local}")?;
        for (index, name) in NAMES.iter().enumerate() {
            if index == Counted::Sent as usize {
                self.write_dropped(errors)?;
            }
            write_count(Some(self.totals[index]), name, errors)?;
        }
        write_count(by_system, "lost by the system", errors)?;
        write_count(self.admission.shed(), "shed", errors)?;
        let reflected = self.totals[Counted::Reflected as usize];
        write_count((reflected > 0).then_some(reflected), "reflected", errors)?;
        errors.write_all(b"\n")
    }

    // Writes the counts of the datagrams that were dropped, by their reasons.
    fn write_dropped<E: Write>(&self, errors: &mut E) -> io::Result<()> {
        for dropped in &self.dropped {
            let Dropped { reason, count } = *dropped;
            let name = match reason {
                DropReason::NotOurs => "NotOurs",
                DropReason::NoTransaction => "NoTransaction",
                DropReason::Unreadable(fault) => {
                    write!(errors, ", {count} dropped as {fault}")?;
                    continue;
                }
            };
            write!(errors, ", {count} dropped as {name}")?;
        }
        Ok(())
    }
}

// Writes a count, if it is known.
fn write_count<E: Write>(count: Option<u64>, name: &str, errors: &mut E) -> io::Result<()> {
    match count {
        Some(count) => write!(errors, ", {count} {name}"),
        None => Ok(()),
    }
}

// What a notice says of a request: that it is an INVITE, or its outcome.
fn told_by(notice: &Notice) -> Option<(Id, Counted)> {
    match notice {
        Notice::Request { id, method, .. } if method.as_slice() == b"INVITE".as_slice() => {
            Some((*id, Counted::Invites))
        }
        Notice::Response { id, status, .. } if status.code() >= 200 => {
            Some((*id, outcome_of(status.code())))
        }
        Notice::Timeout { id, .. } | Notice::Failed { id, .. } => Some((*id, Counted::Unanswered)),
        Notice::Cancel { id, .. } => Some((*id, Counted::Cancelled)),
        _ => None,
    }
}

// What the command with this id says of a request.
fn asked_by(id: Id, command: &UserCommand) -> Option<(Id, Counted)> {
    match command {
        UserCommand::Invite(_) => Some((id, Counted::Invites)),
        UserCommand::Respond(respond) if respond.status >= 200 => {
            Some((respond.id, outcome_of(respond.status)))
        }
        _ => None,
    }
}

// The outcome that a final response with this status gives an INVITE.
fn outcome_of(status: u16) -> Counted {
    match status {
        200..=299 => Counted::Answered,
        REQUEST_TERMINATED => Counted::Cancelled,
        _ => Counted::Rejected,
    }
}

// The places of the commands that were refused.
fn refused_places(alloc: Global, outputs: &[PlacedOutput]) -> Result<Vec<u32>, AllocError> {
    let mut places = Vec::new(alloc);
    for placed in outputs {
        if let Output::Notice(Notice::Refused { place, .. }) = &placed.output {
            places.push(*place)?;
        }
    }
    Ok(places)
}
