//! The stations of all agents at a socket: the caller's own, and those of the others.

ghost use Rattle.std.specs.Prelude.{◌≡◌, [], ◌∷◌, ◌++◌, IfOk, IfSome, OnOk, map};
ghost use Rattle.std.specs.List.{AllZip};
ghost use Rattle.sip_desk.specs.Lines.{IsEndOf, IsPosterOf, KeepsLines, all_posted, taken};
ghost use Rattle.sip_udp.specs.Stations.{EndsStation, KeepsItsLine, desks_of};
ghost use denote.Param.Send.{IsSync};

use crate::barrier::Barrier;
use crate::counts::Tally;
use crate::fault::UaFault;
use crate::listener::{Flags, Heard};
use crate::other_station::{OtherAgent, OtherStation, run_others};
use crate::record_file::RecordFile;
use crate::station::{DATAGRAMS_WAITING, Station};
use sip_desk::{Desk, Ended, Poster};
use sip_round::Event;
use std::alloc::{AllocError, Global};
use std::io::Write;
use std::rt::Files;
use std::thread::{self, Threads};
use std::time::Clock;

/// Opens the stations of these agents. Gives them, and the lines of all: first `line`, the caller's
/// own, and then those of the others, in order.
pub(crate) fn open_others<R: Threads + Clock + Sync, F: RecordFile>(
    rt: &R,
    alloc: Global,
    own: &Station<F>,
    line: Poster<Event>,
    agents: Vec<OtherAgent>,
) -> Result<(Vec<OtherStation>, Vec<Poster<Event>>), UaFault>
    requires { IsPosterOf own.now.desk line }
    ensures { IfOk result (λ made. AllZip IsPosterOf (desks_of own.now made.0.items)
        made.1.items) }
{
    let mut stations = Vec::new(alloc);
    let mut lines = Vec::new(alloc);
    add(&mut lines, line)?;
    for agent in agents {
        let (station, line) = OtherStation::open(rt, alloc, agent)?;
        add(&mut stations, station)?;
        add(&mut lines, line)?;
    }
    Ok((stations, lines))
}

/// Adds an item at the end.
///
/// # Errors
///
/// Memory ran out. Then the item is lost.
pub(crate) fn add<T: Drop>(items: &mut Vec<T>, item: T) -> Result<(), AllocError>
    ensures { OnOk result (items.new.items ≡ items.old.items ++ item ∷ []) }
{
    items.push(item)?;
    Ok(())
}

/// Runs all stations, each on a thread of its own; the caller's own on the calling thread.
pub(crate) fn run_all<R: Threads + Clock + Sync, F: RecordFile, W: Write, E: Write>(
    rt: &R,
    flags: &Flags,
    own: Station<F>,
    others: Vec<OtherStation>,
    notices: &mut W,
    errors: &mut E,
) -> (Station<F>, Result<Vec<OtherStation>, AllocError>)
    ensures own { KeepsLines own.desk result.0.desk }
    ensures others { IfOk result.1 (λ ran. AllZip KeepsItsLine others.items ran.items) }
{
    let barrier = Barrier::new(others.len().saturating_add(1));
    let barrier = &barrier;
    if others.is_empty() {
        let own = own.run(rt, flags, barrier, notices, errors);
        return (own, Ok(others));
    }
    let (ran, own) = thread::join(
        rt,
        move || -> Result<Vec<OtherStation>, AllocError>
            requires { IsSync R.row }
            ensures { IfOk result (λ ran. AllZip KeepsItsLine others.items ran.items) }
        { run_others(rt, flags, barrier, others) },
        move || -> Station<F>
            ensures { KeepsLines own.desk result.desk }
        { own.run(rt, flags, barrier, notices, errors) },
    );
    (own, ran)
}

/// How the stations of agents that have run end: writes what was wrong with the others, and the
/// counts of all together, and settles the lines.
///
/// # Errors
///
/// The first fault of a station, or that of the listener; `NotAnswered` if the user didn't get the
/// least that it had to get.
pub(crate) fn conclude<R: Files, F: RecordFile, E: Write>(
    rt: &R,
    own: &mut Station<F>,
    others: Vec<OtherStation>,
    heard: Heard,
    errors: &mut E,
) -> Result<(), UaFault>
    requires { IfSome heard.ends (λ ends. AllZip EndsStation (desks_of own.old others.items)
        ends.items) }
{
    let reported = report(rt, &mut own.turns.tally, own.fault, &others, &heard, errors);
    let settled = match heard.ends {
        Some(ends) => settle_all(&mut own.desk, others, ends),
        None => Ok(()),
    };
    reported?;
    settled?;
    if own.turns.user.is_satisfied() {
        Ok(())
    } else {
        Err(UaFault::NotAnswered)
    }
}

// Writes what was wrong with the others, and the counts of all together. Gives the first fault of a
// station, the own one first, or that of the listener.
fn report<R: Files, E: Write>(
    rt: &R,
    own: &mut Tally,
    own_fault: Option<UaFault>,
    others: &[OtherStation],
    heard: &Heard,
    errors: &mut E,
) -> Result<(), UaFault> {
    let mut unsent = own.unsent;
    let mut fault = own_fault;
    let mut counted = Ok(());
    for other in others {
        let _ = errors.write_all(&other.errors);
        unsent = unsent.saturating_add(other.station.turns.tally.unsent);
        fault = fault.or(other.station.fault);
        if counted.is_ok() {
            counted = own.add_all(&other.station.turns.tally);
        }
    }
    own.tell(rt, unsent, heard.lost, errors);
    match fault.or(heard.fault) {
        Some(fault) => Err(fault),
        None => Ok(counted?),
    }
}

// Settles the lines of all stations.
fn settle_all(
    own: &mut Desk<Event>,
    mut others: Vec<OtherStation>,
    mut ends: Vec<Option<Ended<Event>>>,
) -> Result<(), UaFault>
    requires { AllZip EndsStation (own.old ∷ map (λ other. other.station.desk) others.items)
        ends.items }
{
    while let Some(mut other) = others.pop() {
        let Some(end) = ends.pop() else {
            return Ok(());
        };
        settle(&mut other.station.desk, end)?;
    }
    match ends.pop() {
        Some(end) => settle(own, end),
        None => Ok(()),
    }
}

// Drains a line of the listener and settles it.
fn settle(desk: &mut Desk<Event>, end: Option<Ended<Event>>) -> Result<(), UaFault>
    requires { IfSome end (λ end. IsEndOf desk.old end) }
    ensures { OnOk result (IfSome end (λ end. taken desk.new 0 ≡ all_posted end)) }
{
    let Some(end) = end else {
        return Ok(());
    };
    desk.collect(DATAGRAMS_WAITING)?;
    match desk.settle(0, end) {
        Ok(()) => Ok(()),
        Err(_) => Err(UaFault::Socket),
    }
}
