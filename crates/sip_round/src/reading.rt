//! The events of a round, read and stamped by several workers.

ghost use Rattle.std.specs.Prelude.{◌≡◌, ◌<◌, ◌≤◌, List, IfOk, length};
ghost use Rattle.std.specs.List.{AllZip, flat_map};
ghost use Rattle.sip_workers.specs.Ran.{IsNumbered};
ghost use Rattle.sip_message.specs.declared.id.Id.{Id as AnId};
ghost use Rattle.sip_round.specs.Arrivals.{Arrival as AnArrival, arrivals_from};
ghost use Rattle.sip_round.specs.Steps.SetOut.{IsSetOut};
ghost use Rattle.sip_round.specs.Steps.EventRuns.{arrivals_of_run};

use crate::event_run::EventRun;
use crate::round::Event;
use crate::waiting::{SetOut, set_out};
use sip_message::Addr;
use sip_workers::{Job, NoMemory, OpenGate, Piece, dones_in_order, gather, run_pieces};
use std::alloc::{AllocError, Global};
use std::thread::Threads;

// How many events are read as one piece of work.
const EVENTS_OF_A_RUN: usize = 256;

impl<'a> Job for EventRun<'a> {
    type Done = Result<SetOut, AllocError>;

    ghost gives = { λ run done. IfOk done (IsSetOut (arrivals_of_run run)) };

    fn run(self) -> Result<SetOut, AllocError> {
        let EventRun {
            alloc,
            local,
            round,
            before,
            events,
        } = self;
        set_out(alloc, local, round, before, events)
    }
}

/// The events of the round with this number, read and stamped on up to `workers` workers, in their
/// order.
pub(crate) fn set_out_by<R: Threads + Sync>(
    rt: &R,
    alloc: Global,
    local: Addr,
    round: u64,
    events: &[Event],
    workers: usize,
) -> Result<SetOut, NoMemory>
    requires some { 0 < workers }
    requires most { workers ≤ 64 }
    requires places { length events.now ≤ 65536 }
    ensures { IfOk result (IsSetOut (arrivals_from local round 1 events.now)) }
{
    if workers == 1 || events.len() <= EVENTS_OF_A_RUN {
        return Ok(set_out(alloc, local, round, 0, events)?);
    }
    dones_in_order::<EventRun>();
    let runs = runs_of(alloc, local, round, events)?;
    let dones = run_pieces(rt, alloc, runs, workers, &OpenGate)?;
    Ok(joined(alloc, events.len(), gather(alloc, dones)?)?)
}

// The events, cut into numbered runs.
fn runs_of<'a>(
    alloc: Global,
    local: Addr,
    round: u64,
    events: &'a [Event],
) -> Result<Vec<Piece<EventRun<'a>>>, AllocError>
    requires { length events.now ≤ 65536 }
    ensures numbered { IfOk result (λ runs. IsNumbered runs.items) }
    ensures whole { IfOk result (λ runs. flat_map (λ run. arrivals_of_run run.job) runs.items
        ≡ arrivals_from local round 1 events.now) }
{
    let mut runs = Vec::with_capacity(alloc, events.len() / EVENTS_OF_A_RUN + 1)?;
    let mut before = 0;
    for run in events.chunks(EVENTS_OF_A_RUN) {
        let shard = runs.len();
        let job = EventRun {
            alloc,
            local,
            round,
            before,
            events: run,
        };
        runs.push(Piece { shard, job })?;
        before += run.len() as u32;
    }
    Ok(runs)
}

// What runs with `events` events were set out as, one after another.
fn joined(
    alloc: Global,
    events: usize,
    runs: Vec<Result<SetOut, AllocError>>,
) -> Result<SetOut, AllocError>
    ensures { IfOk result (λ all. (arrivals : List (List (AnId × AnArrival)))
        → AllZip (λ some run. IfOk run (IsSetOut some)) arrivals runs.items
        → IsSetOut (flat_map (λ some. some) arrivals) all) }
{
    let mut items = Vec::with_capacity(alloc, events)?;
    let mut waiting = Vec::with_capacity(alloc, events)?;
    for run in runs {
        let SetOut {
            items: mut more_items,
            waiting: mut more_waiting,
        } = run?;
        items.append(&mut more_items)?;
        waiting.append(&mut more_waiting)?;
    }
    Ok(SetOut { items, waiting })
}
