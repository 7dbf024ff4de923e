//! An agent at work: its turns, and the line on which its datagrams come.

ghost use Rattle.std.specs.Prelude.{◌≡◌, IfOk};
ghost use Rattle.sip_desk.specs.Lines.{IsPosterOf, KeepsLines};

use crate::barrier::Barrier;
use crate::endpoint::Endpoint;
use crate::fault::UaFault;
use crate::listener::Flags;
use crate::record_file::RecordFile;
use crate::turns::Turns;
use crate::user::User;
use sip_desk::{Desk, NoMemory, Poster, open};
use sip_round::Event;
use std::alloc::Global;
use std::io::Write;
use std::sync::atomic::Ordering;
use std::thread::Threads;
use std::time::Clock;

/// How many datagrams wait for the turns at most: more than come in a second, so that turns which
/// stand still for so long lose none.
pub(crate) const DATAGRAMS_WAITING: usize = 16_384;

/// An agent with what its turns need.
pub(crate) struct Station<F> {
    pub(crate) turns: Turns<F>,
    pub(crate) desk: Desk<Event>,
    /// Why its turns ended too early, if they did.
    pub(crate) fault: Option<UaFault>,
}

impl<F: Drop> Drop for Station<F> {
    fn drop(self) {
        let Station {
            turns: _,
            desk: _,
            fault: _,
        } = self;
    }
}

impl<F: RecordFile> Station<F> {
    /// A station at an endpoint before its first turn, which goes on from the journal if there is
    /// one, and the poster of its line.
    pub(crate) fn open<R: Threads + Clock + Sync, W: Write, E: Write>(
        rt: &R,
        alloc: Global,
        endpoint: Endpoint<F>,
        user: User,
        notices: &mut W,
        errors: &mut E,
    ) -> Result<(Station<F>, Poster<Event>), UaFault>
        ensures { IfOk result (λ made. IsPosterOf made.0.desk made.1) }
    {
        let mut turns = Turns::new(rt, alloc, endpoint, user, errors)?;
        turns.resume(rt, notices, errors)?;
        let (desk, line) = one_line(alloc, DATAGRAMS_WAITING)?;
        let station = Station {
            turns,
            desk,
            fault: None,
        };
        Ok((station, line))
    }

    /// Takes its turns as soon as all stations are there. If they end by a fault, all others are
    /// told to stop.
    pub(crate) fn run<R: Threads + Clock + Sync, W: Write, E: Write>(
        self,
        rt: &R,
        flags: &Flags,
        barrier: &Barrier,
        notices: &mut W,
        errors: &mut E,
    ) -> Station<F>
        ensures { KeepsLines self.desk result.desk }
    {
        let Station {
            mut turns,
            mut desk,
            fault: _,
        } = self;
        let end = if barrier.reach(rt) {
            turns.take(rt, &mut desk, notices, errors, &flags.ended)
        } else {
            Err(UaFault::Socket)
        };
        let fault = end.err();
        if fault.is_some() {
            flags.stop.store(true, Ordering::SeqCst);
        }
        Station { turns, desk, fault }
    }
}

/// A desk of one line with this capacity, and its poster.
pub(crate) fn one_line<T: Drop>(
    alloc: Global,
    capacity: usize,
) -> Result<(Desk<T>, Poster<T>), NoMemory>
    ensures { IfOk result (λ made. IsPosterOf made.0 made.1) }
{
    let (desk, mut posters) = open(alloc, 1, capacity)?;
    let line = posters.pop().ok_or(NoMemory)?;
    Ok((desk, line))
}
