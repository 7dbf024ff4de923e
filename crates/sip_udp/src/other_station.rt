//! The stations of the other agents of a listener, each on a thread of its own.

ghost use Rattle.std.specs.Prelude.{◌≡◌, IfOk};
ghost use Rattle.std.specs.List.{AllZip};
ghost use Rattle.sip_desk.specs.Lines.{IsPosterOf};
ghost use Rattle.sip_udp.specs.Stations.{KeepsItsLine};

use crate::barrier::Barrier;
use crate::endpoint::Endpoint;
use crate::fault::UaFault;
use crate::listener::Flags;
use crate::queued_writer::QueuedEnd;
use crate::station::Station;
use crate::user::User;
use sip_desk::Poster;
use sip_round::Event;
use std::alloc::{AllocError, Global};
use std::thread::{self, Threads};
use std::time::Clock;

/// What another agent needs: an endpoint at the same socket, a user, and where it tells its
/// notices.
#[derive(Drop)]
pub(crate) struct OtherAgent {
    pub(crate) endpoint: Endpoint<Vec<u8>>,
    pub(crate) user: User,
    pub(crate) notices: QueuedEnd,
}

/// The station of another agent, which is never recorded. What is wrong is kept until the end.
pub(crate) struct OtherStation {
    pub(crate) station: Station<Vec<u8>>,
    pub(crate) notices: QueuedEnd,
    pub(crate) errors: Vec<u8>,
}

impl Drop for OtherStation {
    fn drop(self) {
        let OtherStation {
            station: _,
            notices: _,
            errors: _,
        } = self;
    }
}

impl OtherStation {
    /// The station of this agent, and the poster of its line.
    pub(crate) fn open<R: Threads + Clock + Sync>(
        rt: &R,
        alloc: Global,
        agent: OtherAgent,
    ) -> Result<(OtherStation, Poster<Event>), UaFault>
        ensures { IfOk result (λ made. IsPosterOf made.0.station.desk made.1) }
    {
        let OtherAgent {
            endpoint,
            user,
            mut notices,
        } = agent;
        let mut errors = Vec::new(alloc);
        let (told, wrong) = (&mut notices, &mut errors);
        let (station, line) = Station::open(rt, alloc, endpoint, user, told, wrong)?;
        let other = OtherStation {
            station,
            notices,
            errors,
        };
        Ok((other, line))
    }

    fn run<R: Threads + Clock + Sync>(
        self,
        rt: &R,
        flags: &Flags,
        barrier: &Barrier,
    ) -> OtherStation
        ensures { KeepsItsLine self result }
    {
        let OtherStation {
            station,
            mut notices,
            mut errors,
        } = self;
        let station = station.run(rt, flags, barrier, &mut notices, &mut errors);
        OtherStation {
            station,
            notices,
            errors,
        }
    }
}

/// Runs each station on a thread of its own.
///
/// # Errors
///
/// Memory ran out. Then the stations are lost.
pub(crate) fn run_others<R: Threads + Clock + Sync>(
    rt: &R,
    flags: &Flags,
    barrier: &Barrier,
    others: Vec<OtherStation>,
) -> Result<Vec<OtherStation>, AllocError>
    ensures { IfOk result (λ ran. AllZip KeepsItsLine others.items ran.items) }
{
    let ran = thread::map_vec(
        rt,
        others,
        &|other: OtherStation| -> OtherStation
            ensures { KeepsItsLine other result }
        { other.run(rt, flags, barrier) },
    )?;
    Ok(ran)
}
