//! A barrier that all stations reach before their first turn.

use std::sync::atomic::{AtomicUsize, Ordering};
use std::thread;
use std::time::{Clock, Duration};

/// How often a station that waits for the others looks whether all are there, and how long it waits
/// each time, in ms.
const LOOKS: u32 = 10_000;

const PAUSE: u64 = 1;

/// A barrier for so many stations. Where the system has no more threads, one of them never reaches
/// it while the others wait.
#[derive(Drop)]
pub(crate) struct Barrier {
    reached: AtomicUsize,
    stations: usize,
}

impl Barrier {
    pub(crate) fn new(stations: usize) -> Barrier {
        Barrier {
            reached: AtomicUsize::new(0),
            stations,
        }
    }

    /// Reaches the barrier and waits for all others, for ten seconds at most. Says whether all are
    /// there.
    pub(crate) fn reach<R: Clock>(&self, rt: &R) -> bool {
        self.reached.fetch_add(1, Ordering::SeqCst);
        for _ in 0..LOOKS {
            if self.reached.load(Ordering::SeqCst) >= self.stations {
                return true;
            }
            thread::sleep(rt, Duration::from_millis(PAUSE));
        }
        false
    }
}
