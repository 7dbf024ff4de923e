//! The end of an input that is watched only for its end, which ends `listen` and `call`.

use crate::fault::UaFault;
use std::alloc::Global;
use std::io::{ErrorKind, Read};
use std::sync::Arc;
use std::sync::atomic::{AtomicBool, AtomicU64, Ordering};
use std::thread::{self, Threads};

/// The moment of an end that nobody has seen.
const UNSEEN: u64 = u64::MAX;

/// How far an input was read. An input that can't be read never ends.
#[derive(Drop)]
pub struct InputEnd {
    /// Whether a byte came before the end.
    pub(crate) has_bytes: AtomicBool,
    pub(crate) has_ended: AtomicBool,
    // The moment at which somebody saw that it has ended.
    seen: AtomicU64,
}

impl InputEnd {
    /// Reads an input to its end, on a thread of its own.
    ///
    /// # Errors
    ///
    /// Memory ran out, or a thread can't be started.
    pub fn watch<R: Threads, I: Read + Send + Drop + 'static>(
        rt: &R,
        alloc: Global,
        input: I,
    ) -> Result<Arc<InputEnd>, UaFault> {
        let end = InputEnd {
            has_bytes: AtomicBool::new(false),
            has_ended: AtomicBool::new(false),
            seen: AtomicU64::new(UNSEEN),
        };
        let Ok(end) = Arc::new(alloc, end) else {
            return Err(UaFault::NoMemory);
        };
        let theirs = end.clone()?;
        match thread::spawn(rt, move || theirs.read_all(input)) {
            Ok(_) => Ok(end),
            Err(_) => Err(UaFault::Socket),
        }
    }

    /// The moment, in ms since the start, at which its end was first seen: `now`, unless another
    /// agent saw it before.
    pub(crate) fn seen_at(&self, now: u64) -> u64 {
        let order = Ordering::SeqCst;
        match self.seen.compare_exchange(UNSEEN, now, order, order) {
            Ok(_) => now,
            Err(before) => before,
        }
    }

    fn read_all<I: Read + Drop>(&self, mut input: I) {
        let mut buffer = [0; 256];
        for _ in 0..u64::MAX {
            match input.read(&mut buffer) {
                Ok(0) => {
                    self.has_ended.store(true, Ordering::SeqCst);
                    return;
                }
                Ok(_) => self.has_bytes.store(true, Ordering::SeqCst),
                Err(error) if error.kind() == ErrorKind::Interrupted => {}
                Err(_) => return,
            }
        }
    }
}
