//! The bell with which a thread that posts wakes the turns.

use std::io::{self, ErrorKind, Read, Write};
use std::net::Net;
use std::os::unix::net::UnixStream;
use std::sync::atomic::{AtomicBool, Ordering};
use std::time::Duration;

/// Whoever waits at the bell goes on as soon as it rings.
#[derive(Drop)]
pub struct Bell {
    // Whether a byte is on its way, so that there are never many.
    is_rung: AtomicBool,
    hammer: UnixStream,
    ear: UnixStream,
}

impl Bell {
    /// # Errors
    ///
    /// The system has no more sockets.
    pub fn new<N: Net>(rt: &N) -> io::Result<Bell> {
        let (hammer, ear) = UnixStream::pair(rt)?;
        Ok(Bell {
            is_rung: AtomicBool::new(false),
            hammer,
            ear,
        })
    }

    /// Wakes the thread that waits, or the next one that does.
    pub fn ring(&self) {
        if !self.is_rung.swap(true, Ordering::SeqCst) {
            let _ = (&self.hammer).write(b"!");
        }
    }

    /// Waits until the bell rings, but at most `most`. What was posted before it rang can be
    /// collected then.
    pub fn wait(&self, most: Duration) -> io::Result<()> {
        self.ear.set_read_timeout(Some(most))?;
        let heard = (&self.ear).read(&mut [0; 8]);
        self.is_rung.store(false, Ordering::SeqCst);
        match heard {
            Ok(_) => Ok(()),
            Err(error) => match error.kind() {
                // It is interrupted where the process was stopped and goes on.
                ErrorKind::WouldBlock | ErrorKind::TimedOut | ErrorKind::Interrupted => Ok(()),
                _ => Err(error),
            },
        }
    }
}
