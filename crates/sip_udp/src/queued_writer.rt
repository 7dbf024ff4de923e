//! A writer with a thread of its own, so that an output that nobody reads holds no turn up. Several
//! threads may write to it, each to an end of its own.

ghost use Rattle.std.specs.Prelude.{OnOk};
ghost use Rattle.std.specs.Io.KnownBytes.{Appends};
ghost use Rattle.std.specs.List.{flat_map};

use crate::bell::Bell;
use crate::fault::UaFault;
use crate::notices::put;
use sip_desk::{Desk, Poster, open};
use std::alloc::{AllocError, Global};
use std::io::{self, ErrorKind, Write};
use std::mem;
use std::net::Net;
use std::sync::Arc;
use std::sync::atomic::{AtomicBool, AtomicU64, Ordering};
use std::thread::{self, JoinHandle, Threads};
use std::time::Duration;

/// How many notices may wait to be written, as far as no piece is cut.
const ROOM: usize = 4_096;

/// How many pieces are written by one call at most.
const TOGETHER: usize = 64;

/// How long the thread waits at its bell at most, in ms.
const PAUSE: u64 = 1_000;

/// What was written between two flushes, as the notices of a round, and how many writes that were.
#[derive(Drop)]
struct Piece {
    text: Vec<u8>,
    notices: u64,
}

/// An end of a writer that never waits for its stream. What is written by one call is a notice, and
/// what was written between two flushes is a piece. A thread writes the pieces to the stream, those
/// of an end in order. A piece for which there is no room is lost.
#[derive(Drop)]
pub struct QueuedEnd {
    alloc: Global,
    piece: Piece,
    line: Poster<Piece>,
    signals: Arc<Signals>,
}

/// The first end of a writer, and the thread that writes to its stream.
#[derive(Drop)]
pub struct QueuedWriter {
    end: QueuedEnd,
    thread: JoinHandle<Option<io::Error>>,
}

/// What became of all that was written.
#[derive(Drop)]
pub struct Written {
    /// How many notices were lost, since the stream took nothing.
    pub lost: u64,
    /// Why a write failed, if one did. Nothing was written after that.
    pub error: Option<io::Error>,
}

// What the ends of a writer and its thread tell each other.
#[derive(Drop)]
struct Signals {
    // It is rung where a piece was posted, and at the end.
    bell: Bell,
    // Nothing more is posted.
    is_over: AtomicBool,
    has_failed: AtomicBool,
    // How many notices wait, and how many were lost.
    waiting: AtomicU64,
    lost: AtomicU64,
}

impl QueuedWriter {
    /// Starts the thread that writes to this stream, and gives so many other ends.
    ///
    /// # Errors
    ///
    /// `NoMemory`; `Socket`, where the system has no more threads or sockets.
    pub fn start_with<R: Threads + Net, W: Write + Send + Drop + 'static>(
        rt: &R,
        alloc: Global,
        stream: W,
        others: usize,
    ) -> Result<(QueuedWriter, Vec<QueuedEnd>), UaFault> {
        let (desk, lines) = open(alloc, others.saturating_add(1), ROOM)?;
        let signals = new_signals(rt, alloc)?;
        let mut ends = ends_at(alloc, lines, &signals)?;
        let Some(end) = ends.pop() else {
            return Err(UaFault::NoMemory);
        };
        let Ok(thread) = thread::spawn(rt, move || write_all(alloc, desk, stream, &signals)) else {
            return Err(UaFault::Socket);
        };
        Ok((QueuedWriter { end, thread }, ends))
    }

    /// Waits until the thread has written what was posted. Let the other ends go before.
    pub fn finish<R: Threads>(self, rt: &R) -> Written {
        let QueuedWriter { end, thread } = self;
        let signals = &end.signals;
        signals.is_over.store(true, Ordering::SeqCst);
        signals.bell.ring();
        let error = thread.join(rt);
        let lost = signals.lost.load(Ordering::SeqCst);
        Written { lost, error }
    }
}

impl Write for QueuedWriter {
    fn write(&mut self, bytes: &[u8]) -> io::Result<usize> {
        self.end.write(bytes)
    }

    fn flush(&mut self) -> io::Result<()> {
        self.end.flush()
    }
}

impl Write for QueuedEnd {
    fn write(&mut self, bytes: &[u8]) -> io::Result<usize> {
        if self.signals.has_failed.load(Ordering::SeqCst) {
            return Err(io::Error::from(ErrorKind::BrokenPipe));
        }
        self.piece.text.extend_from_slice(bytes)?;
        self.piece.notices = self.piece.notices.saturating_add(1);
        Ok(bytes.len())
    }

    fn flush(&mut self) -> io::Result<()> {
        if self.piece.notices == 0 {
            return Ok(());
        }
        let piece = mem::replace(&mut self.piece, no_piece(self.alloc));
        let notices = piece.notices;
        let before = self.signals.waiting.fetch_add(notices, Ordering::SeqCst);
        if before < ROOM as u64 && self.line.post(piece).is_ok() {
            self.signals.bell.ring();
        } else {
            self.signals.waiting.fetch_sub(notices, Ordering::SeqCst);
            self.signals.lost.fetch_add(notices, Ordering::SeqCst);
        }
        Ok(())
    }
}

fn no_piece(alloc: Global) -> Piece {
    Piece {
        text: Vec::new(alloc),
        notices: 0,
    }
}

// An end at each of these lines.
fn ends_at(
    alloc: Global,
    lines: Vec<Poster<Piece>>,
    signals: &Arc<Signals>,
) -> Result<Vec<QueuedEnd>, AllocError> {
    let mut ends = Vec::with_capacity(alloc, lines.len())?;
    for line in lines {
        ends.push(QueuedEnd {
            alloc,
            piece: no_piece(alloc),
            line,
            signals: signals.clone()?,
        })?;
    }
    Ok(ends)
}

fn new_signals<R: Net>(rt: &R, alloc: Global) -> Result<Arc<Signals>, UaFault> {
    let Ok(bell) = Bell::new(rt) else {
        return Err(UaFault::Socket);
    };
    let signals = Signals {
        bell,
        is_over: AtomicBool::new(false),
        has_failed: AtomicBool::new(false),
        waiting: AtomicU64::new(0),
        lost: AtomicU64::new(0),
    };
    match Arc::new(alloc, signals) {
        Ok(signals) => Ok(signals),
        Err(_) => Err(UaFault::NoMemory),
    }
}

// Writes all that is posted. Gives why a write failed, if one did.
fn write_all<W: Write + Drop>(
    alloc: Global,
    mut desk: Desk<Piece>,
    mut stream: W,
    signals: &Signals,
) -> Option<io::Error> {
    let end = write_until_over(alloc, &mut desk, &mut stream, signals);
    signals.has_failed.store(end.is_err(), Ordering::SeqCst);
    end.err()
}

fn write_until_over<W: Write>(
    alloc: Global,
    desk: &mut Desk<Piece>,
    stream: &mut W,
    signals: &Signals,
) -> io::Result<()> {
    for _ in 0..u64::MAX {
        // Before it collects: what was posted before the end is then found.
        let is_over = signals.is_over.load(Ordering::SeqCst);
        let Ok(pieces) = desk.collect(TOGETHER) else {
            return Err(io::Error::from(ErrorKind::OutOfMemory));
        };
        if !pieces.is_empty() {
            write_pieces(alloc, stream, &pieces, &signals.waiting)?;
        } else if is_over {
            break;
        } else {
            signals.bell.wait(Duration::from_millis(PAUSE))?;
        }
    }
    Ok(())
}

// Writes these pieces by one call, and flushes. Their notices don't wait any more.
fn write_pieces<W: Write>(
    alloc: Global,
    stream: &mut W,
    pieces: &[Piece],
    waiting: &AtomicU64,
) -> io::Result<()>
    ensures { OnOk result (Appends (W.contents stream.old) (W.contents stream.new)
        (flat_map (λ piece. piece.text.items) pieces.now)) }
{
    let mut text = Vec::new(alloc);
    for piece in pieces {
        text.extend_from_slice(&piece.text)?;
        waiting.fetch_sub(piece.notices, Ordering::SeqCst);
    }
    put(stream, &text)
}
