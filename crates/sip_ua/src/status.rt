//! How the program ends: a fault is written, and has its status.

ghost use Rattle.std.specs.Prelude.{◌≡◌, ◌≢◌, ℕ, MatchResult};
ghost use Rattle.std.specs.IoError.{error_kind};
ghost use Rattle.std.specs.declared.io.ErrorKind.TheVariants as io_kind;

use crate::failure::{TalkFault, ToldCause};
use clap::Error;
use clap::error::ErrorKind;
use sip_files::{EventsFault, LinesFault, ReplayFault};
use sip_round::RoundFault;
use sip_stream::StreamFault;
use sip_udp::UaFault;
use std::fmt::Display;
use std::io::{self, Write};

/// The status of a command that did what it was to do.
pub(crate) const SUCCESS: u8 = 0;

const BAD_EVENTS: u8 = 1;

const BAD_WORDS: u8 = 2;

const BAD_ROUND: u8 = 3;

const FAILED_DEVICE: u8 = 4;

const NO_MEMORY: u8 = 5;

const NOT_ANSWERED: u8 = 6;

/// What is written if one of the words isn't UTF-8.
const NOT_UTF8: &str = "\
error: invalid UTF-8 was detected in one or more arguments

For more information, try '--help'.
";

/// A fault that ends the program.
pub(crate) trait Fault: Display + Copy {
    /// The status of the program then.
    ghost status_of: { Self → ℕ };

    fn status(self) -> u8
        ensures { result ≡ status_of self };
}

impl Fault for ReplayFault {
    ghost use Rattle.sip_ua.specs.Status.{fault_status};

    ghost status_of = { fault_status };

    fn status(self) -> u8 {
        match self {
            ReplayFault::NoMemory
            | ReplayFault::Events(EventsFault::NoMemory)
            | ReplayFault::Round(_, RoundFault::NoMemory { .. }) => NO_MEMORY,
            ReplayFault::Events(_) => BAD_EVENTS,
            ReplayFault::Round(..) => BAD_ROUND,
            ReplayFault::Input | ReplayFault::Output => FAILED_DEVICE,
        }
    }
}

impl Fault for StreamFault {
    ghost use Rattle.sip_ua.specs.StreamStatus.{stream_status};

    ghost status_of = { stream_status };

    fn status(self) -> u8 {
        match self {
            StreamFault::NoMemory
            | StreamFault::Head(EventsFault::NoMemory)
            | StreamFault::Lines(_, LinesFault::NoMemory)
            | StreamFault::Round(_, RoundFault::NoMemory { .. }) => NO_MEMORY,
            StreamFault::Head(_) | StreamFault::Lines(..) => BAD_EVENTS,
            StreamFault::Round(..) => BAD_ROUND,
            StreamFault::Input | StreamFault::Output => FAILED_DEVICE,
        }
    }
}

impl Fault for TalkFault {
    ghost use Rattle.sip_ua.specs.TalkStatus.{talk_status};

    ghost status_of = { talk_status };

    fn status(self) -> u8 {
        match self {
            TalkFault::BadArgument => BAD_WORDS,
            TalkFault::Ua(fault) => match fault {
                UaFault::Input | UaFault::Socket | UaFault::Output | UaFault::Journal =>
                    FAILED_DEVICE,
                UaFault::NoJournal | UaFault::JournalLines { .. } => BAD_EVENTS,
                UaFault::NotAnswered => NOT_ANSWERED,
                UaFault::NoMemory
                | UaFault::Round {
                    fault: RoundFault::NoMemory { .. },
                    ..
                } => NO_MEMORY,
                UaFault::Round { .. } => BAD_ROUND,
            },
        }
    }
}

/// Writes the fault at which a command ended, if there is one, and on a second line what is known
/// about its cause. Gives the status of the program.
pub(crate) fn finish<F: Fault, E: Write>(
    end: Result<(), F>,
    cause: Option<ToldCause>,
    errors: &mut E,
) -> u8
    ensures { MatchResult end (λ _. result ≡ 0) (λ fault. result ≡ F.status_of fault) }
{
    match end {
        Ok(()) => SUCCESS,
        Err(fault) => {
            let _ = writeln!(errors, "ua: {fault}");
            if let Some(cause) = cause {
                let _ = writeln!(errors, "ua: {cause}");
            }
            fault.status()
        }
    }
}

/// Writes a fault of the words, and gives its status.
pub(crate) fn tell_words<E: Write>(error: &Error, errors: &mut E) -> u8
    ensures fault { result ≢ 0 }
    ensures events { result ≢ 1 }
    ensures round { result ≢ 3 }
    ensures stream { result ≢ 4 }
{
    if error.kind() == ErrorKind::OutOfMemory {
        return no_memory(errors);
    }
    let _ = write!(errors, "{error}");
    BAD_WORDS
}

/// Writes why the words of the command line can't be read, and gives the status of that. Memory ran
/// out, or a word isn't UTF-8, which is written as `clap` says it.
pub fn no_words<E: Write>(error: &io::Error, errors: &mut E) -> u8
    ensures memory { error_kind error.now ≡ io_kind.OutOfMemory → result ≡ 5 }
    ensures words { error_kind error.now ≢ io_kind.OutOfMemory → result ≡ 2 }
{
    if error.kind() == io::ErrorKind::OutOfMemory {
        return no_memory(errors);
    }
    let _ = write!(errors, "{NOT_UTF8}");
    BAD_WORDS
}

// Writes that memory ran out, and gives the status of that.
fn no_memory<E: Write>(errors: &mut E) -> u8
    ensures { result ≡ 5 }
{
    finish(Err(ReplayFault::NoMemory), None, errors)
}

/// Writes the help or the version that was asked for, or else the fault of the words, and gives the
/// status of the program.
pub(crate) fn tell_help<W: Write, E: Write>(text: &Error, output: &mut W, errors: &mut E) -> u8
    ensures unwritten { result ≢ 0 → result ≢ 4 → output.new ≡ output.old }
{
    if text.use_stderr() {
        return tell_words(text, errors);
    }
    match write!(output, "{text}") {
        Ok(()) => SUCCESS,
        Err(_) => finish(Err(ReplayFault::Output), None, errors),
    }
}
