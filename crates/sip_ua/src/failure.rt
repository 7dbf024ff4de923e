//! Why `ua listen`, `ua call`, `ua agent` or `ua compact` stopped, and what is known about the
//! cause.

ghost use Rattle.std.specs.Prelude.{◌≡◌};

use sip_udp::UaFault;
use std::alloc::AllocError;
use std::{fmt, io};
use thiserror::Error;

/// Why a command stopped.
#[derive(Clone, Copy, Debug, Error)]
pub(crate) enum TalkFault {
    /// The word of an option isn't what it has to be.
    #[error("bad argument")]
    BadArgument,
    #[error(transparent)]
    Ua(UaFault),
}

/// Why a command stopped, and what is known about the cause.
#[derive(Clone, Copy)]
pub(crate) struct Failure {
    pub(crate) fault: TalkFault,
    pub(crate) cause: Option<Cause>,
}

/// What is known about a cause. An option is named as `clap` knows it.
#[derive(Clone, Copy)]
pub(crate) enum Cause {
    /// The word of an option isn't what it has to be.
    Word {
        option: &'static str,
        wanted: &'static str,
    },
    /// The status of `--answer` isn't what it has to be.
    Answer {
        status: &'static str,
        wanted: &'static str,
    },
    /// What the system says about the file of an option.
    File {
        option: &'static str,
        error: io::Error,
    },
    /// What the system says about the address of `--local`.
    Local(io::Error),
    /// What the system says about one of its own streams or sources.
    System {
        name: &'static str,
        error: io::Error,
    },
}

impl Cause {
    /// The option whose word is told with this cause, if there is one.
    pub(crate) fn option(self) -> Option<&'static str> {
        match self {
            Cause::Word { option, .. } | Cause::File { option, .. } => Some(option),
            Cause::Local(_) => Some("local"),
            Cause::Answer { .. } | Cause::System { .. } => None,
        }
    }
}

/// A cause, and the word of its option.
#[derive(Clone, Copy)]
pub(crate) struct ToldCause<'a> {
    pub(crate) cause: Cause,
    pub(crate) word: &'a str,
}

impl Failure {
    /// The failure for an option whose word isn't what it has to be.
    pub(crate) fn of_word(option: &'static str, wanted: &'static str) -> Failure {
        Failure {
            fault: TalkFault::BadArgument,
            cause: Some(Cause::Word { option, wanted }),
        }
    }

    /// The failure for the status of an answer that isn't what it has to be.
    pub(crate) fn of_answer(status: &'static str, wanted: &'static str) -> Failure {
        Failure {
            fault: TalkFault::BadArgument,
            cause: Some(Cause::Answer { status, wanted }),
        }
    }

    /// The failure for the file of an option.
    pub(crate) fn of_file(fault: UaFault, option: &'static str, error: io::Error) -> Failure {
        Failure {
            fault: TalkFault::Ua(fault),
            cause: Some(Cause::File { option, error }),
        }
    }

    /// The failure for a stream or a source of the system.
    pub(crate) fn of_system(fault: UaFault, name: &'static str, error: io::Error) -> Failure {
        Failure {
            fault: TalkFault::Ua(fault),
            cause: Some(Cause::System { name, error }),
        }
    }
}

impl From<UaFault> for Failure {
    ghost use Rattle.sip_ua.specs.declared.failure.TalkFault.TheVariants.{Ua};

    ghost from_gives = { λ given failure. failure.fault ≡ Ua given };

    fn from(fault: UaFault) -> Failure {
        Failure {
            fault: TalkFault::Ua(fault),
            cause: None,
        }
    }
}

impl From<AllocError> for Failure {
    ghost use Rattle.sip_ua.specs.declared.failure.TalkFault.TheVariants.{Ua};
    ghost use Rattle.sip_udp.specs.declared.fault.UaFault.TheVariants.{NoMemory};

    ghost from_gives = { λ _ failure. failure.fault ≡ Ua NoMemory };

    fn from(_error: AllocError) -> Failure {
        Failure::from(UaFault::NoMemory)
    }
}

impl fmt::Display for ToldCause<'_> {
    fn fmt<W: fmt::Write>(&self, f: &mut fmt::Formatter<W>) -> fmt::Result {
        let word = self.word;
        match self.cause {
            Cause::Word { option, wanted } => write!(f, "--{option} {word}: {wanted}"),
            Cause::Answer { status, wanted } => write!(f, "--answer {status}: {wanted}"),
            Cause::File { option, error } => write!(f, "--{option} {word}: {error}"),
            Cause::Local(error) => write!(f, "{word}: {error}"),
            Cause::System { name, error } => write!(f, "{name}: {error}"),
        }
    }
}
