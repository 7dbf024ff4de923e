//! The numbers that calls answer.

ghost use Rattle.std.specs.Prelude.{◌≡◌};
ghost use Rattle.sip_c.specs.Journal as journal;
ghost use Rattle.sip_c.specs.Status as spec;

use sip_files::LinesFault;
use sip_host::{Field, HostFault, ResumeFault};
use sip_round::RoundFault;

pub(crate) const OK: u32 = 0;

/// The handle holds no agent.
pub(crate) const NO_AGENT: u32 = 1;

/// The handle holds an agent.
pub(crate) const AGENT_EXISTS: u32 = 2;

pub(crate) const NO_MEMORY: u32 = 10;

/// The number of shards or of the first round is out of range.
pub(crate) const BAD_CONFIGURATION: u32 = 12;

/// The text is longer than the buffer.
pub(crate) const NO_ROOM: u32 = 15;

/// The number of a fault.
pub(crate) fn number_of(fault: HostFault) -> u32
    ensures { result ≡ spec.number_of fault }
{
    match fault {
        HostFault::BadLine => 3,
        HostFault::TooManyEvents => 4,
        HostFault::NoSend => 5,
        HostFault::OutputsLeft => 6,
        HostFault::Round(fault) => number_of_round(fault),
        HostFault::NoMemory => 10,
        HostFault::BadField(_) => 14,
    }
}

fn number_of_round(fault: RoundFault) -> u32
    ensures { result ≡ spec.number_of_round fault }
{
    match fault {
        RoundFault::TooManyEvents => 4,
        RoundFault::MomentBackwards => 7,
        RoundFault::MomentTooLarge => 8,
        RoundFault::RoundsUsedUp => 9,
        RoundFault::NoMemory { broken: false } => 10,
        RoundFault::Broken | RoundFault::NoMemory { broken: true } => 11,
    }
}

/// The number of a part of a command.
pub(crate) fn number_of_field(field: Field) -> u32
    ensures { result ≡ spec.number_of_field field }
{
    match field {
        Field::CallId => 1,
        Field::Method => 2,
        Field::RequestUri => 3,
        Field::From => 4,
        Field::To => 5,
        Field::LocalTag => 6,
        Field::RemoteTag => 7,
        Field::Status => 8,
        Field::Reason => 9,
        Field::Headers => 10,
    }
}

/// The number of a call that tells a text of this length, for a buffer with so much room.
pub(crate) fn room_answer(length: usize, room: usize) -> u32
    ensures { result ≡ spec.room_answer length room }
{
    if room < length { NO_ROOM } else { OK }
}

/// The number of a call's result.
pub(crate) fn number_of_answer(answer: Result<(), HostFault>) -> u32
    ensures { result ≡ spec.number_of_answer answer }
{
    match answer {
        Ok(()) => OK,
        Err(fault) => number_of(fault),
    }
}

/// The number of a call that runs a round again.
pub(crate) fn number_of_resume(answer: &Result<usize, ResumeFault>) -> u32
    ensures { result ≡ journal.number_of_resume answer.now }
{
    match answer {
        Ok(_) => OK,
        Err(ResumeFault::Busy) => 16,
        Err(ResumeFault::Lines(fault)) => number_of_lines(*fault),
        Err(ResumeFault::Round(fault)) => number_of_round(*fault),
    }
}

fn number_of_lines(fault: LinesFault) -> u32
    ensures { result ≡ journal.number_of_lines fault }
{
    match fault {
        LinesFault::TooLong | LinesFault::BadLine(_) | LinesFault::NotOne => 3,
        LinesFault::NoMemory => 10,
    }
}
