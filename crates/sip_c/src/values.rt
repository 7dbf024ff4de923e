//! The values that pass between C and this library.

ghost use Rattle.std.specs.Prelude.{◌≡◌};
ghost use Rattle.sip_c.specs.Addressing as addressing;
ghost use Rattle.sip_c.specs.Called as spec;
ghost use Rattle.sip_c.specs.Journal as journal;

use crate::status::number_of_field;
use sip_files::LinesFault;
use sip_host::{
    AddressLength, Holdings, HostFault, LineLength, NextOutput, RequestTraits as HostTraits,
    ResumeFault, StartLength,
};
use sip_message::{Addr, Id};
use sip_round::Config;
use sip_user::{ProvisionalSupport, Reliability};

/// An IPv4 address and a port.
#[repr(C)]
#[derive(Clone, Copy)]
pub struct Address {
    pub ip: [u8; 4],
    pub port: u16,
}

impl Address {
    pub(crate) fn addr(&self) -> Addr
        ensures { result ≡ spec.addr_of self.now }
    {
        let Address { ip, port } = *self;
        Addr { ip, port }
    }
}

/// The values with which an agent is started.
#[repr(C)]
#[derive(Clone, Copy)]
pub struct Configuration {
    pub local: Address,
    pub seed: [u8; 32],
    pub first: u64,
}

impl Configuration {
    pub(crate) fn config(&self) -> Config
        ensures { result ≡ spec.config_of self.now }
    {
        Config {
            local: self.local.addr(),
            seed: self.seed,
            first: self.first,
        }
    }
}

/// An output: its kind, where it goes if it is a send, the place of the event that it belongs to,
/// its index in the last round, and the length of its text in bytes.
#[repr(C)]
#[derive(Clone, Copy)]
pub struct Told {
    pub kind: u32,
    pub to: Address,
    pub place: u32,
    pub index: usize,
    pub len: usize,
}

/// A moment in ms, if there is one.
#[repr(C)]
#[derive(Clone, Copy)]
pub struct Due {
    pub is_due: bool,
    pub moment: u64,
}

/// The address of a send; zeros for another output.
pub(crate) fn address_of(to: Option<Addr>) -> Address
    ensures { result ≡ spec.address_of to }
{
    match to {
        None => Address {
            ip: [0; 4],
            port: 0,
        },
        Some(to) => {
            let ip = to.ip;
            let port = to.port;
            Address { ip, port }
        }
    }
}

/// The next output, or zeros if there is none.
pub(crate) fn told_of(next: Option<NextOutput>) -> Told
    ensures { result ≡ spec.told_of next }
{
    match next {
        None => Told {
            kind: 0,
            to: address_of(None),
            place: 0,
            index: 0,
            len: 0,
        },
        Some(
            NextOutput {
                index,
                place,
                to,
                len,
            },
        ) => Told {
            kind: if to.is_some() { 1 } else { 2 },
            to: address_of(to),
            place,
            index,
            len,
        },
    }
}

/// The moment, or zeros if there is none.
pub(crate) fn due_of(moment: Option<u64>) -> Due
    ensures { result ≡ spec.due_of moment }
{
    match moment {
        None => Due {
            is_due: false,
            moment: 0,
        },
        Some(moment) => Due {
            is_due: true,
            moment,
        },
    }
}

/// The id of an event, if there is one.
#[repr(C)]
#[derive(Clone, Copy)]
pub struct EventId {
    pub is_given: bool,
    pub place: u32,
    pub round: u64,
}

/// The id, or zeros if there is none.
pub(crate) fn id_of(id: Option<Id>) -> EventId
    ensures { result ≡ spec.id_of id }
{
    match id {
        None => EventId {
            is_given: false,
            place: 0,
            round: 0,
        },
        Some(Id { round, place }) => EventId {
            is_given: true,
            place,
            round,
        },
    }
}

/// The answer to a command: the id of its event, or the number of the bad part, or 0.
#[repr(C)]
#[derive(Clone, Copy)]
pub struct Asked {
    pub id: EventId,
    pub bad_field: u32,
}

/// Nothing was asked for, and no part is bad.
pub(crate) fn nothing_asked() -> Asked
    ensures { result ≡ spec.nothing_asked }
{
    Asked {
        id: id_of(None),
        bad_field: 0,
    }
}

/// The answer to a command, as C gets it.
pub(crate) fn asked_of(answer: Result<Id, HostFault>) -> Asked
    ensures { result ≡ spec.asked_of answer }
{
    match answer {
        Ok(id) => Asked {
            id: id_of(Some(id)),
            bad_field: 0,
        },
        Err(HostFault::BadField(field)) => Asked {
            id: id_of(None),
            bad_field: number_of_field(field),
        },
        Err(_) => nothing_asked(),
    }
}

/// The use of reliable provisional responses that an INVITE asks for.
pub(crate) fn support_of(supports: bool, requires_it: bool) -> ProvisionalSupport
    ensures { result ≡ spec.support_of supports requires_it }
{
    match (supports, requires_it) {
        (_, true) => ProvisionalSupport::Required,
        (true, false) => ProvisionalSupport::Supported,
        (false, false) => ProvisionalSupport::None,
    }
}

/// Whether a response is to be sent reliably.
pub(crate) fn reliability_of(is_reliable: bool) -> Reliability
    ensures { result ≡ spec.reliability_of is_reliable }
{
    if is_reliable {
        Reliability::Reliable
    } else {
        Reliability::Plain
    }
}

/// What is held: transactions and calls that have begun and haven't ended. What waits: events of
/// the next round, which has this number, and outputs of the last round.
#[repr(C)]
#[derive(Clone, Copy)]
pub struct Stats {
    pub transactions: u64,
    pub calls: u64,
    pub next_round: u64,
    pub events: usize,
    pub outputs: usize,
}

/// What is held and what waits, or zeros if there is no agent.
pub(crate) fn stats_of(holds: Option<Holdings>) -> Stats
    ensures { result ≡ spec.stats_of holds }
{
    match holds {
        None => Stats {
            transactions: 0,
            calls: 0,
            next_round: 0,
            events: 0,
            outputs: 0,
        },
        Some(holds) => Stats {
            transactions: shown(holds.transactions),
            calls: shown(holds.calls),
            next_round: holds.next_round,
            events: holds.events,
            outputs: holds.outputs,
        },
    }
}

// The highest number stands for all above it.
fn shown(number: u128) -> u64
    ensures { result ≡ spec.shown number }
{
    if number <= u128::from(u64::MAX) {
        number as u64
    } else {
        u64::MAX
    }
}

/// A datagram that came in, if one did: its source, and its length in bytes.
#[repr(C)]
#[derive(Clone, Copy)]
pub struct Datagram {
    pub is_there: bool,
    pub from: Address,
    pub len: usize,
}

/// The datagram, or zeros if there is none.
pub(crate) fn datagram_of(came: Option<(Addr, usize)>) -> Datagram
    ensures { result ≡ spec.datagram_of came }
{
    match came {
        None => Datagram {
            is_there: false,
            from: address_of(None),
            len: 0,
        },
        Some((from, len)) => Datagram {
            is_there: true,
            from: address_of(Some(from)),
            len,
        },
    }
}

/// A text, if there is one: its length in bytes.
#[repr(C)]
#[derive(Clone, Copy)]
pub struct TextLength {
    pub is_there: bool,
    pub len: usize,
}

/// The length of a text, or zeros if there is none.
pub(crate) fn length_of(length: Option<usize>) -> TextLength
    ensures { result ≡ spec.length_of length }
{
    match length {
        None => TextLength {
            is_there: false,
            len: 0,
        },
        Some(len) => TextLength {
            is_there: true,
            len,
        },
    }
}

/// A header line, if there is one: the lengths of its name and of its value, in bytes.
#[repr(C)]
#[derive(Clone, Copy)]
pub struct HeaderLengths {
    pub is_there: bool,
    pub name_len: usize,
    pub len: usize,
}

/// The lengths of a header line, or zeros if there is none.
pub(crate) fn header_lengths_of(line: Option<LineLength>) -> HeaderLengths
    ensures { result ≡ spec.header_lengths_of line }
{
    match line {
        None => HeaderLengths {
            is_there: false,
            name_len: 0,
            len: 0,
        },
        Some(line) => HeaderLengths {
            is_there: true,
            name_len: line.name,
            len: line.value,
        },
    }
}

/// A start line, if there is one: its kind, the status of a response, the length of a request's
/// method, and that of its Request-URI or of a response's reason, in bytes.
#[repr(C)]
#[derive(Clone, Copy)]
pub struct StartLine {
    pub kind: u32,
    pub status: u32,
    pub method_len: usize,
    pub len: usize,
}

/// The start line, or zeros if there is none.
pub(crate) fn start_line_of(start: Option<StartLength>) -> StartLine
    ensures { result ≡ spec.start_line_of start }
{
    match start {
        None => StartLine {
            kind: 0,
            status: 0,
            method_len: 0,
            len: 0,
        },
        Some(StartLength::Request { method, uri }) => StartLine {
            kind: 1,
            status: 0,
            method_len: method,
            len: uri,
        },
        Some(StartLength::Response { status, reason }) => StartLine {
            kind: 2,
            status: u32::from(status),
            method_len: 0,
            len: reason,
        },
    }
}

/// How long the texts of an address are, in bytes, if there is one, and whether it has the parameter
/// that was asked for.
#[repr(C)]
#[derive(Clone, Copy)]
pub struct AddressLengths {
    pub is_there: bool,
    pub has_parameter: bool,
    pub display_len: usize,
    pub uri_len: usize,
    pub value_len: usize,
}

/// The lengths of an address, or zeros if there is none.
pub(crate) fn address_lengths_of(told: Option<AddressLength>) -> AddressLengths
    ensures { result ≡ addressing.address_lengths_of told }
{
    match told {
        None => AddressLengths {
            is_there: false,
            has_parameter: false,
            display_len: 0,
            uri_len: 0,
            value_len: 0,
        },
        Some(told) => AddressLengths {
            is_there: true,
            has_parameter: told.value.is_some(),
            display_len: told.display,
            uri_len: told.uri,
            value_len: told.value.unwrap_or(0),
        },
    }
}

/// What a request says of itself, if there is one: whether it is in a dialog, and whether `100rel`
/// is in its Supported or its Require, or in its Require.
#[repr(C)]
#[derive(Clone, Copy)]
pub struct RequestTraits {
    pub is_there: bool,
    pub is_in_dialog: bool,
    pub supports_100rel: bool,
    pub requires_100rel: bool,
}

/// The traits, or no if there are none.
pub(crate) fn traits_given(traits: Option<HostTraits>) -> RequestTraits
    ensures { result ≡ spec.traits_given traits }
{
    match traits {
        None => RequestTraits {
            is_there: false,
            is_in_dialog: false,
            supports_100rel: false,
            requires_100rel: false,
        },
        Some(traits) => RequestTraits {
            is_there: true,
            is_in_dialog: traits.is_in_dialog,
            supports_100rel: traits.supports_100rel,
            requires_100rel: traits.requires_100rel,
        },
    }
}

/// How long the lines of the round were that was run again, in bytes, or the number of the line
/// that is bad.
#[repr(C)]
#[derive(Clone, Copy)]
pub struct Resumed {
    pub len: usize,
    pub bad_line: u64,
}

/// What is told of a call that runs a round again.
pub(crate) fn resumed_of(answer: &Result<usize, ResumeFault>) -> Resumed
    ensures { result ≡ journal.resumed_of answer.now }
{
    match answer {
        Ok(len) => Resumed {
            len: *len,
            bad_line: 0,
        },
        Err(ResumeFault::Lines(LinesFault::BadLine(line))) => Resumed {
            len: 0,
            bad_line: *line,
        },
        Err(_) => Resumed {
            len: 0,
            bad_line: 0,
        },
    }
}
