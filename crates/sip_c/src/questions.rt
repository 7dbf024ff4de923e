//! The functions by which C asks for the id of an event, for what an agent holds, and for what a
//! datagram says.

ghost use Rattle.std.specs.Prelude.{◌≡◌, ◌⊎◌, ◌+◌, ◌≤◌, IfSome, None, Option, Some, false, length};
ghost use Rattle.sip_host.specs.Handing.{put_in};
ghost use Rattle.sip_host.specs.Hosting.{HoldsSo, TellsIfItBegins, last_id_of};
ghost use Rattle.sip_host.specs.declared.holdings.Holdings.{Holdings as AHoldings};
ghost use Rattle.sip_c.specs.Status as spec;
ghost use Rattle.sip_host.specs.Traits.{TellsTraitsAt};
ghost use Rattle.sip_host.specs.declared.request_traits.RequestTraits.{RequestTraits as TheTraits};
ghost use Rattle.sip_c.specs.Called.{TellsDatagram, TellsLine, TellsLines, TellsNothing, TellsOrNot, TellsStart, TellsTag, TellsValue, TellsValues, datagram_of, traits_given, header_lengths_of, id_of, length_of, start_line_of, stats_of};

use crate::handle::Handle;
use crate::status::{NO_AGENT, NO_MEMORY, NO_ROOM, OK, room_answer};
use crate::values::{
    self, Datagram, EventId, HeaderLengths, RequestTraits, StartLine, Stats, TextLength,
};
use sip_host::put;
use sip_message::Id;
use std::alloc::Global;

/// The id of the event that was given last, if the next round has one.
#[unsafe(no_mangle)]
pub extern "C" fn sip_ua_raw_last_id(alloc: Global, handle: &mut Handle, id: &mut EventId) -> u32
    ensures same { handle.new.owned.host ≡ handle.old.owned.host }
    ensures none { handle.old.owned.host ≡ None → (result ≡ 1) × (id.new ≡ id_of None) }
    ensures told { IfSome handle.old.owned.host (λ host. (result ≡ 0)
        × (length host.events ≤ 65536 → id.new ≡ id_of (last_id_of host))) }
{
    let Some(host) = handle.take(alloc) else {
        *id = values::id_of(None);
        return NO_AGENT;
    };
    *id = values::id_of(host.last_id());
    handle.put(host);
    OK
}

/// The tag that the agent gives itself where the command with this id sends an INVITE, or another
/// request outside of dialogs.
#[unsafe(no_mangle)]
pub extern "C" fn sip_ua_raw_opening_tag(
    alloc: Global,
    handle: &mut Handle,
    round: u64,
    place: u32,
    len: &mut usize,
    buffer: &mut [u8],
) -> u32
    ensures same { handle.new.owned.host ≡ handle.old.owned.host }
    ensures none { handle.old.owned.host ≡ None
        → TellsNothing result len.new 0 buffer.old buffer.new }
    ensures told { IfSome handle.old.owned.host (λ host.
        TellsOrNot result len.new 0 buffer.old buffer.new
        (TellsTag (record { round = round; place = place }) result len.new buffer.old buffer.new
        host)) }
{
    *len = 0;
    let Some(host) = handle.take(alloc) else {
        return NO_AGENT;
    };
    let answer = host.opening_tag(Id { round, place });
    handle.put(host);
    match answer {
        Ok(tag) => tell_text(tag.as_slice(), len, buffer),
        Err(_) => NO_MEMORY,
    }
}

/// Tells a text, if it fits into the buffer, and how long it is. Gives the number of the call.
pub(crate) fn tell_text(text: &[u8], len: &mut usize, buffer: &mut [u8]) -> u32
    ensures number { result ≡ spec.room_answer (length text.now) (length buffer.old) }
    ensures told { len.new ≡ length text.now }
    ensures put { buffer.new ≡ put_in text.now buffer.old }
{
    *len = text.len();
    put(text, buffer);
    room_answer(text.len(), buffer.len())
}

/// What the agent holds, and what waits in it.
#[unsafe(no_mangle)]
pub extern "C" fn sip_ua_raw_stats(alloc: Global, handle: &mut Handle, stats: &mut Stats) -> u32
    ensures same { handle.new.owned.host ≡ handle.old.owned.host }
    ensures none { handle.old.owned.host ≡ None → (result ≡ 1) × (stats.new ≡ stats_of None) }
    ensures told { IfSome handle.old.owned.host (λ host. (holds : AHoldings) × (result ≡ 0)
        × HoldsSo host holds × (stats.new ≡ stats_of (Some holds))) }
{
    let Some(host) = handle.take(alloc) else {
        *stats = values::stats_of(None);
        return NO_AGENT;
    };
    *stats = values::stats_of(Some(host.holdings()));
    handle.put(host);
    OK
}

/// Whether a datagram would begin a transaction if it came in the next round.
#[unsafe(no_mangle)]
pub extern "C" fn sip_ua_raw_would_begin(
    alloc: Global,
    handle: &mut Handle,
    bytes: &[u8],
    begins: &mut bool,
) -> u32
    ensures same { handle.new.owned.host ≡ handle.old.owned.host }
    ensures none { handle.old.owned.host ≡ None → (result ≡ 1) × (begins.new ≡ false) }
    ensures told { IfSome handle.old.owned.host (λ host.
        ((result ≡ 0) × TellsIfItBegins bytes.now host begins.new)
        ⊎ ((result ≡ 10) × (begins.new ≡ false))) }
{
    *begins = false;
    let Some(host) = handle.take(alloc) else {
        return NO_AGENT;
    };
    let answer = host.would_begin(bytes);
    handle.put(host);
    match answer {
        Ok(would) => {
            *begins = would;
            OK
        }
        Err(_) => NO_MEMORY,
    }
}

/// The datagram that came in at a place of the last round, if one did.
#[unsafe(no_mangle)]
pub extern "C" fn sip_ua_raw_datagram_at(
    alloc: Global,
    handle: &mut Handle,
    place: u32,
    told: &mut Datagram,
    buffer: &mut [u8],
) -> u32
    ensures same { handle.new.owned.host ≡ handle.old.owned.host }
    ensures none { handle.old.owned.host ≡ None
        → TellsNothing result told.new (datagram_of None) buffer.old buffer.new }
    ensures told { IfSome handle.old.owned.host
        (TellsDatagram place result told.new buffer.old buffer.new) }
{
    let Some(host) = handle.take(alloc) else {
        *told = values::datagram_of(None);
        return NO_AGENT;
    };
    let room = buffer.len();
    *told = values::datagram_of(host.datagram_at(place, buffer));
    handle.put(host);
    room_answer(told.len, room)
}

/// What the request that came in at a place of the last round says of itself.
#[unsafe(no_mangle)]
pub extern "C" fn sip_ua_raw_request_traits(
    alloc: Global,
    handle: &mut Handle,
    place: u32,
    traits: &mut RequestTraits,
) -> u32
    ensures same { handle.new.owned.host ≡ handle.old.owned.host }
    ensures none { handle.old.owned.host ≡ None → (result ≡ 1) × (traits.new ≡ traits_given None) }
    ensures told { IfSome handle.old.owned.host (λ host.
        ((told : Option TheTraits) × (result ≡ 0) × TellsTraitsAt host place told
        × (traits.new ≡ traits_given told))
        ⊎ ((result ≡ 10) × (traits.new ≡ traits_given None))) }
{
    *traits = values::traits_given(None);
    let Some(host) = handle.take(alloc) else {
        return NO_AGENT;
    };
    let answer = host.request_traits(place);
    handle.put(host);
    match answer {
        Ok(told) => {
            *traits = values::traits_given(told);
            OK
        }
        Err(_) => NO_MEMORY,
    }
}

/// What the start line of the datagram that came in at a place of the last round says.
#[unsafe(no_mangle)]
pub extern "C" fn sip_ua_raw_start_line(
    alloc: Global,
    handle: &mut Handle,
    place: u32,
    told: &mut StartLine,
    buffer: &mut [u8],
) -> u32
    ensures same { handle.new.owned.host ≡ handle.old.owned.host }
    ensures none { handle.old.owned.host ≡ None
        → TellsNothing result told.new (start_line_of None) buffer.old buffer.new }
    ensures told { IfSome handle.old.owned.host (λ host.
        TellsOrNot result told.new (start_line_of None) buffer.old buffer.new
        (TellsStart place result told.new buffer.old buffer.new host)) }
{
    *told = values::start_line_of(None);
    let Some(host) = handle.take(alloc) else {
        return NO_AGENT;
    };
    let room = buffer.len();
    let answer = host.start_text(place, buffer);
    handle.put(host);
    match answer {
        Ok(start) => {
            *told = values::start_line_of(start);
            start_answer(told, room)
        }
        Err(_) => NO_MEMORY,
    }
}

// The number of the call that tells a start line, for a buffer with so much room.
fn start_answer(told: &StartLine, room: usize) -> u32
    ensures { result ≡ spec.room_answer (told.now.method_len + told.now.len) room }
{
    match room.checked_sub(told.method_len) {
        Some(left) => room_answer(told.len, left),
        None => NO_ROOM,
    }
}

/// The value of a header, by its number from 0, in the datagram that came in at a place of the last
/// round.
#[unsafe(no_mangle)]
pub extern "C" fn sip_ua_raw_header_value(
    alloc: Global,
    handle: &mut Handle,
    place: u32,
    name: &[u8],
    number: usize,
    told: &mut TextLength,
    buffer: &mut [u8],
) -> u32
    ensures same { handle.new.owned.host ≡ handle.old.owned.host }
    ensures none { handle.old.owned.host ≡ None
        → TellsNothing result told.new (length_of None) buffer.old buffer.new }
    ensures told { IfSome handle.old.owned.host (λ host.
        TellsOrNot result told.new (length_of None) buffer.old buffer.new
        (TellsValue place name.now number result told.new buffer.old buffer.new host)) }
{
    *told = values::length_of(None);
    let Some(host) = handle.take(alloc) else {
        return NO_AGENT;
    };
    let room = buffer.len();
    let answer = host.header_value(place, name, number, buffer);
    handle.put(host);
    match answer {
        Ok(value) => {
            *told = values::length_of(value);
            room_answer(told.len, room)
        }
        Err(_) => NO_MEMORY,
    }
}

/// The header line with this number, from 0, of the datagram that came in at a place of the last
/// round.
#[unsafe(no_mangle)]
pub extern "C" fn sip_ua_raw_header_line(
    alloc: Global,
    handle: &mut Handle,
    place: u32,
    number: usize,
    told: &mut HeaderLengths,
    buffer: &mut [u8],
) -> u32
    ensures same { handle.new.owned.host ≡ handle.old.owned.host }
    ensures none { handle.old.owned.host ≡ None
        → TellsNothing result told.new (header_lengths_of None) buffer.old buffer.new }
    ensures told { IfSome handle.old.owned.host (λ host.
        TellsOrNot result told.new (header_lengths_of None) buffer.old buffer.new
        (TellsLine place number result told.new buffer.old buffer.new host)) }
{
    *told = values::header_lengths_of(None);
    let Some(host) = handle.take(alloc) else {
        return NO_AGENT;
    };
    let room = buffer.len();
    let answer = host.header_line(place, number, buffer);
    handle.put(host);
    match answer {
        Ok(line) => {
            *told = values::header_lengths_of(line);
            line_answer(told, room)
        }
        Err(_) => NO_MEMORY,
    }
}

// The number of the call that tells a header line, for a buffer with so much room.
fn line_answer(told: &HeaderLengths, room: usize) -> u32
    ensures { result ≡ spec.room_answer (told.now.name_len + told.now.len) room }
{
    match room.checked_sub(told.name_len) {
        Some(left) => room_answer(told.len, left),
        None => NO_ROOM,
    }
}

/// All values of a header, each with a line feed behind it, in the datagram that came in at a place
/// of the last round.
#[unsafe(no_mangle)]
pub extern "C" fn sip_ua_raw_header_values(
    alloc: Global,
    handle: &mut Handle,
    place: u32,
    name: &[u8],
    len: &mut usize,
    buffer: &mut [u8],
) -> u32
    ensures same { handle.new.owned.host ≡ handle.old.owned.host }
    ensures none { handle.old.owned.host ≡ None
        → TellsNothing result len.new 0 buffer.old buffer.new }
    ensures told { IfSome handle.old.owned.host (λ host.
        TellsOrNot result len.new 0 buffer.old buffer.new
        (TellsValues place name.now result len.new buffer.old buffer.new host)) }
{
    *len = 0;
    let Some(host) = handle.take(alloc) else {
        return NO_AGENT;
    };
    let answer = host.values_text(place, name);
    handle.put(host);
    match answer {
        Ok(text) => tell_text(&text, len, buffer),
        Err(_) => NO_MEMORY,
    }
}

/// All header lines, each with a line feed behind it, of the datagram that came in at a place of the
/// last round.
#[unsafe(no_mangle)]
pub extern "C" fn sip_ua_raw_header_lines(
    alloc: Global,
    handle: &mut Handle,
    place: u32,
    len: &mut usize,
    buffer: &mut [u8],
) -> u32
    ensures same { handle.new.owned.host ≡ handle.old.owned.host }
    ensures none { handle.old.owned.host ≡ None
        → TellsNothing result len.new 0 buffer.old buffer.new }
    ensures told { IfSome handle.old.owned.host (λ host.
        TellsOrNot result len.new 0 buffer.old buffer.new
        (TellsLines place result len.new buffer.old buffer.new host)) }
{
    *len = 0;
    let Some(host) = handle.take(alloc) else {
        return NO_AGENT;
    };
    let answer = host.lines_text(place);
    handle.put(host);
    match answer {
        Ok(text) => tell_text(&text, len, buffer),
        Err(_) => NO_MEMORY,
    }
}
