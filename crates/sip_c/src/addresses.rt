//! The functions by which C reads the addresses in the values of headers. They need no agent.

ghost use Rattle.std.specs.Prelude.{◌≡◌};
ghost use Rattle.sip_host.specs.Addresses as addresses;
ghost use Rattle.sip_c.specs.Addressing as spec;
ghost use Rattle.sip_c.specs.Addressing.{GivesAddress, room_for_address};

use crate::status::{NO_MEMORY, NO_ROOM, room_answer};
use crate::values::{self, AddressLengths};
use sip_host::{AddressLength, address_at, party_in};
use std::alloc::{AllocError, Global};

/// The address with this number, from 0, in the value of a Contact, a Route or a Record-Route, and
/// the value of one of its parameters.
#[unsafe(no_mangle)]
pub extern "C" fn sip_ua_raw_address(
    alloc: Global,
    value: &[u8],
    number: usize,
    parameter: &[u8],
    told: &mut AddressLengths,
    buffer: &mut [u8],
) -> u32
    ensures { GivesAddress (addresses.address_at value.now number) parameter.now result told.new
        buffer.old buffer.new }
{
    let room = buffer.len();
    answer_of(
        address_at(alloc, value, number, parameter, buffer),
        told,
        room,
    )
}

/// The address in the value of a From or a To, and the value of one of its parameters.
#[unsafe(no_mangle)]
pub extern "C" fn sip_ua_raw_party(
    alloc: Global,
    value: &[u8],
    parameter: &[u8],
    told: &mut AddressLengths,
    buffer: &mut [u8],
) -> u32
    ensures { GivesAddress (addresses.party_in value.now) parameter.now result told.new buffer.old
        buffer.new }
{
    let room = buffer.len();
    answer_of(party_in(alloc, value, parameter, buffer), told, room)
}

// Tells the lengths, and gives the number of the call for a buffer with so much room.
fn answer_of(
    answer: Result<Option<AddressLength>, AllocError>,
    told: &mut AddressLengths,
    room: usize,
) -> u32
    ensures number { result ≡ spec.address_answer answer room }
    ensures told { told.new ≡ spec.address_told answer }
{
    match answer {
        Ok(lengths) => {
            *told = values::address_lengths_of(lengths);
            lengths_answer(told, room)
        }
        Err(_) => {
            *told = values::address_lengths_of(None);
            NO_MEMORY
        }
    }
}

fn lengths_answer(told: &AddressLengths, room: usize) -> u32
    ensures { result ≡ room_for_address told.now room }
{
    let Some(left) = room.checked_sub(told.display_len) else {
        return NO_ROOM;
    };
    match left.checked_sub(told.uri_len) {
        Some(left) => room_answer(told.value_len, left),
        None => NO_ROOM,
    }
}
