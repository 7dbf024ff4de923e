//! Ids, addresses and the seed, as the files have them.

ghost use Rattle.std.specs.Prelude.{◌≡◌};
ghost use Rattle.sip_files.specs.Steps.Reading as reading;

use crate::words::hex_byte;
use sip_message::{Addr, Id, ip_in};
use sip_text::{cut, number_up_to};

/// The id `round.place`.
#[tactic(auto, unfolding(crate::specs::Steps::Reading::id_at))]
pub(crate) fn read_id(field: &[u8]) -> Option<Id>
    ensures { result ≡ reading.id_at field.now }
{
    let (round, place) = cut(b'.', field)?;
    let round = number_up_to(round, u64::MAX)?;
    let place = number_up_to(place, u64::from(u32::MAX))? as u32;
    Some(Id { round, place })
}

/// The address `a.b.c.d:port`.
#[tactic(auto, unfolding(crate::specs::Steps::Reading::address_at))]
pub(crate) fn read_address(field: &[u8]) -> Option<Addr>
    ensures { result ≡ reading.address_at field.now }
{
    let (ip, port) = cut(b':', field)?;
    let ip = ip_in(ip)?;
    let port = number_up_to(port, u64::from(u16::MAX))? as u16;
    Some(Addr { ip, port })
}

/// The seed: 64 lower-case hexadecimal digits.
#[tactic(auto, unfolding(crate::specs::Steps::Reading::seed_at))]
pub(crate) fn read_seed(field: &[u8]) -> Option<[u8; 32]>
    ensures { result ≡ reading.seed_at field.now }
{
    let mut seed = [0u8; 32];
    let mut left = field;
    for i in 0..32 {
        let (byte, after) = read_pair(left)?;
        seed[i] = byte;
        left = after;
    }
    if left.is_empty() { Some(seed) } else { None }
}

// The byte of the first two digits, and what follows them.
#[tactic(auto, unfolding(crate::specs::Steps::Reading::pair_at))]
fn read_pair(text: &[u8]) -> Option<(u8, &[u8])>
    ensures { reading.read_now result ≡ reading.pair_at text.now }
{
    match text {
        [] | [_] => None,
        [high, low, after @ ..] => Some((hex_byte(*high, *low)?, after)),
    }
}
