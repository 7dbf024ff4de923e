//! Made names: the tags and branches that the agent makes.

ghost use Rattle.std.specs.Prelude.{◌≡◌, ◌<◌, ◌≤◌, ◌^◌, ◌++◌, IfOk, OnOk};
ghost use Rattle.sip_clients.specs.Name as spec;
ghost use Rattle.sip_clients.specs.Name.{hex, name_of, word_of_name};

use crate::chacha::word_at;
use sip_message::{Id, Token};
use sip_text::{Text, hex_digit};
use std::alloc::{AllocError, Global};

/// The index of a made From tag among the names of its event.
const FROM_TAG_NAME: u8 = 1;

/// The tag that the agent gives itself where the command with this id sends an INVITE, or another
/// request outside of dialogs (RFC 3261, section 8.1.1.3): the From tag of the request.
///
/// # Errors
///
/// Memory ran out.
pub fn opening_tag(alloc: Global, seed: [u8; 32], id: Id) -> Result<Token, AllocError>
    ensures { IfOk result (λ tag. tag ≡ spec.opening_tag seed id) }
{
    made_name(alloc, seed, id, FROM_TAG_NAME)
}

/// The name of an index that an event makes. It has 16 hexadecimal digits of the round, 16 of the
/// place, one of the index, and 8 of a word of the ChaCha20 stream of the round under the seed. So
/// two names differ, and who hasn't seen one has 32 bits to guess.
pub fn made_name(alloc: Global, seed: [u8; 32], id: Id, index: u8) -> Result<Token, AllocError>
    requires { index < 16 }
    ensures { IfOk result (λ name. name ≡ name_of seed id index) }
{
    Ok(Token::from_text(digits_of(alloc, seed, id, index)?))
}

fn digits_of(alloc: Global, seed: [u8; 32], id: Id, index: u8) -> Result<Text, AllocError>
    requires { index < 16 }
    ensures { IfOk result (λ digits. digits ≡ name_of seed id index) }
{
    let mut digits = Vec::with_capacity(alloc, 41)?;
    push_name(&mut digits, seed, id, index)?;
    Ok(Text::from_vec(digits))
}

/// Appends the name of an index that an event makes.
pub(crate) fn push_name(
    text: &mut Vec<u8>,
    seed: [u8; 32],
    id: Id,
    index: u8,
) -> Result<(), AllocError>
    requires { index < 16 }
    ensures { OnOk result (text.new.items ≡ text.old.items ++ name_of seed id index) }
{
    push_hex(text, 16, id.round)?;
    push_hex(text, 16, u64::from(id.place))?;
    push_hex(text, 1, u64::from(index))?;
    push_hex(text, 8, u64::from(word_of(seed, id, index)))?;
    Ok(())
}

// The word of a name. Each place has 16 words.
fn word_of(seed: [u8; 32], id: Id, index: u8) -> u32
    requires { index < 16 }
    ensures { result ≡ word_of_name seed id index }
{
    word_at(&seed, id.round, u64::from(id.place), index)
}

// Appends the last so many hexadecimal digits of a number.
fn push_hex(digits: &mut Vec<u8>, count: u8, number: u64) -> Result<(), AllocError>
    requires { count ≤ 16 }
    ensures { OnOk result (digits.new.items ≡ digits.old.items ++ hex count number) }
{
    let mut left = count;
    while left > 0 {
        left -= 1;
        digits.push(hex_digit(((number >> (4 * left)) % 16) as u8))?;
    }
    Ok(())
}
