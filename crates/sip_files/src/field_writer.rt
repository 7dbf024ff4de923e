//! Writes the fields of a line, each with the space before it.

ghost use Rattle.std.specs.Prelude.{◌≡◌, ◌++◌, OnOk, decimal};
ghost use Rattle.sip_files.specs.Field as field;

use crate::words::{push_rest, push_word};
use sip_message::{Addr, Id, ip_text};
use sip_text::decimal;
use std::alloc::AllocError;

/// A field that stands for itself.
#[tactic(auto, unfolding(crate::specs::Field::plain_field))]
pub(crate) fn push_plain(file: &mut Vec<u8>, text: &[u8]) -> Result<(), AllocError>
    ensures { OnOk result (file.new.items ≡ file.old.items ++ field.plain_field text.now) }
{
    file.push(b' ')?;
    file.extend_from_slice(text)
}

/// A field that is a number.
#[tactic(auto, unfolding(crate::specs::Field::number_field))]
pub(crate) fn push_number(file: &mut Vec<u8>, number: u64) -> Result<(), AllocError>
    ensures { OnOk result (file.new.items ≡ file.old.items ++ field.number_field number) }
{
    file.push(b' ')?;
    push_digits(file, number)
}

/// A field that is an id.
#[tactic(auto, unfolding(crate::specs::Field::id_field, crate::specs::Field::id_text))]
pub(crate) fn push_id(file: &mut Vec<u8>, id: Id) -> Result<(), AllocError>
    ensures { OnOk result (file.new.items ≡ file.old.items ++ field.id_field id) }
{
    file.push(b' ')?;
    push_digits(file, id.round)?;
    file.push(b'.')?;
    push_digits(file, u64::from(id.place))
}

/// A field that is a word.
#[tactic(auto, unfolding(crate::specs::Field::word_field))]
pub(crate) fn push_text(file: &mut Vec<u8>, text: &[u8]) -> Result<(), AllocError>
    ensures { OnOk result (file.new.items ≡ file.old.items ++ field.word_field text.now) }
{
    file.push(b' ')?;
    push_word(file, text)
}

/// A field that is a rest.
#[tactic(auto, unfolding(crate::specs::Field::rest_field))]
pub(crate) fn push_rest_field(file: &mut Vec<u8>, text: &[u8]) -> Result<(), AllocError>
    ensures { OnOk result (file.new.items ≡ file.old.items ++ field.rest_field text.now) }
{
    file.push(b' ')?;
    push_rest(file, text)
}

fn push_digits(file: &mut Vec<u8>, number: u64) -> Result<(), AllocError>
    ensures { OnOk result (file.new.items ≡ file.old.items ++ decimal number) }
{
    file.extend_from_slice(&decimal(number))
}

/// A field that is an address.
#[tactic(auto, unfolding(crate::specs::Field::address_field))]
pub(crate) fn push_address(file: &mut Vec<u8>, address: Addr) -> Result<(), AllocError>
    ensures { OnOk result (file.new.items ≡ file.old.items ++ field.address_field address) }
{
    file.push(b' ')?;
    file.extend_from_slice(&ip_text(address.ip))?;
    file.push(b':')?;
    push_digits(file, u64::from(address.port))
}
