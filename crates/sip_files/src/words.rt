//! Words and rests: how a file spells a text of any bytes.
//!
//! In both, a byte from `!` to `~` other than `\` stands for itself, and every other byte is
//! escaped: `\s` is a space; the others are `\r`, `\n`, `\t`, `\\`, and `\xhh` in lower case for
//! all that are left. In a rest, which is always the last field of its line, a space stands for
//! itself. The empty text is the word `-` and the empty rest. The text of one hyphen is the word
//! `\x2d`. Each text has one spelling in each form, and the readers accept no other.

ghost use Rattle.std.specs.Prelude.{◌≡◌, ◌<◌, ◌++◌, length, IfOk, IfSome, OnOk};
ghost use Rattle.sip_files.specs.Word as word;
ghost use Rattle.sip_files.specs.Steps.Form.{itself_in};
ghost use Rattle.sip_files.specs.Steps.Reading as reading;

use sip_text::{Text, hex_digit};
use std::alloc::{AllocError, Global};

/// How a field spells a text.
#[derive(Clone, Copy, PartialEq, Eq)]
enum Form {
    Word,
    Rest,
}

/// Appends the word of a text.
#[tactic(auto, unfolding(crate::specs::Word::spelled_word))]
pub(crate) fn push_word(line: &mut Vec<u8>, text: &[u8]) -> Result<(), AllocError>
    ensures { OnOk result (line.new.items ≡ line.old.items ++ word.spelled_word text.now) }
{
    if text.is_empty() {
        return line.extend_from_slice(b"-");
    }
    if text == b"-".as_slice() {
        return line.extend_from_slice(b"\\x2d");
    }
    push_escaped(line, text, Form::Word)
}

/// Appends the rest of a text.
#[tactic(auto, unfolding(crate::specs::Word::spelled_rest))]
pub(crate) fn push_rest(line: &mut Vec<u8>, text: &[u8]) -> Result<(), AllocError>
    ensures { OnOk result (line.new.items ≡ line.old.items ++ word.spelled_rest text.now) }
{
    push_escaped(line, text, Form::Rest)
}

fn push_escaped(line: &mut Vec<u8>, text: &[u8], form: Form) -> Result<(), AllocError>
    ensures { OnOk result (line.new.items ≡ line.old.items
        ++ word.spelled_bytes (itself_in form) text.now) }
{
    for byte in text {
        push_byte(line, *byte, form)?;
    }
    Ok(())
}

#[tactic(auto, unfolding(crate::specs::Word::spelled_byte))]
fn push_byte(line: &mut Vec<u8>, byte: u8, form: Form) -> Result<(), AllocError>
    ensures { OnOk result (line.new.items ≡ line.old.items
        ++ word.spelled_byte (itself_in form) byte) }
{
    if is_itself(byte, form) {
        line.push(byte)?;
        return Ok(());
    }
    push_escape(line, byte)
}

fn push_escape(line: &mut Vec<u8>, byte: u8) -> Result<(), AllocError>
    ensures { OnOk result (line.new.items ≡ line.old.items
        ++ word.escape_with byte (word.letter_of byte)) }
{
    match letter_of(byte) {
        Some(letter) => line.extend_from_slice(&[b'\\', letter]),
        None => line.extend_from_slice(&[b'\\', b'x', hex_digit(byte / 16), hex_digit(byte % 16)]),
    }
}

// Whether a byte stands for itself.
fn is_itself(byte: u8, form: Form) -> bool
    ensures { result ≡ itself_in form byte }
{
    match form {
        Form::Word => is_plain(byte),
        Form::Rest => is_plain(byte) || byte == b' ',
    }
}

// A byte from `!` to `~` other than the backslash.
fn is_plain(byte: u8) -> bool
    ensures { result ≡ word.is_plain byte }
{
    b'!' <= byte && byte <= b'~' && byte != b'\\'
}

// The letter of a byte's escape, if it has one.
fn letter_of(byte: u8) -> Option<u8>
    ensures { result ≡ word.letter_of byte }
{
    match byte {
        b' ' => Some(b's'),
        b'\r' => Some(b'r'),
        b'\n' => Some(b'n'),
        b'\t' => Some(b't'),
        b'\\' => Some(b'\\'),
        _ => None,
    }
}

/// Appends the two hexadecimal digits of a byte, in lower case.
pub(crate) fn push_hex(line: &mut Vec<u8>, byte: u8) -> Result<(), AllocError>
    ensures { OnOk result (line.new.items ≡ line.old.items ++ word.hex_pair byte) }
{
    line.extend_from_slice(&[hex_digit(byte / 16), hex_digit(byte % 16)])
}

// The byte that an escape's letter stands for.
fn byte_of_letter(letter: u8) -> Option<u8>
    ensures { result ≡ reading.byte_of_letter letter }
{
    match letter {
        b's' => Some(b' '),
        b'r' => Some(b'\r'),
        b'n' => Some(b'\n'),
        b't' => Some(b'\t'),
        b'\\' => Some(b'\\'),
        _ => None,
    }
}

/// The value of a lower-case hexadecimal digit.
fn hex_value(digit: u8) -> Option<u8>
    ensures value { result ≡ reading.hex_value digit }
    ensures small { IfSome result (λ value. value < 16) }
{
    match digit {
        b'0'..=b'9' => Some(digit - b'0'),
        b'a'..=b'f' => Some(digit - b'a' + 10),
        _ => None,
    }
}

/// The byte of two hexadecimal digits.
#[tactic(auto, unfolding(crate::specs::Steps::Reading::hex_byte))]
pub(crate) fn hex_byte(high: u8, low: u8) -> Option<u8>
    ensures { result ≡ reading.hex_byte high low }
{
    let high = hex_value(high)?;
    let low = hex_value(low)?;
    Some(high * 16 + low)
}

/// The text that a word spells.
#[tactic(auto, unfolding(crate::specs::Steps::Reading::word_at))]
pub(crate) fn read_word(alloc: Global, field: &[u8]) -> Result<Option<Text>, AllocError>
    ensures { IfOk result (λ text. text ≡ reading.word_at field.now) }
{
    if field.is_empty() {
        return Ok(None);
    }
    if field == b"-".as_slice() {
        return Ok(Some(Text::from_vec(Vec::new(alloc))));
    }
    if field == b"\\x2d".as_slice() {
        return Ok(Some(Text::copy_of(alloc, b"-")?));
    }
    read_escaped(alloc, field, Form::Word)
}

/// The text that a rest spells.
#[tactic(auto, unfolding(crate::specs::Steps::Reading::rest_at))]
pub(crate) fn read_rest(alloc: Global, field: &[u8]) -> Result<Option<Text>, AllocError>
    ensures { IfOk result (λ text. text ≡ reading.rest_at field.now) }
{
    read_escaped(alloc, field, Form::Rest)
}

fn read_escaped(alloc: Global, field: &[u8], form: Form) -> Result<Option<Text>, AllocError>
    ensures { IfOk result (λ text. text ≡ reading.bytes_at (itself_in form) field.now) }
{
    let mut bytes = Vec::with_capacity(alloc, field.len())?;
    let mut left = field;
    while !left.is_empty() {
        let Some((byte, after)) = read_byte(left, form) else {
            return Ok(None);
        };
        bytes.push(byte)?;
        left = after;
    }
    Ok(Some(Text::from_vec(bytes)))
}

// The first byte that a text in this form spells, and what follows that byte.
#[tactic(auto, unfolding(crate::specs::Steps::Reading::byte_at))]
fn read_byte(text: &[u8], form: Form) -> Option<(u8, &[u8])>
    ensures read { reading.read_now result ≡ reading.byte_at (itself_in form) text.now }
    ensures shorter { IfSome result (λ read. length read.1.now < length text.now) }
{
    match text {
        [] => None,
        [b'\\', after @ ..] => read_escape(after, form),
        [byte, after @ ..] => {
            if is_itself(*byte, form) {
                Some((*byte, after))
            } else {
                None
            }
        }
    }
}

// The byte that the text after a backslash spells.
#[tactic(auto, unfolding(crate::specs::Steps::Reading::escape_at))]
fn read_escape(text: &[u8], form: Form) -> Option<(u8, &[u8])>
    ensures read { reading.read_now result ≡ reading.escape_at (itself_in form) text.now }
    ensures shorter { IfSome result (λ read. length read.1.now < length text.now) }
{
    match text {
        [] => None,
        [b'x', after @ ..] => read_hex(after, form),
        [letter, after @ ..] => read_letter(*letter, after, form),
    }
}

// The byte of two hexadecimal digits, if it has no shorter spelling.
#[tactic(auto, unfolding(crate::specs::Steps::Reading::hex_at))]
fn read_hex(text: &[u8], form: Form) -> Option<(u8, &[u8])>
    ensures read { reading.read_now result ≡ reading.hex_at (itself_in form) text.now }
    ensures shorter { IfSome result (λ read. length read.1.now < length text.now) }
{
    match text {
        [] | [_] => None,
        [high, low, after @ ..] => {
            let byte = hex_byte(*high, *low)?;
            if is_itself(byte, form) || letter_of(byte).is_some() {
                return None;
            }
            Some((byte, after))
        }
    }
}

// The byte of an escape's letter, if it doesn't stand for itself.
#[tactic(auto, unfolding(crate::specs::Steps::Reading::letter_at))]
fn read_letter(letter: u8, after: &[u8], form: Form) -> Option<(u8, &[u8])>
    ensures read { reading.read_now result ≡ reading.letter_at (itself_in form) letter after.now }
    ensures same { IfSome result (λ read. read.1.now ≡ after.now) }
{
    let byte = byte_of_letter(letter)?;
    if is_itself(byte, form) {
        return None;
    }
    Some((byte, after))
}
