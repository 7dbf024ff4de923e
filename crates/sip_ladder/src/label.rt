//! The text beside an arrow, or of a line without an arrow.

ghost use Rattle.std.specs.Prelude.{◌≡◌, ◌++◌, take, IfOk, IsTrue, OnOk};
ghost use Rattle.std.specs.List.{list_all};
ghost use Rattle.sip_reader.specs.ReadMessage.{Gives, message_at};
ghost use Rattle.sip_ladder.specs.Label as spec;

use sip_message::{Message, ReadFault, StartLine};
use sip_reader::read;
use sip_text::{Text, cut, decimal};
use std::alloc::{AllocError, Global};

/// How long a word may be to be shown whole, and how many characters of the end of a longer one
/// are.
const WHOLE: usize = 21;

const END: usize = 9;

/// How many characters are shown of a datagram that isn't a message.
const MOST_UNREAD: usize = 40;

/// The bytes with which each branch of RFC 3261 begins (section 8.1.1.7).
const COOKIE: &[u8] = b"z9hG4bK";

/// The label of a datagram: its method or status and its CSeq, `again` if it is a repeat, and what
/// tells it apart from others.
pub(crate) fn of_datagram(alloc: Global, bytes: &[u8], is_again: bool) -> Result<Text, AllocError>
    ensures printable { IfOk result (λ label. IsTrue (list_all spec.is_printable label)) }
    ensures label { IfOk result (λ label. label ≡ spec.datagram_label bytes.now is_again) }
{
    match read_datagram(alloc, bytes) {
        Ok(message) => of_message(alloc, &message, is_again),
        Err(ReadFault::NoMemory) => Err(AllocError),
        Err(_) => unread(alloc, bytes, is_again),
    }
}

fn read_datagram(alloc: Global, bytes: &[u8]) -> Result<Message, ReadFault>
    ensures { Gives result (message_at bytes.now) }
{
    read(alloc, bytes)
}

/// The fields of a line. Long fields are cut.
pub(crate) fn of_fields(alloc: Global, line: &[u8]) -> Result<Text, AllocError>
    ensures printable { IfOk result (λ label. IsTrue (list_all spec.is_printable label)) }
    ensures label { IfOk result (λ label. label ≡ spec.fields_label line.now) }
{
    let mut label = Vec::new(alloc);
    let mut rest = line;
    while let Some((field, after)) = cut(b' ', rest) {
        push_word(&mut label, field)?;
        label.push(b' ')?;
        rest = after;
    }
    push_word(&mut label, rest)?;
    Ok(Text::from_vec(label))
}

#[tactic(auto, using(crate::proofs::Printable::message_is))]
fn of_message(alloc: Global, message: &Message, is_again: bool) -> Result<Text, AllocError>
    ensures printable { IfOk result (λ label. IsTrue (list_all spec.is_printable label)) }
    ensures label { IfOk result (λ label. label ≡ spec.message_label message.now is_again) }
{
    let mut label = Vec::new(alloc);
    push_summary(&mut label, message, is_again)?;
    push_details(&mut label, message)?;
    Ok(Text::from_vec(label))
}

#[tactic(auto, unfolding(crate::specs::Label::summary))]
fn push_summary(label: &mut Vec<u8>, message: &Message, is_again: bool) -> Result<(), AllocError>
    ensures { OnOk result (label.new.items ≡ label.old.items
        ++ spec.summary message.now is_again) }
{
    push_status(label, &message.start)?;
    push_word(label, message.method().as_slice())?;
    push_named(label, b"", &decimal(u64::from(message.cseq.number)))?;
    push_again(label, is_again)
}

fn push_status(label: &mut Vec<u8>, start: &StartLine) -> Result<(), AllocError>
    ensures { OnOk result (label.new.items ≡ label.old.items ++ spec.status_text start.now) }
{
    match start {
        StartLine::Request { .. } => Ok(()),
        StartLine::Response { status, .. } => {
            push_word(label, &decimal(u64::from(status.code())))?;
            label.push(b' ')?;
            Ok(())
        }
    }
}

fn push_again(label: &mut Vec<u8>, is_again: bool) -> Result<(), AllocError>
    ensures { OnOk result (label.new.items ≡ label.old.items ++ spec.again_text is_again) }
{
    if is_again {
        label.extend_from_slice(b" again")?;
    }
    Ok(())
}

#[tactic(auto, unfolding(crate::specs::Label::details))]
fn push_details(label: &mut Vec<u8>, message: &Message) -> Result<(), AllocError>
    ensures { OnOk result (label.new.items ≡ label.old.items ++ spec.details message.now) }
{
    push_number(label, b"rseq=", message.rseq)?;
    push_number(label, b"rack=", message.rack.as_ref().map(|rack| rack.rseq))?;
    push_tag(label, message)?;
    push_named(
        label,
        b"branch=",
        without_cookie(message.vias.top().branch()),
    )?;
    push_named(label, b"call=", message.call_id.as_slice())
}

#[tactic(auto, unfolding(crate::specs::Label::tag_text))]
fn push_tag(label: &mut Vec<u8>, message: &Message) -> Result<(), AllocError>
    ensures { OnOk result (label.new.items ≡ label.old.items ++ spec.tag_text message.now) }
{
    let to = message.to.tag();
    if !to.is_empty() {
        return push_named(label, b"to=", to);
    }
    if message.is_request() {
        return push_named(label, b"from=", message.from.tag());
    }
    Ok(())
}

#[tactic(auto, unfolding(crate::specs::Label::without_cookie))]
fn without_cookie(branch: &[u8]) -> &[u8]
    ensures { result.now ≡ spec.without_cookie branch.now }
{
    match branch.strip_prefix(COOKIE) {
        Some(mark) => mark,
        None => branch,
    }
}

// The beginning of the first line of a datagram that isn't a message.
#[tactic(auto, using(crate::proofs::Printable::unread_is), unfolding(crate::specs::Label::unread_label))]
fn unread(alloc: Global, bytes: &[u8], is_again: bool) -> Result<Text, AllocError>
    ensures printable { IfOk result (λ label. IsTrue (list_all spec.is_printable label)) }
    ensures label { IfOk result (λ label. label ≡ spec.unread_label bytes.now is_again) }
{
    let mut label = Vec::new(alloc);
    label.push(b'?')?;
    push_again(&mut label, is_again)?;
    label.push(b' ')?;
    push_shown(&mut label, front(first_line(bytes)))?;
    Ok(Text::from_vec(label))
}

fn first_line(bytes: &[u8]) -> &[u8]
    ensures { result.now ≡ spec.first_line bytes.now }
{
    match cut(b'\r', bytes) {
        Some((line, _)) => line,
        None => bytes,
    }
}

#[tactic(auto, using(std::proofs::lemmas::List::take_min))]
fn front(line: &[u8]) -> &[u8]
    ensures { result.now ≡ take 40 line.now }
{
    &line[..MOST_UNREAD.min(line.len())]
}

// A number with its name, if there is one.
fn push_number(label: &mut Vec<u8>, name: &[u8], number: Option<u32>) -> Result<(), AllocError>
    ensures { OnOk result (label.new.items ≡ label.old.items
        ++ spec.number_named name.now number) }
{
    match number {
        Some(number) => push_named(label, name, &decimal(u64::from(number))),
        None => Ok(()),
    }
}

#[tactic(auto, unfolding(crate::specs::Label::named))]
fn push_named(label: &mut Vec<u8>, name: &[u8], word: &[u8]) -> Result<(), AllocError>
    ensures { OnOk result (label.new.items ≡ label.old.items ++ spec.named name.now word.now) }
{
    label.push(b' ')?;
    label.extend_from_slice(name)?;
    push_word(label, word)
}

// A word, or the end of a long one.
#[tactic(auto, unfolding(crate::specs::Label::word))]
fn push_word(label: &mut Vec<u8>, word: &[u8]) -> Result<(), AllocError>
    ensures { OnOk result (label.new.items ≡ label.old.items ++ spec.word word.now) }
{
    if word.len() <= WHOLE {
        return push_shown(label, word);
    }
    label.extend_from_slice(b"..")?;
    push_shown(label, &word[word.len() - END..])
}

fn push_shown(label: &mut Vec<u8>, bytes: &[u8]) -> Result<(), AllocError>
    ensures { OnOk result (label.new.items ≡ label.old.items ++ spec.as_visible bytes.now) }
{
    for byte in bytes {
        label.push(as_visible(*byte))?;
    }
    Ok(())
}

// A printable character of ASCII, or `?` for each other byte.
fn as_visible(byte: u8) -> u8
    ensures { result ≡ spec.as_visible_byte byte }
{
    match byte {
        b' '..=b'~' => byte,
        _ => b'?',
    }
}
