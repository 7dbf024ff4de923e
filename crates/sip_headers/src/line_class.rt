//! Header lines (RFC 3261, sections 7.3.1 and 7.3.3).
ghost use Rattle.std.specs.Prelude.{◌≡◌, IfSome};
ghost use Rattle.std.specs.Option.{option_copied};
ghost use Rattle.sip_headers.specs.HeaderLine as header_lines;
ghost use Rattle.sip_headers.specs.Steps.PlainLine as plain;
ghost use Rattle.sip_grammar.specs.HeaderEntry.{header_named};
ghost use Rattle.sip_text.specs.Cut.{both_now};

use sip_grammar::{HeaderName, has_no_line_byte};
use sip_text::{
    Separator, TokenBytes, begins_blank, find_either, is_token, run_before, trimmed, trimmed_end,
};

/// What a header line is.
#[derive(Clone, Copy)]
pub enum LineClass<'a> {
    /// No header line.
    Bad,
    /// A value of a header that is parsed into a field of its own.
    Known(HeaderName, &'a [u8]),
    /// A header that is kept as it is: its name and its value.
    Other(&'a [u8], &'a [u8]),
}

/// What the line is.
pub fn class_of(line: &[u8]) -> LineClass<'_>
    ensures { header_lines.class_now result ≡ header_lines.class_from line.now }
{
    match parts_of(line) {
        None => LineClass::Bad,
        Some((name, value)) => class_named(name, value),
    }
}

fn class_named<'a>(name: &'a [u8], value: &'a [u8]) -> LineClass<'a>
    ensures { header_lines.class_now result
        ≡ header_lines.class_by_name name.now value.now (header_named name.now) }
{
    match HeaderName::of(name) {
        None => LineClass::Other(name, value),
        Some(header) => LineClass::Known(header, value),
    }
}

/// What the first line of the text is, and what follows it, if it is a header line without folds.
/// None if it isn't, or needs a closer look.
pub(crate) fn plain_line(text: &[u8]) -> Option<(LineClass<'_>, &[u8])>
    ensures { IfSome result (λ found.
        plain.IsPlainLine text.now (header_lines.class_now found.0) found.1.now) }
{
    let (name, rest) = run_before::<TokenBytes>(b':', text)?;
    let (value, after) = before_line_end(rest)?;
    if begins_blank(after) {
        return None;
    }
    Some((class_named(name, trimmed(value)), after))
}

/// What comes before the first CR or LF, and the text after the line end, if it is one.
fn before_line_end(text: &[u8]) -> Option<(&[u8], &[u8])>
    ensures { IfSome result (λ parts. plain.IsPlainEnd text.now parts.0.now parts.1.now) }
{
    let place = find_either(b'\r', b'\n', text)?;
    let (line, rest) = text.split_at(place);
    let after = behind_line_end(rest)?;
    Some((line, after))
}

/// What follows CR LF or LF, with which the text begins.
fn behind_line_end(text: &[u8]) -> Option<&[u8]>
    ensures { option_copied result ≡ plain.behind_line_end text.now }
{
    match text {
        [b'\r', after @ ..] => behind_feed(after),
        _ => behind_feed(text),
    }
}

fn behind_feed(text: &[u8]) -> Option<&[u8]>
    ensures { option_copied result ≡ plain.behind_feed text.now }
{
    match text {
        [b'\n', after @ ..] => Some(after),
        _ => None,
    }
}

/// A name, white space, a colon, and a value without the white space around it.
fn parts_of(line: &[u8]) -> Option<(&[u8], &[u8])>
    ensures { both_now result ≡ header_lines.line_from line.now }
{
    let (name, value) = name_in(line)?;
    if !has_no_line_byte(value) {
        return None;
    }
    Some((name, trimmed(value)))
}

/// A name, and what follows its colon.
fn name_in(line: &[u8]) -> Option<(&[u8], &[u8])>
    ensures { both_now result ≡ header_lines.name_before_colon line.now }
{
    match run_before::<TokenBytes>(b':', line) {
        Some((name, value)) => Some((name, value)),
        None => cut_at_colon(line),
    }
}

/// The same, with white space allowed before the colon.
fn cut_at_colon(line: &[u8]) -> Option<(&[u8], &[u8])>
    ensures { both_now result ≡ header_lines.name_before_colon line.now }
{
    let (name, value) = Separator::Byte(b':').cut(line)?;
    let name = trimmed_end(name);
    if is_token(name) {
        Some((name, value))
    } else {
        None
    }
}
