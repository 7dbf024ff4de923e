//! What the head of a text says, whether the text spells a message or not (RFC 3261, section 7).
ghost use Rattle.std.specs.Prelude.{◌≡◌, ◌<◌, IfOk, IfSome, length};
ghost use Rattle.std.specs.Option.{option_copied};
ghost use Rattle.sip_grammar.specs.HeaderEntry.{header_named};
ghost use Rattle.sip_headers.specs.HeaderLine.{line_from};
ghost use Rattle.sip_reader.specs.Head as head;
ghost use Rattle.sip_reader.specs.Steps.ReadHead as reading;

use crate::first_line::FirstLine;
use crate::leading_line_ends::without_line_ends;
use crate::start_reader::start_of;
use crate::untyped_line::HeaderLine;
use sip_grammar::{HeaderName, Token};
use sip_headers::{LineClass, Whole, class_of, long_name, whole_line};
use sip_text::{Series, Text, next_line, token_eq};
use std::alloc::{AllocError, Global};

/// What the start line of the text says, also if the text spells no message. It is the first
/// non-empty line, with the lines that continue it. None if that is neither a request line nor a
/// status line, or no line has a line end (RFC 3261, sections 7.1 and 7.2).
///
/// # Errors
///
/// Memory ran out.
pub fn start_line(alloc: Global, text: &[u8]) -> Result<Option<FirstLine<Token>>, AllocError>
    ensures { IfOk result (λ first. head.BeginsWith first text.now) }
{
    let Some((line, _)) = first_line_of(alloc, text)? else {
        return Ok(None);
    };
    let Some(first) = start_of(alloc, line.as_slice())? else {
        return Ok(None);
    };
    Ok(Some(first.into_owned(alloc)?))
}

/// The values of a header in the text, also if it spells no message: those of each header line of
/// this name, the long or the compact one, in any case of the letters, in order. A value has no
/// folds and no white space around it, and a list stays one text (RFC 3261, sections 7.3.1 and
/// 7.3.3). The header lines are those after the first line up to an empty one, or up to the last
/// that has a line end. A line that is no header line is skipped.
///
/// # Errors
///
/// Memory ran out.
pub fn header_values(alloc: Global, text: &[u8], name: &[u8]) -> Result<Series<Text>, AllocError>
    ensures { IfOk result (λ values. head.HasValues name.now values text.now) }
{
    let Some((_, lines)) = first_line_of(alloc, text)? else {
        return Ok(Series::new(alloc));
    };
    values_in(alloc, lines, name)
}

/// The header lines of the text, also if it spells no message: those after the first line up to an
/// empty one, or up to the last that has a line end, in order. A line that is no header line is
/// skipped. A name is kept as it is written; a value has no folds and no white space around it (RFC
/// 3261, sections 7.3.1 and 7.3.3).
///
/// # Errors
///
/// Memory ran out.
pub fn header_lines(alloc: Global, text: &[u8]) -> Result<Series<HeaderLine>, AllocError>
    ensures { IfOk result (λ headers. head.HasHeaderLines headers text.now) }
{
    let Some((_, lines)) = first_line_of(alloc, text)? else {
        return Ok(Series::new(alloc));
    };
    header_lines_in(alloc, lines)
}

/// The first non-empty line, with those that continue it, and the text after it. None if there is
/// none.
fn first_line_of(alloc: Global, text: &[u8]) -> Result<Option<(Whole<'_>, &[u8])>, AllocError>
    ensures { IfOk result (λ found. reading.lines_found found ≡ reading.head_at text.now) }
{
    next_whole(alloc, without_line_ends(text))
}

/// The first line of the text, with those that continue it, and the text after it. None if it is
/// empty, or no line has a line end.
fn next_whole(alloc: Global, text: &[u8]) -> Result<Option<(Whole<'_>, &[u8])>, AllocError>
    ensures lines { IfOk result (λ found.
        reading.lines_found found ≡ reading.whole_lines_at text.now) }
    ensures shorter { IfOk result (λ found.
        IfSome found (λ next. length next.1.now < length text.now)) }
{
    let Some((line, after)) = next_line(text) else {
        return Ok(None);
    };
    if line.is_empty() {
        return Ok(None);
    }
    Ok(Some(whole_line(alloc, line, after)?))
}

/// The values of a header in the header lines that the text begins with.
fn values_in(alloc: Global, text: &[u8], name: &[u8]) -> Result<Series<Text>, AllocError>
    ensures { IfOk result (λ values. values
        ≡ reading.values_at name.now (reading.whole_lines_at text.now)) }
{
    let header = HeaderName::of(name);
    let mut values = Series::new(alloc);
    let mut rest = text;
    while let Some((line, after)) = next_whole(alloc, rest)? {
        if let Some(value) = value_in(name, header, line.as_slice()) {
            values.push(Text::copy_of(alloc, value)?)?;
        }
        rest = after;
    }
    Ok(values)
}

/// The header lines that the text begins with.
fn header_lines_in(alloc: Global, text: &[u8]) -> Result<Series<HeaderLine>, AllocError>
    ensures { IfOk result (λ headers. headers
        ≡ reading.header_lines_at (reading.whole_lines_at text.now)) }
{
    let mut headers = Series::new(alloc);
    let mut rest = text;
    while let Some((line, after)) = next_whole(alloc, rest)? {
        if let Some(header) = HeaderLine::read(alloc, line.as_slice())? {
            headers.push(header)?;
        }
        rest = after;
    }
    Ok(headers)
}

/// The line's value, if it is a header line of this name. `header` is the header of the table with
/// this name.
fn value_in<'a>(name: &[u8], header: Option<HeaderName>, line: &'a [u8]) -> Option<&'a [u8]>
    requires { header ≡ header_named name.now }
    ensures { option_copied result ≡ head.value_under name.now (line_from line.now) }
{
    match class_of(line) {
        LineClass::Bad => None,
        LineClass::Known(other, value) => {
            if is_known(header, other) {
                Some(value)
            } else {
                None
            }
        }
        LineClass::Other(other, value) => {
            if header.is_none() && token_eq(long_name(other), long_name(name)) {
                Some(value)
            } else {
                None
            }
        }
    }
}

/// Whether the header of the table is the one that is looked for.
fn is_known(wanted: Option<HeaderName>, header: HeaderName) -> bool
    ensures { result ≡ reading.is_known wanted header }
{
    match wanted {
        None => false,
        Some(wanted) => wanted == header,
    }
}
