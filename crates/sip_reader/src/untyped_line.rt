//! A header line that was read (RFC 3261, sections 7.3.1 and 7.3.3).
ghost use Rattle.std.specs.Prelude.{◌≡◌, IfOk, IfSome, IsTrue};
ghost use Rattle.std.specs.Option.{option_map};
ghost use Rattle.sip_text.specs.Cut.{both_now};
ghost use Rattle.sip_text.specs.Token.{is_token};
ghost use Rattle.sip_headers.specs.HeaderLine.{line_from};
ghost use Rattle.sip_reader.specs.Head.{header_line};

use sip_grammar::{Token, has_no_line_byte};
use sip_text::{Separator, Text, is_token, trimmed, trimmed_end};
use std::alloc::{AllocError, Global};

/// A header line: its name as it is written, and its value without folds and without white space
/// around it.
#[derive(Clone, Drop)]
pub struct HeaderLine {
    pub name: Token,
    pub value: Text,
}

impl HeaderLine {
    /// A line without folds as a header line. None if it isn't one.
    pub(crate) fn read(alloc: Global, line: &[u8]) -> Result<Option<HeaderLine>, AllocError>
        ensures { IfOk result (λ found. found ≡ option_map header_line (line_from line.now)) }
    {
        let Some((name, value)) = parts_of(line) else {
            return Ok(None);
        };
        Ok(Some(HeaderLine {
            name: Token::copy_of(alloc, name)?,
            value: Text::copy_of(alloc, value)?,
        }))
    }
}

/// A name, and a value without white space around it.
fn parts_of(line: &[u8]) -> Option<(&[u8], &[u8])>
    ensures parts { both_now result ≡ line_from line.now }
    ensures name { IfSome result (λ parts. IsTrue (is_token parts.0.now)) }
{
    let (name, value) = Separator::Byte(b':').cut(line)?;
    let name = trimmed_end(name);
    if !is_token(name) || !has_no_line_byte(value) {
        return None;
    }
    Some((name, trimmed(value)))
}
