//! Folded lines, and the lines of a text (RFC 3261, sections 7 and 7.3.1).
ghost use Rattle.std.specs.Prelude.{◌≡◌, IfErr, IfOk};
ghost use Rattle.std.specs.Str.Lines.{strip_carriage_return};
ghost use Rattle.sip_text.specs.Lines as line_parts;
ghost use Rattle.sip_text.specs.Pieces as pieces;
ghost use Rattle.sip_text.specs.Trimmed as trims;
ghost use Rattle.sip_text.specs.Unfolded as folds;

use crate::character::is_blank;
use crate::fault::TextFault;
use crate::line::{next_line, without_carriage_return};
use crate::pieces::cut;
use crate::trim::{trimmed_end, trimmed_start};
use std::alloc::{AllocError, Global};

/// The text with each fold as one space. A fold is a line break before a space or tab, with the
/// white space around it.
///
/// # Errors
///
/// NoMemory.
pub fn unfold(alloc: Global, text: &[u8]) -> Result<Vec<u8>, TextFault>
    ensures unfolded { IfOk result (λ whole. whole.items ≡ folds.unfolded text.now) }
    ensures fault { IfErr result pieces.TellsMemory }
{
    Ok(unfolded(alloc, text)?)
}

/// The lines that have an end, CR LF or LF, without it.
///
/// # Errors
///
/// NoMemory.
pub fn lines(alloc: Global, text: &[u8]) -> Result<Vec<&[u8]>, TextFault>
    ensures lines { IfOk result (λ found.
        line_parts.AreLines (pieces.all_now found.items) text.now) }
    ensures fault { IfErr result pieces.TellsMemory }
{
    let mut found = Vec::new(alloc);
    let mut rest = text;
    while let Some((line, after)) = next_line(rest) {
        found.push(line)?;
        rest = after;
    }
    Ok(found)
}

fn unfolded(alloc: Global, text: &[u8]) -> Result<Vec<u8>, AllocError>
    ensures { IfOk result (λ whole. whole.items ≡ folds.unfolded text.now) }
{
    let mut whole = Vec::new(alloc);
    let mut rest = text;
    while let Some((line, after)) = cut(b'\n', rest) {
        whole.extend_from_slice(line)?;
        if begins_blank(after) {
            trim_break(&mut whole);
            whole.push(b' ')?;
            rest = trimmed_start(after);
        } else {
            whole.push(b'\n')?;
            rest = after;
        }
    }
    whole.extend_from_slice(rest)?;
    Ok(whole)
}

/// Takes a carriage return off the end, and the white space before it.
fn trim_break(line: &mut Vec<u8>)
    ensures { line.new.items ≡ trims.trimmed_end (strip_carriage_return line.old.items) }
{
    let kept = trimmed_end(without_carriage_return(line.as_slice())).len();
    line.truncate(kept);
}

/// Whether the text begins with a space or a tab.
pub fn begins_blank(text: &[u8]) -> bool
    ensures { result ≡ folds.begins_blank text.now }
{
    match text {
        [] => false,
        [first, ..] => is_blank(*first),
    }
}
