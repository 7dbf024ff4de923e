//! Lines without their folds (RFC 3261, section 7.3.1), gathered up to the empty line.
ghost use Rattle.std.specs.Prelude.{◌≡◌, ◌≤◌, ◌∷◌, IfOk, length};
ghost use Rattle.std.specs.Option.{option_map};
ghost use Rattle.sip_text.specs.Trimmed as trims;
ghost use Rattle.sip_text.specs.Unfolded as folds;
ghost use Rattle.sip_headers.specs.Folding as folding;
ghost use Rattle.sip_headers.specs.Steps.Drafted as steps;
ghost use Rattle.sip_headers.specs.Whole.{whole_now};

use crate::header_fields::HeaderFields;
use crate::line_class::plain_line;
use sip_text::{begins_blank, next_line, trimmed_end, trimmed_start};
use std::alloc::{AllocError, Global};

/// A line without folds. Nothing is copied if it had none.
pub enum Whole<'a> {
    /// It is a part of the text as it is.
    Plain(&'a [u8]),
    /// It was put together.
    Folded(Vec<u8>),
}

impl Drop for Whole<'_> {
    fn drop(self) {
        match self {
            Whole::Plain(_) => {}
            Whole::Folded(_) => {}
        }
    }
}

impl Whole<'_> {
    /// Its bytes.
    pub fn as_slice(&self) -> &[u8]
        ensures { result.now ≡ whole_now self.now }
    {
        match self {
            Whole::Plain(line) => line,
            Whole::Folded(line) => line.as_slice(),
        }
    }

    /// The line and its continuation, with one space between them.
    fn joined(self, alloc: Global, more: &[u8]) -> Result<Vec<u8>, AllocError>
        ensures { IfOk result (λ whole. whole.items
            ≡ folds.joined (whole_now self.entry) more.now) }
    {
        let mut whole = match self {
            Whole::Plain(line) => Vec::from_slice(alloc, trimmed_end(line))?,
            Whole::Folded(line) => without_blank_end(line),
        };
        whole.push(b' ')?;
        whole.extend_from_slice(trimmed_start(more))?;
        Ok(whole)
    }
}

/// The line with those lines of the text that continue it, and the text after them.
pub fn whole_line<'a>(
    alloc: Global,
    line: &'a [u8],
    text: &'a [u8],
) -> Result<(Whole<'a>, &'a [u8]), AllocError>
    ensures whole { IfOk result
        (λ found. steps.onto_section line.now (folding.section_at text.now)
        ≡ steps.behind_line (whole_now found.0) (folding.whole_section (folding.section_at
        found.1.now))) }
    ensures lines { IfOk result (λ found. folding.folded_onto line.now (steps.lines_at text.now)
        ≡ whole_now found.0 ∷ folding.whole_lines (steps.lines_at found.1.now)) }
    ensures shorter { IfOk result (λ found. length found.1.now ≤ length text.now) }
{
    if !begins_blank(text) {
        return Ok((Whole::Plain(line), text));
    }
    let mut whole = Whole::Plain(line);
    let mut rest = text;
    while let Some((more, after)) = next_line(rest) {
        if !begins_blank(more) {
            break;
        }
        whole = Whole::Folded(whole.joined(alloc, more)?);
        rest = after;
    }
    Ok((whole, rest))
}

fn without_blank_end(mut line: Vec<u8>) -> Vec<u8>
    ensures { result.items ≡ trims.trimmed_end line.items }
{
    let kept = trimmed_end(line.as_slice()).len();
    line.truncate(kept);
    line
}

/// What the header lines say, on the heap, and the text after the empty line that ends them. None
/// without an empty line.
pub fn gather(alloc: Global, text: &[u8]) -> Result<Option<(Box<HeaderFields>, &[u8])>, AllocError>
    ensures { IfOk result (λ found. option_map (λ g. (g.0.value, g.1.now)) found
        ≡ steps.gathered_at text.now) }
{
    let mut draft = Box::new(alloc, HeaderFields::new(alloc))?;
    let Some(rest) = add_section(alloc, &mut draft, text)? else {
        return Ok(None);
    };
    Ok(Some((draft, rest)))
}

/// Adds the header lines, and returns the text after the empty line that ends them.
fn add_section<'a>(
    alloc: Global,
    draft: &mut HeaderFields,
    text: &'a [u8],
) -> Result<Option<&'a [u8]>, AllocError>
    ensures { IfOk result (λ found. option_map (λ after. (draft.new, after.now)) found
        ≡ steps.drafted_at draft.old text.now) }
{
    let mut rest = add_plain(alloc, draft, text)?;
    while let Some((line, after)) = next_line(rest) {
        if line.is_empty() {
            return Ok(Some(after));
        }
        let (whole, after) = whole_line(alloc, line, after)?;
        draft.add(alloc, whole.as_slice())?;
        rest = add_plain(alloc, draft, after)?;
    }
    Ok(None)
}

/// Adds the header lines without folds at the start of the text, and returns the text after them.
fn add_plain<'a>(
    alloc: Global,
    draft: &mut HeaderFields,
    text: &'a [u8],
) -> Result<&'a [u8], AllocError>
    ensures same { IfOk result (λ rest. steps.drafted_at draft.new rest.now
        ≡ steps.drafted_at draft.old text.now) }
    ensures shorter { IfOk result (λ rest. length rest.now ≤ length text.now) }
{
    let mut rest = text;
    while let Some((class, after)) = plain_line(rest) {
        draft.add_class(alloc, class)?;
        rest = after;
    }
    Ok(rest)
}
