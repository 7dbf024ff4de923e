//! How the value of a header is read.
ghost use Rattle.std.specs.Prelude.{◌≡◌, IfOk};
ghost use Rattle.sip_text.specs.Forms.{passing, reading_of, split};
ghost use Rattle.sip_text.specs.Token.{is_token};
ghost use Rattle.sip_text.specs.Trimmed as ends;

use sip_grammar::{Checked, Rule, Token};
use sip_text::{Separator, Series, is_token, trimmed};
use std::alloc::{AllocError, Global};

/// A form of text, and the value that a text in this form has.
pub trait Row {
    ghost use Rattle.std.specs.Prelude.{ℕ, List, Option};

    /// The type of the values of this form.
    type Value: Drop;

    ghost reads: { List ℕ → Option Self.Value };

    /// The value, or None if the text isn't in this form.
    fn read(alloc: Global, text: &[u8]) -> Result<Option<Self::Value>, AllocError>
        ensures { IfOk result (λ made. made ≡ reads text.now) };
}

/// The text without the white space at its ends, or None if it then doesn't satisfy the rule.
pub(crate) fn checked_in<R: Rule>(
    alloc: Global,
    text: &[u8],
) -> Result<Option<Checked<R>>, AllocError>
    ensures { IfOk result (λ made. made ≡ reading_of (passing R.holds) ends.trimmed text.now) }
{
    let inside = trimmed(text);
    if !R::test(inside) {
        return Ok(None);
    }
    Ok(Some(Checked::copy_of(alloc, inside)?))
}

/// The token without the white space at its ends, or None if what is left is no token.
pub(crate) fn token_in(alloc: Global, text: &[u8]) -> Result<Option<Token>, AllocError>
    ensures { IfOk result (λ made. made ≡ reading_of (passing is_token) ends.trimmed text.now) }
{
    let inside = trimmed(text);
    if !is_token(inside) {
        return Ok(None);
    }
    Ok(Some(Token::copy_of(alloc, inside)?))
}

/// The values of the pieces between separators, or None if a piece isn't in the form.
pub fn split_of<R: Row>(
    alloc: Global,
    separator: Separator,
    text: &[u8],
) -> Result<Option<Series<R::Value>>, AllocError>
    ensures { IfOk result (λ made. made ≡ split separator R.reads text.now) }
{
    let mut values = Series::new(alloc);
    let mut rest = text;
    while let Some((piece, after)) = separator.cut(rest) {
        let Some(value) = R::read(alloc, piece)? else {
            return Ok(None);
        };
        values.push(value)?;
        rest = after;
    }
    let Some(last) = R::read(alloc, rest)? else {
        return Ok(None);
    };
    values.push(last)?;
    Ok(Some(values))
}
