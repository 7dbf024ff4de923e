//! The values of a list in a header (RFC 3261, section 7.3.1).
ghost use Rattle.std.specs.Prelude.{◌≡◌, ◌++◌, IfErr, IfOk, map};
ghost use Rattle.sip_text.specs.Pieces as pieces;
ghost use Rattle.sip_text.specs.Separator as separators;
ghost use Rattle.sip_text.specs.Trimmed as trims;
ghost use Rattle.sip_text.specs.declared.separator.Separator.TheVariants as separator;
ghost use Rattle.sip_text.specs.declared.separator.Place.TheVariants as place;

use crate::fault::TextFault;
use crate::open_quote::has_open_quote;
use crate::separator::Separator;
use crate::trim::trimmed;
use std::alloc::{AllocError, Global};

/// The values between the commas outside quoted strings and angle brackets, without the white space
/// around them.
///
/// # Errors
///
/// OpenQuote if a quoted string has no end; NoMemory.
pub fn split_values(alloc: Global, text: &[u8]) -> Result<Vec<&[u8]>, TextFault>
    ensures values { IfOk result (λ found. pieces.AreValues (pieces.all_now found.items) text.now) }
    ensures fault { IfErr result (λ fault. pieces.TellsList fault text.now) }
{
    if has_open_quote(text) {
        return Err(TextFault::OpenQuote);
    }
    Ok(values_in(alloc, text)?)
}

fn values_in(alloc: Global, text: &[u8]) -> Result<Vec<&[u8]>, AllocError>
    ensures { IfOk result (λ found. pieces.all_now found.items
        ≡ map trims.trimmed (separators.split_from (separator.Byte 44) place.Plain text.now)) }
{
    let mut values = Vec::new(alloc);
    let mut rest = text;
    while let Some((value, after)) = Separator::Byte(b',').cut(rest) {
        values.push(trimmed(value))?;
        rest = after;
    }
    values.push(trimmed(rest))?;
    Ok(values)
}
