//! Headers that a user gives for a command, by name and value.

ghost use Rattle.std.specs.Prelude.{◌≡◌, IfNone, IfOk, IfSome};
ghost use Rattle.sip_files.specs.Written.{header_text};
ghost use Rattle.sip_files.specs.declared.given_header.GivenHeader.{GivenHeader as AGivenHeader};
ghost use Rattle.sip_host.specs.Asking.{SaysHeader};

use sip_files::{GivenHeader, read_given};
use sip_text::is_token;
use std::alloc::{AllocError, Global};

/// The header with this name, the long or the compact one in any case, and this value, if the user
/// may give the header and the value has its form.
///
/// # Errors
///
/// Memory ran out.
pub(crate) fn header_of(
    alloc: Global,
    name: &[u8],
    value: &[u8],
) -> Result<Option<GivenHeader>, AllocError>
    ensures some { IfOk result (λ found. IfSome found (SaysHeader name.now value.now)) }
    ensures none { IfOk result (λ found. IfNone found
        ((header : AGivenHeader) → ¬ SaysHeader name.now value.now header)) }
{
    if !is_token(name) {
        return Ok(None);
    }
    let line = line_of(alloc, name, value)?;
    read_given(alloc, &line)
}

// A header line of a message.
fn line_of(alloc: Global, name: &[u8], value: &[u8]) -> Result<Vec<u8>, AllocError>
    ensures { IfOk result (λ line. line.items ≡ header_text name.now value.now) }
{
    let mut line = Vec::from_slice(alloc, name)?;
    line.extend_from_slice(b": ")?;
    line.extend_from_slice(value)?;
    Ok(line)
}
