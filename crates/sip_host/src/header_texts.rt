//! Header values and header lines as one text, for a host that takes all of them at once.

ghost use Rattle.std.specs.Prelude.{◌≡◌, ◌++◌, ◌∷◌, [], IfOk, OnOk};
ghost use Rattle.sip_host.specs.Handing as handing;

use sip_reader::HeaderLine;
use sip_text::Text;
use std::alloc::{AllocError, Global};

/// The values, each with a line end.
pub(crate) fn values_text(alloc: Global, values: &[Text]) -> Result<Vec<u8>, AllocError>
    ensures { IfOk result (λ text. text.items ≡ handing.values_text values.now) }
{
    let mut text = Vec::new(alloc);
    for value in values {
        text.extend_from_slice(value.as_slice())?;
        text.push(b'\n')?;
    }
    Ok(text)
}

/// The header lines, each with a line end.
pub(crate) fn lines_text(alloc: Global, lines: &[HeaderLine]) -> Result<Vec<u8>, AllocError>
    ensures { IfOk result (λ text. text.items ≡ handing.lines_text lines.now) }
{
    let mut text = Vec::new(alloc);
    for line in lines {
        push_line(&mut text, line)?;
    }
    Ok(text)
}

// The name, a colon and the value, with a line end.
fn push_line(text: &mut Vec<u8>, line: &HeaderLine) -> Result<(), AllocError>
    ensures { OnOk result (text.new.items ≡ text.old.items
        ++ (handing.named_value line.now ++ 10 ∷ [])) }
{
    text.extend_from_slice(line.name.as_slice())?;
    text.push(b':')?;
    text.extend_from_slice(line.value.as_slice())?;
    text.push(b'\n')?;
    Ok(())
}
