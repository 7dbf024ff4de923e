//! Where a message begins (RFC 3261, section 7.5).
ghost use Rattle.std.specs.Prelude.{◌≡◌};
ghost use Rattle.sip_reader.specs.SkippedEnds as skipped;

/// The text without the line ends that it begins with.
pub(crate) fn without_line_ends(text: &[u8]) -> &[u8]
    ensures { result.now ≡ skipped.without_line_ends text.now }
{
    let mut rest = text;
    loop {
        rest = match rest {
            [b'\n', after @ ..] | [b'\r', b'\n', after @ ..] => after,
            _ => return rest,
        };
    }
}
