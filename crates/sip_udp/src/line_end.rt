//! The end of a line.

ghost use Rattle.std.specs.Prelude.{◌≡◌};
ghost use Rattle.sip_udp.specs.LineEnd.{without_last};

/// The text without this byte at its end.
pub(crate) fn without(byte: u8, text: &[u8]) -> &[u8]
    ensures { result.now ≡ without_last byte text.now }
{
    match text.split_last() {
        Some((last, front)) if *last == byte => front,
        _ => text,
    }
}
