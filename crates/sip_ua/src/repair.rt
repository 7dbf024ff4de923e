//! A file that was cut off, for instance by a full disk or a kill.

ghost use Rattle.std.specs.Prelude.{◌≡◌, ◌<◌, IfNone, IfSome, length, true};
ghost use Rattle.sip_ua.specs.Repair as spec;

use sip_files::FileKind;

/// What is whole of a file of this kind: its lines that have an end; of a session, without the
/// header lines at their end, whose command is missing.
pub(crate) fn whole(kind: FileKind, text: &[u8]) -> &[u8]
    ensures { result.now ≡ spec.whole kind text.now }
{
    let lines = whole_lines(text);
    match kind {
        FileKind::Events => lines,
        FileKind::Session => without_last_headers(lines),
    }
}

// A text up to its last LF.
fn whole_lines(text: &[u8]) -> &[u8]
    ensures { result.now ≡ spec.whole_lines text.now }
{
    let mut rest = text;
    while let [front @ .., last] = rest {
        if !is_in_line(*last) {
            break;
        }
        rest = front;
    }
    rest
}

fn is_in_line(byte: u8) -> bool
    ensures { result ≡ spec.is_in_line byte }
{
    byte != b'\n'
}

// A text without the header lines at its end.
fn without_last_headers(text: &[u8]) -> &[u8]
    ensures { result.now ≡ spec.without_last_headers true text.now }
{
    let mut rest = text;
    while let Some(front) = before_header_line(rest) {
        rest = front;
    }
    rest
}

// What stands before the last line, if that is a header line with its end.
fn before_header_line(text: &[u8]) -> Option<&[u8]>
    ensures cut { IfSome result (λ front. spec.without_last_headers true front.now
        ≡ spec.without_last_headers true text.now) }
    ensures shorter { IfSome result (λ front. length front.now < length text.now) }
    ensures kept { IfNone result (spec.without_last_headers true text.now ≡ text.now) }
{
    let (last, lines) = text.split_last()?;
    if is_in_line(*last) {
        return None;
    }
    let front = whole_lines(lines);
    let (_, line) = lines.split_at(front.len());
    if is_header_line(line) {
        Some(front)
    } else {
        None
    }
}

fn is_header_line(line: &[u8]) -> bool
    ensures { result ≡ spec.is_header_line line.now }
{
    match line {
        [] => false,
        [first, ..] => *first == b' ',
    }
}
