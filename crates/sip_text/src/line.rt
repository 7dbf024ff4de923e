//! Lines.
ghost use Rattle.std.specs.Prelude.{◌≡◌, ◌<◌, IfSome, length};
ghost use Rattle.std.specs.Str.Lines as std_lines;
ghost use Rattle.sip_text.specs.Cut.{both_now};
ghost use Rattle.sip_text.specs.Line.{line_at};

use crate::pieces::cut;

/// The first line without its end, CR LF or LF, and the text after it. None if no line ends.
#[tactic(auto, unfolding(crate::specs::Line::line_at))]
pub fn next_line(text: &[u8]) -> Option<(&[u8], &[u8])>
    ensures parts { both_now result ≡ line_at text.now }
    ensures shorter { IfSome result (λ p. length p.1.now < length text.now) }
{
    let (line, after) = cut(b'\n', text)?;
    Some((without_carriage_return(line), after))
}

pub(crate) fn without_carriage_return(line: &[u8]) -> &[u8]
    ensures { result.now ≡ std_lines.strip_carriage_return line.now }
{
    match line {
        [front @ .., b'\r'] => front,
        _ => line,
    }
}
