//! Where the first of several rounds ends.

ghost use Rattle.std.specs.Prelude.{◌≡◌};
ghost use Rattle.sip_files.specs.Rounds as spec;

/// The beginning of a line that begins a round.
const ROUND: &[u8] = b"round ";

/// The lines of the first round of a text: those before the next line that begins a round.
pub fn first_round_of(text: &[u8]) -> &[u8]
    ensures { result.now ≡ spec.first_round text.now }
{
    for (index, byte) in text.iter().enumerate() {
        if *byte == b'\n' && begins_round(&text[index + 1..]) {
            return &text[..index + 1];
        }
    }
    text
}

fn begins_round(text: &[u8]) -> bool
    ensures { result ≡ spec.begins_round text.now }
{
    text.starts_with(ROUND)
}
