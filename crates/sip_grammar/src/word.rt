//! Words without white space: a Request-URI, a Call-ID.
ghost use Rattle.std.specs.Prelude.{◌≡◌};
ghost use Rattle.sip_grammar.specs.Word as rule;

use sip_text::{ByteClass, is_run};

/// Whether the text is one or more bytes without spaces, tabs and line ends.
#[tactic(auto, unfolding(crate::specs::Word::is_word))]
pub fn is_word(text: &[u8]) -> bool
    ensures { result ≡ rule.is_word text.now }
{
    is_run::<WordBytes>(text)
}

// An x in the place of each byte of a word.
#[rattlefmt::skip]
static WORD_BYTES: [u8; 256] = *b"\
    xxxxxxxxx..xx.xxxxxxxxxxxxxxxxxx\
    .xxxxxxxxxxxxxxxxxxxxxxxxxxxxxxx\
    xxxxxxxxxxxxxxxxxxxxxxxxxxxxxxxx\
    xxxxxxxxxxxxxxxxxxxxxxxxxxxxxxxx\
    xxxxxxxxxxxxxxxxxxxxxxxxxxxxxxxx\
    xxxxxxxxxxxxxxxxxxxxxxxxxxxxxxxx\
    xxxxxxxxxxxxxxxxxxxxxxxxxxxxxxxx\
    xxxxxxxxxxxxxxxxxxxxxxxxxxxxxxxx";

struct WordBytes;

impl ByteClass for WordBytes {
    ghost use Rattle.sip_grammar.specs.Word.{is_word_byte};

    ghost holds = { is_word_byte };

    fn test(byte: u8) -> bool {
        WORD_BYTES[usize::from(byte)] == b'x'
    }
}
