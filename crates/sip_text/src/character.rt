//! Classes of bytes (RFC 3261, section 25.1).
ghost use Rattle.std.specs.Prelude.{◌≡◌};
ghost use Rattle.sip_text.specs.Character as character;

use crate::run::ByteClass;

/// Whether the byte is a space or a tab.
pub fn is_blank(byte: u8) -> bool
    ensures { result ≡ character.is_blank byte }
{
    byte == b' ' || byte == b'\t'
}

/// Whether the byte is a CR or a LF.
pub fn is_line_byte(byte: u8) -> bool
    ensures { result ≡ character.is_line_byte byte }
{
    byte == b'\r' || byte == b'\n'
}

// An x at the place of each byte of a token.
#[rattlefmt::skip]
static TOKEN_BYTES: [u8; 256] = *b"\
    ................................\
    .x...x.x..xx.xx.xxxxxxxxxx......\
    .xxxxxxxxxxxxxxxxxxxxxxxxxx....x\
    xxxxxxxxxxxxxxxxxxxxxxxxxxx...x.\
    ................................\
    ................................\
    ................................\
    ................................";

/// The bytes of a token.
pub struct TokenBytes;

impl ByteClass for TokenBytes {
    ghost use Rattle.sip_text.specs.Character.{is_token_byte};

    ghost holds = { is_token_byte };

    fn test(byte: u8) -> bool {
        TOKEN_BYTES[usize::from(byte)] == b'x'
    }
}
