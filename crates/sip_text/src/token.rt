//! Tokens (RFC 3261, section 25.1).
ghost use Rattle.std.specs.Prelude.{◌≡◌};
ghost use Rattle.std.specs.Str.{str_eq_ignore_ascii_case};
ghost use Rattle.sip_text.specs.Token as token;

use crate::character::TokenBytes;
use crate::run::is_run;

/// Whether the bytes are a token: one or more letters, digits and marks from ``-.!%*_+`'~``.
#[tactic(auto, unfolding(crate::specs::Token::is_token))]
pub fn is_token(text: &[u8]) -> bool
    ensures { result ≡ token.is_token text.now }
{
    is_run::<TokenBytes>(text)
}

/// Whether two tokens are equal, whatever the case of their ASCII letters.
pub fn token_eq(one: &[u8], other: &[u8]) -> bool
    ensures { result ≡ str_eq_ignore_ascii_case one.now other.now }
{
    one.eq_ignore_ascii_case(other)
}
