//! Require and Supported (RFC 3261, sections 20.32 and 20.37).
ghost use Rattle.std.specs.Prelude.{◌≡◌};

use crate::row::{Row, split_of, token_in};
use sip_grammar::Token;
use sip_text::{Separator, Series};
use std::alloc::{AllocError, Global};

/// One option tag.
struct TokenRow;

impl Row for TokenRow {
    ghost use Rattle.sip_header_values.specs.Sequence.{token_from};

    type Value = Token;

    ghost reads = { token_from };

    fn read(alloc: Global, text: &[u8]) -> Result<Option<Token>, AllocError> {
        token_in(alloc, text)
    }
}

/// Tokens with commas between them. An empty text is an empty list.
pub struct TokenListRow;

impl Row for TokenListRow {
    ghost use Rattle.sip_header_values.specs.Sequence.{tokens_from};

    type Value = Series<Token>;

    ghost reads = { tokens_from };

    fn read(alloc: Global, text: &[u8]) -> Result<Option<Series<Token>>, AllocError> {
        match text {
            [] => Ok(Some(Series::new(alloc))),
            [_, ..] => split_of::<TokenRow>(alloc, Separator::Byte(b','), text),
        }
    }
}
