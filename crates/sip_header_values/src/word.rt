//! Call-ID (RFC 3261, section 20.8).
ghost use Rattle.std.specs.Prelude.{◌≡◌};

use crate::row::Row;
use sip_grammar::{CallId, is_word};
use std::alloc::{AllocError, Global};

/// A text without white space.
pub struct CallIdRow;

impl Row for CallIdRow {
    ghost use Rattle.sip_header_values.specs.Sequence.{call_id_from};

    type Value = CallId;

    ghost reads = { call_id_from };

    fn read(alloc: Global, text: &[u8]) -> Result<Option<CallId>, AllocError> {
        if !is_word(text) {
            return Ok(None);
        }
        Ok(Some(CallId::copy_of(alloc, text)?))
    }
}
