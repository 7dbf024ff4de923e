//! CSeq and RAck (RFC 3261, section 20.16; RFC 3262, section 7.2).
ghost use Rattle.std.specs.Prelude.{◌≡◌};

use crate::numeral::{Numeral, numeral_in};
use crate::row::{Row, token_in};
use sip_grammar::Token;
use sip_text::{Separator, trimmed};
use std::alloc::{AllocError, Global};

/// A CSeq. The word in the place of its number may be no number.
#[derive(Drop)]
pub struct CSeqDraft {
    pub number: Numeral,
    pub method: Token,
}

/// A RAck. The words in the places of its numbers may be no numbers.
#[derive(Drop)]
pub struct RAckDraft {
    pub rseq: Numeral,
    pub cseq: Numeral,
    pub method: Token,
}

/// A number, white space and a method.
pub struct CSeqRow;

impl Row for CSeqRow {
    ghost use Rattle.sip_header_values.specs.Sequence.{cseq_from};

    type Value = CSeqDraft;

    ghost reads = { cseq_from };

    fn read(alloc: Global, text: &[u8]) -> Result<Option<CSeqDraft>, AllocError> {
        let Some((number, rest)) = Separator::Blank.cut(text) else {
            return Ok(None);
        };
        let Some(number) = numeral_in(number) else {
            return Ok(None);
        };
        let Some(method) = token_in(alloc, rest)? else {
            return Ok(None);
        };
        Ok(Some(CSeqDraft { number, method }))
    }
}

/// Two numbers and a method, with white space between them.
pub struct RAckRow;

impl Row for RAckRow {
    ghost use Rattle.sip_header_values.specs.Sequence.{rack_from};

    type Value = RAckDraft;

    ghost reads = { rack_from };

    fn read(alloc: Global, text: &[u8]) -> Result<Option<RAckDraft>, AllocError> {
        let Some((rseq, rest)) = Separator::Blank.cut(text) else {
            return Ok(None);
        };
        let Some(rseq) = numeral_in(rseq) else {
            return Ok(None);
        };
        let Some(
            CSeqDraft {
                number: cseq,
                method,
            },
        ) = CSeqRow::read(alloc, trimmed(rest))?
        else {
            return Ok(None);
        };
        Ok(Some(RAckDraft { rseq, cseq, method }))
    }
}
