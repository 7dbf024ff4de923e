//! The RAck (RFC 3262, section 7.2).
ghost use Rattle.std.specs.Prelude.{◌≡◌};

use sip_grammar::Token;
use std::alloc::AllocError;

/// The RSeq that a PRACK acknowledges, and the CSeq of the request that the acknowledged response
/// answers.
pub struct RAck {
    pub rseq: u32,
    pub cseq: u32,
    pub method: Token,
}

impl Drop for RAck {
    fn drop(self) {
        let RAck {
            rseq: _,
            cseq: _,
            method: _,
        } = self;
    }
}

impl Clone for RAck {
    ghost is_clone = { λ original copy. copy ≡ original };

    fn clone(&self) -> Result<RAck, AllocError> {
        Ok(RAck {
            rseq: self.rseq,
            cseq: self.cseq,
            method: self.method.clone()?,
        })
    }
}
