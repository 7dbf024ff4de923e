//! The CSeq (RFC 3261, section 20.16).
ghost use Rattle.std.specs.Prelude.{◌≡◌};

use sip_grammar::Token;
use std::alloc::AllocError;

/// A sequence number and a method.
pub struct CSeq {
    pub number: u32,
    pub method: Token,
}

impl Drop for CSeq {
    fn drop(self) {
        let CSeq {
            number: _,
            method: _,
        } = self;
    }
}

impl Clone for CSeq {
    ghost is_clone = { λ original copy. copy ≡ original };

    fn clone(&self) -> Result<CSeq, AllocError> {
        Ok(CSeq {
            number: self.number,
            method: self.method.clone()?,
        })
    }
}
