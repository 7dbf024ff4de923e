//! Headers that are kept as they are (RFC 3261, section 7.3.1).
ghost use Rattle.std.specs.Prelude.{◌≡◌};

use sip_grammar::{HeaderValue, OtherName};
use std::alloc::AllocError;

/// A header that isn't parsed into a field of its own.
pub struct Header {
    pub name: OtherName,
    pub value: HeaderValue,
}

impl Drop for Header {
    fn drop(self) {
        let Header { name: _, value: _ } = self;
    }
}

impl Clone for Header {
    ghost is_clone = { λ original copy. copy ≡ original };

    fn clone(&self) -> Result<Header, AllocError> {
        Ok(Header {
            name: self.name.clone()?,
            value: self.value.clone()?,
        })
    }
}
