//! The sent-by of a key (RFC 3261, section 17.2.3).
ghost use Rattle.std.specs.Prelude.{◌≡◌};

use sip_grammar::LowerText;
use std::alloc::AllocError;

/// The host, in lower case, and the port of a Via.
pub struct SentBy {
    pub host: LowerText,
    pub port: u16,
}

impl Drop for SentBy {
    fn drop(self) {
        let SentBy { host: _, port: _ } = self;
    }
}

impl Clone for SentBy {
    ghost is_clone = { λ original copy. copy ≡ original };

    fn clone(&self) -> Result<SentBy, AllocError> {
        Ok(SentBy {
            host: self.host.clone()?,
            port: self.port,
        })
    }
}
