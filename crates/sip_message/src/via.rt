//! Via values (RFC 3261, section 20.42).
ghost use Rattle.std.specs.Prelude.{◌≡◌};

use sip_grammar::{Host, Parameters, Token};
use std::alloc::AllocError;

/// One value of a Via: a hop of the request.
pub struct Via {
    pub transport: Token,
    pub host: Host,
    pub port: Option<u16>,
    pub parameters: Parameters,
}

impl Via {
    ghost use Rattle.sip_message.specs.Via.{branch_of};

    /// The branch: empty if there is none.
    pub fn branch(&self) -> &[u8]
        ensures { result.now ≡ branch_of self.now }
    {
        self.parameters.value_named(b"branch")
    }
}

impl Drop for Via {
    fn drop(self) {
        let Via {
            transport: _,
            host: _,
            port: _,
            parameters: _,
        } = self;
    }
}

impl Clone for Via {
    ghost is_clone = { λ original copy. copy ≡ original };

    fn clone(&self) -> Result<Via, AllocError> {
        Ok(Via {
            transport: self.transport.clone()?,
            host: self.host.clone()?,
            port: self.port,
            parameters: self.parameters.clone()?,
        })
    }
}
