//! Addresses in lists: Contact, Record-Route and Route (RFC 3261, section 20.10).
ghost use Rattle.std.specs.Prelude.{◌≡◌};

use sip_grammar::{DisplayText, Parameters, Uri};
use std::alloc::AllocError;

/// A display text, a URI and parameters.
pub struct NameAddr {
    pub display: DisplayText,
    pub uri: Uri,
    pub parameters: Parameters,
}

impl NameAddr {
    ghost use Rattle.sip_message.specs.Wildcard as wildcard;

    /// Whether `*` stands where a URI stands. Only the Contact of a REGISTER may be so (RFC 3261,
    /// section 20.10).
    pub fn has_wildcard_uri(&self) -> bool
        ensures { result ≡ wildcard.has_wildcard_uri self.now }
    {
        self.uri.as_slice() == b"*".as_slice()
    }

    /// Whether it is `*` alone, which stands for all bindings (RFC 3261, section 10.2.2): without
    /// display text and parameters.
    pub fn is_wildcard(&self) -> bool
        ensures { result ≡ wildcard.is_wildcard self.now }
    {
        self.has_wildcard_uri()
            && self.display.as_slice().is_empty()
            && self.parameters.as_text().is_empty()
    }
}

impl Drop for NameAddr {
    fn drop(self) {
        let NameAddr {
            display: _,
            uri: _,
            parameters: _,
        } = self;
    }
}

impl Clone for NameAddr {
    ghost is_clone = { λ original copy. copy ≡ original };

    fn clone(&self) -> Result<NameAddr, AllocError> {
        Ok(NameAddr {
            display: self.display.clone()?,
            uri: self.uri.clone()?,
            parameters: self.parameters.clone()?,
        })
    }
}
