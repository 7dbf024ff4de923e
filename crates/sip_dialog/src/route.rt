//! Where the requests of a dialog go (RFC 3261, sections 8.1.2 and 12.2.1.1).
ghost use Rattle.std.specs.Prelude.{◌≡◌};
ghost use Rattle.sip_dialog.specs.Route as route;

use crate::address::read_address;
use crate::dialog::Dialog;
use crate::uri_text::{before, host_part, is_loose};
use sip_message::Addr;

impl Dialog {
    /// The address to which its requests are sent: that of the first route's URI, or without routes
    /// that of the target. It is `otherwise` if that URI names no IPv4 address in dotted decimal
    /// numbers. Takes no memory.
    pub fn hop(&self, otherwise: Addr) -> Addr
        ensures { result ≡ route.hop_of self.now otherwise }
    {
        address_of(self.next_hop()).unwrap_or(otherwise)
    }

    // The URI of the next hop.
    fn next_hop(&self) -> &[u8]
        ensures { result.now ≡ route.next_hop self.now }
    {
        match self.route_set.first() {
            Some(first) => first.uri.as_slice(),
            None => self.target.as_slice(),
        }
    }

    /// Whether the first route is a strict router.
    pub(crate) fn is_strict(&self) -> bool
        ensures { result ≡ route.is_strict self.now.route_set }
    {
        match self.route_set.first() {
            Some(first) => !is_loose(first.uri.as_slice()),
            None => false,
        }
    }
}

#[tactic(auto, unfolding(crate::specs::Route::address_of))]
fn address_of(uri: &[u8]) -> Option<Addr>
    ensures { result ≡ route.address_of uri.now }
{
    let part = host_part(uri)?;
    read_address(before(b';', part))
}
