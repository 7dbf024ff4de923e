//! An address in a text: an IPv4 address in dotted decimal numbers, and a port.
ghost use Rattle.std.specs.Prelude.{◌≡◌};
ghost use Rattle.sip_dialog.specs.Address as address;

use sip_message::{Addr, ip_in};
use sip_text::{cut, number_up_to};

/// The port of a SIP URI without a port (RFC 3261, section 19.1.2).
const DEFAULT_PORT: u16 = 5060;

/// The address `a.b.c.d` or `a.b.c.d:port`, or None if the text is neither. Takes no memory.
#[tactic(auto, unfolding(crate::specs::Address::address_at))]
pub(crate) fn read_address(text: &[u8]) -> Option<Addr>
    ensures { result ≡ address.address_at text.now }
{
    match cut(b':', text) {
        None => {
            let ip = ip_in(text)?;
            Some(Addr {
                ip,
                port: DEFAULT_PORT,
            })
        }
        Some((host, port)) => {
            let ip = ip_in(host)?;
            let port = number_up_to(port, u64::from(u16::MAX))? as u16;
            Some(Addr { ip, port })
        }
    }
}
