//! Where datagrams are sent.

ghost use Rattle.std.specs.Prelude.{Option, List, ℕ, [], ◌∷◌, None};
ghost use Rattle.sip_udp.specs.Sending.{Asks};
ghost use Rattle.sip_udp.specs.declared.outlet.Asked.{Asked};

use sip_message::Addr;
use sip_text::Text;
use std::net::{Ipv4Addr, SocketAddrV4, UdpSocket};

/// One request to an outlet: to send these bytes to this address, and whether it did.
#[derive(Drop)]
pub struct Asked {
    pub to: Addr,
    pub bytes: Text,
    pub is_sent: bool,
}

/// A way out for datagrams.
pub trait Outlet {
    // All that it was asked to send, in order, if it tells.
    ghost asked: { Self → Option (List Asked) };

    /// Sends a datagram, and says whether it could.
    fn send(&mut self, to: Addr, bytes: &[u8]) -> bool
        ensures { Asks (asked self.old) (asked self.new)
            (record { to = to; bytes = bytes.now; is_sent = result } ∷ []) };
}

/// A socket doesn't tell what it was asked to send.
impl Outlet for UdpSocket {
    ghost asked = { λ _. None };

    fn send(&mut self, to: Addr, bytes: &[u8]) -> bool {
        is_sent(self, to, bytes)
    }
}

/// A socket, and how many sends failed.
#[derive(Clone, Copy)]
pub(crate) struct CountedSocket<'a> {
    pub socket: &'a UdpSocket,
    pub failed: u64,
}

impl Outlet for CountedSocket<'_> {
    ghost asked = { λ _. None };

    fn send(&mut self, to: Addr, bytes: &[u8]) -> bool {
        let is_sent = is_sent(self.socket, to, bytes);
        if !is_sent {
            self.failed = self.failed.saturating_add(1);
        }
        is_sent
    }
}

// Sends a datagram, and says whether it could.
fn is_sent(socket: &UdpSocket, to: Addr, bytes: &[u8]) -> bool {
    let address = SocketAddrV4::new(Ipv4Addr::from_octets(to.ip), to.port);
    match socket.send_to(bytes, address) {
        Ok(count) => count == bytes.len(),
        Err(_) => false,
    }
}
