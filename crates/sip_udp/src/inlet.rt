//! Where datagrams come from.

ghost use Rattle.std.specs.Prelude.{List, None, Option};
ghost use Rattle.sip_round.specs.declared.round.Event.{Event as AnEvent};
ghost use Rattle.sip_udp.specs.Adds.{Adds};
ghost use Rattle.sip_udp.specs.Hearing.{came};
ghost use Rattle.sip_udp.specs.Receiving.{IsInBuffer};

use sip_message::Addr;
use std::io::ErrorKind;
use std::net::{SocketAddr, UdpSocket};

/// The result of waiting for a datagram.
#[derive(Clone, Copy)]
pub enum Received {
    /// A datagram of this length. It stands at the front of the buffer.
    Datagram { from: Addr, length: usize },
    /// Nothing came in time.
    Nothing,
    /// The receive failed.
    Failed,
}

/// A way in for datagrams.
pub trait Inlet {
    // All datagrams that it gave, in order, if it tells.
    ghost given: { Self → Option (List AnEvent) };

    /// Waits a while for a datagram.
    fn receive(&mut self, buffer: &mut [u8]) -> Received
        ensures buffer { IsInBuffer result buffer.new }
        ensures given { Adds (given self.old) (given self.new) (came result buffer.new) };
}

/// The socket waits as long as its read timeout says. A datagram from an IPv6 address is ignored. It
/// doesn't tell what it gave.
impl Inlet for UdpSocket {
    ghost given = { λ _. None };

    fn receive(&mut self, buffer: &mut [u8]) -> Received {
        match self.recv_from(buffer) {
            Ok((length, SocketAddr::V4(from))) => Received::Datagram {
                from: Addr {
                    ip: from.ip().octets(),
                    port: from.port(),
                },
                length,
            },
            Ok((_, SocketAddr::V6(_))) => Received::Nothing,
            Err(error) => match error.kind() {
                // It is interrupted where the process was stopped and goes on.
                ErrorKind::WouldBlock | ErrorKind::TimedOut | ErrorKind::Interrupted => {
                    Received::Nothing
                }
                _ => Received::Failed,
            },
        }
    }
}
