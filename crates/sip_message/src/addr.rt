//! Addresses of the network.
ghost use Rattle.std.specs.Prelude.{◌≡◌, ◌≤◌, ◌+◌, ◌++◌, decimal, IsTrue, Some};
ghost use Rattle.sip_text.specs.Parameter.{is_parameter_value};
ghost use Rattle.arrayvec.specs.ArrayVec.{array_vec_len};
ghost use Rattle.sip_message.specs.Addr.{addr_text};
ghost use Rattle.sip_message.specs.Ip.{ip_at, ip_text};
ghost use Rattle.sip_text.specs.Number.{number_at};

use arrayvec::ArrayVec;
use sip_text::{cut, decimal, number_up_to};
use std::fmt;

/// An IPv4 address and a UDP port. It is printed as `a.b.c.d:port`.
#[derive(Clone, Copy, Debug, PartialEq, Eq)]
pub struct Addr {
    pub ip: [u8; 4],
    pub port: u16,
}

impl fmt::Display for Addr {
    ghost output = { λ addr. Some (addr_text addr) };

    fn fmt<W: fmt::Write>(&self, f: &mut fmt::Formatter<W>) -> fmt::Result {
        let [a, b, c, d] = self.ip;
        let port = self.port;
        write!(f, "{a}.{b}.{c}.{d}:{port}")
    }
}

/// The IP address as four decimal numbers with dots between them. Takes no memory.
pub fn ip_text(ip: [u8; 4]) -> ArrayVec<u8, 15>
    ensures value { result.items ≡ ip_text ip }
    ensures rule { IsTrue (is_parameter_value result.items) }
{
    let [a, b, c, d] = ip;
    let mut text = ArrayVec::new();
    push_octet(&mut text, a);
    text.push(b'.');
    push_octet(&mut text, b);
    text.push(b'.');
    push_octet(&mut text, c);
    text.push(b'.');
    push_octet(&mut text, d);
    text
}

fn push_octet(text: &mut ArrayVec<u8, 15>, octet: u8)
    requires { array_vec_len text.old ≤ 12 }
    ensures items { text.new.items ≡ text.old.items ++ decimal octet }
    ensures len { array_vec_len text.new ≤ array_vec_len text.old + 3 }
{
    text.try_extend_from_slice(&decimal(u64::from(octet)))
        .unwrap();
}

/// The IP address that is written as four decimal numbers with dots between them, or None if the
/// text isn't one. Takes no memory.
#[tactic(auto, unfolding(crate::specs::Ip::ip_at))]
pub fn ip_in(text: &[u8]) -> Option<[u8; 4]>
    ensures { result ≡ ip_at text.now }
{
    let (a, others) = cut(b'.', text)?;
    let a = read_octet(a)?;
    let (b, others) = cut(b'.', others)?;
    let b = read_octet(b)?;
    let (c, d) = cut(b'.', others)?;
    let c = read_octet(c)?;
    Some([a, b, c, read_octet(d)?])
}

fn read_octet(text: &[u8]) -> Option<u8>
    ensures { result ≡ number_at 255 text.now }
{
    Some(number_up_to(text, 255)? as u8)
}
