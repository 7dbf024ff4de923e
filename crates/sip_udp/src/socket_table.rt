//! The system's table of sockets: the datagrams that it dropped before they were read.

use sip_message::Addr;
use std::alloc::{AllocError, Global};
use std::rt::Files;
use std::{fs, str};

/// The system's table of UDP sockets. A row has the socket's address and port in hexadecimal, the
/// bytes of the address from the last to the first, and in its last column counts the drops.
const TABLE: &str = "/proc/net/udp";

/// How many datagrams for the socket at this address the system dropped, as a rule since the buffer
/// of the socket was full. None if the system doesn't say, or memory ran out.
pub(crate) fn system_drops<R: Files>(rt: &R, alloc: Global, local: Addr) -> Option<u64> {
    let table = fs::read_to_string(&(rt, alloc), TABLE).ok()?;
    drops_in(alloc, &table, local).unwrap_or(None)
}

/// What a table of sockets says of the socket at this address.
///
/// # Errors
///
/// Memory ran out.
pub fn drops_in(alloc: Global, table: &str, local: Addr) -> Result<Option<u64>, AllocError> {
    let [a, b, c, d] = local.ip;
    let port = local.port;
    let address = format!(in alloc; "{d:02X}{c:02X}{b:02X}{a:02X}:{port:04X}")?;
    for row in table.lines() {
        let mut words = row.split_ascii_whitespace();
        if words.nth(1) == Some(address.as_str()) {
            return Ok(match words.last() {
                Some(count) => count.parse().ok(),
                None => None,
            });
        }
    }
    Ok(None)
}
