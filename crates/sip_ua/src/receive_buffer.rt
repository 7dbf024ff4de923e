//! The room that the system has for datagrams that came and weren't read yet.

use libc::net::{SO_RCVBUF, SOL_SOCKET, setsockopt};
use std::net::UdpSocket;
use std::os::fd::AsRawFd;

/// How much room is asked for, in bytes. The usual room is full after some 10 ms of 10,000 calls a
/// second, and what comes then is lost.
const ROOM: u32 = 4 << 20;

/// How many bytes the value of this option has.
const LEN: u32 = 4;

/// Asks the system for room. It gives no more than `net.core.rmem_max` says. If it gives none, the
/// socket has what it had.
pub(crate) fn ask_for_room(socket: &UdpSocket) {
    let [a, b, c, d] = ROOM.to_ne_bytes();
    let value = [a, b, c, d, 0, 0, 0, 0, 0, 0, 0, 0, 0, 0, 0, 0];
    let _ = unsafe { setsockopt(socket.as_raw_fd(), SOL_SOCKET, SO_RCVBUF, &value, LEN) };
}
