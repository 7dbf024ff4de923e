//! What a host is told of an output that it takes.

use sip_message::Addr;

/// An output of the last round: its index from 0, the place of the event that it belongs to, where
/// it goes if it is a send, and the length of its text in bytes. The text of a send is the
/// datagram. The text of another output is its line in an output file, with its end.
#[derive(Clone, Copy)]
pub struct NextOutput {
    pub index: usize,
    /// From 1, as the events stood in their round. It is 0 if the output belongs to no event: if it
    /// came with time, or if a command of a call sends it.
    pub place: u32,
    pub to: Option<Addr>,
    pub len: usize,
}
