//! A run of a round's events. It is read as one piece of work.

ghost use Rattle.std.specs.Prelude.{◌≤◌, ◌+◌, length};

use crate::round::Event;
use sip_message::Addr;
use std::alloc::Global;

/// Some consecutive events of a round, and how many come before them.
#[derive(Drop)]
pub(crate) struct EventRun<'a> {
    pub(crate) alloc: Global,
    pub(crate) local: Addr,
    pub(crate) round: u64,
    pub(crate) before: u32,
    pub(crate) events: &'a [Event],
    ghost in_bounds: { before + length events.now ≤ 65536 },
}
