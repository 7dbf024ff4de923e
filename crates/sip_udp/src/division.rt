//! How the work of an agent is divided.

ghost use Rattle.std.specs.Prelude.{◌<◌, ◌≤◌};

use sip_round::MAX_EVENTS_OF_ROUND;

/// The fewest events of a round that several threads share. In smaller rounds, to start threads
/// four times takes longer than what they save.
const SHARED: usize = 2_000;

/// The most events of a round that one agent runs on one thread: its time for a transaction is the
/// least with 10 to 100 events a round. Several threads need large rounds.
const BEST: usize = 128;

/// How many events a round of a journal has at most. Each is a line of at most 2^20 bytes, the
/// longest that a pipe takes; the lines of a whole round can be read again up to 2^26 bytes.
const MOST_JOURNALLED: usize = 63;

/// How many agents share the calls, how many shards the transactions and calls of each are cut
/// into, and how many threads work on a round of one agent.
#[derive(Clone, Copy)]
pub struct Division {
    pub agents: usize,
    pub shards: usize,
    pub workers: usize,
    ghost some_agent: { 0 < agents },
    ghost most_agents: { agents ≤ 16 },
    ghost some_shard: { 0 < shards },
    ghost most_shards: { shards ≤ 256 },
    ghost some_worker: { 0 < workers },
    ghost most_workers: { workers ≤ 64 },
}

impl Division {
    /// One agent, 4 shards and one worker.
    pub const USUAL: Division = Division {
        agents: 1,
        shards: 4,
        workers: 1,
    };

    /// How many events a round has at most, of a journal or not.
    pub(crate) fn most_events(self, is_journal: bool) -> usize {
        if is_journal {
            MOST_JOURNALLED
        } else if self.workers > 1 {
            MAX_EVENTS_OF_ROUND
        } else {
            BEST
        }
    }

    /// How many threads a round of so many events takes. To start one takes longer than to run a
    /// round of a few.
    pub(crate) fn workers_of(self, events: usize) -> usize
        ensures some { 0 < result }
        ensures most { result ≤ 64 }
    {
        if events < SHARED { 1 } else { self.workers }
    }
}
