//! How long the turns go on.

ghost use Rattle.std.specs.Prelude.{◌≡◌, ◌≢◌, ◌+◌, ◌≤◌, ◌<◌, true, false};
ghost use Rattle.sip_udp.specs.declared.time_limit.TimeLeft.TheVariants as time_left;

use crate::input_end::InputEnd;
use std::sync::Arc;
use std::sync::atomic::Ordering;

/// How long before the end calls are ended, in ms.
const LEAVING: u64 = 1_000;

/// The number of turns in that time.
const TURNS_OF_LEAVING: u64 = 100;

/// An input without bytes that ends within this time, in ms, was empty from the start, like
/// /dev/null.
const EMPTY: u64 = 1_000;

/// How near the end of the turns is.
#[derive(Clone, Copy)]
pub(crate) enum TimeLeft {
    /// More than a second is left.
    More,
    /// The last second.
    LastSecond,
    /// The last second, because the input has ended.
    InputEnded,
}

/// How long the turns go on. Moments are in ms since the start.
#[derive(Drop)]
pub(crate) struct TimeLimit {
    // From this moment on there are no more turns.
    until: u64,
    // The input, as long as it may still end.
    input: Option<Arc<InputEnd>>,
    has_input_ended: bool,
}

impl TimeLimit {
    /// `seconds` seconds, or for ever, but only until a second after the end of the input.
    pub(crate) fn new(seconds: Option<u32>, input: Option<Arc<InputEnd>>) -> TimeLimit {
        let until = match seconds {
            Some(seconds) => u64::from(seconds).saturating_mul(1_000),
            None => u64::MAX,
        };
        TimeLimit {
            until,
            input,
            has_input_ended: false,
        }
    }

    /// Looks, at the moment `now`, whether the input has ended. An input that was empty from the
    /// start never ends; agents that share one agree on that.
    pub(crate) fn look(&mut self, now: u64)
        ensures sooner { self.new.until ≤ self.old.until }
        ensures ended { self.new.has_input_ended ≡ false → self.new.until ≡ self.old.until }
    {
        let Some(input) = &self.input else {
            return;
        };
        if !input.has_ended.load(Ordering::SeqCst) {
            return;
        }
        let has_bytes = input.has_bytes.load(Ordering::SeqCst);
        let is_empty = input.seen_at(now) < EMPTY && !has_bytes;
        self.input = None;
        if !is_empty {
            self.has_input_ended = true;
            self.until = self.until.min(now.saturating_add(LEAVING));
        }
    }

    /// Whether the turns are over at the moment `now`.
    pub(crate) fn is_past(&self, now: u64) -> bool
        ensures past { result ≡ true → self.now.until ≤ now }
        ensures not_yet { result ≡ false → now < self.now.until }
    {
        self.until <= now
    }

    /// How near the end is at the moment `now`, when `turns_left` turns are left.
    pub(crate) fn left(&self, now: u64, turns_left: u64) -> TimeLeft
        ensures input { self.now.has_input_ended ≡ true → result ≡ time_left.InputEnded }
        ensures turns { self.now.has_input_ended ≡ false → turns_left ≤ 100
            → result ≡ time_left.LastSecond }
        ensures time { self.now.has_input_ended ≡ false → self.now.until ≤ now + 1000
            → result ≡ time_left.LastSecond }
        ensures more { self.now.has_input_ended ≡ false → 100 < turns_left
            → now + 1000 < self.now.until → result ≡ time_left.More }
    {
        if self.has_input_ended {
            TimeLeft::InputEnded
        } else if turns_left <= TURNS_OF_LEAVING || self.until.saturating_sub(now) <= LEAVING {
            TimeLeft::LastSecond
        } else {
            TimeLeft::More
        }
    }
}
