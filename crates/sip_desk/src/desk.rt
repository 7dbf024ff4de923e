//! The desk: it opens lines, collects the events posted on them, and settles lines that have ended.

ghost use Rattle.std.specs.Prelude.{◌≡◌, ◌≢◌, ℕ, ◌<◌, ◌≤◌, [], ◌++◌, length, IsTrue, IsFalse, IfOk, OnOk, OnErr, IfErr, IfSome, IfNone};
ghost use Rattle.std.specs.Vec.{vec_len, vec_capacity};
ghost use Rattle.sip_desk.specs.Lines.{line_count, taken, seen, all_posted, IsOpened, IsEndOf, KeepsLines, Pops, TakesNothing, SameEnd};
ghost use Rattle.sip_desk.specs.Collected.{Collects, Gathers, IsDry, Because};

use crate::{Ended, NoMemory, Poster, SettleFault};
use rtrb::{Consumer, RingBuffer};
use std::alloc::Global;

/// The place where the events of all lines are collected.
#[derive(Drop)]
pub struct Desk<E> {
    alloc: Global,
    // In the order of their numbers.
    lines: Vec<Consumer<E>>,
}

/// A desk, and a poster for each of its lines, in the order of their numbers, from 0 on. Each line
/// has room for `capacity` events.
///
/// # Errors
///
/// `NoMemory`.
pub fn open<E: Drop>(
    alloc: Global,
    lines: usize,
    capacity: usize,
) -> Result<(Desk<E>, Vec<Poster<E>>), NoMemory>
    ensures { IfOk result (λ opened. IsOpened opened.0 opened.1.items lines capacity) }
{
    let mut desk = Desk {
        alloc,
        lines: Vec::with_capacity(alloc, lines)?,
    };
    let mut posters = Vec::with_capacity(alloc, lines)?;
    for line in 0..lines {
        let (ring, end) = RingBuffer::new(alloc, capacity)?;
        desk.lines.push(end)?;
        posters.push(Poster { line, ring })?;
    }
    Ok((desk, posters))
}

impl<E: Drop> Desk<E> {
    /// Takes one event from each line, in the order of the lines, again and again, until it has
    /// `max` events or finds none. It doesn't wait.
    ///
    /// # Errors
    ///
    /// `NoMemory`; then nothing was taken.
    pub fn collect(&mut self, max: usize) -> Result<Vec<E>, NoMemory>
        ensures merge { IfOk result (λ events. Collects self.old self.new events.items) }
        ensures most { IfOk result (λ events. length events.items ≤ max) }
        ensures dry { IfOk result (λ events. length events.items < max → IsDry self.new) }
        ensures same { KeepsLines self.old self.new }
        ensures err { OnErr result (self.new ≡ self.old) }
    {
        let mut events = Vec::with_capacity(self.alloc, max)?;
        while self.pass(&mut events, max) {}
        Ok(events)
    }

    // Takes one event from each line while there is room, and says whether it took any.
    fn pass(&mut self, events: &mut Vec<E>, max: usize) -> bool
        requires room { vec_capacity events.old ≡ max }
        requires most { vec_len events.old ≤ max }
        ensures gathers { Gathers self.old self.new events.old.items events.new.items }
        ensures same { KeepsLines self.old self.new }
        ensures room { vec_capacity events.new ≡ max }
        ensures most { vec_len events.new ≤ max }
        ensures more { IsTrue result → vec_len events.old < vec_len events.new }
        ensures dry { IsFalse result → vec_len events.new < max → IsDry self.new }
    {
        let before = events.len();
        for line in 0..self.lines.len() {
            if events.len() == max {
                break;
            }
            if let Some(event) = self.take_one(line) {
                events.push_reserved(event);
            }
        }
        events.len() > before
    }

    // Takes the oldest event of a line, if it finds one.
    fn take_one(&mut self, line: usize) -> Option<E>
        requires { line < line_count self.old }
        ensures some { IfSome result (λ event. Pops self.old self.new line event) }
        ensures none { IfNone result (TakesNothing self.old self.new) }
        ensures dry { IfNone result (seen self.new line ≡ []) }
        ensures others { (other : ℕ) → other ≢ line → seen self.new other ≡ seen self.old other }
        ensures same { KeepsLines self.old self.new }
    {
        self.lines[line].pop().ok()
    }

    /// Says that a line has ended and all that was posted on it was collected.
    ///
    /// # Errors
    ///
    /// The first that fits; the end comes back, and all is as it was. `WrongLine`: the end isn't
    /// that of the line with this number, or there is no such line. `NotDrained`: an event that was
    /// posted on the line wasn't collected.
    pub fn settle(
        &mut self,
        line: usize,
        mut ended: Ended<E>,
    ) -> Result<(), (SettleFault, Ended<E>)>
        requires { IsEndOf self.old ended }
        ensures ok { OnOk result ((ended.line ≡ line) × (taken self.new line ≡ all_posted ended)) }
        ensures fault { IfErr result (λ refused. Because self.old line ended refused.0) }
        ensures left { IfErr result (λ refused. refused.0 ≡ SettleFault.NotDrained
            → all_posted ended ≡ taken self.new line ++ seen self.new line) }
        ensures back { IfErr result (λ refused. SameEnd ended refused.1
            × IsEndOf self.new refused.1) }
        ensures untaken { TakesNothing self.old self.new }
        ensures same { KeepsLines self.old self.new }
    {
        if ended.line != line {
            return Err((SettleFault::WrongLine, ended));
        }
        if self.count_left(&mut ended) > 0 {
            return Err((SettleFault::NotDrained, ended));
        }
        Ok(())
    }

    // How many events are left on the line that has this end.
    fn count_left(&mut self, ended: &mut Ended<E>) -> usize
        requires { IsEndOf self.old ended.old }
        ensures count { result ≡ length (seen self.new ended.old.line) }
        ensures all { all_posted ended.old
            ≡ taken self.new ended.old.line ++ seen self.new ended.old.line }
        ensures end { SameEnd ended.old ended.new × IsEndOf self.new ended.new }
        ensures untaken { TakesNothing self.old self.new }
        ensures same { KeepsLines self.old self.new }
    {
        self.lines[ended.line].slots_after(&mut ended.ring)
    }
}
