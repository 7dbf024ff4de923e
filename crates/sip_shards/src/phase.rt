//! A phase of all shards: how it begins, who runs its pieces, and how it ends.

ghost use Rattle.std.specs.Prelude.{◌≡◌, ◌<◌, ◌≤◌, ◌^◌, [], IfOk, IsTrue, length, map, nat_eq};
ghost use Rattle.std.specs.List.{AllByRecursion, IsDistinct};
ghost use Rattle.keyed_machine.specs.Groups.{groups};
ghost use Rattle.keyed_machine.specs.Machine.{tick_at};
ghost use Rattle.sip_workers.specs.Ran.{IsNumbered};
ghost use Rattle.sip_shards.specs.AllShards.{DealsParts, IsApart, IsEnded, IsIdle};

use crate::shard_work::{ShardDone, ShardWork};
use keyed_machine::{Item, KeyShard, PhaseOutputs, ShardFault, StateMachine, laws_of_phases};
use sip_workers::{Gate, NoMemory, OpenGate, Piece, dones_in_order, gather, run_alone, run_pieces};
use std::alloc::{AllocError, Global};
use std::thread::Threads;

/// A phase before it is dealt with: each shard with its part of the items, at a moment in ms, with
/// a tick or without.
#[derive(Drop)]
pub struct Phase<S: KeyShard> {
    pub machine: S::Machine,
    pub shards: Vec<S>,
    pub moment: u64,
    pub ticks: bool,
    pub parts: Vec<
        Vec<Item<<S::Machine as StateMachine>::Key, <S::Machine as StateMachine>::Input>>,
    >,
    ghost in_bounds: { moment ≤ 2 ^ 62 },
    ghost a_part_each: { length parts.items ≡ length shards.items },
}

impl<S: KeyShard + Drop> Phase<S>
where
    S::Machine: Copy,
{
    // The phase of a single shard, which has all items. Its outputs are in order as they come.
    fn deal_alone<G: Gate>(
        self,
        gate: &G,
    ) -> Result<
        (
            Vec<S>,
            PhaseOutputs<<S::Machine as StateMachine>::Key, <S::Machine as StateMachine>::Output>,
        ),
        NoMemory,
    >
        requires one { length self.shards.items ≡ 1 }
        requires alike { AllByRecursion (λ shard. S.machine shard ≡ self.machine)
            self.shards.items }
        ensures count { IfOk result (λ dealt. length dealt.0.items ≡ 1) }
        ensures alike { IfOk result (λ dealt.
            AllByRecursion (λ shard. S.machine shard ≡ self.machine) dealt.0.items) }
        ensures dealt { IfOk result (λ dealt. DealsParts S.Machine.Key.cmp
            (S.Machine.machine self.machine) tick_at self.moment self.ticks
            (map (λ part. part.items) self.parts.items) (map S.held self.shards.items)
            (map S.held dealt.0.items) (groups dealt.1.ticks.items)
            (groups dealt.1.items.items)) }
    {
        let Phase {
            machine: _,
            mut shards,
            moment,
            ticks,
            mut parts,
        } = self;
        let (Some(mut shard), Some(items)) = (shards.pop(), parts.pop()) else {
            return Err(NoMemory);
        };
        gate.begin(0);
        let Ok(replies) = shard.deal(moment, ticks, items) else {
            return Err(NoMemory);
        };
        shards.push(shard)?;
        Ok((shards, replies))
    }

    // Whether nothing happens in it: no shard has an item, and no key is due.
    fn is_idle(&self) -> bool
        requires { AllByRecursion (λ shard. S.machine shard ≡ self.now.machine)
            self.now.shards.items }
        ensures { IsTrue result → DealsParts S.Machine.Key.cmp
            (S.Machine.machine self.now.machine) tick_at self.now.moment self.now.ticks
            (map (λ part. part.items) self.now.parts.items) (map S.held self.now.shards.items)
            (map S.held self.now.shards.items) [] [] }
    {
        laws_of_phases(&self.machine);
        have_no_items(&self.parts) && are_idle(self.moment, self.ticks, &self.shards)
    }

    // What it gives if nothing happens in it.
    fn unchanged(
        self,
        alloc: Global,
    ) -> (
        Vec<S>,
        PhaseOutputs<<S::Machine as StateMachine>::Key, <S::Machine as StateMachine>::Output>,
    )
        ensures shards { result.0.items ≡ self.shards.items }
        ensures ticks { groups result.1.ticks.items ≡ [] }
        ensures items { groups result.1.items.items ≡ [] }
    {
        let (ticks, items) = (Vec::new(alloc), Vec::new(alloc));
        (self.shards, PhaseOutputs { ticks, items })
    }

    // Its pieces: each shard with its part, under its number.
    fn pieces(self, alloc: Global) -> Result<Vec<Piece<ShardWork<S>>>, AllocError>
        ensures numbered { IfOk result (λ pieces. IsNumbered pieces.items) }
        ensures shards { IfOk result (λ pieces. map (λ piece. piece.job.shard) pieces.items
            ≡ self.shards.items) }
        ensures parts { IfOk result (λ pieces. map (λ piece. piece.job.items.items) pieces.items
            ≡ map (λ part. part.items) self.parts.items) }
        ensures shared { IfOk result (λ pieces. AllByRecursion (λ piece.
            (piece.job.now ≡ self.moment) × (piece.job.ticks ≡ self.ticks)) pieces.items) }
    {
        let Phase {
            machine: _,
            shards,
            moment,
            ticks,
            parts,
        } = self;
        let mut pieces = Vec::with_capacity(alloc, shards.len())?;
        let mut left = parts.into_iter();
        for shard in shards {
            let Some(items) = left.next() else {
                unreachable!();
            };
            let number = pieces.len();
            let job = ShardWork {
                shard,
                now: moment,
                ticks,
                items,
            };
            pieces.push(Piece { shard: number, job })?;
        }
        Ok(pieces)
    }

    /// Deals with it shard after shard, on the calling thread.
    ///
    /// # Errors
    ///
    /// As [`deal_phase`].
    pub fn deal_in_turn(
        self,
        alloc: Global,
    ) -> Result<
        (
            Vec<S>,
            PhaseOutputs<<S::Machine as StateMachine>::Key, <S::Machine as StateMachine>::Output>,
        ),
        NoMemory,
    >
        requires { AllByRecursion (λ shard. S.machine shard ≡ self.machine) self.shards.items }
        ensures count { IfOk result (λ dealt. length dealt.0.items ≡ length self.shards.items) }
        ensures alike { IfOk result (λ dealt.
            AllByRecursion (λ shard. S.machine shard ≡ self.machine) dealt.0.items) }
        ensures dealt { IfOk result (λ dealt. DealsParts S.Machine.Key.cmp
            (S.Machine.machine self.machine) tick_at self.moment self.ticks
            (map (λ part. part.items) self.parts.items) (map S.held self.shards.items)
            (map S.held dealt.0.items) (groups dealt.1.ticks.items)
            (groups dealt.1.items.items)) }
    {
        if self.shards.len() == 1 {
            return self.deal_alone(&OpenGate);
        }
        if self.is_idle() {
            return Ok(self.unchanged(alloc));
        }
        laws_of_phases(&self.machine);
        dones_in_order::<ShardWork<S>>();
        let dones = run_alone(alloc, self.pieces(alloc)?, &OpenGate)?;
        end_phase(alloc, dones)
    }
}

/// Tells the gate of each of `shards` shards, one after another, as a phase without work does.
pub fn tell_of_each<G: Gate>(shards: usize, gate: &G) {
    for shard in 0..shards {
        gate.begin(shard);
    }
}

/// Whether no key in these shards is due at the moment in ms, or the phase has no tick.
pub fn are_idle<S: KeyShard>(now: u64, ticks: bool, shards: &[S]) -> bool
    ensures { IsTrue result → AllByRecursion (λ shard.
        IsIdle S.Machine.Key.cmp (S.Machine.machine (S.machine shard)) tick_at now ticks
        (S.held shard)) shards.now }
{
    match shards {
        [] => true,
        [shard, others @ ..] => shard.is_idle(now, ticks) && are_idle(now, ticks, others),
    }
}

// Whether no shard has an item.
fn have_no_items<K, I>(parts: &[Vec<Item<K, I>>]) -> bool
    ensures { IsTrue result → AllByRecursion (λ part. part.items ≡ []) parts.now }
{
    match parts {
        [] => true,
        [part, others @ ..] => part.is_empty() && have_no_items(others),
    }
}

// Ends a phase whose pieces have run. Gives the shards, in order, and the outputs, in the order of
// keys and of places. `NoMemory`: the shards are lost.
fn end_phase<S: KeyShard>(
    alloc: Global,
    dones: Vec<(usize, Result<ShardDone<S>, ShardFault>)>,
) -> Result<
    (
        Vec<S>,
        PhaseOutputs<<S::Machine as StateMachine>::Key, <S::Machine as StateMachine>::Output>,
    ),
    NoMemory,
>
where
    S: Drop,
    requires { IsDistinct nat_eq (map (λ done. done.0) dones.items) }
    ensures { IfOk result (λ dealt. IsEnded S.Machine.Key.cmp (λ dealt. dealt.shard)
        (λ dealt. groups dealt.replies.ticks.items) (λ dealt. groups dealt.replies.items.items)
        dones.items dealt.0.items (groups dealt.1.ticks.items) (groups dealt.1.items.items)) }
{
    let (shards, replies) = into_parts(alloc, gather(alloc, dones)?)?;
    Ok((shards, replies.in_order()))
}

// The shards, and all outputs, one shard after another.
fn into_parts<S: KeyShard>(
    alloc: Global,
    dones: Vec<Result<ShardDone<S>, ShardFault>>,
) -> Result<
    (
        Vec<S>,
        PhaseOutputs<<S::Machine as StateMachine>::Key, <S::Machine as StateMachine>::Output>,
    ),
    NoMemory,
>
where
    S: Drop,
    ensures { IfOk result (λ all. IsApart (λ dealt. dealt.shard)
        (λ dealt. groups dealt.replies.ticks.items)
        (λ dealt. groups dealt.replies.items.items) dones.items all.0.items
        (groups all.1.ticks.items) (groups all.1.items.items)) }
{
    let mut shards = Vec::with_capacity(alloc, dones.len())?;
    let mut ticks = Vec::new(alloc);
    let mut items = Vec::new(alloc);
    for done in dones {
        let Ok(ShardDone { shard, mut replies }) = done else {
            return Err(NoMemory);
        };
        shards.push(shard)?;
        ticks.append(&mut replies.ticks)?;
        items.append(&mut replies.items)?;
    }
    Ok((shards, PhaseOutputs { ticks, items }))
}

/// Deals with a phase on up to `workers` workers. Gives the shards back, in order, and the outputs,
/// in the order of keys and of places. The gate is told of each shard as its part begins.
///
/// # Errors
///
/// `NoMemory`; then the shards are lost.
pub fn deal_phase<R: Threads + Sync, S: KeyShard + Drop + Send, G: Gate>(
    rt: &R,
    alloc: Global,
    phase: Phase<S>,
    workers: usize,
    gate: &G,
) -> Result<
    (
        Vec<S>,
        PhaseOutputs<<S::Machine as StateMachine>::Key, <S::Machine as StateMachine>::Output>,
    ),
    NoMemory,
>
where
    S::Machine: Copy + Send,
    <S::Machine as StateMachine>::Key: Send,
    <S::Machine as StateMachine>::State: Send,
    <S::Machine as StateMachine>::Input: Send,
    <S::Machine as StateMachine>::Output: Send,
    requires some { 0 < workers }
    requires most { workers ≤ 64 }
    requires alike { AllByRecursion (λ shard. S.machine shard ≡ phase.machine) phase.shards.items }
    ensures count { IfOk result (λ dealt. length dealt.0.items ≡ length phase.shards.items) }
    ensures alike { IfOk result (λ dealt.
        AllByRecursion (λ shard. S.machine shard ≡ phase.machine) dealt.0.items) }
    ensures dealt { IfOk result (λ dealt. DealsParts S.Machine.Key.cmp
        (S.Machine.machine phase.machine) tick_at phase.moment phase.ticks
        (map (λ part. part.items) phase.parts.items) (map S.held phase.shards.items)
        (map S.held dealt.0.items) (groups dealt.1.ticks.items)
        (groups dealt.1.items.items)) }
{
    if phase.shards.len() == 1 {
        return phase.deal_alone(gate);
    }
    if workers == 1 && phase.is_idle() {
        tell_of_each(phase.shards.len(), gate);
        return Ok(phase.unchanged(alloc));
    }
    laws_of_phases(&phase.machine);
    dones_in_order::<ShardWork<S>>();
    let dones = run_pieces(rt, alloc, phase.pieces(alloc)?, workers, gate)?;
    end_phase(alloc, dones)
}
