//! The work of one shard in a phase.

ghost use Rattle.std.specs.Prelude.{◌≡◌, ◌≤◌, ◌^◌, IfOk};
ghost use Rattle.keyed_machine.specs.Phase.{AddsPhase, phase_at};
ghost use Rattle.keyed_machine.specs.Groups.{groups};
ghost use Rattle.keyed_machine.specs.Machine.{tick_at};

use keyed_machine::{Item, KeyShard, PhaseOutputs, ShardFault, StateMachine};
use sip_workers::Job;

/// A shard, and its part of a phase.
#[derive(Drop)]
pub struct ShardWork<S: KeyShard> {
    pub(crate) shard: S,
    pub(crate) now: u64,
    pub(crate) ticks: bool,
    pub(crate) items: Vec<
        Item<<S::Machine as StateMachine>::Key, <S::Machine as StateMachine>::Input>,
    >,
    ghost in_bounds: { now ≤ 2 ^ 62 },
}

/// A shard after a phase, and its outputs.
#[derive(Drop)]
pub struct ShardDone<S: KeyShard> {
    pub(crate) shard: S,
    pub(crate) replies: PhaseOutputs<
        <S::Machine as StateMachine>::Key,
        <S::Machine as StateMachine>::Output,
    >,
}

impl<S: KeyShard + Drop> Job for ShardWork<S> {
    type Done = Result<ShardDone<S>, ShardFault>;

    ghost gives = { λ job done. IfOk done (λ dealt.
        (S.machine dealt.shard ≡ S.machine job.shard)
        × AddsPhase S.Machine.Key.cmp (S.Machine.machine (S.machine job.shard)) tick_at
        (S.held job.shard) (S.held dealt.shard) (phase_at job.now job.ticks job.items.items)
        (groups dealt.replies.ticks.items) (groups dealt.replies.items.items)) };

    fn run(self) -> Result<ShardDone<S>, ShardFault> {
        let ShardWork {
            mut shard,
            now,
            ticks,
            items,
        } = self;
        let replies = shard.deal(now, ticks, items)?;
        Ok(ShardDone { shard, replies })
    }
}
