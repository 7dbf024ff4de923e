//! When a key in any of several shards is due.

ghost use Rattle.std.specs.Prelude.{◌≡◌, ℕ, Bool, IfSome, IsSome, false, map, true};
ghost use Rattle.std.specs.List.{AllByRecursion};
ghost use Rattle.sip_timers.specs.Queue.{is_due};
ghost use Rattle.sip_shards.specs.AllShards.{IsIdle};
ghost use Rattle.sip_shards.specs.Steps.Dues.{IsDueIn};
ghost use Rattle.keyed_machine.specs.Machine.{tick_at};

use keyed_machine::KeyShard;
use sip_timers::earlier;

/// The first moment, in ms, at which a key in any of these shards is due. Takes no memory.
pub fn next_due_in<S: KeyShard>(shards: &[S]) -> Option<u64>
    ensures before { AllByRecursion (λ shard. IsSome (S.held shard)) shards.now
        → (now : ℕ) (ticks : Bool) → (ticks ≡ true → is_due now result ≡ false) → AllByRecursion
        (λ shard. IsIdle S.Machine.Key.cmp (S.Machine.machine (S.machine shard)) tick_at now ticks
        (S.held shard)) shards.now }
    ensures due { IfSome result (λ due.
        IsDueIn S.Machine.Key.cmp S.Machine.due due (map S.held shards.now)) }
{
    match shards {
        [] => None,
        [shard, others @ ..] => earlier(shard.next_due(), next_due_in(others)),
    }
}
