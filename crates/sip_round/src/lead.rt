//! A round led through its three phases: on several workers, or shard after shard on the calling
//! thread. Only who runs the pieces of a phase differs.

ghost use Rattle.std.specs.Prelude.{◌≡◌, ◌<◌, ◌≤◌, ◌^◌, IfOk, length, map};
ghost use Rattle.std.specs.List.{AllByRecursion};
ghost use Rattle.sip_message.specs.Key.{branch_in};
ghost use Rattle.sip_round.specs.Arrivals.{arrivals_from};
ghost use Rattle.sip_shards.specs.Parts.{owner_of};
ghost use Rattle.sip_round.specs.Steps.Arrived.{IsArrived};
ghost use Rattle.sip_round.specs.Steps.Led.{DealsInForm};

use crate::form::Form;
use crate::phases::{Begun, begin_second, begin_third, end_first, end_second, end_third};
use crate::round::Round;
use crate::shards::Shards;
use sip_message::Cut;
use sip_shards::{Phase, deal_phase};
use sip_transactions::Transactions;
use sip_workers::{Gate, NoMemory};
use std::thread::Threads;

/// Leads a round that has begun through its phases, on up to `workers` workers. The gate is told of
/// each shard in each phase. Gives the shards back, and the outputs.
///
/// # Errors
///
/// `NoMemory`; then the shards are lost.
pub(crate) fn lead<F: Form, R: Threads + Sync, C: Cut, G: Gate>(
    rt: &R,
    cut: &C,
    round: &Round,
    begun: Begun,
    workers: usize,
    gate: &G,
) -> Result<(Shards, Vec<F>), NoMemory>
    requires some { 0 < workers }
    requires most { workers ≤ 64 }
    requires moment { round.now.moment ≤ 2 ^ 62 }
    requires alike { AllByRecursion (λ shard. shard.calls ≡ begun.calls) begun.shards.calls }
    requires arrived { IsArrived (owner_of (C.shard_of cut.now) branch_in
        (length begun.shards.transactions)) (length begun.shards.transactions)
        (arrivals_from begun.calls.local begun.number 1 round.now.events)
        (map (λ part. part.items) begun.parts.items) begun.waiting.items }
    ensures alike { IfOk result
        (λ led. AllByRecursion (λ shard. shard.calls ≡ begun.calls) led.0.calls) }
    ensures deals { IfOk result (λ led. DealsInForm F.form begun.calls (C.shard_of cut.now)
        begun.number round.now begun.shards led.0 led.1.items) }
{
    let Begun {
        alloc,
        calls,
        number,
        shards,
        parts,
        waiting,
    } = begun;
    let moment = round.moment;
    let (lives, held) = shards.into_parts();
    let phase = Phase {
        machine: Transactions,
        shards: lives,
        moment,
        ticks: true,
        parts,
    };
    let (lives, said) = deal_phase(rt, alloc, phase, workers, gate)?;
    let (mut outputs, items) = end_first(alloc, number, said, waiting)?;
    let (parts, places) = begin_second::<F, C>(alloc, cut, items, held.len())?;
    let phase = Phase {
        machine: calls,
        shards: held,
        moment,
        ticks: true,
        parts,
    };
    let (held, said) = deal_phase(rt, alloc, phase, workers, gate)?;
    let commands = end_second(alloc, said, &places, &mut outputs)?;
    let parts = begin_third(alloc, cut, commands, lives.len())?;
    let phase = Phase {
        machine: Transactions,
        shards: lives,
        moment,
        ticks: false,
        parts,
    };
    let (lives, said) = deal_phase(rt, alloc, phase, workers, gate)?;
    end_third(said, &mut outputs)?;
    Ok((Shards::of(lives, held), outputs))
}

/// The same on the calling thread, shard after shard. It starts no thread, and needs no handle.
///
/// # Errors
///
/// As `lead`.
pub(crate) fn lead_in_turn<F: Form, C: Cut>(
    cut: &C,
    round: &Round,
    begun: Begun,
) -> Result<(Shards, Vec<F>), NoMemory>
    requires moment { round.now.moment ≤ 2 ^ 62 }
    requires alike { AllByRecursion (λ shard. shard.calls ≡ begun.calls) begun.shards.calls }
    requires arrived { IsArrived (owner_of (C.shard_of cut.now) branch_in
        (length begun.shards.transactions)) (length begun.shards.transactions)
        (arrivals_from begun.calls.local begun.number 1 round.now.events)
        (map (λ part. part.items) begun.parts.items) begun.waiting.items }
    ensures alike { IfOk result
        (λ led. AllByRecursion (λ shard. shard.calls ≡ begun.calls) led.0.calls) }
    ensures deals { IfOk result (λ led. DealsInForm F.form begun.calls (C.shard_of cut.now)
        begun.number round.now begun.shards led.0 led.1.items) }
{
    let Begun {
        alloc,
        calls,
        number,
        shards,
        parts,
        waiting,
    } = begun;
    let moment = round.moment;
    let (lives, held) = shards.into_parts();
    let phase = Phase {
        machine: Transactions,
        shards: lives,
        moment,
        ticks: true,
        parts,
    };
    let (lives, said) = phase.deal_in_turn(alloc)?;
    let (mut outputs, items) = end_first(alloc, number, said, waiting)?;
    let (parts, places) = begin_second::<F, C>(alloc, cut, items, held.len())?;
    let phase = Phase {
        machine: calls,
        shards: held,
        moment,
        ticks: true,
        parts,
    };
    let (held, said) = phase.deal_in_turn(alloc)?;
    let commands = end_second(alloc, said, &places, &mut outputs)?;
    let parts = begin_third(alloc, cut, commands, lives.len())?;
    let phase = Phase {
        machine: Transactions,
        shards: lives,
        moment,
        ticks: false,
        parts,
    };
    let (lives, said) = phase.deal_in_turn(alloc)?;
    end_third(said, &mut outputs)?;
    Ok((Shards::of(lives, held), outputs))
}
