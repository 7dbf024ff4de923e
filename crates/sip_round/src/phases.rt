//! How a round begins, and how its three phases begin and end.

ghost use Rattle.std.specs.Prelude.{◌≡◌, ◌<◌, ◌≤◌, ◌++◌, ℕ, List, IfOk, OnOk, map, vec_len};
ghost use Rattle.sip_calls.specs.Call.{call_machine};
ghost use Rattle.sip_calls.specs.CallShard.{call_cmp};
ghost use Rattle.sip_calls.specs.declared.call.Call.{Call};
ghost use Rattle.sip_message.specs.Key.{branch_in, key_cmp};
ghost use Rattle.sip_message.specs.declared.id.Id.{Id as AnId};
ghost use Rattle.sip_message.specs.declared.key.Key.{Key as AKey};
ghost use Rattle.keyed_machine.specs.Groups.{groups};
ghost use Rattle.keyed_machine.specs.Machine.{tick_at};
ghost use Rattle.keyed_machine.specs.Table.{Held};
ghost use Rattle.sip_transactions.specs.Machine.{transaction_machine};
ghost use Rattle.sip_transactions.specs.declared.life.Life.{Life};
ghost use Rattle.sip_round.specs.Arrivals.{Arrival as AnArrival};
ghost use Rattle.sip_round.specs.declared.output.PlacedOutput.{PlacedOutput};
ghost use Rattle.sip_shards.specs.Parts.{cut_by, owner_of};
ghost use Rattle.sip_round.specs.Phases as phase;
ghost use Rattle.sip_shards.specs.AllShards.{DealsAll};
ghost use Rattle.sip_round.specs.Steps.Arrived.{ArePlaced};
ghost use Rattle.sip_round.specs.Steps.Form.{ArePlacesOf, in_form};
ghost use Rattle.sip_round.specs.Steps.Led.{LedFirst, LedSecond, LedThird};
ghost use Rattle.sip_round.specs.Steps.Waiting.{all_waiting};

use crate::form::Form;
use crate::outs::{part_items, part_ticks, send_all};
use crate::shards::Shards;
use crate::waiting::{Waiting, first_outputs};
use keyed_machine::{self as model, PhaseOutputs, laws_of_phases};
use sip_calls::Calls;
use sip_message::{CallId, Cut, Id, SharedKey};
use sip_shards::{empty_parts, put};
use sip_transactions::{Command, Input, Out, Transactions};
use sip_user::{CallOut, Item};
use sip_workers::NoMemory;
use std::alloc::{AllocError, Global};

/// A round with this number that has begun: its shards, the part of each in what arrived, and what
/// waits until the transactions have spoken.
#[derive(Drop)]
pub(crate) struct Begun {
    pub(crate) alloc: Global,
    pub(crate) calls: Calls,
    pub(crate) number: u64,
    pub(crate) shards: Shards,
    pub(crate) parts: Vec<Vec<model::Item<SharedKey, Input>>>,
    pub(crate) waiting: Vec<(Id, Waiting)>,
}

/// Ends the first phase of the round with this number. Gives the outputs, and the items of the
/// calls.
pub(crate) fn end_first<F: Form>(
    alloc: Global,
    number: u64,
    replies: PhaseOutputs<SharedKey, Out>,
    waiting: Vec<(Id, Waiting)>,
) -> Result<(Vec<F>, Vec<(Id, Item)>), NoMemory>
    ensures { IfOk result (λ both. (outputs : List PlacedOutput)
        × (both.0.items ≡ in_form F.form outputs)
        × ((owner : AKey → ℕ) (old new : List (Held AKey Life)) (now : ℕ)
        (arrivals : List (AnId × AnArrival))
        → ArePlaced 1 arrivals → waiting.items ≡ all_waiting arrivals
        → DealsAll key_cmp transaction_machine tick_at owner old new
        (phase.first_phase now arrivals) (groups replies.ticks.items) (groups replies.items.items)
        → LedFirst owner old new number now arrivals outputs both.1.items)) }
{
    laws_of_phases(&Transactions);
    Ok(first_outputs(alloc, number, replies, waiting)?)
}

/// Begins the second phase: puts each item for its call into the part of that call's shard. Also
/// gives what has to be kept of the places of the items.
pub(crate) fn begin_second<F: Form, C: Cut>(
    alloc: Global,
    cut: &C,
    items: Vec<(Id, Item)>,
    shards: usize,
) -> Result<(Vec<Vec<model::Item<CallId, (Id, Item)>>>, F::Places), AllocError>
    requires some { 0 < shards }
    requires most { shards ≤ 256 }
    ensures count { IfOk result (λ both. vec_len both.0 ≡ shards) }
    ensures parts { IfOk result (λ both. map (λ part. part.items) both.0.items
        ≡ cut_by (owner_of (C.shard_of cut.now) (λ call_id. call_id) shards) 0 shards
        (phase.call_items 0 items.items)) }
    ensures places { IfOk result (λ both. ArePlacesOf F.form F.place_at items.items both.1) }
{
    let places = F::places_of(alloc, items.as_slice())?;
    let mut parts = empty_parts(alloc, shards, items.len())?;
    let mut place = 0;
    for (id, item) in items {
        let key = item.call_id().clone()?;
        let input = (id, item);
        put(cut, shards, &mut parts, model::Item { place, key, input })?;
        place += 1;
    }
    Ok((parts, places))
}

/// Ends the second phase: puts notices and direct sends behind the outputs. Gives the commands of
/// the third phase.
pub(crate) fn end_second<F: Form>(
    alloc: Global,
    replies: PhaseOutputs<CallId, CallOut>,
    places: &F::Places,
    outputs: &mut Vec<F>,
) -> Result<Vec<(Id, Command)>, AllocError>
    ensures { IfOk result (λ commands. (items : List (AnId × Item))
        → ArePlacesOf F.form F.place_at items places.now
        → (reported : List PlacedOutput)
        × (outputs.new.items ≡ outputs.old.items ++ in_form F.form reported)
        × ((calls : Calls) (owner : List ℕ → ℕ) (old new : List (Held (List ℕ) Call)) (now : ℕ)
        → DealsAll call_cmp (call_machine calls) tick_at owner old new
        (phase.second_phase now items) (groups replies.ticks.items) (groups replies.items.items)
        → LedSecond calls owner old new now items reported commands.items)) }
{
    let PhaseOutputs { ticks, items } = replies;
    let mut commands = Vec::new(alloc);
    part_ticks(ticks, outputs, &mut commands)?;
    part_items(items, places, outputs, &mut commands)?;
    Ok(commands)
}

/// Begins the third phase: puts each command for its transaction into the part of that
/// transaction's shard.
pub(crate) fn begin_third<C: Cut>(
    alloc: Global,
    cut: &C,
    commands: Vec<(Id, Command)>,
    shards: usize,
) -> Result<Vec<Vec<model::Item<SharedKey, Input>>>, AllocError>
    requires some { 0 < shards }
    requires most { shards ≤ 256 }
    ensures count { IfOk result (λ parts. vec_len parts ≡ shards) }
    ensures parts { IfOk result (λ parts. map (λ part. part.items) parts.items
        ≡ cut_by (owner_of (C.shard_of cut.now) branch_in shards) 0 shards
        (phase.command_items 0 commands.items)) }
{
    let mut parts = empty_parts(alloc, shards, commands.len())?;
    let mut place = 0;
    for (id, command) in commands {
        let (key, input) = command.addressed(id);
        put(cut, shards, &mut parts, model::Item { place, key, input })?;
        place += 1;
    }
    Ok(parts)
}

/// Ends the third phase: puts what the transactions send behind the outputs.
pub(crate) fn end_third<F: Form>(
    replies: PhaseOutputs<SharedKey, Out>,
    outputs: &mut Vec<F>,
) -> Result<(), NoMemory>
    ensures { OnOk result ((sent : List PlacedOutput)
        × (outputs.new.items ≡ outputs.old.items ++ in_form F.form sent)
        × ((owner : AKey → ℕ) (old new : List (Held AKey Life)) (now : ℕ)
        (commands : List (AnId × Command))
        → DealsAll key_cmp transaction_machine tick_at owner old new
        (phase.third_phase now commands) (groups replies.ticks.items) (groups replies.items.items)
        → LedThird owner old new now commands sent)) }
{
    let PhaseOutputs { ticks, items } = replies;
    send_all(ticks, outputs)?;
    Ok(send_all(items, outputs)?)
}
