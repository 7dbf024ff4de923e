//! The events of a round: the inputs of transactions, and what waits until these have spoken.

ghost use Rattle.std.specs.Prelude.{◌≡◌, ◌≤◌, ◌+◌, ◌++◌, IfOk, OnOk, length};
ghost use Rattle.std.specs.List.{flat_map};
ghost use Rattle.std.specs.Vec.Iter.{into_iter_items};
ghost use Rattle.keyed_machine.specs.Groups.{groups};
ghost use Rattle.sip_round.specs.Arrivals.{arrivals_from};
ghost use Rattle.sip_round.specs.Outputs.{joined, raised_of};
ghost use Rattle.sip_round.specs.Steps.Form.{sent_as};
ghost use Rattle.sip_round.specs.Steps.SetOut.{IsSetOut};
ghost use Rattle.sip_round.specs.Steps.Waiting.{items_waiting, outs_next, said_rest, by_event};

use crate::arrival::set_out_event;
use crate::form::Form;
use crate::output::Output;
use crate::outs::{part, part_all};
use crate::round::Event;
use keyed_machine::{self as model, PhaseOutputs};
use sip_message::{Addr, Id, SharedKey};
use sip_transactions::{DropReason, Input, Out};
use sip_user::{Item, UserCommand};
use std::alloc::{AllocError, Global};
use std::vec::IntoIter;

/// What is left of an arrival after its input was set out.
#[derive(Drop)]
pub(crate) enum Waiting {
    /// Its transaction says what happens.
    Transaction,
    /// It is dropped.
    Dropped(DropReason),
    /// It is an item of a call.
    User(UserCommand),
}

/// Events that were read and stamped.
#[derive(Drop)]
pub(crate) struct SetOut {
    /// The inputs of transactions, by place.
    pub(crate) items: Vec<model::Item<SharedKey, Input>>,
    /// What is left of each event under its id, by place.
    pub(crate) waiting: Vec<(Id, Waiting)>,
}

/// Events of the round with this number, read and stamped; `before` events come before them.
pub(crate) fn set_out(
    alloc: Global,
    local: Addr,
    round: u64,
    before: u32,
    events: &[Event],
) -> Result<SetOut, AllocError>
    requires { before + length events.now ≤ 65536 }
    ensures { IfOk result (IsSetOut (arrivals_from local round (before + 1) events.now)) }
{
    let mut items = Vec::with_capacity(alloc, events.len())?;
    let mut waiting = Vec::with_capacity(alloc, events.len())?;
    let mut place = before;
    for event in events {
        place += 1;
        let id = Id { round, place };
        let left = set_out_event(alloc, local, id, event, &mut items)?;
        waiting.push((id, left))?;
    }
    Ok(SetOut { items, waiting })
}

/// The outputs of the first phase of the round with this number, and the items of the calls: first
/// those of the ticks, and then the others by place.
pub(crate) fn first_outputs<F: Form>(
    alloc: Global,
    round: u64,
    replies: PhaseOutputs<SharedKey, Out>,
    waiting: Vec<(Id, Waiting)>,
) -> Result<(Vec<F>, Vec<(Id, Item)>), AllocError>
    ensures outputs { IfOk result (λ both. both.0.items
        ≡ flat_map (sent_as F.form 0) (joined (groups replies.ticks.items))
        ++ flat_map (λ w. flat_map (sent_as F.form (w.0).place) w.1)
        (by_event waiting.items (groups replies.items.items))) }
    ensures items { IfOk result (λ both. both.1.items
        ≡ flat_map (raised_of (record { round = round; place = 0 }))
        (joined (groups replies.ticks.items))
        ++ flat_map (λ w. flat_map (raised_of w.0) w.1 ++ w.2)
        (by_event waiting.items (groups replies.items.items))) }
{
    let PhaseOutputs { ticks, items: said } = replies;
    let mut outputs = Vec::with_capacity(alloc, waiting.len())?;
    let mut items = Vec::with_capacity(alloc, waiting.len())?;
    part_all(ticks, Id { round, place: 0 }, &mut outputs, &mut items)?;
    put_by_place(waiting, said, &mut outputs, &mut items)?;
    Ok((outputs, items))
}

fn put_by_place<F: Form>(
    waiting: Vec<(Id, Waiting)>,
    said: Vec<(usize, Vec<Out>)>,
    outputs: &mut Vec<F>,
    items: &mut Vec<(Id, Item)>,
) -> Result<(), AllocError>
    ensures outputs { OnOk result (outputs.new.items ≡ outputs.old.items
        ++ flat_map (λ w. flat_map (sent_as F.form (w.0).place) w.1)
        (by_event waiting.items (groups said.items))) }
    ensures items { OnOk result (items.new.items ≡ items.old.items
        ++ flat_map (λ w. flat_map (raised_of w.0) w.1 ++ w.2)
        (by_event waiting.items (groups said.items))) }
{
    let mut said = said.into_iter();
    for (id, left) in waiting {
        put_one(id, left, &mut said, outputs, items)?;
    }
    Ok(())
}

fn put_one<F: Form>(
    id: Id,
    left: Waiting,
    said: &mut IntoIter<(usize, Vec<Out>)>,
    outputs: &mut Vec<F>,
    items: &mut Vec<(Id, Item)>,
) -> Result<(), AllocError>
    ensures said { OnOk result (groups (into_iter_items said.new)
        ≡ said_rest left (groups (into_iter_items said.old))) }
    ensures outputs { OnOk result (outputs.new.items ≡ outputs.old.items
        ++ flat_map (sent_as F.form id.place)
        (outs_next id left (groups (into_iter_items said.old)))) }
    ensures items { OnOk result (items.new.items ≡ items.old.items
        ++ (flat_map (raised_of id) (outs_next id left (groups (into_iter_items said.old)))
        ++ items_waiting id left)) }
{
    match left {
        Waiting::Transaction => {
            if let Some((_, outs)) = said.next() {
                part(outs, id, outputs, items)?;
            }
        }
        Waiting::Dropped(reason) => {
            let place = id.place;
            F::push(outputs, place, Output::Dropped { place, reason })?;
        }
        Waiting::User(command) => items.push((id, Item::User(command)))?,
    }
    Ok(())
}
