//! What transactions and calls say: outputs of the round, or something for its next phase.

ghost use Rattle.std.specs.Prelude.{◌≡◌, ◌++◌, OnOk, option_to_list};
ghost use Rattle.std.specs.List.{flat_map};
ghost use Rattle.keyed_machine.specs.Groups.{groups};
ghost use Rattle.sip_round.specs.Outputs.{command_of, raised_of, sent_of};
ghost use Rattle.sip_round.specs.Steps.Form.{sent_as, call_outputs_as};

use crate::form::Form;
use crate::output::Output;
use sip_message::Id;
use sip_transactions::{Command, Out};
use sip_user::{CallOut, Item};
use std::alloc::AllocError;

/// What transactions say. Sends and drops go out with the place of this id; what is handed up
/// becomes an item with this id.
pub(crate) fn part<F: Form>(
    outs: Vec<Out>,
    id: Id,
    outputs: &mut Vec<F>,
    items: &mut Vec<(Id, Item)>,
) -> Result<(), AllocError>
    ensures outputs { OnOk result (outputs.new.items ≡ outputs.old.items
        ++ flat_map (sent_as F.form id.place) outs.items) }
    ensures items { OnOk result (items.new.items ≡ items.old.items
        ++ flat_map (raised_of id) outs.items) }
{
    for out in outs {
        put(out, id, outputs, items)?;
    }
    Ok(())
}

/// What groups of transactions say, each treated as in [`part`].
pub(crate) fn part_all<F: Form, L: Drop>(
    told: Vec<(L, Vec<Out>)>,
    id: Id,
    outputs: &mut Vec<F>,
    items: &mut Vec<(Id, Item)>,
) -> Result<(), AllocError>
    ensures outputs { OnOk result (outputs.new.items ≡ outputs.old.items
        ++ flat_map (λ group. flat_map (sent_as F.form id.place) group.1)
        (groups told.items)) }
    ensures items { OnOk result (items.new.items ≡ items.old.items
        ++ flat_map (λ group. flat_map (raised_of id) group.1) (groups told.items)) }
{
    for (_, outs) in told {
        part(outs, id, outputs, items)?;
    }
    Ok(())
}

// One thing that a transaction says.
fn put<F: Form>(
    out: Out,
    id: Id,
    outputs: &mut Vec<F>,
    items: &mut Vec<(Id, Item)>,
) -> Result<(), AllocError>
    ensures outputs { OnOk result (outputs.new.items ≡ outputs.old.items
        ++ sent_as F.form id.place out) }
    ensures items { OnOk result (items.new.items ≡ items.old.items ++ raised_of id out) }
{
    match out {
        Out::Up(up) => items.push((id, Item::Up(up)))?,
        Out::Send { key, to, bytes } => {
            let key = Some(key);
            F::push(outputs, id.place, Output::Send { key, to, bytes })?;
        }
        Out::Dropped { place, reason } => {
            F::push(outputs, id.place, Output::Dropped { place, reason })?;
        }
    }
    Ok(())
}

/// What transactions say to commands, one group after another: sends go out, with place 0. A
/// command hands nothing up.
pub(crate) fn send_all<F: Form, L: Drop>(
    told: Vec<(L, Vec<Out>)>,
    outputs: &mut Vec<F>,
) -> Result<(), AllocError>
    ensures { OnOk result (outputs.new.items ≡ outputs.old.items
        ++ flat_map (λ group. flat_map (sent_as F.form 0) group.1) (groups told.items)) }
{
    for (_, outs) in told {
        send(outs, outputs)?;
    }
    Ok(())
}

fn send<F: Form>(outs: Vec<Out>, outputs: &mut Vec<F>) -> Result<(), AllocError>
    ensures { OnOk result (outputs.new.items ≡ outputs.old.items
        ++ flat_map (sent_as F.form 0) outs.items) }
{
    for out in outs {
        if let Some(output) = sent(out) {
            F::push(outputs, 0, output)?;
        }
    }
    Ok(())
}

// The output that leaves the agent, if it is one.
fn sent(out: Out) -> Option<Output>
    ensures { option_to_list result ≡ sent_of out }
{
    match out {
        Out::Up(_) => None,
        Out::Send { key, to, bytes } => {
            let key = Some(key);
            Some(Output::Send { key, to, bytes })
        }
        Out::Dropped { place, reason } => Some(Output::Dropped { place, reason }),
    }
}

/// What calls say to the tick, one group after another: notices and direct sends go out, with place
/// 0, and commands wait for the third phase.
pub(crate) fn part_ticks<F: Form, L: Drop>(
    told: Vec<(L, Vec<CallOut>)>,
    outputs: &mut Vec<F>,
    commands: &mut Vec<(Id, Command)>,
) -> Result<(), AllocError>
    ensures outputs { OnOk result (outputs.new.items ≡ outputs.old.items
        ++ flat_map (λ group. flat_map (call_outputs_as F.form 0) group.1) (groups told.items)) }
    ensures commands { OnOk result (commands.new.items ≡ commands.old.items
        ++ flat_map (λ group. flat_map command_of group.1) (groups told.items)) }
{
    for (_, outs) in told {
        part_call(outs, 0, outputs, commands)?;
    }
    Ok(())
}

/// What calls say to their items, by index: the same, with the places that were kept for the items.
pub(crate) fn part_items<F: Form>(
    told: Vec<(usize, Vec<CallOut>)>,
    places: &F::Places,
    outputs: &mut Vec<F>,
    commands: &mut Vec<(Id, Command)>,
) -> Result<(), AllocError>
    ensures outputs { OnOk result (outputs.new.items ≡ outputs.old.items
        ++ flat_map (λ group. flat_map (call_outputs_as F.form (F.place_at places.now group.0)) group.1)
        (groups told.items)) }
    ensures commands { OnOk result (commands.new.items ≡ commands.old.items
        ++ flat_map (λ group. flat_map command_of group.1) (groups told.items)) }
{
    for (index, outs) in told {
        part_call(outs, F::place(places, index), outputs, commands)?;
    }
    Ok(())
}

fn part_call<F: Form>(
    outs: Vec<CallOut>,
    place: u32,
    outputs: &mut Vec<F>,
    commands: &mut Vec<(Id, Command)>,
) -> Result<(), AllocError>
    ensures outputs { OnOk result (outputs.new.items ≡ outputs.old.items
        ++ flat_map (call_outputs_as F.form place) outs.items) }
    ensures commands { OnOk result
        (commands.new.items ≡ commands.old.items ++ flat_map command_of outs.items) }
{
    for out in outs {
        match out {
            CallOut::Notice(notice) => F::push(outputs, place, Output::Notice(notice))?,
            CallOut::Command(id, command) => commands.push((id, command))?,
            CallOut::Direct { to, bytes } => {
                let key = None;
                F::push(outputs, place, Output::Send { key, to, bytes })?;
            }
        }
    }
    Ok(())
}
