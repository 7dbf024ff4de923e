//! What an event means for the transactions and calls: its input is set out, and the rest waits.

ghost use Rattle.std.specs.Prelude.{◌≡◌, ◌++◌, IfOk, OnOk};
ghost use Rattle.sip_reader.specs.ReadMessage.{Gives, message_at};
ghost use Rattle.sip_round.specs.Arrivals as arrival;
ghost use Rattle.sip_round.specs.Arrivals.{arrival_of, datagram_arrival, message_arrival};
ghost use Rattle.sip_round.specs.Phases.{transaction_item};
ghost use Rattle.sip_round.specs.Steps.Waiting.{waiting_of};

use crate::round::Event;
use crate::waiting::Waiting;
use keyed_machine::Item;
use sip_message::{Addr, Id, Message, ReadFault, SharedKey, stamp_source};
use sip_reader::read;
use sip_transactions::{DropReason, Input, keyed_input};
use std::alloc::{AllocError, Global};

/// Sets out the event with this id, its datagram read and stamped. The input of a transaction is
/// put at the end of the items. Gives what is left of the event.
#[tactic(auto, unfolding(crate::specs::Arrivals::arrival_of))]
pub(crate) fn set_out_event(
    alloc: Global,
    local: Addr,
    id: Id,
    event: &Event,
    items: &mut Vec<Item<SharedKey, Input>>,
) -> Result<Waiting, AllocError>
    ensures items { OnOk result (items.new.items ≡ items.old.items
        ++ transaction_item id (arrival_of local id event.now)) }
    ensures left { IfOk result (λ left. left ≡ waiting_of (arrival_of local id event.now)) }
{
    match event {
        Event::Datagram { from, bytes } => {
            set_out_datagram(alloc, local, id, *from, bytes.as_slice(), items)
        }
        Event::Failed(key) => set_out(id, key.clone()?, Input::Failed { id }, items),
        Event::Command(command) => Ok(Waiting::User(command.clone()?)),
    }
}

fn set_out_datagram(
    alloc: Global,
    local: Addr,
    id: Id,
    from: Addr,
    bytes: &[u8],
    items: &mut Vec<Item<SharedKey, Input>>,
) -> Result<Waiting, AllocError>
    ensures items { OnOk result (items.new.items ≡ items.old.items
        ++ transaction_item id (datagram_arrival local id from (message_at bytes.now))) }
    ensures left { IfOk result (λ left. left
        ≡ waiting_of (datagram_arrival local id from (message_at bytes.now))) }
{
    match read_datagram(alloc, bytes) {
        Ok(message) => set_out_message(alloc, local, id, from, message, items),
        Err(ReadFault::NoMemory) => Err(AllocError),
        Err(fault) => Ok(Waiting::Dropped(DropReason::Unreadable(fault))),
    }
}

fn read_datagram(alloc: Global, bytes: &[u8]) -> Result<Message, ReadFault>
    ensures { Gives result (message_at bytes.now) }
{
    read(alloc, bytes)
}

// Only a request is stamped with its source.
#[tactic(auto, unfolding(crate::specs::Arrivals::message_arrival))]
fn set_out_message(
    alloc: Global,
    local: Addr,
    id: Id,
    from: Addr,
    mut message: Message,
    items: &mut Vec<Item<SharedKey, Input>>,
) -> Result<Waiting, AllocError>
    ensures items { OnOk result (items.new.items ≡ items.old.items
        ++ transaction_item id (message_arrival local id from message)) }
    ensures left { IfOk result (λ left. left
        ≡ waiting_of (message_arrival local id from message)) }
{
    let reply_to = if message.is_request() {
        stamp_source(alloc, &mut message, from)?
    } else {
        from
    };
    match keyed_input(alloc, local, id, message, reply_to)? {
        None => Ok(Waiting::Dropped(DropReason::NotOurs)),
        Some((key, input)) => set_out(id, key, input, items),
    }
}

// Sets out an input for the transaction with its key, at the place of its event.
fn set_out(
    id: Id,
    key: SharedKey,
    input: Input,
    items: &mut Vec<Item<SharedKey, Input>>,
) -> Result<Waiting, AllocError>
    ensures items { OnOk result (items.new.items ≡ items.old.items
        ++ transaction_item id (arrival.Transaction key input)) }
    ensures left { IfOk result (λ left. left ≡ waiting_of (arrival.Transaction key input)) }
{
    let place = id.place as usize;
    items.push(Item { place, key, input })?;
    Ok(Waiting::Transaction)
}
