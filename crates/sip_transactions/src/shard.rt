//! A shard: the transactions of some keys.

ghost use Rattle.std.specs.Prelude.{◌≡◌, ◌≤◌, ◌^◌, [], ◌∷◌, List, Some, None, length, count_by, option_map, is_some, true, false, IfOk, OnErr};
ghost use Rattle.keyed_machine.specs.Table.{state_at, entries_of, Covers, StepsKey, StepsAll};
ghost use Rattle.keyed_machine.specs.History.{AddsInput, AddsInputs};
ghost use Rattle.sip_message.specs.Key.{key_cmp};
ghost use Rattle.sip_message.specs.declared.key.Key.{Key};
ghost use Rattle.sip_message.specs.MessageKey.{key_of_message};
ghost use Rattle.sip_transactions.specs.Machine.{transaction_machine};
ghost use Rattle.keyed_machine.specs.Machine.{tick_at};

use crate::input::{Command, Input};
use crate::life::Life;
use crate::machine::Transactions;
use crate::matching::keyed_input;
use crate::output::{DropReason, Out};
use crate::state::State;
use keyed_machine::{ComparableShard, Item, KeyShard, PhaseOutputs, ShardFault, Table};
use seeded_hash::HashSeed;
use sip_message::{Addr, Id, Message, SharedKey};
use std::alloc::{AllocError, Global};
use std::collections::HashMap;
use std::marker::Model;

/// The transactions of some keys.
///
/// After a call returned [`ShardFault::NoMemory`] the shard is broken: it holds nothing, and every
/// call that can fail returns [`ShardFault::Broken`].
#[derive(Drop)]
pub struct Shard {
    alloc: Global,
    local: Addr,
    table: Table<Transactions>,
}

impl Model for Shard {
    ghost use Rattle.sip_transactions.specs.Shard.{Lives};

    ghost Value = { Lives };

    ghost view = { λ s. record { local = s.local; held = s.table } };
}

impl Shard {
    ghost use Rattle.sip_transactions.specs.Steps.Life.{state_of};
    ghost use Rattle.sip_transactions.specs.Shard.{Lives, life_at, is_stray, receipt, failed_send, command_key, order};

    /// A shard without transactions, of the agent at the address `local`. Its hashes have the seed
    /// that everyone knows: [`Shard::with_hash_seed`] is for keys that a peer chooses. Takes no
    /// memory.
    pub fn new(alloc: Global, local: Addr) -> Self
        ensures { result ≡ record { local = local; held = Some [] } }
    {
        Shard::with_hash_seed(alloc, local, HashSeed::known())
    }

    /// A shard without transactions, of the agent at the address `local`, with the seed of its
    /// hashes. Takes no memory.
    pub fn with_hash_seed(alloc: Global, local: Addr, hash_seed: HashSeed) -> Self
        ensures { result ≡ record { local = local; held = Some [] } }
    {
        Shard {
            alloc,
            local,
            table: Table::new(alloc, hash_seed),
        }
    }

    /// How many transactions are held.
    pub fn live(&self) -> usize
        ensures entries { result ≡ length (entries_of self.now.held) }
        ensures counts { (keys : List Key) → Covers key_cmp keys (life_at self.now)
            → result ≡ count_by (λ key. is_some (life_at self.now key)) keys }
    {
        self.table.live()
    }

    /// The state of a transaction, if it has one.
    pub fn state_of(&self, key: &SharedKey) -> Option<State>
        ensures { result ≡ state_of (life_at self.now key.now) }
    {
        self.table.state(key).map(|life| life.state)
    }

    /// Gives the moment, in milliseconds, to every transaction, in key order. At most one timer of
    /// each fires.
    pub fn tick(&mut self, now: u64) -> Result<Vec<Out>, ShardFault>
        requires { now ≤ 2 ^ 62 }
        ensures local { self.new.local ≡ self.old.local }
        ensures broken { self.old.held ≡ None → result ≡ Err ShardFault.Broken }
        ensures only_broken { result ≡ Err ShardFault.Broken → self.old.held ≡ None }
        ensures err { OnErr result (self.new.held ≡ None) }
        ensures step { IfOk result (λ outs.
            StepsAll key_cmp transaction_machine self.old.held self.new.held
            (tick_at now) outs.items) }
        ensures histories { IfOk result
            (λ outs. AddsInputs key_cmp transaction_machine self.old.held self.new.held
            (tick_at now) outs.items) }
    {
        self.table.tick(&Transactions, now)
    }

    /// Takes a message that came: a request that is stamped with its source, with the address of
    /// its answers; or a response.
    pub fn receive(
        &mut self,
        id: Id,
        message: Message,
        reply_to: Addr,
        now: u64,
    ) -> Result<Vec<Out>, ShardFault>
        requires { now ≤ 2 ^ 62 }
        ensures local { self.new.local ≡ self.old.local }
        ensures broken { self.old.held ≡ None → result ≡ Err ShardFault.Broken }
        ensures only_broken { result ≡ Err ShardFault.Broken → self.old.held ≡ None }
        ensures err { OnErr result (self.new.held ≡ None) }

        // A response to another sender is dropped, and is no input.
        ensures stray { is_stray self.old.local message ≡ true
            → IfOk result (λ outs. (outs.items ≡ Out.Dropped id.place DropReason.NotOurs ∷ [])
            × (self.new ≡ self.old)) }
        ensures step { is_stray self.old.local message ≡ false
            → IfOk result (λ outs. StepsKey key_cmp transaction_machine self.old.held self.new.held
            (key_of_message message) (receipt id message reply_to now) outs.items) }
        ensures histories { is_stray self.old.local message ≡ false
            → IfOk result (λ outs. AddsInput key_cmp transaction_machine self.old.held self.new.held
            (key_of_message message) (receipt id message reply_to now) outs.items) }
    {
        let input = keyed_input(self.alloc, self.local, id, message, reply_to);
        match self.table.check(input)? {
            None => self.table.check(not_ours(self.alloc, id)),
            Some((key, input)) => self.table.handle(&Transactions, key, now, input),
        }
    }

    /// Takes the user's command for a transaction. The id is that of the request that is started or
    /// answered.
    pub fn command(&mut self, id: Id, command: Command, now: u64) -> Result<Vec<Out>, ShardFault>
        requires { now ≤ 2 ^ 62 }
        ensures local { self.new.local ≡ self.old.local }
        ensures broken { self.old.held ≡ None → result ≡ Err ShardFault.Broken }
        ensures only_broken { result ≡ Err ShardFault.Broken → self.old.held ≡ None }
        ensures err { OnErr result (self.new.held ≡ None) }
        ensures step { IfOk result (λ outs.
            StepsKey key_cmp transaction_machine self.old.held self.new.held (command_key command)
            (order id command now) outs.items) }
        ensures histories { IfOk result
            (λ outs. AddsInput key_cmp transaction_machine self.old.held self.new.held
            (command_key command) (order id command now) outs.items) }
    {
        let (key, input) = command.addressed(id);
        self.table.handle(&Transactions, key, now, input)
    }

    /// Tells a transaction that one of its sends failed.
    pub fn failed(&mut self, id: Id, key: &SharedKey, now: u64) -> Result<Vec<Out>, ShardFault>
        requires { now ≤ 2 ^ 62 }
        ensures local { self.new.local ≡ self.old.local }
        ensures broken { self.old.held ≡ None → result ≡ Err ShardFault.Broken }
        ensures only_broken { result ≡ Err ShardFault.Broken → self.old.held ≡ None }
        ensures err { OnErr result (self.new.held ≡ None) }
        ensures step { IfOk result (λ outs.
            StepsKey key_cmp transaction_machine self.old.held self.new.held key.now
            (failed_send id now) outs.items) }
        ensures histories { IfOk result
            (λ outs. AddsInput key_cmp transaction_machine self.old.held self.new.held key.now
            (failed_send id now) outs.items) }
    {
        let key = self.table.check(key.clone())?;
        self.table
            .handle(&Transactions, key, now, Input::Failed { id })
    }
}

impl KeyShard for Shard {
    ghost use Rattle.keyed_machine.specs.Groups.{groups};
    ghost use Rattle.keyed_machine.specs.Phase.{AddsPhase, phase_at};

    type Machine = Transactions;

    ghost machine = { λ _. record {} };

    ghost held = { λ shard. shard.held };

    fn live(&self) -> usize {
        self.table.live()
    }

    fn next_due(&self) -> Option<u64> {
        self.table.next_due(&Transactions)
    }

    fn is_idle(&self, now: u64, ticks: bool) -> bool {
        self.table.is_idle(&Transactions, now, ticks)
    }

    fn deal(
        &mut self,
        now: u64,
        ticks: bool,
        items: Vec<Item<SharedKey, Input>>,
    ) -> Result<PhaseOutputs<SharedKey, Out>, ShardFault>
        requires { now ≤ 2 ^ 62 }
        ensures broken { self.old.held ≡ None → result ≡ Err ShardFault.Broken }
        ensures only_broken { result ≡ Err ShardFault.Broken → self.old.held ≡ None }
        ensures err { OnErr result (self.new.held ≡ None) }
        ensures phases { IfOk result (λ replies. AddsPhase key_cmp transaction_machine tick_at
            self.old.held self.new.held (phase_at now ticks items.items)
            (groups replies.ticks.items) (groups replies.items.items)) }
    {
        self.table.deal(&Transactions, now, ticks, items)
    }

    fn put(&mut self, key: SharedKey, state: Life) -> Result<(), ShardFault> {
        self.table.put(&Transactions, key, state)
    }

    fn into_states(self) -> Option<HashMap<SharedKey, Life, HashSeed>> {
        let Shard {
            alloc: _,
            local: _,
            table,
        } = self;
        table.into_states()
    }
}

impl ComparableShard for Shard {
    fn holds_the_same(&self, other: &Shard) -> bool {
        self.table.holds_the_same(&Transactions, &other.table)
    }
}

fn not_ours(alloc: Global, id: Id) -> Result<Vec<Out>, AllocError>
    ensures { IfOk result (λ outs. outs.items ≡ Out.Dropped id.place DropReason.NotOurs ∷ []) }
{
    let mut outputs = Vec::new(alloc);
    outputs.push(Out::Dropped {
        place: id.place,
        reason: DropReason::NotOurs,
    })?;
    Ok(outputs)
}
