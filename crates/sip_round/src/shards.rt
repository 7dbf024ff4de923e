//! The shards of an agent.

ghost use Rattle.std.specs.Prelude.{◌≡◌, ◌↔◌, ◌⊎◌, ◌<◌, ◌≤◌, ℕ, Bool, List, Some, [], IfOk, IfSome, IsSome, IsTrue, All, count_by, is_some, length, map, sum_by, true, false, vec_len};
ghost use Rattle.std.specs.List.{AllByRecursion};
ghost use Rattle.sip_calls.specs.Call.{call_due, call_machine, CallItem};
ghost use Rattle.sip_calls.specs.CallShard.{call_cmp};
ghost use Rattle.sip_message.specs.Key.{key_cmp};
ghost use Rattle.sip_message.specs.declared.key.Key.{Key};
ghost use Rattle.keyed_machine.specs.Table.{Covers, state_at};
ghost use Rattle.sip_shards.specs.AllShards.{IsIdle};
ghost use Rattle.sip_shards.specs.Steps.Dues.{IsDueIn};
ghost use Rattle.sip_timers.specs.Queue.{is_due};
ghost use Rattle.sip_transactions.specs.Machine.{life_due, transaction_machine};

use keyed_machine::KeyShard;
use seeded_hash::HashSeed;
use sip_calls::{CallShard, Calls};
use sip_message::{Cut, SharedKey};
use sip_shards::{Named, are_idle, hold_the_same, next_due_in, transfer};
use sip_timers::earlier;
use sip_transactions::{Shard, Transactions};
use sip_workers::NoMemory;
use std::alloc::{AllocError, Global};
use std::marker::Model;

/// The shards of the transactions and of the calls. There are as many of either kind, at least one
/// and at most 256.
pub(crate) struct Shards {
    transactions: Vec<Shard>,
    calls: Vec<CallShard>,
}

impl Model for Shards {
    ghost use Rattle.sip_round.specs.AgentState.{ShardTables, AreShards};

    ghost Value = { ShardTables };

    ghost view = { λ s. record { transactions = s.transactions.items; calls = s.calls.items } };

    ghost invariant = { λ s. AreShards
        (record { transactions = s.transactions.items; calls = s.calls.items }) };
}

impl Drop for Shards {
    fn drop(self) {
        let Shards {
            transactions: _,
            calls: _,
        } = self;
    }
}

impl Shards {
    ghost use Rattle.keyed_machine.specs.Phase.{Phase, states_after};
    ghost use Rattle.sip_round.specs.AgentState.{ShardTables, AreShards, calls_held, lives_held};
    ghost use Rattle.sip_round.specs.Answers.{HoldCalls, HoldTransactions};
    ghost use Rattle.keyed_machine.specs.Machine.{Timed, tick_at};
    ghost use Rattle.sip_transactions.specs.declared.input.Input.{Input};
    ghost use Rattle.sip_round.specs.SameRounds.{ShardsHoldTheSame};

    /// `shards` shards that hold nothing. Their calls share `calls`.
    pub(crate) fn new(alloc: Global, calls: Calls, shards: usize) -> Result<Shards, AllocError>
        requires some { 0 < shards }
        requires most { shards ≤ 256 }
        ensures count { IfOk result (λ made. length made.transactions ≡ shards) }
        ensures transactions { IfOk result
            (λ made. All (λ shard. shard.held ≡ Some []) made.transactions) }
        ensures calls { IfOk result (λ made. All (λ shard. shard.held ≡ Some []) made.calls) }
        ensures alike { IfOk result
            (λ made. AllByRecursion (λ shard. shard.calls ≡ calls) made.calls) }
    {
        let transactions = empty_transactions(alloc, calls, shards)?;
        let calls = empty_calls(alloc, calls, shards)?;
        Ok(Shards {
            transactions,
            calls,
        })
    }

    /// These shards.
    pub(crate) fn of(transactions: Vec<Shard>, calls: Vec<CallShard>) -> Shards
        requires { AreShards (record { transactions = transactions.items; calls = calls.items }) }
        ensures { result ≡ record { transactions = transactions.items; calls = calls.items } }
    {
        Shards {
            transactions,
            calls,
        }
    }

    /// The shards of both kinds.
    pub(crate) fn into_parts(self) -> (Vec<Shard>, Vec<CallShard>)
        ensures shards { record { transactions = result.0.items; calls = result.1.items } ≡ self }
        ensures are { AreShards (record {
          transactions = result.0.items;
          calls = result.1.items;
        }) }
    {
        let Shards {
            transactions,
            calls,
        } = self;
        (transactions, calls)
    }

    /// Moves everything held to other shards, which hold nothing: each key goes to the shard that
    /// the cut names for it.
    ///
    /// # Errors
    ///
    /// `NoMemory`; then what was held is lost.
    pub(crate) fn transfer<C: Cut>(
        self,
        cut: &C,
        calls: &Calls,
        others: Shards,
    ) -> Result<Shards, NoMemory>
        requires transactions { All (λ shard. shard.held ≡ Some []) others.transactions }
        requires calls { All (λ shard. shard.held ≡ Some []) others.calls }
        requires alike { AllByRecursion (λ shard. shard.calls ≡ calls.now) others.calls }
        ensures count { IfOk result (λ moved. length moved.transactions
            ≡ length others.transactions) }
        ensures alike { IfOk result
            (λ moved. AllByRecursion (λ shard. shard.calls ≡ calls.now) moved.calls) }
        ensures transactions { IfOk result (λ moved. (past : List (Phase Key (Timed Input)))
            → HoldTransactions (C.shard_of cut.now) self past
            → HoldTransactions (C.shard_of cut.now) moved past) }
        ensures calls { IfOk result (λ moved. (past : List (Phase (List ℕ) (Timed CallItem)))
            → HoldCalls calls.now (C.shard_of cut.now) self past
            → HoldCalls calls.now (C.shard_of cut.now) moved past) }
    {
        let (transactions, held) = self.into_parts();
        let (other_transactions, others) = others.into_parts();
        let transactions = transfer(cut, &Transactions, transactions, other_transactions)?;
        let calls = transfer(cut, calls, held, others)?;
        Ok(Shards::of(transactions, calls))
    }

    /// How many shards of each kind there are.
    pub(crate) fn count(&self) -> usize
        ensures count { result ≡ length self.now.transactions }
        ensures some { 0 < result }
        ensures few { result ≤ 256 }
    {
        self.transactions.len()
    }

    /// Whether nothing in them is due at the moment in ms. Takes no memory.
    pub(crate) fn are_idle(&self, moment: u64) -> bool
        ensures shards { AreShards self.now }
        ensures first { IsTrue result → AllByRecursion
            (IsIdle key_cmp transaction_machine tick_at moment true) (lives_held self.now) }
        ensures second { IsTrue result → AllByRecursion (λ shard.
            IsIdle call_cmp (call_machine shard.calls) tick_at moment true shard.held)
            self.now.calls }
        ensures third { IsTrue result → AllByRecursion
            (IsIdle key_cmp transaction_machine tick_at moment false) (lives_held self.now) }
    {
        are_idle(moment, true, &self.transactions)
            && are_idle(moment, false, &self.transactions)
            && are_idle(moment, true, &self.calls)
    }

    /// The first moment, in ms, at which something in them is due. Takes no memory.
    pub(crate) fn next_due(&self) -> Option<u64>
        ensures shards { AreShards self.now }
        ensures transactions { AllByRecursion (λ held. IsSome held) (lives_held self.now)
            → (now : ℕ) (ticks : Bool) → (ticks ≡ true → is_due now result ≡ false)
            → AllByRecursion (IsIdle key_cmp transaction_machine tick_at now ticks)
            (lives_held self.now) }
        ensures calls { AllByRecursion (λ held. IsSome held) (calls_held self.now)
            → (now : ℕ) (ticks : Bool) → (ticks ≡ true → is_due now result ≡ false)
            → AllByRecursion (λ shard.
            IsIdle call_cmp (call_machine shard.calls) tick_at now ticks shard.held)
            self.now.calls }
        ensures due { IfSome result (λ due.
            IsDueIn key_cmp life_due due (lives_held self.now)
            ⊎ IsDueIn call_cmp call_due due (calls_held self.now)) }
    {
        earlier(next_due_in(&self.transactions), next_due_in(&self.calls))
    }

    /// Whether a transaction with this key is held. Takes no memory.
    pub(crate) fn holds<C: Cut>(&self, cut: &C, key: &SharedKey) -> bool
        ensures { (past : List (Phase Key (Timed Input)))
            → HoldTransactions (C.shard_of cut.now) self.now past
            → result ≡ is_some (states_after key_cmp transaction_machine tick_at past key.now) }
    {
        let owner = cut.shard(key.name(), self.count());
        match self.transactions.get(owner) {
            Some(shard) => shard.state_of(key).is_some(),
            None => false,
        }
    }

    /// Whether other shards hold, one by one, the same. Takes no memory.
    pub(crate) fn hold_the_same(&self, others: &Shards) -> bool
        ensures shards { AreShards self.now }
        ensures others { AreShards others.now }
        ensures same { IsTrue result ↔ ShardsHoldTheSame self.now others.now }
    {
        hold_the_same(self.transactions.as_slice(), others.transactions.as_slice())
            && hold_the_same(self.calls.as_slice(), others.calls.as_slice())
    }

    /// How many transactions and how many calls are held.
    pub(crate) fn live(&self) -> (u128, u128)
        ensures shards { AreShards self.now }
        ensures transactions { (keys : List Key)
            → All (λ held. Covers key_cmp keys (state_at key_cmp held)) (lives_held self.now)
            → result.0 ≡ sum_by (λ held. count_by
            (λ key. is_some (state_at key_cmp held key)) keys) (lives_held self.now) }
        ensures calls { (keys : List (List ℕ))
            → All (λ held. Covers call_cmp keys (state_at call_cmp held)) (calls_held self.now)
            → result.1 ≡ sum_by (λ held. count_by
            (λ key. is_some (state_at call_cmp held key)) keys) (calls_held self.now) }
    {
        (
            live_in(self.transactions.as_slice()),
            live_in(self.calls.as_slice()),
        )
    }
}

fn empty_transactions(alloc: Global, calls: Calls, shards: usize) -> Result<Vec<Shard>, AllocError>
    ensures count { IfOk result (λ made. vec_len made ≡ shards) }
    ensures empty { IfOk result (λ made. All (λ shard. shard.held ≡ Some []) made.items) }
{
    let mut made = Vec::with_capacity(alloc, shards)?;
    let hash_seed = HashSeed::of(&calls.seed);
    for _ in 0..shards {
        made.push(Shard::with_hash_seed(alloc, calls.local, hash_seed))?;
    }
    Ok(made)
}

fn empty_calls(alloc: Global, calls: Calls, shards: usize) -> Result<Vec<CallShard>, AllocError>
    ensures count { IfOk result (λ made. vec_len made ≡ shards) }
    ensures empty { IfOk result (λ made. All (λ shard. shard.held ≡ Some []) made.items) }
    ensures alike { IfOk result (λ made. All (λ shard. shard.calls ≡ calls) made.items) }
{
    let mut made = Vec::with_capacity(alloc, shards)?;
    for _ in 0..shards {
        made.push(CallShard::new(alloc, calls.local, calls.seed))?;
    }
    Ok(made)
}

fn live_in<S: KeyShard>(shards: &[S]) -> u128
    requires { length shards.now ≤ 256 }
    ensures { (keys : List S.Machine.Key) → All
        (λ shard. Covers S.Machine.Key.cmp keys (state_at S.Machine.Key.cmp (S.held shard)))
        shards.now
        → result ≡ sum_by (λ shard. count_by
        (λ key. is_some (state_at S.Machine.Key.cmp (S.held shard) key)) keys) shards.now }
{
    let mut live = 0u128;
    for shard in shards {
        live += shard.live() as u128;
    }
    live
}
