//! An agent: its transactions and its calls, led through rounds.

ghost use Rattle.std.specs.List.{AllByRecursion};
ghost use Rattle.std.specs.Prelude.{ℕ, ◌≡◌, ◌↔◌, ◌⊎◌, ◌+◌, ◌++◌, ◌∷◌, ◌<◌, ◌≤◌, ◌^◌, IfOk, IfSome, IsSome, IsTrue, OnErr, OnOk, Some, None, Ok, Err, List, [], false, true, length, map};
ghost use Rattle.sip_message.specs.Key.{branch_in};
ghost use Rattle.sip_round.specs.Arrivals.{arrivals_from};
ghost use Rattle.sip_round.specs.Steps.Arrived.{IsArrived};
ghost use Rattle.sip_round.specs.Steps.SetOut.{IsSetOut};
ghost use Rattle.sip_shards.specs.Parts.{owner_of};

use crate::config::Config;
use crate::form::Form;
use crate::lead::{lead, lead_in_turn};
use crate::output::{Output, PlacedOutput};
use crate::phases::Begun;
use crate::reading::set_out_by;
use crate::round::Round;
use crate::round_fault::RoundFault;
use crate::shards::Shards;
use crate::waiting::{SetOut, set_out};
use keyed_machine::laws_of_phases;
use sip_calls::Calls;
use sip_clients::opening_tag;
use sip_message::{Cut, Id, Message, Token, key_of};
use sip_same::SameValue;
use sip_shards::{parts_of, tell_of_each};
use sip_transactions::Transactions;
use sip_workers::{Gate, NoMemory};
use std::alloc::{AllocError, Global};
use std::marker::Model;
use std::thread::Threads;

/// The highest moment in ms, and the highest round number.
pub const MAX_MOMENT: u64 = 1 << 62;

/// The maximum number of events in a round.
pub const MAX_EVENTS_OF_ROUND: usize = 65_536;

// How many phases a round has.
const PHASES: usize = 3;

/// The transactions and the calls of one user agent, in shards, led through rounds.
///
/// If a round answers `NoMemory` with `broken`, the agent holds nothing from then on, and refuses
/// every later round as `Broken`.
pub struct Agent<C: Cut> {
    alloc: Global,
    cut: C,
    calls: Calls,
    next_round: u64,
    last_moment: u64,
    shards: Option<Shards>,
}

impl<C: Cut> Model for Agent<C> {
    ghost use Rattle.sip_round.specs.AgentState.{AgentState};
    ghost use Rattle.sip_round.specs.Steps.Alike.{AreAlike};

    ghost Value = { AgentState C };

    ghost view = { λ a. record {
      calls = a.calls;
      cut = a.cut;
      next_round = a.next_round;
      last_moment = a.last_moment;
      shards = a.shards;
    } };

    // All calls share the same settings.
    ghost invariant = { λ a. AreAlike a.calls a.shards };
}

impl<C: Cut + Drop> Drop for Agent<C> {
    fn drop(self) {
        let Agent {
            alloc: _,
            cut: _,
            calls: _,
            next_round: _,
            last_moment: _,
            shards: _,
        } = self;
    }
}

impl<C: Cut + Drop> Agent<C> {
    ghost use Rattle.sip_round.specs.AgentState.{EndsRound, ShardTables, refusal_of, shard_count};
    ghost use Rattle.sip_round.specs.Answers.{StandsFor, answers, past_of, placed_answers};
    ghost use Rattle.sip_round.specs.Steps.Led.{Deals};
    ghost use Rattle.sip_round.specs.Steps.OneMore.{GivesOneMore};
    ghost use Rattle.sip_round.specs.Live.{live_of};
    ghost use Rattle.sip_clients.specs.Name.{opening_tag};
    ghost use Rattle.sip_round.specs.NewTransactions.{would_begin};
    ghost use Rattle.sip_round.specs.NextDue.{IsDueAfter, IsQuietAfter};
    ghost use Rattle.sip_round.specs.SameRounds.{LeaveTheSame};
    ghost use Rattle.sip_timers.specs.Queue.{is_due};
    ghost use Rattle.sip_round.specs.declared.config.Config.{Config};
    ghost use Rattle.sip_round.specs.declared.round.Round.{Round};
    ghost use Rattle.sip_round.specs.declared.round_fault.RoundFault.TheVariants as round_fault;

    /// An agent before its first round, with `shards` shards, among which `cut` distributes names.
    ///
    /// # Errors
    ///
    /// `NoMemory`.
    pub fn new(alloc: Global, config: Config, shards: usize, cut: C) -> Result<Agent<C>, NoMemory>
        requires some { 0 < shards }
        requires most { shards ≤ 256 }
        ensures stands { IfOk result (λ agent. StandsFor C.shard_of agent config []) }
        ensures count { IfOk result (λ agent. shard_count agent ≡ shards) }
    {
        let Config { local, seed, first } = config;
        let calls = Calls { local, seed };
        let shards = Shards::new(alloc, calls, shards)?;
        Ok(Agent {
            alloc,
            cut,
            calls,
            next_round: first,
            last_moment: 0,
            shards: Some(shards),
        })
    }

    /// How many transactions and calls are held.
    pub fn live(&self) -> (u128, u128)
        ensures broken { self.now.shards ≡ None → result ≡ (0, 0) }

        // For an agent that stands for rounds, these are the ones that have begun and haven't
        // ended.
        ensures counts { (config : Config) (rounds : List Round)
            → StandsFor C.shard_of self.now config rounds
            → result ≡ live_of config (past_of config rounds) }
    {
        match &self.shards {
            None => (0, 0),
            Some(shards) => shards.live(),
        }
    }

    /// Whether a request would begin a transaction if it came in the next round (RFC 3261, section
    /// 17.2.3): it isn't an ACK, and no transaction with its key is held. Under load a host can
    /// leave such a datagram unread.
    ///
    /// # Errors
    ///
    /// Memory ran out.
    pub fn would_begin(&self, message: &Message) -> Result<bool, AllocError>
        ensures broken { self.now.shards ≡ None → IfOk result (λ begins. begins ≡ false) }
        ensures begins { IfOk result (λ begins. (config : Config) (rounds : List Round)
            → StandsFor C.shard_of self.now config rounds
            → begins ≡ would_begin config rounds message.now) }
    {
        let Some(shards) = &self.shards else {
            return Ok(false);
        };
        if !message.is_request() || message.method().as_slice() == b"ACK".as_slice() {
            return Ok(false);
        }
        let key = key_of(self.alloc, message)?;
        Ok(!shards.holds(&self.cut, &key))
    }

    /// The tag that the agent gives itself where the command with this id sends an INVITE, or another
    /// request outside of dialogs (RFC 3261, section 8.1.1.3). Dialogs are held by it, whatever tag
    /// a peer's response has in its place.
    ///
    /// # Errors
    ///
    /// Memory ran out.
    pub fn opening_tag(&self, id: Id) -> Result<Token, AllocError>
        ensures seed { IfOk result (λ tag. tag ≡ opening_tag self.now.calls.seed id) }
        ensures config { IfOk result (λ tag. (config : Config) (rounds : List Round)
            → StandsFor C.shard_of self.now config rounds → tag ≡ opening_tag config.seed id) }
    {
        opening_tag(self.alloc, self.calls.seed, id)
    }

    /// The number of the next round. The ids of its events have it. Takes no memory.
    pub fn next_round(&self) -> u64
        ensures { result ≡ self.now.next_round }
    {
        self.next_round
    }

    /// The first moment, in ms, at which a held transaction or call is due, if there is one. Until
    /// then a host may sleep. Takes no memory.
    pub fn next_due(&self) -> Option<u64>
        ensures broken { self.now.shards ≡ None → result ≡ None }

        // For an agent that stands for rounds: at an earlier moment a round without events gives
        // nothing, and changes nothing that is held; at this moment something is due.
        ensures before { (config : Config) (rounds : List Round)
            → StandsFor C.shard_of self.now config rounds
            → (moment : ℕ) → is_due moment result ≡ false → IsQuietAfter config rounds moment }
        ensures due { IfSome result (λ due. (config : Config) (rounds : List Round)
            → StandsFor C.shard_of self.now config rounds → IsDueAfter config rounds due) }
    {
        laws_of_phases(&Transactions);
        laws_of_phases(&self.calls);
        match &self.shards {
            None => None,
            Some(shards) => shards.next_due(),
        }
    }

    /// Runs a round with its events, on up to `workers` workers, and answers its outputs in stamp
    /// order. In each phase the gate is told of each shard. With one worker, or with few events in
    /// one shard, it starts no thread.
    ///
    /// # Errors
    ///
    /// The first fault that fits. All but `NoMemory` with `broken` leave the agent as it was.
    pub fn run_round<R: Threads + Sync, G: Gate>(
        &mut self,
        rt: &R,
        round: &Round,
        workers: usize,
        gate: &G,
    ) -> Result<Vec<Output>, RoundFault>
        requires some { 0 < workers }
        requires most { workers ≤ 64 }
        ensures ends { EndsRound self.old self.new round.now result }

        // Whatever rounds the agent stood for, it now stands for this one too. Its answer is the
        // one to this round after those.
        ensures answers { IfOk result (λ outputs. (config : Config) (rounds : List Round)
            → StandsFor C.shard_of self.old config rounds
            → StandsFor C.shard_of self.new config (rounds ++ round.now ∷ [])
            × (answers config (rounds ++ round.now ∷ []) ≡ answers config rounds
            ++ outputs.items ∷ [])) }
    {
        self.run_in_form(rt, round, workers, gate)
    }

    /// The same round. Each output comes with the place of its event, so that a host that kept the
    /// round's events knows which one a notice is about.
    ///
    /// # Errors
    ///
    /// As `run_round`.
    pub fn run_round_with_places<R: Threads + Sync, G: Gate>(
        &mut self,
        rt: &R,
        round: &Round,
        workers: usize,
        gate: &G,
    ) -> Result<Vec<PlacedOutput>, RoundFault>
        requires some { 0 < workers }
        requires most { workers ≤ 64 }
        ensures ends { EndsRound self.old self.new round.now result }

        // Whatever rounds the agent stood for, it now stands for this one too. Its answer is the
        // one to this round after those, each output with its place.
        ensures answers { IfOk result (λ outputs. (config : Config) (rounds : List Round)
            → StandsFor C.shard_of self.old config rounds
            → StandsFor C.shard_of self.new config (rounds ++ round.now ∷ [])
            × (placed_answers config (rounds ++ round.now ∷ []) ≡ placed_answers config rounds
            ++ outputs.items ∷ [])) }

        // Without their places, the outputs are those of the other call.
        ensures alone { IfOk result (λ outputs. (config : Config) (rounds : List Round)
            → StandsFor C.shard_of self.old config rounds
            → answers config (rounds ++ round.now ∷ []) ≡ answers config rounds
            ++ map (λ placed. placed.output) outputs.items ∷ []) }
    {
        self.run_in_form(rt, round, workers, gate)
    }

    // A round with its outputs in this form.
    fn run_in_form<F: Form, R: Threads + Sync, G: Gate>(
        &mut self,
        rt: &R,
        round: &Round,
        workers: usize,
        gate: &G,
    ) -> Result<Vec<F>, RoundFault>
        requires some { 0 < workers }
        requires most { workers ≤ 64 }
        ensures ends { EndsRound self.old self.new round.now result }
        ensures gives { IfOk result (λ outputs.
            GivesOneMore C.shard_of F.form self.old self.new round.now outputs.items) }
    {
        if let Some(fault) = self.refusal(round) {
            return Err(fault);
        }
        if self.is_idle(round) && self.is_in_turn(workers) {
            self.tell_of_phases(gate);
            return Ok(self.pass(round));
        }
        self.run_phases(rt, round, workers, gate)
    }

    // A round that isn't idle. It is a function of its own, so that an idle round needn't make room
    // for its locals.
    fn run_phases<F: Form, R: Threads + Sync, G: Gate>(
        &mut self,
        rt: &R,
        round: &Round,
        workers: usize,
        gate: &G,
    ) -> Result<Vec<F>, RoundFault>
        requires some { 0 < workers }
        requires most { workers ≤ 64 }
        requires moment { round.now.moment ≤ 2 ^ 62 }
        requires places { length round.now.events ≤ 65536 }
        requires number { self.old.next_round ≤ 2 ^ 62 }
        ensures memory { OnErr result ((result ≡ Err (round_fault.NoMemory false))
            ⊎ (result ≡ Err (round_fault.NoMemory true))) }
        ensures unbroken { result ≡ Err (round_fault.NoMemory false) → self.new ≡ self.old }
        ensures broken { result ≡ Err (round_fault.NoMemory true) → self.new.shards ≡ None }
        ensures count { OnOk result (shard_count self.new ≡ shard_count self.old) }
        ensures gives { IfOk result (λ outputs.
            GivesOneMore C.shard_of F.form self.old self.new round.now outputs.items) }
    {
        let events = round.events.as_slice();
        let (local, number) = (self.calls.local, self.next_round);
        let read = set_out_by(rt, self.alloc, local, number, events, workers).ok();
        let begun = self.begin(round, read)?;
        let led = lead(rt, &self.cut, round, begun, workers, gate);
        self.end(round, led)
    }

    /// The same round on the calling thread, shard after shard. It starts no thread, and needs no
    /// handle.
    ///
    /// # Errors
    ///
    /// As `run_round`.
    pub fn run_round_in_turn(&mut self, round: &Round) -> Result<Vec<Output>, RoundFault>
        ensures ends { EndsRound self.old self.new round.now result }

        // Whatever rounds the agent stood for, it now stands for this one too. Its answer is the
        // one to this round after those.
        ensures answers { IfOk result (λ outputs. (config : Config) (rounds : List Round)
            → StandsFor C.shard_of self.old config rounds
            → StandsFor C.shard_of self.new config (rounds ++ round.now ∷ [])
            × (answers config (rounds ++ round.now ∷ []) ≡ answers config rounds
            ++ outputs.items ∷ [])) }
    {
        self.run_in_turn(round)
    }

    /// The same round on the calling thread. Each output comes with the place of its event.
    ///
    /// # Errors
    ///
    /// As `run_round`.
    pub fn run_round_in_turn_with_places(
        &mut self,
        round: &Round,
    ) -> Result<Vec<PlacedOutput>, RoundFault>
        ensures ends { EndsRound self.old self.new round.now result }

        // Whatever rounds the agent stood for, it now stands for this one too. Its answer is the
        // one to this round after those, each output with its place.
        ensures answers { IfOk result (λ outputs. (config : Config) (rounds : List Round)
            → StandsFor C.shard_of self.old config rounds
            → StandsFor C.shard_of self.new config (rounds ++ round.now ∷ [])
            × (placed_answers config (rounds ++ round.now ∷ []) ≡ placed_answers config rounds
            ++ outputs.items ∷ [])) }

        // Without their places, the outputs are those of the other call.
        ensures alone { IfOk result (λ outputs. (config : Config) (rounds : List Round)
            → StandsFor C.shard_of self.old config rounds
            → answers config (rounds ++ round.now ∷ []) ≡ answers config rounds
            ++ map (λ placed. placed.output) outputs.items ∷ []) }
    {
        self.run_in_turn(round)
    }

    // A round on the calling thread, with its outputs in this form.
    fn run_in_turn<F: Form>(&mut self, round: &Round) -> Result<Vec<F>, RoundFault>
        ensures ends { EndsRound self.old self.new round.now result }
        ensures gives { IfOk result (λ outputs.
            GivesOneMore C.shard_of F.form self.old self.new round.now outputs.items) }
    {
        if let Some(refused) = self.refusal(round) {
            return Err(refused);
        }
        if self.is_idle(round) {
            return Ok(self.pass(round));
        }
        let events = round.events.as_slice();
        let (local, number) = (self.calls.local, self.next_round);
        let read = set_out(self.alloc, local, number, 0, events).ok();
        let begun = self.begin(round, read)?;
        let led = lead_in_turn(&self.cut, round, begun);
        self.end(round, led)
    }

    /// Moves everything held to `shards` shards. The agent stands for the same rounds as before.
    ///
    /// # Errors
    ///
    /// `Broken` if an earlier call answered `NoMemory` with `broken`. `NoMemory` without `broken`:
    /// nothing has changed.
    pub fn reshard(&mut self, shards: usize) -> Result<(), RoundFault>
        requires some { 0 < shards }
        requires most { shards ≤ 256 }
        ensures refused { self.old.shards ≡ None
            → (result ≡ Err round_fault.Broken) × (self.new ≡ self.old) }
        ensures memory { IsSome self.old.shards
            → OnErr result ((result ≡ Err (round_fault.NoMemory false))
            ⊎ (result ≡ Err (round_fault.NoMemory true))) }
        ensures unbroken { result ≡ Err (round_fault.NoMemory false) → self.new ≡ self.old }
        ensures broken { result ≡ Err (round_fault.NoMemory true) → self.new.shards ≡ None }
        ensures count { OnOk result (shard_count self.new ≡ shards) }
        ensures stands { OnOk result ((config : Config) (rounds : List Round)
            → StandsFor C.shard_of self.old config rounds
            → StandsFor C.shard_of self.new config rounds) }
    {
        let Some(held) = self.shards.take() else {
            return Err(RoundFault::Broken);
        };
        let Ok(others) = Shards::new(self.alloc, self.calls, shards) else {
            self.shards = Some(held);
            return Err(RoundFault::NoMemory { broken: false });
        };
        let Ok(moved) = held.transfer(&self.cut, &self.calls, others) else {
            return Err(RoundFault::NoMemory { broken: true });
        };
        self.shards = Some(moved);
        Ok(())
    }

    /// Whether another agent, whose cut is the same, answers every later round as this one does:
    /// it holds the same transactions and calls in as many shards, is at the same round number and
    /// moment, and shares the same settings among its calls. The two may have come there by
    /// different rounds. A broken agent never is the same. Takes no memory.
    pub fn holds_the_same(&self, other: &Agent<C>) -> bool
        // Whatever rounds this agent stands for, the other one stands for them too.
        ensures stands { IsTrue result → self.now.cut ≡ other.now.cut
            → (config : Config) (rounds : List Round)
            → StandsFor C.shard_of self.now config rounds
            → StandsFor C.shard_of other.now config rounds }

        // Agents with as many shards that stand for rounds which leave the same hold the same.
        ensures same { self.now.cut ≡ other.now.cut → shard_count self.now ≡ shard_count other.now
            → (config other_config : Config) (rounds other_rounds : List Round)
            → StandsFor C.shard_of self.now config rounds
            → StandsFor C.shard_of other.now other_config other_rounds
            → LeaveTheSame config other_config rounds other_rounds → IsTrue result }
    {
        laws_of_phases(&Transactions);
        laws_of_phases(&other.calls);
        let Some(shards) = &self.shards else {
            return false;
        };
        let Some(others) = &other.shards else {
            return false;
        };
        self.is_at_the_same(other) && shards.hold_the_same(others)
    }

    // Whether another agent is at the same round number and moment, with the same settings.
    fn is_at_the_same(&self, other: &Agent<C>) -> bool
        ensures { IsTrue result ↔ ((self.now.calls ≡ other.now.calls)
            × (self.now.next_round ≡ other.now.next_round)
            × (self.now.last_moment ≡ other.now.last_moment)) }
    {
        self.calls.is_same(&other.calls)
            && self.next_round == other.next_round
            && self.last_moment == other.last_moment
    }

    // Why this round is refused before anything is done.
    fn refusal(&self, round: &Round) -> Option<RoundFault>
        ensures { result ≡ refusal_of self.now round.now }
    {
        if self.shards.is_none() {
            Some(RoundFault::Broken)
        } else if round.moment < self.last_moment {
            Some(RoundFault::MomentBackwards)
        } else if round.moment > MAX_MOMENT {
            Some(RoundFault::MomentTooLarge)
        } else if round.events.len() > MAX_EVENTS_OF_ROUND {
            Some(RoundFault::TooManyEvents)
        } else if self.next_round > MAX_MOMENT {
            Some(RoundFault::RoundsUsedUp)
        } else {
            None
        }
    }

    // Whether a round has no events and nothing is due in it. Then nothing changes. Four functions
    // ask this, each once in every round.
    #[inline(always)]
    fn is_idle(&self, round: &Round) -> bool
        ensures { IsTrue result → IfSome self.now.shards (λ shards.
            Deals self.now.calls (C.shard_of self.now.cut) self.now.next_round round.now shards
            shards []) }
    {
        laws_of_phases(&Transactions);
        laws_of_phases(&self.calls);
        match &self.shards {
            None => false,
            Some(shards) => round.events.is_empty() && shards.are_idle(round.moment),
        }
    }

    // Whether the shards of a phase are dealt with one after another, without a thread.
    fn is_in_turn(&self, workers: usize) -> bool {
        match &self.shards {
            None => true,
            Some(shards) => workers == 1 || shards.count() == 1,
        }
    }

    // Tells the gate of each shard, one after another, in each phase of a round without work.
    fn tell_of_phases<G: Gate>(&self, gate: &G) {
        if let Some(shards) = &self.shards {
            for _ in 0..PHASES {
                tell_of_each(shards.count(), gate);
            }
        }
    }

    // Passes a round in which nothing happens.
    fn pass<F: Form>(&mut self, round: &Round) -> Vec<F>
        requires { self.old.next_round ≤ 2 ^ 62 }
        ensures outputs { result.items ≡ [] }
        ensures passed { self.new ≡ record self.old {
          next_round = self.old.next_round + 1;
          last_moment = round.now.moment;
        } }
    {
        self.next_round += 1;
        self.last_moment = round.moment;
        Vec::new(self.alloc)
    }

    // Begins a round whose events were read and stamped. Takes the shards, and cuts what arrived
    // into their parts. If memory ran out, before or here, nothing has changed.
    fn begin(&mut self, round: &Round, read: Option<SetOut>) -> Result<Begun, RoundFault>
        requires { IfSome read (IsSetOut (arrivals_from self.old.calls.local self.old.next_round 1
            round.now.events)) }
        ensures memory { OnErr result (result ≡ Err (round_fault.NoMemory false)) }
        ensures err { OnErr result (self.new ≡ self.old) }
        ensures taken { IfOk result (λ begun. (self.old.shards ≡ Some begun.shards)
            × (self.new ≡ record self.old { shards = None })) }
        ensures number { IfOk result (λ begun. begun.number ≡ self.old.next_round) }
        ensures calls { IfOk result (λ begun. begun.calls ≡ self.old.calls) }
        ensures alike { IfOk result
            (λ begun. AllByRecursion (λ shard. shard.calls ≡ begun.calls) begun.shards.calls) }
        ensures arrived { IfOk result (λ begun.
            IsArrived (owner_of (C.shard_of self.old.cut) branch_in
            (length begun.shards.transactions)) (length begun.shards.transactions)
            (arrivals_from self.old.calls.local self.old.next_round 1 round.now.events)
            (map (λ part. part.items) begun.parts.items) begun.waiting.items) }
    {
        let Some(SetOut { items, waiting }) = read else {
            return Err(RoundFault::NoMemory { broken: false });
        };
        let Some(shards) = self.shards.take() else {
            return Err(RoundFault::NoMemory { broken: false });
        };
        let Ok(parts) = parts_of(self.alloc, &self.cut, items, shards.count()) else {
            self.shards = Some(shards);
            return Err(RoundFault::NoMemory { broken: false });
        };
        Ok(Begun {
            alloc: self.alloc,
            calls: self.calls,
            number: self.next_round,
            shards,
            parts,
            waiting,
        })
    }

    // Ends a round that was led through its phases: the shards come back. If memory ran out, they
    // are lost.
    fn end<F: Form>(
        &mut self,
        round: &Round,
        led: Result<(Shards, Vec<F>), NoMemory>,
    ) -> Result<Vec<F>, RoundFault>
        requires number { self.old.next_round ≤ 2 ^ 62 }
        requires alike { IfOk led
            (λ led. AllByRecursion (λ shard. shard.calls ≡ self.old.calls) led.0.calls) }
        ensures memory { OnErr result (result ≡ Err (round_fault.NoMemory true)) }
        ensures lost { OnErr result (self.new ≡ self.old) }
        ensures ok { IfOk result (λ outputs. (shards : ShardTables) × (led ≡ Ok (shards, outputs))
            × (self.new ≡ record self.old {
              next_round = self.old.next_round + 1;
              last_moment = round.now.moment;
              shards = Some shards;
            })) }
    {
        let Ok((shards, outputs)) = led else {
            return Err(RoundFault::NoMemory { broken: true });
        };
        self.shards = Some(shards);
        self.next_round += 1;
        self.last_moment = round.moment;
        Ok(outputs)
    }
}
