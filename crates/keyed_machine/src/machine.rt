//! The machine of one key, as code.

ghost use Rattle.std.specs.Prelude.{◌≡◌, ◌≤◌, ◌^◌, ℕ, List, Option, IfOk, IsOk, Some, None, if◌then◌else◌};
ghost use Rattle.std.proofs.lemmas.Map.Lookups.{CmpEqualImpliesEq};
ghost use Rattle.sip_timers.specs.Queue.{IsClonedAlike};
ghost use Rattle.keyed_machine.specs.Machine.{Machine, Timed, IsIdle, given_at, next, adds, tick_at};

use std::alloc::{AllocError, Global};
use std::hash::Hash;

/// A machine for each key, as code that works on the state of one key.
pub trait StateMachine {
    type Key: Ord + Hash + Clone + Drop;

    type State: Drop;

    type Input: Drop;

    type Output: Drop;

    /// The machine that `begin`, `step` and `tick` compute.
    ghost machine: { Self → Machine Self.Key Self.State (Timed Self.Input) Self.Output };

    /// The moment in ms at which a state is due, if ever.
    ghost due: { Self.State → Option ℕ };

    fn due_of(&self, state: &Self::State) -> Option<u64>
        ensures { result ≡ due state.now };

    /// Whether an input may give a state to a key without one. Either answer is right: it only
    /// decides how a table looks for the key.
    fn may_begin(&self, input: &Self::Input) -> bool;

    /// The state that an input at a moment in ms gives to a key without one, and its outputs.
    fn begin(
        &self,
        alloc: Global,
        key: &Self::Key,
        moment: u64,
        input: Self::Input,
    ) -> Result<(Option<Self::State>, Vec<Self::Output>), AllocError>
        requires { moment ≤ 2 ^ 62 }
        ensures next { IfOk result (λ after. after.0
            ≡ next (machine self.now) key.now None (given_at moment input)) }
        ensures adds { IfOk result (λ after. after.1.items
            ≡ adds (machine self.now) key.now None (given_at moment input)) };

    /// Changes a key's state in place, as an input at a moment in ms does. Answers whether the key
    /// still has a state, and the outputs.
    fn step(
        &self,
        alloc: Global,
        key: &Self::Key,
        state: &mut Self::State,
        moment: u64,
        input: Self::Input,
    ) -> Result<(bool, Vec<Self::Output>), AllocError>
        requires { moment ≤ 2 ^ 62 }
        ensures next { IfOk result (λ after. (if after.0 then Some state.new else None)
            ≡ next (machine self.now) key.now (Some state.old) (given_at moment input)) }
        ensures adds { IfOk result (λ after. after.1.items
            ≡ adds (machine self.now) key.now (Some state.old) (given_at moment input)) };

    /// The state that a key has once time went on to a moment in ms, without an input, and the
    /// outputs.
    fn tick(
        &self,
        alloc: Global,
        key: &Self::Key,
        state: Self::State,
        moment: u64,
    ) -> Result<(Option<Self::State>, Vec<Self::Output>), AllocError>
        requires { moment ≤ 2 ^ 62 }
        ensures next { IfOk result (λ after. after.0
            ≡ next (machine self.now) key.now (Some state) (tick_at moment)) }
        ensures adds { IfOk result (λ after. after.1.items
            ≡ adds (machine self.now) key.now (Some state) (tick_at moment)) };

    /// Keys that compare equal are one key.
    ghost exact: { CmpEqualImpliesEq Self.Key.cmp };

    /// A clone of a key equals it.
    ghost copies: { (key : Self.Key) → IsClonedAlike Self.Key.is_clone key };

    /// A tick does nothing to a state that isn't due.
    ghost idle: { (self : Self) (moment : ℕ)
        → IsIdle (machine self) due moment (tick_at moment) };
}
