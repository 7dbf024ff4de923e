//! Machines whose states can be compared.

ghost use Rattle.std.specs.Prelude.{◌≡◌, ◌↔◌, IsTrue};

use crate::machine::StateMachine;

/// A machine whose states can be compared, by all that a later input or tick depends on.
pub trait ComparableMachine: StateMachine {
    /// Whether two states are the same.
    fn is_same_state(&self, state: &Self::State, other: &Self::State) -> bool
        ensures { IsTrue result ↔ (state.now ≡ other.now) };
}
