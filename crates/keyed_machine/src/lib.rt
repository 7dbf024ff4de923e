//! State machines by key: the theory of a machine that is folded over each key's own inputs, and
//! the table of the keys that have a state.
#![tactic(auto)]

mod comparable_machine;
mod comparable_shard;
mod fault;
mod item;
mod items;
mod key_shard;
mod label_order;
mod laws;
mod machine;
mod one_key;
mod phase_outputs;
mod same_states;
mod states;
mod table;
mod ticks;

pub use comparable_machine::ComparableMachine;
pub use comparable_shard::ComparableShard;
pub use fault::ShardFault;
pub use item::Item;
pub use key_shard::KeyShard;
pub use label_order::by_label;
pub use laws::laws_of_phases;
pub use machine::StateMachine;
pub use phase_outputs::PhaseOutputs;
pub use table::Table;
