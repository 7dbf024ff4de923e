//! The outputs of the keys of a table in a phase.

ghost use Rattle.std.specs.Ordering.{nat_cmp};
ghost use Rattle.keyed_machine.specs.Groups.{Sorts, groups};

use crate::label_order::by_label;

/// The outputs of a phase.
#[derive(Drop)]
pub struct PhaseOutputs<K, O> {
    /// The outputs of each key to the tick, if it has any, in key order.
    pub ticks: Vec<(K, Vec<O>)>,
    /// The outputs that each item adds, with its place.
    pub items: Vec<(usize, Vec<O>)>,
}

impl<K: Ord + Drop, O: Drop> PhaseOutputs<K, O> {
    /// The outputs of several shards, joined in any order, brought into the order of keys and of
    /// places.
    pub fn in_order(self) -> PhaseOutputs<K, O>
        ensures ticks { Sorts K.cmp (groups self.ticks.items) (groups result.ticks.items) }
        ensures items { Sorts nat_cmp (groups self.items.items) (groups result.items.items) }
    {
        let PhaseOutputs { ticks, items } = self;
        PhaseOutputs {
            ticks: by_label(ticks),
            items: by_label(items),
        }
    }
}
