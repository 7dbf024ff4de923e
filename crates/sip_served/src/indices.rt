//! The indices of held requests by number.

ghost use Rattle.std.specs.Prelude.{◌≡◌, ℕ, Option, None, Some, OnOk};
ghost use Rattle.sip_served.specs.Steps.Index.{with_key};
ghost use Rattle.sip_served.specs.Steps.Indices.{IsIndices};
ghost use Rattle.sip_served.specs.declared.held_request.HeldRequest.{HeldRequest};

use crate::held_request::HeldRequest;
use crate::index::Index;
use crate::request_keys::{PrackKey, TextKey, ack_of, branch_key, merge_key, prack_of};
use sip_message::Id;
use std::alloc::{AllocError, Global};

/// The numbers of the held requests by what they are found by.
#[derive(Drop)]
pub(crate) struct Indices {
    pub(crate) ids: Index<Id>,
    pub(crate) merges: Index<TextKey>,
    pub(crate) acks: Index<TextKey>,
    pub(crate) pracks: Index<PrackKey>,
    pub(crate) branches: Index<TextKey>,
}

impl Indices {
    /// The indices of no request. Takes no memory.
    pub(crate) fn new(alloc: Global) -> Indices
        ensures { IsIndices (λ n. None) result }
    {
        Indices {
            ids: Index::new(alloc),
            merges: Index::new(alloc),
            acks: Index::new(alloc),
            pracks: Index::new(alloc),
            branches: Index::new(alloc),
        }
    }

    /// Adds a request of this number.
    pub(crate) fn insert(
        &mut self,
        alloc: Global,
        held: &HeldRequest,
        number: u64,
    ) -> Result<(), AllocError>
        ensures { OnOk result ((at : ℕ → Option HeldRequest) → IsIndices at self.old
            → at number ≡ None → IsIndices (with_key at number (Some held.now)) self.new) }
    {
        self.ids.insert(Some(held.id), number)?;
        self.merges
            .insert(Some(merge_key(alloc, held.request.get())?), number)?;
        self.acks.insert(ack_of(alloc, held)?, number)?;
        self.pracks.insert(prack_of(held), number)?;
        self.branches
            .insert(branch_key(alloc, held.key.get())?, number)
    }

    /// Takes the request of this number out.
    pub(crate) fn remove(
        &mut self,
        alloc: Global,
        held: &HeldRequest,
        number: u64,
    ) -> Result<(), AllocError>
        ensures { OnOk result ((at : ℕ → Option HeldRequest) → IsIndices at self.old
            → at number ≡ Some held.now → IsIndices (with_key at number None) self.new) }
    {
        self.ids.remove(Some(held.id), number);
        self.merges
            .remove(Some(merge_key(alloc, held.request.get())?), number);
        self.acks.remove(ack_of(alloc, held)?, number);
        self.pracks.remove(prack_of(held), number);
        self.branches
            .remove(branch_key(alloc, held.key.get())?, number);
        Ok(())
    }
}
