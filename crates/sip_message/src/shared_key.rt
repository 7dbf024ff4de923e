//! A transaction's key with several owners.
ghost use Rattle.std.specs.Prelude.{◌≡◌, IfOk};
ghost use Rattle.std.specs.Ordering.{eq_by_cmp, as_partial_cmp};
ghost use Rattle.std.specs.Cmp.{eq_by_cmp_equiv, partial_equiv_from_equiv, partial_order_from_total};
ghost use Rattle.std.specs.Cmp.Rules.{comparing};
ghost use Rattle.std.proofs.Common.{rules, refl};
ghost use Rattle.sip_message.specs.Key as keys;
ghost use Rattle.sip_message.specs.Keys.{hashed_alike};

use crate::key::Key;
use std::alloc::{AllocError, Global};
use std::cmp::Ordering;
use std::hash::{Hash, Hasher};
use std::marker::Model;
use std::sync::Arc;

/// A transaction's key with several owners, so that a copy takes no memory. A contract sees the
/// key.
pub struct SharedKey {
    key: Arc<Key>,
}

impl Model for SharedKey {
    ghost use Rattle.sip_message.specs.declared.key.Key.{Key};

    ghost Value = { Key };

    ghost view = { λ shared. shared.key.value };
}

impl SharedKey {
    /// Puts the key on the heap.
    pub(crate) fn new(alloc: Global, key: Key) -> Result<SharedKey, AllocError>
        ensures { IfOk result (λ shared. shared ≡ key) }
    {
        Ok(SharedKey {
            key: Arc::new(alloc, key)?,
        })
    }

    pub fn get(&self) -> &Key
        ensures { result.now ≡ self.now }
    {
        &self.key
    }
}

impl Drop for SharedKey {
    fn drop(self) {
        let SharedKey { key: _ } = self;
    }
}

impl Clone for SharedKey {
    ghost is_clone = { λ original copy. copy ≡ original };

    fn clone(&self) -> Result<SharedKey, AllocError> {
        Ok(SharedKey {
            key: self.key.clone()?,
        })
    }
}

impl PartialEq for SharedKey {
    ghost eq = { eq_by_cmp keys.key_cmp };

    ghost laws = { partial_equiv_from_equiv (eq_by_cmp_equiv keys.keys_total) };

    fn eq(&self, other: &SharedKey) -> bool {
        self.get() == other.get()
    }
}

impl Eq for SharedKey {
    ghost laws = { eq_by_cmp_equiv keys.keys_total };
}

impl PartialOrd for SharedKey {
    ghost partial_cmp = { as_partial_cmp keys.key_cmp };

    ghost laws = { partial_order_from_total keys.keys_total };

    fn partial_cmp(&self, other: &SharedKey) -> Option<Ordering> {
        Some(self.cmp(other))
    }
}

impl Ord for SharedKey {
    ghost cmp = { keys.key_cmp };

    ghost total = { keys.keys_total };

    ghost matches_partial_cmp = { Prim.search (comparing, rules) };

    ghost matches_eq = { λ one other. refl };

    fn cmp(&self, other: &SharedKey) -> Ordering {
        self.get().cmp(other.get())
    }
}

impl Hash for SharedKey {
    ghost hash_input = { keys.key_writes };

    ghost respects_eq = { hashed_alike };

    fn hash<H: Hasher>(&self, state: &mut H) {
        self.get().hash(state);
    }
}
