//! An index: numbers by their keys.

ghost use Rattle.std.specs.Prelude.{◌≡◌, ◌≤◌, ℕ, [], Option, None, true, false, IfSome, IfNone, OnOk};
ghost use Rattle.sip_served.specs.Steps.Index.{IsIndexOf, is_key_of, with_key};

use std::alloc::{AllocError, Global};
use std::collections::BTreeSet;
use std::marker::Model;

/// Numbers by their keys: each number has one key at most, and many numbers may have the same.
///
/// A contract sees the list of keys with their numbers. Its clauses hold for any map from numbers to
/// keys of which this list is the index.
#[derive(Drop)]
pub(crate) struct Index<K: Ord> {
    pairs: BTreeSet<(K, u64)>,
}

impl<K: Ord> Model for Index<K> {
    ghost use Rattle.std.specs.Prelude.{ℕ, List};

    ghost Value = { List (K × ℕ) };

    ghost view = { λ index. index.pairs.keys };
}

impl<K: Ord + Drop> Index<K> {
    /// An empty index. Takes no memory.
    pub(crate) fn new(alloc: Global) -> Index<K>
        ensures { result ≡ [] }
    {
        Index {
            pairs: BTreeSet::new(alloc),
        }
    }

    /// Puts a number under a key, if it has one.
    pub(crate) fn insert(&mut self, key: Option<K>, number: u64) -> Result<(), AllocError>
        ensures { OnOk result ((keys : ℕ → Option K) → IsIndexOf K.cmp keys self.old
            → keys number ≡ None → IsIndexOf K.cmp (with_key keys number key) self.new) }
    {
        let Some(key) = key else {
            return Ok(());
        };
        self.pairs.insert((key, number))?;
        Ok(())
    }

    /// Takes a number away from its key, if it has one. Takes no memory.
    pub(crate) fn remove(&mut self, key: Option<K>, number: u64)
        ensures { (keys : ℕ → Option K) → IsIndexOf K.cmp keys self.old → keys number ≡ key
            → IsIndexOf K.cmp (with_key keys number None) self.new }
    {
        let Some(key) = key else {
            return;
        };
        self.pairs.remove(&(key, number));
    }

    /// Moves a number from its key, if it has one, to another, if that is one.
    pub(crate) fn rekey(
        &mut self,
        former: Option<K>,
        key: Option<K>,
        number: u64,
    ) -> Result<(), AllocError>
        ensures { OnOk result ((keys : ℕ → Option K) → IsIndexOf K.cmp keys self.old
            → keys number ≡ former → IsIndexOf K.cmp (with_key keys number key) self.new) }
    {
        self.remove(former, number);
        self.insert(key, number)
    }

    /// The least number of a key that isn't below another number, which is given with the key.
    pub(crate) fn first_from(&self, least: &(K, u64)) -> Option<u64>
        ensures number { (keys : ℕ → Option K) → IsIndexOf K.cmp keys self.now
            → IfSome result (λ n. (is_key_of K.cmp least.now.0 (keys n) ≡ true) × (least.now.1 ≤ n)) }
        ensures none_before { (keys : ℕ → Option K) → IsIndexOf K.cmp keys self.now
            → IfSome result (λ n. (m : ℕ) → is_key_of K.cmp least.now.0 (keys m) ≡ true
            → least.now.1 ≤ m → n ≤ m) }
        ensures none { (keys : ℕ → Option K) → IsIndexOf K.cmp keys self.now
            → IfNone result ((m : ℕ) → least.now.1 ≤ m
            → is_key_of K.cmp least.now.0 (keys m) ≡ false) }
    {
        let (key, number) = self.pairs.range(least..).next()?;
        if key.cmp(&least.0).is_eq() {
            Some(*number)
        } else {
            None
        }
    }

    /// The greatest number of a key that isn't above another number, which is given with the key.
    pub(crate) fn last_up_to(&self, most: &(K, u64)) -> Option<u64>
        ensures number { (keys : ℕ → Option K) → IsIndexOf K.cmp keys self.now
            → IfSome result (λ n. (is_key_of K.cmp most.now.0 (keys n) ≡ true) × (n ≤ most.now.1)) }
        ensures none_after { (keys : ℕ → Option K) → IsIndexOf K.cmp keys self.now
            → IfSome result (λ n. (m : ℕ) → is_key_of K.cmp most.now.0 (keys m) ≡ true
            → m ≤ most.now.1 → m ≤ n) }
        ensures none { (keys : ℕ → Option K) → IsIndexOf K.cmp keys self.now
            → IfNone result ((m : ℕ) → m ≤ most.now.1
            → is_key_of K.cmp most.now.0 (keys m) ≡ false) }
    {
        let (key, number) = self.pairs.range(..=most).next_back()?;
        if key.cmp(&most.0).is_eq() {
            Some(*number)
        } else {
            None
        }
    }
}
