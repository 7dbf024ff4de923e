//! A queue of timers: a map from keys to due moments, and a schedule of the keys.

ghost use Rattle.std.specs.Prelude.{◌≡◌, ◌≢◌, ◌≤◌, [], Some, None, All, min, if◌then◌else◌, OnOk, OnErr, IfOk, IfSome, IfNone};
ghost use Rattle.std.specs.List.{reduce, list_any};
ghost use Rattle.std.specs.BTreeMap.{is_at, insert_entry};
ghost use Rattle.std.specs.Map.{values_of, remove_entry};
ghost use Rattle.std.specs.List.Sorted.{IsStrictlySortedBy};
ghost use Rattle.sip_timers.specs.Queue.{moment, due_keys, later, is_due, if_later, IsClonedAlike};

use crate::{NoMemory, Schedule};
use std::alloc::Global;
use std::collections::BTreeMap;
use std::marker::Model;

/// A finite map from keys to the moments, in milliseconds, at which they are due.
///
/// A contract sees it as the list of its entries, in the order of the keys.
#[derive(Drop)]
pub struct Queue<K: Ord + Clone> {
    moments: BTreeMap<K, u64>,
    dues: Schedule<K>,
}

impl<K: Ord + Clone> Model for Queue<K> {
    ghost use Rattle.std.specs.Prelude.{ℕ, List};
    ghost use Rattle.std.specs.BTreeMap.{IsOrdered};
    ghost use Rattle.sip_timers.specs.Index.{IsIndexOf};
    ghost use Rattle.sip_timers.specs.Queue.{moment};

    ghost Value = { List (K × ℕ) };

    ghost view = { λ q. q.moments.entries };

    ghost invariant = { λ q. IsOrdered K.cmp q.moments
        × IsIndexOf K.cmp (moment K.cmp q.moments.entries) q.dues };
}

impl<K: Ord + Clone + Drop> Queue<K> {
    /// An empty queue. It takes no memory.
    pub fn new(alloc: Global) -> Queue<K>
        ensures { result ≡ [] }
    {
        Queue {
            moments: BTreeMap::new(alloc),
            dues: Schedule::new(alloc),
        }
    }

    /// Makes `key` due at `due`, whatever moment it had before.
    ///
    /// # Errors
    ///
    /// `NoMemory`; then the queue is unchanged.
    pub fn arm(&mut self, key: K, due: u64) -> Result<(), NoMemory>
        requires { IsClonedAlike K.is_clone key }
        ensures ok { OnOk result (self.new ≡ insert_entry K.cmp self.old key due) }
        ensures moments { OnOk result ((q : K) → moment K.cmp self.new q
            ≡ (if is_at (K.cmp key) q then Some due else moment K.cmp self.old q)) }
        ensures err { OnErr result (self.new ≡ self.old) }
    {
        match self.moments.get(&key).copied() {
            Some(former) if former == due => Ok(()),
            former => self.rearm(key, former, due),
        }
    }

    /// Makes `key` due at `due`, another moment than `former`, the one that it had, if any. This
    /// does what [`Queue::arm`] does, with one look-up less.
    ///
    /// # Errors
    ///
    /// `NoMemory`; then the queue is unchanged.
    pub fn rearm(&mut self, key: K, former: Option<u64>, due: u64) -> Result<(), NoMemory>
        requires alike { IsClonedAlike K.is_clone key }
        requires former { moment K.cmp self.old key ≡ former }
        requires other { former ≢ Some due }
        ensures ok { OnOk result (self.new ≡ insert_entry K.cmp self.old key due) }
        ensures moments { OnOk result ((q : K) → moment K.cmp self.new q
            ≡ (if is_at (K.cmp key) q then Some due else moment K.cmp self.old q)) }
        ensures err { OnErr result (self.new ≡ self.old) }
    {
        let key = self.dues.replace(key, former, due)?;
        if let Err(refused) = self.moments.insert(key, due) {
            let (key, due) = refused.value;
            self.dues.disarm(key, due);
            return Err(NoMemory);
        }
        Ok(())
    }

    /// Takes `key` out. If it isn't there, nothing changes. Takes no memory.
    pub fn disarm(&mut self, key: &K)
        ensures entries { self.new ≡ remove_entry (is_at (K.cmp key.now)) self.old }
        ensures moments { (q : K) → moment K.cmp self.new q
            ≡ (if is_at (K.cmp key.now) q then None else moment K.cmp self.old q) }
    {
        if let Some((key, due)) = self.moments.remove_entry(key) {
            self.dues.disarm(key, due);
        }
    }

    /// The moment at which `key` is due, if it is armed. Takes no memory.
    pub fn moment(&self, key: &K) -> Option<u64>
        ensures { result ≡ moment K.cmp self.now key.now }
    {
        self.moments.get(key).copied()
    }

    /// The earliest moment at which a key is due. Takes no memory.
    pub fn next_due(&self) -> Option<u64>
        ensures earliest { result ≡ reduce min (values_of self.now) }

        // The same by look-ups: no key is due earlier, and one is due at that moment.
        ensures none_before { IfSome result
            (λ due. (q : K) → IfSome (moment K.cmp self.now q) (λ other. due ≤ other)) }
        ensures of_a_key { IfSome result (λ due. (q : K) × (moment K.cmp self.now q ≡ Some due)) }
        ensures none_armed { IfNone result ((q : K) → moment K.cmp self.now q ≡ None) }
    {
        self.dues.next_due()
    }

    /// Takes out all keys that are due at `now` or before, and gives them in the order of the keys.
    ///
    /// # Errors
    ///
    /// `NoMemory`; then the queue is unchanged.
    pub fn take_due(&mut self, now: u64) -> Result<Vec<K>, NoMemory>
        requires { All (λ e. IsClonedAlike K.is_clone e.0) self.old }
        ensures due { IfOk result (λ keys. keys.items ≡ due_keys now self.old) }
        ensures in_order { IfOk result (λ keys. IsStrictlySortedBy K.cmp keys.items) }
        ensures ok { OnOk result (self.new ≡ later now self.old) }
        ensures err { OnErr result (self.new ≡ self.old) }

        // The same by look-ups: a key is given if it was due, otherwise it keeps its moment.
        ensures given { IfOk result (λ keys. (q : K)
            → list_any (is_at (K.cmp q)) keys.items ≡ is_due now (moment K.cmp self.old q)) }
        ensures moments { OnOk result ((q : K)
            → moment K.cmp self.new q ≡ if_later now (moment K.cmp self.old q)) }
    {
        // The schedule has copies of the keys; each is replaced by the key of the map.
        let mut keys = self.dues.take_due(now)?;
        for key in keys.iter_mut() {
            if let Some((own, _)) = self.moments.remove_entry(&*key) {
                *key = own;
            }
        }
        Ok(keys)
    }
}
