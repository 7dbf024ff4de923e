//! The moments at which keys are due, for a caller that knows the moment of each key.

ghost use Rattle.std.specs.Prelude.{◌≡◌, ◌≢◌, ℕ, ◌≤◌, [], Option, Some, None, nat_le, length, OnOk, OnErr, IfOk, IfSome, IfNone};
ghost use Rattle.std.specs.List.{list_any, take_while};
ghost use Rattle.std.specs.BTreeMap.{is_at};
ghost use Rattle.std.specs.List.Sorted.{IsStrictlySortedBy};
ghost use Rattle.sip_timers.specs.Queue.{is_due, if_later, IsClonedAlike};
ghost use Rattle.sip_timers.specs.Index.{due_cmp, IsIndexOf, with_moment};

use crate::NoMemory;
use std::alloc::Global;
use std::collections::BTreeSet;
use std::marker::Model;

/// Keys by the moments, in milliseconds, at which they are due, each key at most once.
///
/// It doesn't look up the moment of a key: a caller that moves a key or takes it out says at which
/// moment it is. A contract sees the list of moments with their keys. Its clauses hold for any map
/// from keys to moments of which this list is the index.
#[derive(Drop)]
pub struct Schedule<K: Ord> {
    alloc: Global,
    dues: BTreeSet<(u64, K)>,
}

impl<K: Ord> Model for Schedule<K> {
    ghost use Rattle.std.specs.Prelude.{ℕ, List};

    ghost Value = { List (ℕ × K) };

    ghost view = { λ s. s.dues.keys };
}

impl<K: Ord + Drop> Schedule<K> {
    /// An empty schedule. Takes no memory.
    pub fn new(alloc: Global) -> Schedule<K>
        ensures { result ≡ [] }
    {
        Schedule {
            alloc,
            dues: BTreeSet::new(alloc),
        }
    }

    /// The earliest moment at which a key is due. Takes no memory.
    pub fn next_due(&self) -> Option<u64>
        ensures none_before { (moments : K → Option ℕ) → IsIndexOf K.cmp moments self.now
            → IfSome result (λ due. (q : K) → IfSome (moments q) (λ other. due ≤ other)) }
        ensures of_a_key { (moments : K → Option ℕ) → IsIndexOf K.cmp moments self.now
            → IfSome result (λ due. (q : K) × (moments q ≡ Some due)) }
        ensures none_due { (moments : K → Option ℕ) → IsIndexOf K.cmp moments self.now
            → IfNone result ((q : K) → moments q ≡ None) }
    {
        Some(self.dues.first()?.0)
    }

    /// Makes a key due that wasn't in the schedule.
    ///
    /// # Errors
    ///
    /// `NoMemory`; then the schedule is unchanged.
    pub fn arm(&mut self, key: K, due: u64) -> Result<(), NoMemory>
        ensures ok { OnOk result ((moments : K → Option ℕ) → IsIndexOf K.cmp moments self.old
            → moments key ≡ None
            → IsIndexOf K.cmp (with_moment K.cmp moments key (Some due)) self.new) }
        ensures err { OnErr result (self.new ≡ self.old) }
    {
        self.dues.insert((due, key))?;
        Ok(())
    }

    /// Moves a key from the moment `former`, at which it is due, to another.
    ///
    /// # Errors
    ///
    /// `NoMemory`; then the key is no longer in the schedule.
    pub fn rearm(&mut self, key: K, former: u64, due: u64) -> Result<(), NoMemory>
        ensures ok { OnOk result ((moments : K → Option ℕ) → IsIndexOf K.cmp moments self.old
            → moments key ≡ Some former
            → IsIndexOf K.cmp (with_moment K.cmp moments key (Some due)) self.new) }
        ensures err { OnErr result ((moments : K → Option ℕ) → IsIndexOf K.cmp moments self.old
            → moments key ≡ Some former
            → IsIndexOf K.cmp (with_moment K.cmp moments key None) self.new) }
    {
        let place = (former, key);
        self.dues.remove(&place);
        self.dues.insert((due, place.1))?;
        Ok(())
    }

    /// Takes out a key that is due at this moment. Takes no memory.
    pub fn disarm(&mut self, key: K, due: u64)
        ensures { (moments : K → Option ℕ) → IsIndexOf K.cmp moments self.old
            → moments key ≡ Some due
            → IsIndexOf K.cmp (with_moment K.cmp moments key None) self.new }
    {
        self.dues.remove(&(due, key));
    }

    /// Takes out all keys that are due at `now` or before, and gives them in the order of the keys.
    ///
    /// # Errors
    ///
    /// `NoMemory`; then the schedule is unchanged.
    pub fn take_due(&mut self, now: u64) -> Result<Vec<K>, NoMemory>
        ensures in_order { (moments : K → Option ℕ) → IsIndexOf K.cmp moments self.old
            → IfOk result (λ keys. IsStrictlySortedBy K.cmp keys.items) }
        ensures given { (moments : K → Option ℕ) → IsIndexOf K.cmp moments self.old
            → IfOk result (λ keys. (q : K)
            → list_any (is_at (K.cmp q)) keys.items ≡ is_due now (moments q)) }
        ensures left { (moments : K → Option ℕ) → IsIndexOf K.cmp moments self.old
            → OnOk result (IsIndexOf K.cmp (λ q. if_later now (moments q)) self.new) }
        ensures err { OnErr result (self.new ≡ self.old) }
    {
        let count = count_due(&self.dues, now);
        let mut keys = Vec::with_capacity(self.alloc, count)?;
        for _ in 0..count {
            let Some((_, key)) = self.dues.pop_first() else {
                unreachable!()
            };
            keys.push_reserved(key);
        }
        keys.sort_unstable();
        Ok(keys)
    }
}

impl<K: Ord + Clone + Drop> Schedule<K> {
    // Puts a copy of a key in at `due`, takes out the key at `former`, and gives the key back. The
    // copy goes in first, so that nothing changes if memory runs out.
    pub(crate) fn replace(&mut self, key: K, former: Option<u64>, due: u64) -> Result<K, NoMemory>
        requires alike { IsClonedAlike K.is_clone key }
        requires other { former ≢ Some due }
        ensures ok { OnOk result ((moments : K → Option ℕ) → IsIndexOf K.cmp moments self.old
            → moments key ≡ former
            → IsIndexOf K.cmp (with_moment K.cmp moments key (Some due)) self.new) }
        ensures key { IfOk result (λ given. given ≡ key) }
        ensures err { OnErr result (self.new ≡ self.old) }
    {
        self.dues.insert((due, key.clone()?))?;
        let Some(former) = former else {
            return Ok(key);
        };
        let before = (former, key);
        self.dues.remove(&before);
        Ok(before.1)
    }
}

// How many keys are due at `now` or before. It looks at these and at the next one.
fn count_due<K: Ord>(dues: &BTreeSet<(u64, K)>, now: u64) -> usize
    ensures count { result ≡ length (take_while (λ due. nat_le due.0 now) dues.now.keys) }
    ensures ordered { IsStrictlySortedBy (due_cmp K.cmp) dues.now.keys }
{
    dues.iter().take_while(|due| due.0 <= now).count()
}
