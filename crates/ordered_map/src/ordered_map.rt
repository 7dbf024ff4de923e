//! A map in the order of insertion.

ghost use Rattle.std.specs.Prelude.{◌≡◌, ◌↔◌, IsTrue, ◌==◌, None, [], ◌∷◌, IfOk, OnOk, length, is_some};
ghost use Rattle.std.specs.Borrow.{sem};
ghost use Rattle.std.specs.Map.{lookup, remove_entry};
ghost use Rattle.std.specs.Option.{option_copied, option_copied_mut};
ghost use Rattle.sip_timers.specs.Queue.{IsClonedAlike};
ghost use Rattle.indexmap.specs.IndexMap.{insert_entry};

use indexmap::IndexMap;
use lru::LruCache;
use sip_same::{SameValue, are_same_maps};
use std::alloc::{AllocError, Global};
use std::hash::{BuildHasher, Hash};
use std::marker::Model;
use std::mem;

/// Up to how many entries are held in a list that closes each gap.
const FEW: usize = 8;

/// A map in the order of insertion. Contracts see the list of its entries.
#[derive(Drop)]
pub struct OrderedMap<K: Eq + Hash, V, S: BuildHasher> {
    alloc: Global,
    hasher: S,
    held: Held<K, V, S>,
}

/// How the entries are held.
#[derive(Drop)]
pub(crate) enum Held<K: Eq + Hash, V, S: BuildHasher> {
    /// In a list.
    Few(IndexMap<K, V, S>),
    /// Linked to one another, until none is left.
    Many(LruCache<K, V, S>),
}

impl<K: Eq + Hash, V, S: BuildHasher> Model for OrderedMap<K, V, S> {
    ghost use Rattle.ordered_map.specs.OrderedMap.{Ordered, entries_of};

    ghost Value = { Ordered K V };

    ghost view = { λ m. record { entries = entries_of m.held } };
}

impl<K: Eq + Hash + Clone + Drop, V: Drop, S: BuildHasher + Copy + Drop> OrderedMap<K, V, S> {
    ghost use Rattle.ordered_map.specs.Lends.{lends_value};

    /// A map without entries, which hashes by `hasher`. Takes no memory.
    pub fn with_hasher(alloc: Global, hasher: S) -> OrderedMap<K, V, S>
        ensures { result.entries ≡ [] }
    {
        OrderedMap {
            alloc,
            hasher,
            held: Held::Few(IndexMap::with_hasher(alloc, hasher)),
        }
    }

    /// The builder of the map's hashers.
    pub fn hasher(&self) -> S {
        self.hasher
    }

    /// Whether it has no entry.
    pub fn is_empty(&self) -> bool
        ensures { result ≡ (length self.now.entries == 0) }
    {
        match &self.held {
            Held::Few(map) => map.is_empty(),
            Held::Many(map) => map.is_empty(),
        }
    }

    /// How many entries it has.
    pub fn len(&self) -> usize
        ensures { result ≡ length self.now.entries }
    {
        match &self.held {
            Held::Few(map) => map.len(),
            Held::Many(map) => map.len(),
        }
    }

    /// Whether a key is in the map.
    pub fn contains_key(&self, key: &K) -> bool
        ensures { result ≡ is_some (lookup (K.eq key.now) self.now.entries) }
    {
        match &self.held {
            Held::Few(map) => map.contains_key(key),
            Held::Many(map) => map.contains(key),
        }
    }

    /// The value at a key.
    pub fn get(&self, key: &K) -> Option<&V>
        ensures { option_copied result ≡ lookup (K.eq key.now) self.now.entries }
    {
        match &self.held {
            Held::Few(map) => map.get(key),
            Held::Many(map) => map.peek(key),
        }
    }

    /// The value at a key, for writing.
    pub fn get_mut(&mut self, key: &K) -> Option<&mut V>
        ensures* writes_back { sem 𝓛 (lends_value K.row V.row S.row S.Hasher.row K.Hash S.BuildHasher
            S.Hasher.Hasher self.entry (K.eq key.now) result) }
        ensures value { option_copied_mut result ≡ lookup (K.eq key.now) self.old.entries }
    {
        match &mut self.held {
            Held::Few(map) => map.get_mut(key),
            Held::Many(map) => map.peek_mut(key),
        }
    }

    /// Puts a value at a key. A key that is there keeps its place; a new one goes last.
    pub fn insert(&mut self, key: K, value: V) -> Result<(), AllocError>
        requires { IsClonedAlike K.is_clone key }
        ensures { OnOk result (self.new.entries ≡ insert_entry K.eq self.old.entries key value) }
    {
        match &mut self.held {
            Held::Few(map) if map.len() < FEW => {
                map.insert(key, value)?;
                Ok(())
            }
            Held::Few(map) => {
                let map = mem::replace(map, IndexMap::with_hasher(self.alloc, self.hasher));
                let mut linked = linked_of(self.alloc, self.hasher, map)?;
                put(&mut linked, key, value)?;
                self.held = Held::Many(linked);
                Ok(())
            }
            Held::Many(map) => put(map, key, value),
        }
    }

    /// Takes all entries out. Takes no memory.
    pub fn take(&mut self) -> OrderedMap<K, V, S>
        ensures value { result.entries ≡ self.old.entries }
        ensures nothing { self.new.entries ≡ [] }
    {
        let (alloc, hasher) = (self.alloc, self.hasher);
        mem::replace(self, OrderedMap::with_hasher(alloc, hasher))
    }

    /// The entries as a list, in time that is linear in their number.
    pub fn into_list(self) -> Result<IndexMap<K, V, S>, AllocError>
        ensures { IfOk result (λ map. map.entries ≡ self.entries) }
    {
        let OrderedMap {
            alloc,
            hasher,
            held,
        } = self;
        match held {
            Held::Few(map) => Ok(map),
            Held::Many(map) => list_of(alloc, hasher, map),
        }
    }

    /// The map of the entries of a list.
    pub fn of_list(alloc: Global, map: IndexMap<K, V, S>) -> Result<OrderedMap<K, V, S>, AllocError>
        ensures { IfOk result (λ all. all.entries ≡ map.entries) }
    {
        let hasher = *map.hasher();
        let held = if map.len() <= FEW {
            Held::Few(map)
        } else {
            Held::Many(linked_of(alloc, hasher, map)?)
        };
        Ok(OrderedMap {
            alloc,
            hasher,
            held,
        })
    }

    /// Takes out the entry of a key. The others keep their order.
    pub fn remove(&mut self, key: &K) -> Option<V>
        ensures value { result ≡ lookup (K.eq key.now) self.old.entries }
        ensures entries { self.new.entries ≡ remove_entry (K.eq key.now) self.old.entries }
    {
        match &mut self.held {
            Held::Few(map) => map.shift_remove(key),
            Held::Many(map) => map.pop(key),
        }
    }
}

impl<K: SameValue + Eq + Hash, V: SameValue, S: BuildHasher> SameValue for OrderedMap<K, V, S> {
    // However they are held: that depends on how many there were before.
    fn is_same(&self, other: &OrderedMap<K, V, S>) -> bool {
        match (&self.held, &other.held) {
            (Held::Few(map), Held::Few(other)) => are_same_maps(map, other),
            (Held::Few(map), Held::Many(other)) => are_linked(other, map),
            (Held::Many(map), Held::Few(other)) => are_linked(map, other),
            (Held::Many(map), Held::Many(other)) => are_linked_alike(map, other),
        }
    }
}

// Whether the linked entries are those of a list.
fn are_linked<K: SameValue + Eq + Hash, V: SameValue, S: BuildHasher>(
    linked: &LruCache<K, V, S>,
    list: &IndexMap<K, V, S>,
) -> bool
    ensures { IsTrue result ↔ (linked.now.entries ≡ list.now.entries) }
{
    let mut others = list.iter();
    for (key, value) in linked.iter() {
        match others.next() {
            Some((other_key, other)) if key.is_same(other_key) && value.is_same(other) => {}
            _ => return false,
        }
    }
    others.next().is_none()
}

// Whether the linked entries of two maps are the same.
fn are_linked_alike<K: SameValue + Eq + Hash, V: SameValue, S: BuildHasher>(
    map: &LruCache<K, V, S>,
    other: &LruCache<K, V, S>,
) -> bool
    ensures { IsTrue result ↔ (map.now.entries ≡ other.now.entries) }
{
    let mut others = other.iter();
    for (key, value) in map.iter() {
        match others.next() {
            Some((other_key, other)) if key.is_same(other_key) && value.is_same(other) => {}
            _ => return false,
        }
    }
    others.next().is_none()
}

// The entries of a list, linked to one another.
fn linked_of<K: Eq + Hash + Drop, V: Drop, S: BuildHasher + Copy + Drop>(
    alloc: Global,
    hasher: S,
    mut entries: IndexMap<K, V, S>,
) -> Result<LruCache<K, V, S>, AllocError>
    ensures { IfOk result (λ map. map.entries ≡ entries.entries) }
{
    // The length is what says that the keys differ.
    let _length = entries.len();
    let mut linked = LruCache::unbounded_with_hasher(alloc, hasher)?;
    while let Some((key, value)) = entries.pop() {
        put_first(&mut linked, key, value)?;
    }
    Ok(linked)
}

// The linked entries as a list.
fn list_of<K: Eq + Hash + Drop, V: Drop, S: BuildHasher + Copy + Drop>(
    alloc: Global,
    hasher: S,
    mut linked: LruCache<K, V, S>,
) -> Result<IndexMap<K, V, S>, AllocError>
    ensures { IfOk result (λ map. map.entries ≡ linked.entries) }
{
    // The length is what says that the keys differ.
    let _length = linked.len();
    let mut entries = IndexMap::with_hasher(alloc, hasher);
    while let Some((key, value)) = linked.pop_mru() {
        entries.insert(key, value)?;
    }
    Ok(entries)
}

// Puts a value at a key. A key that is there keeps its place; a new one goes last.
fn put<K: Eq + Hash + Clone + Drop, V: Drop, S: BuildHasher>(
    map: &mut LruCache<K, V, S>,
    key: K,
    value: V,
) -> Result<(), AllocError>
    requires { IsClonedAlike K.is_clone key }
    ensures { OnOk result (map.new.entries ≡ insert_entry K.eq map.old.entries key value) }
{
    if let Some(held) = map.peek_mut(&key) {
        *held = value;
        return Ok(());
    }
    let last = key.clone()?;
    put_first(map, key, value)?;
    map.demote(&last);
    Ok(())
}

// Puts a value at a new key, before all others.
fn put_first<K: Eq + Hash + Drop, V: Drop, S: BuildHasher>(
    map: &mut LruCache<K, V, S>,
    key: K,
    value: V,
) -> Result<(), AllocError>
    ensures { OnOk result (lookup (K.eq key) map.old.entries ≡ None
        → map.new.entries ≡ (key, value) ∷ map.old.entries) }
{
    if map.len() >= map.cap().get() {
        return Err(AllocError);
    }
    map.put(key, value)?;
    Ok(())
}
