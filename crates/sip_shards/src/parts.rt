//! The items of a phase, cut into the parts of the shards.

ghost use Rattle.std.specs.Prelude.{◌≡◌, ◌<◌, ◌≤◌, ℕ, List, [], IfOk, OnOk, map, vec_len, All};
ghost use Rattle.sip_message.specs.Key.{branch_in};
ghost use Rattle.sip_shards.specs.Parts.{cut_by, owner_of};
ghost use Rattle.sip_shards.specs.Steps.Put.{with_item};

use keyed_machine::Item;
use sip_message::{CallId, Cut, SharedKey};
use std::alloc::{AllocError, Global};

/// A key with a name, by which it is cut among shards.
pub trait Named {
    ghost name: { Self → List ℕ };

    fn name(&self) -> &[u8]
        ensures { result.now ≡ name self.now };
}

impl Named for SharedKey {
    ghost name = { branch_in };

    fn name(&self) -> &[u8] {
        self.get().branch()
    }
}

impl Named for CallId {
    ghost name = { λ call_id. call_id };

    fn name(&self) -> &[u8] {
        self.as_slice()
    }
}

/// For each of `shards` shards, the items of the keys that it owns, in their order.
pub fn parts_of<C: Cut, K: Named + Drop, I: Drop>(
    alloc: Global,
    cut: &C,
    items: Vec<Item<K, I>>,
    shards: usize,
) -> Result<Vec<Vec<Item<K, I>>>, AllocError>
    requires some { 0 < shards }
    requires most { shards ≤ 256 }
    ensures { IfOk result (λ parts. map (λ part. part.items) parts.items
        ≡ cut_by (owner_of (C.shard_of cut.now) K.name shards) 0 shards items.items) }
{
    if shards == 1 {
        one_part(alloc, items)
    } else {
        parts_by_name(alloc, cut, items, shards)
    }
}

// One shard has all items.
fn one_part<K: Drop, I: Drop>(
    alloc: Global,
    items: Vec<Item<K, I>>,
) -> Result<Vec<Vec<Item<K, I>>>, AllocError>
    ensures { (owner : K → ℕ) → ((key : K) → owner key < 1)
        → IfOk result (λ parts. map (λ part. part.items) parts.items
        ≡ cut_by owner 0 1 items.items) }
{
    let mut parts = Vec::with_capacity(alloc, 1)?;
    parts.push(items)?;
    Ok(parts)
}

// Puts each item into the part of the shard that owns its name.
fn parts_by_name<C: Cut, K: Named + Drop, I: Drop>(
    alloc: Global,
    cut: &C,
    items: Vec<Item<K, I>>,
    shards: usize,
) -> Result<Vec<Vec<Item<K, I>>>, AllocError>
    requires some { 0 < shards }
    requires most { shards ≤ 256 }
    ensures { IfOk result (λ parts. map (λ part. part.items) parts.items
        ≡ cut_by (owner_of (C.shard_of cut.now) K.name shards) 0 shards items.items) }
{
    let mut parts = empty_parts(alloc, shards, items.len())?;
    for item in items {
        put(cut, shards, &mut parts, item)?;
    }
    Ok(parts)
}

/// Puts an item at the end of the part of the shard that owns its key; there are `shards` shards.
pub fn put<C: Cut, K: Named + Drop, I: Drop>(
    cut: &C,
    shards: usize,
    parts: &mut Vec<Vec<Item<K, I>>>,
    item: Item<K, I>,
) -> Result<(), AllocError>
    requires some { 0 < shards }
    requires most { shards ≤ 256 }
    requires count { vec_len parts.old ≡ shards }
    ensures { OnOk result (map (λ part. part.items) parts.new.items
        ≡ with_item (owner_of (C.shard_of cut.now) K.name shards) item
        (map (λ part. part.items) parts.old.items)) }
{
    let shard = owner(cut, &item.key, shards);
    Ok(parts[shard].push(item)?)
}

// The shard that owns a key, of `shards` shards. A single shard owns all.
fn owner<C: Cut, K: Named>(cut: &C, key: &K, shards: usize) -> usize
    requires some { 0 < shards }
    requires most { shards ≤ 256 }
    ensures { result ≡ owner_of (C.shard_of cut.now) K.name shards key.now }
{
    if shards == 1 {
        return 0;
    }
    cut.shard(key.name(), shards)
}

/// `shards` parts without items, with room for `items` items in all.
pub fn empty_parts<X: Drop>(
    alloc: Global,
    shards: usize,
    items: usize,
) -> Result<Vec<Vec<X>>, AllocError>
    requires { 0 < shards }
    ensures count { IfOk result (λ parts. vec_len parts ≡ shards) }
    ensures empty { IfOk result (λ parts. All (λ part. part.items ≡ []) parts.items) }
{
    let mut parts = Vec::with_capacity(alloc, shards)?;
    for _ in 0..shards {
        parts.push(Vec::with_capacity(alloc, items / shards)?)?;
    }
    Ok(parts)
}
