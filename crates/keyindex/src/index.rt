// An index of keys of one size.

ghost use Rattle.std.specs.Prelude.{◌≡◌, ◌≢◌, ◌+◌, ◌<◌, ◌≤◌, ◌*◌, ℕ, List, suc, length, option_map, slice_set, replicate, Some, None, IfSome, IfNone, IfOk, true, false};
ghost use Rattle.keyindex.specs.Walks.{walk, cell};
ghost use Rattle.keyindex.specs.Indexes.{at, key_of, HasRoom, IsIndex, HasFree};

use crate::bits::{bit, bucket};
use crate::block::{is_key, move_in, write_at};
use std::alloc::{AllocError, Global};

/// The most bytes of a key.
pub const MAX_KEY_SIZE: usize = 512;

/// The most places of an index.
pub const MAX_INDEX_PLACES: usize = 2_147_483_648;

/// The most buckets of an index.
pub const MAX_BUCKETS: usize = 4_294_967_296;

/// The limits that the definitions cite, as numbers.
pub fn limits()
    ensures bytes_of_a_key { MAX_KEY_SIZE ≡ 512 }
    ensures places_of_an_index { MAX_INDEX_PLACES ≡ 2147483648 }
    ensures buckets_of_an_index { MAX_BUCKETS ≡ 4294967296 }
{}

/// Keys of one size, each at a place. All room is taken by [`KeyIndex::open`]. A place keeps its key until the next
/// [`KeyIndex::remove`]. Finding a key takes at most one step more than it has bits, for every choice of keys.
///
/// Each bucket of a hash has a digital search tree, whose nodes are the places themselves. Node 0 is none; node `n` is
/// the one at place `n - 1`. `links` has a link for each bucket, and then two for each node, one under each bit. A key
/// leads from its bucket's link along its bits, bit `d` at depth `d`, and stands on that way.
#[derive(Drop)]
pub struct KeyIndex {
    size: usize,
    buckets: usize,
    links: Vec<u32>,
    /// A node's depth, counted from 1; 0 where it is free.
    depths: Vec<u16>,
    keys: Vec<u8>,
    free: Vec<u32>,
    free_count: usize,
    ghost room: { HasRoom size buckets links.items depths.items keys.items free.items },
    ghost linked: { IsIndex size buckets links.items depths.items keys.items },
    ghost store: { HasFree depths.items free.items free_count },
}

/// A key stands at `place`, and came there only now where it is new.
#[derive(Clone, Copy)]
pub struct Inserted {
    /// Where the key stands.
    pub place: u32,
    /// Whether it stood nowhere before.
    pub is_new: bool,
}

/// A key was taken from `place`. Where `from` is another place, the key that was there is at `place` now.
#[derive(Clone, Copy)]
pub struct Removed {
    /// Where the key stood.
    pub place: u32,
    /// The place that is free now.
    pub from: u32,
}

/// A node, 0 if none, with the link that leads to it and its depth.
#[derive(Clone, Copy)]
struct Spot {
    node: usize,
    cell: usize,
    depth: usize,
}

impl KeyIndex {
    ghost use Rattle.keyindex.specs.Places.{key_in, places, keys_of, filled, HasSizes, SameSizes, IsAbsent, LeadsWithin};

    /// An index with no key, of so many places, for keys of `size` bytes.
    pub fn open(
        alloc: Global,
        size: usize,
        entries: usize,
        buckets: usize,
    ) -> Result<KeyIndex, AllocError>
        requires size_low { 0 < size }
        requires size_high { size ≤ MAX_KEY_SIZE }
        requires entries { entries ≤ MAX_INDEX_PLACES }
        requires buckets_low { 0 < buckets }
        requires buckets_high { buckets ≤ MAX_BUCKETS }
        ensures sizes { IfOk result (λ s. HasSizes s size entries buckets) }
        ensures keys { IfOk result (λ s. keys_of s ≡ replicate entries None) }
    {
        let nodes = entries + 1;
        let links = vec![in alloc; 0u32; buckets + 2 * nodes]?;
        let depths = vec![in alloc; 0u16; nodes]?;
        let keys = vec![in alloc; 0u8; nodes * size]?;
        let mut free = vec![in alloc; 0u32; entries]?;
        for i in 0..entries {
            free[i] = (entries - i) as u32;
        }
        Ok(KeyIndex {
            size,
            buckets,
            links,
            depths,
            keys,
            free,
            free_count: entries,
        })
    }

    /// How many keys there are.
    pub fn len(&self) -> usize
        ensures keys { result ≡ filled (keys_of self.now) }
    {
        self.free.len() - self.free_count
    }

    /// An index with the keys of `source` at their places, and as much room.
    pub fn copy_of(alloc: Global, source: &KeyIndex) -> Result<KeyIndex, AllocError>
        ensures sizes { IfOk result (λ s. SameSizes source.now s) }
        ensures keys { IfOk result (λ s. keys_of s ≡ keys_of source.now) }
    {
        Ok(KeyIndex {
            size: source.size,
            buckets: source.buckets,
            links: Vec::from_slice(alloc, &source.links)?,
            depths: Vec::from_slice(alloc, &source.depths)?,
            keys: Vec::from_slice(alloc, &source.keys)?,
            free: Vec::from_slice(alloc, &source.free)?,
            free_count: source.free_count,
        })
    }

    /// Makes the keys and their places those of `source`, which has the same room.
    pub fn copy_from(&mut self, source: &KeyIndex)
        requires sizes { SameSizes source.now self.old }
        ensures sizes { SameSizes self.old self.new }
        ensures keys { keys_of self.new ≡ keys_of source.now }
    {
        self.links.copy_from_slice(&source.links);
        self.depths.copy_from_slice(&source.depths);
        self.keys.copy_from_slice(&source.keys);
        self.free.copy_from_slice(&source.free);
        self.free_count = source.free_count;
    }

    /// Where a key stands; or the link where it would be put, which leads nowhere.
    fn find(&self, key: &[u8]) -> Spot
        requires key { length key.now ≡ self.now.size }
        ensures cell { result.cell ≡ cell self.now.buckets (at self.now.links.items) key.now result.depth }
        ensures node { walk self.now.buckets (at self.now.links.items) key.now result.depth ≡ result.node }
        ensures depth { result.depth ≤ 8 * self.now.size }
        ensures found { result.node ≢ 0 → key_of self.now.size self.now.keys.items result.node ≡ key.now }
        ensures before { result.node ≡ 0 → (e : ℕ) → result.depth ≡ suc e → walk self.now.buckets (at self.now.links.items) key.now e ≢ 0 }
        ensures absent { result.node ≡ 0 → (n : ℕ) → at self.now.depths.items n ≢ 0 → key_of self.now.size self.now.keys.items n ≢ key.now }
    {
        let mut cell = bucket(key, self.buckets);
        let mut depth = 0;
        'steps: loop {
            let node = self.links[cell] as usize;
            if node == 0 {
                return Spot { node, cell, depth };
            }
            let start = node * self.size;
            let stored = &self.keys[start..start + self.size];
            if is_key(stored, key) {
                return Spot { node, cell, depth };
            }
            cell = self.buckets + 2 * node + bit(key, depth);
            depth += 1;
        }
    }

    /// The place where a key stands, if it does. Whether it does is told by the links along its bits, at most as many as these.
    pub fn lookup(&self, key: &[u8]) -> Option<u32>
        requires key { length key.now ≡ self.now.size }
        ensures place { IfSome result (λ p. p < places self.now) }
        ensures found { IfSome result (λ p. key_in self.now p ≡ Some key.now) }
        ensures absent { IfNone result (IsAbsent self.now key.now) }
        ensures way { LeadsWithin (8 * self.now.size) self.now key.now result }
    {
        let spot = self.find(key);
        if spot.node == 0 {
            None
        } else {
            Some((spot.node - 1) as u32)
        }
    }

    /// The key that stands at a place, if one does.
    pub fn key(&self, place: u32) -> Option<&[u8]>
        requires place { place < places self.now }
        ensures key { option_map (λ k. k.now) result ≡ key_in self.now place }
        ensures size { IfSome result (λ k. length k.now ≡ self.now.size) }
    {
        let node = place as usize + 1;
        if self.depths[node] == 0 {
            return None;
        }
        let start = node * self.size;
        Some(&self.keys[start..start + self.size])
    }

    /// The place where a key stands from now on: its own, or a free one; none where there is no free one.
    pub fn insert(&mut self, key: &[u8]) -> Option<Inserted>
        requires key { length key.now ≡ self.old.size }
        ensures sizes { SameSizes self.old self.new }
        ensures place { IfSome result (λ r. r.place < places self.old) }
        ensures keys { IfSome result (λ r. keys_of self.new ≡ slice_set (keys_of self.old) r.place (Some key.now)) }
        ensures own { IfSome result (λ r. (other : List ℕ) → key_in self.old r.place ≡ Some other → other ≡ key.now) }
        ensures found { IfSome result (λ r. r.is_new ≡ false → key_in self.old r.place ≡ Some key.now) }
        ensures kept { IfSome result (λ r. r.is_new ≡ false → keys_of self.new ≡ keys_of self.old) }
        ensures new { IfSome result (λ r. r.is_new ≡ true → IsAbsent self.old key.now) }
        ensures room { IfSome result (λ r. r.is_new ≡ true → filled (keys_of self.old) < places self.old) }
        ensures full { IfNone result (filled (keys_of self.old) ≡ places self.old) }
        ensures absent { IfNone result (IsAbsent self.old key.now) }
        ensures unchanged { IfNone result (keys_of self.new ≡ keys_of self.old) }
    {
        let spot = self.find(key);
        if spot.node != 0 {
            return Some(Inserted {
                place: spot.node as u32 - 1,
                is_new: false,
            });
        }
        if self.free_count == 0 {
            return None;
        }
        let count = self.free_count - 1;
        let node = self.free[count];
        write_at(&mut self.keys, node as usize * self.size, key);
        self.depths[node as usize] = (spot.depth + 1) as u16;
        self.links[spot.cell] = node;
        self.free_count = count;
        Some(Inserted {
            place: node - 1,
            is_new: true,
        })
    }

    /// A node below one, or itself, under which there is none.
    fn leaf_below(&self, from: Spot, key: &[u8]) -> Spot
        requires some { from.node ≢ 0 }
        requires cell { from.cell ≡ cell self.now.buckets (at self.now.links.items) key.now from.depth }
        requires node { walk self.now.buckets (at self.now.links.items) key.now from.depth ≡ from.node }
        requires found { key_of self.now.size self.now.keys.items from.node ≡ key.now }
        ensures some { result.node ≢ 0 }
        ensures depth { at self.now.depths.items result.node ≡ suc result.depth }
        ensures within { result.node < length self.now.depths.items }
        ensures cell { let y = key_of self.now.size self.now.keys.items result.node in
            result.cell ≡ cell self.now.buckets (at self.now.links.items) y result.depth }
        ensures over { let y = key_of self.now.size self.now.keys.items result.node in
            walk self.now.buckets (at self.now.links.items) y from.depth ≡ from.node }
        ensures leaf { (j : ℕ) → j < 2 → at self.now.links.items (self.now.buckets + 2 * result.node + j) ≡ 0 }
    {
        let mut at = from;
        'descent: loop {
            let cell = self.buckets + 2 * at.node;
            let low = self.links[cell] as usize;
            if low != 0 {
                at = Spot {
                    node: low,
                    cell,
                    depth: at.depth + 1,
                };
            } else {
                let high = self.links[cell + 1] as usize;
                if high == 0 {
                    return at;
                }
                at = Spot {
                    node: high,
                    cell: cell + 1,
                    depth: at.depth + 1,
                };
            }
        }
    }

    /// Takes a key out, if it stands anywhere.
    pub fn remove(&mut self, key: &[u8]) -> Option<Removed>
        requires key { length key.now ≡ self.old.size }
        ensures sizes { SameSizes self.old self.new }
        ensures place { IfSome result (λ r. (r.place < places self.old) × (r.from < places self.old)) }
        ensures was { IfSome result (λ r. key_in self.old r.place ≡ Some key.now) }
        ensures keys { IfSome result (λ r. keys_of self.new
            ≡ slice_set (slice_set (keys_of self.old) r.place (key_in self.old r.from)) r.from None) }
        ensures absent { IfNone result (IsAbsent self.old key.now) }
        ensures unchanged { IfNone result (keys_of self.new ≡ keys_of self.old) }
    {
        let spot = self.find(key);
        if spot.node == 0 {
            return None;
        }
        let leaf = self.leaf_below(spot, key);
        move_in(
            &mut self.keys,
            leaf.node * self.size,
            spot.node * self.size,
            self.size,
        );
        self.links[leaf.cell] = 0;
        self.depths[leaf.node] = 0;
        self.free[self.free_count] = leaf.node as u32;
        self.free_count += 1;
        Some(Removed {
            place: (spot.node - 1) as u32,
            from: (leaf.node - 1) as u32,
        })
    }
}
