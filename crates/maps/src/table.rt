// One map in memory.

ghost use Rattle.std.specs.Prelude.{◌≡◌, ◌≢◌, ◌+◌, ◌<◌, ◌≤◌, ℕ, List, take, drop, length, vec_len, slice_get, Some, None, IfSome, IfNone, IfOk, true, false};
ghost use Rattle.std.specs.List.{AllByRecursion};
ghost use Rattle.std.specs.FinMap as finite_map;
ghost use Rattle.std.specs.Borrow.{sem};
ghost use Rattle.maps.specs.declared.shapes.Shape.{Shape};
ghost use Rattle.maps.specs.Shapes.{key_size, value_size, entry_count, IsShapeSupported, IsHash};
ghost use Rattle.maps.specs.Maps.{AreBytes, index_key};
ghost use Rattle.maps.specs.MapSets.{stored_shapes, entries_of, opening_keys, opened_map};
ghost use Rattle.maps.specs.Blocks.{keys_at, stored, contents, FitsIndex, IsTable, HasRoomFor, HasFreePlace, HasClaimed, AreTables};
ghost use Rattle.keyindex.specs.Places.{filled};

use crate::shapes::Shape;
use keyindex::{Inserted, KeyIndex};
use std::alloc::{AllocError, Global};

/// A shape, its block of values, one place after another, and of a hash the index that says which key stands at which
/// place. The keys of an array are its indices.
#[derive(Drop)]
pub(crate) struct Table {
    pub(crate) shape: Shape,
    pub(crate) block: Vec<u8>,
    index: Option<KeyIndex>,
}

impl Table {
    ghost use Rattle.maps.specs.Lent.{LendsBlock};

    /// A table of a shape: zeros for all values, and all keys of an array, or none of a hash.
    pub(crate) fn open(alloc: Global, shape: Shape) -> Result<Table, AllocError>
        requires shape { IsShapeSupported shape }
        ensures opened { IfOk result (λ t. stored t ≡ opened_map shape) }
        ensures table { IfOk result IsTable }
    {
        let block = vec![in alloc; 0; shape.entry_count() * shape.value_bytes()]?;
        let index = open_index(alloc, shape)?;
        Ok(Table {
            shape,
            block,
            index,
        })
    }

    /// A table with the keys and the values of `source`, and as much room.
    pub(crate) fn copy_of(alloc: Global, source: &Table) -> Result<Table, AllocError>
        requires source { IsTable source.now }
        ensures same { IfOk result (λ t. stored t ≡ stored source.now) }
        ensures table { IfOk result IsTable }
    {
        let block = Vec::from_slice(alloc, &source.block)?;
        let index = copy_index(alloc, &source.index)?;
        Ok(Table {
            shape: source.shape,
            block,
            index,
        })
    }

    /// The number of keys.
    pub(crate) fn len(&self) -> usize
        requires shape { IsShapeSupported self.now.shape }
        requires table { IsTable self.now }
        ensures keys { result ≡ finite_map.len (entries_of (stored self.now)) }
    {
        match &self.index {
            None => self.shape.entry_count(),
            Some(index) => index.len(),
        }
    }

    /// The number of places, at each of which a key stands or none.
    pub(crate) fn places(&self) -> u32
        requires shape { IsShapeSupported self.now.shape }
        requires table { IsTable self.now }
        ensures places { result ≡ length (stored self.now).keys }
        ensures entries { result ≡ entry_count self.now.shape }
    {
        self.shape.entry_count() as u32
    }

    /// The place of a key, if it stands anywhere.
    pub(crate) fn find(&self, key: &[u8]) -> Option<u32>
        requires shape { IsShapeSupported self.now.shape }
        requires table { IsTable self.now }
        requires key { length key.now ≡ key_size self.now.shape }
        ensures found { IfSome result (λ p. slice_get (stored self.now).keys p ≡ Some (Some key.now)) }
        ensures absent { IfNone result ((p : ℕ) → slice_get (stored self.now).keys p ≢ Some (Some key.now)) }
    {
        match &self.index {
            None => {
                let place = index_of(key);
                if (place as usize) < self.shape.entry_count() {
                    Some(place)
                } else {
                    None
                }
            }
            Some(index) => index.lookup(key),
        }
    }

    /// Writes the key at a place into `key`, if one stands there. Whether one does.
    pub(crate) fn key(&self, place: u32, key: &mut [u8]) -> bool
        requires table { IsTable self.now }
        requires place { place < entry_count self.now.shape }
        requires room { length key.old ≡ key_size self.now.shape }
        ensures there { result ≡ true → slice_get (stored self.now).keys place ≡ Some (Some key.new) }
        ensures free { result ≡ false → slice_get (stored self.now).keys place ≡ Some None }
        ensures kept { result ≡ false → key.new ≡ key.old }
        ensures size { length key.new ≡ length key.old }
    {
        match &self.index {
            None => {
                key.copy_from_slice(&place.to_le_bytes());
                true
            }
            Some(index) => match index.key(place) {
                Some(stored) => {
                    key.copy_from_slice(stored);
                    true
                }
                None => false,
            },
        }
    }

    /// The bytes of the block, also of places where no key stands: as all bytes they are numbers below 256.
    pub(crate) fn bytes(&self) -> &[u8]
        ensures bytes { result.now ≡ self.now.block.items }
        ensures are_bytes { AreBytes result.now }
    {
        as_bytes(&self.block)
    }

    /// Lends `size` bytes of the block, from `start` on, to be written.
    pub(crate) fn bytes_mut(&mut self, start: usize, size: usize) -> &mut [u8]
        requires { start + size ≤ vec_len self.old.block }
        ensures* writes_back { sem 𝓛 (LendsBlock self.entry start result) }
        ensures value { result.now ≡ take size (drop start self.old.block.items) }
        ensures size { length result.now ≡ size }
    {
        let block = &mut self.block;
        block.slice_mut(start..start + size)
    }

    /// The place of a key, from now on: its own, or a free one; none where there is none.
    pub(crate) fn claim(&mut self, key: &[u8]) -> Option<Inserted>
        requires shape { IsShapeSupported self.old.shape }
        requires table { IsTable self.old }
        requires key { length key.now ≡ key_size self.old.shape }
        ensures shape { self.new.shape ≡ self.old.shape }
        ensures block { self.new.block ≡ self.old.block }
        ensures table { IsTable self.new }
        ensures claimed { IfSome result (λ r. HasClaimed self.old self.new key.now r.place) }
        ensures found { IfSome result (λ r. r.is_new ≡ false → slice_get (stored self.old).keys r.place ≡ Some (Some key.now)) }
        ensures kept { IfSome result (λ r. r.is_new ≡ false → (stored self.new).keys ≡ (stored self.old).keys) }
        ensures new { IfSome result (λ r. r.is_new ≡ true → (p : ℕ) → slice_get (stored self.old).keys p ≢ Some (Some key.now)) }
        ensures room { IfSome result (λ r. r.is_new ≡ true → HasFreePlace self.old) }
        ensures absent { IfNone result ((p : ℕ) → slice_get (stored self.old).keys p ≢ Some (Some key.now)) }
        ensures full { IfNone result (IsHash self.old.shape → entry_count self.old.shape ≤ filled (stored self.old).keys) }
        ensures unchanged { IfNone result ((stored self.new).keys ≡ (stored self.old).keys) }
    {
        match &mut self.index {
            None => {
                let place = index_of(key);
                if (place as usize) < self.shape.entry_count() {
                    Some(Inserted {
                        place,
                        is_new: false,
                    })
                } else {
                    None
                }
            }
            Some(index) => index.insert(key),
        }
    }

    /// Puts a value under a key, which is there, or for which a hash has room.
    pub(crate) fn put(&mut self, key: &[u8], value: &[u8])
        requires shape { IsShapeSupported self.old.shape }
        requires table { IsTable self.old }
        requires key { length key.now ≡ key_size self.old.shape }
        requires value { length value.now ≡ value_size self.old.shape }
        requires room { HasRoomFor self.old key.now }
        ensures shape { self.new.shape ≡ self.old.shape }
        ensures table { IsTable self.new }
        ensures entries { entries_of (stored self.new) ≡ finite_map.insert (entries_of (stored self.old)) key.now value.now }
    {
        let place = self.claim(key).unwrap().place;
        let size = self.shape.value_bytes();
        let bytes = self.bytes_mut(place as usize * size, size);
        bytes.copy_from_slice(value);
    }

    /// Takes a hash's key out, with its value. Whether it was there.
    pub(crate) fn take_out(&mut self, key: &[u8]) -> bool
        requires shape { IsShapeSupported self.old.shape }
        requires table { IsTable self.old }
        requires hash { IsHash self.old.shape }
        requires key { length key.now ≡ key_size self.old.shape }
        ensures shape { self.new.shape ≡ self.old.shape }
        ensures table { IsTable self.new }
        ensures entries { entries_of (stored self.new) ≡ finite_map.remove (entries_of (stored self.old)) key.now }
        ensures was { result ≡ true → (p : ℕ) × (slice_get (stored self.old).keys p ≡ Some (Some key.now)) }
        ensures absent { result ≡ false → (p : ℕ) → slice_get (stored self.old).keys p ≢ Some (Some key.now) }
        ensures unchanged { result ≡ false → stored self.new ≡ stored self.old }
    {
        let Some(index) = &mut self.index else {
            return false;
        };
        let Some(removed) = index.remove(key) else {
            return false;
        };
        let size = self.shape.value_bytes();
        let from = removed.from as usize * size;
        let to = removed.place as usize * size;
        self.block.copy_within(from..from + size, to);
        true
    }

    /// Copies the keys and the values of a table of the same shape.
    pub(crate) fn copy_from(&mut self, source: &Table)
        requires table { IsTable self.old }
        requires source { IsTable source.now }
        requires shape { self.old.shape ≡ source.now.shape }
        ensures same { stored self.new ≡ stored source.now }
        ensures table { IsTable self.new }
    {
        self.block.copy_from_slice(&source.block);
        if let (Some(index), Some(from)) = (&mut self.index, &source.index) {
            index.copy_from(from);
        }
    }
}

/// The index of a hash's keys; an array has none.
fn open_index(alloc: Global, shape: Shape) -> Result<Option<KeyIndex>, AllocError>
    requires shape { IsShapeSupported shape }
    ensures fits { IfOk result (FitsIndex shape) }
    ensures keys { IfOk result (λ index. keys_at shape index ≡ opening_keys shape) }
{
    match shape {
        Shape::Array { .. } => Ok(None),
        Shape::Hash { key, entries, .. } => {
            let places = entries as usize;
            let index = KeyIndex::open(alloc, key as usize, places, places)?;
            Ok(Some(index))
        }
    }
}

/// Copies the index, if there is one, into room of its own.
fn copy_index(alloc: Global, index: &Option<KeyIndex>) -> Result<Option<KeyIndex>, AllocError>
    ensures fits { IfOk result (λ copy. (shape : Shape) → FitsIndex shape index.now → FitsIndex shape copy) }
    ensures keys { IfOk result (λ copy. (shape : Shape) → keys_at shape copy ≡ keys_at shape index.now) }
{
    match index {
        None => Ok(None),
        Some(index) => {
            let copy = KeyIndex::copy_of(alloc, index)?;
            Ok(Some(copy))
        }
    }
}

/// Gives the bytes as they are: like all bytes that are read, they are numbers below 256.
fn as_bytes(bytes: &[u8]) -> &[u8]
    ensures same { result.now ≡ bytes.now }
    ensures are_bytes { AreBytes result.now }
{
    bytes
}

/// The index that a key of an array is.
fn index_of(key: &[u8]) -> u32
    requires size { length key.now ≡ 4 }
    ensures index { key.now ≡ index_key result }
{
    u32::from_le_bytes([key[0], key[1], key[2], key[3]])
}

/// Tables with the keys and the values of these, and as much room.
pub(crate) fn copies_of_tables(alloc: Global, source: &Vec<Table>) -> Result<Vec<Table>, AllocError>
    requires source { AreTables source.now.items }
    ensures same { IfOk result (λ v. contents v.items ≡ contents source.now.items) }
    ensures tables { IfOk result (λ v. AreTables v.items) }
{
    let mut tables = Vec::with_capacity(alloc, source.len())?;
    for table in source {
        let copy = Table::copy_of(alloc, table)?;
        tables.push(copy)?;
    }
    Ok(tables)
}

/// Copies the keys and the values of tables of the same shapes.
pub(crate) fn copy_tables(tables: &mut Vec<Table>, source: &Vec<Table>)
    requires tables { AreTables tables.old.items }
    requires source { AreTables source.now.items }
    requires shapes { stored_shapes (contents tables.old.items) ≡ stored_shapes (contents source.now.items) }
    ensures same { contents tables.new.items ≡ contents source.now.items }
    ensures tables { AreTables tables.new.items }
{
    for m in 0..tables.len() {
        let table = &mut tables[m];
        table.copy_from(&source[m]);
    }
}
