// The maps of a program in memory.

ghost use Rattle.std.specs.Prelude.{◌≡◌, ◌↔◌, ◌<◌, ◌≢◌, ℕ, List, length, slice_get, All, Some, Err, IfSome, IfNone, IsSome, IsNone, IfOk, IfErr, is_some, not, true, false};
ghost use Rattle.std.specs.List.{AllByRecursion};
ghost use Rattle.std.specs.FinMap as finite_map;
ghost use Rattle.std.specs.Borrow.{sem};
ghost use Rattle.maps.specs.Shapes.{key_size, value_size, entry_count, block_size, first_shape_fault, first_fault_within, AreLimits, AreShapesSupported, IsShapeSupported, IsHash};
ghost use Rattle.maps.specs.Blocks.{contents, IsTable};
ghost use Rattle.maps.specs.declared.shapes.MapError.TheVariants.{NoMemory, Refused};
ghost use Rattle.maps.specs.Maps.{HasShapes, MapState, value_at};
ghost use Rattle.maps.specs.MapSets.{maps_of, stored_shapes, key_at, key_of, value_of, block_of, HoldsValues, write_value, write_block, KeepsShapes, PutsValue, PutsOneValue, opened, opening_maps, PutsWritten, put_value, take_key, HasRoom, IsFull};
ghost use Rattle.maps.specs.Scans.{IsPage, ScansInto, given};

use crate::entry::{Entry, Inserted, Scanned};
use crate::shapes::{MapError, MapLimits, Shape, shapes_ok, shapes_within};
use crate::table::{Table, copies_of_tables, copy_tables};
use std::alloc::{AllocError, Global};
use std::marker::Model;

/// Maps of fixed shapes. All their room is taken when they are opened, one flat block of bytes for each map; no later
/// call takes memory. An array has all its keys, a hash those that were put in. Maps of some shapes stay maps of these
/// shapes through each change, as the clauses `maps` say.
#[derive(Drop)]
pub struct MapSet {
    tables: Vec<Table>,
}

impl Model for MapSet {
    ghost use Rattle.maps.specs.MapSets.{Contents};

    ghost Value = { Contents };

    ghost use Rattle.maps.specs.Blocks.{contents, AreTables};

    ghost view = { λ a. contents a.tables.items };

    ghost invariant = { λ a. AreTables a.tables.items };
}

impl MapSet {
    ghost use Rattle.maps.specs.LentValue.{LendsValue, LendsValues};
    ghost use Rattle.maps.specs.declared.shapes.Shape.{Shape};
    ghost use Rattle.maps.specs.declared.entry.Entry.{Entry};

    /// Maps of these shapes: arrays of zeros, hashes without a key. Refused as by [`shapes_ok`], or with
    /// [`MapError::NoMemory`] where there is no room for them.
    pub fn open(alloc: Global, shapes: &[Shape]) -> Result<MapSet, MapError>
        ensures opened { IfOk result (λ c. c ≡ opened shapes.now) }
        ensures maps { IfOk result (λ c. maps_of c ≡ opening_maps shapes.now) }
        ensures shapes { IfOk result (λ c. HasShapes shapes.now (maps_of c)) }
        ensures refused { IfSome (first_shape_fault shapes.now) (λ fault. result ≡ Err (Refused fault)) }
        ensures otherwise { IfNone (first_shape_fault shapes.now) (IfErr result (λ e. e ≡ NoMemory)) }
    {
        shapes_ok(shapes)?;
        let maps = MapSet::open_supported(alloc, shapes)?;
        Ok(maps)
    }

    /// Maps of these shapes, as [`MapSet::open`] opens them, by these limits instead of the standard ones.
    ///
    /// # Errors
    ///
    /// The shapes are past these limits, or the system has no memory left.
    pub fn open_within(
        alloc: Global,
        limits: &MapLimits,
        shapes: &[Shape],
    ) -> Result<MapSet, MapError>
        requires limits { AreLimits limits.now }
        ensures opened { IfOk result (λ c. c ≡ opened shapes.now) }
        ensures maps { IfOk result (λ c. maps_of c ≡ opening_maps shapes.now) }
        ensures shapes { IfOk result (λ c. HasShapes shapes.now (maps_of c)) }
        ensures refused { IfSome (first_fault_within limits.now shapes.now) (λ fault. result ≡ Err (Refused fault)) }
        ensures otherwise { IfNone (first_fault_within limits.now shapes.now) (IfErr result (λ e. e ≡ NoMemory)) }
    {
        shapes_within(limits, shapes)?;
        let maps = MapSet::open_supported(alloc, shapes)?;
        Ok(maps)
    }

    /// Maps of these shapes, which the widest limits allow.
    ///
    /// # Errors
    ///
    /// The system has no memory left.
    pub fn open_supported(alloc: Global, shapes: &[Shape]) -> Result<MapSet, AllocError>
        requires shapes { AreShapesSupported shapes.now }
        ensures opened { IfOk result (λ c. c ≡ opened shapes.now) }
        ensures maps { IfOk result (λ c. maps_of c ≡ opening_maps shapes.now) }
        ensures shapes { IfOk result (λ c. HasShapes shapes.now (maps_of c)) }
    {
        let tables = open_tables(alloc, shapes)?;
        Ok(MapSet { tables })
    }

    /// Maps with the keys and the values of `source`, and as much room. Its keys stand at the same places.
    pub fn copy_of(alloc: Global, source: &MapSet) -> Result<MapSet, AllocError>
        ensures same { IfOk result (λ c. c ≡ source.now) }
    {
        let tables = copies_of_tables(alloc, &source.tables)?;
        Ok(MapSet { tables })
    }

    /// How many maps there are.
    pub fn count(&self) -> usize
        ensures count { result ≡ length (stored_shapes self.now) }
    {
        self.tables.len()
    }

    /// The shape of map `m`.
    pub fn shape(&self, m: usize) -> Shape
        requires map { m < length (stored_shapes self.now) }
        ensures shape { slice_get (stored_shapes self.now) m ≡ Some result }
    {
        self.tables[m].shape
    }

    /// The number of keys of map `m`.
    pub fn len(&self, m: usize) -> usize
        requires map { m < length (stored_shapes self.now) }
        ensures keys { IfSome (slice_get (maps_of self.now) m) (λ s. result ≡ finite_map.len s.entries) }
    {
        self.tables[m].len()
    }

    /// How many places map `m` has: one for each entry that it has or may have.
    pub fn places(&self, m: usize) -> u32
        requires map { m < length (stored_shapes self.now) }
        ensures places { IfSome (slice_get self.now m) (λ s. result ≡ length s.keys) }
        ensures entries { IfSome (slice_get (stored_shapes self.now) m) (λ s. result ≡ entry_count s) }
    {
        let table = &self.tables[m];
        table.places()
    }

    /// The entry of map `m` where a key stands, if it does.
    pub fn lookup(&self, m: usize, key: &[u8]) -> Option<Entry>
        requires map { m < length (stored_shapes self.now) }
        requires key { IfSome (slice_get (stored_shapes self.now) m) (λ s. length key.now ≡ key_size s) }
        ensures found { IfSome result (λ e. (e.map ≡ m) × (key_of self.now e ≡ Some key.now)) }
        ensures place { IfSome result (λ e. IfSome (slice_get (stored_shapes self.now) m) (λ s. e.place < entry_count s)) }
        ensures absent { IsNone result ↔ IsNone (value_at (maps_of self.now) m key.now) }
    {
        let place = self.tables[m].find(key)?;
        Some(Entry {
            map: m as u8,
            place,
        })
    }

    /// Writes the key at a place of map `m` into `key`, if one stands there. Whether one does.
    pub fn key(&self, m: usize, place: u32, key: &mut [u8]) -> bool
        requires map { m < length (stored_shapes self.now) }
        requires place { IfSome (slice_get (stored_shapes self.now) m) (λ s. place < entry_count s) }
        requires room { IfSome (slice_get (stored_shapes self.now) m) (λ s. length key.old ≡ key_size s) }
        ensures there { result ≡ is_some (key_at self.now m place) }
        ensures key { result ≡ true → key_at self.now m place ≡ Some key.new }
        ensures kept { result ≡ false → key.new ≡ key.old }
        ensures size { length key.new ≡ length key.old }
    {
        self.tables[m].key(place, key)
    }

    /// The value of an entry.
    pub fn value(&self, entry: Entry) -> &[u8]
        requires stands { IsSome (key_of self.now entry) }
        ensures value { value_of self.now entry ≡ Some result.now }
        ensures size { IfSome (slice_get (stored_shapes self.now) entry.map) (λ s. length result.now ≡ value_size s) }
    {
        let table = &self.tables[entry.map as usize];
        let size = table.shape.value_bytes();
        let start = entry.place as usize * size;
        &table.block[start..start + size]
    }

    /// Gives entries of map `m` from a place on, their keys one after another in `keys` and their values in `values`, as many as both
    /// have room for. It looks at no more than 1,024 places, and 16 more for each entry that there is room for.
    pub fn scan(&self, m: usize, from: u32, keys: &mut [u8], values: &mut [u8]) -> Scanned
        requires map { m < length (stored_shapes self.now) }
        requires place { IfSome (slice_get (stored_shapes self.now) m) (λ s. from < entry_count s) }
        ensures page { IfSome (slice_get self.now m) (λ s. IsPage s from (given s.shape result.count keys.new values.new) result.next) }
        ensures scanned { (s : MapState) → slice_get (maps_of self.now) m ≡ Some s
            → ScansInto s from (length keys.old) (length values.old) keys.new values.new result }
    {
        let table = &self.tables[m];
        let room = table.room_in(keys.len(), values.len());
        let end = table.scan_end(from, room);
        let (count, place) = table.scan(from, end, room, keys, values);
        let next = table.next_place(place);
        Scanned { count, next }
    }

    /// The value of an entry, to be written.
    pub fn value_mut(&mut self, entry: Entry) -> &mut [u8]
        requires stands { IsSome (key_of self.old entry) }
        ensures* writes_back { sem 𝓛 (LendsValue self.entry entry result) }
        ensures value { value_of self.old entry ≡ Some result.now }
        ensures size { IfSome (slice_get (stored_shapes self.old) entry.map) (λ s. length result.now ≡ value_size s) }

        // Bytes as many as the value has become the value of the entry's key. Every other key of every map keeps its
        // value, and each place its key.
        ensures written { PutsValue self.old entry (length result.now) }
        ensures maps { KeepsShapes self.old entry (length result.now) }
        ensures places { (w : List ℕ) (other : Entry) → key_of (write_value self.old entry w) other ≡ key_of self.old other }
        ensures shapes { (w : List ℕ) → stored_shapes (write_value self.old entry w) ≡ stored_shapes self.old }
    {
        let table = &mut self.tables[entry.map as usize];
        let size = table.shape.value_bytes();
        table.bytes_mut(entry.place as usize * size, size)
    }

    /// The bytes of all values of map `m`: the value of place `p` are those from `p` times the size of a value on. They may
    /// be anything at places where no key stands.
    pub fn block(&self, m: usize) -> &[u8]
        requires map { m < length (stored_shapes self.now) }
        ensures block { block_of self.now m ≡ Some result.now }
        ensures size { IfSome (slice_get (stored_shapes self.now) m) (λ s. length result.now ≡ block_size s) }
        ensures values { HoldsValues self.now m result.now }
    {
        &self.tables[m].block
    }

    /// The bytes of all values of map `m`, to be written: the value of place `p` are those from `p` times the size of a
    /// value on.
    pub fn block_mut(&mut self, m: usize) -> &mut [u8]
        requires map { m < length (stored_shapes self.old) }
        ensures* writes_back { sem 𝓛 (LendsValues self.entry m result) }
        ensures block { block_of self.old m ≡ Some result.now }
        ensures size { IfSome (slice_get (stored_shapes self.old) m) (λ s. length result.now ≡ block_size s) }
        ensures values { HoldsValues self.old m result.now }

        // The map has the bytes that were written. Where those of one entry's value alone were, they have become the
        // value of its key, and every other key of every map keeps its value.
        ensures written { (w : List ℕ) → length w ≡ length result.now → block_of (write_block self.old m w) m ≡ Some w }
        ensures one_value { PutsOneValue self.old m result.now }

        // Other maps, all keys and all shapes stay.
        ensures others { (w : List ℕ) (n : ℕ) → n ≢ m → slice_get (write_block self.old m w) n ≡ slice_get self.old n }
        ensures places { (w : List ℕ) (e : Entry) → key_of (write_block self.old m w) e ≡ key_of self.old e }
        ensures shapes { (w : List ℕ) → stored_shapes (write_block self.old m w) ≡ stored_shapes self.old }
    {
        let table = &mut self.tables[m];
        let len = table.block.len();
        table.bytes_mut(0, len)
    }

    /// Puts a value under a key of map `m`, in place of what was under it. The key is there, or the map is a hash with
    /// fewer keys than entries.
    pub fn update(&mut self, m: usize, key: &[u8], value: &[u8])
        requires map { m < length (stored_shapes self.old) }
        requires key { IfSome (slice_get (stored_shapes self.old) m) (λ s. length key.now ≡ key_size s) }
        requires value { IfSome (slice_get (stored_shapes self.old) m) (λ s. length value.now ≡ value_size s) }
        requires room { HasRoom (maps_of self.old) m key.now }
        ensures updated { maps_of self.new ≡ put_value (maps_of self.old) m key.now value.now }
        ensures maps { (shapes : List Shape) → HasShapes shapes (maps_of self.old) → HasShapes shapes (maps_of self.new) }
        ensures others { (n : ℕ) → n ≢ m → slice_get self.new n ≡ slice_get self.old n }
        ensures shapes { stored_shapes self.new ≡ stored_shapes self.old }
    {
        let table = &mut self.tables[m];
        table.put(key, value);
    }

    /// The entry of a key of map `m` from now on: its own, or, where a hash has fewer keys than entries, a free one. What
    /// its value is before one is written is not told where the key is new.
    pub fn insert(&mut self, m: usize, key: &[u8]) -> Option<Inserted>
        requires map { m < length (stored_shapes self.old) }
        requires key { IfSome (slice_get (stored_shapes self.old) m) (λ s. length key.now ≡ key_size s) }
        ensures entry { IfSome result (λ r. (r.entry.map ≡ m) × (key_of self.new r.entry ≡ Some key.now)) }
        ensures place { IfSome result (λ r. IfSome (slice_get (stored_shapes self.old) m) (λ s. r.entry.place < entry_count s)) }
        ensures written { IfSome result (λ r. PutsWritten self.old self.new m key.now r.entry) }
        ensures found { IfSome result (λ r. is_some (value_at (maps_of self.old) m key.now) ≡ not r.is_new) }
        ensures kept { IfSome result (λ r. r.is_new ≡ false → self.new ≡ self.old) }
        ensures room { IfSome result (λ _. HasRoom (maps_of self.old) m key.now) }
        ensures maps { (shapes : List Shape) → HasShapes shapes (maps_of self.old) → HasShapes shapes (maps_of self.new) }

        // No entry is told where the key isn't there and can't be put.
        ensures absent { IfNone result (IsNone (value_at (maps_of self.old) m key.now)) }
        ensures full { IfNone result (IfSome (slice_get (maps_of self.old) m) IsFull) }
        ensures unchanged { IfNone result (self.new ≡ self.old) }
        ensures others { (n : ℕ) → n ≢ m → slice_get self.new n ≡ slice_get self.old n }
        ensures shapes { stored_shapes self.new ≡ stored_shapes self.old }
    {
        let table = &mut self.tables[m];
        let claimed = table.claim(key)?;
        // (that each byte of the table is below 256: the proof takes it from this call)
        let _bytes = table.bytes();
        let entry = Entry {
            map: m as u8,
            place: claimed.place,
        };
        Some(Inserted {
            entry,
            is_new: claimed.is_new,
        })
    }

    /// Takes a key out of map `m`, a hash. Whether it was there.
    pub fn remove(&mut self, m: usize, key: &[u8]) -> bool
        requires map { m < length (stored_shapes self.old) }
        requires hash { IfSome (slice_get (stored_shapes self.old) m) IsHash }
        requires key { IfSome (slice_get (stored_shapes self.old) m) (λ s. length key.now ≡ key_size s) }
        ensures removed { maps_of self.new ≡ take_key (maps_of self.old) m key.now }
        ensures maps { (shapes : List Shape) → HasShapes shapes (maps_of self.old) → HasShapes shapes (maps_of self.new) }
        ensures was { result ≡ is_some (value_at (maps_of self.old) m key.now) }
        ensures unchanged { result ≡ false → self.new ≡ self.old }
        ensures others { (n : ℕ) → n ≢ m → slice_get self.new n ≡ slice_get self.old n }
        ensures shapes { stored_shapes self.new ≡ stored_shapes self.old }
    {
        let table = &mut self.tables[m];
        table.take_out(key)
    }

    /// Makes the maps those of `source`, which has the same shapes. Takes time in proportion to their room.
    pub fn copy_from(&mut self, source: &MapSet)
        requires shapes { stored_shapes self.old ≡ stored_shapes source.now }
        ensures same { self.new ≡ source.now }
    {
        let tables = &mut self.tables;
        copy_tables(tables, &source.tables);
    }

    /// The entry at a place of map `m`.
    pub fn entry(&self, m: usize, place: u32) -> Entry
        requires map { m < length (stored_shapes self.now) }
        requires place { IfSome (slice_get (stored_shapes self.now) m) (λ s. place < entry_count s) }
        ensures map { result.map ≡ m }
        ensures place { result.place ≡ place }
    {
        // (that there are at most 16 tables, so that the number is one byte)
        let _tables = &self.tables;
        Entry {
            map: m as u8,
            place,
        }
    }
}

/// A table for each shape: zeros for all values.
fn open_tables(alloc: Global, shapes: &[Shape]) -> Result<Vec<Table>, AllocError>
    requires sizes { All IsShapeSupported shapes.now }
    ensures opened { IfOk result (λ v. contents v.items ≡ opened shapes.now) }
    ensures tables { IfOk result (λ v. AllByRecursion IsTable v.items) }
{
    let mut tables = Vec::new(alloc);
    for shape in shapes {
        let table = Table::open(alloc, *shape)?;
        tables.push(table)?;
    }
    Ok(tables)
}
