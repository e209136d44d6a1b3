// Entries of one map, from a place on.

ghost use Rattle.std.specs.Prelude.{◌≡◌, ◌⊎◌, ◌+◌, ◌-◌, ◌*◌, ◌++◌, ◌<◌, ◌≤◌, length, min, slice_get, Some, None, IfSome, IfNone, true, false};
ghost use Rattle.maps.specs.Shapes.{key_size, value_size, entry_count, IsShapeSupported};
ghost use Rattle.maps.specs.MapSets.{value_in};
ghost use Rattle.maps.specs.Blocks.{stored, IsTable};
ghost use Rattle.maps.specs.Scans.{room_in, reach, given, entry_at, entries_from, KeepsParts};

use crate::table::Table;

/// Writes bytes over part `n` of a block, where each part has as many.
fn put_part(block: &mut [u8], n: usize, bytes: &[u8])
    requires room { n * length bytes.now + length bytes.now ≤ length block.old }
    ensures part { value_in (length bytes.now) block.new n ≡ bytes.now }
    ensures others { KeepsParts (length bytes.now) n block.old block.new }
{
    let start = n * bytes.len();
    block[start..start + bytes.len()].copy_from_slice(bytes);
}

impl Table {
    /// How many entries there is room for in so many bytes of keys and of values.
    pub(crate) fn room_in(&self, keys: usize, values: usize) -> usize
        requires shape { IsShapeSupported self.now.shape }
        ensures room { result ≡ room_in self.now.shape keys values }
    {
        (keys / self.shape.key_bytes()).min(values / self.shape.value_bytes())
    }

    /// The place behind the last that a scan from a place on looks at.
    pub(crate) fn scan_end(&self, from: u32, room: usize) -> u32
        requires shape { IsShapeSupported self.now.shape }
        ensures end { result ≡ min (from + reach room) (entry_count self.now.shape) }
    {
        let far = room.saturating_mul(16).saturating_add(1024 + from as usize);
        far.min(self.shape.entry_count()) as u32
    }

    /// Writes the key at a place over key `n` of a block, if one stands there. Whether one does.
    fn key_into(&self, place: u32, n: usize, keys: &mut [u8]) -> bool
        requires shape { IsShapeSupported self.now.shape }
        requires table { IsTable self.now }
        requires place { place < entry_count self.now.shape }
        requires room { n * key_size self.now.shape + key_size self.now.shape ≤ length keys.old }
        ensures there { result ≡ true → slice_get (stored self.now).keys place ≡ Some (Some (value_in (key_size self.now.shape) keys.new n)) }
        ensures free { result ≡ false → slice_get (stored self.now).keys place ≡ Some None }
        ensures others { KeepsParts (key_size self.now.shape) n keys.old keys.new }
    {
        let size = self.shape.key_bytes();
        let start = n * size;
        self.key(place, &mut keys[start..start + size])
    }

    /// Writes the value at a place over value `n` of a block.
    fn value_into(&self, place: u32, n: usize, values: &mut [u8])
        requires shape { IsShapeSupported self.now.shape }
        requires table { IsTable self.now }
        requires place { place < entry_count self.now.shape }
        requires room { n * value_size self.now.shape + value_size self.now.shape ≤ length values.old }
        ensures value { value_in (value_size self.now.shape) values.new n ≡ value_in (value_size self.now.shape) (stored self.now).bytes place }
        ensures others { KeepsParts (value_size self.now.shape) n values.old values.new }
    {
        let size = self.shape.value_bytes();
        let start = place as usize * size;
        put_part(values, n, &self.block[start..start + size]);
    }

    /// Writes the entry at a place behind the first `n` of two blocks, if a key stands there. How many entries there are then.
    fn entry_into(&self, place: u32, n: usize, keys: &mut [u8], values: &mut [u8]) -> usize
        requires shape { IsShapeSupported self.now.shape }
        requires table { IsTable self.now }
        requires place { place < entry_count self.now.shape }
        requires keys { n * key_size self.now.shape + key_size self.now.shape ≤ length keys.old }
        requires values { n * value_size self.now.shape + value_size self.now.shape ≤ length values.old }
        ensures given { given self.now.shape result keys.new values.new ≡ given self.now.shape n keys.old values.old ++ entry_at (stored self.now) place }
        ensures count { result ≤ n + 1 }
        ensures keys { length keys.new ≡ length keys.old }
        ensures values { length values.new ≡ length values.old }
    {
        if !self.key_into(place, n, keys) {
            return n;
        }
        self.value_into(place, n, values);
        n + 1
    }

    /// The place to go on from, if there is one.
    pub(crate) fn next_place(&self, place: u32) -> Option<u32>
        ensures on { IfSome result (λ p. (p ≡ place) × (p < entry_count self.now.shape)) }
        ensures done { IfNone result (entry_count self.now.shape ≤ place) }
    {
        if (place as usize) < self.shape.entry_count() {
            Some(place)
        } else {
            None
        }
    }

    /// Writes the entries at the places from `from` up to `end` into two blocks, until there is room for no more. How many, and
    /// the place behind the last that was looked at.
    pub(crate) fn scan(
        &self,
        from: u32,
        end: u32,
        room: usize,
        keys: &mut [u8],
        values: &mut [u8],
    ) -> (usize, u32)
        requires shape { IsShapeSupported self.now.shape }
        requires table { IsTable self.now }
        requires from { from ≤ end }
        requires end { end ≤ entry_count self.now.shape }
        requires keys { room * key_size self.now.shape ≤ length keys.old }
        requires values { room * value_size self.now.shape ≤ length values.old }
        ensures given { given self.now.shape result.0 keys.new values.new ≡ entries_from (stored self.now) from (result.1 - from) }
        ensures room { result.0 ≤ room }
        ensures place { (from ≤ result.1) × (result.1 ≤ end) }
        ensures stop { (result.0 ≡ room) ⊎ (result.1 ≡ end) }
    {
        let mut count = 0;
        let mut place = from;
        while place < end && count < room {
            count = self.entry_into(place, count, keys, values);
            place += 1;
        }
        (count, place)
    }
}
