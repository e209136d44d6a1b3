// The places of a map's keys, in the order of the keys.

ghost use Rattle.std.specs.Prelude.{◌≡◌, ◌<◌, ◌≤◌, length, slice_get, take, IfOk, IfSome, Some, is_some};
ghost use Rattle.std.specs.FinMap as finite_map;
ghost use Rattle.std.specs.Ordering.{nat_cmp};
ghost use Rattle.std.specs.Cmp.Lexicographic.{slice_cmp};
ghost use Rattle.maps.specs.Shapes.{AreShapesSupported, entry_count};
ghost use Rattle.maps.specs.MapSets.{Stored, entries_of, key_at, stored_shapes};
ghost use Rattle.dumps.specs.Written.{HoldsKeys, bytes_at, entries_at};

use maps::{MOST_KEY_BYTES, MapSet};
use std::alloc::{AllocError, Global};
use std::cmp::Ordering;

// Room for any key.
pub(crate) const KEY_ROOM: usize = MOST_KEY_BYTES as usize;

// Reads the key at a place of map `m` into room, and gives its size, if the place has a key.
#[tactic(auto, using(crate::proofs::KeyOrder::key_fits))]
pub(crate) fn read_key(maps: &MapSet, m: usize, place: u32, room: &mut [u8]) -> Option<usize>
    requires map { m < length (stored_shapes maps.now) }
    requires shapes { AreShapesSupported (stored_shapes maps.now) }
    requires room { length room.old ≡ KEY_ROOM }
    ensures there { is_some result ≡ is_some (key_at maps.now m place) }
    ensures key { IfSome result (λ n. key_at maps.now m place ≡ Some (take n room.new)) }
    ensures size { IfSome result (λ n. n ≤ KEY_ROOM) }
    ensures place { IfSome result (λ _. IfSome (slice_get (stored_shapes maps.now) m) (λ s. place < entry_count s)) }
{
    let size = maps.shape(m).key_bytes();
    if place < maps.places(m) && maps.key(m, place, &mut room[..size]) {
        Some(size)
    } else {
        None
    }
}

// The order of the keys at two places of map `m`.
fn by_key(maps: &MapSet, m: usize, a: u32, b: u32) -> Ordering
    requires map { m < length (stored_shapes maps.now) }
    requires shapes { AreShapesSupported (stored_shapes maps.now) }
    ensures { result ≡ slice_cmp nat_cmp (bytes_at maps.now m a) (bytes_at maps.now m b) }
{
    let mut first = [0u8; KEY_ROOM];
    let mut second = [0u8; KEY_ROOM];
    let n = read_key(maps, m, a, &mut first).unwrap_or(0);
    let k = read_key(maps, m, b, &mut second).unwrap_or(0);
    let first = &first[..n];
    first.cmp(&second[..k])
}

// The places of map `m` that have a key.
fn keyed_places(alloc: Global, maps: &MapSet, m: usize) -> Result<Vec<u32>, AllocError>
    requires map { m < length (stored_shapes maps.now) }
    requires shapes { AreShapesSupported (stored_shapes maps.now) }
    ensures { IfOk result (λ v. (s : Stored) → slice_get maps.now m ≡ Some s → HoldsKeys s v.items) }
{
    // (that no two places have the same key: the proof takes it from this call)
    let _page = maps.scan(m, 0, &mut [], &mut []);
    let mut room = [0u8; KEY_ROOM];
    let mut places = Vec::with_capacity(alloc, maps.len(m))?;
    for place in 0..maps.places(m) {
        if read_key(maps, m, place, &mut room).is_some() {
            places.push(place)?;
        }
    }
    Ok(places)
}

// The places of map `m` that have a key, in the order of the keys.
pub(crate) fn sorted_places(alloc: Global, maps: &MapSet, m: usize) -> Result<Vec<u32>, AllocError>
    requires map { m < length (stored_shapes maps.now) }
    requires shapes { AreShapesSupported (stored_shapes maps.now) }
    ensures { IfOk result (λ v. (s : Stored) → slice_get maps.now m ≡ Some s
        → entries_at s v.items ≡ finite_map.entries (entries_of s)) }
{
    let mut places = keyed_places(alloc, maps, m)?;
    places.sort_unstable_by(|a, b| by_key(maps, m, *a, *b));
    Ok(places)
}
