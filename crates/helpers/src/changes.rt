// The helpers that change a map.

ghost use Rattle.std.specs.Prelude.{◌≡◌, ◌≢◌, ◌<◌, ℕ, length, slice_get, IfSome};
ghost use Rattle.maps.specs.Shapes.{key_size, value_size};
ghost use Rattle.maps.specs.Values.{Num};
ghost use Rattle.maps.specs.MapSets.{maps_of, stored_shapes};
ghost use Rattle.helpers.specs.Helpers.{exist, negative_errno, UpdateCall, DeleteCall, HelperAnswers};

use maps::{MapSet, Shape};

/// No such key (errno(3)).
const ENOENT: u64 = 2;

/// No room for another key.
const E2BIG: u64 = 7;

/// The key is there already.
const EEXIST: u64 = 17;

/// An argument that the call doesn't take.
const EINVAL: u64 = 22;

/// The flag that the key may not be there yet; ANY is 0.
const NOEXIST: u64 = 1;

/// The flag that the key has to be there.
const EXIST: u64 = 2;

/// `bpf_map_update_elem` of bpf-helpers(7): puts a value under a key of map `m`. Answers 0, or the negative of an error
/// modulo 2^64, and then the maps are as they were.
pub fn update(maps: &mut MapSet, m: usize, key: &[u8], value: &[u8], flags: u64) -> u64
    requires map { m < length (stored_shapes maps.old) }
    requires key { IfSome (slice_get (stored_shapes maps.old) m) (λ s. length key.now ≡ key_size s) }
    requires value { IfSome (slice_get (stored_shapes maps.old) m) (λ s. length value.now ≡ value_size s) }
    ensures answers { HelperAnswers (UpdateCall m key.now value.now flags) (maps_of maps.old) (Num result) (maps_of maps.new) }
    ensures others { (n : ℕ) → n ≢ m → slice_get maps.new n ≡ slice_get maps.old n }
    ensures shapes { stored_shapes maps.new ≡ stored_shapes maps.old }
{
    if flags > EXIST {
        return negative(EINVAL);
    }
    if flags == EXIST {
        return replace(maps, m, key, value);
    }
    let Some(inserted) = maps.insert(m, key) else {
        return negative(E2BIG);
    };
    if flags == NOEXIST && !inserted.is_new {
        return negative(EEXIST);
    }
    maps.value_mut(inserted.entry).copy_from_slice(value);
    0
}

/// An update whose key has to be there.
fn replace(maps: &mut MapSet, m: usize, key: &[u8], value: &[u8]) -> u64
    requires map { m < length (stored_shapes maps.old) }
    requires key { IfSome (slice_get (stored_shapes maps.old) m) (λ s. length key.now ≡ key_size s) }
    requires value { IfSome (slice_get (stored_shapes maps.old) m) (λ s. length value.now ≡ value_size s) }
    ensures answers { HelperAnswers (UpdateCall m key.now value.now exist) (maps_of maps.old) (Num result) (maps_of maps.new) }
    ensures others { (n : ℕ) → n ≢ m → slice_get maps.new n ≡ slice_get maps.old n }
    ensures shapes { stored_shapes maps.new ≡ stored_shapes maps.old }
{
    let Some(entry) = maps.lookup(m, key) else {
        return match maps.shape(m) {
            Shape::Array { .. } => negative(E2BIG),
            Shape::Hash { .. } => negative(ENOENT),
        };
    };
    maps.value_mut(entry).copy_from_slice(value);
    0
}

/// `bpf_map_delete_elem` of bpf-helpers(7): takes a key out of map `m`. Answers 0, or the negative of an error modulo
/// 2^64, and then the maps are as they were.
pub fn delete(maps: &mut MapSet, m: usize, key: &[u8]) -> u64
    requires map { m < length (stored_shapes maps.old) }
    requires key { IfSome (slice_get (stored_shapes maps.old) m) (λ s. length key.now ≡ key_size s) }
    ensures answers { HelperAnswers (DeleteCall m key.now) (maps_of maps.old) (Num result) (maps_of maps.new) }
    ensures others { (n : ℕ) → n ≢ m → slice_get maps.new n ≡ slice_get maps.old n }
    ensures shapes { stored_shapes maps.new ≡ stored_shapes maps.old }
{
    match maps.shape(m) {
        Shape::Array { .. } => negative(EINVAL),
        Shape::Hash { .. } => {
            if maps.remove(m, key) {
                0
            } else {
                negative(ENOENT)
            }
        }
    }
}

/// An error as it comes in R0.
fn negative(errno: u64) -> u64
    requires some { 0 < errno }
    ensures number { result ≡ negative_errno errno }
{
    0u64.wrapping_sub(errno)
}
