// The helper that looks a key up.

ghost use Rattle.std.specs.Prelude.{◌≡◌, ◌<◌, length, slice_get, pos, Some, IfSome, OnSome, IfNone};
ghost use Rattle.maps.specs.Shapes.{key_size, entry_count};
ghost use Rattle.maps.specs.Values.{Num, ValueAt};
ghost use Rattle.maps.specs.MapSets.{maps_of, stored_shapes, key_of};
ghost use Rattle.helpers.specs.Helpers.{LookupCall, HelperAnswers};

use maps::{Entry, MapSet};

/// `bpf_map_lookup_elem` of bpf-helpers(7): where the value under a key of map `m` stands. None is the answer 0.
pub fn lookup(maps: &MapSet, m: usize, key: &[u8]) -> Option<Entry>
    requires map { m < length (stored_shapes maps.now) }
    requires key { IfSome (slice_get (stored_shapes maps.now) m) (λ s. length key.now ≡ key_size s) }
    ensures entry { IfSome result (λ e. (e.map ≡ m) × (key_of maps.now e ≡ Some key.now)) }
    ensures place { IfSome result (λ e. IfSome (slice_get (stored_shapes maps.now) m) (λ s. e.place < entry_count s)) }
    ensures found { OnSome result (HelperAnswers (LookupCall m key.now) (maps_of maps.now) (ValueAt m key.now (pos 0)) (maps_of maps.now)) }
    ensures absent { IfNone result (HelperAnswers (LookupCall m key.now) (maps_of maps.now) (Num 0) (maps_of maps.now)) }
{
    maps.lookup(m, key)
}
