//! Maps from byte strings to byte strings, of fixed shapes.
#![tactic(auto)]

mod entry;
mod laws;
mod map_set;
mod scanning;
mod shapes;
mod table;

pub use entry::{Entry, Inserted, Scanned};
pub use laws::{pages_give_all, pages_join};
pub use map_set::MapSet;
pub use shapes::{
    INDEX_BYTES, MAX_ARG_LEN, MAX_ENTRIES, MAX_KEY_BYTES, MAX_MAPS, MAX_TOTAL_BYTES,
    MAX_VALUE_BYTES, MOST_ARG_LEN, MOST_ENTRIES, MOST_KEY_BYTES, MOST_TOTAL_BYTES,
    MOST_VALUE_BYTES, MapError, MapLimits, Shape, ShapeFault, limits, shapes_ok, shapes_within,
    widest_limits,
};
