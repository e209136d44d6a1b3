//! Finds the place of a key, first by a hash and then by the key's bits.
#![tactic(auto)]

mod bits;
mod block;
mod index;

pub use index::{Inserted, KeyIndex, MAX_BUCKETS, MAX_INDEX_PLACES, MAX_KEY_SIZE, Removed, limits};
