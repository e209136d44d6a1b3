// What a store is opened with, and a begun read.

use loader::Catalogue;
use oplog::{CallRef, Sizes};

/// What a store is opened with.
#[derive(Drop)]
pub struct Opening {
    /// The sizes of the store.
    pub config: Sizes,
    /// The maps and programs of the store.
    pub catalogue: Catalogue,
}

/// A read that was called, and has no answer yet.
#[derive(Drop)]
pub struct BegunRead<'a> {
    /// What the read asks.
    pub call: CallRef<'a>,
    /// How many operations were completed when it was called.
    pub seen: u64,
}
