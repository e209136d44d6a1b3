// The batch of a node's combiner.

use combiner::Batch;
use replica::Replies;

/// A batch in the log.
#[derive(Drop)]
pub struct Written {
    /// The requests of the batch.
    pub batch: Batch,
    /// The indexes of those of them, from the first on, for which the history had room, and their outcomes, as far as the replica has
    /// applied them.
    pub replies: Replies,
}

/// The batch of a node's combiner.
#[derive(Drop)]
pub enum NodeBatch {
    /// The combiner has no batch.
    Absent,
    /// The requests of the batch are claimed at the desk.
    Held(Batch),
    /// The requests of the batch are in the log.
    InLog(Written),
}
