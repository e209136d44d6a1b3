// What all sessions see grow, and what each says of itself. No value of these is made: they stand in contracts alone.

use combiner::Reply;
use oplog::{Op, Record, Sizes};
use std::collections::LinkedList;

/// The whole history, and how much of it is completed.
pub struct Progress<C> {
    pub config: Sizes,
    /// What the numbers of programs stand for.
    pub catalogue: C,
    /// Every operation from the first on, also those that the log has dropped.
    pub history: LinkedList<Record>,
    /// The completed tail: so many operations of the history are completed.
    pub completed: u64,
}

/// The request that a session waits for, and the length that the history had when it began.
pub struct Pending {
    pub op: Op,
    pub seen: u64,
}

/// A read that a session has asked. No more than so many operations were completed then.
pub struct BegunRead {
    pub op: Op,
    pub seen: u64,
}

/// A session called an update or a read, or was answered.
pub enum SessionEvent {
    /// It called this update.
    UpdateCall(Op),
    /// The update has its index and its reply, or the history has ended.
    UpdateBack(Reply),
    /// It called this read.
    ReadCall(Op),
    /// The read has its point of the history, and its reply.
    ReadBack { point: u64, reply: u64 },
}

/// An update that a session was answered, its index in the history, and the reply that it was answered with.
pub struct AnsweredUpdate {
    pub index: u64,
    pub op: Op,
    pub reply: u64,
}

/// A request of a combiner's batch, and its index in the history once it is appended.
pub struct Claim {
    pub request: Record,
    pub index: Option<u64>,
}

/// What a session has been answered, the request that it waits for, the batch that it combines, the read that it has asked and not yet heard, and
/// each of its calls and answers so far, in their order. Who combines nothing has an empty batch.
pub struct SessionNote {
    pub answered: LinkedList<AnsweredUpdate>,
    pub pending: Option<Pending>,
    pub batch: LinkedList<Claim>,
    pub begun: Option<BegunRead>,
    pub events: LinkedList<SessionEvent>,
}
