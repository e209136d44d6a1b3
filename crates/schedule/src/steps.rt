// The steps of a store, and what they answer.

ghost use Rattle.std.specs.Prelude.{◌≡◌};
ghost use Rattle.schedule.specs.Steps.{node_of};

use combiner::Reply;
use readpath::ReadAnswer;
use verifier::Mode;

/// A step: what one actor of a store does at once. It names a node, and where one is concerned a slot and a program, by their
/// numbers, whether they are there or not.
#[derive(Drop)]
pub enum Step {
    /// A session calls an update: its request stands in its slot of the desk.
    Post {
        /// The node.
        node: u64,
        /// The slot.
        slot: u64,
        /// The program's number: in the catalogue, or behind it that of a place.
        program: u64,
        /// The program's argument.
        argument: Vec<u8>,
    },
    /// A session calls an install: its request stands in its slot of the desk.
    Install {
        /// The node.
        node: u64,
        /// The slot.
        slot: u64,
        /// What the program may call.
        mode: Mode,
        /// How many bytes its argument has.
        arg_len: u64,
        /// The program's instructions.
        bytes: Vec<u8>,
    },
    /// A combiner claims the posted requests of its desk as its batch.
    Claim {
        /// The node.
        node: u64,
    },
    /// The batch is appended to the log as far as the history may grow, and the records that the replica lacks are copied.
    Append {
        /// The node.
        node: u64,
    },
    /// The replica applies the copied records, or where there are none those of the log that it lacks.
    Replay {
        /// The node.
        node: u64,
    },
    /// What the replica has applied is completed.
    Finish {
        /// The node.
        node: u64,
    },
    /// The requests of the batch are answered at the desk.
    Reply {
        /// The node.
        node: u64,
    },
    /// A session takes its answer.
    Collect {
        /// The node.
        node: u64,
        /// The slot.
        slot: u64,
    },
    /// A session calls a read, and notes how many operations are completed.
    ReadBegin {
        /// The node.
        node: u64,
        /// The slot.
        slot: u64,
        /// The program's number: in the catalogue, or behind it that of a place.
        program: u64,
        /// The program's argument.
        argument: Vec<u8>,
    },
    /// The read is answered by the replica.
    ReadAnswer {
        /// The node.
        node: u64,
        /// The slot.
        slot: u64,
    },
    /// The log takes the replica as its base, and drops the records before.
    Reclaim {
        /// The node.
        node: u64,
    },
    /// The replica takes the base of the log.
    Rebase {
        /// The node.
        node: u64,
    },
}

impl Step {
    /// The number of its node.
    pub fn node(&self) -> u64
        ensures node { result ≡ node_of self.now }
    {
        match self {
            Step::Post { node, .. }
            | Step::Install { node, .. }
            | Step::Claim { node }
            | Step::Append { node }
            | Step::Replay { node }
            | Step::Finish { node }
            | Step::Reply { node }
            | Step::Collect { node, .. }
            | Step::ReadBegin { node, .. }
            | Step::ReadAnswer { node, .. }
            | Step::Reclaim { node }
            | Step::Rebase { node } => *node,
        }
    }
}

/// What a step answers.
#[derive(Clone, Copy, PartialEq, Eq)]
pub enum StepAnswer {
    /// The step was taken.
    Done,
    /// The step may not be taken now: nothing is changed.
    NotNow,
    /// The step was taken, and an update is answered.
    Back(Reply),
    /// The step was taken, and a read is answered.
    ReadBack(ReadAnswer),
}
