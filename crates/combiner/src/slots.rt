// The slots of a desk.

ghost use Rattle.std.specs.Prelude.{◌≡◌};
ghost use Rattle.combiner.specs.declared.slots.Stage.TheVariants.{Empty};
ghost use Rattle.combiner.specs.Slots.{slot, refusal_number};

use oplog::OpRef;
use thiserror::Error;

/// What became of an update.
#[derive(Clone, Copy, PartialEq, Eq, Debug)]
pub enum Reply {
    /// The update is in the history.
    Placed {
        /// The update's index in the history, from 0.
        index: u64,
        /// What its program replied.
        reply: u64,
    },
    /// The history had all its records before this one could be added.
    Ended,
}

/// Where the request of a slot is.
#[derive(Drop)]
pub enum Stage<'a> {
    /// The slot has no request.
    Empty,
    /// The request waits for a combiner.
    Posted(OpRef<'a>),
    /// A combiner has it in its batch.
    Claimed,
    /// The request is answered, and the answer waits for the session that asked.
    Answered(Reply),
}

/// A slot of a desk: one session's request at a time.
#[derive(Drop)]
pub struct Slot<'a> {
    /// Where its request is.
    pub stage: Stage<'a>,
    /// How many answers with an index were collected here: the number of its next record among the session's.
    pub count: u64,
}

impl Default for Slot<'_> {
    /// A slot without a request, at which no answer was collected.
    fn default() -> Self
        ensures empty { result ≡ slot Empty 0 }
    {
        Slot {
            stage: Stage::Empty,
            count: 0,
        }
    }
}

/// Why a desk refuses.
#[derive(Clone, Copy, PartialEq, Eq, Debug, Error)]
pub enum DeskRefused {
    /// The slot has a request that isn't collected yet.
    #[error("B1: the slot has a request already")]
    SlotBusy,
    /// No slot has a request without an answer.
    #[error("B2: no slot has a request without an answer")]
    NothingPosted,
    /// A combiner has a batch of this desk.
    #[error("B3: a combiner is at work")]
    CombinerAtWork,
}

impl DeskRefused {
    /// The number, from 1 to 3, that a refusal shows after its letter B.
    pub fn number(self) -> u8
        ensures number { result ≡ refusal_number self }
    {
        match self {
            DeskRefused::SlotBusy => 1,
            DeskRefused::NothingPosted => 2,
            DeskRefused::CombinerAtWork => 3,
        }
    }
}
