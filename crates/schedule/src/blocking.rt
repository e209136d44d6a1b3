// Why a step may not be taken.

ghost use Rattle.std.specs.Prelude.{◌≡◌, length, slice_get};
ghost use Rattle.replica.specs.Refusals.{IsRoomFor};
ghost use Rattle.schedule.specs.Steps.{part_of};
ghost use Rattle.schedule.specs.Taking.{IsOfStore};
ghost use Rattle.schedule.specs.Blocking.{IsTakenUnless, call_block, claim_block, collect_block, read_block, append_block, replay_block, finish_block, reply_block, reclaim_block, rebase_block, node_block};

use crate::nodes::{Node, call_of, program_of};
use crate::parts::Opening;
use crate::rooms::{BatchRoom, BatchStage};
use crate::steps::Step;
use combiner::Stage;
use loader::Installed;
use node::NodeReplica;
use oplog::LogState;
use replica::StoreRefused;
use verifier::Mode;

/// Why a step may not be taken now: the first of its conditions that fails.
#[derive(Clone, Copy)]
pub enum Blocked {
    /// The store has no such node.
    NoNode {
        /// How many it has.
        nodes: u64,
    },
    /// The node has no such slot.
    NoSlot {
        /// How many it has.
        slots: u64,
    },
    /// The slot has a request, or an answer that isn't collected.
    HasRequest,
    /// A read was begun at the slot.
    HasRead,
    /// The call or the install is refused.
    Refused(StoreRefused),
    /// The node has a batch already.
    HasBatch,
    /// No slot of the node has a request that isn't claimed.
    NothingPosted,
    /// The node has no batch.
    NoBatch,
    /// The node's batch is in the log already.
    BatchInLog,
    /// The node's batch isn't in the log yet.
    BatchNotInLog,
    /// The log has dropped records that the replica lacks.
    BelowBase {
        /// How many operations the replica has applied.
        tail: u64,
        /// How many the log has dropped.
        base: u64,
    },
    /// The log's window has no room for what is to be appended.
    NoRoom {
        /// How many records are to be appended.
        records: u64,
        /// For how many there is room.
        room: u64,
    },
    /// The hand is empty, and the replica has applied all that the log has.
    NothingToReplay {
        /// How many operations that is.
        tail: u64,
    },
    /// All that the replica has applied is completed already.
    NothingToFinish {
        /// How many operations the replica has applied.
        tail: u64,
        /// How many are completed.
        done: u64,
    },
    /// The hand has records that are to be applied first.
    HandNotEmpty {
        /// How many.
        records: u64,
    },
    /// What the replica has applied isn't all completed.
    NotCompleted {
        /// How many operations the replica has applied.
        tail: u64,
        /// How many are completed.
        done: u64,
    },
    /// No answer waits in the slot.
    NoAnswer,
    /// No read was begun at the slot.
    NoRead,
    /// The replica hasn't come to what was completed when the read began.
    BehindRead {
        /// How many operations the replica has applied.
        tail: u64,
        /// How many were completed then.
        noted: u64,
    },
    /// The replica isn't past the log's base.
    NotPastBase {
        /// How many operations the replica has applied.
        tail: u64,
        /// How many the log has dropped.
        base: u64,
    },
    /// The replica isn't behind the log's base.
    NotBelowBase {
        /// How many operations the replica has applied.
        tail: u64,
        /// How many the log has dropped.
        base: u64,
    },
}

// Why the batch may not be appended.
pub(crate) fn append_block(batch: &BatchRoom, log: &LogState, node: &NodeReplica) -> Option<Blocked>
    ensures { result ≡ append_block batch.now log.now node.now }
{
    match &batch.stage {
        BatchStage::Absent => return Some(Blocked::NoBatch),
        BatchStage::InLog(_) => return Some(Blocked::BatchInLog),
        BatchStage::Held => {}
    }
    let (tail, base) = (node.replica.tail(), log.base());
    if base > tail {
        return Some(Blocked::BelowBase { tail, base });
    }
    let records = batch.requests.records().len().min(log.left());
    let room = log.room();
    if records <= room {
        None
    } else {
        let (records, room) = (records as u64, room as u64);
        Some(Blocked::NoRoom { records, room })
    }
}

// Why there is nothing that the replica may apply.
pub(crate) fn replay_block(log: &LogState, node: &NodeReplica) -> Option<Blocked>
    ensures { result ≡ replay_block log.now node.now }
{
    if !node.hand.is_empty() {
        return None;
    }
    let (tail, base) = (node.replica.tail(), log.base());
    if base > tail {
        Some(Blocked::BelowBase { tail, base })
    } else if tail < log.tail() {
        None
    } else {
        Some(Blocked::NothingToReplay { tail })
    }
}

// Why there is nothing more to complete.
pub(crate) fn finish_block(done: u64, node: &NodeReplica) -> Option<Blocked>
    ensures { result ≡ finish_block done node.now }
{
    let tail = node.replica.tail();
    if done < tail {
        None
    } else {
        Some(Blocked::NothingToFinish { tail, done })
    }
}

// Why the batch may not be answered.
pub(crate) fn reply_block(batch: &BatchRoom, done: u64, node: &NodeReplica) -> Option<Blocked>
    ensures { result ≡ reply_block batch.now done node.now }
{
    match &batch.stage {
        BatchStage::Absent => return Some(Blocked::NoBatch),
        BatchStage::Held => return Some(Blocked::BatchNotInLog),
        BatchStage::InLog(_) => {}
    }
    let tail = node.replica.tail();
    if !node.hand.is_empty() {
        let records = node.hand.len() as u64;
        Some(Blocked::HandNotEmpty { records })
    } else if tail <= done {
        None
    } else {
        Some(Blocked::NotCompleted { tail, done })
    }
}

// Why the replica may not become the log's base.
pub(crate) fn reclaim_block(log: &LogState, node: &NodeReplica) -> Option<Blocked>
    ensures { result ≡ reclaim_block log.now node.now }
{
    let (tail, base, done) = (node.replica.tail(), log.base(), log.done());
    if base >= tail {
        Some(Blocked::NotPastBase { tail, base })
    } else if tail <= done {
        None
    } else {
        Some(Blocked::NotCompleted { tail, done })
    }
}

// Why the log's base may not become the replica.
pub(crate) fn rebase_block(log: &LogState, node: &NodeReplica) -> Option<Blocked>
    ensures { result ≡ rebase_block log.now node.now }
{
    let (tail, base) = (node.replica.tail(), log.base());
    if tail >= base {
        Some(Blocked::NotBelowBase { tail, base })
    } else if node.hand.is_empty() {
        None
    } else {
        let records = node.hand.len() as u64;
        Some(Blocked::HandNotEmpty { records })
    }
}

impl Node {
    // Why no call may be made at a slot, which is refused so, if it is refused.
    fn call_block(&self, slot: u64, refusal: Option<StoreRefused>) -> Option<Blocked>
        requires sized { length self.now.reads ≡ length self.now.desk.slots }
        ensures { result ≡ call_block slot self.now refusal }
    {
        let slots = self.reads.len() as u64;
        if slot >= slots {
            return Some(Blocked::NoSlot { slots });
        }
        if !matches!(self.desk.slot(slot as usize).stage, Stage::Empty) {
            return Some(Blocked::HasRequest);
        }
        match (self.reads[slot as usize].read(), refusal) {
            (Some(_), _) => Some(Blocked::HasRead),
            (None, Some(refusal)) => Some(Blocked::Refused(refusal)),
            (None, None) => None,
        }
    }

    // Why no request can be claimed.
    fn claim_block(&self) -> Option<Blocked>
        ensures { result ≡ claim_block self.now }
    {
        if !matches!(self.batch.stage, BatchStage::Absent) {
            Some(Blocked::HasBatch)
        } else if self.desk.has_request() {
            None
        } else {
            Some(Blocked::NothingPosted)
        }
    }

    // Why there is no answer to collect at a slot.
    fn collect_block(&self, slot: u64) -> Option<Blocked>
        requires sized { length self.now.reads ≡ length self.now.desk.slots }
        ensures { result ≡ collect_block (length self.now.reads) (slice_get self.now.desk.slots slot) }
    {
        let slots = self.reads.len() as u64;
        if slot >= slots {
            return Some(Blocked::NoSlot { slots });
        }
        match self.desk.slot(slot as usize).stage {
            Stage::Answered(_) => None,
            _ => Some(Blocked::NoAnswer),
        }
    }

    // Why no read can be answered at a slot, when so many operations are completed.
    fn read_block(&self, slot: u64, done: u64) -> Option<Blocked>
        ensures { result ≡ read_block (length self.now.reads) self.now.replica.tail done (slice_get self.now.reads slot) }
    {
        let slots = self.reads.len() as u64;
        if slot >= slots {
            return Some(Blocked::NoSlot { slots });
        }
        let Some(read) = self.reads[slot as usize].read() else {
            return Some(Blocked::NoRead);
        };
        let (tail, noted) = (self.own.replica.tail(), read.seen);
        if noted > tail {
            Some(Blocked::BehindRead { tail, noted })
        } else if tail <= done {
            None
        } else {
            Some(Blocked::NotCompleted { tail, done })
        }
    }

    /// Why the step, which is one of this node, may not be taken, if it may not. The room is one for a program that is to be installed.
    pub(crate) fn blocked(
        &self,
        opening: &Opening,
        room: &mut Installed,
        log: &LogState,
        step: &Step,
    ) -> Option<Blocked>
        requires own { IsOfStore opening.now log.now self.now }
        requires room { IsRoomFor opening.now.catalogue.shapes opening.now.catalogue.long room.old }
        ensures room { IsRoomFor opening.now.catalogue.shapes opening.now.catalogue.long room.new }
        ensures first { result ≡ node_block opening.now step.now log.now self.now }
        ensures taken { IsTakenUnless result (part_of opening.now step.now log.now self.now) }
    {
        let catalogue = &opening.catalogue;
        match step {
            Step::Post {
                slot,
                program,
                argument,
                ..
            } => {
                let refusal = call_of(catalogue, Mode::Update, *program, argument).err();
                self.call_block(*slot, refusal)
            }
            Step::Install {
                slot,
                mode,
                arg_len,
                bytes,
                ..
            } => {
                let refusal = program_of(catalogue, room, *mode, *arg_len, bytes).err();
                self.call_block(*slot, refusal)
            }
            Step::ReadBegin {
                slot,
                program,
                argument,
                ..
            } => {
                let refusal = call_of(catalogue, Mode::Read, *program, argument).err();
                self.call_block(*slot, refusal)
            }
            Step::Claim { .. } => self.claim_block(),
            Step::Append { .. } => append_block(&self.batch, log, &self.own),
            Step::Replay { .. } => replay_block(log, &self.own),
            Step::Finish { .. } => finish_block(log.done(), &self.own),
            Step::Reply { .. } => reply_block(&self.batch, log.done(), &self.own),
            Step::Collect { slot, .. } => self.collect_block(*slot),
            Step::ReadAnswer { slot, .. } => self.read_block(*slot, log.done()),
            Step::Reclaim { .. } => reclaim_block(log, &self.own),
            Step::Rebase { .. } => rebase_block(log, &self.own),
        }
    }
}
