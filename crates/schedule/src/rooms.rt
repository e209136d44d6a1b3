// The rooms of a node, which are taken once: for its batch, and for the reads that are begun at its slots.

ghost use Rattle.std.specs.Prelude.{◌≡◌, Some, None, IfOk};
ghost use Rattle.node.specs.declared.parts.NodeBatch.TheVariants.{Absent};

use crate::parts::BegunRead;
use combiner::Batch;
use maps::MOST_ARG_LEN;
use oplog::CallRef;
use replica::Replies;
use std::alloc::{AllocError, Global};
use std::marker::Model;

/// The room of a slot for a read. It is taken when it is opened: no later call takes memory.
#[derive(Drop)]
pub(crate) struct ReadRoom {
    // Whether a read was called, and has no answer yet. If not, the rest is whatever stood there before.
    begun: bool,
    program: u16,
    argument: Vec<u8>,
    seen: u64,
}

impl Model for ReadRoom {
    ghost use Rattle.std.specs.Prelude.{◌≤◌, length, vec_capacity, Option};
    ghost use Rattle.maps.specs.declared.shapes.TheConstants.{MOST_ARG_LEN};
    ghost use Rattle.schedule.specs.declared.parts.BegunRead.{BegunRead};
    ghost use Rattle.schedule.specs.Rooms.{read_in};

    ghost Value = { Option BegunRead };

    ghost view = { λ r. read_in r.begun (record { program = r.program; argument = r.argument.items }) r.seen };

    // There is room for the longest argument.
    ghost invariant = { λ r. (MOST_ARG_LEN ≤ vec_capacity r.argument) × (length r.argument.items ≤ MOST_ARG_LEN) };
}

impl ReadRoom {
    /// A room in which no read is begun.
    ///
    /// # Errors
    ///
    /// The system has no memory left.
    pub(crate) fn open(alloc: Global) -> Result<ReadRoom, AllocError>
        ensures none { IfOk result (λ r. r ≡ None) }
    {
        let argument = Vec::with_capacity(alloc, MOST_ARG_LEN)?;
        Ok(ReadRoom {
            begun: false,
            program: 0,
            argument,
            seen: 0,
        })
    }

    // The read that was begun, if one was.
    pub(crate) fn read(&self) -> Option<BegunRead<'_>>
        ensures read { result ≡ self.now }
    {
        if !self.begun {
            return None;
        }
        Some(BegunRead {
            call: CallRef::new(self.program, &self.argument),
            seen: self.seen,
        })
    }

    // A read is called, when so many operations are completed.
    pub(crate) fn begin(&mut self, call: &CallRef<'_>, seen: u64)
        ensures begun { self.new ≡ Some (record { call = call.now; seen = seen }) }
    {
        self.argument.clear();
        match self.argument.extend_from_slice(call.argument()) {
            Ok(()) => {}
            Err(_) => unreachable!(),
        }
        self.program = call.program();
        self.seen = seen;
        self.begun = true;
    }

    // The read is answered.
    pub(crate) fn end(&mut self)
        ensures none { self.new ≡ None }
    {
        self.begun = false;
    }
}

/// Where the batch of a node is.
#[derive(Drop)]
pub(crate) enum BatchStage {
    /// The combiner has no batch.
    Absent,
    /// The requests of the batch are claimed at the desk.
    Held,
    /// The requests of the batch are in the log. The indexes of those of them, from the first on, for which the history had room, and their
    /// outcomes, as far as the replica has applied them.
    InLog(Replies),
}

/// The batch of a node's combiner, and the room for its requests, which stays when there is no batch.
#[derive(Drop)]
pub(crate) struct BatchRoom {
    pub(crate) stage: BatchStage,
    /// The requests of the batch, or where there is none whatever stood there before.
    pub(crate) requests: Batch,
}

impl Model for BatchRoom {
    ghost use Rattle.node.specs.declared.parts.NodeBatch.{NodeBatch};
    ghost use Rattle.schedule.specs.Rooms.{batch_at};

    ghost Value = { NodeBatch };

    ghost view = { λ r. batch_at r.requests r.stage };
}

impl BatchRoom {
    /// A room without a batch. It is taken then: no later call takes memory.
    ///
    /// # Errors
    ///
    /// The system has no memory left.
    pub(crate) fn open(alloc: Global) -> Result<BatchRoom, AllocError>
        ensures absent { IfOk result (λ b. b ≡ Absent) }
    {
        let requests = Batch::open(alloc)?;
        let stage = BatchStage::Absent;
        Ok(BatchRoom { stage, requests })
    }
}
