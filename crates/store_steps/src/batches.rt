// Room for what a session does for its node, and what it counts.

ghost use Rattle.std.specs.Prelude.{◌≡◌};

use crate::pauses::Pauses;
use combiner::Batch;
use replica::Replies;
use std::alloc::{AllocError, Global};

/// Room for what a session does for its node.
#[derive(Drop)]
pub struct Room {
    /// For the requests that it combines.
    pub batch: Batch,
    /// For what their programs answer.
    pub replies: Replies,
    // How long the session pauses while it waits for another one.
    pub(crate) pauses: Pauses,
    // How many batches of one request the session has combined.
    singles: u64,
    // The other batches that it has combined.
    shared: Batches,
}

impl Room {
    /// Room with nothing in it. No later call takes memory.
    ///
    /// # Errors
    ///
    /// The system has no memory left.
    pub fn open(alloc: Global) -> Result<Room, AllocError> {
        Ok(Room::with(Batch::open(alloc)?))
    }

    /// Room whose requests go into this batch, and that has combined none yet. What the batch has is lost.
    pub fn with(batch: Batch) -> Room {
        Room {
            batch,
            replies: Replies::new(0, 0),
            pauses: Pauses::new(),
            singles: 0,
            shared: Batches::none(),
        }
    }

    /// Gives the batch, for other room.
    pub fn into_batch(self) -> Batch {
        let Room {
            batch,
            replies: _replies,
            pauses: _pauses,
            singles: _singles,
            shared: _shared,
        } = self;
        batch
    }

    /// The batches that the session has combined.
    pub fn batches(&self) -> Batches {
        self.shared.and(Batches {
            count: self.singles,
            requests: self.singles,
            largest: self.singles.min(1),
        })
    }

    // Counts the batch that the room has, with its requests. Most have one.
    #[inline(always)]
    pub(crate) fn count_batch(&mut self)
        ensures room { (self.new.batch ≡ self.old.batch) × (self.new.replies ≡ self.old.replies) }
    {
        if self.batch.records().len() == 1 {
            self.count_single();
        } else {
            self.count_shared();
        }
    }

    // Counts a batch of one request.
    #[inline(always)]
    pub(crate) fn count_single(&mut self)
        ensures room { (self.new.batch ≡ self.old.batch) × (self.new.replies ≡ self.old.replies) }
    {
        self.singles = self.singles.wrapping_add(1);
    }

    // Counts a batch of several requests.
    #[inline(never)]
    fn count_shared(&mut self)
        ensures room { (self.new.batch ≡ self.old.batch) × (self.new.replies ≡ self.old.replies) }
    {
        let requests = self.batch.records().len() as u64;
        self.shared = self.shared.and(Batches {
            count: 1,
            requests,
            largest: requests,
        });
    }
}

/// How many batches a session has combined, and how large they were: the requests of its node that it appended together.
#[derive(Clone, Copy, Debug, PartialEq, Eq)]
pub struct Batches {
    /// How many there were.
    pub count: u64,
    /// How many requests they had, all together.
    pub requests: u64,
    /// How many the largest had.
    pub largest: u64,
}

impl Batches {
    /// No batch.
    pub fn none() -> Batches {
        Batches {
            count: 0,
            requests: 0,
            largest: 0,
        }
    }

    /// The sum of these batches and `others`.
    pub fn and(self, others: Batches) -> Batches {
        Batches {
            count: self.count.wrapping_add(others.count),
            requests: self.requests.wrapping_add(others.requests),
            largest: self.largest.max(others.largest),
        }
    }
}
