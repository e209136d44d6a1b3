// The requests that a combiner claimed.

ghost use Rattle.std.specs.Prelude.{◌≡◌, ◌<◌, ◌≤◌, [], ◌∷◌, ◌++◌, length, slice_get, slice_set, Some, None, IfOk};
ghost use Rattle.maps.specs.declared.shapes.TheConstants.{MOST_ARG_LEN};
ghost use Rattle.oplog.specs.Operations.{FitsIn};
ghost use Rattle.combiner.specs.declared.slots.Reply.{Reply as TheReply};
ghost use Rattle.combiner.specs.Desks.{BatchView, only};

use crate::slots::Reply;
use maps::MOST_ARG_LEN;
use oplog::{LaidRef, NewRecord, RecordList, Records};
use std::alloc::{AllocError, Global};
use std::marker::Model;
use unreached::unreached;

/// The requests that a combiner claimed at its desk, by ascending slots, and the answer of each once it has one. It is lent to
/// [`Desk::claim`](crate::Desk::claim), which fills it, and to [`Desk::reply`](crate::Desk::reply).
#[derive(Drop)]
pub struct Batch {
    records: RecordList,
    answers: [Option<Reply>; 16],
    count: usize,
}

impl Model for Batch {
    ghost use Rattle.std.specs.Prelude.{◌≡◌, ◌≤◌, length, take};
    ghost use Rattle.maps.specs.declared.shapes.TheConstants.{MOST_ARG_LEN};
    ghost use Rattle.combiner.specs.Desks.{BatchView};

    ghost Value = { BatchView };

    ghost view = { λ b. record { records = b.records.records; answers = take b.count b.answers } };

    ghost invariant = { λ b. (b.count ≤ 16)
        × (length b.records.records ≡ b.count)
        × (length b.answers ≡ 16)
        × (b.records.room ≡ 16)
        × (b.records.long ≡ MOST_ARG_LEN) };
}

impl Batch {
    /// A batch without a request. All its room is taken: no later call takes memory.
    ///
    /// # Errors
    ///
    /// The system has no memory left.
    pub fn open(alloc: Global) -> Result<Batch, AllocError>
        ensures empty { IfOk result (λ b. b ≡ record { records = []; answers = [] }) }
    {
        let records = RecordList::open(alloc, 16, MOST_ARG_LEN)?;
        Ok(Batch {
            records,
            answers: [None; 16],
            count: 0,
        })
    }

    // Takes all its requests out.
    pub(crate) fn clear(&mut self)
        ensures empty { self.new ≡ record { records = []; answers = [] } }
    {
        self.records.clear();
        self.count = 0;
    }

    // One more request, by its record's fields. It has no answer yet.
    pub(crate) fn push(&mut self, author: u16, op: LaidRef<'_>, seq: u64)
        requires room { length self.old.records < 16 }
        requires fits { FitsIn MOST_ARG_LEN op }
        ensures records { self.new.records ≡ self.old.records ++ record { author = author; op = op.entry; seq = seq } ∷ [] }
        ensures answers { self.new.answers ≡ self.old.answers ++ None ∷ [] }
    {
        let k = self.count;
        self.records.push_laid(author, seq, op);
        self.answers[k] = None;
        self.count = k + 1;
    }

    /// Becomes a batch of this record alone, without its answer.
    #[inline(never)]
    pub fn set_only(&mut self, new: &NewRecord<'_>)
        ensures only { self.new ≡ only new.now }
    {
        self.clear();
        // (it is no longer than any operation)
        let _parts = new.op.parts();
        self.records.push(new.author, new.seq, new.op);
        self.answers[0] = None;
        self.count = 1;
    }

    /// The records of the requests, in the order of their slots.
    pub fn records(&self) -> Records<'_>
        ensures records { result ≡ self.now.records }
        ensures few { length self.now.records ≤ 16 }
        ensures answers { length self.now.answers ≡ length self.now.records }
    {
        self.records.lent()
    }

    /// Sets the answer of the `k`-th request, from 0.
    pub fn answer(&mut self, k: usize, reply: Reply)
        requires there { k < length self.old.records }
        ensures set { self.new ≡ record self.old { answers = slice_set self.old.answers k (Some reply) } }
    {
        let answers = &mut self.answers[..self.count];
        answers[k] = Some(reply);
    }

    // The answer of the `k`-th request, which is set.
    pub(crate) fn answer_no(&self, k: usize) -> Reply
        requires set { (reply : TheReply) × (slice_get self.now.answers k ≡ Some (Some reply)) }
        ensures answer { slice_get self.now.answers k ≡ Some (Some result) }
    {
        let answers = &self.answers[..self.count];
        match answers[k] {
            Some(reply) => reply,
            None => unreached!(),
        }
    }
}
