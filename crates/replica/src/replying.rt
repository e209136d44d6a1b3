// Outcomes that are kept while records are replayed.

ghost use Rattle.std.specs.Prelude.{◌≡◌, ◌<◌, ◌≤◌, [], ◌∷◌, Some, slice_get, length};
ghost use Rattle.replica.specs.Views.{no_replies, with_outcome};

use machine::Outcome;
use std::marker::Model;

/// The outcomes of the records at up to 16 indexes of the history, each from the time when its record is replayed.
#[derive(Drop)]
pub struct Replies {
    first: u64,
    count: usize,
    outcomes: [Option<Outcome>; 16],
}

impl Model for Replies {
    ghost use Rattle.std.specs.Prelude.{◌≤◌, take};
    ghost use Rattle.replica.specs.Views.{RepliesView};

    ghost Value = { RepliesView };

    ghost view = { λ r. record { first = r.first; outcomes = take r.count r.outcomes } };

    ghost invariant = { λ r. r.count ≤ 16 };
}

impl Replies {
    /// Keeps the outcomes of `count` indexes from `first` on, at most 16. No record there was replayed yet.
    pub fn new(first: u64, count: usize) -> Replies
        requires few { count ≤ 16 }
        ensures none { result ≡ no_replies first count }
    {
        Replies {
            first,
            count,
            outcomes: [None; 16],
        }
    }

    /// Keeps the outcomes of `count` other indexes, from `first` on, at most 16, and no longer those of the indexes before. No record there
    /// was replayed yet. Clears no more than these.
    pub fn restart(&mut self, first: u64, count: usize)
        requires few { count ≤ 16 }
        ensures none { self.new ≡ no_replies first count }
    {
        self.first = first;
        self.count = count;
        self.outcomes[..count].fill(None);
    }

    /// Keeps the outcome of this index, if its record has been replayed, and no longer those of the indexes before.
    pub fn set_only(&mut self, index: u64, outcome: Option<Outcome>)
        ensures only { self.new ≡ record { first = index; outcomes = outcome ∷ [] } }
    {
        self.first = index;
        self.count = 1;
        self.outcomes[0] = outcome;
    }

    /// The first of the indexes.
    pub fn first(&self) -> u64
        ensures first { result ≡ self.now.first }
    {
        self.first
    }

    /// How many indexes there are.
    pub fn len(&self) -> usize
        ensures count { result ≡ length self.now.outcomes }
    {
        self.outcomes[..self.count].len()
    }

    /// The outcome of the record at index `first + k`; `None` while it has not been replayed.
    pub fn get(&self, k: usize) -> Option<Outcome>
        requires within { k < length self.now.outcomes }
        ensures outcome { slice_get self.now.outcomes k ≡ Some result }
    {
        // (the invariant: there are 16 outcomes at most)
        let _count = self.count;
        self.outcomes[k]
    }

    // The outcome of the record at this index of the history, if the index is one of those kept.
    pub(crate) fn keep(&mut self, index: u64, outcome: Outcome)
        ensures kept { self.new ≡ with_outcome self.old index outcome }
    {
        if self.first <= index && index - self.first < self.count as u64 {
            self.outcomes[(index - self.first) as usize] = Some(outcome);
        }
    }
}
