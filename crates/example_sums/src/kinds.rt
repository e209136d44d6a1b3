// The leader is a list. The follower is a tail, and the wrapping sum of the numbers before it.
use ownlock::Shelved;
use std::collections::LinkedList;

/// What all sessions see grow. It stands in contracts alone.
pub struct Progress {
    pub items: LinkedList<u64>,
    pub completed: u64,
}

/// The leader: numbers in the order in which they were appended.
#[derive(Drop)]
pub struct Numbers {
    pub items: Vec<u64>,
}

/// The follower: the sum, modulo 2^64, of the first `tail` numbers.
#[derive(Drop)]
pub struct RunningSum {
    pub tail: u64,
    pub sum: u64,
}

#[derive(Drop)]
pub enum Value {
    List(Numbers),
    Sum(RunningSum),
}

impl Shelved for Value {
    type Progress = Progress;

    /// How many numbers the session appended.
    type SessionNote = u64;

    /// How many sessions there are.
    type Setup = u64;

    ghost use Rattle.std.specs.Prelude.{replicate};
    ghost use Rattle.example_sums.specs.Sums.{sum_rules, empty_progress};
    ghost use Rattle.example_sums.specs.Laws.{sum_laws};

    ghost rules = { sum_rules };

    ghost first_progress = { λ _. empty_progress };

    // The list, and its sum.
    ghost places = { λ _. 2 };

    ghost first_notes = { λ sessions. replicate sessions 0 };

    ghost laws = { sum_laws };
}
