// What the calls of the log answer.

ghost use Rattle.std.specs.Prelude.{◌≡◌};

use std::fmt;
use thiserror::Error;

/// Where records of a batch were appended.
#[derive(Clone, Copy, Debug, PartialEq, Eq)]
pub struct Appended {
    /// The index in the history of the first.
    pub first: u64,
    /// How many of the batch, from its front.
    pub count: usize,
}

/// L1: nothing is appended, since the history has as many records as it may have.
#[derive(Clone, Copy, Debug, PartialEq, Eq, Error)]
#[error("L1: the history has all its records")]
pub struct Ended;

impl Ended {
    /// The number that a refusal shows after its letter L.
    pub fn number(self) -> u8
        ensures number { result ≡ 1 }
    {
        1
    }
}

/// Whether records are copied out of the log.
#[derive(Clone, Copy, Debug, PartialEq, Eq)]
pub enum CopyAnswer {
    /// All records from the index on.
    Copied,
    /// None: the index lies below the log's base, which is this.
    Below(u64),
}
