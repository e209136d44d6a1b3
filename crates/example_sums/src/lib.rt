//! The kinds of value that the lock is tried with: a list that threads append to, and a running sum that follows it.
#![tactic(auto)]

mod appending;
mod both;
mod kinds;
mod replay;

pub use appending::{FOLLOWER, append, append_many};
pub use both::{Appended, append_both, close_two, open_two};
pub use kinds::{Numbers, Progress, RunningSum, Value};
