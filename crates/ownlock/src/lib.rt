//! A shelf of numbered places, each with a value. Who takes a place has its value alone, until it is put back.
//!
//! The contracts speak of what the sessions know: a progress that only grows, a note for each session, and the values that
//! agree with both. Any number of threads may take and put, each with a seat of its own.
#![tactic(auto)]

mod change;
mod error;
mod known;
mod law;
mod rule;
mod seat;
mod shelf;
mod shelved;
mod spreading;
mod steps;
mod winning;
mod words;

pub use change::{Ask, Change};
pub use error::{NotOpened, OpenError};
pub use known::{Known, SharedStep, ShelfStep};
pub use law::between_steps;
pub use seat::Seat;
pub use shelf::{Held, LEADER, Shelf};
pub use shelved::Shelved;
pub use winning::Won;
pub use words::Spot;
