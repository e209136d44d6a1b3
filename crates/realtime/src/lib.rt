//! The command `replay --history` of the program `nrbpf`: whether the calls of a transcript stand in the order in which they were made.
#![tactic(auto)]

mod command;
mod histories;
mod laws;
mod orders;
mod ranks;

pub use command::ReplayTimed;
pub use histories::SESSIONS;
pub use laws::{
    good_is_linearizable, good_is_real, limits, lines_are_calls, places_are_real, turns_are_taken,
};
