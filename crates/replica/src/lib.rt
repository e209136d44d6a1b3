//! A node's copy of the maps, fed from the log.
#![tactic(auto)]

mod last_states;
mod laws;
mod operations;
mod refusals;
mod replicas;
mod replying;

pub use last_states::last_state;
pub use laws::{histories_have_effects, operations_are_tested};
pub use operations::{NO_PLACE, NO_PROGRAM, replies};
pub use refusals::{StoreRefused, check_call, check_install, find_program, find_program_of};
pub use replicas::Replica;
pub use replying::Replies;
