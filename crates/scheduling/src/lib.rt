//! The command `schedule` of the program `nrbpf`: a list of steps, taken one after another on a store.
#![tactic(auto)]

mod lanes;
mod laws;
mod reasons;
mod step_lists;

pub use laws::schedules_are_explained;
pub use step_lists::Schedule;
