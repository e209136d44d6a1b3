//! The command `run` of the program `nrbpf`: a script on one replica, on a new state or on one that is loaded.
#![tactic(auto)]

mod called_runs;
mod calls;
mod dumped_runs;
mod laws;
mod lines;
mod run_texts;
mod runs;
mod signed_texts;
mod single_node;

pub use called_runs::CalledRun;
pub use calls::{checked_call, take_line};
pub use dumped_runs::DumpedRun;
pub use laws::{
    limit_is_unfelt, limits, replies_are_told, run_is_unique, run_lines_are_runs, run_writes,
    runs_may_be_cut,
};
pub use run_texts::{bad_line, put_bad_line};
pub use runs::{Kept, Run};
pub use single_node::SingleNode;
