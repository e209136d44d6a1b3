//! How the calls of a store are answered: from wherever the other nodes have stopped, one fixed list of a node's own steps answers every
//! call of that node. So no schedule leads a store to where a call can't be answered.
#![tactic(auto)]

mod calls;
mod laws;
mod lists;

pub use calls::{Taken, settle, settle_node};
pub use laws::{every_schedule_settles, nodes_settle};
pub use lists::{settling, settling_store};
