//! Every schedule: a whole store as one value, and the steps that its actors take one after another, each with its guard. After
//! every list of steps one list of operations explains all calls and answers so far (Calciu et al., "Black-box Concurrent Data
//! Structures for NUMA Architectures", ASPLOS 2017; Herlihy and Wing, "Linearizability", TOPLAS 1990).
#![tactic(auto)]

mod blocking;
mod laws;
mod nodes;
mod parts;
mod rooms;
mod steps;
mod worlds;

pub use blocking::Blocked;
pub use laws::{every_schedule, standing_is_kept};
pub use node::{NodeBatch, Written};
pub use parts::{BegunRead, Opening};
pub use steps::{Step, StepAnswer};
pub use worlds::{World, run_steps};
