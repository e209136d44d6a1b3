//! Desks: who posts a request, who combines those of a node as one batch, and who is answered (Calciu et al., "Black-box
//! Concurrent Data Structures for NUMA Architectures", ASPLOS 2017: flat combining within a node).
#![tactic(auto)]

mod batches;
mod desks;
mod places;
mod slots;

pub use batches::Batch;
pub use desks::Desk;
pub use slots::{DeskRefused, Reply, Slot, Stage};
