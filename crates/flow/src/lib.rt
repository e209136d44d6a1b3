//! The structure of programs: each jump leads forward to an instruction, the end isn't run over, and every instruction
//! can be reached.
//!
//! `structure` decides this in time linear in the program, without allocating, or names the first rule that is broken.
#![tactic(auto)]

mod deciding;
mod edges;
mod laws;
mod rules;
mod slot_set;

pub use deciding::{good_size, structure};
pub use laws::{fault_is_first_broken, no_fault_where_structured};
pub use rules::{Broken, StructureRule};
