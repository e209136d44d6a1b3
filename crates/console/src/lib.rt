//! The commands `check`, `explain`, `asm`, `dis`, `encode` and `decode` of the program `nrbpf`, which look at texts and run nothing.
#![tactic(auto)]

mod assembly;
mod decoding;
mod laws;
mod manifests;
mod map_lines;
mod objects;

pub use assembly::{Assemble, Disassemble, Encode};
pub use decoding::Decode;
pub use laws::{check_writes, slots_are_columns};
pub use manifests::{Check, Draw, Explain};
pub use map_lines::CheckMaps;
pub use objects::Find;
