//! Assembler text of eBPF programs.
//!
//! `assemble` reads a program from text, or names the first line that is wrong; `disassemble` writes a program's
//! canonical text, which `assemble` reads back.
#![tactic(auto)]

mod assembling;
mod disassembling;
mod forms;
mod labels;
mod laws;
mod operands;
mod places;
mod refusals;
mod tokens;
mod words;

pub use assembling::assemble;
pub use disassembling::disassemble;
pub use laws::{
    assemble_inverts_disassemble, each_word_is_its_spelling, labels_are_distances, tokens_say_all,
};
pub use places::{OperandKind, Place, place_of};
pub use refusals::{AsmError, AsmFault, AsmRefusal};
