//! What the verifier knows of a program in words, for its author: a listing by slots, and of a refused program the way to the refusal, what
//! broke, and what to do about it. Of a manifest every line that is bad is told of, and not the first alone; of refused assembler text where it is
//! wrong and what is wanted there. A program can be drawn, too.
#![tactic(auto)]

mod files;
mod laws;
mod programs;
mod refusals;
mod sentences;

pub use files::{
    explain_assembly, explain_manifest, explain_stranger, graph_manifest, has_program, text_of,
};
pub use laws::{refusal_is_told, rules_are_shared};
pub use programs::{Subject, explain_program, explain_refusal};
pub use refusals::Reason;
