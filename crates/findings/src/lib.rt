//! What is wrong with a manifest and its programs, as data, and as JSON objects for editors and other programs.
#![tactic(auto)]

mod causes;
mod objects;
mod search;

pub use causes::{Cause, Finding};
pub use objects::{findings_text, missing_text, with_stranger};
pub use search::find_faults;
