//! What a line of a script, of a list of steps or of a transcript says.
#![tactic(auto)]

mod laws;
mod script;
mod step_lines;
mod transcripts;

pub use laws::{each_line_is_its_spelling, encoded_lines_are_calls};
pub use script::{
    KeyedCall, NumberedCall, ProgramCall, ProgramKey, ProgramText, ScriptLine, lent_argument,
    read_line, word_line,
};
pub use step_lines::{SlotAt, StepLine, read_step_line};
pub use transcripts::{ToldReply, TranscriptLine, read_transcript_line};
