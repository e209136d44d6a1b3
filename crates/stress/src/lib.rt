//! The command `stress` of the program `nrbpf`: a script's calls on a store of several nodes, each session on a thread of its own.
#![tactic(auto)]

mod calls;
mod command;
mod gate;
mod laws;
mod left_texts;
mod lines;
mod players;
mod playing;
mod rounds;
mod sharing;
mod stressed;
mod teams;
mod watching;

pub use command::Stress;
pub use gate::{Gate, OpenGate};
pub use laws::{each_call_has_one_line, transcripts_agree, transcripts_are_good};
pub use left_texts::{Leaving, LeftTexts};
pub use stressed::Stressed;
pub use teams::makes_teams;
pub use watching::{Counts, NoClock};
