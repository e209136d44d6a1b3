//! The command `replay` of the program `nrbpf`: a transcript, compared line by line on one replica.
#![tactic(auto)]

mod answering;
mod laws;
mod lines;
mod replay_texts;

pub use answering::Replay;
pub use laws::replays_are_runs;
