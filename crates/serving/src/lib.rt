//! The command `serve` of the program `nrbpf`: the lines of a script, answered as they come.
#![tactic(auto)]

mod laws;
mod service;
mod store_texts;
mod turns;

pub use laws::{limits, served_in_parts, served_is_encoded, served_is_run};
pub use turns::{ROOM_BYTES, ServeEnd, ServeOptions, Server};
