//! The state of a store as text: a line for each entry, in order, and for each program that was installed.
#![tactic(auto)]

mod dumping;
mod laws;
mod lines;
mod loading;
mod pieces;
mod refusals;
mod sorting;
mod watching;

pub use dumping::dump;
pub use laws::{
    dump_fits_more, dump_is_read, empty_is_new, limits, loaded_is_state, refused_is_first_bad,
    text_is_dumped,
};
pub use lines::DUMP_LINE_BYTES;
pub use loading::{load, load_watched};
pub use pieces::{Dumping, Pieces, StateText};
pub use refusals::{DumpError, DumpFault, DumpRefusal};
pub use watching::{Unwatched, Watcher};
