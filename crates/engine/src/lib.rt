//! The engine of the commands of the program `nrbpf`, over any reader, any writer and any folder of files: it reads all
//! texts, and writes what the command makes of them.
#![tactic(auto)]

pub mod in_memory;
mod opening;
mod parted;
mod performing;
mod reading;
mod replies;
pub mod texts;
mod transfer;
mod watching;

pub use in_memory::{Held, HeldFiles, Page};
pub use opening::{Loaded, Opened, load_texts, open_texts, places_within};
pub use parted::{Destination, Handed, Parted};
pub use performing::{
    Command, Performed, hand_back, perform, perform_kept, prepare, report, write_text,
};
pub use reading::{
    Folder, Gathered, Inputs, LINE_ARG_LEN, MapSizes, NamedText, Stranger, Texts, gather, lent,
};
pub use replies::{
    AnswerText, Answering, Notes, Reply, Status, Telling, Verdict, not_text, sizes_refused,
};
pub use transfer::{CannotRead, CannotWrite, Feed, ReadFault, Sink, Source};
pub use watching::StoreWatcher;
