//! Manifests: which maps a store has, and which programs it offers; and the programs that are installed behind these; and the state that
//! operations change, maps with such programs.
#![tactic(auto)]

mod catalogue;
mod file_names;
mod grammar;
mod installed;
mod laws;
mod loading;
mod numbering;
mod opened_on;
mod paths;
mod program_files;
mod refusals;
mod store_state;

pub use catalogue::Catalogue;
pub use file_names::named_files;
pub use grammar::{Line, ProgramLine, mode, read_line};
pub use installed::{
    InstallRefusal, Installed, MAX_SPARE, MOST_LONG, MOST_SPARE, most_argument, most_bytes,
};
pub use laws::{
    each_line_is_its_spelling, limits, loaded_is_offered, names_are_files, refused_is_first_bad,
    wider_limits_keep_what_is_good,
};
pub use loading::{load_manifest, load_manifest_within};
pub use refusals::{LoadError, LoadFault, LoadRefusal};
pub use store_state::StoreState;
