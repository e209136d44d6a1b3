//! What a session of a store does on the shelf: while it is lent the log, its node's replica or its node's desk, and what it takes and puts
//! back in a call. `store` makes these calls for its sessions.
#![tactic(auto)]

mod alone;
mod at_once;
mod batches;
mod claimed;
mod combining;
mod deeds;
mod describing;
pub mod desks;
mod getting;
mod looks;
mod measuring;
mod passing;
mod pauses;
mod pipelines;
mod polling;
mod polling_each;
mod questions;
mod requests;
mod scanning;
mod snapshots;
mod steps;
mod taking;
mod values;
mod visits;

pub use at_once::ask_at_once;
pub use batches::{Batches, Room};
pub use deeds::{Deed, Stage, go_on};
pub use describing::{InfoRefused, MapInfo, MapQuery, ProgramFacts, ProgramInfo, ProgramQuery};
pub use getting::{Get, GetRefused, Lookup, MapKey};
pub use looks::{Look, look_waiting, try_look};
pub use measuring::{Stats, measure, try_measure};
pub use pipelines::{EachRoom, Member};
pub use polling::{Came, give_and_turn, try_ask};
pub use polling_each::{EachStage, go_on_each, try_begin_each};
pub use questions::{QuestionRefused, Reads, check_each};
pub use requests::{complete, post, try_post};
pub use scanning::{Beginning, Page, Scan, ScanRefused};
pub use snapshots::Snapshot;
pub use steps::{Caller, Here, Question, Shared, records_worth};
pub use values::{Setup, Value, shelved_log, shelved_replica};
