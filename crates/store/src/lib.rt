//! A store whose sessions run on threads of their own (Calciu et al., ASPLOS 2017: Node Replication): a log of updates, and a
//! replica of the maps on each node that replays it. A program that embeds one needs no other crate's names.
#![tactic(auto)]

mod answers;
mod closed;
mod describing;
mod laws;
mod measuring;
mod opening;
mod own_room;
mod pipeline;
mod polled;
mod polled_pipeline;
mod session;
mod standing;
mod store;
mod updating;
mod within;

pub use answers::Answer;
pub use closed::Closed;
pub use describing::StoreInfo;
pub use laws::{calls_add, calls_in_order};
pub use loader::{Catalogue, LoadError, StoreState, load_manifest, load_manifest_within};
pub use maps::{MapLimits, Shape};
pub use node::NodeReplica;
pub use oplog::{Config, ENDLESS, OpenError, Sizes};
pub use pipeline::{JoinRefused, NotJoined, Pipeline};
pub use polled::Polled;
pub use polled_pipeline::PolledPipeline;
pub use readpath::ReadAnswer;
pub use replica::{NO_PLACE, NO_PROGRAM, StoreRefused};
pub use session::Session;
pub use store::Store;
pub use store_steps::{
    Batches, Beginning, GetRefused, InfoRefused, Lookup, MapInfo, MapKey, ProgramFacts,
    ProgramInfo, Question, QuestionRefused, Scan, ScanRefused, Setup, Stats, Value, desks,
};
pub use updating::Tried;
pub use verifier::Mode;
pub use within::Confined;
