//! One log of operations that all replicas are fed from (Calciu et al., "Black-box Concurrent Data Structures for NUMA
//! Architectures", ASPLOS 2017: Node Replication).
#![tactic(auto)]

mod answers;
mod byte_place;
mod configuration;
mod hand;
mod laid;
mod lent;
mod log_state;
mod long;
mod padding;
mod parts;
mod record_list;
mod records;
mod rows;

pub use answers::{Appended, CopyAnswer, Ended};
pub use configuration::{
    Config, ENDLESS, MAX_LIMIT, MAX_NODE_SLOTS, MAX_NODES, MAX_SESSIONS, MAX_WINDOW, MIN_WINDOW,
    MOST_WINDOW, OpenError, Sizes, limits,
};
pub use hand::Hand;
pub use laid::{LaidOp, LaidRef};
pub use lent::{CallRef, NewRecord, OpRef, RecordRef, Records};
pub use log_state::{LogRoom, LogState};
pub use long::LongOp;
pub use parts::OpParts;
pub use record_list::RecordList;
pub use records::{Call, MAX_INSTALLED_BYTES, NewProgram, Op, Record};
