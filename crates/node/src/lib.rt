//! A node of a store, step by step (Calciu et al., ASPLOS 2017): its replica, with the records that were copied for it, and each step of
//! these on a log that is lent: a call that says whether the step may be taken now, and a call that takes it. No call here waits, takes
//! a lock or memory.
#![tactic(auto)]

mod answering;
mod following;
mod parts;

pub use answering::answer_batch;
pub use following::{
    NodeReplica, append, append_only, copy, exchange, finish, follow, has_next, may_answer,
    may_append, may_finish, may_rebase, may_reclaim, may_reply, rebase, reclaim, replay,
    replay_first, replay_with,
};
pub use parts::{NodeBatch, Written};
