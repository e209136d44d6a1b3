//! What a call of a host in another language tells, and what it leaves at the five kinds of handle, which lie in memory of the host's. No call
//! waits: one that meets a held place says so. `embed` exports these calls.
#![tactic(auto)]

pub mod attached;
pub mod calls;
pub mod closing;
pub mod describing;
pub mod handles;
pub mod lanes;
mod laws;
pub mod loading;
pub mod looks;
pub mod measuring;
pub mod opening;
pub mod pool;
pub mod states;
pub mod statuses;
pub mod stores;

pub use laws::calls_add;
