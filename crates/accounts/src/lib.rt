//! What is known of one growing history of operations, and the laws of it: how the log, the replicas and the desks of a store fit
//! the history and what each session says of itself, and which changes keep that. Definitions and laws alone, and no code that runs.
#![tactic(auto)]

mod law;
mod meanings;
mod sessions;

pub use law::{
    desk_batches, desk_laws, desk_notes, desk_puts, log_puts, opens, read_notes, seen_laws,
    store_picks, store_puts, store_rules, store_takes, store_tells, tells,
};
pub use meanings::{Effects, Viewed};
pub use sessions::{
    AnsweredUpdate, BegunRead, Claim, Pending, Progress, SessionEvent, SessionNote,
};
