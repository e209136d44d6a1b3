//! What a store's sessions on many threads promise, beyond what each call's contract says. Laws alone, and no code that runs.
//!
//! `laws`: what holds between any two atomic steps, of which steps of the schedule a whole call and a step at a desk are made, and that a
//! call which begins when another has returned comes behind it.
//!
//! `threads`: the run of the steps of all threads, as the rules of the lock allow them; the calls and answers that each session notes there; and
//! that one history explains these events, by the schedule's own definition.
#![tactic(auto)]

mod laws;
mod threads;

pub use laws::{between_steps, desks_are_steps, stands_behind, whole_calls_are_steps};
pub use threads::runs_are_explained;
