//! What is promised of programs and of a store, in the fewest definitions: an accepted program reaches its exit, and one list of
//! operations explains all calls and answers of a store. Who reads `specs/` here, and what it cites, has the whole promise for programs and
//! schedules. For running threads `Linear` of `store` goes on with `Linearized`.
//!
//! What operations do is a relation (`Operations`): a call is a run of its program, as RFC 9669 has it. `Linearized` is what it is that a list
//! explains a trace, `Answered` which calls are taken and when all are answered. Neither the verifier's rules nor the parts of a store are cited.
//!
//! What this does not say: which programs are accepted or may be installed (`verify` of `verifier`); that there is memory; when any other step
//! is taken, such as an install, or a call of a program that was installed, and what the steps inside a node do (`World::step` of `schedule`).
//! A store that takes no install, or keeps one set of maps for all its nodes, would meet it. An answer may be withheld until the steps of
//! `settling` have gone through for its node. The list explains all steps together: what it has for an early call may depend on later ones. Nor
//! does it say that the first answers are the same whatever steps come later (`answers_to` of `schedule` does).
#![tactic(auto)]

mod programs;
mod schedules;

pub use programs::accepted_programs_run;
pub use schedules::run_schedule;
