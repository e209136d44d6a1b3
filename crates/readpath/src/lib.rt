//! Reads of a replica that has caught up (Calciu et al., ASPLOS 2017): a read may answer once the replica's tail has reached the
//! completed tail that the read saw when it began.
#![tactic(auto)]

mod reading;

pub use reading::{ReadAnswer, answer, ready};
