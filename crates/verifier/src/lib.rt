//! Decides which programs are accepted.
#![tactic(auto)]

mod accepted;
mod accesses;
mod arithmetic;
mod calls;
mod context;
mod explaining;
mod frames_after;
mod laws;
mod operands;
mod prepared;
mod refusal;
mod regions;
mod rooms;
mod rules;
mod signature;
mod verification;
mod visiting;

pub use accepted::Accepted;
pub use explaining::{Explained, explain, frame_on_edge};
pub use laws::{
    frames_are_joins, joins_are_best_typing, more_maps_are_typable, no_refusal_where_typable,
    readers_are_typable, refusal_is_first_broken, refused_is_untypable,
    structure_keeps_its_numbers,
};
pub use prepared::Prepared;
pub use refusal::{Mode, Refused, VerifyError, VerifyFault};
pub use rooms::Scratch;
pub use signature::Signature;
pub use verification::{verify, verify_into};
