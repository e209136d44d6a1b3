//! Which maps a program names: so who installs programs for others can say which maps each may use.
#![tactic(auto)]

mod laws;
mod naming;

pub use laws::{naming_is_tested, only_named_maps_matter};
pub use naming::{first_outside, named_maps};
