//! Texts line by line: what manifests, scripts and their like have in common.
//!
//! A text is lines ended by a line feed, which the last may lack. A line has at most 512 bytes; empty lines and lines
//! that begin with `#` say nothing. Fields are separated by one space.
#![tactic(auto)]

mod digits;
mod fields;
mod laws;
mod lines;
mod words;

pub use digits::{FIELD_BYTES, hex_field, spaced_hex};
pub use fields::split_at_space;
pub use laws::{fields_are_cut_at_spaces, limits, numerals_are_decimals};
pub use lines::{LINE_BYTES, LineKind, NumberedLines, kind_of};
pub use words::{NAME_BYTES, is_name, number, number_within};
