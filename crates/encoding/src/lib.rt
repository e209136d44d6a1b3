//! The lines of a script from lines of names and numbers.
//!
//! `encode` reads a text of lines as `reserve u64:1001 s32:-2 str:"ab" hex:00ff` and writes the script that says the same calls
//! with their arguments in hexadecimal digits, or names the first place that is wrong. `decode` goes the other way: it writes the entries
//! of a state as such values, by a layout.
#![tactic(auto)]

mod arguments;
mod decode_faults;
mod decoding;
mod faults;
mod kinds;
mod laws;
mod layouts;
mod lines;
mod numbers;
mod values;
mod words;

pub use arguments::ARGUMENT_BYTES;
pub use decode_faults::{DecodeError, DecodeRefusal};
pub use decoding::decode;
pub use faults::{EncodeError, EncodeRefusal, LineFault, Wanted, refusal_line};
pub use kinds::Kind;
pub use laws::{
    limits, lines_are_calls, numbers_are_read_back, numbers_are_spelled, values_are_of_their_bytes,
    values_are_read_back,
};
pub use lines::{encode, encode_line};
