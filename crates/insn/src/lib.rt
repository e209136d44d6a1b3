//! The instructions of eBPF programs, and their bytes (RFC 9669, section 3).
//!
//! A program is a list of `Insn`. `decode` reads one from bytes, or names the first thing that keeps the bytes from
//! spelling one; `encode` writes the bytes of a program.
#![tactic(auto)]

mod decoding;
mod encoding;
mod flat;
mod instruction;
mod reading;
mod spelling;
mod uses;

pub use decoding::{
    DecodeError, DecodeFault, DecodeRefusal, MAX_INSTALLED_SLOTS, decode, decode_into,
    decoded_is_refused, decoded_is_spelled,
};
pub use encoding::{encode, encode_inverts_decode, one_instruction_is_a_program};
pub use flat::{Division, Op, forms_lie_one_for_one};
pub use instruction::{
    Condition, Edge, Fields, Form, Insn, MAX_SLOTS, Operation, Order, Size, Source, distance,
    limits, size_counts_slots,
};
pub use uses::opcodes_are_those_of_instructions;
