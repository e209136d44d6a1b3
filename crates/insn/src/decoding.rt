// Programs out of bytes, whole.

ghost use Rattle.std.specs.Prelude.{◌≡◌, ℕ, ◌*◌, ◌%◌, ◌≤◌, [], List, Ok, Err, length, vec_capacity, IfOk, IfErr, MatchResult};
ghost use Rattle.insn.specs.declared.instruction.Form.{Form};
ghost use Rattle.insn.specs.declared.decoding.DecodeError.TheVariants.{NoMemory, Refused};
ghost use Rattle.insn.specs.Refusal.{length_fault, fault_number, Decodes, IsOnly, IsFirst};
ghost use Rattle.insn.specs.Decoded.{decoded, program_in, DecodeFails, ReadsWhatIsSpelled, ReadsWhatIsRefused};

use crate::instruction::{Insn, MAX_SLOTS};
use crate::reading::instruction;
use std::alloc::{AllocError, Global};
use thiserror::Error;

/// The most slots of a program that is installed while a store runs, if the store says no other number.
pub const MAX_INSTALLED_SLOTS: usize = 24;

/// Why bytes are no program. Each has its number, from 1 to 9.
#[derive(Clone, Copy, PartialEq, Eq, Debug, Error)]
pub enum DecodeFault {
    /// A slot has 8 bytes (RFC 9669, section 3.1).
    #[error("D1: the number of bytes is not a multiple of 8")]
    NotWholeSlots,
    /// A program has an instruction.
    #[error("D2: there are no bytes")]
    Empty,
    /// A program has at most 4,096 slots.
    #[error("D3: there are more than 4096 slots")]
    TooLong,
    /// The opcode is that of no instruction (RFC 9669, sections 4 and 5).
    #[error("D4: the opcode is unknown")]
    UnknownOpcode,
    /// A register number is not one of 0 to 10 (RFC 9669, section 3.1), also in a field that is not in use.
    #[error("D5: a register number is above 10")]
    RegisterAbove10,
    /// A field in use has a value without a meaning (RFC 9669, sections 4 and 5).
    #[error("D6: a field has a value that is not defined")]
    UndefinedValue,
    /// A field that is not in use is zero (RFC 9669, section 3.1).
    #[error("D7: an unused field is not zero")]
    UnusedFieldSet,
    /// A wide instruction has a second slot (RFC 9669, section 3.2).
    #[error("D8: a wide instruction has no second slot")]
    CutOff,
    /// In a second slot all is zero but next_imm, and that too after a reference to a map (RFC 9669, section 3.2).
    #[error("D9: a field of a second slot is not zero")]
    BadSecondHalf,
}

impl DecodeFault {
    /// The number, from 1 to 9, that a refusal shows after its letter D.
    pub fn number(self) -> u8
        ensures number { result ≡ fault_number self }
    {
        match self {
            DecodeFault::NotWholeSlots => 1,
            DecodeFault::Empty => 2,
            DecodeFault::TooLong => 3,
            DecodeFault::UnknownOpcode => 4,
            DecodeFault::RegisterAbove10 => 5,
            DecodeFault::UndefinedValue => 6,
            DecodeFault::UnusedFieldSet => 7,
            DecodeFault::CutOff => 8,
            DecodeFault::BadSecondHalf => 9,
        }
    }
}

/// The first refusal, and the slot at which it stands, from 0: the first slot of the instruction, and 0 where the
/// number of bytes is wrong.
#[derive(Clone, Copy, PartialEq, Eq, Debug, Error)]
#[error("slot {slot}: {why}")]
pub struct DecodeRefusal {
    /// The slot, from 0.
    pub slot: u32,
    /// What is wrong there.
    pub why: DecodeFault,
}

/// Why `decode` gives no program.
#[derive(Clone, Copy, PartialEq, Eq, Debug, Error)]
pub enum DecodeError {
    /// There is no memory left for the program, which says nothing of the bytes.
    #[error("slot 0: D0: memory ran out")]
    NoMemory,
    /// The bytes spell no program.
    #[error("{0}")]
    Refused(DecodeRefusal),
}

impl DecodeError {
    ghost use Rattle.insn.specs.Refusal.{error_number, error_slot};

    /// The number, from 0 to 9, that it shows after its letter D: 0 where memory ran out.
    pub fn number(self) -> u8
        ensures number { result ≡ error_number self }
    {
        match self {
            DecodeError::NoMemory => 0,
            DecodeError::Refused(refusal) => refusal.why.number(),
        }
    }

    /// The slot of the refusal, from 0, and 0 where memory ran out.
    pub fn slot(self) -> u32
        ensures slot { result ≡ error_slot self }
    {
        match self {
            DecodeError::NoMemory => 0,
            DecodeError::Refused(refusal) => refusal.slot,
        }
    }
}

impl From<AllocError> for DecodeError {
    ghost from_gives = { λ _ e. e ≡ NoMemory };

    fn from(_: AllocError) -> Self {
        DecodeError::NoMemory
    }
}

/// The program that the bytes spell (RFC 9669, section 3), or the first thing that keeps them from spelling one: their
/// number, else at the lowest slot at which no instruction begins the fault with the lowest number. Any bytes may be
/// asked; those of a program of 1 to 4,096 slots are answered unless memory runs out, which is
/// `NoMemory`.
pub fn decode(alloc: Global, bytes: &[u8]) -> Result<Vec<Insn>, DecodeError>
    // What is answered is spelled by the bytes.
    ensures found { IfOk result (λ p. Decodes bytes.now p.items) }
    // What the bytes spell is answered, unless memory runs out.
    ensures only { (p : List Form) → Decodes bytes.now p → IsOnly result p }
    // A refusal is the first one, unless memory ran out.
    ensures first { IfErr result (IsFirst bytes.now) }
    // `decode` answers what the function `decoded` gives, which callers cite.
    ensures reading { MatchResult result
        (λ v. decoded bytes.now ≡ Ok v.items)
        (λ e. DecodeFails e (decoded bytes.now)) }
{
    match fault_of_length(bytes.len()) {
        Some(why) => Err(DecodeError::Refused(refused(0, why))),
        None => {
            let mut program = Vec::with_capacity(alloc, bytes.len() / 8)?;
            match decode_into(bytes, &mut program) {
                Ok(()) => Ok(program),
                Err(refusal) => Err(DecodeError::Refused(refusal)),
            }
        }
    }
}

/// What `decode` answers, in room that was taken before: no memory is taken. What stood there is dropped. After a refusal
/// nothing is said of what stands there.
pub fn decode_into(bytes: &[u8], program: &mut Vec<Insn>) -> Result<(), DecodeRefusal>
    // There is room for an instruction in each slot.
    requires room { length bytes.now ≤ 8 * vec_capacity program.old }
    // What is answered is what `decode` answers.
    ensures reading { MatchResult result
        (λ _. decoded bytes.now ≡ Ok program.new.items)
        (λ e. decoded bytes.now ≡ Err e) }
    // The room stays.
    ensures room { vec_capacity program.new ≡ vec_capacity program.old }
{
    program.clear();
    match fault_of_length(bytes.len()) {
        Some(why) => Err(refused(0, why)),
        None => read_slots(bytes, program),
    }
}

// What is wrong with so many bytes.
fn fault_of_length(count: usize) -> Option<DecodeFault>
    ensures { result ≡ length_fault count }
{
    if count % 8 != 0 {
        Some(DecodeFault::NotWholeSlots)
    } else if count == 0 {
        Some(DecodeFault::Empty)
    } else if count > 8 * MAX_SLOTS {
        Some(DecodeFault::TooLong)
    } else {
        None
    }
}

// The program in the slots of the bytes, or the first refusal there. There is room for it.
fn read_slots(bytes: &[u8], program: &mut Vec<Insn>) -> Result<(), DecodeRefusal>
    requires whole { length bytes.now % 8 ≡ 0 }
    requires few { length bytes.now ≤ 8 * MAX_SLOTS }
    requires empty { program.old.items ≡ [] }
    requires room { length bytes.now ≤ 8 * vec_capacity program.old }
    ensures reading { MatchResult result
        (λ _. program_in bytes.now ≡ Ok program.new.items)
        (λ e. program_in bytes.now ≡ Err e) }
    ensures room { vec_capacity program.new ≡ vec_capacity program.old }
{
    let mut slot = 0;
    while 8 * slot < bytes.len() {
        match instruction(bytes, slot) {
            Ok(insn) => {
                program.push_reserved(insn);
                slot += insn.slot_count();
            }
            Err(why) => return Err(refused(slot as u32, why)),
        }
    }
    Ok(())
}

// The refusal at a slot.
fn refused(slot: u32, why: DecodeFault) -> DecodeRefusal
    ensures { result ≡ record { slot = slot; why = why } }
{
    DecodeRefusal { slot, why }
}

/// The function `decoded`, which tells what `decode` answers, reads as a program exactly what bytes spell.
pub fn decoded_is_spelled()
    ensures { ReadsWhatIsSpelled }
{}

/// The function `decoded` reads as a refusal exactly the first one.
pub fn decoded_is_refused()
    ensures { ReadsWhatIsRefused }
{}
