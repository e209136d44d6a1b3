// Why a text is no program.

ghost use Rattle.std.specs.Prelude.{◌≡◌};
ghost use Rattle.asm.specs.Refusal.{fault_number, error_number, error_line};

use std::alloc::AllocError;
use thiserror::Error;

/// What is wrong with a line of assembler text. Each has its number, from 1 to 8.
#[derive(Clone, Copy, PartialEq, Eq, Debug, Error)]
pub enum AsmFault {
    /// The line begins with neither a label nor the word of an instruction.
    #[error("A1: the word is unknown")]
    UnknownWord,
    /// An operand is missing, or is not written as its word asks.
    #[error("A2: an operand is missing or malformed")]
    BadOperand,
    /// A number does not fit its field.
    #[error("A3: a number is out of its range")]
    OutOfRange,
    /// A jump names a label that stands nowhere.
    #[error("A4: the label is unknown")]
    UnknownLabel,
    /// An earlier line has the same label.
    #[error("A5: the label stands on an earlier line too")]
    LabelTwice,
    /// A jump goes further than its field can say.
    #[error("A6: the jump goes too far")]
    JumpTooFar,
    /// A program has at most 4,096 slots.
    #[error("A7: there are more than 4096 slots")]
    TooLong,
    /// Something stands behind the label or the last operand.
    #[error("A8: there is text behind the end of the instruction")]
    TextBehind,
}

impl AsmFault {
    /// The number n of An.
    pub fn number(self) -> u8
        ensures number { result ≡ fault_number self }
    {
        match self {
            AsmFault::UnknownWord => 1,
            AsmFault::BadOperand => 2,
            AsmFault::OutOfRange => 3,
            AsmFault::UnknownLabel => 4,
            AsmFault::LabelTwice => 5,
            AsmFault::JumpTooFar => 6,
            AsmFault::TooLong => 7,
            AsmFault::TextBehind => 8,
        }
    }
}

/// The first bad line, counted from 1, and what is wrong with it: of several faults the one of lowest number.
#[derive(Clone, Copy, PartialEq, Eq, Debug, Error)]
#[error("line {line}: {why}")]
pub struct AsmRefusal {
    /// The line, from 1. Lines past 2^32 - 1 have that number.
    pub line: u32,
    /// What is wrong with it.
    pub why: AsmFault,
}

/// Why a text is not assembled.
#[derive(Clone, Copy, PartialEq, Eq, Debug, Error)]
pub enum AsmError {
    /// Memory ran out.
    #[error("A0: memory ran out")]
    NoMemory,
    /// A line is bad.
    #[error("{0}")]
    Refused(AsmRefusal),
}

impl AsmError {
    /// The number n of An, 0 where memory ran out.
    pub fn number(self) -> u8
        ensures number { result ≡ error_number self }
    {
        match self {
            AsmError::NoMemory => 0,
            AsmError::Refused(refusal) => refusal.why.number(),
        }
    }

    /// The bad line, from 1, and 0 where memory ran out.
    pub fn line(self) -> u32
        ensures line { result ≡ error_line self }
    {
        match self {
            AsmError::NoMemory => 0,
            AsmError::Refused(refusal) => refusal.line,
        }
    }
}

impl From<AllocError> for AsmError {
    ghost use Rattle.asm.specs.Refusal.{no_memory};

    ghost from_gives = { λ _ e. e ≡ no_memory };

    fn from(_: AllocError) -> Self {
        AsmError::NoMemory
    }
}
