// Why a dump is refused.

ghost use Rattle.std.specs.Prelude.{◌≡◌};
ghost use Rattle.dumps.specs.declared.refusals.DumpError.TheVariants as errors;
ghost use Rattle.dumps.specs.declared.refusals.LineError.TheVariants as steps;
ghost use Rattle.dumps.specs.Refusal.{fault_number, line_of, number_of, at_line};

use loader::InstallRefusal;
use std::alloc::AllocError;
use thiserror::Error;

/// What is wrong with a line of a dump. Each has its number, from 1 to 9.
#[derive(Clone, Copy, Debug, Error)]
pub enum DumpFault {
    /// The line is none of a dump, or has no line feed at its end.
    #[error("E1: this is no `MAP KEYHEX VALUEHEX` or `p MODE ARGLEN HEX` within its limits, in lower case and ended by a line feed")]
    BadLine,
    /// The manifest has no map of this number.
    #[error("E2: the manifest has no map of this number")]
    NoMap,
    /// The key has another size than the map's keys, or the array no such index.
    #[error("E3: the key has another size than the map's keys, or is past the entries of an array")]
    BadKey,
    /// The value has another size than the map's values.
    #[error("E4: the value has another size than the map's values")]
    BadValue,
    /// The entry doesn't stand behind the line before it.
    #[error("E5: the entry does not stand behind the line before it: it is out of order, or its key stands there twice")]
    OutOfOrder,
    /// The value of an array's entry is all zeros.
    #[error("E6: the value of an array's entry is zero, as it is from the start")]
    ZeroValue,
    /// The hash may have no more keys.
    #[error("E7: there are more keys than the hash may have")]
    Full,
    /// The bytes are no program that may be installed.
    #[error("E8: the program is refused: {0}")]
    Program(InstallRefusal),
    /// There are more programs than may be installed.
    #[error("E9: there are more programs than may be installed")]
    TooManyPrograms,
}

impl DumpFault {
    /// The number n of En.
    pub fn number(self) -> u8
        ensures number { result ≡ fault_number self }
    {
        match self {
            DumpFault::BadLine => 1,
            DumpFault::NoMap => 2,
            DumpFault::BadKey => 3,
            DumpFault::BadValue => 4,
            DumpFault::OutOfOrder => 5,
            DumpFault::ZeroValue => 6,
            DumpFault::Full => 7,
            DumpFault::Program(_) => 8,
            DumpFault::TooManyPrograms => 9,
        }
    }
}

/// The first bad line, counted from 1, and what is wrong with it.
#[derive(Clone, Copy, Debug, Error)]
#[error("line {line}: {why}")]
pub struct DumpRefusal {
    /// The line's number.
    pub line: u32,
    /// What is wrong with it.
    pub why: DumpFault,
}

/// Why nothing is loaded.
#[derive(Clone, Copy, Debug, Error)]
pub enum DumpError {
    /// There is no memory left, which says nothing of the dump.
    #[error("line 0: E0: memory ran out")]
    NoMemory,
    /// The dump is refused.
    #[error("{0}")]
    Refused(DumpRefusal),
}

impl DumpError {
    /// The number n of En; 0 where there is no memory left.
    pub fn number(self) -> u8
        ensures number { result ≡ number_of self }
    {
        match self {
            DumpError::NoMemory => 0,
            DumpError::Refused(refusal) => refusal.why.number(),
        }
    }

    /// The line that is refused, from 1; 0 where there is no memory left.
    pub fn line(self) -> u32
        ensures line { result ≡ line_of self }
    {
        match self {
            DumpError::NoMemory => 0,
            DumpError::Refused(refusal) => refusal.line,
        }
    }
}

impl From<AllocError> for DumpError {
    ghost from_gives = { λ _ e. e ≡ errors.NoMemory };

    fn from(_e: AllocError) -> DumpError {
        DumpError::NoMemory
    }
}

// Why a line says nothing.
#[derive(Clone, Copy, Debug)]
pub(crate) enum LineError {
    NoMemory,
    Refused(DumpFault),
}

impl From<AllocError> for LineError {
    ghost from_gives = { λ _ e. e ≡ steps.NoMemory };

    fn from(_e: AllocError) -> LineError {
        LineError::NoMemory
    }
}

impl LineError {
    // With the line's number.
    pub(crate) fn at(self, line: u32) -> DumpError
        ensures { result ≡ at_line line self }
    {
        match self {
            LineError::NoMemory => DumpError::NoMemory,
            LineError::Refused(why) => DumpError::Refused(DumpRefusal { line, why }),
        }
    }
}
