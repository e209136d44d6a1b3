// Why a text is no list of calls.

ghost use Rattle.std.specs.Prelude.{◌≡◌, ◌++◌, IfOk, OnOk, decimal};
ghost use Rattle.encoding.specs.Faults.{refusal_line, wanted_text};

use crate::kinds::Kind;
use itoa::Buffer;
use std::alloc::{AllocError, Global};
use std::{error, fmt};
use thiserror::Error;

/// What was to stand where a line is wrong.
#[derive(Clone, Copy, PartialEq, Eq, Debug)]
pub enum Wanted {
    /// The line's end.
    LineEnd,
    /// The name of a program.
    Name,
    /// A kind, and a colon.
    Kind,
    /// A value of this kind.
    Value(Kind),
    /// A value for which the argument has room.
    Room,
}

impl Wanted {
    /// What was to stand there, in words.
    pub fn text(self) -> &'static str
        ensures text { result.now ≡ wanted_text self }
    {
        match self {
            Wanted::LineEnd => "a line of at most 512 bytes",
            Wanted::Name => "a name: 1 to 32 of a-z, 0-9, _ and -, the first a letter",
            Wanted::Kind => "u8, u16, u32, u64, s8, s16, s32, s64, str or hex, and a colon",
            Wanted::Value(kind) => kind.text(),
            Wanted::Room => "an argument of at most 64 bytes",
        }
    }
}

impl fmt::Display for Wanted {
    fn fmt<W: fmt::Write>(&self, f: &mut fmt::Formatter<W>) -> fmt::Result {
        f.write_str(self.text())
    }
}

impl error::Error for Wanted {}

/// Where a line is wrong.
#[derive(Clone, Copy, PartialEq, Eq, Debug, Error)]
#[error("column {column}: wanted {wanted}")]
pub struct LineFault {
    /// The column, from 1, in bytes.
    pub column: usize,
    /// What was to stand there.
    pub wanted: Wanted,
}

/// The first place that is wrong.
#[derive(Clone, Copy, PartialEq, Eq, Debug, Error)]
#[error("line {line} {fault}")]
pub struct EncodeRefusal {
    /// The line, from 1. Lines past 2^32 - 1 have that number.
    pub line: u32,
    /// Where in the line, and what was to stand there.
    pub fault: LineFault,
}

// Adds a text, and a number in decimal.
fn put_numbered(out: &mut Vec<u8>, before: &[u8], n: u64) -> Result<(), AllocError>
    ensures { OnOk result (out.new.items ≡ out.old.items ++ (before.now ++ decimal n)) }
{
    let mut digits = Buffer::new();
    out.extend_from_slice(before)?;
    out.extend_from_slice(digits.format(n).as_bytes())
}

/// The line of a text of calls that is refused: `line N column C: wanted ..`.
///
/// # Errors
///
/// The system has no memory left.
pub fn refusal_line(alloc: Global, refusal: EncodeRefusal) -> Result<Vec<u8>, AllocError>
    ensures line { IfOk result (λ v. v.items ≡ refusal_line refusal) }
{
    let mut line = Vec::new(alloc);
    put_numbered(&mut line, b"line ", refusal.line as u64)?;
    put_numbered(&mut line, b" column ", refusal.fault.column as u64)?;
    line.extend_from_slice(b": wanted ")?;
    line.extend_from_slice(refusal.fault.wanted.text().as_bytes())?;
    line.extend_from_slice(b"\n")?;
    Ok(line)
}

/// Why a text is not encoded.
#[derive(Clone, Copy, PartialEq, Eq, Debug, Error)]
pub enum EncodeError {
    /// Memory ran out.
    #[error("memory ran out")]
    NoMemory,
    /// A line is wrong.
    #[error("{0}")]
    Refused(EncodeRefusal),
}

impl From<AllocError> for EncodeError {
    ghost use Rattle.encoding.specs.Faults.{no_memory};

    ghost from_gives = { λ _ e. e ≡ no_memory };

    fn from(_: AllocError) -> Self {
        EncodeError::NoMemory
    }
}
