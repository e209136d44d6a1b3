// What can be wrong with a line.

use explain::Reason;
use insn::DecodeRefusal;
use loader::ProgramLine;

/// What is wrong with a line of a manifest.
#[derive(Drop)]
pub enum Cause {
    /// C1: the line is none of a manifest, or not where it may stand, or its file isn't there.
    BadLine,
    /// C2: the program's file is not pairs of hexadecimal digits.
    BadHex,
    /// D1 to D9: the bytes of the program's file are no program.
    Decode(DecodeRefusal),
    /// V1 to V18: the program is not accepted, with the reason in words.
    Refused(Reason),
    /// C5: there are too many maps or programs, or the maps are too large.
    TooMany,
}

/// A line of a manifest that is bad.
#[derive(Drop)]
pub struct Finding<'a> {
    /// The number of the line, from 1.
    pub line: u32,
    /// The program of the line, if it is that of a program.
    pub program: Option<ProgramLine<'a>>,
    /// What is wrong.
    pub cause: Cause,
}
