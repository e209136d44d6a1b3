// Programs out of the files that a manifest names.

ghost use Rattle.std.specs.Prelude.{◌≡◌, ◌≤◌, length, option_map};
ghost use Rattle.text.specs.declared.words.TheConstants.{NAME_BYTES};
ghost use Rattle.maps.specs.Shapes.{AreShapesSupported};
ghost use Rattle.maps.specs.declared.shapes.TheConstants.{MOST_ARG_LEN};
ghost use Rattle.verifier.specs.Accepted.{checked_in};
ghost use Rattle.loader.specs.ProgramFiles.{files_of, file_named, bytes_of_hex, instructions_of, checked_program, or_bad_line, entry_for};
ghost use Rattle.loader.specs.LineShown.{program_of};
ghost use Rattle.loader.specs.Refusal.{Gives};

use crate::catalogue::NamedProgram;
use crate::grammar::ProgramLine;
use crate::refusals::{LineError, LoadFault};
use arrayvec::ArrayString;
use insn::{DecodeError, Insn, decode};
use maps::Shape;
use std::alloc::Global;
use text::spaced_hex;
use verifier::{Accepted, Mode, VerifyError, verify};

// The text of the first file of this name.
fn file_named<'a>(files: &[(&str, &'a str)], name: &str) -> Option<&'a str>
    ensures { option_map (λ t. t.now) result ≡ file_named (files_of files.now) name.now }
{
    for file in files {
        if file.0 == name {
            return Some(file.1);
        }
    }
    None
}

// The bytes of a text of hex digits.
#[tactic(auto, unfolding(crate::specs::ProgramFiles::bytes_of_hex))]
fn bytes_of_hex(alloc: Global, text: &str) -> Result<Vec<u8>, LineError>
    ensures { Gives (λ v. v.items) result (bytes_of_hex text.now) }
{
    match spaced_hex(alloc, text)? {
        Some(bytes) => Ok(bytes),
        None => Err(LineError::Refused(LoadFault::BadHex)),
    }
}

// The program that bytes spell.
#[tactic(auto, unfolding(crate::specs::ProgramFiles::instructions_of))]
fn instructions(alloc: Global, bytes: &[u8]) -> Result<Vec<Insn>, LineError>
    ensures { Gives (λ v. v.items) result (instructions_of bytes.now) }
{
    match decode(alloc, bytes) {
        Ok(program) => Ok(program),
        Err(DecodeError::NoMemory) => Err(LineError::NoMemory),
        Err(DecodeError::Refused(e)) => Err(LineError::Refused(LoadFault::Decode(e))),
    }
}

// The program that a text spells, accepted for these maps, this argument length and this mode.
#[tactic(auto, unfolding(crate::specs::ProgramFiles::checked_program))]
fn checked_program(
    alloc: Global,
    shapes: &[Shape],
    arg_len: u16,
    mode: Mode,
    text: &str,
) -> Result<Accepted, LineError>
    requires shapes { AreShapesSupported shapes.now }
    requires argument { arg_len ≤ MOST_ARG_LEN }
    ensures { Gives checked_in result (checked_program shapes.now arg_len mode text.now) }
{
    let bytes = bytes_of_hex(alloc, text)?;
    let program = instructions(alloc, &bytes)?;
    match verify(alloc, program, shapes, arg_len as usize, mode) {
        Ok(accepted) => Ok(accepted),
        Err(VerifyError::NoMemory) => Err(LineError::NoMemory),
        Err(VerifyError::Refused(e)) => Err(LineError::Refused(LoadFault::Verify(e))),
    }
}

// The text of a line's file, which must have been handed in.
fn text_of<'a>(files: &[(&str, &'a str)], name: &str) -> Result<&'a str, LineError>
    ensures { Gives (λ t. t.now) result (or_bad_line (file_named (files_of files.now) name.now)) }
{
    match file_named(files, name) {
        Some(text) => Ok(text),
        None => Err(LineError::Refused(LoadFault::BadLine)),
    }
}

// The program of a line, under its name.
#[tactic(auto, unfolding(crate::specs::ProgramFiles::entry_for))]
pub(crate) fn named_program(
    alloc: Global,
    files: &[(&str, &str)],
    shapes: &[Shape],
    line: ProgramLine,
) -> Result<NamedProgram, LineError>
    requires shapes { AreShapesSupported shapes.now }
    requires argument { line.arg_len ≤ MOST_ARG_LEN }
    requires name { length line.name.now ≤ NAME_BYTES }
    ensures { Gives (λ p. p) result (entry_for (files_of files.now) shapes.now (program_of line.entry)) }
{
    let text = text_of(files, line.file)?;
    let program = checked_program(alloc, shapes, line.arg_len, line.mode, text)?;
    match ArrayString::from(line.name) {
        Ok(name) => Ok(NamedProgram::new(name, program)),
        Err(_) => Err(LineError::Refused(LoadFault::BadLine)),
    }
}
