// A state as text.

ghost use Rattle.std.specs.Prelude.{◌≡◌, ◌++◌, ◌<◌, slice_get, Some, IfOk, OnOk, decimal};
ghost use Rattle.std.specs.List.{flat_map};
ghost use Rattle.hex.specs.Hex.{encode_lower};
ghost use Rattle.insn.specs.Encoding.{program_bytes};
ghost use Rattle.verifier.specs.Accepted.{Checked, checked_in};
ghost use Rattle.loader.specs.Spelling.{mode_word};
ghost use Rattle.dumps.specs.Dumping.{dump};
ghost use Rattle.dumps.specs.Written.{program_line_text};

use crate::pieces::Dumping;
use insn::{Insn, encode};
use itoa::Buffer;
use loader::{Installed, StoreState};
use std::alloc::{AllocError, Global};
use verifier::{Accepted, Mode};

// How many bytes of a text are made at once. A line has room in them.
const PIECE_BYTES: usize = 40_960;

// Adds a number in decimal.
fn put_number(out: &mut Vec<u8>, n: u64) -> Result<(), AllocError>
    ensures { OnOk result (out.new.items ≡ out.old.items ++ decimal n) }
{
    let mut digits = Buffer::new();
    out.extend_from_slice(digits.format(n).as_bytes())
}

// Adds bytes in hexadecimal.
fn put_hex(alloc: Global, out: &mut Vec<u8>, bytes: &[u8]) -> Result<(), AllocError>
    ensures { OnOk result (out.new.items ≡ out.old.items ++ encode_lower bytes.now) }
{
    let digits = hex::encode(alloc, bytes)?;
    out.extend_from_slice(digits.as_bytes())
}

// The word of a mode.
fn mode_word(mode: Mode) -> &'static [u8]
    ensures { result.now ≡ mode_word mode }
{
    match mode {
        Mode::Update => b"update",
        Mode::Read => b"read",
    }
}

// Adds the bytes of a program in hexadecimal.
fn put_bytes(alloc: Global, out: &mut Vec<u8>, program: &[Insn]) -> Result<(), AllocError>
    ensures { OnOk result (out.new.items ≡ out.old.items ++ encode_lower (program_bytes program.now)) }
{
    let bytes = encode(alloc, program)?;
    put_hex(alloc, out, &bytes)
}

// Adds the line of a program.
fn put_program(alloc: Global, out: &mut Vec<u8>, program: &Accepted) -> Result<(), AllocError>
    ensures { OnOk result (out.new.items ≡ out.old.items ++ program_line_text (checked_in program.now)) }
{
    out.extend_from_slice(b"p ")?;
    out.extend_from_slice(mode_word(program.mode()))?;
    out.extend_from_slice(b" ")?;
    put_number(out, program.arg_len() as u64)?;
    out.extend_from_slice(b" ")?;
    put_bytes(alloc, out, program.program())?;
    out.extend_from_slice(b"\n")
}

// Adds the line of installed program `k`.
fn put_installed(
    alloc: Global,
    out: &mut Vec<u8>,
    programs: &Installed,
    k: usize,
) -> Result<(), AllocError>
    ensures { OnOk result ((p : Checked) → slice_get programs.now.programs k ≡ Some p
        → out.new.items ≡ out.old.items ++ program_line_text p) }
{
    match programs.program(k) {
        Some(program) => put_program(alloc, out, program),
        None => Ok(()),
    }
}

// Adds the lines of the programs that were installed.
pub(crate) fn put_programs(
    alloc: Global,
    out: &mut Vec<u8>,
    programs: &Installed,
) -> Result<(), AllocError>
    ensures { OnOk result (out.new.items ≡ out.old.items ++ flat_map program_line_text programs.now.programs) }
{
    for k in 0..programs.len() {
        put_installed(alloc, out, programs, k)?;
    }
    Ok(())
}

/// A state as text: what [`load`](crate::load) reads as that state.
///
/// A line `MAP KEYHEX VALUEHEX` for each entry that is there, in the order of the maps' numbers and then of the keys' bytes, without the zeros of arrays; and then a line
/// `p MODE ARGLEN HEX` for each program that was installed. Keys are sorted one map after another: that takes time of n times log n, and four bytes for each key of a map.
///
/// # Errors
///
/// The system has no memory left.
pub fn dump(alloc: Global, state: &StoreState) -> Result<Vec<u8>, AllocError>
    ensures dumped { IfOk result (λ text. text.items ≡ dump state.now) }
{
    let dumping = Dumping::new(alloc, state)?;
    let mut pieces = dumping.pieces();
    let mut text = Vec::new(alloc);
    let mut room = [0u8; PIECE_BYTES];
    loop {
        let count = pieces.read(&mut room);
        if count == 0 {
            return Ok(text);
        }
        text.extend_from_slice(&room[..count])?;
    }
}
