// What the commands write.

ghost use Rattle.std.specs.Prelude.{◌≡◌, ◌++◌, OnOk, IfOk, codes, decimal, slice_get};
ghost use Rattle.engine.specs.Texts.{program_line, line_if_any, programs_text, decode_text, verify_text, index_text, refusal_text, no_memory_line};
ghost use Rattle.engine.specs.Answer as answers;
ghost use Rattle.verifier.specs.Accepted.{checked_in};

use insn::DecodeRefusal;
use itoa::Buffer;
use loader::{Catalogue, LoadFault, LoadRefusal};
use std::alloc::{AllocError, Global};
use verifier::{Accepted, Refused};

/// Some file is not UTF-8.
pub fn not_text() -> &'static [u8]
    ensures { result.now ≡ answers.not_text.text }
{
    b"not UTF-8\n"
}

/// Memory ran out.
pub fn no_memory() -> &'static [u8]
    ensures { result.now ≡ no_memory_line }
{
    b"no memory\n"
}

/// Adds a number in decimal.
pub fn put_number(out: &mut Vec<u8>, n: u64) -> Result<(), AllocError>
    ensures { OnOk result (out.new.items ≡ out.old.items ++ decimal n) }
{
    let mut digits = Buffer::new();
    out.extend_from_slice(digits.format(n).as_bytes())
}

/// Adds a text, and a number in decimal.
pub fn put_numbered(out: &mut Vec<u8>, before: &[u8], n: u64) -> Result<(), AllocError>
    ensures { OnOk result (out.new.items ≡ out.old.items ++ (before.now ++ decimal n)) }
{
    out.extend_from_slice(before)?;
    put_number(out, n)
}

/// Two numbers in a line.
pub fn put_pair(
    out: &mut Vec<u8>,
    before: &[u8],
    first: u64,
    between: &[u8],
    second: u64,
) -> Result<(), AllocError>
    ensures { OnOk result (out.new.items ≡ out.old.items ++ (before.now ++ (decimal first ++ (between.now ++ (decimal second ++ codes "\n"))))) }
{
    put_numbered(out, before, first)?;
    put_numbered(out, between, second)?;
    out.extend_from_slice(b"\n")
}

// A program's line.
fn put_program(out: &mut Vec<u8>, name: &str, program: &Accepted) -> Result<(), AllocError>
    ensures { OnOk result (out.new.items ≡ out.old.items ++ program_line (record { name = name.now; checked = checked_in program.now })) }
{
    out.extend_from_slice(name.as_bytes())?;
    put_numbered(out, b" ok ", program.slots() as u64)?;
    put_numbered(out, b" ", program.instructions() as u64)?;
    out.extend_from_slice(b"\n")
}

// The line of program k.
pub(crate) fn put_program_of(
    out: &mut Vec<u8>,
    catalogue: &Catalogue,
    k: u16,
) -> Result<(), AllocError>
    ensures { OnOk result (out.new.items ≡ out.old.items ++ line_if_any (slice_get catalogue.now.programs k)) }
{
    match (catalogue.name(k), catalogue.program(k)) {
        (Some(name), Some(program)) => put_program(out, name, program),
        _ => Ok(()),
    }
}

/// A line for each program: its name, its slots and its instructions.
pub fn programs_text(alloc: Global, catalogue: &Catalogue) -> Result<Vec<u8>, AllocError>
    ensures { IfOk result (λ v. v.items ≡ programs_text catalogue.now.programs) }
{
    let mut out = Vec::new(alloc);
    for k in 0..catalogue.len() {
        put_program_of(&mut out, catalogue, k as u16)?;
    }
    Ok(out)
}

/// What is wrong with a program's bytes, and where.
pub fn put_decode(out: &mut Vec<u8>, refusal: DecodeRefusal) -> Result<(), AllocError>
    ensures { OnOk result (out.new.items ≡ out.old.items ++ decode_text refusal) }
{
    put_numbered(out, b" D", refusal.why.number() as u64)?;
    put_numbered(out, b" slot ", refusal.slot as u64)
}

/// Adds which rule a program breaks, and where.
pub fn put_verify(out: &mut Vec<u8>, refusal: Refused) -> Result<(), AllocError>
    ensures { OnOk result (out.new.items ≡ out.old.items ++ verify_text refusal) }
{
    put_numbered(out, b" V", refusal.why.number() as u64)?;
    put_numbered(out, b" slot ", refusal.slot as u64)
}

// What a program breaks that a manifest names, and where.
fn put_index(out: &mut Vec<u8>, why: LoadFault) -> Result<(), AllocError>
    ensures { OnOk result (out.new.items ≡ out.old.items ++ index_text why) }
{
    match why {
        LoadFault::Decode(refusal) => put_decode(out, refusal),
        LoadFault::Verify(refusal) => put_verify(out, refusal),
        _ => Ok(()),
    }
}

// The beginning of a line that tells what is wrong in a text: in which of its lines.
pub(crate) fn begin_refusal(alloc: Global, line: u32) -> Result<Vec<u8>, AllocError>
    ensures { IfOk result (λ v. v.items ≡ codes "line " ++ (decimal line ++ codes ": ")) }
{
    let mut out = Vec::new(alloc);
    put_numbered(&mut out, b"line ", line as u64)?;
    out.extend_from_slice(b": ")?;
    Ok(out)
}

// The line of a refused manifest.
pub(crate) fn refusal_text(alloc: Global, refusal: LoadRefusal) -> Result<Vec<u8>, AllocError>
    ensures { IfOk result (λ v. v.items ≡ refusal_text refusal) }
{
    let mut out = begin_refusal(alloc, refusal.line)?;
    put_numbered(&mut out, b"C", refusal.why.number() as u64)?;
    put_index(&mut out, refusal.why)?;
    out.extend_from_slice(b"\n")?;
    Ok(out)
}
