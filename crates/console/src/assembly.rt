// The commands of one text: `asm`, `dis` and `encode`.

ghost use Rattle.std.specs.Prelude.{◌≡◌, ◌≤◌, ◌++◌, IfOk, OnOk};
ghost use Rattle.insn.specs.declared.instruction.TheConstants.{MAX_SLOTS};
ghost use Rattle.insn.specs.Layout.{size};
ghost use Rattle.console.specs.AssemblyAnswer.{AsmTells, TellsOfText, asm_parted, calls_answer, dis_answer, encode_parted, hex_text, program_answer, slot_column, slot_line, slots_text};
ghost use Rattle.engine.specs.Notes.{IsQuiet};
ghost use Rattle.engine.specs.Parted.{parted_of};
ghost use Rattle.engine.specs.Report.{answer_of};

use asm::AsmError;
use encoding::{EncodeError, refusal_line};
use engine::texts::put_pair;
use engine::{Command, Gathered, Notes, Parted, Reply, Telling, Verdict, not_text};
use explain::explain_assembly;
use insn::{DecodeError, Insn, decode};
use itoa::Buffer;
use std::alloc::{AllocError, Global};
use text::spaced_hex;

/// Assembles a text.
///
/// Answers with the program's bytes in hexadecimal digits with lower-case letters, in one line, or with the one line of
/// the first refusal, `line N: A4`. Where reasons are to be told, it tells of a text that is refused where it is wrong
/// and what is wanted there.
#[derive(Clone, Copy)]
pub struct Assemble {
    /// Whether the line of a program goes elsewhere. A refusal is written even so.
    pub is_elsewhere: bool,
}

/// Disassembles a program file, in which spaces, tabs, carriage returns and line feeds are skipped.
///
/// Answers with the program's canonical text, an instruction a line, or with one line that says why there is no
/// program, `bad hex` or `D8 slot 0`.
#[derive(Clone, Copy)]
pub struct Disassemble {
    /// Whether two columns stand before each line: the instruction's slot and its bytes.
    pub has_slots: bool,
}

/// Encodes calls whose arguments are names of kinds and values.
///
/// Answers with the script that says the same calls, line by line, or with one line that has the first place that is
/// wrong, `line 3 column 9: wanted a number from 0 to 255`. That line goes elsewhere, so that no script holds it; that a
/// text is not UTF-8 is written.
#[derive(Clone, Copy)]
pub struct Encode;

// A program's bytes in hexadecimal digits.
fn hex_text(alloc: Global, program: &[Insn]) -> Result<Vec<u8>, AllocError>
    ensures { IfOk result (λ v. v.items ≡ hex_text program.now) }
{
    let bytes = insn::encode(alloc, program)?;
    Ok(hex::encode(alloc, bytes.as_slice())?.into_bytes())
}

// Tells what is wanted in a text that is refused, where that is to be told; of a program nothing.
fn tell_wanted(alloc: Global, source: &str, notes: &mut Notes) -> Result<(), AllocError>
    ensures told { OnOk result (TellsOfText source.now notes.old notes.new) }
    ensures quiet { IsQuiet notes.old notes.new }
{
    if let Telling::Reasons = notes.telling {
        notes.text = explain_assembly(alloc, source)?.into_bytes();
    }
    Ok(())
}

// What is answered to an assembler text.
fn assembled(alloc: Global, source: &str) -> Result<Reply, AllocError>
    ensures { IfOk result (λ r. answer_of r ≡ program_answer source.now) }
{
    match asm::assemble(alloc, source) {
        Ok(program) => {
            let mut line = hex_text(alloc, &program)?;
            line.extend_from_slice(b"\n")?;
            Ok(Reply::good(line))
        }
        Err(AsmError::NoMemory) => Err(AllocError),
        Err(AsmError::Refused(refusal)) => {
            let mut line = Vec::new(alloc);
            let why = refusal.why.number() as u64;
            put_pair(&mut line, b"line ", refusal.line as u64, b": A", why)?;
            Ok(Reply::refused(line))
        }
    }
}

impl Command for Assemble {
    type Made = Parted;

    ghost may_make = { λ c t p. parted_of p ≡ asm_parted c.is_elsewhere t };

    ghost may_tell = { λ _ t old new. AsmTells t old new };

    fn make(&self, alloc: Global, read: Gathered, notes: &mut Notes) -> Result<Parted, AllocError> {
        let Ok(texts) = read else {
            return Ok(Parted::whole(not_text(alloc)?));
        };
        let source = texts.file.as_str();
        tell_wanted(alloc, source, notes)?;
        let reply = assembled(alloc, source)?;
        Ok(match reply.verdict {
            Verdict::Good if self.is_elsewhere => Parted::apart(alloc, reply),
            _ => Parted::whole(reply),
        })
    }
}

// Adds a number at the right of four columns, and two spaces.
fn put_slot(out: &mut Vec<u8>, slot: u64) -> Result<(), AllocError>
    ensures { OnOk result (out.new.items ≡ out.old.items ++ slot_column slot) }
{
    let mut digits = Buffer::new();
    let digits = digits.format(slot).as_bytes();
    out.extend_from_slice(&b"    "[digits.len().min(4)..])?;
    out.extend_from_slice(digits)?;
    out.extend_from_slice(b"  ")
}

// Adds the line of an instruction at a slot, behind its columns.
fn put_slot_line(out: &mut Vec<u8>, slot: u64, insn: &Insn) -> Result<(), AllocError>
    ensures { OnOk result (out.new.items ≡ out.old.items ++ slot_line slot insn.now) }
{
    let alloc = *out.allocator();
    let bytes = hex_text(alloc, &[*insn])?;
    let line = asm::disassemble(alloc, &[*insn])?;
    put_slot(out, slot)?;
    out.extend_from_slice(&bytes)?;
    out.extend_from_slice(b"  ")?;
    out.extend_from_slice(line.as_str().as_bytes())
}

// A program's lines behind their columns.
fn slots_text(alloc: Global, program: &[Insn]) -> Result<Vec<u8>, AllocError>
    requires { size program.now ≤ MAX_SLOTS }
    ensures { IfOk result (λ v. v.items ≡ slots_text 0 program.now) }
{
    let mut out = Vec::new(alloc);
    let mut slot = 0u64;
    for insn in program {
        put_slot_line(&mut out, slot, insn)?;
        slot += insn.slot_count() as u64;
    }
    Ok(out)
}

impl Command for Disassemble {
    type Made = Reply;

    ghost may_make = { λ c t r. answer_of r ≡ dis_answer c.has_slots t };

    fn make(&self, alloc: Global, read: Gathered, _notes: &mut Notes) -> Result<Reply, AllocError> {
        let Ok(texts) = read else {
            return not_text(alloc);
        };
        let Some(bytes) = spaced_hex(alloc, texts.file.as_str())? else {
            return Ok(Reply::refused(Vec::from_slice(alloc, b"bad hex\n")?));
        };
        match decode(alloc, &bytes) {
            Ok(program) if self.has_slots => Ok(Reply::good(slots_text(alloc, &program)?)),
            Ok(program) => Ok(Reply::good(asm::disassemble(alloc, &program)?.into_bytes())),
            Err(DecodeError::NoMemory) => Err(AllocError),
            Err(DecodeError::Refused(refusal)) => {
                let mut line = Vec::new(alloc);
                let why = refusal.why.number() as u64;
                put_pair(&mut line, b"D", why, b" slot ", refusal.slot as u64)?;
                Ok(Reply::refused(line))
            }
        }
    }
}

// What is answered to a text of calls.
fn encoded(alloc: Global, calls: &str) -> Result<Reply, AllocError>
    ensures { IfOk result (λ r. answer_of r ≡ calls_answer calls.now) }
{
    match encoding::encode(alloc, calls) {
        Ok(script) => Ok(Reply::good(script.into_bytes())),
        Err(EncodeError::NoMemory) => Err(AllocError),
        Err(EncodeError::Refused(refusal)) => { Ok(Reply::refused(refusal_line(alloc, refusal)?)) }
    }
}

impl Command for Encode {
    type Made = Parted;

    ghost may_make = { λ _ t p. parted_of p ≡ encode_parted t };

    fn make(
        &self,
        alloc: Global,
        read: Gathered,
        _notes: &mut Notes,
    ) -> Result<Parted, AllocError> {
        let Ok(texts) = read else {
            return Ok(Parted::whole(not_text(alloc)?));
        };
        let reply = encoded(alloc, texts.file.as_str())?;
        Ok(match reply.verdict {
            Verdict::Good => Parted::whole(reply),
            _ => Parted::apart(alloc, reply),
        })
    }
}
