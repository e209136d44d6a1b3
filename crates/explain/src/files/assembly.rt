// Where a line of assembler text is wrong, and what is wanted there.

ghost use Rattle.std.specs.Prelude.{◌≡◌, ◌+◌, ◌≤◌, length, take, IfOk};
ghost use Rattle.std.specs.List.{flat_map};
ghost use Rattle.std.specs.String.{string_bytes};
ghost use Rattle.asm.specs.Assembled.{assembled};
ghost use Rattle.explain.specs.Assembly.{below, line_in, shown, IsToldOfText, TellsFault};

use crate::sentences::Word::Text;
use crate::sentences::{put, put_all, put_numbers};
use asm::OperandKind::{Address, Bits, Long, Number, Register, Source, Target};
use asm::{AsmError, AsmFault, AsmRefusal, OperandKind, Place, assemble, place_of};
use itoa::Buffer;
use std::alloc::{AllocError, Global};
use text::NumberedLines;

// What is wanted where a jump leads to no label of the text, or too far.
const NO_LABEL: &str = "a label that stands in the text, with a colon, on a line of its own";

const TOO_FAR: &str = "a slot that is nearer: 32768 slots back to 32767 on (`ja32` goes farther)";

// What is wanted in the place of an operand that is wrong in this way.
fn wanted_operand(kind: OperandKind, why: AsmFault) -> &'static str {
    match (kind, why) {
        (_, AsmFault::UnknownLabel) => NO_LABEL,
        (_, AsmFault::JumpTooFar) => TOO_FAR,
        (Address, AsmFault::OutOfRange) => "an offset from -32768 to 32767",
        (Bits(false), _) => "a number of bits: 8 or 16",
        (Bits(true), _) => "a number of bits: 8, 16 or 32",
        (Long, AsmFault::OutOfRange) => "a number from -2^63 to 2^64 - 1",
        (_, AsmFault::OutOfRange) =>
            "a number from -2147483648 to 2147483647 (`lddw` takes 64 bits)",
        (Register, _) => "a register: `r0` to `r10`",
        (Source, _) =>
            "a register, `r0` to `r10`, or a number: decimal digits, or `0x` and hexadecimal ones, with `-` before them where it is negative",
        (Number | Long, _) =>
            "a number: decimal digits, or `0x` and hexadecimal ones, with `-` before them where it is negative",
        (Address, _) => "an address: `[rN+off]` or `[rN-off]`, also where off is 0",
        (Target, _) => "a label, or `+n` or `-n`: so many slots from the next instruction",
    }
}

// What is wrong with a text, if something is.
fn fault_in(alloc: Global, text: &str) -> Result<Option<AsmFault>, AllocError> {
    match assemble(alloc, text) {
        Ok(_) => Ok(None),
        Err(AsmError::NoMemory) => Err(AllocError),
        Err(AsmError::Refused(refusal)) => Ok(Some(refusal.why)),
    }
}

// What is wanted in place of a word that is unknown; `{0}` is the word.
fn wanted_word(alloc: Global, word: &str) -> Result<&'static str, AllocError> {
    let wide = format!(in alloc; "{word}64")?;
    if fault_in(alloc, wide.as_str())? != Some(AsmFault::UnknownWord) {
        return Ok("a word with a width: `{0}64`, or `{0}32` for the lower half");
    }
    let mut lower = String::new(alloc);
    for byte in word.as_bytes() {
        lower.push(char::from(byte.to_ascii_lowercase()))?;
    }
    Ok(if fault_in(alloc, lower.as_str())? != Some(AsmFault::UnknownWord) {
        "the word in lower case"
    } else {
        "the word of an instruction (docs/LANGUAGE.md has them), or a label and a colon; `;` begins a comment"
    })
}

// What is wanted where no operand is.
fn wanted_else(alloc: Global, word: &str, why: AsmFault) -> Result<&'static str, AllocError> {
    Ok(match why {
        AsmFault::UnknownWord => wanted_word(alloc, word)?,
        AsmFault::LabelTwice => "another name: a line above has this label too",
        AsmFault::TooLong => "the end of the text: a program has at most 4096 slots",
        AsmFault::TextBehind if word.contains(':') =>
            "the end of the line: an instruction stands on a line behind its label",
        AsmFault::TextBehind =>
            "the end of the line: one instruction stands there; `;` begins a comment",
        _ => "a comma, and one more operand",
    })
}

// The word of a line.
fn word_of(line: &str) -> &str {
    let begin = place_of(line, AsmFault::UnknownWord).at;
    let behind = line.as_bytes().iter().skip(begin);
    let own = behind.take_while(|byte| !matches!(**byte, b' ' | b'\t' | b'\r' | b',' | b';'));
    let end = begin.saturating_add(own.count());
    line.get(begin..end).unwrap_or("")
}

// What is wanted in a line that is wrong in this way, where this operand is wanted or none is.
fn wanted_in(
    alloc: Global,
    line: &str,
    why: AsmFault,
    operand: Option<OperandKind>,
) -> Result<String, AllocError> {
    let word = word_of(line);
    let what = match operand {
        Some(kind) => wanted_operand(kind, why),
        None => wanted_else(alloc, word, why)?,
    };
    let mut wanted = String::new(alloc);
    put(&mut wanted, what, &[Text(word)])?;
    Ok(wanted)
}

// The column of what stands behind so many bytes of a line.
fn column_of(line: &str, at: usize) -> usize
    requires { at ≤ length line.now }
    ensures { result ≡ at + 1 }
{
    at.min(line.len()) + 1
}

// What stands below a byte.
fn below(byte: u8) -> &'static str
    ensures { result.now ≡ below byte }
{
    match byte {
        b'\t' => "\t",
        0x80..=0xbf => "",
        _ => " ",
    }
}

// White space below so many bytes of a line, so that what follows stands below the next one.
fn space_below(alloc: Global, line: &str, at: usize) -> Result<String, AllocError>
    requires { at ≤ length line.now }
    ensures { IfOk result (λ s. string_bytes s ≡ flat_map below (take at line.now)) }
{
    let (bytes, _) = line.as_bytes().split_at(at);
    let mut out = String::new(alloc);
    for byte in bytes {
        out.push_str(below(*byte))?;
    }
    Ok(out)
}

// The line of this number; empty where none has it.
fn line_at(text: &str, wanted: u32) -> &str
    ensures { result.now ≡ line_in text.now wanted }
{
    let mut lines = NumberedLines::new(text);
    while let Some((number, line)) = lines.take_line() {
        if number == wanted {
            return line;
        }
    }
    ""
}

// A line without the carriage return at its end.
#[tactic(auto, using(crate::proofs::Assembly::shown_is))]
fn shown(line: &str) -> &str
    ensures { result.now ≡ shown line.now }
{
    match line.strip_suffix('\r') {
        Some(front) => front,
        None => line,
    }
}

// What is said of a refused text: the line and the rule, the column and what is wanted there, the line, and a mark below the column.
fn told(alloc: Global, text: &str, refusal: AsmRefusal) -> Result<String, AllocError>
    ensures { IfOk result (λ s. TellsFault refusal (line_in text.now refusal.line) (string_bytes s)) }
{
    let line = line_at(text, refusal.line);
    let Place { at, wanted } = place_of(line, refusal.why);
    let wanted = wanted_in(alloc, line, refusal.why, wanted)?;
    let space = space_below(alloc, line, at)?;
    let mut out = String::new(alloc);
    let number = u32::from(refusal.why.number());
    put_numbers(&mut out, "line ", refusal.line, ": A", number)?;
    let mut digits = Buffer::new();
    let column = digits.format(column_of(line, at));
    put_all(
        &mut out,
        &[",", " column ", column, ": wanted ", wanted.as_str()],
    )?;
    let pieces = ["\n    ", shown(line), "\n    ", space.as_str(), "^\n"];
    put_all(&mut out, &pieces)?;
    Ok(out)
}

/// Where an assembler text is wrong that is refused, and what is wanted there: the line and the rule, as `asm` names them, the column, the text
/// of the line, and a mark below the column. Nothing of a text that is a program.
///
/// # Errors
///
/// The system has no memory left.
pub fn explain_assembly(alloc: Global, text: &str) -> Result<String, AllocError>
    // The text says the line and the rule, the column of the place that is wrong, some words, the line, and has a mark below the column.
    ensures told { IfOk result (λ s. IsToldOfText text.now (assembled text.now) (string_bytes s)) }
{
    match assemble(alloc, text) {
        Ok(_) => Ok(String::new(alloc)),
        Err(AsmError::NoMemory) => Err(AllocError),
        Err(AsmError::Refused(refusal)) => told(alloc, text, refusal),
    }
}
