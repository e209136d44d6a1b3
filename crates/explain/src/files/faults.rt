// What is wrong with the lines of a manifest and with the files that these name, in words.

ghost use Rattle.std.specs.Prelude.{◌≡◌, ◌++◌, codes, IfOk, OnOk};
ghost use Rattle.std.specs.String.{string_bytes};
ghost use Rattle.explain.specs.Told.{Adds, BeginsWith};
ghost use Rattle.explain.specs.Manifest.{refused_by, slot_fault, stranger_text};

use crate::files::decoded;
use crate::sentences::Word::{Character, Count, Field, Hex, Number, Small, Text};
use crate::sentences::{Advice, Written, put_all, put_numbers, say};
use asm::{AsmError, AsmFault, assemble};
use insn::{DecodeFault, DecodeRefusal, MAX_INSTALLED_SLOTS};
use loader::{Line, read_line};
use maps::{MapLimits, Shape, ShapeFault, shapes_within};
use std::alloc::{AllocError, Global};
use std::str;
use text::{LINE_BYTES, is_name, number, number_within};

// What stands before what to do.
const TO_DO: &str = " To do: ";

// What an object file (ELF) begins with, and what is told of one.
const ELF: &[u8] = b"\x7fELF";

const OBJECT_FILE: &str =
    "The file is an object file (ELF).|take the bytes of the program's section out (`llvm-objcopy -O binary -j .text`), and write them as hexadecimal digits (`xxd -p`); c/c2hex does both.";

// What is told of a line that has more or fewer fields than it should, and of one that begins otherwise.
const OTHER_FIELDS: &str = "The line has more or fewer fields than `{0}`.";

// What is told where `--large` allows what these limits don't.
const LARGE: &str = "|`--large` allows it.";

const OTHER_WORD: &str = "A line begins with `map`, `program` or `#`, and not with `{0}`.";

// Adds what is wrong with a line, behind its number and that of the rule.
pub(crate) fn put_fault(out: &mut String, line: u32, number: u8, told: Advice<'_>) -> Written
    ensures { OnOk result (Adds (BeginsWith (refused_by line number ++ codes "\n")) (string_bytes out.old) (string_bytes out.new)) }
{
    let alloc = *out.allocator();
    let told = told.text(alloc, TO_DO)?;
    put_numbers(out, "\nline ", line, ": C", u32::from(number))?;
    put_all(out, &["\n", "      ", told.as_str()])
}

// Why the bytes of a program's file are no program.
pub(crate) fn refused_bytes(
    alloc: Global,
    bytes: &[u8],
    refusal: DecodeRefusal,
) -> Result<String, AllocError>
    ensures { IfOk result (λ s. BeginsWith (slot_fault refusal) (string_bytes s)) }
{
    let told = why_no_program(bytes, refusal).text(alloc, TO_DO)?;
    let mut out = String::new(alloc);
    let number = u32::from(refusal.why.number());
    put_numbers(&mut out, "D", number, " at slot ", refusal.slot)?;
    put_all(&mut out, &[".", "\n      ", told.as_str()])?;
    Ok(out)
}

// ---- lines

// What is wrong with a number of a line, if something is; its name and its limits are these.
fn wrong_number<'a>(name: &'a str, low: u64, high: u64, text: &'a str) -> Option<Advice<'a>> {
    let what = match (number_within(low, high, text), number(text)) {
        (Some(_), _) => return None,
        (None, Some(_)) => "{0} is {1}, and goes from {2} to {3}.",
        (None, None) =>
            "{0} is no number: `{1}`. Numbers are decimal, without sign and leading zeros, and below 2^64.",
    };
    Some(say(what, &[Text(name), Text(text), Field(low), Field(high)]))
}

// What is wrong with the sizes of a map: a value and entries, behind a key or not.
fn wrong_sizes<'a>(
    limits: &MapLimits,
    key: Option<&'a str>,
    value: &'a str,
    entries: &'a str,
) -> Option<Advice<'a>> {
    let of_key = key.and_then(|text| wrong_number("KEY", 1, u64::from(limits.key), text));
    let of_value = wrong_number("VALUE", 1, u64::from(limits.value), value);
    of_key.or(of_value).or(wrong_number("ENTRIES", 1, u64::from(limits.entries), entries))
}

// The first blank of a line that may not stand there, with its column.
fn wrong_blank(line: &str) -> Option<(&'static str, usize)> {
    let mut is_behind_space = false;
    for (at, byte) in line.as_bytes().iter().enumerate() {
        let column = at.saturating_add(1);
        match byte {
            b'\r' => return Some(("a carriage return", column)),
            b'\t' => return Some(("a tab", column)),
            b' ' if is_behind_space => return Some(("a second space", column)),
            _ => is_behind_space = *byte == b' ',
        }
    }
    is_behind_space.then_some(("a space at the end", line.len()))
}

// What is wrong with the fields of a program.
fn wrong_program<'a>(
    limits: &MapLimits,
    name: &'a str,
    mode: &'a str,
    length: &'a str,
) -> Option<Advice<'a>> {
    if !is_name(name) {
        let what = "`{0}` is no name: 1 to 32 of a-z, 0-9, _ and -, the first a letter.";
        return Some(say(what, &[Text(name)]));
    }
    if mode != "update" && mode != "read" {
        return Some(say("`{0}` is no mode: `update` or `read`.", &[Text(mode)]));
    }
    let of_length = wrong_number("ARGLEN", 0, u64::from(limits.argument), length);
    of_length.or(Some(say("FILE is 1 to 255 printable characters of ASCII.", &[])))
}

// What is wrong with the words of a line.
fn wrong_words<'a>(limits: &MapLimits, words: &[&'a str]) -> Option<Advice<'a>> {
    let (text, word) = match words {
        ["map", "array", v, n] => return wrong_sizes(limits, None, v, n),
        ["map", "hash", k, v, n] => return wrong_sizes(limits, Some(*k), v, n),
        ["map", "hash", ..] => (OTHER_FIELDS, "map hash KEY VALUE ENTRIES"),
        ["map", "array", ..] | ["map"] => (OTHER_FIELDS, "map array VALUE ENTRIES"),
        ["map", word, ..] => ("A map is an `array` or a `hash`, and no `{0}`.", *word),
        ["program", name, mode, length, _] => return wrong_program(limits, name, mode, length),
        ["program", ..] => (OTHER_FIELDS, "program NAME MODE ARGLEN FILE"),
        [word, ..] => (OTHER_WORD, *word),
        [] => return None,
    };
    Some(say(text, &[Text(word)]))
}

// The most bytes of an argument that `--large` allows: as many as a line has room for.
const LINE_ARG_LEN: usize = 8 * MAX_INSTALLED_SLOTS;

// Whether a line is that of a map or of a program by the limits that `--large` sets.
fn is_large(line: &str) -> bool {
    let large = MapLimits {
        argument: LINE_ARG_LEN as u32,
        ..MapLimits::widest()
    };
    matches!(
        read_line(&large, line),
        Some(Line::Map(_) | Line::Program(_))
    )
}

// What is wrong with a line that is bad by itself, by these limits.
pub(crate) fn wrong_line<'a>(
    alloc: Global,
    limits: &MapLimits,
    line: &'a str,
) -> Result<Advice<'a>, AllocError> {
    if line.len() > LINE_BYTES {
        let what = "The line has {0} bytes, of at most {1}. Break a comment into several lines.";
        return Ok(say(what, &[Count(line.len()), Count(LINE_BYTES)]));
    }
    if let Some((what, column)) = wrong_blank(line) {
        let text =
            "There is {0} in column {1}: fields are separated by one space, and nothing follows the last.";
        return Ok(say(text, &[Text(what), Count(column)]));
    }
    let words: Vec<&str> = line.split(' ').collect(alloc)?;
    let told = wrong_words(limits, &words).unwrap_or(say("", &[]));
    Ok(if is_large(line) {
        told.and(LARGE)
    } else {
        told
    })
}

// Why there are too many maps, or too large ones, by these limits.
pub(crate) fn too_many<'a>(limits: &MapLimits, why: ShapeFault, shapes: &[Shape]) -> Advice<'a> {
    let mut bytes = 0u64;
    for shape in shapes {
        let each = match *shape {
            Shape::Array { value, .. } => u64::from(value),
            Shape::Hash { key, value, .. } => u64::from(key).saturating_add(u64::from(value)),
        };
        bytes = bytes.saturating_add(each.saturating_mul(shape.entry_count() as u64));
    }
    let text = match why {
        ShapeFault::TooManyBytes if shapes_within(&MapLimits::widest(), shapes).is_ok() =>
            "The maps with this one take {1} bytes, of at most {2}.|make them smaller; `--large` allows them.",
        ShapeFault::TooManyBytes =>
            "The maps with this one take {1} bytes, of at most {2}.|make them smaller.",
        _ => "This is map {0}, of at most 16.|leave one out.",
    };
    say(
        text,
        &[Count(shapes.len()), Field(bytes), Field(limits.bytes)],
    )
}

// ---- files

// The line and the column of a byte, and that byte.
fn place_of(bytes: &[u8], at: usize) -> (usize, usize, u8) {
    let (mut line, mut column) = (1usize, 1usize);
    for byte in bytes.iter().take(at) {
        column = column.saturating_add(1);
        if *byte == b'\n' {
            line = line.saturating_add(1);
            column = 1;
        }
    }
    (line, column, bytes.get(at).copied().unwrap_or(0))
}

/// What a file is that isn't UTF-8, and what to do about it: a part of an explanation. The name is that of the file, or of what it is.
///
/// # Errors
///
/// The system has no memory left.
pub fn explain_stranger(alloc: Global, name: &str, bytes: &[u8]) -> Result<String, AllocError>
    // The text says first what goes by this name, and that it is not UTF-8.
    ensures named { IfOk result (λ s. BeginsWith (stranger_text name.now) (string_bytes s)) }
{
    let instructions = decoded(alloc, bytes)?.map(|program| program.len());
    let what = match instructions {
        _ if bytes.starts_with(ELF) => OBJECT_FILE,
        _ if bytes.starts_with(b"\xff\xfe") || bytes.starts_with(b"\xfe\xff") =>
            "The file is text of two bytes a character (UTF-16).|save it as UTF-8, or as ASCII.",
        Some(_) =>
            "The file has the bytes of a program of {0} instructions.|write them as hexadecimal digits (`xxd -p FILE`).",
        None =>
            "Line {1} of the file has the byte {3} in column {2}, which is none of UTF-8.|write plain ASCII.",
    };
    // The first byte that is none of UTF-8.
    let error = str::from_utf8(bytes).err();
    let at = error.map_or(bytes.len(), |error| error.valid_up_to());
    let (line, column, byte) = place_of(bytes, at);
    let count = Count(instructions.unwrap_or(0));
    let told = say(what, &[count, Count(line), Count(column), Hex(byte)]).text(alloc, TO_DO)?;
    let mut out = String::new(alloc);
    let pieces = ["\n", name, ": not UTF-8\n", "      ", told.as_str()];
    put_all(&mut out, &pieces)?;
    Ok(out)
}

// Whether a byte is a hexadecimal digit or a blank.
fn is_of_digits(byte: u8) -> bool {
    byte.is_ascii_hexdigit() || matches!(byte, b' ' | b'\t' | b'\r' | b'\n')
}

// Whether a text begins as assembler text does.
fn is_assembler_text(alloc: Global, text: &str) -> bool {
    match assemble(alloc, text) {
        Ok(_) => true,
        Err(AsmError::Refused(refusal)) => refusal.line > 1 || refusal.why != AsmFault::UnknownWord,
        Err(AsmError::NoMemory) => false,
    }
}

// Why a text is no pairs of hexadecimal digits.
pub(crate) fn bad_hex(alloc: Global, text: &str) -> Result<String, AllocError> {
    let bytes = text.as_bytes();
    // The first character that is none of a program file.
    let stranger = bytes.iter().position(|byte| !is_of_digits(*byte));
    let at = stranger.unwrap_or(bytes.len());
    let what = match bytes.get(at) {
        _ if bytes.starts_with(ELF) => OBJECT_FILE,
        _ if is_assembler_text(alloc, text) =>
            "The file is assembler text.|`nrbpf asm -o OUT FILE`, and name OUT in the manifest.",
        Some(byte) if byte.is_ascii_graphic() =>
            "Line {0} of the file has `{2}` in column {1}.|write each byte as two hexadecimal digits, and no comments.",
        Some(_) =>
            "Line {0} of the file has the byte {3} in column {1}.|write each byte as two hexadecimal digits (`xxd -p` does).",
        None => "The file has an odd number of hexadecimal digits.|write each byte as two.",
    };
    let (line, column, byte) = place_of(bytes, at);
    let words = [Count(line), Count(column), Character(byte), Small(byte)];
    say(what, &words).text(alloc, TO_DO)
}

// The eight bytes of a slot; zeros behind the end.
fn bytes_at(bytes: &[u8], slot: u32) -> [u8; 8] {
    let mut found = [0u8; 8];
    let begin = (slot as usize).saturating_mul(8);
    for (byte, from) in found.iter_mut().zip(bytes.iter().skip(begin)) {
        *byte = *from;
    }
    found
}

// What is wrong with an opcode.
fn of_opcode(opcode: u8) -> &'static str {
    match opcode {
        0xdb | 0xc3 =>
            "The opcode {0} is none of the profile: it is an atomic operation.|use a load, an addition and a store (in C `+=`); one update runs alone.",
        0x8d =>
            "The opcode {0} is none of the profile: it is a call through a register.|call helpers by their numbers; in C put `static inline` before functions.",
        0x20 | 0x28 | 0x30 | 0x38 | 0x40 | 0x48 | 0x50 | 0x58 =>
            "The opcode {0} is none of the profile: it is a packet access.|read the argument.",
        _ =>
            "The opcode {0} is none of the profile.|docs/LANGUAGE.md has the table of opcodes; look for a lost or an added byte above.",
    }
}

// What is wrong with the value of a field.
fn of_value(opcode: u8, src: u8) -> &'static str {
    match (opcode, src) {
        (0x85, 1) =>
            "The call is of another function of the file.|in C `static __attribute__((always_inline))`; `__builtin_memcpy` of a constant length.",
        (0x85, 2) =>
            "The call is of a function of the kernel.|helpers 1, 2 and 3 are all there are.",
        (0x18, _) =>
            "Opcode 18 has src {2}: a reference that another loader would resolve.|`NRBPF_MAP(n)` in C, `ldmap` in assembler text (src 5).",
        (0xd4 | 0xdc | 0xd7, _) => "The swap has {4} bits.|16, 32 or 64.",
        _ => "The offset is {3}.|DIV and MOD take 0 or 1, a move 0, 8, 16 or, at 64 bits, 32.",
    }
}

// Why bytes are no program, by the opcode and the registers of the slot that is refused.
fn of_fault(why: DecodeFault, opcode: u8, registers: u8) -> &'static str {
    match why {
        DecodeFault::NotWholeSlots =>
            "The file has {6} bytes, and slots have 8: {7} are over.|look for a lost byte or a cut line.",
        DecodeFault::Empty => "The file has no digits.|a program has one instruction at least.",
        DecodeFault::TooLong =>
            "The program has {8} slots, of at most 4096.|split the operation into several.",
        DecodeFault::UnknownOpcode => of_opcode(opcode),
        DecodeFault::RegisterAbove10 =>
            "The byte {5} names dst {1} and src {2}.|registers are 0 to 10.",
        DecodeFault::UndefinedValue => of_value(opcode, registers >> 4),
        DecodeFault::UnusedFieldSet =>
            "A field that opcode {0} doesn't use is not zero: dst {1}, src {2}, offset {3}, imm {4}.|clear it.",
        DecodeFault::CutOff =>
            "The file ends within opcode 18, which takes two slots.|look for lines that were cut off.",
        _ =>
            "The slot behind opcode 18 is its second half: all but next_imm is zero there, and that too where a map is named.|clear it, or add the second half, if it was lost.",
    }
}

// Says why bytes are no program: the text of `of_fault`, with the words for its gaps.
fn why_no_program(bytes: &[u8], refusal: DecodeRefusal) -> Advice<'static> {
    let [opcode, registers, low, high, a, b, c, d] = bytes_at(bytes, refusal.slot);
    let count = bytes.len();
    let words = [
        Hex(opcode),
        Small(registers & 15),
        Small(registers >> 4),
        Number(i64::from(i16::from_le_bytes([low, high]))),
        Number(i64::from(i32::from_le_bytes([a, b, c, d]))),
        Hex(registers),
        Count(count),
        Count(count % 8),
        Count(count / 8),
    ];
    say(of_fault(refusal.why, opcode, registers), &words)
}
