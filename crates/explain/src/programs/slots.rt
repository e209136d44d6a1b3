// What is told at a slot of what is known there.

ghost use Rattle.std.specs.Prelude.{◌≡◌, ◌⊎◌, ◌<◌, ◌≤◌, ◌++◌, [], length, take, drop, codes, option_map, if◌then◌else◌, IfOk, OnOk};
ghost use Rattle.std.specs.List.{concat};
ghost use Rattle.std.specs.String.{string_bytes};
ghost use Rattle.explain.specs.Slots.{begins_row, bytes_told, cell_told, changes_told, is_new, line_above, more_told, pointers_told, reached_told, register_told, registers_told, row_end, row_told, slot_told, slots_told, sources_told};
ghost use Rattle.explain.specs.Study.{IsStudy, Knows};
ghost use Rattle.explain.specs.Told.{BeginsWith};
ghost use Rattle.explain.specs.Words.{byte_words, pointer_words, register_words, row_words};

use crate::programs::{Byte, STACK_BYTES, Study, byte_in, cell_in, kind_in, slots_into};
use crate::sentences::{Written, put_all, put_kind};
use insn::Edge;
use itoa::Buffer;
use regkind::{Cell, Frame, Kind};
use std::alloc::{AllocError, Global};

// How many of the slots are named from which jumps come.
const NAMED: usize = 4;

// Adds what a register has, where it had something else before.
fn put_register(out: &mut String, before: Option<&Frame>, frame: &Frame, register: u8) -> Written
    requires { register < 11 }
    ensures { OnOk result (string_bytes out.new ≡ string_bytes out.old ++ register_told (option_map (λ f. f.now) before.entry) frame.now register) }
{
    let known = frame.kind(register);
    if kind_in(before, register) == known {
        return Ok(());
    }
    let mut digits = Buffer::new();
    put_all(out, &["; r", digits.format(register), " = "])?;
    put_kind(out, known)
}

// Adds what registers have, where they had something else before.
fn put_registers(out: &mut String, before: Option<&Frame>, frame: &Frame) -> Written
    ensures { OnOk result (string_bytes out.new ≡ string_bytes out.old ++ registers_told (option_map (λ f. f.now) before.entry) frame.now) }
{
    for register in 0..11 {
        put_register(out, before, frame, register)?;
    }
    Ok(())
}

// Whether a byte of the stack became so.
fn is_new(before: Option<&Frame>, frame: &Frame, known: Byte, byte: usize) -> bool
    requires { byte < 512 }
    ensures { result ≡ is_new known (option_map (λ f. f.now) before.entry) frame.now byte }
{
    byte_in(Some(frame), byte) == known && byte_in(before, byte) != known
}

// Whether a row of such bytes begins.
fn begins_row(before: Option<&Frame>, frame: &Frame, known: Byte, byte: usize) -> bool
    requires { byte < 512 }
    ensures { result ≡ begins_row (is_new known (option_map (λ f. f.now) before.entry) frame.now) byte }
{
    is_new(before, frame, known, byte) && (byte == 0 || !is_new(before, frame, known, byte - 1))
}

// The last byte of a row.
fn row_end(before: Option<&Frame>, frame: &Frame, known: Byte, first: usize) -> usize
    requires { first < 512 }
    ensures end { result ≡ row_end (is_new known (option_map (λ f. f.now) before.entry) frame.now) first }
    ensures within { result < 512 }
{
    for next in first + 1..STACK_BYTES {
        if !is_new(before, frame, known, next) {
            return next - 1;
        }
    }
    STACK_BYTES - 1
}

// The word for what a byte of the stack is.
fn byte_word(known: Byte) -> &'static str
    ensures { result.now ≡ byte_words known }
{
    match known {
        Byte::Number => "written",
        Byte::Unwritten => "unwritten",
        Byte::Pointer => "a pointer",
    }
}

// Adds that the bytes of a row are so.
fn put_row(out: &mut String, known: Byte, first: usize, last: usize) -> Written
    requires first { first < 512 }
    requires last { last < 512 }
    ensures { OnOk result (string_bytes out.new ≡ string_bytes out.old ++ row_words known first last) }
{
    let (mut begin, mut end) = (Buffer::new(), Buffer::new());
    let (word, begin) = (byte_word(known), begin.format(STACK_BYTES - first));
    if first == last {
        return put_all(out, &["; stack -", begin, " ", word]);
    }
    let pieces = [
        "; stack -",
        begin,
        " to -",
        end.format(STACK_BYTES - last),
        " ",
        word,
    ];
    put_all(out, &pieces)
}

// Adds the row of bytes that begins there, if one does.
fn put_row_at(
    out: &mut String,
    before: Option<&Frame>,
    frame: &Frame,
    known: Byte,
    first: usize,
) -> Written
    requires { first < 512 }
    ensures { OnOk result (string_bytes out.new ≡ string_bytes out.old ++ row_told known (is_new known (option_map (λ f. f.now) before.entry) frame.now) first) }
{
    if !begins_row(before, frame, known, first) {
        return Ok(());
    }
    put_row(out, known, first, row_end(before, frame, known, first))
}

// Adds the bytes of the stack that became so, those in a row together.
fn put_bytes(out: &mut String, before: Option<&Frame>, frame: &Frame, known: Byte) -> Written
    ensures { OnOk result (string_bytes out.new ≡ string_bytes out.old ++ bytes_told known (option_map (λ f. f.now) before.entry) frame.now) }
{
    for first in 0..STACK_BYTES {
        put_row_at(out, before, frame, known, first)?;
    }
    Ok(())
}

// Adds that a cell of the stack has a pointer.
fn put_pointer(out: &mut String, cell: usize, kind: Kind) -> Written
    requires { cell < 64 }
    ensures { OnOk result (string_bytes out.new ≡ string_bytes out.old ++ pointer_words cell kind) }
{
    let mut digits = Buffer::new();
    put_all(
        out,
        &[
            "; stack -",
            digits.format(STACK_BYTES - 8 * cell),
            " holds ",
        ],
    )?;
    put_kind(out, kind)
}

// Adds the pointer that came to stand in a cell of the stack, if one did.
fn put_cell(out: &mut String, cell: usize, old: Cell, known: Cell) -> Written
    requires { cell < 64 }
    ensures { OnOk result (string_bytes out.new ≡ string_bytes out.old ++ cell_told cell old known) }
{
    match known {
        Cell::Spilled(kind) if known != old => put_pointer(out, cell, kind),
        _ => Ok(()),
    }
}

// Adds the pointers that came to stand in the stack.
fn put_pointers(out: &mut String, before: Option<&Frame>, frame: &Frame) -> Written
    ensures { OnOk result (string_bytes out.new ≡ string_bytes out.old ++ pointers_told (option_map (λ f. f.now) before.entry) frame.now) }
{
    for cell in 0..64 {
        put_cell(out, cell, cell_in(before, cell), frame.cell(cell))?;
    }
    Ok(())
}

// Adds all that is known in a frame, and not yet in that of the line above, each thing after a semicolon.
fn put_changes(out: &mut String, before: Option<&Frame>, frame: &Frame) -> Written
    ensures { OnOk result (string_bytes out.new ≡ string_bytes out.old ++ changes_told (option_map (λ f. f.now) before.entry) frame.now) }
{
    put_registers(out, before, frame)?;
    put_bytes(out, before, frame, Byte::Number)?;
    put_bytes(out, before, frame, Byte::Unwritten)?;
    put_pointers(out, before, frame)
}

// Adds slots, each after a comma.
fn put_slots(out: &mut String, slots: &[usize]) -> Written
    ensures { OnOk result (string_bytes out.new ≡ string_bytes out.old ++ slots_told slots.now) }
{
    for slot in slots {
        let mut digits = Buffer::new();
        put_all(out, &[", ", digits.format(*slot)])?;
    }
    Ok(())
}

// Adds how many more jumps there are.
fn put_more(out: &mut String, count: usize) -> Written
    ensures { OnOk result (string_bytes out.new ≡ string_bytes out.old ++ more_told count) }
{
    if count == 0 {
        return Ok(());
    }
    let mut digits = Buffer::new();
    put_all(out, &[" and ", digits.format(count), " more"])
}

// A text without the two bytes of the separator with which it begins, if it isn't empty.
fn after_separator<'a>(text: &'a str, separator: &str) -> &'a str
    requires two { length separator.now ≡ 2 }
    requires begins { (text.now ≡ []) ⊎ BeginsWith separator.now text.now }
    ensures { result.now ≡ drop 2 text.now }
{
    text.strip_prefix(separator).unwrap_or(text)
}

// Adds from where a slot is reached.
fn put_sources(out: &mut String, jumps: &[usize], falls: &[usize]) -> Written
    ensures { OnOk result (string_bytes out.new ≡ string_bytes out.old ++ sources_told jumps.now falls.now) }
{
    let mut slots = String::new(*out.allocator());
    let (named, more) = jumps.split_at(jumps.len().min(NAMED));
    put_slots(&mut slots, named)?;
    put_more(&mut slots, more.len())?;
    put_slots(&mut slots, falls)?;
    put_all(out, &["from ", after_separator(slots.as_str(), ", "), ": "])
}

// Adds from where a slot is reached, where not from the line above alone.
fn put_reached(
    out: &mut String,
    slot: usize,
    before: Option<&Frame>,
    jumps: &[usize],
    falls: &[usize],
) -> Written
    ensures { OnOk result (string_bytes out.new ≡ string_bytes out.old ++ reached_told slot jumps.now falls.now (option_map (λ f. f.now) before.entry)) }
{
    if before.is_some() || slot == 0 {
        return Ok(());
    }
    put_sources(out, jumps, falls)
}

// What is told at a slot of what is known there.
pub(crate) fn knowledge(study: &Study<'_>, slot: usize) -> Result<String, AllocError>
    requires { IsStudy study.now }
    ensures { Knows study.now slot → IfOk result (λ s. string_bytes s ≡ slot_told study.now.subject.program.now slot) }
{
    let (alloc, program) = (study.alloc, study.subject.program);
    let Some(frame) = study.frame_at(slot) else {
        return String::from_str(alloc, "nothing leads here");
    };
    let jumps = slots_into(alloc, program, Edge::Jump, slot)?;
    let falls = study.falls_into(slot)?;
    let before = study.line_above(&jumps, &falls);
    let mut out = String::new(alloc);
    put_reached(&mut out, slot, before, &jumps, &falls)?;
    let mut known = String::new(alloc);
    put_changes(&mut known, before, frame)?;
    out.push_str(after_separator(known.as_str(), "; "))?;
    Ok(out)
}
