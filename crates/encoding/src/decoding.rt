// States with the values of their entries.

ghost use Rattle.std.specs.Prelude.{◌≡◌, ◌≤◌, ◌++◌, ◌<◌, length, take, drop, IfNone, IfOk, IfSome, MatchResult, OnOk, Ok, option_map};
ghost use Rattle.hex.specs.Hex.{encode_lower};
ghost use Rattle.text.specs.Digits.{field_bytes};
ghost use Rattle.text.specs.Lines.{lines_of};
ghost use Rattle.encoding.specs.Decoded.{decoded_from, decoded_text, entry_of, entry_text, field_text, is_program, joined, part_kind, part_size, signed_text, spaced, state_line, unsigned_text, value_text, values_of};
ghost use Rattle.encoding.specs.DecodeShown.{AddsLine, AddsValues, Fails, shown_entry, shown_layouts};

use crate::decode_faults::{DecodeError, DecodeRefusal};
use crate::kinds::Kind;
use crate::layouts::{MapLayout, Part, parts_for, read_layouts};
use byteorder::{ByteOrder, LittleEndian};
use itoa::Buffer;
use std::alloc::{AllocError, Global};
use text::{NumberedLines, number, split_at_space};

// An entry of a state: the number of its map, and the bytes of its key and of its value.
#[derive(Drop)]
struct Entry {
    map: u64,
    bytes: Vec<u8>,
}

impl Part {
    // How many bytes it has.
    fn size(self) -> usize
        ensures { result ≡ part_size self }
    {
        match self {
            Part::U8 | Part::S8 => 1,
            Part::U16 | Part::S16 => 2,
            Part::U32 | Part::S32 => 4,
            Part::U64 | Part::S64 => 8,
            Part::Bytes(count) => count,
        }
    }

    // As what kind its bytes are written.
    fn kind(self) -> Kind
        ensures { result ≡ part_kind self }
    {
        match self {
            Part::U8 => Kind::U8,
            Part::U16 => Kind::U16,
            Part::U32 => Kind::U32,
            Part::U64 => Kind::U64,
            Part::S8 => Kind::S8,
            Part::S16 => Kind::S16,
            Part::S32 => Kind::S32,
            Part::S64 => Kind::S64,
            Part::Bytes(_) => Kind::Hex,
        }
    }
}

// Adds the number without a sign that these bytes say.
fn put_unsigned(out: &mut Vec<u8>, bytes: &[u8]) -> Result<(), AllocError>
    requires some { 1 ≤ length bytes.now }
    requires few { length bytes.now ≤ 8 }
    ensures { OnOk result (out.new.items ≡ out.old.items ++ unsigned_text bytes.now) }
{
    let mut digits = Buffer::new();
    let number = LittleEndian::read_uint(bytes, bytes.len());
    out.extend_from_slice(digits.format(number).as_bytes())
}

// Adds the number with a sign that these bytes say.
fn put_signed(out: &mut Vec<u8>, bytes: &[u8]) -> Result<(), AllocError>
    requires some { 1 ≤ length bytes.now }
    requires few { length bytes.now ≤ 8 }
    ensures { OnOk result (out.new.items ≡ out.old.items ++ signed_text bytes.now) }
{
    let mut digits = Buffer::new();
    let number = LittleEndian::read_int(bytes, bytes.len());
    out.extend_from_slice(digits.format(number).as_bytes())
}

// Adds the digits of bytes.
fn put_hex(out: &mut Vec<u8>, bytes: &[u8]) -> Result<(), AllocError>
    ensures { OnOk result (out.new.items ≡ out.old.items ++ encode_lower bytes.now) }
{
    let digits = hex::encode(*out.allocator(), bytes)?;
    out.extend_from_slice(digits.as_bytes())
}

// Adds what stands behind the colon of a value that has these bytes.
fn put_field(out: &mut Vec<u8>, part: Part, bytes: &[u8]) -> Result<(), AllocError>
    requires { length bytes.now ≡ part_size part }
    ensures { OnOk result (out.new.items ≡ out.old.items ++ field_text part bytes.now) }
{
    match part {
        Part::U8 | Part::U16 | Part::U32 | Part::U64 => put_unsigned(out, bytes),
        Part::S8 | Part::S16 | Part::S32 | Part::S64 => put_signed(out, bytes),
        Part::Bytes(_) => put_hex(out, bytes),
    }
}

// Adds a space, and the value of these bytes.
fn put_value(out: &mut Vec<u8>, part: Part, bytes: &[u8]) -> Result<(), AllocError>
    requires { length bytes.now ≡ part_size part }
    ensures { OnOk result (out.new.items ≡ out.old.items ++ spaced (value_text part bytes.now)) }
{
    out.extend_from_slice(b" ")?;
    out.extend_from_slice(part.kind().name().as_bytes())?;
    out.extend_from_slice(b":")?;
    put_field(out, part, bytes)
}

// The first bytes, so many, and those behind them, where there are so many.
fn cut(bytes: &[u8], size: usize) -> Option<(&[u8], &[u8])>
    ensures few { IfNone result (length bytes.now < size) }
    ensures enough { IfSome result (λ x. size ≤ length bytes.now) }
    ensures first { IfSome result (λ x. x.0.now ≡ take size bytes.now) }
    ensures long { IfSome result (λ x. length x.0.now ≡ size) }
    ensures rest { IfSome result (λ x. x.1.now ≡ drop size bytes.now) }
{
    if bytes.len() < size {
        None
    } else {
        Some((&bytes[..size], &bytes[size..]))
    }
}

// Adds the values of these parts, each behind a space, where they take just these bytes; and tells whether they do.
fn put_values(out: &mut Vec<u8>, parts: &[Part], bytes: &[u8]) -> Result<bool, AllocError>
    ensures { IfOk result (λ good. AddsValues out.old.items (values_of parts.now bytes.now) good out.new.items) }
{
    let mut left = bytes;
    for part in parts {
        match cut(left, part.size()) {
            Some((value, behind)) => {
                put_value(out, *part, value)?;
                left = behind;
            }
            None => return Ok(false),
        }
    }
    Ok(left.is_empty())
}

// Whether a line of a state is that of a program.
#[tactic(auto, unfolding(crate::specs::Decoded::is_program))]
fn is_program(line: &str) -> bool
    ensures { result ≡ is_program line.now }
{
    match split_at_space(line) {
        Some((word, _)) => word == "p",
        None => false,
    }
}

// The bytes of a field: pairs of hexadecimal digits, or `-` for no bytes.
#[tactic(auto, unfolding(text::specs::Digits::field_bytes))]
fn bytes_of(alloc: Global, field: &str) -> Result<Option<Vec<u8>>, AllocError>
    ensures { IfOk result (λ o. option_map (λ v. v.items) o ≡ field_bytes field.now) }
{
    if field == "-" {
        return Ok(Some(Vec::new(alloc)));
    }
    if field.is_empty() {
        return Ok(None);
    }
    match hex::decode(alloc, field) {
        Ok(bytes) => Ok(Some(bytes)),
        Err(hex::FromHexError::OutOfMemory) => Err(AllocError),
        Err(_) => Ok(None),
    }
}

// The bytes of two fields, one after the other.
#[tactic(auto, unfolding(crate::specs::Decoded::joined))]
fn joined(alloc: Global, key: &str, value: &str) -> Result<Option<Vec<u8>>, AllocError>
    ensures { IfOk result (λ o. option_map (λ v. v.items) o ≡ joined key.now value.now) }
{
    let Some(mut bytes) = bytes_of(alloc, key)? else {
        return Ok(None);
    };
    let Some(value) = bytes_of(alloc, value)? else {
        return Ok(None);
    };
    bytes.extend_from_slice(&value)?;
    Ok(Some(bytes))
}

// The entry that a line of a state says.
#[tactic(auto, unfolding(crate::specs::Decoded::entry_of))]
fn entry_of(alloc: Global, line: &str) -> Result<Option<Entry>, AllocError>
    ensures { IfOk result (λ o. option_map shown_entry o ≡ entry_of line.now) }
{
    let Some((word, fields)) = split_at_space(line) else {
        return Ok(None);
    };
    let Some((key, value)) = split_at_space(fields) else {
        return Ok(None);
    };
    let Some(map) = number(word) else {
        return Ok(None);
    };
    match joined(alloc, key, value)? {
        Some(bytes) => Ok(Some(Entry { map, bytes })),
        None => Ok(None),
    }
}

// Adds the number of a map, and the values of these parts; and tells whether they take just these bytes.
fn put_entry(out: &mut Vec<u8>, entry: &Entry, parts: &[Part]) -> Result<bool, AllocError>
    ensures { IfOk result (λ good. AddsLine out.old.items (entry_text parts.now (shown_entry entry.now)) good out.new.items) }
{
    let mut digits = Buffer::new();
    out.extend_from_slice(digits.format(entry.map).as_bytes())?;
    put_values(out, parts, &entry.bytes)
}

// Adds what becomes of a line of a state; and tells whether the line is good.
#[tactic(auto, unfolding(crate::specs::Decoded::state_line))]
fn put_line(out: &mut Vec<u8>, layouts: &[MapLayout], line: &str) -> Result<bool, AllocError>
    ensures { IfOk result (λ good. AddsLine out.old.items (state_line (shown_layouts layouts.now) line.now) good out.new.items) }
{
    if is_program(line) {
        out.extend_from_slice(line.as_bytes())?;
        return Ok(true);
    }
    let Some(entry) = entry_of(*out.allocator(), line)? else {
        return Ok(false);
    };
    match parts_for(layouts, entry.map) {
        Some(parts) => put_entry(out, &entry, parts),
        None => {
            out.extend_from_slice(line.as_bytes())?;
            Ok(true)
        }
    }
}

// What becomes of the lines of a state, or the first line that is wrong.
fn decoded(alloc: Global, layouts: &[MapLayout], state: &str) -> Result<Vec<u8>, DecodeError>
    ensures { let lines = decoded_from (shown_layouts layouts.now) 1 (lines_of state.now) in MatchResult result (λ v. lines ≡ Ok v.items) (λ e. Fails e lines) }
{
    let mut out = Vec::new(alloc);
    let mut lines = NumberedLines::new(state);
    while let Some((number, line)) = lines.take_line() {
        if !put_line(&mut out, layouts, line)? {
            return Err(DecodeError::Refused(DecodeRefusal::State(number)));
        }
        out.extend_from_slice(b"\n")?;
    }
    Ok(out)
}

/// A state, the entries of which are written as the values that a layout says; or the first line that is wrong. Memory may run out.
///
/// A line of the layout has the number of a map and the parts of its entries, those of the key first: kinds of numbers as `u32`, and
/// `hex:N` for N bytes. An entry becomes its map's number and its values, each behind one space, as [`crate::encode`] takes them. A program
/// and an entry of a map without a line in the layout stay as they are.
#[tactic(auto, unfolding(crate::specs::Decoded::decoded_text))]
pub fn decode(alloc: Global, layout: &str, state: &str) -> Result<Vec<u8>, DecodeError>
    ensures decoded { MatchResult result (λ v. decoded_text layout.now state.now ≡ Ok v.items) (λ e. Fails e (decoded_text layout.now state.now)) }
{
    match read_layouts(alloc, layout) {
        Ok(layouts) => decoded(alloc, &layouts, state),
        Err(error) => Err(error),
    }
}
