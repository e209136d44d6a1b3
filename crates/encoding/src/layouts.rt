// Layouts: of which parts the entries of a map are made.

ghost use Rattle.std.specs.Prelude.{◌≡◌, Ok, IfOk, MatchResult, option_map};
ghost use Rattle.encoding.specs.Words.{words_of};
ghost use Rattle.encoding.specs.Layouts.{bytes_part, layout_line, layouts_of, number_part, part_of, parts_for, parts_of, with_line};
ghost use Rattle.encoding.specs.DecodeShown.{Becomes, Fails, shown_layout, shown_layouts};

use crate::decode_faults::{DecodeError, DecodeRefusal};
use crate::kinds::{Kind, kind_named};
use crate::numbers::magnitude;
use crate::words::{cut_at_colon, first_word};
use std::alloc::{AllocError, Global};
use text::{LineKind, NumberedLines, kind_of, number, split_at_space};

// How many bytes a part has at most: those of the longest value.
pub(crate) const PART_BYTES: usize = 16_384;

// A part of an entry: a number of a kind, or so many bytes.
#[derive(Clone, Copy)]
pub(crate) enum Part {
    U8,
    U16,
    U32,
    U64,
    S8,
    S16,
    S32,
    S64,
    Bytes(usize),
}

// The entries of the map of this number have these parts, those of the key first.
#[derive(Drop)]
pub(crate) struct MapLayout {
    pub map: u64,
    pub parts: Vec<Part>,
}

// The part that is a number of this kind.
fn number_part(kind: Kind) -> Option<Part>
    ensures { result ≡ number_part kind }
{
    match kind {
        Kind::U8 => Some(Part::U8),
        Kind::U16 => Some(Part::U16),
        Kind::U32 => Some(Part::U32),
        Kind::U64 => Some(Part::U64),
        Kind::S8 => Some(Part::S8),
        Kind::S16 => Some(Part::S16),
        Kind::S32 => Some(Part::S32),
        Kind::S64 => Some(Part::S64),
        Kind::Str | Kind::Hex => None,
    }
}

// The part that is so many bytes, where the name is that of bytes.
#[tactic(auto, unfolding(crate::specs::Layouts::bytes_part))]
fn bytes_part(name: &[u8], count: &[u8]) -> Option<Part>
    ensures { result ≡ bytes_part name.now count.now }
{
    if name != b"hex".as_slice() {
        return None;
    }
    let count = magnitude(count, 10)?;
    if 1 <= count && count <= PART_BYTES as u64 {
        Some(Part::Bytes(count as usize))
    } else {
        None
    }
}

// The part that a word of a layout names.
#[tactic(auto, unfolding(crate::specs::Layouts::part_of))]
fn part_of(word: &[u8]) -> Option<Part>
    ensures { result ≡ part_of word.now }
{
    match cut_at_colon(word) {
        Some((name, count)) => bytes_part(name, count),
        None => number_part(kind_named(word)?),
    }
}

// The parts that these words name.
fn parts_of(alloc: Global, words: &[u8]) -> Result<Option<Vec<Part>>, AllocError>
    ensures { IfOk result (λ o. option_map (λ v. v.items) o ≡ parts_of (words_of words.now)) }
{
    let mut parts = Vec::new(alloc);
    let mut left = Some(words);
    while let Some(text) = left {
        let (word, behind) = first_word(text);
        match part_of(word) {
            Some(part) => parts.push(part)?,
            None => return Ok(None),
        }
        left = behind;
    }
    Ok(Some(parts))
}

// What a line of a layout says.
#[tactic(auto, unfolding(crate::specs::Layouts::layout_line))]
fn layout_line(alloc: Global, line: &str) -> Result<Option<MapLayout>, AllocError>
    ensures { IfOk result (λ o. option_map shown_layout o ≡ layout_line line.now) }
{
    let Some((word, words)) = split_at_space(line) else {
        return Ok(None);
    };
    let Some(map) = number(word) else {
        return Ok(None);
    };
    match parts_of(alloc, words.as_bytes())? {
        Some(parts) => Ok(Some(MapLayout { map, parts })),
        None => Ok(None),
    }
}

// The parts of the entries of a map, where a layout has them.
pub(crate) fn parts_for(layouts: &[MapLayout], map: u64) -> Option<&[Part]>
    ensures { option_map (λ p. p.now) result ≡ parts_for (shown_layouts layouts.now) map }
{
    for layout in layouts {
        if layout.map == map {
            return Some(layout.parts.as_slice());
        }
    }
    None
}

// Adds what a line of a layout says, where it is good, and its map is new; and tells whether it is so.
fn add_line(alloc: Global, layouts: &mut Vec<MapLayout>, line: &str) -> Result<bool, AllocError>
    ensures { IfOk result (λ good. Becomes (with_line (shown_layouts layouts.old.items) line.now) good (shown_layouts layouts.new.items)) }
{
    match kind_of(line) {
        LineKind::TooLong => Ok(false),
        LineKind::Comment => Ok(true),
        LineKind::Words => match layout_line(alloc, line)? {
            Some(layout) if parts_for(layouts, layout.map).is_none() => {
                layouts.push(layout)?;
                Ok(true)
            }
            _ => Ok(false),
        },
    }
}

// The layouts that a text says.
pub(crate) fn read_layouts(alloc: Global, text: &str) -> Result<Vec<MapLayout>, DecodeError>
    ensures { MatchResult result (λ v. layouts_of text.now ≡ Ok (shown_layouts v.items)) (λ e. Fails e (layouts_of text.now)) }
{
    let mut layouts = Vec::new(alloc);
    let mut lines = NumberedLines::new(text);
    while let Some((number, line)) = lines.take_line() {
        if !add_line(alloc, &mut layouts, line)? {
            return Err(DecodeError::Refused(DecodeRefusal::Layout(number)));
        }
    }
    Ok(layouts)
}
