// The lines of a dump.

ghost use Rattle.std.specs.Prelude.{ℕ, ◌≡◌, ◌∷◌, ◌<◌, ◌≤◌, Some, None, [], length, option_map, take, IfSome, MatchOption};
ghost use Rattle.std.specs.List.{list_all};
ghost use Rattle.text.specs.declared.digits.TheConstants.{FIELD_BYTES};
ghost use Rattle.loader.specs.declared.installed.TheConstants.{MOST_LONG};
ghost use Rattle.dumps.specs.Grammar.{ended_lines, Takes, is_lower_digit, lower_bytes, entry_meaning, program_meaning, words_meaning, line_meaning};
ghost use Rattle.dumps.specs.Shown.{meaning_of, LineFits};

use arrayvec::ArrayVec;
use loader::{MOST_LONG, mode, most_argument, most_bytes};
use maps::MOST_VALUE_BYTES;
use std::marker::Model;
use text::{FIELD_BYTES, hex_field, number, number_within, split_at_space};
use verifier::Mode;

/// How many bytes a line of a dump has at most, its line feed not counted.
pub const DUMP_LINE_BYTES: usize = 32_931;

// Room for any value, and for any program.
pub(crate) const VALUE_ROOM: usize = MOST_VALUE_BYTES as usize;

// An entry: the number of its map, its key, and its value in a room that is lent.
#[derive(Drop)]
pub(crate) struct EntryLine<'a> {
    pub map: u64,
    pub key: ArrayVec<u8, FIELD_BYTES>,
    pub value: &'a [u8],
}

// A program that was installed, and its bytes in a room that is lent.
#[derive(Drop)]
pub(crate) struct ProgramLine<'a> {
    pub mode: Mode,
    pub arg_len: u64,
    pub bytes: &'a [u8],
}

// What a line says.
#[derive(Drop)]
pub(crate) enum Line<'a> {
    Entry(EntryLine<'a>),
    Program(ProgramLine<'a>),
}

// The first line of a text that is not empty, without its line feed, and what stands behind that; `None` where it lacks it.
fn ended_line(text: &str) -> Option<(&str, &str)>
    requires { 0 < length text.now }
    ensures { MatchOption result (ended_lines text.now ≡ None ∷ []) (λ x. ended_lines text.now ≡ Some x.0.now ∷ ended_lines x.1.now) }
{
    text.split_once('\n')
}

// The lines of a text that are left, and the number of the first of them: the text's first line has number 1, and a number past
// 2^32 - 1 stays there.
#[derive(Drop)]
pub(crate) struct EndedLines<'a> {
    rest: &'a str,
    number: u32,
}

impl<'a> Model for EndedLines<'a> {
    ghost use Rattle.dumps.specs.Grammar.{ended_lines, LinesLeft};

    ghost Value = { LinesLeft };

    ghost view = { λ l. record { number = l.number; lines = ended_lines l.rest.now } };
}

impl<'a> EndedLines<'a> {
    // All lines of a text.
    pub(crate) fn new(text: &'a str) -> EndedLines<'a>
        ensures all { result ≡ record { number = 1; lines = ended_lines text.now } }
    {
        EndedLines {
            rest: text,
            number: 1,
        }
    }

    // How many bytes the lines have that are left.
    pub(crate) fn left(&self) -> usize {
        self.rest.len()
    }

    // Takes the next line, without its line feed, and its number; of a last line that lacks it the number alone. `None` behind the last.
    pub(crate) fn take_line(&mut self) -> Option<(u32, Option<&'a str>)>
        ensures taken { Takes self.old self.new (option_map (λ l. (l.0, option_map (λ t. t.now) l.1)) result) }
    {
        if self.rest.is_empty() {
            return None;
        }
        let number = self.number;
        self.number = number.saturating_add(1);
        match ended_line(self.rest) {
            Some((line, rest)) => {
                self.rest = rest;
                Some((number, Some(line)))
            }
            None => {
                self.rest = "";
                Some((number, None))
            }
        }
    }
}

fn is_lower_digit(c: u8) -> bool
    ensures { result ≡ is_lower_digit c }
{
    (b'0' <= c && c <= b'9') || (b'a' <= c && c <= b'f')
}

fn are_lower_digits(bytes: &[u8]) -> bool
    ensures { result ≡ list_all is_lower_digit bytes.now }
{
    bytes.iter().all(|c| is_lower_digit(*c))
}

// The bytes of a field: pairs of hexadecimal digits in lower case.
#[tactic(auto, unfolding(crate::specs::Grammar::lower_bytes))]
fn lower_hex(field: &str) -> Option<ArrayVec<u8, FIELD_BYTES>>
    ensures { option_map (λ v. v.items) result ≡ lower_bytes FIELD_BYTES field.now }
{
    if field.len() <= 2 * FIELD_BYTES && are_lower_digits(field.as_bytes()) {
        hex_field(field)
    } else {
        None
    }
}

// The bytes of a field of digits in lower case, at most so many, put at the front of a room: how many.
#[tactic(auto, unfolding(crate::specs::Grammar::lower_bytes, text::specs::Digits::field_bytes))]
fn fill_room(field: &str, most: usize, room: &mut [u8; VALUE_ROOM]) -> Option<usize>
    requires most { most ≤ VALUE_ROOM }
    ensures bytes { option_map (λ n. take n room.new) result ≡ lower_bytes most field.now }
    ensures few { IfSome result (λ n. n ≤ most) }
{
    if field.len() > 2 * most || !are_lower_digits(field.as_bytes()) || field.is_empty() {
        return None;
    }
    let count = field.len() / 2;
    hex::decode_to_slice(field.as_bytes(), &mut room[..count]).ok()?;
    Some(count)
}

// An entry of the map of this number.
#[tactic(auto, unfolding(crate::specs::Grammar::entry_meaning))]
fn entry_line<'a>(map: &str, text: &str, room: &'a mut [u8; VALUE_ROOM]) -> Option<Line<'a>>
    ensures meaning { option_map meaning_of result ≡ entry_meaning map.now text.now }
    ensures fits { (long : ℕ) → IfSome result (LineFits long) }
{
    let (key, value) = split_at_space(text)?;
    let map = number(map)?;
    let key = lower_hex(key)?;
    let count = fill_room(value, VALUE_ROOM, room)?;
    let value = &room[..count];
    Some(Line::Entry(EntryLine { map, key, value }))
}

// A program that may have `long` bytes, behind the letter that begins its line.
#[tactic(auto, unfolding(crate::specs::Grammar::program_meaning))]
fn program_line<'a>(text: &str, long: usize, room: &'a mut [u8; VALUE_ROOM]) -> Option<Line<'a>>
    requires long { long ≤ MOST_LONG }
    ensures meaning { option_map meaning_of result ≡ program_meaning long text.now }
    ensures fits { IfSome result (LineFits long) }
{
    let (word, rest) = split_at_space(text)?;
    let (len, digits) = split_at_space(rest)?;
    let mode = mode(word)?;
    let arg_len = number_within(0, most_argument(long) as u64, len)?;
    let count = fill_room(digits, most_bytes(long), room)?;
    let bytes = &room[..count];
    Some(Line::Program(ProgramLine {
        mode,
        arg_len,
        bytes,
    }))
}

#[tactic(auto, unfolding(crate::specs::Grammar::words_meaning))]
fn words_line<'a>(line: &str, long: usize, room: &'a mut [u8; VALUE_ROOM]) -> Option<Line<'a>>
    requires long { long ≤ MOST_LONG }
    ensures meaning { option_map meaning_of result ≡ words_meaning long line.now }
    ensures fits { IfSome result (LineFits long) }
{
    let (word, rest) = split_at_space(line)?;
    if word == "p" {
        program_line(rest, long, room)
    } else {
        entry_line(word, rest, room)
    }
}

// What a line of a dump says, whatever stands before it, where a program may have `long` bytes; `None` where it is bad. The value of an
// entry, or the bytes of a program, are in the room.
#[tactic(auto, unfolding(crate::specs::Grammar::line_meaning))]
pub(crate) fn read_line<'a>(
    line: &str,
    long: usize,
    room: &'a mut [u8; VALUE_ROOM],
) -> Option<Line<'a>>
    requires long { long ≤ MOST_LONG }
    ensures meaning { option_map meaning_of result ≡ line_meaning long line.now }
    ensures fits { IfSome result (LineFits long) }
{
    if line.len() > DUMP_LINE_BYTES {
        None
    } else {
        words_line(line, long, room)
    }
}
