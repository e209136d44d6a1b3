// What one line of a manifest means.

ghost use Rattle.std.specs.Prelude.{◌≡◌, IfSome, option_map};
ghost use Rattle.loader.specs.Grammar.{mode_of, array_meaning, hash_of, hash_meaning, map_meaning, program_meaning, first_word, words_of, words_meaning, line_meaning};
ghost use Rattle.maps.specs.Shapes.{AreLimits};
ghost use Rattle.text.specs.Words.{IsFrom, number_within};
ghost use Rattle.loader.specs.LineShown.{meaning_of, LineFits};

use crate::paths::is_path;
use maps::{MapLimits, Shape};
use text::{LineKind, is_name, kind_of, number_within, split_at_space};
use verifier::Mode;

/// What a line says of a program.
///
/// # Examples
///
/// ```
/// use loader::{Line, read_line};
/// use maps::MapLimits;
/// use verifier::Mode;
///
/// let Some(Line::Program(bump)) = read_line(&MapLimits::standard(), "program bump update 4 bump.hex") else { unreachable!() };
/// assert_eq!(rt; (bump.name, bump.file), ("bump", "bump.hex"));
/// assert_eq!(rt; (bump.mode, bump.arg_len), (Mode::Update, 4));
/// ```
#[derive(Clone, Copy)]
pub struct ProgramLine<'a> {
    /// The program's name.
    pub name: &'a str,
    /// Whether it may change maps.
    pub mode: Mode,
    /// How many bytes its argument has.
    pub arg_len: u16,
    /// The file in which its bytes stand.
    pub file: &'a str,
}

// What a line is about, by its first word.
#[derive(Clone, Copy)]
pub(crate) enum FirstWord {
    Map,
    Program,
    Other,
}

/// What a line of a manifest means, by itself.
///
/// # Examples
///
/// ```
/// use loader::{Line, read_line};
/// use maps::{MapLimits, Shape};
///
/// let limits = MapLimits::standard();
/// assert!(rt; matches!(read_line(&limits, "# counters"), Some(Line::Comment)));
/// let Some(Line::Map(shape)) = read_line(&limits, "map hash 4 8 100") else { unreachable!() };
/// assert_eq!(rt; shape, Shape::Hash { key: 4, value: 8, entries: 100 });
/// ```
#[derive(Clone, Copy)]
pub enum Line<'a> {
    /// The line is empty, or begins with `#`.
    Comment,
    /// A map.
    Map(Shape),
    /// A program.
    Program(ProgramLine<'a>),
}

// A size, from 1 to the most.
fn size(most: u32, word: &str) -> Option<u32>
    ensures value { result ≡ number_within 1 most word.now }
    ensures bounds { IfSome result (λ n. IsFrom 1 most n) }
{
    Some(number_within(1, most as u64, word)? as u32)
}

// The sizes of an array.
#[tactic(auto, unfolding(crate::specs::Grammar::array_meaning))]
fn array_line<'a>(limits: &MapLimits, text: &'a str) -> Option<Line<'a>>
    requires limits { AreLimits limits.now }
    ensures meaning { option_map meaning_of result ≡ array_meaning limits.now text.now }
    ensures fits { IfSome result (LineFits limits.now) }
{
    let (value, entries) = split_at_space(text)?;
    let value = size(limits.value, value)?;
    let entries = size(limits.entries, entries)?;
    Some(Line::Map(Shape::Array { value, entries }))
}

// A hash of these sizes.
fn hash_of<'a>(limits: &MapLimits, key: &str, value: &str, entries: &str) -> Option<Line<'a>>
    requires limits { AreLimits limits.now }
    ensures meaning { option_map meaning_of result ≡ hash_of limits.now key.now value.now entries.now }
    ensures fits { IfSome result (LineFits limits.now) }
{
    let key = size(limits.key, key)?;
    let value = size(limits.value, value)?;
    let entries = size(limits.entries, entries)?;
    Some(Line::Map(Shape::Hash {
        key,
        value,
        entries,
    }))
}

// The sizes of a hash.
#[tactic(auto, unfolding(crate::specs::Grammar::hash_meaning))]
fn hash_line<'a>(limits: &MapLimits, text: &'a str) -> Option<Line<'a>>
    requires limits { AreLimits limits.now }
    ensures meaning { option_map meaning_of result ≡ hash_meaning limits.now text.now }
    ensures fits { IfSome result (LineFits limits.now) }
{
    let (key, rest) = split_at_space(text)?;
    let (value, entries) = split_at_space(rest)?;
    hash_of(limits, key, value, entries)
}

// A map, an array or a hash.
#[tactic(auto, unfolding(crate::specs::Grammar::map_meaning))]
fn map_line<'a>(limits: &MapLimits, text: &'a str) -> Option<Line<'a>>
    requires limits { AreLimits limits.now }
    ensures meaning { option_map meaning_of result ≡ map_meaning limits.now text.now }
    ensures fits { IfSome result (LineFits limits.now) }
{
    let (kind, rest) = split_at_space(text)?;
    if kind == "array" {
        array_line(limits, rest)
    } else if kind == "hash" {
        hash_line(limits, rest)
    } else {
        None
    }
}

/// The mode that a word says.
///
/// # Examples
///
/// ```
/// use loader::mode;
/// use verifier::Mode;
///
/// assert_eq!(rt; mode("update"), Some(Mode::Update));
/// assert_eq!(rt; mode("read"), Some(Mode::Read));
/// assert_eq!(rt; mode("Read"), None);
/// ```
pub fn mode(text: &str) -> Option<Mode>
    ensures mode { result ≡ mode_of text.now }
{
    if text == "update" {
        Some(Mode::Update)
    } else if text == "read" {
        Some(Mode::Read)
    } else {
        None
    }
}

#[tactic(auto, unfolding(crate::specs::Grammar::program_meaning))]
fn program_line<'a>(limits: &MapLimits, text: &'a str) -> Option<Line<'a>>
    requires limits { AreLimits limits.now }
    ensures meaning { option_map meaning_of result ≡ program_meaning limits.now text.now }
    ensures fits { IfSome result (LineFits limits.now) }
{
    let (name, rest) = split_at_space(text)?;
    let (how, rest) = split_at_space(rest)?;
    let (len, file) = split_at_space(rest)?;
    let mode = mode(how)?;
    let arg_len = number_within(0, limits.argument as u64, len)?;
    if is_name(name) && is_path(file) {
        Some(Line::Program(ProgramLine {
            name,
            mode,
            arg_len: arg_len as u16,
            file,
        }))
    } else {
        None
    }
}

// What kind of line a first word begins.
fn first_word(word: &str) -> FirstWord
    ensures word { result ≡ first_word word.now }
{
    if word == "map" {
        FirstWord::Map
    } else if word == "program" {
        FirstWord::Program
    } else {
        FirstWord::Other
    }
}

// The first word of a line, and what stands behind it.
#[tactic(auto, unfolding(crate::specs::Grammar::words_of))]
pub(crate) fn words_of(line: &str) -> Option<(FirstWord, &str)>
    ensures words { option_map (λ w. (w.0, w.1.now)) result ≡ words_of line.now }
{
    let (first, rest) = split_at_space(line)?;
    Some((first_word(first), rest))
}

#[tactic(auto, unfolding(crate::specs::Grammar::words_meaning))]
fn words_line<'a>(limits: &MapLimits, text: &'a str) -> Option<Line<'a>>
    requires limits { AreLimits limits.now }
    ensures meaning { option_map meaning_of result ≡ words_meaning limits.now text.now }
    ensures fits { IfSome result (LineFits limits.now) }
{
    match words_of(text)? {
        (FirstWord::Map, rest) => map_line(limits, rest),
        (FirstWord::Program, rest) => program_line(limits, rest),
        (FirstWord::Other, _) => None,
    }
}

/// What a line of a manifest means, whatever stands before it; `None` where it is bad.
///
/// # Examples
///
/// ```
/// use loader::{Line, read_line};
/// use maps::{MapLimits, Shape};
///
/// let limits = MapLimits::standard();
/// let Some(Line::Map(shape)) = read_line(&limits, "map array 8 16") else { unreachable!() };
/// assert_eq!(rt; shape, Shape::Array { value: 8, entries: 16 });
/// // An array of no entry is bad.
/// assert!(rt; read_line(&limits, "map array 8 0").is_none());
/// ```
#[tactic(auto, unfolding(crate::specs::Grammar::line_meaning))]
pub fn read_line<'a>(limits: &MapLimits, line: &'a str) -> Option<Line<'a>>
    requires limits { AreLimits limits.now }
    ensures meaning { option_map meaning_of result ≡ line_meaning limits.now line.now }
    ensures fits { IfSome result (LineFits limits.now) }
{
    match kind_of(line) {
        LineKind::TooLong => None,
        LineKind::Comment => Some(Line::Comment),
        LineKind::Words => words_line(limits, line),
    }
}
