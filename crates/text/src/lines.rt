// The lines of a text, and which of them say something.

ghost use Rattle.std.specs.Prelude.{◌≡◌, ◌<◌, ◌≤◌, ◌∷◌, length, option_map};
ghost use Rattle.text.specs.Lines.{lines_of, kind_of, Takes};

use std::marker::Model;

/// How many bytes a line has at most, its line feed not counted.
pub const LINE_BYTES: usize = 512;

/// The lines of a text that are left, and the number of the first of them: the text's first line has number 1, and a
/// number past 2^32 - 1 stays there.
#[derive(Drop)]
pub struct NumberedLines<'a> {
    rest: &'a str,
    number: u32,
}

impl<'a> Model for NumberedLines<'a> {
    ghost use Rattle.text.specs.Lines.{lines_of, LinesLeft};

    ghost Value = { LinesLeft };

    ghost view = { λ l. record { number = l.number; lines = lines_of l.rest.now } };
}

impl<'a> NumberedLines<'a> {
    /// All lines of a text.
    pub fn new(text: &'a str) -> NumberedLines<'a>
        ensures all { result ≡ record { number = 1; lines = lines_of text.now } }
    {
        NumberedLines {
            rest: text,
            number: 1,
        }
    }

    /// The number of the next line, or of the one behind the last.
    pub fn number(&self) -> u32
        ensures number { result ≡ self.now.number }
    {
        self.number
    }

    /// Takes the next line, without its line feed, and its number; `None` behind the last.
    pub fn take_line(&mut self) -> Option<(u32, &'a str)>
        ensures taken { Takes self.old self.new (option_map (λ l. (l.0, l.1.now)) result) }
    {
        if self.rest.is_empty() {
            return None;
        }
        let (line, rest) = first_line(self.rest);
        let number = self.number;
        self.rest = rest;
        self.number = number.saturating_add(1);
        Some((number, line))
    }
}

// The first line of a text that is not empty, and what stands behind its line feed.
fn first_line(text: &str) -> (&str, &str)
    requires { 0 < length text.now }
    ensures { lines_of text.now ≡ result.0.now ∷ lines_of result.1.now }
{
    match text.split_once('\n') {
        Some((line, rest)) => (line, rest),
        None => (text, ""),
    }
}

/// What a line is before its words are read.
#[derive(Clone, Copy)]
pub enum LineKind {
    /// The line has more than 512 bytes, and is bad whatever it holds.
    TooLong,
    /// The line is empty, or begins with `#`: it says nothing.
    Comment,
    /// The words of the line say something.
    Words,
}

/// What a line is before its words are read.
#[tactic(auto, unfolding(crate::specs::Lines::kind_of))]
pub fn kind_of(line: &str) -> LineKind
    ensures kind { result ≡ kind_of line.now }
    ensures short { result ≡ LineKind.Words → length line.now ≤ LINE_BYTES }
{
    if line.len() > LINE_BYTES {
        return LineKind::TooLong;
    }
    if line.is_empty() || line.as_bytes()[0] == b'#' {
        return LineKind::Comment;
    }
    LineKind::Words
}
