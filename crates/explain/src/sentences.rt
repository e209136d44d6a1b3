// How it is said: texts with gaps, and what stands in these. They are data: so an arm of a wide match says one and writes nothing, and one function
// writes them all. What a proof keeps of an arm that writes grows with the ways out of its function.

ghost use Rattle.std.specs.Prelude.{◌≡◌, ◌++◌, [], ◌∷◌, codes, decimal, map, IfOk, OnOk};
ghost use Rattle.std.specs.List.{concat};
ghost use Rattle.std.specs.String.{string_bytes};
ghost use Rattle.explain.specs.Told.{EndsWith};
ghost use Rattle.explain.specs.Words.{kind_words, offset_words};

use itoa::Buffer;
use regkind::Kind;
use std::alloc::{AllocError, Global};
use std::fmt::Write;
use verifier::VerifyFault;

// The outcome of adding to a text: done, or no memory is left.
pub(crate) type Written = Result<(), AllocError>;

// Adds these texts, one behind another.
pub(crate) fn put_all(out: &mut String, pieces: &[&str]) -> Written
    ensures { OnOk result (string_bytes out.new ≡ string_bytes out.old ++ concat (map (λ p. p.now) pieces.now)) }
{
    for piece in pieces {
        out.push_str(piece)?;
    }
    Ok(())
}

// Adds two numbers, each behind a text.
pub(crate) fn put_numbers(out: &mut String, a: &str, first: u32, b: &str, second: u32) -> Written
    ensures { OnOk result (string_bytes out.new ≡ string_bytes out.old ++ concat (a.now ∷ decimal first ∷ b.now ∷ decimal second ∷ [])) }
{
    let (mut one, mut other) = (Buffer::new(), Buffer::new());
    put_all(out, &[a, one.format(first), b, other.format(second)])
}

// What stands in a gap.
#[derive(Clone, Copy)]
pub(crate) enum Word<'a> {
    Nothing,
    Text(&'a str),
    Count(usize),
    // A register's or a map's number, or another small one.
    Small(u8),
    Number(i64),
    // A number of a manifest.
    Field(u64),
    // A byte, in two hexadecimal digits or as a character.
    Hex(u8),
    Character(u8),
    Register(u8),
    // What a register has.
    Known(Kind),
    // A number of bytes.
    Bytes(usize),
    // The first and the last of some places in a row.
    Range(i64, i64),
    Fault(VerifyFault),
}

// The offset of a pointer in its region.
pub(crate) fn offset_of(kind: Kind) -> i64 {
    match kind {
        Kind::Stack(offset) => i64::from(offset),
        Kind::Arg(offset) => i64::from(offset),
        Kind::Value(_, offset) => i64::from(offset),
        _ => 0,
    }
}

// Adds a text, and then an offset where it is not 0.
fn put_offset(out: &mut String, text: &str, offset: i16) -> Written
    ensures { OnOk result (string_bytes out.new ≡ string_bytes out.old ++ concat (text.now ∷ offset_words offset ∷ [])) }
{
    if offset == 0 {
        return out.push_str(text);
    }
    let mut digits = Buffer::new();
    let sign = if offset > 0 { " +" } else { " " };
    put_all(out, &[text, sign, digits.format(offset)])
}

// Adds what a register has.
pub(crate) fn put_kind(out: &mut String, kind: Kind) -> Written
    ensures { OnOk result (string_bytes out.new ≡ string_bytes out.old ++ kind_words kind) }
{
    let mut digits = Buffer::new();
    match kind {
        Kind::Unreadable => out.push_str("unreadable"),
        Kind::Scalar => out.push_str("a number"),
        Kind::Stack(0) => out.push_str("stack end"),
        Kind::Stack(offset) => put_offset(out, "stack", offset),
        Kind::Arg(offset) => put_offset(out, "argument", offset),
        Kind::Map(map) => put_all(out, &["map ", digits.format(map)]),
        Kind::Value(map, offset) => {
            out.push_str("value of map ")?;
            put_offset(out, digits.format(map), offset)
        }
        Kind::ValueOrNull(map) => put_all(out, &["value of map ", digits.format(map), ", or null"]),
    }
}

impl Word<'_> {
    // Adds it.
    fn put(self, out: &mut String) -> Written {
        match self {
            Word::Nothing => Ok(()),
            Word::Text(text) => out.push_str(text),
            Word::Count(count) => write!(out, "{count}"),
            Word::Small(number) => write!(out, "{number}"),
            Word::Number(number) => write!(out, "{number}"),
            Word::Field(number) => write!(out, "{number}"),
            Word::Hex(byte) => write!(out, "{byte:02x}"),
            Word::Character(byte) => out.push(char::from(byte)),
            Word::Register(register) => write!(out, "r{register}"),
            Word::Known(kind) => put_kind(out, kind),
            Word::Bytes(1) => out.push_str("1 byte"),
            Word::Bytes(count) => write!(out, "{count} bytes"),
            Word::Range(first, last) if first == last => write!(out, "{first}"),
            Word::Range(first, last) => write!(out, "{first} to {last}"),
            Word::Fault(fault) => write!(out, "{fault}"),
        }
    }
}

// What is wrong and what to do about it.
#[derive(Clone, Copy)]
pub(crate) struct Advice<'a> {
    // One behind the other. Their gaps are `{0}`, `{1}` and so on, and a bar stands before what to do.
    texts: [&'a str; 2],
    // What stands in the gaps, in order.
    words: [Word<'a>; 11],
}

// What is told in a text with these words in its gaps, of which there are eleven at most.
pub(crate) fn say<'a>(text: &'a str, words: &[Word<'a>]) -> Advice<'a> {
    say_both([text, ""], words)
}

// What is told in two texts.
pub(crate) fn say_both<'a>(texts: [&'a str; 2], words: &[Word<'a>]) -> Advice<'a> {
    let mut all = [Word::Nothing; 11];
    for k in 0..words.len().min(11) {
        all[k] = words[k];
    }
    Advice { texts, words: all }
}

// Adds a text with what stands in its gaps.
pub(crate) fn put(out: &mut String, text: &str, words: &[Word<'_>]) -> Written {
    for part in text.split('{') {
        let (index, rest) = part.split_once('}').unwrap_or(("", part));
        let index = index.parse::<usize>().ok();
        if let Some(word) = index.and_then(|index| words.get(index)) {
            word.put(out)?;
        }
        out.push_str(rest)?;
    }
    Ok(())
}

impl<'a> Advice<'a> {
    // With this in place of the second text.
    pub(crate) fn and(self, text: &'a str) -> Advice<'a> {
        let Advice {
            texts: [first, _],
            words,
        } = self;
        Advice {
            texts: [first, text],
            words,
        }
    }

    // What is wrong, and what to do about it, as two texts.
    pub(crate) fn parts(&self, alloc: Global) -> Result<(String, String), AllocError> {
        let (mut wrong, mut to_do) = (String::new(alloc), String::new(alloc));
        for text in &self.texts {
            let (what, fix) = text.split_once('|').unwrap_or((*text, ""));
            put(&mut wrong, what, &self.words)?;
            put(&mut to_do, fix, &self.words)?;
        }
        Ok((wrong, to_do))
    }

    // `put`, but into a new text.
    pub(crate) fn text(&self, alloc: Global, to_do: &str) -> Result<String, AllocError>
        ensures { IfOk result (λ s. EndsWith (codes "\n") (string_bytes s)) }
    {
        let mut out = String::new(alloc);
        self.put(&mut out, to_do)?;
        Ok(out)
    }

    // Adds it and ends the line; what to do stands behind this.
    pub(crate) fn put(&self, out: &mut String, to_do: &str) -> Written
        ensures { OnOk result (EndsWith (codes "\n") (string_bytes out.new)) }
    {
        for text in &self.texts {
            let (what, fix) = text.split_once('|').unwrap_or((*text, ""));
            put(out, what, &self.words)?;
            if !fix.is_empty() {
                out.push_str(to_do)?;
                put(out, fix, &self.words)?;
            }
        }
        out.push_str("\n")
    }
}
