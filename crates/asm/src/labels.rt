// Lines by what they hold, and where labels stand.

ghost use Rattle.std.specs.Prelude.{◌≡◌, ℕ, List, IfOk, OnOk};
ghost use Rattle.asm.specs.Labels.{line_of, shown_line, marks_of, marks_from, slots_of_word, noted};
ghost use Rattle.text.specs.Lines.{lines_of};

use crate::operands::is_label;
use crate::tokens::{Stop, split, visible};
use crate::words::{Mnemonic, mnemonic_of};
use std::alloc::{AllocError, Global};
use std::collections::BTreeMap;
use text::NumberedLines;

// What a line holds.
#[derive(Clone, Copy)]
pub(crate) enum Line<'a> {
    // White space and a comment at most.
    Blank,
    // A label, and whether something stands behind it.
    Label { name: &'a [u8], is_followed: bool },
    // Any other word, and what stands behind it.
    Word { word: &'a [u8], rest: &'a [u8] },
}

// The instruction's slot, and the line, that a label names and stands on.
#[derive(Clone, Copy)]
pub(crate) struct Mark {
    pub slot: u64,
    pub line: u32,
}

// The first line of each label.
#[derive(Drop)]
pub(crate) struct Labels<'a> {
    marks: BTreeMap<&'a [u8], Mark>,
}

#[tactic(auto, unfolding(crate::specs::Labels::line_of, crate::specs::Labels::word_or_label))]
pub(crate) fn read_line(line: &[u8]) -> Line<'_>
    ensures { shown_line result ≡ line_of line.now }
{
    let (code, _) = split(line, Stop::Semicolon);
    let code = visible(code);
    if code.is_empty() {
        return Line::Blank;
    }
    let (word, rest) = split(code, Stop::TokenEnd);
    let (name, behind) = split(word, Stop::Colon);
    if !behind.is_empty() && is_label(name) {
        let is_followed = behind.len() > 1 || !visible(rest).is_empty();
        Line::Label { name, is_followed }
    } else {
        Line::Word { word, rest }
    }
}

// How many slots an instruction with this word takes.
fn slots_of_word(word: &[u8]) -> u64
    ensures { result ≡ slots_of_word word.now }
{
    match mnemonic_of(word) {
        Some(Mnemonic::Imm64) | Some(Mnemonic::MapRef) => 2,
        _ => 1,
    }
}

impl<'a> Labels<'a> {
    // The labels of a text.
    pub fn read(alloc: Global, text: &'a str) -> Result<Labels<'a>, AllocError>
        ensures { IfOk result (λ labels. (q : List ℕ) → marks_of labels q ≡ marks_from 1 0 (lines_of text.now) q) }
    {
        let mut labels = Labels {
            marks: BTreeMap::new(alloc),
        };
        let mut slot = 0u64;
        let mut lines = NumberedLines::new(text);
        while let Some((line, text)) = lines.take_line() {
            match read_line(text.as_bytes()) {
                Line::Blank => {}
                Line::Label { name, .. } => labels.note(name, Mark { slot, line })?,
                Line::Word { word, .. } => slot = slot.saturating_add(slots_of_word(word)),
            }
        }
        Ok(labels)
    }

    // Notes where a label stands, unless it stood before.
    fn note(&mut self, name: &'a [u8], mark: Mark) -> Result<(), AllocError>
        ensures { OnOk result ((q : List ℕ) → marks_of self.new q ≡ noted (marks_of self.old q) name.now mark q) }
    {
        if self.find(name).is_none() {
            self.marks.insert(name, mark)?;
        }
        Ok(())
    }

    // Where the label stands first.
    pub fn find(&self, name: &'a [u8]) -> Option<Mark>
        ensures { result ≡ marks_of self.now name.now }
    {
        self.marks.get(&name).copied()
    }
}
