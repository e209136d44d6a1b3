// Text into programs.

ghost use Rattle.std.specs.Prelude.{◌≡◌, ◌≤◌, ◌+◌, Ok, IfOk, MatchResult};
ghost use Rattle.insn.specs.Encoding.{HasEncoding};
ghost use Rattle.insn.specs.Layout.{slot_count};
ghost use Rattle.insn.specs.declared.instruction.TheConstants.{MAX_SLOTS};
ghost use Rattle.asm.specs.Labels.{marks_of};
ghost use Rattle.asm.specs.Refusal.{Fails};
ghost use Rattle.asm.specs.Assembled.{ended, label_of, instruction_of, word_of_line, assembled, MayFollow};

use crate::forms::read_form;
use crate::labels::{Labels, Line, read_line};
use crate::refusals::{AsmError, AsmFault, AsmRefusal};
use crate::tokens::{split_operands, visible};
use crate::words::{mnemonic_of, operand_count};
use insn::{Form, Insn, MAX_SLOTS};
use std::alloc::Global;
use text::NumberedLines;

/// The program that a text says, or the first bad line, and of its faults the one of lowest number. Memory may run out.
///
/// A line holds nothing, a label and a colon, or an instruction; behind `;` it is a comment. docs/LANGUAGE.md has the
/// words and their operands. Takes time in proportion to the text, and for each label to the logarithm of their number.
pub fn assemble(alloc: Global, text: &str) -> Result<Vec<Insn>, AsmError>
    ensures assembled { MatchResult result (λ v. assembled text.now ≡ Ok v.items) (λ e. Fails e (assembled text.now)) }
{
    let labels = Labels::read(alloc, text)?;
    let mut program = Vec::new(alloc);
    let mut slot = 0u64;
    let mut lines = NumberedLines::new(text);
    while let Some((line, text)) = lines.take_line() {
        match instruction(&labels, line, slot, text.as_bytes()) {
            Ok(None) => {}
            Ok(Some(insn)) => {
                slot += insn.slot_count() as u64;
                if program.push(insn).is_err() {
                    return Err(AsmError::NoMemory);
                }
            }
            Err(why) => return Err(AsmError::Refused(AsmRefusal { line, why })),
        }
    }
    Ok(program)
}

// The instruction on a line, if there is one.
fn instruction<'a>(
    labels: &Labels<'a>,
    line: u32,
    slot: u64,
    text: &'a [u8],
) -> Result<Option<Insn>, AsmFault>
    requires { slot ≤ MAX_SLOTS }
    ensures value { result ≡ instruction_of (marks_of labels.now) line slot text.now }
    ensures few { MayFollow slot result }
{
    match read_line(text) {
        Line::Blank => Ok(None),
        Line::Label { name, is_followed } => {
            check_label(labels, line, name, is_followed)?;
            Ok(None)
        }
        Line::Word { word, rest } => Ok(Some(read_word(labels, slot, word, rest)?)),
    }
}

// A label stands on no earlier line, and alone.
fn check_label<'a>(
    labels: &Labels<'a>,
    line: u32,
    name: &'a [u8],
    is_followed: bool,
) -> Result<(), AsmFault>
    ensures { result ≡ label_of (marks_of labels.now) line name.now is_followed }
{
    match labels.find(name) {
        Some(mark) if mark.line != line => Err(AsmFault::LabelTwice),
        _ if is_followed => Err(AsmFault::TextBehind),
        _ => Ok(()),
    }
}

// The instruction with this word.
#[tactic(auto, unfolding(crate::specs::Assembled::word_of_line))]
fn read_word<'a>(
    labels: &Labels<'a>,
    slot: u64,
    word: &'a [u8],
    rest: &'a [u8],
) -> Result<Insn, AsmFault>
    requires { slot ≤ MAX_SLOTS }
    ensures value { result ≡ word_of_line (marks_of labels.now) slot word.now rest.now }
    ensures few { IfOk result (λ i. slot + slot_count i ≤ MAX_SLOTS) }
{
    let mnemonic = mnemonic_of(word).ok_or(AsmFault::UnknownWord)?;
    let operands = split_operands(rest, operand_count(mnemonic))?;
    let form = read_form(labels, slot, mnemonic, &operands)?;
    ended(slot, form, operands.rest)
}

// An instruction that ends within the slots of a program, and its line with it.
fn ended(slot: u64, form: Form, rest: &[u8]) -> Result<Insn, AsmFault>
    requires slot { slot ≤ MAX_SLOTS }
    requires encoded { HasEncoding form }
    ensures value { result ≡ ended slot form rest.now }
    ensures few { IfOk result (λ i. slot + slot_count i ≤ MAX_SLOTS) }
{
    let insn = Insn::new(form).ok_or(AsmFault::OutOfRange)?;
    if slot + insn.slot_count() as u64 > MAX_SLOTS as u64 {
        return Err(AsmFault::TooLong);
    }
    if !visible(rest).is_empty() {
        return Err(AsmFault::TextBehind);
    }
    Ok(insn)
}
