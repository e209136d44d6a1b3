// Where a line is wrong.

ghost use Rattle.std.specs.Prelude.{◌≡◌, ◌≤◌, length};
ghost use Rattle.asm.specs.Places.{address_checked, bits_of, checked, long_checked, number_checked, source_checked, is_refused_by, is_target, is_wrong, kinds_said, place_in, rest_of, wrong, wrong_behind, wrong_in, wrong_operand, operand_kinds};
ghost use Rattle.asm.specs.Tokens.{result_map};
ghost use Rattle.asm.specs.Words.{meaning_of};

use crate::forms::{imm, off, source_form};
use crate::operands::{number, read_address, read_target, register, source, within};
use crate::refusals::AsmFault;
use crate::tokens::{Stop, split, visible};
use crate::words::{Mnemonic, mnemonic_of};
use OperandKind::{Address, Bits, Long, Number, Register, Source, Target};

/// What an operand of an instruction is.
#[derive(Clone, Copy)]
pub enum OperandKind {
    /// `r0` to `r10`.
    Register,
    /// A register or a number of 32 bits.
    Source,
    /// A number of 32 bits.
    Number,
    /// A number of 64 bits, signed or not.
    Long,
    /// How many bits are extended: 8 or 16, and 32 if this is true.
    Bits(bool),
    /// A base register and an offset of 16 bits.
    Address,
    /// Where a jump leads.
    Target,
}

/// The place of a line that is wrong.
#[derive(Clone, Copy)]
pub struct Place {
    /// How many bytes of the line stand before it.
    pub at: usize,
    /// The operand that is wanted there, if one is.
    pub wanted: Option<OperandKind>,
}

// The text from the place on that is wrong, and the operand that is wanted there.
#[derive(Clone, Copy)]
struct Wrong<'a> {
    from: &'a [u8],
    wanted: Option<OperandKind>,
}

// What stands behind a word.
fn operand_kinds(mnemonic: Mnemonic) -> &'static [OperandKind]
    ensures { result.now ≡ operand_kinds mnemonic }
{
    match mnemonic {
        Mnemonic::Alu(_, _) => &[Register, Source],
        Mnemonic::Neg(_) | Mnemonic::Swap(_, _) => &[Register],
        Mnemonic::MovSx(true) => &[Register, Register, Bits(true)],
        Mnemonic::MovSx(false) => &[Register, Register, Bits(false)],
        Mnemonic::Load(_, _) => &[Register, Address],
        Mnemonic::StoreImm(_) => &[Address, Number],
        Mnemonic::StoreReg(_) => &[Address, Register],
        Mnemonic::Imm64 => &[Register, Long],
        Mnemonic::MapRef => &[Register, Number],
        Mnemonic::Ja(_) => &[Target],
        Mnemonic::Branch(_, _) => &[Register, Source, Target],
        Mnemonic::Call => &[Number],
        Mnemonic::Exit => &[],
    }
}

// What stands behind a word; nothing where it is none of an instruction.
fn kinds_of(word: &[u8]) -> &'static [OperandKind]
    ensures { result.now ≡ kinds_said (meaning_of word.now) }
{
    match mnemonic_of(word) {
        Some(mnemonic) => operand_kinds(mnemonic),
        None => &[],
    }
}

// A sign is extended from so many bits.
fn check_bits(w64: bool, bits: i128) -> Result<(), AsmFault>
    ensures { result ≡ bits_of w64 bits }
{
    if bits == 8 || bits == 16 || w64 && bits == 32 {
        Ok(())
    } else {
        Err(AsmFault::OutOfRange)
    }
}

// What is read is right, or by which rule it is not.
fn fault_of<T: Drop>(read: Result<T, AsmFault>) -> Result<(), AsmFault>
    ensures { result ≡ result_map (λ _. tt) read }
{
    match read {
        Ok(_) => Ok(()),
        Err(why) => Err(why),
    }
}

fn check_source(operand: &[u8]) -> Result<(), AsmFault>
    ensures { result ≡ source_checked operand.now }
{
    fault_of(source_form(source(operand)?))
}

fn check_number(operand: &[u8]) -> Result<(), AsmFault>
    ensures { result ≡ number_checked operand.now }
{
    fault_of(imm(number(operand)?))
}

fn check_long(operand: &[u8]) -> Result<(), AsmFault>
    ensures { result ≡ long_checked operand.now }
{
    let (low, high) = (-0x8000_0000_0000_0000, 0xffff_ffff_ffff_ffff);
    fault_of(within(low, high, AsmFault::OutOfRange, number(operand)?))
}

fn check_address(operand: &[u8]) -> Result<(), AsmFault>
    ensures { result ≡ address_checked operand.now }
{
    fault_of(off(read_address(operand)?.off))
}

// An operand is right by itself, or by which rule it is not.
#[tactic(auto, unfolding(crate::specs::Places::checked))]
fn check(kind: OperandKind, operand: &[u8]) -> Result<(), AsmFault>
    ensures { result ≡ checked kind operand.now }
{
    match kind {
        Register => fault_of(register(operand)),
        Source => check_source(operand),
        Number => check_number(operand),
        Long => check_long(operand),
        Bits(w64) => check_bits(w64, number(operand)?),
        Address => check_address(operand),
        Target => fault_of(read_target(operand)),
    }
}

// This rule refuses it.
fn is_refused_by(why: AsmFault, checked: Result<(), AsmFault>) -> bool
    ensures { result ≡ is_refused_by why checked }
{
    match checked {
        Ok(()) => false,
        Err(fault) => fault.number() == why.number(),
    }
}

fn is_target(kind: OperandKind) -> bool
    ensures { result ≡ is_target kind }
{
    matches!(kind, Target)
}

// An operand is wrong by a rule.
fn is_wrong(why: AsmFault, kind: OperandKind, operand: &[u8]) -> bool
    ensures { result ≡ is_wrong why kind operand.now }
{
    match why {
        AsmFault::UnknownLabel | AsmFault::JumpTooFar => is_target(kind),
        _ => is_refused_by(why, check(kind, operand)),
    }
}

// Of operands of these kinds the first one that is wrong; where none is, the end of the last one that stands there.
#[tactic(auto, unfolding(crate::specs::Places::wrong_operand))]
fn wrong_operand<'a>(why: AsmFault, kinds: &[OperandKind], text: &'a [u8]) -> Wrong<'a>
    ensures { wrong result.from.now result.wanted ≡ wrong_operand why kinds.now text.now }
{
    let [kind, others @ ..] = kinds else {
        return Wrong {
            from: text,
            wanted: None,
        };
    };
    let from = visible(text);
    let (operand, behind) = split(from, Stop::TokenEnd);
    if is_wrong(why, *kind, operand) {
        let wanted = Some(*kind);
        return Wrong { from, wanted };
    }
    match visible(behind) {
        [b',', rest @ ..] if !others.is_empty() => wrong_operand(why, others, rest),
        _ => Wrong {
            from: behind,
            wanted: None,
        },
    }
}

// What is wrong behind the word of a line without its comment.
#[tactic(auto, unfolding(crate::specs::Places::wrong_behind))]
fn wrong_behind(why: AsmFault, code: &[u8]) -> Wrong<'_>
    ensures { wrong result.from.now result.wanted ≡ wrong_behind why code.now }
{
    let (word, rest) = split(visible(code), Stop::TokenEnd);
    wrong_operand(why, kinds_of(word), rest)
}

// What stands behind a label, or else behind the last operand.
#[tactic(auto, unfolding(crate::specs::Places::rest_of))]
fn rest_of(code: &[u8]) -> &[u8]
    ensures { result.now ≡ rest_of code.now }
{
    let from = visible(code);
    let (word, _) = split(from, Stop::TokenEnd);
    if split(word, Stop::Colon).1.is_empty() {
        return wrong_behind(AsmFault::TextBehind, code).from;
    }
    match split(from, Stop::Colon).1 {
        [_, rest @ ..] => rest,
        [] => &[],
    }
}

// What is wrong in a line without its comment.
fn wrong_in(why: AsmFault, code: &[u8]) -> Wrong<'_>
    ensures { wrong result.from.now result.wanted ≡ wrong_in why code.now }
{
    let from = match why {
        AsmFault::UnknownWord | AsmFault::LabelTwice | AsmFault::TooLong => visible(code),
        AsmFault::TextBehind => visible(rest_of(code)),
        _ => return wrong_behind(why, code),
    };
    Wrong { from, wanted: None }
}

/// Where a line is wrong that is refused by this rule, in bytes, and the operand that is wanted there.
///
/// A1, A5 and A7: the word. A2 and A3: the first operand that the rule refuses by itself, and where none is, the end of the last operand. A4 and A6: the
/// target. A8: what stands behind the label or the last operand.
pub fn place_of(line: &str, why: AsmFault) -> Place
    ensures place { result ≡ place_in why line.now }
    // It lies in the line, or at its end.
    ensures within { result.at ≤ length line.now }
{
    let (code, _) = split(line.as_bytes(), Stop::Semicolon);
    let Wrong { from, wanted } = wrong_in(why, code);
    let at = code.len().saturating_sub(from.len());
    Place { at, wanted }
}
