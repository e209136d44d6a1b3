// What a word and its operands mean.

ghost use Rattle.std.specs.Prelude.{◌≡◌, ◌⊎◌, false, true, FitsSigned, IfOk};
ghost use Rattle.std.specs.Int.{w16, w32};
ghost use Rattle.insn.specs.Encoding.{FitsJump, HasEncoding, IsSource, MayLoad};
ghost use Rattle.asm.specs.Words.{HasWord};
ghost use Rattle.asm.specs.Tokens.{parts_of};
ghost use Rattle.asm.specs.Labels.{marks_of};
ghost use Rattle.asm.specs.Forms.{imm_of, off_of, source_form, distance_of, jump_of, alu_of, neg_of, movsx_of, swap_of, load_of, store_imm_of, store_reg_of, imm64_of, map_ref_of, ja_of, branch_of, call_of, form_of};
ghost use Rattle.asm.specs.Operands.{shown_target, IsWritten};

use crate::labels::Labels;
use crate::operands::{
    Target, Written, number, read_address, read_target, register, source, within,
};
use crate::refusals::AsmFault;
use crate::tokens::Operands;
use crate::words::Mnemonic;
use insn::{Condition, Form, Operation, Order, Size, Source};

pub(crate) fn imm(number: i128) -> Result<i32, AsmFault>
    ensures value { result ≡ imm_of number }
    ensures fits { IfOk result (FitsSigned w32) }
{
    Ok(within(-0x8000_0000, 0x7fff_ffff, AsmFault::OutOfRange, number)? as i32)
}

pub(crate) fn off(number: i128) -> Result<i16, AsmFault>
    ensures value { result ≡ off_of number }
    ensures fits { IfOk result (FitsSigned w16) }
{
    Ok(within(-0x8000, 0x7fff, AsmFault::OutOfRange, number)? as i16)
}

pub(crate) fn source_form(written: Written) -> Result<Source, AsmFault>
    requires { IsWritten written }
    ensures value { result ≡ source_form written }
    ensures fits { IfOk result IsSource }
{
    match written {
        Written::Reg(register) => Ok(Source::Reg(register)),
        Written::Number(number) => Ok(Source::Imm(imm(number)?)),
    }
}

// How many slots a jump at this slot goes, counted from the next one.
fn distance<'a>(labels: &Labels<'a>, slot: u64, target: Target<'a>) -> Result<i128, AsmFault>
    ensures { result ≡ distance_of (marks_of labels.now) slot (shown_target target.entry) }
{
    match target {
        Target::By(by) => Ok(by),
        Target::Label(name) => match labels.find(name) {
            Some(mark) => Ok(i128::from(mark.slot) - (i128::from(slot) + 1)),
            None => Err(AsmFault::UnknownLabel),
        },
    }
}

// How far a jump by 16 bits goes.
fn near(by: i128) -> Result<i16, AsmFault>
    ensures value { result ≡ jump_of false by }
    ensures fits { IfOk result (FitsSigned w16) }
{
    Ok(within(-0x8000, 0x7fff, AsmFault::JumpTooFar, by)? as i16)
}

// How far a jump by 32 bits goes.
fn far(by: i128) -> Result<i32, AsmFault>
    ensures value { result ≡ jump_of true by }
    ensures fits { IfOk result (FitsSigned w32) }
{
    Ok(within(-0x8000_0000, 0x7fff_ffff, AsmFault::JumpTooFar, by)? as i32)
}

// How far a jump goes, by 32 bits or by 16.
fn jump(long: bool, by: i128) -> Result<i32, AsmFault>
    ensures value { result ≡ jump_of long by }
    ensures fits { IfOk result (FitsJump long) }
{
    if long {
        far(by)
    } else {
        Ok(i32::from(near(by)?))
    }
}

#[tactic(auto, unfolding(crate::specs::Forms::alu_of))]
fn alu(w64: bool, op: Operation, operands: &Operands<'_>) -> Result<Form, AsmFault>
    ensures value { result ≡ alu_of w64 op (parts_of operands.now) }
    ensures encoded { IfOk result HasEncoding }
{
    let dst = register(operands.first)?;
    let src = source_form(source(operands.second)?)?;
    Ok(Form::Alu { w64, op, dst, src })
}

fn neg(w64: bool, operands: &Operands<'_>) -> Result<Form, AsmFault>
    ensures value { result ≡ neg_of w64 (parts_of operands.now) }
    ensures encoded { IfOk result HasEncoding }
{
    let dst = register(operands.first)?;
    Ok(Form::Neg { w64, dst })
}

#[tactic(auto, unfolding(crate::specs::Forms::movsx_of))]
fn movsx(w64: bool, operands: &Operands<'_>) -> Result<Form, AsmFault>
    ensures value { result ≡ movsx_of w64 (parts_of operands.now) }
    ensures encoded { IfOk result HasEncoding }
{
    let dst = register(operands.first)?;
    let src = register(operands.second)?;
    let bits = number(operands.third)?;
    if bits == 8 || bits == 16 || w64 && bits == 32 {
        let bits = bits as u8;
        Ok(Form::MovSx {
            w64,
            bits,
            dst,
            src,
        })
    } else {
        Err(AsmFault::OutOfRange)
    }
}

fn swap(order: Order, bits: u8, operands: &Operands<'_>) -> Result<Form, AsmFault>
    requires { ((bits ≡ 16) ⊎ (bits ≡ 32)) ⊎ (bits ≡ 64) }
    ensures value { result ≡ swap_of order bits (parts_of operands.now) }
    ensures encoded { IfOk result HasEncoding }
{
    let dst = register(operands.first)?;
    Ok(Form::Swap { order, bits, dst })
}

#[tactic(auto, unfolding(crate::specs::Forms::load_of))]
fn load(size: Size, signed: bool, operands: &Operands<'_>) -> Result<Form, AsmFault>
    requires { MayLoad size signed }
    ensures value { result ≡ load_of size signed (parts_of operands.now) }
    ensures encoded { IfOk result HasEncoding }
{
    let dst = register(operands.first)?;
    let address = read_address(operands.second)?;
    let off = off(address.off)?;
    Ok(Form::Load {
        size,
        signed,
        dst,
        src: address.base,
        off,
    })
}

#[tactic(auto, unfolding(crate::specs::Forms::store_imm_of))]
fn store_imm(size: Size, operands: &Operands<'_>) -> Result<Form, AsmFault>
    ensures value { result ≡ store_imm_of size (parts_of operands.now) }
    ensures encoded { IfOk result HasEncoding }
{
    let address = read_address(operands.first)?;
    let number = number(operands.second)?;
    let off = off(address.off)?;
    let src = Source::Imm(imm(number)?);
    Ok(Form::Store {
        size,
        dst: address.base,
        off,
        src,
    })
}

#[tactic(auto, unfolding(crate::specs::Forms::store_reg_of))]
fn store_reg(size: Size, operands: &Operands<'_>) -> Result<Form, AsmFault>
    ensures value { result ≡ store_reg_of size (parts_of operands.now) }
    ensures encoded { IfOk result HasEncoding }
{
    let address = read_address(operands.first)?;
    let src = Source::Reg(register(operands.second)?);
    let off = off(address.off)?;
    Ok(Form::Store {
        size,
        dst: address.base,
        off,
        src,
    })
}

#[tactic(auto, unfolding(crate::specs::Forms::imm64_of))]
fn imm64(operands: &Operands<'_>) -> Result<Form, AsmFault>
    ensures value { result ≡ imm64_of (parts_of operands.now) }
    ensures encoded { IfOk result HasEncoding }
{
    let dst = register(operands.first)?;
    let number = number(operands.second)?;
    let value = within(
        -0x8000_0000_0000_0000,
        0xffff_ffff_ffff_ffff,
        AsmFault::OutOfRange,
        number,
    )?;
    let value = if value < 0 {
        (value as i64).cast_unsigned()
    } else {
        value as u64
    };
    Ok(Form::Imm64 { dst, value })
}

#[tactic(auto, unfolding(crate::specs::Forms::map_ref_of))]
fn map_ref(operands: &Operands<'_>) -> Result<Form, AsmFault>
    ensures value { result ≡ map_ref_of (parts_of operands.now) }
    ensures encoded { IfOk result HasEncoding }
{
    let dst = register(operands.first)?;
    let index = imm(number(operands.second)?)?;
    Ok(Form::MapRef { dst, index })
}

#[tactic(auto, unfolding(crate::specs::Forms::ja_of))]
fn ja<'a>(
    labels: &Labels<'a>,
    slot: u64,
    long: bool,
    operands: &Operands<'a>,
) -> Result<Form, AsmFault>
    ensures value { result ≡ ja_of (marks_of labels.now) slot long (parts_of operands.now) }
    ensures encoded { IfOk result HasEncoding }
{
    let target = read_target(operands.first)?;
    let by = jump(long, distance(labels, slot, target)?)?;
    Ok(Form::Ja { long, by })
}

#[tactic(auto, unfolding(crate::specs::Forms::branch_of))]
fn branch<'a>(
    labels: &Labels<'a>,
    slot: u64,
    w64: bool,
    cond: Condition,
    operands: &Operands<'a>,
) -> Result<Form, AsmFault>
    ensures value { result ≡ branch_of (marks_of labels.now) slot w64 cond (parts_of operands.now) }
    ensures encoded { IfOk result HasEncoding }
{
    let dst = register(operands.first)?;
    let src = source(operands.second)?;
    let target = read_target(operands.third)?;
    let src = source_form(src)?;
    let off = near(distance(labels, slot, target)?)?;
    Ok(Form::Branch {
        w64,
        cond,
        dst,
        src,
        off,
    })
}

fn call(operands: &Operands<'_>) -> Result<Form, AsmFault>
    ensures value { result ≡ call_of (parts_of operands.now) }
    ensures encoded { IfOk result HasEncoding }
{
    let id = imm(number(operands.first)?)?;
    Ok(Form::Call { id })
}

// The instruction of this word and these operands, at this slot.
#[tactic(auto, unfolding(crate::specs::Forms::form_of))]
pub(crate) fn read_form<'a>(
    labels: &Labels<'a>,
    slot: u64,
    mnemonic: Mnemonic,
    operands: &Operands<'a>,
) -> Result<Form, AsmFault>
    requires { HasWord mnemonic }
    ensures value { result ≡ form_of (marks_of labels.now) slot mnemonic (parts_of operands.now) }
    ensures encoded { IfOk result HasEncoding }
{
    match mnemonic {
        Mnemonic::Alu(w64, op) => alu(w64, op, operands),
        Mnemonic::Neg(w64) => neg(w64, operands),
        Mnemonic::MovSx(w64) => movsx(w64, operands),
        Mnemonic::Swap(order, bits) => swap(order, bits, operands),
        Mnemonic::Load(size, signed) => load(size, signed, operands),
        Mnemonic::StoreImm(size) => store_imm(size, operands),
        Mnemonic::StoreReg(size) => store_reg(size, operands),
        Mnemonic::Imm64 => imm64(operands),
        Mnemonic::MapRef => map_ref(operands),
        Mnemonic::Ja(long) => ja(labels, slot, long, operands),
        Mnemonic::Branch(w64, cond) => branch(labels, slot, w64, cond, operands),
        Mnemonic::Call => call(operands),
        Mnemonic::Exit => Ok(Form::Exit),
    }
}
