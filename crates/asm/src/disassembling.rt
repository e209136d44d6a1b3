// Programs into text.

ghost use Rattle.std.specs.Prelude.{◌≡◌, ◌++◌, codes, decimal, IfOk, OnOk};
ghost use Rattle.std.specs.Fmt.{signed_decimal};
ghost use Rattle.std.specs.String.{string_bytes};
ghost use Rattle.insn.specs.Encoding.{HasEncoding};
ghost use Rattle.asm.specs.Words.{HasWord};
ghost use Rattle.asm.specs.Text.{mnemonic, register, source, with_sign, address, operands, operand_text, line_text, text_of, with_three, with_two};

use crate::words::{Mnemonic, word};
use insn::{Form, Insn, Source};
use itoa::Buffer;
use std::alloc::{AllocError, Global};

/// The canonical text of a program: a line an instruction, the word, one space, the operands with a comma and a space
/// between them, numbers in decimal. `AllocError`: memory ran out.
pub fn disassemble(alloc: Global, program: &[Insn]) -> Result<String, AllocError>
    ensures text { IfOk result (λ s. string_bytes s ≡ text_of program.now) }
{
    let mut out = String::new(alloc);
    for insn in program {
        put_line(&mut out, insn.form())?;
    }
    Ok(out)
}

// The line of an instruction.
fn put_line(out: &mut String, form: Form) -> Result<(), AllocError>
    requires { HasEncoding form }
    ensures { OnOk result (string_bytes out.new ≡ string_bytes out.old ++ line_text form) }
{
    out.push_str(word(mnemonic(form)))?;
    put_operands(out, form)?;
    out.push_str("\n")
}

// What the word says of an instruction.
fn mnemonic(form: Form) -> Mnemonic
    requires { HasEncoding form }
    ensures said { result ≡ mnemonic form }
    ensures known { HasWord result }
{
    match form {
        Form::Alu { w64, op, .. } => Mnemonic::Alu(w64, op),
        Form::Neg { w64, .. } => Mnemonic::Neg(w64),
        Form::MovSx { w64, .. } => Mnemonic::MovSx(w64),
        Form::Swap { order, bits, .. } => Mnemonic::Swap(order, bits),
        Form::Load { size, signed, .. } => Mnemonic::Load(size, signed),
        Form::Store {
            size,
            src: Source::Imm(_),
            ..
        } => Mnemonic::StoreImm(size),
        Form::Store {
            size,
            src: Source::Reg(_),
            ..
        } => Mnemonic::StoreReg(size),
        Form::Imm64 { .. } => Mnemonic::Imm64,
        Form::MapRef { .. } => Mnemonic::MapRef,
        Form::Ja { long, .. } => Mnemonic::Ja(long),
        Form::Branch { w64, cond, .. } => Mnemonic::Branch(w64, cond),
        Form::Call { .. } => Mnemonic::Call,
        Form::Exit => Mnemonic::Exit,
    }
}

// The operands behind the word.
fn put_operands(out: &mut String, form: Form) -> Result<(), AllocError>
    ensures { OnOk result (string_bytes out.new ≡ string_bytes out.old ++ operand_text (operands form)) }
{
    match form {
        Form::Alu { dst, src, .. } => put_two(out, dst, src),
        Form::Neg { dst, .. } | Form::Swap { dst, .. } => put_register(out, " ", dst),
        Form::MovSx { bits, dst, src, .. } => put_extension(out, bits, dst, src),
        Form::Load { dst, src, off, .. } => put_load(out, dst, src, off),
        Form::Store { dst, off, src, .. } => put_store(out, dst, off, src),
        Form::Imm64 { dst, value } => put_wide(out, dst, value),
        Form::MapRef { dst, index } => put_map(out, dst, index),
        Form::Ja { by, .. } => put_with_sign(out, " ", by),
        Form::Branch { dst, src, off, .. } => put_branch(out, dst, src, off),
        Form::Call { id } => put_signed(out, " ", id),
        Form::Exit => Ok(()),
    }
}

// A register and a second operand.
fn put_two(out: &mut String, dst: u8, src: Source) -> Result<(), AllocError>
    ensures { OnOk result (string_bytes out.new ≡ with_two (string_bytes out.old) (register dst) (source src)) }
{
    put_register(out, " ", dst)?;
    put_source(out, ", ", src)
}

fn put_extension(out: &mut String, bits: u8, dst: u8, src: u8) -> Result<(), AllocError>
    ensures { OnOk result (string_bytes out.new ≡ with_three (string_bytes out.old) (register dst) (register src) (decimal bits)) }
{
    put_two(out, dst, Source::Reg(src))?;
    put_number(out, ", ", bits as u64)
}

fn put_load(out: &mut String, dst: u8, src: u8, off: i16) -> Result<(), AllocError>
    ensures { OnOk result (string_bytes out.new ≡ with_two (string_bytes out.old) (register dst) (address src off)) }
{
    put_register(out, " ", dst)?;
    put_address(out, ", ", src, off)
}

fn put_store(out: &mut String, dst: u8, off: i16, src: Source) -> Result<(), AllocError>
    ensures { OnOk result (string_bytes out.new ≡ with_two (string_bytes out.old) (address dst off) (source src)) }
{
    put_address(out, " ", dst, off)?;
    put_source(out, ", ", src)
}

fn put_wide(out: &mut String, dst: u8, value: u64) -> Result<(), AllocError>
    ensures { OnOk result (string_bytes out.new ≡ with_two (string_bytes out.old) (register dst) (decimal value)) }
{
    put_register(out, " ", dst)?;
    put_number(out, ", ", value)
}

fn put_map(out: &mut String, dst: u8, index: i32) -> Result<(), AllocError>
    ensures { OnOk result (string_bytes out.new ≡ with_two (string_bytes out.old) (register dst) (signed_decimal index)) }
{
    put_register(out, " ", dst)?;
    put_signed(out, ", ", index)
}

fn put_branch(out: &mut String, dst: u8, src: Source, off: i16) -> Result<(), AllocError>
    ensures { OnOk result (string_bytes out.new ≡ with_three (string_bytes out.old) (register dst) (source src) (with_sign off)) }
{
    put_two(out, dst, src)?;
    put_with_sign(out, ", ", off as i32)
}

// A number behind this text, and the same of what follows.
fn put_number(out: &mut String, before: &str, n: u64) -> Result<(), AllocError>
    ensures { OnOk result (string_bytes out.new ≡ string_bytes out.old ++ (before.now ++ decimal n)) }
{
    let mut digits = Buffer::new();
    out.push_str(before)?;
    out.push_str(digits.format(n))
}

fn put_signed(out: &mut String, before: &str, n: i32) -> Result<(), AllocError>
    ensures { OnOk result (string_bytes out.new ≡ string_bytes out.old ++ (before.now ++ signed_decimal n)) }
{
    let mut digits = Buffer::new();
    out.push_str(before)?;
    out.push_str(digits.format(n))
}

fn put_register(out: &mut String, before: &str, r: u8) -> Result<(), AllocError>
    ensures { OnOk result (string_bytes out.new ≡ string_bytes out.old ++ (before.now ++ register r)) }
{
    out.push_str(before)?;
    put_number(out, "r", r as u64)
}

fn put_source(out: &mut String, before: &str, src: Source) -> Result<(), AllocError>
    ensures { OnOk result (string_bytes out.new ≡ string_bytes out.old ++ (before.now ++ source src)) }
{
    match src {
        Source::Reg(r) => put_register(out, before, r),
        Source::Imm(imm) => put_signed(out, before, imm),
    }
}

fn put_with_sign(out: &mut String, before: &str, n: i32) -> Result<(), AllocError>
    ensures { OnOk result (string_bytes out.new ≡ string_bytes out.old ++ (before.now ++ with_sign n)) }
{
    out.push_str(before)?;
    put_signed(out, if n < 0 { "" } else { "+" }, n)
}

fn put_address(out: &mut String, before: &str, base: u8, off: i16) -> Result<(), AllocError>
    ensures { OnOk result (string_bytes out.new ≡ string_bytes out.old ++ (before.now ++ address base off)) }
{
    out.push_str(before)?;
    put_register(out, "[", base)?;
    put_with_sign(out, "", off as i32)?;
    out.push_str("]")
}
