// The slots of an instruction (RFC 9669, section 3).

ghost use Rattle.std.specs.Prelude.{◌≡◌, ◌+◌, ◌*◌, ◌%◌, ◌/◌, ◌^◌, ◌<◌, ◌≤◌, ◌∷◌, [], List, IfSome};
ghost use Rattle.insn.specs.Encoding.{alu_class, jump_class, operation_code, operation_offset, condition_code, swap_opcode, size_code, load_mode, slot, slot_with, store_slot, ja_slot, low_imm, slots, FitsJump, HasEncoding};
ghost use Rattle.insn.specs.Layout.{slot_count};
ghost use Rattle.std.specs.Option.{option_to_list};

use crate::instruction::{Condition, Fields, Form, Operation, Order, Size, Source};

// The slot of an instruction, or the two of a wide one.
pub(crate) fn slots_of(form: Form) -> (Fields, Option<Fields>)
    requires { HasEncoding form }
    ensures only { slots form ≡ result.0 ∷ option_to_list result.1 }
    ensures first { (result.0.dst < 16) × (result.0.src < 16) }
    ensures second { IfSome result.1 (λ f. (f.dst < 16) × (f.src < 16)) }
{
    match form {
        Form::Imm64 { dst, value } => (
            slot(0x18, dst, 0, 0, low_imm(value)),
            Some(slot(0, 0, 0, 0, low_imm(value >> 32))),
        ),
        Form::MapRef { dst, index } => (slot(0x18, dst, 5, 0, index), Some(slot(0, 0, 0, 0, 0))),
        _ => (narrow_slot(form), None),
    }
}

// The slot of an instruction that isn't wide.
fn narrow_slot(form: Form) -> Fields
    requires encoded { HasEncoding form }
    requires narrow { slot_count form ≡ 1 }
    ensures only { slots form ≡ result ∷ [] }
    ensures fit { (result.dst < 16) × (result.src < 16) }
{
    match form {
        Form::Alu { w64, op, dst, src } => alu_slot(w64, op, dst, src),
        Form::Neg { w64, dst } => slot(0x80 + alu_class(w64), dst, 0, 0, 0),
        Form::MovSx {
            w64,
            bits,
            dst,
            src,
        } => slot(0xb8 + alu_class(w64), dst, src, i16::from(bits), 0),
        Form::Swap { order, bits, dst } => slot(swap_opcode(order), dst, 0, 0, i32::from(bits)),
        Form::Load {
            size,
            signed,
            dst,
            src,
            off,
        } => slot(load_mode(signed) + size_code(size), dst, src, off, 0),
        Form::Store {
            size,
            dst,
            off,
            src,
        } => store_slot(size, dst, src, off),
        Form::Ja { long, by } => ja_slot(long, by),
        Form::Branch {
            w64,
            cond,
            dst,
            src,
            off,
        } => slot_with(16 * condition_code(cond) + jump_class(w64), dst, src, off),
        Form::Call { id } => slot(0x85, 0, 0, 0, id),
        _ => slot(0x95, 0, 0, 0, 0),
    }
}

fn slot(opcode: u8, dst: u8, src: u8, offset: i16, imm: i32) -> Fields
    ensures { result ≡ slot opcode dst src offset imm }
{
    Fields {
        opcode,
        dst,
        src,
        offset,
        imm,
    }
}

// The slot with this second operand: an immediate, or a register, which adds 8 to the opcode.
fn slot_with(opcode: u8, dst: u8, source: Source, offset: i16) -> Fields
    requires { opcode < 248 }
    ensures { result ≡ slot_with opcode dst source offset }
{
    match source {
        Source::Reg(src) => slot(opcode + 8, dst, src, offset, 0),
        Source::Imm(imm) => slot(opcode, dst, 0, offset, imm),
    }
}

fn alu_slot(w64: bool, op: Operation, dst: u8, source: Source) -> Fields
    ensures { result ≡ slot_with (16 * operation_code op + alu_class w64) dst source (operation_offset op) }
{
    let opcode = 16 * operation_code(op) + alu_class(w64);
    slot_with(opcode, dst, source, operation_offset(op))
}

// A jump by the offset, or by imm.
fn ja_slot(long: bool, by: i32) -> Fields
    requires { FitsJump long by }
    ensures { result ≡ ja_slot long by }
{
    if long {
        slot(0x06, 0, 0, 0, by)
    } else {
        slot(0x05, 0, 0, by as i16, 0)
    }
}

fn store_slot(size: Size, dst: u8, source: Source, offset: i16) -> Fields
    ensures { result ≡ store_slot size dst source offset }
{
    match source {
        Source::Reg(src) => slot(0x63 + size_code(size), dst, src, offset, 0),
        Source::Imm(imm) => slot(0x62 + size_code(size), dst, 0, offset, imm),
    }
}

// The low 32 bits, as they stand in imm.
fn low_imm(value: u64) -> i32
    ensures { result ≡ low_imm value }
{
    let low = (value % 0x1_0000_0000) as u32;
    low.cast_signed()
}

fn alu_class(w64: bool) -> u8
    ensures is { result ≡ alu_class w64 }
    ensures few { result < 8 }
{
    if w64 { 7 } else { 4 }
}

fn jump_class(w64: bool) -> u8
    ensures is { result ≡ jump_class w64 }
    ensures few { result < 8 }
{
    if w64 { 5 } else { 6 }
}

fn load_mode(signed: bool) -> u8
    ensures is { result ≡ load_mode signed }
    ensures few { result < 130 }
{
    if signed { 0x81 } else { 0x61 }
}

fn operation_code(op: Operation) -> u8
    ensures is { result ≡ operation_code op }
    ensures few { result < 14 }
{
    match op {
        Operation::Add => 0,
        Operation::Sub => 1,
        Operation::Mul => 2,
        Operation::Div | Operation::Sdiv => 3,
        Operation::Or => 4,
        Operation::And => 5,
        Operation::Lsh => 6,
        Operation::Rsh => 7,
        Operation::Mod | Operation::Smod => 9,
        Operation::Xor => 10,
        Operation::Mov => 11,
        Operation::Arsh => 12,
    }
}

fn operation_offset(op: Operation) -> i16
    ensures { result ≡ operation_offset op }
{
    match op {
        Operation::Sdiv | Operation::Smod => 1,
        _ => 0,
    }
}

fn condition_code(cond: Condition) -> u8
    ensures is { result ≡ condition_code cond }
    ensures few { result < 14 }
{
    match cond {
        Condition::Jeq => 1,
        Condition::Jgt => 2,
        Condition::Jge => 3,
        Condition::Jset => 4,
        Condition::Jne => 5,
        Condition::Jsgt => 6,
        Condition::Jsge => 7,
        Condition::Jlt => 10,
        Condition::Jle => 11,
        Condition::Jslt => 12,
        Condition::Jsle => 13,
    }
}

fn swap_opcode(order: Order) -> u8
    ensures { result ≡ swap_opcode order }
{
    match order {
        Order::Little => 0xd4,
        Order::Big => 0xdc,
        Order::Always => 0xd7,
    }
}

fn size_code(size: Size) -> u8
    ensures is { result ≡ size_code size }
    ensures few { result < 25 }
{
    match size {
        Size::Word => 0,
        Size::Half => 8,
        Size::Byte => 16,
        Size::Double => 24,
    }
}
