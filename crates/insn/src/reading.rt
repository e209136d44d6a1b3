// One instruction out of bytes.

ghost use Rattle.std.specs.Prelude.{◌≡◌, ◌+◌, ◌*◌, ◌/◌, ◌%◌, ◌<◌, ◌≤◌, ◌∷◌, Ok, Err, length, drop, IfOk, IfErr};
ghost use Rattle.insn.specs.Refusal.{slots_in, is_bad_half};
ghost use Rattle.insn.specs.Decoded.{front, narrow_form, wide_form, class_form, arithmetic_form, operation_form, swap_form, jump_form, load_form, store_form, operand, operation_of, condition_of, order_of, size_of, bits_of};

use crate::decoding::DecodeFault;
use crate::instruction::{Condition, Fields, Form, Insn, Operation, Order, Size, Source};
use crate::uses::fault_of;

// The opcode of the instructions of two slots (RFC 9669, section 5.4).
const WIDE: u8 = 0x18;

// The instruction that begins at a slot, or the first reason why there is none.
pub(crate) fn instruction(bytes: &[u8], slot: usize) -> Result<Insn, DecodeFault>
    requires whole { length bytes.now % 8 ≡ 0 }
    requires within { 8 * slot + 8 ≤ length bytes.now }
    ensures found { IfOk result (λ i. front (slots_in (drop (8 * slot) bytes.now)) ≡ Ok i) }
    ensures first { IfErr result (λ why. front (slots_in (drop (8 * slot) bytes.now)) ≡ Err why) }
{
    let first = slot_at(bytes, slot);
    if let Some(why) = fault_of(first) {
        return Err(why);
    }
    if first.opcode != WIDE {
        return match narrow_form(first) {
            Some(form) => Ok(Insn::of(form)),
            None => Err(DecodeFault::UnknownOpcode),
        };
    }
    if bytes.len() < 8 * slot + 16 {
        return Err(DecodeFault::CutOff);
    }
    let second = slot_at(bytes, slot + 1);
    if is_bad_half(first, second) {
        return Err(DecodeFault::BadSecondHalf);
    }
    Ok(Insn::of(wide_form(first, second)))
}

// The fields of a slot.
fn slot_at(bytes: &[u8], slot: usize) -> Fields
    requires { 8 * slot + 8 ≤ length bytes.now }
    ensures { slots_in (drop (8 * slot) bytes.now) ≡ result ∷ slots_in (drop (8 * slot + 8) bytes.now) }
{
    let at = 8 * slot;
    let registers = bytes[at + 1];
    Fields {
        opcode: bytes[at],
        dst: registers % 16,
        src: registers / 16,
        offset: i16::from_le_bytes([bytes[at + 2], bytes[at + 3]]),
        imm: i32::from_le_bytes([bytes[at + 4], bytes[at + 5], bytes[at + 6], bytes[at + 7]]),
    }
}

// Whether the second slot of a wide instruction has a field set that is zero.
fn is_bad_half(first: Fields, second: Fields) -> bool
    ensures { result ≡ is_bad_half first second }
{
    second.opcode != 0
        || second.dst != 0
        || second.src != 0
        || second.offset != 0
        || first.src == 5 && second.imm != 0
}

// The instruction of two slots with these fields.
fn wide_form(first: Fields, second: Fields) -> Form
    ensures { result ≡ wide_form first second }
{
    let dst = first.dst;
    if first.src == 5 {
        return Form::MapRef {
            dst,
            index: first.imm,
        };
    }
    let low = u64::from(first.imm.cast_unsigned());
    let high = u64::from(second.imm.cast_unsigned());
    Form::Imm64 {
        dst,
        value: high * 0x1_0000_0000 + low,
    }
}

// The instruction of one slot that these fields are.
fn narrow_form(fields: Fields) -> Option<Form>
    ensures { result ≡ narrow_form fields }
{
    class_form(fields.opcode % 8, fields)
}

// The instruction of this class (RFC 9669, section 3.3).
fn class_form(class: u8, fields: Fields) -> Option<Form>
    ensures { result ≡ class_form class fields }
{
    let code = fields.opcode / 16;
    match class {
        1 => load_form(fields),
        2 => store_form(Source::Imm(fields.imm), fields),
        3 => store_form(Source::Reg(fields.src), fields),
        4 => arithmetic_form(false, code, fields),
        5 => jump_form(true, code, fields),
        6 => jump_form(false, code, fields),
        7 => arithmetic_form(true, code, fields),
        _ => None,
    }
}

// A load of class LDX (RFC 9669, sections 5.1 and 5.2).
fn load_form(fields: Fields) -> Option<Form>
    ensures { result ≡ load_form fields }
{
    let size = size_of(fields.opcode / 8 % 4)?;
    Some(Form::Load {
        size,
        signed: fields.opcode / 32 == 4,
        dst: fields.dst,
        src: fields.src,
        off: fields.offset,
    })
}

// A store of class ST or STX (RFC 9669, section 5.1).
fn store_form(src: Source, fields: Fields) -> Option<Form>
    ensures { result ≡ store_form src fields }
{
    let size = size_of(fields.opcode / 8 % 4)?;
    Some(Form::Store {
        size,
        dst: fields.dst,
        off: fields.offset,
        src,
    })
}

// An instruction of class ALU or ALU64 (RFC 9669, sections 4.1 and 4.2).
fn arithmetic_form(w64: bool, code: u8, fields: Fields) -> Option<Form>
    ensures { result ≡ arithmetic_form w64 code fields }
{
    match code {
        8 => Some(Form::Neg {
            w64,
            dst: fields.dst,
        }),
        13 => swap_form(fields),
        _ => operation_form(w64, code, fields),
    }
}

// A byte swap (RFC 9669, section 4.2).
fn swap_form(fields: Fields) -> Option<Form>
    ensures { result ≡ swap_form fields }
{
    let order = order_of(fields.opcode)?;
    let bits = bits_of(fields.imm)?;
    Some(Form::Swap {
        order,
        bits,
        dst: fields.dst,
    })
}

// An arithmetic operation, or a MOV that extends a sign (RFC 9669, section 4.1).
fn operation_form(w64: bool, code: u8, fields: Fields) -> Option<Form>
    ensures { result ≡ operation_form w64 code fields }
{
    let dst = fields.dst;
    if code == 11 && fields.opcode / 8 % 2 == 1 && fields.offset != 0 {
        let bits = bits_of(i32::from(fields.offset))?;
        return Some(Form::MovSx {
            w64,
            bits,
            dst,
            src: fields.src,
        });
    }
    let op = operation_of(code, fields.offset)?;
    Some(Form::Alu {
        w64,
        op,
        dst,
        src: operand(fields),
    })
}

// An instruction of class JMP or JMP32 (RFC 9669, section 4.3).
fn jump_form(w64: bool, code: u8, fields: Fields) -> Option<Form>
    ensures { result ≡ jump_form w64 code fields }
{
    match code {
        0 if w64 => Some(Form::Ja {
            long: false,
            by: i32::from(fields.offset),
        }),
        0 => Some(Form::Ja {
            long: true,
            by: fields.imm,
        }),
        8 => Some(Form::Call { id: fields.imm }),
        9 => Some(Form::Exit),
        _ => {
            let cond = condition_of(code)?;
            Some(Form::Branch {
                w64,
                cond,
                dst: fields.dst,
                src: operand(fields),
                off: fields.offset,
            })
        }
    }
}

// The second operand, by the source bit of the opcode (RFC 9669, section 4).
fn operand(fields: Fields) -> Source
    ensures { result ≡ operand fields }
{
    if fields.opcode / 8 % 2 == 1 {
        Source::Reg(fields.src)
    } else {
        Source::Imm(fields.imm)
    }
}

// The operation with this code and offset (RFC 9669, section 4.1).
fn operation_of(code: u8, offset: i16) -> Option<Operation>
    ensures { result ≡ operation_of code offset }
{
    match (code, offset) {
        (0, 0) => Some(Operation::Add),
        (1, 0) => Some(Operation::Sub),
        (2, 0) => Some(Operation::Mul),
        (3, 0) => Some(Operation::Div),
        (4, 0) => Some(Operation::Or),
        (5, 0) => Some(Operation::And),
        (6, 0) => Some(Operation::Lsh),
        (7, 0) => Some(Operation::Rsh),
        (9, 0) => Some(Operation::Mod),
        (10, 0) => Some(Operation::Xor),
        (11, 0) => Some(Operation::Mov),
        (12, 0) => Some(Operation::Arsh),
        (3, 1) => Some(Operation::Sdiv),
        (9, 1) => Some(Operation::Smod),
        _ => None,
    }
}

// The condition with this code (RFC 9669, section 4.3).
fn condition_of(code: u8) -> Option<Condition>
    ensures { result ≡ condition_of code }
{
    match code {
        1 => Some(Condition::Jeq),
        2 => Some(Condition::Jgt),
        3 => Some(Condition::Jge),
        4 => Some(Condition::Jset),
        5 => Some(Condition::Jne),
        6 => Some(Condition::Jsgt),
        7 => Some(Condition::Jsge),
        10 => Some(Condition::Jlt),
        11 => Some(Condition::Jle),
        12 => Some(Condition::Jslt),
        13 => Some(Condition::Jsle),
        _ => None,
    }
}

// The byte order with this opcode (RFC 9669, section 4.2).
fn order_of(opcode: u8) -> Option<Order>
    ensures { result ≡ order_of opcode }
{
    match opcode {
        0xd4 => Some(Order::Little),
        0xdc => Some(Order::Big),
        0xd7 => Some(Order::Always),
        _ => None,
    }
}

// The size with these bits (RFC 9669, section 5).
fn size_of(bits: u8) -> Option<Size>
    ensures { result ≡ size_of bits }
{
    match bits {
        0 => Some(Size::Word),
        1 => Some(Size::Half),
        2 => Some(Size::Byte),
        3 => Some(Size::Double),
        _ => None,
    }
}

// The number of bits, where a swap or an extension may have it (RFC 9669, sections 4.1 and 4.2).
fn bits_of(value: i32) -> Option<u8>
    ensures { result ≡ bits_of value }
{
    match value {
        8 => Some(8),
        16 => Some(16),
        32 => Some(32),
        64 => Some(64),
        _ => None,
    }
}
