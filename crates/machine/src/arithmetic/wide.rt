// Arithmetic and conditions on numbers of 64 bits (RFC 9669, sections 4.1 and 4.3).

ghost use Rattle.std.specs.Prelude.{◌≡◌};
ghost use Rattle.machine.specs.Arithmetic.{alu, holds};

use insn::{Condition, Operation};

#[inline(always)]
pub fn alu(op: Operation, a: u64, b: u64) -> u64
    ensures { result ≡ alu op 64 a b }
{
    match op {
        Operation::Add => a.wrapping_add(b),
        Operation::Sub => a.wrapping_sub(b),
        Operation::Mul => a.wrapping_mul(b),
        Operation::Div => a.checked_div(b).unwrap_or(0),
        Operation::Or => a | b,
        Operation::And => a & b,
        Operation::Lsh => a << (b % 64),
        Operation::Rsh => a >> (b % 64),
        Operation::Mod => a.checked_rem(b).unwrap_or(a),
        Operation::Xor => a ^ b,
        Operation::Mov => b,
        Operation::Arsh => (a.cast_signed() >> (b % 64)).cast_unsigned(),
        Operation::Sdiv => signed_quotient(a, b),
        Operation::Smod => signed_remainder(a, b),
    }
}

fn signed_quotient(a: u64, b: u64) -> u64
    ensures { result ≡ alu Operation.Sdiv 64 a b }
{
    if b == 0 {
        0
    } else {
        a.cast_signed()
            .wrapping_div(b.cast_signed())
            .cast_unsigned()
    }
}

fn signed_remainder(a: u64, b: u64) -> u64
    ensures { result ≡ alu Operation.Smod 64 a b }
{
    if b == 0 {
        a
    } else {
        a.cast_signed()
            .wrapping_rem(b.cast_signed())
            .cast_unsigned()
    }
}

#[inline(always)]
pub fn holds(condition: Condition, a: u64, b: u64) -> bool
    ensures { result ≡ holds condition 64 a b }
{
    match condition {
        Condition::Jeq => a == b,
        Condition::Jgt => a > b,
        Condition::Jge => a >= b,
        Condition::Jset => a & b != 0,
        Condition::Jne => a != b,
        Condition::Jsgt => a.cast_signed() > b.cast_signed(),
        Condition::Jsge => a.cast_signed() >= b.cast_signed(),
        Condition::Jlt => a < b,
        Condition::Jle => a <= b,
        Condition::Jslt => a.cast_signed() < b.cast_signed(),
        Condition::Jsle => a.cast_signed() <= b.cast_signed(),
    }
}
