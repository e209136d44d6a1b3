// Arithmetic and conditions on the 64-bit words of registers (RFC 9669, sections 4.1 to 4.3). Where a `w64` is taken, true
// stands for the classes ALU64 and JMP, and false for ALU and JMP32, which see the low 32 bits.

ghost use Rattle.std.specs.Prelude.{◌≡◌, ◌%◌, ◌^◌, ◌⊎◌};
ghost use Rattle.insn.specs.Encoding.{MayExtend};
ghost use Rattle.machine.specs.Arithmetic.{bits_of, alu, negated, holds};
ghost use Rattle.machine.specs.Conversions.{sign_extended, swapped};

mod narrow;
mod wide;

use insn::{Condition, Operation, Order};

/// The result of an arithmetic instruction on dst and the second operand. One of 32 bits has zeros above.
///
/// # Examples
///
/// ```
/// use insn::Operation;
/// use machine::alu;
///
/// assert_eq!(rt; alu(true, Operation::Div, 7, 0), 0);
/// assert_eq!(rt; alu(true, Operation::Mod, 7, 0), 7);
/// // Shifts take the amount modulo the width.
/// assert_eq!(rt; alu(true, Operation::Lsh, 3, 64), 3);
/// ```
#[inline(always)]
pub fn alu(w64: bool, op: Operation, a: u64, b: u64) -> u64
    ensures { result ≡ alu op (bits_of w64) a b }
{
    if w64 {
        wide::alu(op, a, b)
    } else {
        u64::from(narrow::alu(op, low_word(a), low_word(b)))
    }
}

/// Whether the condition of a jump holds of dst and the second operand.
///
/// # Examples
///
/// ```
/// use insn::Condition;
/// use machine::holds;
///
/// // All bits set is the greatest number, and -1 where it has a sign.
/// assert!(rt; holds(true, Condition::Jgt, u64::MAX, 0));
/// assert!(rt; !holds(true, Condition::Jsgt, u64::MAX, 0));
/// // The low 32 bits alone are compared.
/// assert!(rt; holds(false, Condition::Jeq, 0x1_0000_0005, 5));
/// ```
#[inline(always)]
pub fn holds(w64: bool, condition: Condition, a: u64, b: u64) -> bool
    ensures { result ≡ holds condition (bits_of w64) a b }
{
    if w64 {
        wide::holds(condition, a, b)
    } else {
        narrow::holds(condition, low_word(a), low_word(b))
    }
}

/// NEG: the low bits from zero. A result of 32 bits has zeros above.
///
/// # Examples
///
/// ```
/// use machine::negate;
///
/// assert_eq!(rt; negate(true, 1), 0xffff_ffff_ffff_ffff);
/// assert_eq!(rt; negate(false, 1), 0xffff_ffff);
/// ```
#[inline(always)]
pub fn negate(w64: bool, a: u64) -> u64
    ensures { result ≡ negated (bits_of w64) a }
{
    if w64 {
        0u64.wrapping_sub(a)
    } else {
        u64::from(0u32.wrapping_sub(low_word(a)))
    }
}

/// MOVSX: the low 8, 16 or 32 bits, sign-extended to 64, or to 32 with zeros above. The same is done to the bytes that a
/// sign-extending load reads (RFC 9669, section 5.2).
///
/// # Examples
///
/// ```
/// use machine::sign_extend;
///
/// assert_eq!(rt; sign_extend(true, 8, 0x80), 0xffff_ffff_ffff_ff80);
/// assert_eq!(rt; sign_extend(false, 8, 0x80), 0xffff_ff80);
/// assert_eq!(rt; sign_extend(true, 16, 0x1_7fff), 0x7fff);
/// ```
#[inline(always)]
pub fn sign_extend(w64: bool, bits: u8, n: u64) -> u64
    requires { MayExtend w64 bits }
    ensures { result ≡ sign_extended (bits_of w64) bits n }
{
    let extended = match bits {
        8 => i64::from(low_byte(n).cast_signed()),
        16 => i64::from(low_half(n).cast_signed()),
        _ => i64::from(low_word(n).cast_signed()),
    };
    if w64 {
        extended.cast_unsigned()
    } else {
        extended.cast_unsigned() % 0x1_0000_0000
    }
}

/// The swaps: the low 16, 32 or 64 bits, as they are to little-endian and else with their bytes reversed; zeros above.
///
/// # Examples
///
/// ```
/// use insn::Order;
/// use machine::swap;
///
/// assert_eq!(rt; swap(Order::Big, 16, 258), 513);
/// assert_eq!(rt; swap(Order::Always, 64, 1), 72057594037927936);
/// ```
#[inline(always)]
pub fn swap(order: Order, bits: u8, n: u64) -> u64
    requires { ((bits ≡ 16) ⊎ (bits ≡ 32)) ⊎ (bits ≡ 64) }
    ensures { result ≡ swapped order bits n }
{
    match (order, bits) {
        (Order::Little, 16) => u64::from(low_half(n)),
        (Order::Little, 32) => u64::from(low_word(n)),
        (Order::Little, _) => n,
        (_, 16) => u64::from(low_half(n).swap_bytes()),
        (_, 32) => u64::from(low_word(n).swap_bytes()),
        (_, _) => n.swap_bytes(),
    }
}

#[inline(always)]
fn low_byte(n: u64) -> u8
    ensures { result ≡ n % 2 ^ 8 }
{
    (n % 0x100) as u8
}

#[inline(always)]
fn low_half(n: u64) -> u16
    ensures { result ≡ n % 2 ^ 16 }
{
    (n % 0x1_0000) as u16
}

#[inline(always)]
fn low_word(n: u64) -> u32
    ensures { result ≡ n % 2 ^ 32 }
{
    (n % 0x1_0000_0000) as u32
}
