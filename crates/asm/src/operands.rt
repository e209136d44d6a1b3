// What operands say: registers, numbers, addresses and targets.

ghost use Rattle.std.specs.Prelude.{◌≡◌, ◌≤ℤ◌, ◌<ℤ◌, ◌^◌, ◌≤◌, pos, neg_ℤ, IfOk};
ghost use Rattle.std.specs.List.{list_all};
ghost use Rattle.asm.specs.Operands.{register_of, are_digits, magnitude_of, unsigned_of, number_of, signed_of, source_of, address_of, is_decimal, may_be_in_label, is_label, target_of, shown_target, within, IsWritten};
ghost use Rattle.asm.specs.Tokens.{result_map};

use crate::refusals::AsmFault;
use crate::tokens::{Stop, split};
use std::str;

// A second operand, as it is written.
#[derive(Clone, Copy)]
pub(crate) enum Written {
    Reg(u8),
    Number(i128),
}

// A base register, and how far from it.
#[derive(Clone, Copy)]
pub(crate) struct Address {
    pub base: u8,
    pub off: i128,
}

// Where a jump goes: so many slots on, or to a label.
#[derive(Clone, Copy)]
pub(crate) enum Target<'a> {
    By(i128),
    Label(&'a [u8]),
}

// `r0` to `r10`.
#[tactic(auto, unfolding(crate::specs::Operands::register_of))]
pub(crate) fn register(token: &[u8]) -> Result<u8, AsmFault>
    ensures value { result ≡ register_of token.now }
    ensures small { IfOk result (λ r. r ≤ 10) }
{
    if token == b"r10".as_slice() {
        Ok(10)
    } else if token.len() == 2 && token[0] == b'r' && b'0' <= token[1] && token[1] <= b'9' {
        Ok(token[1] - b'0')
    } else {
        Err(AsmFault::BadOperand)
    }
}

fn are_digits(digits: &[u8], radix: u32) -> bool
    requires lower { 2 ≤ radix }
    requires upper { radix ≤ 36 }
    ensures { result ≡ are_digits radix digits.now }
{
    digits.iter().all(|c| char::from(*c).is_digit(radix))
}

// The number of these digits; one too large for 127 bits is the largest of these.
pub(crate) fn magnitude(digits: &[u8], radix: u32) -> Result<i128, AsmFault>
    requires lower { 2 ≤ radix }
    requires upper { radix ≤ 36 }
    ensures value { result ≡ magnitude_of radix digits.now }
    ensures sign { IfOk result (λ z. pos 0 ≤ℤ z) }
{
    if digits.is_empty() || !are_digits(digits, radix) {
        return Err(AsmFault::BadOperand);
    }
    match str::from_utf8(digits) {
        Ok(text) => Ok(i128::from_str_radix(text, radix).unwrap_or(i128::MAX)),
        Err(_) => Err(AsmFault::BadOperand),
    }
}

// A number without a sign: decimal, or `0x` and hex digits.
#[tactic(auto, unfolding(crate::specs::Operands::unsigned_of))]
fn unsigned(token: &[u8]) -> Result<i128, AsmFault>
    ensures value { result ≡ unsigned_of token.now }
    ensures sign { IfOk result (λ z. pos 0 ≤ℤ z) }
{
    match token {
        [b'0', b'x', digits @ ..] => magnitude(digits, 16),
        _ => magnitude(token, 10),
    }
}

// A number, with `-` before it where it is negative.
#[tactic(auto, unfolding(crate::specs::Operands::number_of))]
pub(crate) fn number(token: &[u8]) -> Result<i128, AsmFault>
    ensures value { result ≡ number_of token.now }
    ensures large { IfOk result (λ z. neg_ℤ (pos (2 ^ 127)) <ℤ z) }
{
    match token {
        [b'-', digits @ ..] => Ok(-unsigned(digits)?),
        _ => unsigned(token),
    }
}

// A number behind a sign that has to be there.
#[tactic(auto, unfolding(crate::specs::Operands::signed_of))]
fn signed(token: &[u8]) -> Result<i128, AsmFault>
    ensures { result ≡ signed_of token.now }
{
    match token {
        [b'+', digits @ ..] => number(digits),
        [b'-', digits @ ..] => Ok(-number(digits)?),
        _ => Err(AsmFault::BadOperand),
    }
}

// A register or a number.
#[tactic(auto, unfolding(crate::specs::Operands::source_of))]
pub(crate) fn source(token: &[u8]) -> Result<Written, AsmFault>
    ensures value { result ≡ source_of token.now }
    ensures small { IfOk result IsWritten }
{
    match register(token) {
        Ok(register) => Ok(Written::Reg(register)),
        Err(_) => Ok(Written::Number(number(token)?)),
    }
}

// `[rN+off]` or `[rN-off]`.
#[tactic(auto, unfolding(crate::specs::Operands::address_of))]
pub(crate) fn read_address(token: &[u8]) -> Result<Address, AsmFault>
    ensures value { result ≡ address_of token.now }
    ensures small { IfOk result (λ a. a.base ≤ 10) }
{
    if token.len() < 2 || token[0] != b'[' || token[token.len() - 1] != b']' {
        return Err(AsmFault::BadOperand);
    }
    let (base, off) = split(&token[1..token.len() - 1], Stop::Sign);
    let base = register(base)?;
    let off = signed(off)?;
    Ok(Address { base, off })
}

fn is_decimal(c: u8) -> bool
    ensures { result ≡ is_decimal c }
{
    b'0' <= c && c <= b'9'
}

fn may_be_in_label(c: u8) -> bool
    ensures { result ≡ may_be_in_label c }
{
    (b'a' <= c && c <= b'z') || is_decimal(c) || c == b'_'
}

fn are_label_bytes(name: &[u8]) -> bool
    ensures { result ≡ list_all may_be_in_label name.now }
{
    name.iter().all(|c| may_be_in_label(*c))
}

// The name of a label: 1 to 32 of `a-z`, `0-9`, `_`, the first no digit.
#[tactic(auto, unfolding(crate::specs::Operands::is_label))]
pub(crate) fn is_label(name: &[u8]) -> bool
    ensures { result ≡ is_label name.now }
{
    !name.is_empty() && name.len() <= 32 && !is_decimal(name[0]) && are_label_bytes(name)
}

// `+n` or `-n`, in decimal, or a label.
#[tactic(auto, unfolding(crate::specs::Operands::target_of))]
pub(crate) fn read_target(token: &[u8]) -> Result<Target<'_>, AsmFault>
    ensures { result_map shown_target result ≡ target_of token.now }
{
    match token {
        [b'+', digits @ ..] => Ok(Target::By(magnitude(digits, 10)?)),
        [b'-', digits @ ..] => Ok(Target::By(-magnitude(digits, 10)?)),
        _ if is_label(token) => Ok(Target::Label(token)),
        _ => Err(AsmFault::BadOperand),
    }
}

// The number, if it lies within these, both included.
pub(crate) fn within(low: i128, high: i128, why: AsmFault, number: i128) -> Result<i128, AsmFault>
    ensures value { result ≡ within low high why number }
    ensures low { IfOk result (λ z. low ≤ℤ z) }
    ensures high { IfOk result (λ z. z ≤ℤ high) }
{
    if low <= number && number <= high {
        Ok(number)
    } else {
        Err(why)
    }
}
