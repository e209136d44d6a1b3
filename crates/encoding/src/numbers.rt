// The numbers that fields say.

ghost use Rattle.std.specs.Prelude.{◌≡◌, ◌≤◌, ◌^◌, ◌≤ℤ◌, ◌<ℤ◌, neg_ℤ, pos, option_map};
ghost use Rattle.byteorder.specs.Endian.{little_bytes};
ghost use Rattle.encoding.specs.Values.{are_digits, magnitude_of, unsigned_of, number_of, bits_of, number_within};

use arrayvec::ArrayVec;
use std::str;

fn are_digits(digits: &[u8], radix: u32) -> bool
    requires lower { 2 ≤ radix }
    requires upper { radix ≤ 36 }
    ensures { result ≡ are_digits radix digits.now }
{
    digits.iter().all(|c| char::from(*c).is_digit(radix))
}

// The number of these digits, if it is below 2^64.
pub(crate) fn magnitude(digits: &[u8], radix: u32) -> Option<u64>
    requires lower { 2 ≤ radix }
    requires upper { radix ≤ 36 }
    ensures value { result ≡ magnitude_of radix digits.now }
{
    if digits.is_empty() || !are_digits(digits, radix) {
        return None;
    }
    match str::from_utf8(digits) {
        Ok(text) => u64::from_str_radix(text, radix).ok(),
        Err(_) => None,
    }
}

// A number without a sign: decimal, or `0x` and hex digits.
#[tactic(auto, unfolding(crate::specs::Values::unsigned_of))]
fn unsigned(field: &[u8]) -> Option<u64>
    ensures { result ≡ unsigned_of field.now }
{
    match field {
        [b'0', b'x', digits @ ..] => magnitude(digits, 16),
        _ => magnitude(field, 10),
    }
}

// A number, with `-` before it where it is negative.
#[tactic(auto, unfolding(crate::specs::Values::number_of))]
fn number(field: &[u8]) -> Option<i128>
    ensures value { result ≡ number_of field.now }
{
    match field {
        [b'-', digits @ ..] => Some(-i128::from(unsigned(digits)?)),
        _ => Some(i128::from(unsigned(field)?)),
    }
}

// The first bytes of a number, the lowest first.
fn first_bytes(bits: u64, size: usize) -> ArrayVec<u8, 512>
    requires { size ≤ 8 }
    ensures { result.items ≡ little_bytes size bits }
{
    let mut bytes = ArrayVec::new();
    let _ = bytes.try_extend_from_slice(&bits.to_le_bytes()[..size]);
    bytes
}

// A negative number stands for its 64 bits.
fn as_unsigned(number: i128) -> u64
    requires low { neg_ℤ (pos (2 ^ 63)) ≤ℤ number }
    requires high { number <ℤ pos (2 ^ 64) }
    ensures { result ≡ bits_of number }
{
    if number < 0 {
        (number as i64).cast_unsigned()
    } else {
        number as u64
    }
}

// A number within these, both included, as so many bytes.
#[tactic(auto, unfolding(crate::specs::Values::number_within))]
pub(crate) fn number_within(
    size: usize,
    low: i128,
    high: i128,
    field: &[u8],
) -> Option<ArrayVec<u8, 512>>
    requires size { size ≤ 8 }
    requires low { neg_ℤ (pos (2 ^ 63)) ≤ℤ low }
    requires high { high <ℤ pos (2 ^ 64) }
    ensures { option_map (λ v. v.items) result ≡ number_within size low high field.now }
{
    let number = number(field)?;
    if low <= number && number <= high {
        Some(first_bytes(as_unsigned(number), size))
    } else {
        None
    }
}
