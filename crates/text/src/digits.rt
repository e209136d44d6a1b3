// Bytes as hexadecimal digits.

ghost use Rattle.std.specs.Prelude.{◌≡◌, ◌≤◌, length, option_map, IfOk};
ghost use Rattle.hex.specs.Hex.{decode_of};
ghost use Rattle.text.specs.Digits.{good, field_bytes, is_blank, spaced_bytes};

use crate::lines::LINE_BYTES;
use arrayvec::ArrayVec;
use std::alloc::{AllocError, Global};

/// How many bytes a field of hexadecimal digits spells at most.
pub const FIELD_BYTES: usize = 256;

// The bytes of pairs of hexadecimal digits.
fn pairs(digits: &[u8]) -> Option<ArrayVec<u8, 256>>
    requires { length digits.now ≤ LINE_BYTES }
    ensures { option_map (λ v. v.items) result ≡ good (decode_of digits.now) }
{
    let mut bytes = ArrayVec::from([0; FIELD_BYTES]);
    bytes.truncate(digits.len() / 2);
    match hex::decode_to_slice(digits, bytes.as_mut_slice()) {
        Ok(()) => Some(bytes),
        Err(_) => None,
    }
}

/// The bytes of a field: pairs of hexadecimal digits in either case, or `-` for no bytes; `None` for anything else.
#[tactic(auto, unfolding(crate::specs::Digits::field_bytes))]
pub fn hex_field(field: &str) -> Option<ArrayVec<u8, 256>>
    requires { length field.now ≤ LINE_BYTES }
    ensures bytes { option_map (λ v. v.items) result ≡ field_bytes field.now }
{
    if field == "-" {
        return Some(ArrayVec::new());
    }
    if field.is_empty() {
        return None;
    }
    pairs(field.as_bytes())
}

// A space, a tab, a carriage return or a line feed.
fn is_blank(c: u8) -> bool
    ensures { result ≡ is_blank c }
{
    c == b' ' || c == b'\t' || c == b'\r' || c == b'\n'
}

/// The bytes of a whole text of hexadecimal digits in pairs and in either case, in which spaces, tabs, carriage returns
/// and line feeds are skipped; `None` for anything else. Fails only where there is no memory left.
#[tactic(auto, unfolding(crate::specs::Digits::spaced_bytes))]
pub fn spaced_hex(alloc: Global, text: &str) -> Result<Option<Vec<u8>>, AllocError>
    ensures bytes { IfOk result (λ o. option_map (λ v. v.items) o ≡ spaced_bytes text.now) }
{
    let digits: Vec<u8> = text
        .as_bytes()
        .iter()
        .copied()
        .filter(|c| !is_blank(*c))
        .collect(alloc)?;
    match hex::decode(alloc, &digits) {
        Ok(bytes) => Ok(Some(bytes)),
        Err(hex::FromHexError::OutOfMemory) => Err(AllocError),
        Err(_) => Ok(None),
    }
}
