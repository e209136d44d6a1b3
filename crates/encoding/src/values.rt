// The values of a line: a kind, a colon, and a field.

ghost use Rattle.std.specs.Prelude.{◌≡◌, ◌≤◌, length, option_map};
ghost use Rattle.hex.specs.Hex.{decode_of};
ghost use Rattle.text.specs.Digits.{good};
ghost use Rattle.encoding.specs.Values.{has_no_mark, quoted, spelled};

use crate::kinds::Kind;
use crate::numbers::number_within;
use arrayvec::ArrayVec;
use text::LINE_BYTES;

// The bytes of pairs of hexadecimal digits.
fn pairs(digits: &[u8]) -> Option<ArrayVec<u8, 512>>
    requires { length digits.now ≤ LINE_BYTES }
    ensures { option_map (λ v. v.items) result ≡ good (decode_of digits.now) }
{
    let mut bytes = ArrayVec::from([0; 512]);
    bytes.truncate(digits.len() / 2);
    match hex::decode_to_slice(digits, bytes.as_mut_slice()) {
        Ok(()) => Some(bytes),
        Err(_) => None,
    }
}

fn has_no_mark(text: &[u8]) -> bool
    ensures { result ≡ has_no_mark text.now }
{
    text.iter().all(|c| *c != b'"')
}

// A text between quotation marks, which has none itself.
#[tactic(auto, unfolding(crate::specs::Values::quoted))]
fn quoted(field: &[u8]) -> Option<ArrayVec<u8, 512>>
    requires { length field.now ≤ LINE_BYTES }
    ensures { option_map (λ v. v.items) result ≡ quoted field.now }
{
    if field.len() < 2 || field[0] != b'"' || field[field.len() - 1] != b'"' {
        return None;
    }
    let inside = &field[1..field.len() - 1];
    if !has_no_mark(inside) {
        return None;
    }
    let mut bytes = ArrayVec::new();
    let _ = bytes.try_extend_from_slice(inside);
    Some(bytes)
}

// The bytes that a field spells as this kind.
#[tactic(auto, unfolding(crate::specs::Values::spelled))]
pub(crate) fn spell(kind: Kind, field: &[u8]) -> Option<ArrayVec<u8, 512>>
    requires { length field.now ≤ LINE_BYTES }
    ensures { option_map (λ v. v.items) result ≡ spelled kind field.now }
{
    match kind {
        Kind::U8 => number_within(1, 0, 0xff, field),
        Kind::U16 => number_within(2, 0, 0xffff, field),
        Kind::U32 => number_within(4, 0, 0xffff_ffff, field),
        Kind::U64 => number_within(8, 0, 0xffff_ffff_ffff_ffff, field),
        Kind::S8 => number_within(1, -0x80, 0x7f, field),
        Kind::S16 => number_within(2, -0x8000, 0x7fff, field),
        Kind::S32 => number_within(4, -0x8000_0000, 0x7fff_ffff, field),
        Kind::S64 => number_within(8, -0x8000_0000_0000_0000, 0x7fff_ffff_ffff_ffff, field),
        Kind::Str => quoted(field),
        Kind::Hex => pairs(field),
    }
}
