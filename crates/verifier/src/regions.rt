// Kinds, the regions that pointers point into, and how far an access goes there.

ghost use Rattle.std.specs.Prelude.{◌≡◌, ◌+◌, ◌≤◌, ◌+ℤ◌, pos, negsuc, is_some, IfSome, ◌<◌};
ghost use Rattle.verifier.specs.Signature.{Signature};
ghost use Rattle.verifier.specs.Kinds.{is_unreadable, is_pointer, is_region_pointer, is_scalar, is_arg, is_value, is_value_or_null};
ghost use Rattle.verifier.specs.Kinds.{cannot_be_dereferenced, cannot_be_moved, cannot_be_tested};
ghost use Rattle.verifier.specs.Regions.{lies_in, stack_index, has_unmarked, IsShort, IsSmall, whole_cell, pointer_in};

use regkind::{Cell, Frame, Kind};

// Nothing is known of the register.
pub(crate) fn is_unreadable(kind: Kind) -> bool
    ensures { result ≡ is_unreadable kind }
{
    matches!(kind, Kind::Unreadable)
}

// Any kind but an unreadable one and a number.
pub(crate) fn is_pointer(kind: Kind) -> bool
    ensures { result ≡ is_pointer kind }
{
    !matches!(kind, Kind::Unreadable | Kind::Scalar)
}

// A pointer into the stack, the argument or a value.
pub(crate) fn is_region_pointer(kind: Kind) -> bool
    ensures { result ≡ is_region_pointer kind }
{
    matches!(kind, Kind::Stack(_) | Kind::Arg(_) | Kind::Value(_, _))
}

// A number.
pub(crate) fn is_scalar(kind: Kind) -> bool
    ensures { result ≡ is_scalar kind }
{
    matches!(kind, Kind::Scalar)
}

// A map or the answer of a lookup, whose pointer no addition moves.
pub(crate) fn cannot_be_moved(kind: Kind) -> bool
    ensures { result ≡ cannot_be_moved kind }
{
    matches!(kind, Kind::Map(_) | Kind::ValueOrNull(_))
}

// A pointer that no lookup answered, which is not tested for null.
pub(crate) fn cannot_be_tested(kind: Kind) -> bool
    ensures { result ≡ cannot_be_tested kind }
{
    matches!(kind, Kind::Stack(_) | Kind::Arg(_) | Kind::Map(_))
}

// A number or a map, through which nothing is loaded or stored.
pub(crate) fn cannot_be_dereferenced(kind: Kind) -> bool
    ensures { result ≡ cannot_be_dereferenced kind }
{
    matches!(kind, Kind::Scalar | Kind::Map(_))
}

// A pointer into the argument.
pub(crate) fn is_arg(kind: Kind) -> bool
    ensures { result ≡ is_arg kind }
{
    matches!(kind, Kind::Arg(_))
}

// A pointer into the value of a map.
pub(crate) fn is_value(kind: Kind) -> bool
    ensures { result ≡ is_value kind }
{
    matches!(kind, Kind::Value(_, _))
}

// The answer of a lookup that was not tested for null.
pub(crate) fn is_value_or_null(kind: Kind) -> bool
    ensures { result ≡ is_value_or_null kind }
{
    matches!(kind, Kind::ValueOrNull(_))
}

// An offset at a distance from another one.
pub(crate) fn moved(offset: i16, distance: i64) -> i64
    requires short { IsShort distance }
    ensures moved { result ≡ offset +ℤ distance }
    ensures small { IsSmall result }
{
    offset as i64 + distance
}

// The first of so many bytes from an offset on, counted from the stack's lower end, where they lie in the stack.
pub(crate) fn stack_bytes(at: i64, bytes: usize) -> Option<usize>
    requires small { IsSmall at }
    ensures within { is_some result ≡ lies_in (negsuc 511) (pos 0) at bytes }
    ensures first { IfSome result (λ k. k ≡ stack_index at) }
    ensures room { IfSome result (λ k. k + bytes ≤ 512) }
{
    if at >= -512 && at <= 0 && bytes <= -at as usize {
        Some((at + 512) as usize)
    } else {
        None
    }
}

// The cell of the stack that so many bytes at a distance from a pointer of this kind are, if they are one.
pub(crate) fn whole_cell(kind: Kind, distance: i64, bytes: usize) -> Option<usize>
    requires short { IsShort distance }
    ensures cell { result ≡ whole_cell kind distance bytes }
    ensures few { IfSome result (λ c. c < 64) }
{
    if bytes != 8 {
        return None;
    }
    match kind {
        Kind::Stack(offset) => match stack_bytes(moved(offset, distance), bytes) {
            Some(first) if first % 8 == 0 => Some(first / 8),
            _ => None,
        },
        _ => None,
    }
}

// The kind of the pointer that these bytes are, if they are a cell that has one.
pub(crate) fn pointer_in(f: &Frame, kind: Kind, distance: i64, bytes: usize) -> Option<Kind>
    requires short { IsShort distance }
    ensures { result ≡ pointer_in f.now kind distance bytes }
{
    match f.cell(whole_cell(kind, distance, bytes)?) {
        Cell::Marks(_) => None,
        Cell::Spilled(kind) => Some(kind),
    }
}

// Whether `bytes` bytes from the offset `at` on are all in a block of `size` bytes.
pub(crate) fn is_in_block(size: usize, at: i64, bytes: usize) -> bool
    requires small { IsSmall at }
    ensures { result ≡ lies_in (pos 0) (pos size) at bytes }
{
    at >= 0 && at as usize <= size && bytes <= size - at as usize
}

// Whether `bytes` bytes at a distance from a pointer of this kind are all in the stack, and one of them is not initialised.
pub(crate) fn has_unmarked(f: &Frame, kind: Kind, distance: i64, bytes: usize) -> bool
    requires short { IsShort distance }
    ensures { (l : Signature) → result ≡ has_unmarked l f.now kind distance bytes }
{
    match kind {
        Kind::Stack(offset) => match stack_bytes(moved(offset, distance), bytes) {
            Some(first) => !f.are_marked(first, bytes),
            None => false,
        },
        _ => false,
    }
}
