// The frame after an instruction that breaks no rule.

ghost use Rattle.std.specs.Prelude.{◌≡◌, ◌<◌, ◌≤◌, ◌≤ℤ◌, ◌<ℤ◌, Some, None, IfSome, pos, unsigned_abs};
ghost use Rattle.insn.specs.Encoding.{HasEncoding, IsSource};
ghost use Rattle.helpers.specs.declared.numbers.Helper.TheVariants.{Lookup, Update, Delete};
ghost use Rattle.helpers.specs.Numbers.{helper_of};
ghost use Rattle.regkind.specs.declared.frames.Kind.TheVariants as kinds;
ghost use Rattle.regkind.specs.Frames.{IsCell, kind, with_kind};
ghost use Rattle.verifier.specs.Signature.{IsSignatureOk};
ghost use Rattle.verifier.specs.Operands.{copied};
ghost use Rattle.insn.specs.Moves.{distance};
ghost use Rattle.verifier.specs.Regions.{IsShort, StaysInStack};
ghost use Rattle.verifier.specs.Rules.{first_broken};
ghost use Rattle.verifier.specs.FrameAfter.{frame_after, is_null_on, after_call, shifted, FitsShift, result_kind, after_store, after_test, without_arguments, forgetting, forgotten, loaded_kind, forgetting_cells, forgotten_cell};

use crate::accesses::source_kind;
use crate::operands::{copied, jumps_at_null};
use crate::regions::{is_pointer, moved, pointer_in, stack_bytes};
use crate::signature::Signature;
use helpers::Helper;
use insn::{Edge, Form, Operation, Source, distance};
use regkind::{Cell, Frame, Kind};

/// The frame before an instruction that breaks no rule on it becomes the frame after it, where it jumps or falls through.
pub(crate) fn advance(f: &mut Frame, l: &Signature, i: Form, edge: Edge)
    requires instruction { HasEncoding i }
    requires limits { IsSignatureOk l.now }
    requires unbroken { first_broken l.now i f.old ≡ None }
    ensures { f.new ≡ frame_after i f.old edge }
{
    match i {
        Form::Alu { w64, op, dst, src } => {
            let kind = result_kind(f, w64, op, dst, src);
            f.set_kind(dst, kind);
        }
        Form::Neg { dst, .. } => f.set_kind(dst, Kind::Scalar),
        Form::MovSx { dst, .. } => f.set_kind(dst, Kind::Scalar),
        Form::Swap { dst, .. } => f.set_kind(dst, Kind::Scalar),
        Form::Load {
            size,
            dst,
            src,
            off,
            ..
        } => {
            let kind = loaded_kind(f, f.kind(src), off, size.bytes());
            f.set_kind(dst, kind);
        }
        Form::Store {
            size,
            dst,
            off,
            src,
        } => {
            let (base, stored) = (f.kind(dst), source_kind(f, src));
            after_store(f, base, off, size.bytes(), stored);
        }
        Form::Imm64 { dst, .. } => f.set_kind(dst, Kind::Scalar),
        Form::MapRef { dst, index } => f.set_kind(dst, map_kind(index)),
        Form::Branch {
            w64,
            cond,
            dst,
            src,
            ..
        } => after_test(f, dst, jumps_at_null(w64, cond, src), edge),
        Form::Call { id } => after_call(f, id),
        Form::Ja { .. } | Form::Exit => {}
    }
}

// The kind of the result of arithmetic.
fn result_kind(f: &Frame, w64: bool, op: Operation, dst: u8, src: Source) -> Kind
    requires dst { dst < 11 }
    requires src { IsSource src }
    requires fits { IfSome (distance w64 op src) (FitsShift (kind f.now dst)) }
    ensures { result ≡ result_kind (copied w64 op src) (distance w64 op src) dst f.now }
{
    match copied(w64, op, src) {
        Some(register) => f.kind(register),
        None => match distance(w64, op, src) {
            Some(by) => shifted(f.kind(dst), by),
            None => Kind::Scalar,
        },
    }
}

// A pointer that is moved so far, or a number.
fn shifted(kind: Kind, by: i64) -> Kind
    requires short { IsShort by }
    requires fits { FitsShift kind by }
    ensures { result ≡ shifted kind by }
{
    match kind {
        Kind::Stack(offset) => Kind::Stack(moved(offset, by) as i16),
        Kind::Arg(offset) => Kind::Arg(moved(offset, by) as i16),
        Kind::Value(map, offset) => Kind::Value(map, moved(offset, by) as i16),
        _ => Kind::Scalar,
    }
}

// The map of an index.
fn map_kind(index: i32) -> Kind
    requires low { pos 0 ≤ℤ index }
    requires high { index <ℤ pos 256 }
    ensures { result ≡ kinds.Map (unsigned_abs index) }
{
    Kind::Map(index as u8)
}

// What is loaded: the pointer of a cell, or else a number.
fn loaded_kind(f: &Frame, base: Kind, off: i16, bytes: usize) -> Kind
    ensures { result ≡ loaded_kind f.now base off bytes }
{
    match pointer_in(f, base, off as i64, bytes) {
        Some(kind) => kind,
        None => Kind::Scalar,
    }
}

// Bytes that are stored in the stack are initialised; a pointer that is stored in a cell stands there.
fn after_store(f: &mut Frame, base: Kind, off: i16, bytes: usize, stored: Kind)
    requires within { StaysInStack base off bytes }
    requires some { 0 < bytes }
    ensures { f.new ≡ after_store f.old base off bytes stored }
{
    if let Kind::Stack(offset) = base {
        if let Some(first) = stack_bytes(moved(offset, off as i64), bytes) {
            if is_pointer(stored) {
                f.set_cell(first / 8, Cell::Spilled(stored));
            } else {
                f.mark(first, bytes);
            }
        }
    }
}

// A register that is tested for null is a number where it is null, else a pointer to a value.
fn after_test(f: &mut Frame, register: u8, jumps_at_null: Option<bool>, edge: Edge)
    requires register { register < 11 }
    ensures { f.new ≡ after_test jumps_at_null f.old register (kind f.old register) edge }
{
    match (jumps_at_null, f.kind(register)) {
        (Some(jumps), Kind::ValueOrNull(_)) if is_null_on(jumps, edge) => {
            f.set_kind(register, Kind::Scalar);
        }
        (Some(_), Kind::ValueOrNull(map)) => f.set_kind(register, Kind::Value(map, 0)),
        _ => {}
    }
}

// Whether the tested register is null on this edge: where the test jumps at null, or else where it falls through.
fn is_null_on(jumps: bool, edge: Edge) -> bool
    ensures { result ≡ is_null_on jumps edge }
{
    jumps == (edge == Edge::Jump)
}

// After a call of the helper of this number.
fn after_call(f: &mut Frame, id: i32)
    ensures { f.new ≡ after_call (helper_of id) (kind f.old 1) f.old }
{
    match Helper::numbered(id) {
        Some(Helper::Lookup) => after_lookup(f),
        Some(Helper::Update | Helper::Delete) => after_change(f),
        None => {}
    }
}

// After a lookup R0 is a pointer to a value or null, and R1 to R5 are unreadable.
fn after_lookup(f: &mut Frame)
    ensures { f.new ≡ after_call (Some Lookup) (kind f.old 1) f.old }
{
    if let Kind::Map(map) = f.kind(1) {
        without_arguments(f);
        f.set_kind(0, Kind::ValueOrNull(map));
    }
}

// After an update or a delete R0 is a number, R1 to R5 are unreadable, and no register and no cell keeps a pointer to a value of the map.
fn after_change(f: &mut Frame)
    ensures update { f.new ≡ after_call (Some Update) (kind f.old 1) f.old }
    ensures delete { f.new ≡ after_call (Some Delete) (kind f.old 1) f.old }
{
    if let Kind::Map(map) = f.kind(1) {
        without_arguments(f);
        *f = forgetting(f, map);
        *f = forgetting_cells(f, map);
        f.set_kind(0, Kind::Scalar);
    }
}

// No register keeps a pointer to a value of the map.
fn forgetting(f: &Frame, map: u8) -> Frame
    ensures { result ≡ forgetting map f.now 11 }
{
    let mut after = *f;
    for register in 0..11 {
        after.set_kind(register, forgotten(f.kind(register), map));
    }
    after
}

// No cell keeps a pointer to a value of the map.
fn forgetting_cells(f: &Frame, map: u8) -> Frame
    ensures { result ≡ forgetting_cells map f.now 64 }
{
    let mut after = *f;
    for c in 0..64 {
        after.set_cell(c, forgotten_cell(f.cell(c), map));
    }
    after
}

// What is in the cell, but a pointer to a value of the map leaves no mark.
fn forgotten_cell(cell: Cell, map: u8) -> Cell
    ensures forgotten { result ≡ forgotten_cell map cell }
    ensures is { IsCell cell → IsCell result }
{
    match cell {
        Cell::Spilled(Kind::Value(of, _)) | Cell::Spilled(Kind::ValueOrNull(of)) if of == map =>
            Cell::Marks(0),
        _ => cell,
    }
}

// The kind, but of a pointer to a value of the map, tested or not, nothing is known.
fn forgotten(kind: Kind, map: u8) -> Kind
    ensures { result ≡ forgotten map kind }
{
    match kind {
        Kind::Value(of, _) | Kind::ValueOrNull(of) if of == map => Kind::Unreadable,
        _ => kind,
    }
}

// R1 to R5 are unreadable after a call.
fn without_arguments(f: &mut Frame)
    ensures { f.new ≡ without_arguments f.old }
{
    f.set_kind(1, Kind::Unreadable);
    f.set_kind(2, Kind::Unreadable);
    f.set_kind(3, Kind::Unreadable);
    f.set_kind(4, Kind::Unreadable);
    f.set_kind(5, Kind::Unreadable);
}
