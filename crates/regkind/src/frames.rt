// Kinds of registers, frames, and what two frames have in common.

ghost use Rattle.std.specs.Prelude.{◌≡◌, ℕ, ◌+◌, ◌<◌, ◌≤◌, ◌↔◌, ◌⊎◌, IsTrue, true, slice_index_or, length};
ghost use Rattle.std.specs.Int.{bit_at};
ghost use Rattle.regkind.specs.declared.frames.Kind.TheVariants.{Unreadable};
ghost use Rattle.regkind.specs.declared.frames.Cell.TheVariants.{Marks};
ghost use Rattle.regkind.specs.Frames.{Covers, CoversKind, CoversCell, IsCommonKind, IsCommonCell, IsFrame, IsCell, kind, cell, marks_of, is_pointer, mark, all_marked, with_kind, with_cell, with_marks, entry_frame};
ghost use Rattle.regkind.specs.Frames as frames;

use std::marker::Model;

/// What is known of a register's value.
///
/// Offsets are in bytes; a map is named by its place in the store's list.
#[derive(Clone, Copy, PartialEq, Eq, Debug)]
pub enum Kind {
    /// Nothing: the register may not be read.
    Unreadable,
    /// A number of 64 bits.
    Scalar,
    /// A pointer into the stack, at this distance from the stack's end.
    Stack(i16),
    /// A pointer into the argument, at this distance from its start.
    Arg(i16),
    /// A pointer to a map.
    Map(u8),
    /// A pointer into a value of a map, at this distance from the value's start.
    Value(u8, i16),
    /// What a lookup in a map answers: zero, or a pointer to the start of a value.
    ValueOrNull(u8),
}

/// What is known of a cell of the stack: eight bytes from a multiple of 8 on.
#[derive(Clone, Copy, PartialEq, Eq, Debug)]
pub enum Cell {
    /// The bytes of the cell that are initialised: bit b is the mark of the cell's byte b.
    Marks(u8),
    /// A pointer of this kind.
    Spilled(Kind),
}

/// What is known before an instruction: each register's kind, and what each cell of the stack has.
///
/// A frame weighs 428 bytes: 11 kinds of 4 bytes, and 64 cells of 6.
#[derive(Clone, Copy, PartialEq, Eq, Debug)]
pub struct Frame {
    kinds: [Kind; 11],
    // cell c is bytes 8 c to 8 c + 7, counted from the stack's lower end
    cells: [Cell; 64],
}

impl Model for Frame {
    ghost use Rattle.regkind.specs.Frames.{Frame};

    ghost Value = { Frame };

    ghost view = { λ f. record { kinds = f.kinds; cells = f.cells } };

    ghost use Rattle.regkind.specs.Frames.{IsFrame};

    // What is spilled is a pointer.
    ghost invariant = { λ f. IsFrame (record { kinds = f.kinds; cells = f.cells }) };

    ghost inverse = { λ f. record { kinds = f.kinds; cells = f.cells } };
}

impl Frame {
    /// At the entry of a program: R1 points to the argument and R10 to the end of the stack.
    pub fn entry() -> Self
        ensures known { result ≡ entry_frame }
        ensures frame { IsFrame result }
    {
        let mut kinds = [Kind::Unreadable; 11];
        kinds[1] = Kind::Arg(0);
        kinds[10] = Kind::Stack(0);
        Frame {
            kinds,
            cells: [Cell::Marks(0); 64],
        }
    }

    /// The kind of a register.
    pub fn kind(&self, register: u8) -> Kind
        requires register { register < 11 }
        ensures kind { result ≡ kind self.now register }
    {
        self.kinds[usize::from(register)]
    }

    /// The kinds of all registers, in order.
    pub fn kinds(&self) -> &[Kind; 11]
        ensures { result.now ≡ self.now.kinds }
    {
        &self.kinds
    }

    /// Gives a register another kind.
    pub fn set_kind(&mut self, register: u8, kind: Kind)
        requires register { register < 11 }
        ensures changed { self.new ≡ with_kind self.old register kind }
    {
        self.kinds[register as usize] = kind;
    }

    /// What a cell of the stack has.
    pub fn cell(&self, c: usize) -> Cell
        requires cell { c < 64 }
        ensures cell { result ≡ cell self.now c }
        ensures is { IsCell result }
    {
        self.cells[c]
    }

    /// Something else in a cell of the stack.
    pub fn set_cell(&mut self, c: usize, new: Cell)
        requires cell { c < 64 }
        requires is { IsCell new }
        ensures changed { self.new ≡ with_cell self.old c new }
    {
        self.cells[c] = new;
    }

    /// Marks `count` bytes of the stack from byte `at` on, counted from its lower end, as initialised.
    pub fn mark(&mut self, at: usize, count: usize)
        requires within { at + count ≤ 512 }
        ensures changed { self.new ≡ with_marks self.old at count }
        ensures each { (k : ℕ) → k < 512 → (mark self.new k ≡ true) ↔ ((mark self.old k ≡ true) ⊎ ((at ≤ k) × (k < at + count))) }
    {
        for k in 0..count {
            let byte = at + k;
            let marks = marks_of(self.cells[byte / 8]) | 1 << (byte % 8);
            self.cells[byte / 8] = Cell::Marks(marks);
        }
    }

    /// Whether `count` bytes of the stack from byte `at` on, counted from its lower end, are initialised.
    pub fn are_marked(&self, at: usize, count: usize) -> bool
        requires within { at + count ≤ 512 }
        ensures marked { result ≡ all_marked self.now at count }
        ensures each { IsTrue result ↔ ((k : ℕ) → at ≤ k → k < at + count → mark self.now k ≡ true) }
    {
        for k in 0..count {
            let byte = at + k;
            if marks_of(self.cells[byte / 8]) >> (byte % 8) & 1 == 0 {
                return false;
            }
        }
        true
    }
}

// The marks of a cell's bytes; those of a pointer have none.
fn marks_of(cell: Cell) -> u8
    ensures { result ≡ marks_of cell }
{
    match cell {
        Cell::Marks(marks) => marks,
        Cell::Spilled(_) => 0,
    }
}

/// What two frames have in common: kinds that differ are unreadable, a byte is marked where both mark it, and a pointer stands in a cell
/// where both have it there.
pub fn join(x: &Frame, y: &Frame) -> Frame
    ensures frame { IsFrame result }
    ensures meet { (a : frames.Frame) → Covers a result ↔ (Covers a x.now × Covers a y.now) }
{
    let kinds = common_kinds(&x.kinds, &y.kinds);
    let cells = common_cells(&x.cells, &y.cells);
    Frame { kinds, cells }
}

fn common_kinds(x: &[Kind; 11], y: &[Kind; 11]) -> [Kind; 11]
    ensures len { length result ≡ 11 }
    ensures meet { (r : ℕ) → r < 11 →
        IsCommonKind (slice_index_or result r Unreadable) (slice_index_or x.now r Unreadable) (slice_index_or y.now r Unreadable) }
{
    let mut both = [Kind::Unreadable; 11];
    for r in 0..11 {
        both[r] = common(x[r], y[r]);
    }
    both
}

fn common_cells(x: &[Cell; 64], y: &[Cell; 64]) -> [Cell; 64]
    ensures len { length result ≡ 64 }
    ensures cells { (c : ℕ) → IsCell (slice_index_or x.now c (Marks 0)) → IsCell (slice_index_or result c (Marks 0)) }
    ensures meet { (c : ℕ) → c < 64 →
        IsCommonCell (slice_index_or result c (Marks 0)) (slice_index_or x.now c (Marks 0)) (slice_index_or y.now c (Marks 0)) }
{
    let mut both = [Cell::Marks(0); 64];
    for c in 0..64 {
        both[c] = common_cell(x[c], y[c]);
    }
    both
}

// The pointer that both have, or the marks of both.
fn common_cell(x: Cell, y: Cell) -> Cell
    ensures is { IsCell x → IsCell result }
    ensures meet { IsCommonCell result x y }
{
    match (x, y) {
        (Cell::Marks(a), Cell::Marks(b)) => Cell::Marks(a & b),
        (Cell::Spilled(a), Cell::Spilled(b)) if a == b => x,
        _ => Cell::Marks(0),
    }
}

// The kind itself, where the two are equal.
fn common(x: Kind, y: Kind) -> Kind
    ensures { IsCommonKind result x y }
{
    if x == y { x } else { Kind::Unreadable }
}

/// The first frame says nothing that the second doesn't.
pub fn covers(a: &Frame, b: &Frame) -> bool
    ensures covered { IsTrue result ↔ Covers a.now b.now }
{
    covers_kinds(&a.kinds, &b.kinds) && covers_cells(&a.cells, &b.cells)
}

fn covers_kinds(a: &[Kind; 11], b: &[Kind; 11]) -> bool
    ensures { IsTrue result ↔ ((r : ℕ) → r < 11 → CoversKind (slice_index_or a.now r Unreadable) (slice_index_or b.now r Unreadable)) }
{
    for r in 0..11 {
        if !covers_kind(a[r], b[r]) {
            return false;
        }
    }
    true
}

fn covers_kind(a: Kind, b: Kind) -> bool
    ensures { IsTrue result ↔ CoversKind a b }
{
    a == Kind::Unreadable || a == b
}

fn covers_cells(a: &[Cell; 64], b: &[Cell; 64]) -> bool
    ensures { IsTrue result ↔ ((c : ℕ) → c < 64 → CoversCell (slice_index_or a.now c (Marks 0)) (slice_index_or b.now c (Marks 0))) }
{
    for c in 0..64 {
        if !covers_cell(a[c], b[c]) {
            return false;
        }
    }
    true
}

fn covers_cell(a: Cell, b: Cell) -> bool
    ensures { IsTrue result ↔ CoversCell a b }
{
    match a {
        Cell::Marks(marks) => covers_marks(marks, marks_of(b)),
        Cell::Spilled(_) => a == b,
    }
}

fn covers_marks(a: u8, b: u8) -> bool
    ensures { IsTrue result ↔ ((i : ℕ) → i < 8 → bit_at a i ≡ 1 → bit_at b i ≡ 1) }
{
    a & b == a
}
