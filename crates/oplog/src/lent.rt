// Operations and records as they are lent: who gets them doesn't know how they lie in memory.

ghost use Rattle.std.specs.Prelude.{◌≡◌, ◌↔◌, ◌<◌, ◌≤◌, length, take, drop, slice_get, Some, IsTrue};
ghost use Rattle.maps.specs.Maps.{AreBytes};
ghost use Rattle.oplog.specs.declared.records.Op.TheVariants.{Run};
ghost use Rattle.oplog.specs.declared.records.Record.{Record as TheRecord};
ghost use Rattle.oplog.specs.Operations.{installing};
ghost use Rattle.oplog.specs.Lent.{AreWithin as IsInRoom, op_of};
ghost use Rattle.oplog.specs.Laid.{records_in, AreWithin};

use crate::laid::LaidRef;
use crate::parts::OpParts;
use crate::rows::Row;
use loader::MOST_LONG;
use maps::MOST_ARG_LEN;
use std::marker::Model;
use verifier::Mode;

/// An operation that is lent.
#[derive(Drop)]
pub struct OpRef<'a> {
    parts: OpParts<'a>,
}

impl<'a> Model for OpRef<'a> {
    ghost use Rattle.oplog.specs.Operations.{Operation};

    ghost Value = { Operation };

    ghost use Rattle.oplog.specs.Lent.{AreWithin, op_of};

    ghost view = { λ o. op_of o.parts };

    ghost invariant = { λ o. AreWithin o.parts };
}

impl<'a> OpRef<'a> {
    /// The run of a program, by its number in the catalogue, on an argument of at most [`MOST_ARG_LEN`].
    #[inline(always)]
    pub fn run(program: u16, argument: &'a [u8]) -> OpRef<'a>
        requires fits { length argument.now ≤ MOST_ARG_LEN }
        ensures call { result ≡ Run (record { program = program; argument = argument.now }) }
        ensures bytes { AreBytes argument.now }
    {
        let parts = OpParts::Run { program, argument };
        OpRef { parts }
    }

    /// The installing of a program of this mode for arguments of `arg_len` bytes, at most [`MOST_ARG_LEN`], with at most
    /// [`MOST_LONG`] bytes of instructions.
    pub fn install(mode: Mode, arg_len: usize, bytes: &'a [u8]) -> OpRef<'a>
        requires argument { arg_len ≤ MOST_ARG_LEN }
        requires fits { length bytes.now ≤ MOST_LONG }
        ensures program { result ≡ installing mode arg_len bytes.now }
        ensures bytes { AreBytes bytes.now }
    {
        let parts = OpParts::Install {
            mode,
            arg_len,
            bytes,
        };
        OpRef { parts }
    }

    /// Its parts, which are no longer than those of any operation.
    #[inline(always)]
    pub fn parts(&self) -> OpParts<'a>
        ensures parts { op_of result ≡ self.now }
        ensures fits { IsInRoom result }
    {
        self.parts
    }
}

/// A call that is lent: a program of the catalogue, by its number there, and its argument of at most [`MOST_ARG_LEN`] bytes.
#[derive(Drop)]
pub struct CallRef<'a> {
    program: u16,
    argument: &'a [u8],
}

impl<'a> Model for CallRef<'a> {
    ghost use Rattle.std.specs.Prelude.{◌≤◌, length};
    ghost use Rattle.maps.specs.declared.shapes.TheConstants.{MOST_ARG_LEN};
    ghost use Rattle.oplog.specs.Calls.{Call};

    ghost Value = { Call };

    ghost view = { λ o. record { program = o.program; argument = o.argument.now } };

    ghost invariant = { λ o. length o.argument.now ≤ MOST_ARG_LEN };
}

impl<'a> CallRef<'a> {
    /// The call of a program on an argument of at most [`MOST_ARG_LEN`] bytes.
    pub fn new(program: u16, argument: &'a [u8]) -> CallRef<'a>
        requires fits { length argument.now ≤ MOST_ARG_LEN }
        ensures call { result ≡ record { program = program; argument = argument.now } }
        ensures bytes { AreBytes result.argument }
    {
        CallRef { program, argument }
    }

    /// The program's number in the catalogue.
    pub fn program(&self) -> u16
        ensures program { result ≡ self.now.program }
    {
        self.program
    }

    /// The argument.
    pub fn argument(&self) -> &'a [u8]
        ensures argument { result.now ≡ self.now.argument }
        ensures fits { length result.now ≤ MOST_ARG_LEN }
    {
        self.argument
    }

    /// The run of this call.
    pub fn op(&self) -> OpRef<'a>
        ensures run { result ≡ Run self.now }
    {
        OpRef::run(self.program, self.argument)
    }
}

/// A record that is lent.
#[derive(Drop)]
pub struct RecordRef<'a> {
    /// The session whose record it is.
    pub author: u16,
    /// The number of the author's earlier records.
    pub seq: u64,
    /// The operation itself.
    pub op: LaidRef<'a>,
}

/// A record that is in no history yet: its operation lies where its author has it.
#[derive(Drop)]
pub struct NewRecord<'a> {
    /// The session whose record it is.
    pub author: u16,
    /// The number of the author's earlier records.
    pub seq: u64,
    /// The operation itself.
    pub op: &'a OpRef<'a>,
}

impl<'a> Model for NewRecord<'a> {
    ghost use Rattle.oplog.specs.declared.records.Record.{Record};

    ghost Value = { Record };

    ghost view = { λ r. record { author = r.author; op = r.op.now; seq = r.seq } };
}

/// Records of a history that are lent.
#[derive(Drop)]
pub struct Records<'a> {
    rows: &'a [Row],
    beside: &'a [u8],
}

impl<'a> Model for Records<'a> {
    ghost use Rattle.std.specs.Prelude.{length};
    ghost use Rattle.oplog.specs.History.{History};
    ghost use Rattle.oplog.specs.Codes.{history_code};
    ghost use Rattle.oplog.specs.Laid.{records_in, AreWithin};

    ghost Value = { History };

    ghost coded = { history_code };

    ghost view = { λ r. records_in r.beside.now r.rows.now };

    ghost invariant = { λ r. AreWithin (length r.beside.now) r.rows.now };
}

impl<'a> Records<'a> {
    // The records of these rows, with what is too long for a record among these bytes.
    #[inline(always)]
    pub(crate) fn of(rows: &'a [Row], beside: &'a [u8]) -> Records<'a>
        requires within { AreWithin (length beside.now) rows.now }
        ensures records { result ≡ records_in beside.now rows.now }
    {
        Records { rows, beside }
    }

    /// How many they are.
    #[inline(always)]
    pub fn len(&self) -> usize
        ensures len { result ≡ length self.now }
    {
        self.rows.len()
    }

    /// Whether there is none.
    pub fn is_empty(&self) -> bool
        ensures empty { IsTrue result ↔ (length self.now ≡ 0) }
    {
        self.rows.len() == 0
    }

    /// The record at an index, from 0 on.
    #[inline(always)]
    pub fn at(&self, k: usize) -> RecordRef<'a>
        requires index { k < length self.now }
        ensures there { slice_get self.now k ≡ Some (record { author = result.author; op = result.op; seq = result.seq }) }
    {
        let rows = self.rows;
        let row = &rows[k];
        RecordRef {
            author: row.author,
            seq: row.seq,
            op: LaidRef::of(&row.op, self.beside),
        }
    }

    /// The operation of the record at an index, from 0 on.
    #[inline(always)]
    pub fn op(&self, k: usize) -> OpRef<'a>
        requires index { k < length self.now }
        ensures op { (r : TheRecord) × (slice_get self.now k ≡ Some r) × (r.op ≡ result) }
    {
        self.at(k).op.lent()
    }

    /// The first of them, so many.
    #[inline(always)]
    pub fn first(&self, count: usize) -> Records<'a>
        requires within { count ≤ length self.now }
        ensures first { result ≡ take count self.now }
    {
        Records::of(&self.rows[..count], self.beside)
    }

    /// All but the first, so many.
    #[inline(always)]
    pub fn after(&self, count: usize) -> Records<'a>
        requires within { count ≤ length self.now }
        ensures after { result ≡ drop count self.now }
    {
        Records::of(&self.rows[count..], self.beside)
    }
}
