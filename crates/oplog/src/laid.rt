// Operations as they lie in memory.

ghost use Rattle.std.specs.Prelude.{◌≡◌, ◌≤◌, ◌<◌, ◌+◌, ◌++◌, ◌^◌, MatchOption, length, vec_capacity, ℕ};
ghost use Rattle.maps.specs.declared.shapes.TheConstants.{MAX_ARG_LEN, MOST_ARG_LEN};
ghost use Rattle.loader.specs.declared.installed.TheConstants.{MOST_LONG};
ghost use Rattle.oplog.specs.declared.records.Op.TheVariants.{Run};
ghost use Rattle.oplog.specs.declared.long.LongHead.TheVariants.{Run as LongRun};
ghost use Rattle.oplog.specs.declared.laid.LaidOp.TheVariants.{Short, Long};
ghost use Rattle.oplog.specs.Operations.{installing, long_part, FitsIn};
ghost use Rattle.oplog.specs.Laid.{begin_by, op_in, pulled, IsPutAfter, IsWithin, IsAfter, IsFrom, KeepsApart};

use crate::lent::OpRef;
use crate::long::{LongHead, LongOp};
use crate::parts::OpParts;
use crate::records::{Call, MAX_INSTALLED_BYTES, NewProgram};
use maps::MAX_ARG_LEN;
use std::marker::Model;
use verifier::Mode;

/// An operation as it lies in memory: in the room of a record, except for bytes that are too long for it, which lie among bytes next to it.
#[derive(Clone, Copy)]
pub enum LaidOp {
    /// A call with an argument of at most [`MAX_ARG_LEN`](maps::MAX_ARG_LEN) bytes.
    Short(Call),
    /// A call, or a program to be installed, with more bytes than a record has room for.
    Long(LongOp),
    /// A program of at most [`MAX_INSTALLED_BYTES`](crate::MAX_INSTALLED_BYTES) is installed.
    Install(NewProgram),
}

impl LaidOp {
    /// Becomes the operation that is lent. What is too long for a record is put after the bytes, which have room for it.
    #[inline(always)]
    pub fn set(&mut self, from: &OpRef<'_>, beside: &mut Vec<u8>)
        requires room { length beside.old.items + length (long_part from.now) ≤ vec_capacity beside.old }
        requires short { length beside.old.items < 2 ^ 32 }
        ensures put { IsPutAfter from.now beside.old.items self.new beside.new.items }
        ensures capacity { vec_capacity beside.old ≤ vec_capacity beside.new }
    {
        match from.parts() {
            OpParts::Run { program, argument } => self.set_call(program, argument, beside),
            OpParts::Install {
                mode,
                arg_len,
                bytes,
            } => self.set_install(mode, arg_len, bytes, beside),
        }
    }

    /// Becomes the operation that is lent where it lies. What is too long for a record is put after the bytes, which have room for it.
    #[inline(always)]
    pub fn assign(&mut self, from: LaidRef<'_>, beside: &mut Vec<u8>)
        requires room { length beside.old.items + length (long_part from) ≤ vec_capacity beside.old }
        requires short { length beside.old.items < 2 ^ 32 }
        ensures put { IsPutAfter from.entry beside.old.items self.new beside.new.items }
        ensures capacity { vec_capacity beside.old ≤ vec_capacity beside.new }
    {
        if let LaidOp::Short(call) = from.op {
            if let LaidOp::Short(to) = self {
                to.assign(call);
                return;
            }
        }
        self.replace(from, beside);
    }

    /// Becomes the operation that is lent. What is too long for a record is written among the bytes, from a place on. There is room for the
    /// longest.
    #[inline(always)]
    pub fn set_at(&mut self, from: &OpRef<'_>, beside: &mut Vec<u8>, begin: usize)
        requires room { begin + MOST_ARG_LEN ≤ vec_capacity beside.old }
        requires short { begin < 2 ^ 32 }
        ensures same { op_in beside.new.items self.new ≡ from.now }
        ensures within { IsWithin (length beside.new.items) self.new }
        ensures from { IsFrom begin self.new }
        ensures apart { KeepsApart begin beside.old.items beside.new.items }
        ensures longer { length beside.old.items ≤ length beside.new.items }
        ensures capacity { vec_capacity beside.old ≤ vec_capacity beside.new }
    {
        match from.parts() {
            OpParts::Run { program, argument } => {
                if argument.len() > MAX_ARG_LEN {
                    self.set_long_call_at(program, argument, beside, begin);
                } else {
                    self.set_short_call(program, argument);
                }
            }
            OpParts::Install {
                mode,
                arg_len,
                bytes,
            } => self.set_install_at(mode, arg_len, bytes, beside, begin),
        }
    }

    // Becomes the other where one of both is no short call.
    #[inline(never)]
    fn replace(&mut self, from: LaidRef<'_>, beside: &mut Vec<u8>)
        requires room { length beside.old.items + length (long_part from) ≤ vec_capacity beside.old }
        requires short { length beside.old.items < 2 ^ 32 }
        ensures put { IsPutAfter from.entry beside.old.items self.new beside.new.items }
        ensures capacity { vec_capacity beside.old ≤ vec_capacity beside.new }
    {
        self.set(&from.lent(), beside);
    }

    // Becomes the call of a program on an argument.
    #[inline(always)]
    fn set_call(&mut self, program: u16, argument: &[u8], beside: &mut Vec<u8>)
        requires fits { length argument.now ≤ MOST_ARG_LEN }
        requires room { length beside.old.items + length (long_part (Run (record { program = program; argument = argument.now }))) ≤ vec_capacity beside.old }
        requires short { length beside.old.items < 2 ^ 32 }
        ensures put { IsPutAfter (Run (record { program = program; argument = argument.now })) beside.old.items self.new beside.new.items }
        ensures capacity { vec_capacity beside.old ≤ vec_capacity beside.new }
    {
        if argument.len() > MAX_ARG_LEN {
            self.set_long_call(program, argument, beside);
        } else {
            self.set_short_call(program, argument);
        }
    }

    // Becomes the call of a program on an argument that has room in a record.
    #[inline(always)]
    fn set_short_call(&mut self, program: u16, argument: &[u8])
        requires fits { length argument.now ≤ MAX_ARG_LEN }
        ensures call { self.new ≡ Short (record { program = program; argument = argument.now }) }
    {
        if let LaidOp::Short(to) = self {
            to.set(program, argument);
        } else {
            self.make_short_call(program, argument);
        }
    }

    // Becomes that call where no short call lies. What it makes on the way has the room of a program, which is cleared: a caller that had this
    // inlined would clear it each time.
    #[inline(never)]
    fn make_short_call(&mut self, program: u16, argument: &[u8])
        requires fits { length argument.now ≤ MAX_ARG_LEN }
        ensures call { self.new ≡ Short (record { program = program; argument = argument.now }) }
    {
        *self = LaidOp::Short(Call::new(program, argument));
    }

    // Becomes the call of a program on a longer argument, which is put after the bytes.
    #[inline(never)]
    fn set_long_call(&mut self, program: u16, argument: &[u8], beside: &mut Vec<u8>)
        requires fits { length argument.now ≤ MOST_ARG_LEN }
        requires room { length beside.old.items + length argument.now ≤ vec_capacity beside.old }
        requires short { length beside.old.items < 2 ^ 32 }
        ensures long { self.new ≡ Long (record { head = LongRun program; len = length argument.now; begin = length beside.old.items }) }
        ensures beside { beside.new.items ≡ beside.old.items ++ argument.now }
        ensures capacity { vec_capacity beside.old ≤ vec_capacity beside.new }
    {
        *self = LaidOp::Long(LongOp::behind(LongHead::Run(program), argument, beside));
    }

    // Becomes the call of a program on a longer argument, which is written among the bytes, from a place on.
    #[inline(never)]
    fn set_long_call_at(
        &mut self,
        program: u16,
        argument: &[u8],
        beside: &mut Vec<u8>,
        begin: usize,
    )
        requires fits { length argument.now ≤ MOST_ARG_LEN }
        requires room { begin + MOST_ARG_LEN ≤ vec_capacity beside.old }
        requires short { begin < 2 ^ 32 }
        ensures same { op_in beside.new.items self.new ≡ Run (record { program = program; argument = argument.now }) }
        ensures within { IsWithin (length beside.new.items) self.new }
        ensures from { IsFrom begin self.new }
        ensures apart { KeepsApart begin beside.old.items beside.new.items }
        ensures longer { length beside.old.items ≤ length beside.new.items }
        ensures capacity { vec_capacity beside.old ≤ vec_capacity beside.new }
    {
        *self = LaidOp::Long(LongOp::at(LongHead::Run(program), argument, beside, begin));
    }

    // Becomes the installing of a program, whose bytes are put after the others if they are too long for a record.
    #[inline(never)]
    fn set_install(&mut self, mode: Mode, arg_len: usize, code: &[u8], beside: &mut Vec<u8>)
        requires argument { arg_len ≤ MOST_ARG_LEN }
        requires fits { length code.now ≤ MOST_LONG }
        requires room { length beside.old.items + length (long_part (installing mode arg_len code.now)) ≤ vec_capacity beside.old }
        requires short { length beside.old.items < 2 ^ 32 }
        ensures put { IsPutAfter (installing mode arg_len code.now) beside.old.items self.new beside.new.items }
        ensures capacity { vec_capacity beside.old ≤ vec_capacity beside.new }
    {
        if code.len() > MAX_INSTALLED_BYTES {
            let arg_len = arg_len as u16;
            let head = LongHead::Install { mode, arg_len };
            *self = LaidOp::Long(LongOp::behind(head, code, beside));
        } else {
            *self = LaidOp::Install(NewProgram::new(mode, arg_len, code));
        }
    }

    // Becomes the installing of a program, whose bytes are written among the others, from a place on, if they are too long for a record.
    #[inline(never)]
    fn set_install_at(
        &mut self,
        mode: Mode,
        arg_len: usize,
        code: &[u8],
        beside: &mut Vec<u8>,
        begin: usize,
    )
        requires argument { arg_len ≤ MOST_ARG_LEN }
        requires fits { length code.now ≤ MOST_LONG }
        requires room { begin + MOST_ARG_LEN ≤ vec_capacity beside.old }
        requires short { begin < 2 ^ 32 }
        ensures same { op_in beside.new.items self.new ≡ installing mode arg_len code.now }
        ensures within { IsWithin (length beside.new.items) self.new }
        ensures from { IsFrom begin self.new }
        ensures apart { KeepsApart begin beside.old.items beside.new.items }
        ensures longer { length beside.old.items ≤ length beside.new.items }
        ensures capacity { vec_capacity beside.old ≤ vec_capacity beside.new }
    {
        if code.len() > MAX_INSTALLED_BYTES {
            let arg_len = arg_len as u16;
            let head = LongHead::Install { mode, arg_len };
            *self = LaidOp::Long(LongOp::at(head, code, beside, begin));
        } else {
            *self = LaidOp::Install(NewProgram::new(mode, arg_len, code));
        }
    }

    // Where its bytes begin among those next to it, if it has any there.
    pub(crate) fn begin(&self) -> Option<usize>
        ensures begin { MatchOption result ((n : ℕ) → begin_by self.now n ≡ n) (λ k. (n : ℕ) → begin_by self.now n ≡ k) }
    {
        match self {
            LaidOp::Long(op) => Some(op.begin()),
            _ => None,
        }
    }

    // Of the bytes next to it, so many were dropped in front.
    pub(crate) fn pull(&mut self, gap: usize)
        requires after { IsAfter gap self.old }
        ensures pulled { self.new ≡ pulled gap self.old }
    {
        if let LaidOp::Long(op) = self {
            op.pull(gap);
        }
    }
}

impl Default for LaidOp {
    /// The run of the first program, without an argument.
    fn default() -> LaidOp
        ensures within { (n : ℕ) → IsWithin n result }
        ensures from { (n : ℕ) → IsFrom n result }
    {
        LaidOp::Short(Call::new(0, &[]))
    }
}

/// An operation that is lent where it lies.
#[derive(Drop)]
pub struct LaidRef<'a> {
    pub(crate) op: &'a LaidOp,
    beside: &'a [u8],
}

impl<'a> Model for LaidRef<'a> {
    ghost use Rattle.std.specs.Prelude.{length};
    ghost use Rattle.oplog.specs.Operations.{Operation};
    ghost use Rattle.oplog.specs.Laid.{op_in, IsWithin};

    ghost Value = { Operation };

    ghost view = { λ o. op_in o.beside.now o.op.now };

    ghost invariant = { λ o. IsWithin (length o.beside.now) o.op.now };
}

impl<'a> LaidRef<'a> {
    /// The operation that lies here, with what is too long for a record among these bytes.
    #[inline(always)]
    pub fn of(op: &'a LaidOp, beside: &'a [u8]) -> LaidRef<'a>
        requires within { IsWithin (length beside.now) op.now }
        ensures operation { result ≡ op_in beside.now op.now }
        ensures fits { FitsIn MOST_ARG_LEN result }
    {
        LaidRef { op, beside }
    }

    /// The operation, lent.
    #[inline(always)]
    pub fn lent(&self) -> OpRef<'a>
        ensures same { result ≡ self.now }
    {
        let beside = self.beside;
        match self.op {
            LaidOp::Short(call) => OpRef::run(call.program(), call.argument()),
            LaidOp::Long(op) => op.lent(beside),
            LaidOp::Install(new) => OpRef::install(new.mode(), new.arg_len(), new.bytes()),
        }
    }
}
