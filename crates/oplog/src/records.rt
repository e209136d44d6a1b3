// Operations, and the records of them.

ghost use Rattle.std.specs.Prelude.{◌≡◌, ◌≤◌, length};
ghost use Rattle.maps.specs.Maps.{AreBytes};

use crate::padding::{padded, refill};
use maps::{MAX_ARG_LEN, MOST_ARG_LEN};
use std::marker::Model;
use verifier::Mode;

/// The most bytes of a program that a `Config`'s store installs. A record has room for so many.
pub const MAX_INSTALLED_BYTES: usize = 192;

/// A call with a short argument: a program of the catalogue, by its number there, and its argument of at most [`MAX_ARG_LEN`]
/// bytes. It is copied as one block of bytes.
#[derive(Clone, Copy)]
pub struct Call {
    program: u16,
    argument_len: u8,
    // The argument, and zeros after it.
    argument_bytes: [u8; MAX_ARG_LEN],
}

impl Model for Call {
    ghost use Rattle.oplog.specs.Calls.{Call};

    ghost Value = { Call };

    ghost use Rattle.maps.specs.declared.shapes.TheConstants.{MAX_ARG_LEN};
    ghost use Rattle.oplog.specs.Fields.{call_of, call_fields, fields_of_call, IsFilled};

    ghost view = { call_of };

    ghost invariant = { λ o. IsFilled MAX_ARG_LEN o.argument_len o.argument_bytes };

    ghost inverse = { call_fields };

    ghost inverse_ok = { fields_of_call };
}

impl Call {
    /// The call of a program, by its number in the catalogue, on an argument of at most [`MAX_ARG_LEN`] bytes.
    pub fn new(program: u16, argument: &[u8]) -> Call
        requires fits { length argument.now ≤ MAX_ARG_LEN }
        ensures call { result ≡ record { program = program; argument = argument.now } }
        ensures bytes { AreBytes result.argument }
    {
        Call {
            program,
            argument_len: argument.len() as u8,
            argument_bytes: padded(argument),
        }
    }

    // Becomes the call of a program on an argument, in its place.
    #[inline(always)]
    pub(crate) fn set(&mut self, program: u16, argument: &[u8])
        requires fits { length argument.now ≤ MAX_ARG_LEN }
        ensures call { self.new ≡ record { program = program; argument = argument.now } }
    {
        let old = self.argument_len as usize;
        refill(&mut self.argument_bytes, old, argument);
        self.argument_len = argument.len() as u8;
        self.program = program;
    }

    // Becomes the other, in its place.
    #[inline(always)]
    pub(crate) fn assign(&mut self, from: &Call)
        ensures same { self.new ≡ from.now }
        ensures fits { length from.now.argument ≤ MAX_ARG_LEN }
    {
        // (its invariant)
        let _ = &from.argument_len;
        *self = *from;
    }

    /// The program's number in the catalogue.
    pub fn program(&self) -> u16
        ensures program { result ≡ self.now.program }
    {
        self.program
    }

    /// The argument.
    pub fn argument(&self) -> &[u8]
        ensures argument { result.now ≡ self.now.argument }
        ensures fits { length result.now ≤ MAX_ARG_LEN }
        ensures bytes { AreBytes result.now }
    {
        &self.argument_bytes[..self.argument_len as usize]
    }
}

/// A program that is to be installed: what it may call, how long its argument is, and its instructions as bytes, at most
/// [`MAX_INSTALLED_BYTES`]. It is copied as one block of bytes.
#[derive(Clone, Copy)]
pub struct NewProgram {
    // In this order no byte between the fields is out of use.
    arg_len: u16,
    mode: Mode,
    bytes_len: u8,
    // The instructions, and zeros after them.
    program_bytes: [u8; MAX_INSTALLED_BYTES],
}

impl Model for NewProgram {
    ghost use Rattle.oplog.specs.Calls.{NewProgram};

    ghost Value = { NewProgram };

    ghost use Rattle.oplog.specs.Fields.{program_of, program_fields, fields_of_program, IsNewProgram};

    ghost view = { program_of };

    ghost invariant = { IsNewProgram };

    ghost inverse = { program_fields };

    ghost inverse_ok = { fields_of_program };
}

impl NewProgram {
    /// A program of this mode for arguments of `arg_len` bytes, at most [`MOST_ARG_LEN`], with at most
    /// [`MAX_INSTALLED_BYTES`] bytes of instructions.
    pub fn new(mode: Mode, arg_len: usize, bytes: &[u8]) -> NewProgram
        requires argument { arg_len ≤ MOST_ARG_LEN }
        requires fits { length bytes.now ≤ MAX_INSTALLED_BYTES }
        ensures program { result ≡ record { mode = mode; arg_len = arg_len; bytes = bytes.now } }
        ensures bytes { AreBytes result.bytes }
    {
        NewProgram {
            arg_len: arg_len as u16,
            mode,
            bytes_len: bytes.len() as u8,
            program_bytes: padded(bytes),
        }
    }

    /// The program's mode: what the program may call.
    pub fn mode(&self) -> Mode
        ensures mode { result ≡ self.now.mode }
    {
        self.mode
    }

    /// How many bytes its argument has.
    pub fn arg_len(&self) -> usize
        ensures length { result ≡ self.now.arg_len }
        ensures fits { result ≤ MOST_ARG_LEN }
    {
        self.arg_len as usize
    }

    /// The program's instructions, as bytes.
    pub fn bytes(&self) -> &[u8]
        ensures bytes { result.now ≡ self.now.bytes }
        ensures fits { length result.now ≤ MAX_INSTALLED_BYTES }
        ensures are_bytes { AreBytes result.now }
    {
        &self.program_bytes[..self.bytes_len as usize]
    }
}

/// An operation that has room in a record, its argument or its program a short one. It is copied as one block of bytes.
#[derive(Clone, Copy)]
pub enum Op {
    /// The run of a program.
    Run(Call),
    /// A program is installed.
    Install(NewProgram),
}

/// An operation of the history: whose it is, and how many records its author had before. Lists keep it in another form
/// ([`RecordList`](crate::RecordList)).
#[derive(Clone, Copy)]
pub struct Record {
    /// The number of the author's earlier records.
    pub seq: u64,
    /// The session: its node's number times the slots of a node, plus its slot.
    pub author: u16,
    /// The operation itself.
    pub op: Op,
}
