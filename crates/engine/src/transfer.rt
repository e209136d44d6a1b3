// Whole texts in and out, and bytes as they come in. Nothing is tried again.

ghost use Rattle.std.specs.Prelude.{◌≡◌, ◌≤◌, ⊤, ℕ, List, length, Option, None, Some, OnOk, OnErr, IfOk, IfSome};
ghost use Rattle.std.specs.Io.KnownBytes.{Appends, ReadConsumes};
ghost use Rattle.engine.specs.ReadFaults.{IfCannotRead};
ghost use Rattle.engine.specs.Transfer.{AppendsBeginning};

use std::alloc::Global;
use std::io::{Read, Write};

/// A write failed, or took no byte.
#[derive(Clone, Copy)]
pub struct CannotWrite;

/// Why a text was not read.
#[derive(Clone, Copy)]
pub enum ReadFault {
    /// Memory ran out.
    NoMemory,
    /// A read failed.
    CannotRead,
}

/// What gives a text whole. Any reader is one.
pub trait Source {
    // The bytes that it will give, where they are known.
    ghost remaining: { Self → Option (List ℕ) } = { λ _. None };

    // What is so once a read has failed; what is never so, where none can.
    ghost has_failed: { Self → Type 0 } = { λ _. ⊤ };

    // What is so of one whose read can fail; what is never so, where none can.
    ghost can_fail: { Self → Type 0 } = { λ _. ⊤ };

    /// All that it has left.
    fn read_whole(&mut self, alloc: Global) -> Result<Vec<u8>, ReadFault>
        ensures whole { IfOk result (λ v. IfSome (remaining self.old) (λ bytes. v.items ≡ bytes)) }
        ensures failed { IfCannotRead result (has_failed self.new) }
        ensures could { IfCannotRead result (can_fail self.old) };
}

/// What takes a text whole. Any writer is one.
pub trait Sink {
    // The bytes that it holds, where they are known.
    ghost contents: { Self → Option (List ℕ) } = { λ _. None };

    // What is so once a write has failed; what is never so, where none can.
    ghost has_failed: { Self → Type 0 } = { λ _. ⊤ };

    /// Writes all of the bytes, or a beginning of them.
    fn send(&mut self, bytes: &[u8]) -> Result<(), CannotWrite>
        ensures sent { OnOk result (Appends (contents self.old) (contents self.new) bytes.now) }
        ensures stopped { OnErr result (AppendsBeginning (contents self.old) (contents self.new) bytes.now) }
        ensures failed { OnErr result (has_failed self.new) }
        ensures spared { OnOk result (has_failed self.new → has_failed self.old) };
}

impl<R: Read> Source for R {
    ghost remaining = { R.Read.remaining };

    fn read_whole(&mut self, alloc: Global) -> Result<Vec<u8>, ReadFault> {
        read_whole(alloc, self)
    }
}

impl<W: Write> Sink for W {
    ghost contents = { W.Write.contents };

    fn send(&mut self, bytes: &[u8]) -> Result<(), CannotWrite> {
        send(self, bytes)
    }
}

// Writes all of the bytes, or a beginning of them.
fn send<W: Write>(writer: &mut W, bytes: &[u8]) -> Result<(), CannotWrite>
    ensures sent { OnOk result (Appends (W.contents writer.old) (W.contents writer.new) bytes.now) }
    ensures stopped { OnErr result (AppendsBeginning (W.contents writer.old) (W.contents writer.new) bytes.now) }
{
    let mut sent = 0;
    while sent < bytes.len() {
        let (_, rest) = bytes.split_at(sent);
        match writer.write(rest) {
            Ok(0) => return Err(CannotWrite),
            Ok(n) => sent += n,
            Err(_) => return Err(CannotWrite),
        }
    }
    Ok(())
}

// Reads to the end of input.
fn read_whole<R: Read>(alloc: Global, reader: &mut R) -> Result<Vec<u8>, ReadFault>
    ensures { IfOk result (λ v. IfSome (R.remaining reader.old) (λ bytes. v.items ≡ bytes)) }
{
    let mut bytes = Vec::new(alloc);
    let mut buffer = [0u8; 512];
    for _ in 0..u64::MAX {
        let n = match reader.read(&mut buffer) {
            Ok(n) => n,
            Err(_) => return Err(ReadFault::CannotRead),
        };
        if n == 0 {
            return Ok(bytes);
        }
        if bytes.extend_from_slice(&buffer[..n]).is_err() {
            return Err(ReadFault::NoMemory);
        }
    }
    Err(ReadFault::CannotRead)
}

/// A read failed.
#[derive(Clone, Copy)]
pub struct CannotRead;

/// What gives bytes as they come. Any reader is one.
pub trait Feed {
    // The bytes that it will give, where they are known.
    ghost remaining: { Self → Option (List ℕ) } = { λ _. None };

    // What is so once a read has failed; what is never so, where none can.
    ghost has_failed: { Self → Type 0 } = { λ _. ⊤ };

    /// The next bytes, written to the front of the room, and how many they are: none only at the end, or where there is no room.
    fn read_some(&mut self, room: &mut [u8]) -> Result<usize, CannotRead>
        ensures bound { IfOk result (λ n. n ≤ length room.new) }
        ensures some { ReadConsumes (remaining self.old) (remaining self.new) result room.new }
        ensures failed { OnErr result (has_failed self.new) };
}

impl<R: Read> Feed for R {
    ghost remaining = { R.Read.remaining };

    fn read_some(&mut self, room: &mut [u8]) -> Result<usize, CannotRead> {
        match self.read(room) {
            Ok(n) => Ok(n),
            Err(_) => Err(CannotRead),
        }
    }
}
