// Operations with more bytes than a record has room for.

ghost use Rattle.std.specs.Prelude.{◌≡◌, ◌≤◌, ◌<◌, ◌+◌, ◌-◌, ◌++◌, ◌^◌, length, take, drop, vec_capacity, List, ℕ};
ghost use Rattle.maps.specs.declared.shapes.TheConstants.{MOST_ARG_LEN};
ghost use Rattle.oplog.specs.Laid.{KeepsApart};
ghost use Rattle.oplog.specs.Long.{long_op, text_in, IsHead};

use crate::byte_place::BytePlace;
use crate::lent::OpRef;
use std::marker::Model;
use verifier::Mode;

// What an operation is, without its bytes.
#[derive(Clone, Copy)]
pub(crate) enum LongHead {
    // The run of a program, by its number in the catalogue. The bytes are its argument.
    Run(u16),
    // A program is installed: what it may call, and how long its argument is. The bytes are its instructions.
    Install { mode: Mode, arg_len: u16 },
}

/// An operation with more bytes than a record has room for: a call with more than [`MAX_ARG_LEN`](maps::MAX_ARG_LEN) bytes of an
/// argument, or the installing of a program of more than [`MAX_INSTALLED_BYTES`](crate::MAX_INSTALLED_BYTES). The bytes lie among
/// others next to it: so many, from a place on.
#[derive(Clone, Copy)]
pub struct LongOp {
    head: LongHead,
    len: u16,
    begin: BytePlace,
}

impl Model for LongOp {
    ghost use Rattle.oplog.specs.Long.{LongView};

    ghost Value = { LongView };

    ghost use Rattle.oplog.specs.Long.{IsHead};

    ghost view = { λ o. record { head = o.head; len = o.len; begin = o.begin } };

    // The argument of a program is no longer than any may be.
    ghost invariant = { λ o. IsHead o.head };

    ghost inverse = { λ o. record { head = o.head; len = o.len; begin = o.begin } };
}

impl LongOp {
    // The operation with these bytes, which are put after the others.
    pub(crate) fn behind(head: LongHead, text: &[u8], beside: &mut Vec<u8>) -> LongOp
        requires head { IsHead head }
        requires fits { length text.now ≤ MOST_ARG_LEN }
        requires room { length beside.old.items + length text.now ≤ vec_capacity beside.old }
        requires short { length beside.old.items < 2 ^ 32 }
        ensures operation { result ≡ record { head = head; len = length text.now; begin = length beside.old.items } }
        ensures beside { beside.new.items ≡ beside.old.items ++ text.now }
        ensures capacity { vec_capacity beside.old ≤ vec_capacity beside.new }
    {
        let begin = BytePlace::new(beside.len());
        match beside.extend_from_slice(text) {
            Ok(()) => {}
            Err(_) => unreachable!(),
        }
        LongOp {
            head,
            len: text.len() as u16,
            begin,
        }
    }

    // The operation with these bytes, which are written among the others, from a place on.
    pub(crate) fn at(head: LongHead, text: &[u8], beside: &mut Vec<u8>, begin: usize) -> LongOp
        requires head { IsHead head }
        requires fits { length text.now ≤ MOST_ARG_LEN }
        requires room { begin + MOST_ARG_LEN ≤ vec_capacity beside.old }
        requires short { begin < 2 ^ 32 }
        ensures operation { result ≡ record { head = head; len = length text.now; begin = begin } }
        ensures there { take (length text.now) (drop begin beside.new.items) ≡ text.now }
        ensures within { begin + length text.now ≤ length beside.new.items }
        ensures apart { KeepsApart begin beside.old.items beside.new.items }
        ensures longer { length beside.old.items ≤ length beside.new.items }
        ensures capacity { vec_capacity beside.old ≤ vec_capacity beside.new }
    {
        reach(beside, begin + text.len());
        write_at(beside, begin, text);
        LongOp {
            head,
            len: text.len() as u16,
            begin: BytePlace::new(begin),
        }
    }

    // Where its bytes begin.
    pub(crate) fn begin(&self) -> usize
        ensures begin { result ≡ self.now.begin }
    {
        self.begin.get()
    }

    // Of the bytes next to it, so many were dropped in front.
    pub(crate) fn pull(&mut self, gap: usize)
        requires after { gap ≤ self.old.begin }
        ensures pulled { self.new ≡ record self.old { begin = self.old.begin - gap } }
    {
        self.begin = BytePlace::new(self.begin.get() - gap);
    }

    // The operation, lent.
    #[inline(always)]
    pub(crate) fn lent<'a>(&self, beside: &'a [u8]) -> OpRef<'a>
        requires within { self.now.begin + self.now.len ≤ length beside.now }
        requires fits { self.now.len ≤ MOST_ARG_LEN }
        ensures operation { result ≡ long_op self.now.head (text_in beside.now self.now) }
    {
        let LongOp { head, len, begin } = *self;
        let begin = begin.get();
        let text = &beside[begin..begin + len as usize];
        match head {
            LongHead::Run(program) => OpRef::run(program, text),
            LongHead::Install { mode, arg_len } => OpRef::install(mode, arg_len as usize, text),
        }
    }
}

// Writes a text over the bytes, from a place on.
fn write_at(beside: &mut Vec<u8>, begin: usize, text: &[u8])
    requires within { begin + length text.now ≤ length beside.old.items }
    ensures written { beside.new.items ≡ take begin beside.old.items ++ (text.now ++ drop (begin + length text.now) beside.old.items) }
    ensures capacity { vec_capacity beside.new ≡ vec_capacity beside.old }
{
    beside[begin..begin + text.len()].copy_from_slice(text);
}

// Fills bytes up to an end, if there are not as many, for which there is room.
fn reach(beside: &mut Vec<u8>, end: usize)
    requires room { end ≤ vec_capacity beside.old }
    ensures more { (rest : List ℕ) × (beside.new.items ≡ beside.old.items ++ rest) }
    ensures end { end ≤ length beside.new.items }
    ensures capacity { vec_capacity beside.old ≤ vec_capacity beside.new }
{
    if beside.len() < end {
        match beside.resize(end, 0) {
            Ok(()) => {}
            Err(_) => unreachable!(),
        }
    }
}
