// Why an access to memory is refused, by what an instruction does with it: V10 to V14, and V18.

use crate::programs::{Byte, Study, Way, byte_in, from_end, register_of, tested};
use crate::refusals::map_in;
use crate::sentences::Word::{Bytes, Count, Known, Nothing, Number, Range, Register, Small, Text};
use crate::sentences::{Advice, Word, offset_of, say, say_both};
use helpers::Helper;
use insn::{Form, Size};
use regkind::{Frame, Kind};

// The map of which a call wants bytes, if one does, and whether as its key or its value.
type Part = Option<(u8, &'static str)>;

// Bytes that an instruction wants.
#[derive(Clone, Copy)]
struct Access {
    of: Part,
    register: u8,
    kind: Kind,
    // From where in the region, and how many.
    at: i64,
    bytes: i64,
}

// A region by its name, its first place, and the one behind its last.
#[derive(Clone, Copy)]
pub(crate) struct Region {
    pub name: &'static str,
    pub low: i64,
    pub high: i64,
}

// Bytes that are wanted of the stack, and the first and the last of them in a row that can't be read, counted from its lower end.
#[derive(Clone, Copy)]
pub(crate) struct Gap {
    access: Access,
    pub first: usize,
    last: usize,
    // How many of all can be read.
    readable: usize,
    is_pointer: bool,
}

// What is told where bytes lie outside of a region, and of those that a call wants.
const OUTSIDE: &str = "{2} is {3}: bytes {4} of the {5} are wanted, and it has {6}.";

const OUTSIDE_OF_CALL: &str =
    "Map {0} has {10}s of {1} bytes, and {2} is {3}: bytes {4} of the {5} are wanted, and it has {6}.";

// As a count of bytes, which are few.
fn count(bytes: usize) -> i64 {
    bytes.min(4096) as i64
}

impl Study<'_> {
    // The sizes of the keys and of the values of a map.
    pub(crate) fn sizes(&self, map: u8) -> (usize, usize) {
        let shape = self.subject.shapes.get(usize::from(map));
        shape.map_or((0, 0), |shape| (shape.key_bytes(), shape.value_bytes()))
    }

    // The region into which a pointer points, if it is one.
    pub(crate) fn region_of(&self, kind: Kind) -> Option<Region> {
        let (name, low, high) = match kind {
            Kind::Stack(_) => ("stack", -512, 0),
            Kind::Arg(_) => ("argument", 0, count(self.subject.arg_len)),
            Kind::Value(map, _) => ("value", 0, count(self.sizes(map).1)),
            _ => return None,
        };
        Some(Region { name, low, high })
    }

    // The access of an instruction that wants `bytes` bytes at a distance from what a register has.
    fn wanted(&self, slot: usize, of: Part, register: u8, by: i16, bytes: usize) -> Option<Access> {
        let kind = self.kind_at(slot, register);
        Some(Access {
            of,
            register,
            kind,
            at: offset_of(kind).saturating_add(i64::from(by)),
            bytes: count(bytes),
        })
    }

    // The bytes that a load or a store wants.
    fn own(&self, slot: usize, register: u8, by: i16, size: Size) -> [Option<Access>; 2] {
        [self.wanted(slot, None, register, by, size.bytes()), None]
    }

    // What the instruction at a slot wants of memory.
    fn accesses(&self, slot: usize) -> [Option<Access>; 2] {
        match (self.form_at(slot), self.kind_at(slot, 1)) {
            (Some(Form::Load { size, src, off, .. }), _) => self.own(slot, src, off, size),
            (Some(Form::Store { size, dst, off, .. }), _) => self.own(slot, dst, off, size),
            (Some(Form::Call { id }), Kind::Map(map)) => {
                let (key, value) = self.sizes(map);
                let of_key = self.wanted(slot, Some((map, "key")), 2, 0, key);
                let of_value = self.wanted(slot, Some((map, "value")), 3, 0, value);
                match Helper::numbered(id) {
                    Some(Helper::Lookup | Helper::Delete) => [of_key, None],
                    Some(Helper::Update) => [of_key, of_value],
                    None => [None; 2],
                }
            }
            _ => [None; 2],
        }
    }

    // The bytes of the stack that the instruction at a slot wants and that can't be read.
    pub(crate) fn gap_at(&self, slot: usize) -> Option<Gap> {
        let frame = self.frame_at(slot)?;
        let mut wanted = self.accesses(slot).into_iter().flatten();
        wanted.find_map(|access| access.gap_in(frame))
    }
}

impl Access {
    // The map of the call that wants them, in words.
    fn map(self) -> Word<'static> {
        self.of.map_or(Nothing, |(map, _)| Small(map))
    }

    // The last of its bytes.
    fn last(self) -> i64 {
        self.at.saturating_add(self.bytes).saturating_sub(1)
    }

    // The region outside of which a byte of it lies, if one does.
    fn left(self, study: &Study<'_>) -> Option<Region> {
        let region = study.region_of(self.kind)?;
        (self.at < region.low || self.last() >= region.high).then_some(region)
    }

    // What to do where it leaves its region.
    fn way_back(self, needed: i64) -> &'static str {
        match self.kind {
            Kind::Arg(_) if self.at >= 0 && needed <= 64 =>
                "|Raise ARGLEN to {7} in the manifest, and give as many bytes in each call; or {8}.",
            Kind::Value(_, _) if self.at >= 0 && needed <= 256 =>
                "|Raise VALUE of map {9} to {7} in the manifest, or {8}.",
            Kind::Stack(_) if self.of.is_some() && self.bytes > 1 && self.at >= -512 =>
                "|Give all {1} bytes: write them in the stack, the first at r10 - {1} or below, and pass its address.",
            Kind::Stack(_) => "|Stay between r10 - 512 and r10.",
            _ => "|Stay within the bytes that are there.",
        }
    }

    // The first of its bytes in a row that can't be read, where they are the stack's.
    fn gap_in(self, frame: &Frame) -> Option<Gap> {
        let Kind::Stack(_) = self.kind else {
            return None;
        };
        let begin = usize::try_from(self.at.saturating_add(512)).unwrap_or(0);
        let end = begin.saturating_add(self.bytes.clamp(0, 512) as usize);
        let is_number = |byte: &usize| byte_in(Some(frame), *byte) == Byte::Number;
        let first = (begin..end).find(|byte| !is_number(byte))?;
        let unread = (first..end).take_while(|byte| !is_number(byte));
        let last = unread.last().unwrap_or(first);
        let readable = (begin..end).filter(is_number).count();
        Some(Gap {
            access: self,
            first,
            last,
            readable,
            is_pointer: byte_in(Some(frame), first) == Byte::Pointer,
        })
    }
}

impl Gap {
    // Whether some bytes of a key or a value were left out, as the padding of a struct in C is.
    fn is_padding(self) -> bool {
        self.access.of.is_some() && self.readable > 0 && self.last.saturating_sub(self.first) < 7
    }

    // What is wrong and what to do; `ended` is the slot at which a pointer ended there, and `parted` that at which another edge brings the bytes.
    fn text(self, ended: Option<usize>, parted: Option<usize>) -> &'static str {
        match (ended, parted) {
            _ if self.is_pointer =>
                "stack {4} is a part of a pointer.|Load a pointer by the 8 bytes into which it was stored; keys and values are numbers.",
            (Some(_), _) =>
                "stack {4} had a pointer, which ended at slot {5}.|Look its key up again, or store it elsewhere: an update or a delete ends the stored pointers to values of its map, and a byte stored over a pointer ends it.",
            (None, Some(_)) =>
                "stack {4} isn't written on this way, as it is on another to slot {5}.|Write it before the ways part.",
            (None, None) if self.is_padding() =>
                "stack {4} isn't written.|Write it too. In C it is often the padding of a struct: clear all of it first (`__builtin_memset(&x, 0, sizeof x)`), or order the fields so that none is left.",
            (None, None) => "stack {4} isn't written.|Write it first.",
        }
    }
}

impl Way<'_> {
    // What is told of the first access at its end that goes outside its region.
    pub(crate) fn access_outside(&self) -> Option<Advice<'static>> {
        let mut wanted = self.study.accesses(self.end).into_iter().flatten();
        let access = wanted.find(|access| access.left(self.study).is_some())?;
        let region = access.left(self.study)?;
        let needed = access.last().saturating_add(1);
        let (part, what, other) = match access.of {
            Some((_, part)) => (part, OUTSIDE_OF_CALL, "give another address"),
            None => ("", OUTSIDE, "take fewer bytes"),
        };
        let there = match (region.low, region.high) {
            (0, 0) => Text("none"),
            (low, high) => Range(low, high.saturating_sub(1)),
        };
        let words = [
            access.map(),
            Number(access.bytes),
            Register(access.register),
            Known(access.kind),
            Range(access.at, access.last()),
            Text(region.name),
            there,
            Number(needed),
            Text(other),
            map_in(access.kind),
            Text(part),
        ];
        Some(say_both([what, access.way_back(needed)], &words))
    }

    // The last instruction on the way that ended a pointer at a byte of the stack.
    fn ended_pointer(&self, byte: usize) -> Option<usize> {
        let study = self.study;
        let ends = self.steps.iter().rev().find(|step| {
            let after = study.along(**step);
            byte_in(study.frame_at(step.from), byte) == Byte::Pointer
                && byte_in(after.as_ref(), byte) != Byte::Pointer
        });
        Some(ends?.from)
    }

    // What is told of the bytes of the stack that can't be read at its end.
    pub(crate) fn unwritten_stack(&self) -> Option<Advice<'static>> {
        let gap = self.study.gap_at(self.end)?;
        let ended = self.ended_pointer(gap.first);
        let (part, head) = match gap.access.of {
            Some((_, part)) => (
                part,
                "{0} of the {1} of map {2}'s {6} at stack {3} can be read: ",
            ),
            None => ("", "{0} of the {1} at stack {3} can be read: "),
        };
        let words = [
            Count(gap.readable),
            Bytes(usize::try_from(gap.access.bytes).unwrap_or(0)),
            gap.access.map(),
            Number(gap.access.at),
            Range(from_end(gap.first), from_end(gap.last)),
            Count(ended.or(self.parted).unwrap_or(0)),
            Text(part),
        ];
        Some(say_both([head, gap.text(ended, self.parted)], &words))
    }

    // The other register with the answer of a lookup that the way tests, and where.
    fn tested_copy(&self, register: u8, lookup: usize) -> Option<(u8, usize)> {
        let mut copy = None;
        for (k, step) in self.steps.iter().enumerate() {
            let other = self.study.form_at(step.from).and_then(tested);
            let other = other.filter(|other| *other != register);
            if let Some(other) = other.filter(|other| self.origin(*other, k) == Some(lookup)) {
                copy = Some((other, step.from));
            }
        }
        copy
    }

    // The register through which the access at its end goes.
    pub(crate) fn base(&self) -> u8 {
        self.study.accesses(self.end)[0].map_or(0, |access| access.register)
    }

    // What is told where a pointer may be null: the answer of a lookup that nothing tested, or another register with it.
    pub(crate) fn maybe_null(&self) -> Advice<'static> {
        let register = self.base();
        let lookup = self.origin(register, self.steps.len());
        let copy = lookup.and_then(|at| self.tested_copy(register, at));
        let head = match lookup {
            Some(_) => "{0} may be null: it is the answer of the lookup at slot {1}",
            None => "{0} may be null: it is the answer of the lookup",
        };
        let text = match copy {
            Some(_) =>
                ", and the test at slot {2} is of {3}, which says nothing of {0}.|Use {3} behind its test, or test {0}. In C without optimisation, or where the pointer lives over a call: test the very variable that is used.",
            None =>
                ", and nothing on the way tests it.|Test it first: `jeq {0}, 0, ..` goes past its use where it is null.",
        };
        let (other, at) = copy.unwrap_or((0, 0));
        let from = Count(lookup.unwrap_or(0));
        let words = [Register(register), from, Count(at), Register(other)];
        say_both([head, text], &words)
    }

    // What a store of a pointer would need.
    pub(crate) fn stored_pointer(&self) -> Option<Advice<'static>> {
        let access = self.study.accesses(self.end)[0]?;
        let Some(Form::Store { src, .. }) = self.form() else {
            return None;
        };
        let text = match access.kind {
            Kind::Stack(_) =>
                "{0} is a pointer, and stack {1} isn't the first byte of a cell, or not 8 bytes are stored.|Store its 8 bytes (`stxdw`) at r10 - 8, r10 - 16, .. or r10 - 512, or keep it in r6 to r9.",
            _ =>
                "{0} is a pointer, and a value keeps numbers alone: another program couldn't use it.|Store its key, and look it up again; or store what it points to.",
        };
        Some(say(text, &[Register(register_of(src)?), Number(access.at)]))
    }
}
