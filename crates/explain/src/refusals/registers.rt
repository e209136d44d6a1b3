// Why it is refused what an instruction does with registers: V6 to V9, and V15 to V17.

use crate::programs::{Step, Study, Way, is_null_test, kind_in, reads, written};
use crate::refusals::map_in;
use crate::sentences::Word::{Count, Known, Number, Range, Register, Text};
use crate::sentences::{Advice, Word, offset_of, say, say_both};
use helpers::Helper;
use insn::{Edge, Form, Operation, Source, distance};
use regkind::Kind;

// What is told where two edges bring different things to a slot.
const DIFFERING: &str =
    "After {0} {1} {2} is {3}; after {4} {5} it is {6}. So nothing is known of it where they meet, at slot {7}.";

// What leads along an edge.
fn leads(step: Step) -> Word<'static> {
    Text(match step.edge {
        Edge::Jump => "the jump at slot",
        Edge::Fall => "slot",
    })
}

impl Study<'_> {
    // The first register that the instruction at a slot reads and of which nothing is known.
    pub(crate) fn unreadable_at(&self, slot: usize) -> Option<u8> {
        let registers = reads(self.form_at(slot)?);
        let mut read = registers.iter().flatten().copied();
        read.find(|register| self.kind_at(slot, *register) == Kind::Unreadable)
    }

    // What an edge brings in a register.
    fn kind_along(&self, step: Step, register: u8) -> Kind {
        kind_in(self.along(step).as_ref(), register)
    }

    // What is told where two edges bring different things to a slot; nothing where all bring the same.
    fn differing_edges(&self, at: usize, register: u8) -> Option<Advice<'static>> {
        let (first, rest) = self.steps_into(at).split_first()?;
        let one = self.kind_along(*first, register);
        let mut rest = rest.iter();
        let step = rest.find(|step| self.kind_along(**step, register) != one)?;
        let other = self.kind_along(*step, register);
        let fix = match (one, other) {
            (Kind::ValueOrNull(_), _) | (_, Kind::ValueOrNull(_)) =>
                "|Test {2} for null before the ways part.",
            _ => "|Do on each way what uses {2}, or make it the same on both.",
        };
        let words = [
            leads(*first),
            Count(first.from),
            Register(register),
            Known(one),
            leads(*step),
            Count(step.from),
            Known(other),
            Count(at),
        ];
        Some(say_both([DIFFERING, fix], &words))
    }
}

// Why nothing is loaded or stored through what a register has, which this instruction gave it, if one did.
fn access_refusal(kind: Kind, origin: Option<Form>) -> &'static str {
    match (kind, origin) {
        (Kind::Map(_), _) =>
            "{0} is map {2} itself, and not a value of it.|Call lookup (`call 1`) with the map in r1 and a key's address in r2, and test what it answers.",
        (_, Some(Form::Imm64 { .. })) =>
            "The number of slot {4} is used as an address, in {0}. Often the compiler left a reference to a global or a constant there, which nothing resolves: a program has the argument, the stack and maps alone.|Put the table into a map, or compute it; for a map write `NRBPF_MAP(n)` in C.",
        (_, Some(Form::Load { .. })) =>
            "{0} is the number that was loaded at slot {4}: a pointer doesn't come back as one from a value or an argument.|Keep what it points to, or look it up again.",
        (_, Some(Form::Call { id })) if Helper::numbered(id) == Some(Helper::Lookup) =>
            "{0} is null here: it is the answer of the lookup at slot {4}, and a test led this way where that is null.|Turn the test round: `jeq` for `jne`, or `jne` for `jeq`.",
        _ =>
            "{0} is a number, and no pointer.|Go through a pointer: the argument, the stack, or a value that was looked up.",
    }
}

// What is told where the bits of a pointer are computed with.
const POINTER_BITS: &str =
    "{0} is {1}, and a pointer's bits can't be had.|Compute with the number to which it points: load that first.";

// Why arithmetic with what a register has is refused.
fn arithmetic_refusal(op: Operation, src: Source, kind: Kind) -> &'static str {
    match (op, src, kind) {
        (Operation::Mov, _, _) =>
            "{0} is {1}, and 32 bits of a pointer are no pointer.|Copy it by `mov64`.",
        (Operation::Add | Operation::Sub, Source::Imm(_), Kind::ValueOrNull(_)) =>
            "{0} is a value of map {2}, or null, and null can't be moved.|Test it first: `jeq {0}, 0, ..`.",
        (Operation::Add | Operation::Sub, Source::Imm(_), Kind::Map(_)) =>
            "{0} is map {2} itself, which isn't moved.|Leave it out: the key chooses the value, and what the lookup answers can be moved within it.",
        (Operation::Add | Operation::Sub, Source::Reg(_), _) =>
            "{0} is {1}, and {3} is no constant: distances of pointers are.|Choose by compares among constant distances, or make the index part of a map's key. Where clang merged several reads into one: read each into a variable of its own before the choice, or put `asm volatile(\"\" ::: \"memory\")` between.",
        _ => POINTER_BITS,
    }
}

// Why a comparison of what a register has is refused, which is a test for null or not.
fn comparison_refusal(w64: bool, is_test: bool, kind: Kind) -> &'static str {
    match kind {
        Kind::ValueOrNull(_) if is_test && !w64 =>
            "{0} is tested by 32 of its 64 bits.|Write `jeq` or `jne`, without 32.",
        Kind::Stack(_) | Kind::Arg(_) | Kind::Map(_) | Kind::Value(_, _) if is_test =>
            "{0} is {1}, which is never null.|Leave the test out.",
        _ =>
            "{0} is {1}, and pointers can't be compared.|Compare numbers, as the keys or what is loaded; of pointers only a lookup's answer is compared, and with 0 alone.",
    }
}

// Why an instruction is refused, by what its register has, and the instruction that gave it that, if one did.
fn undefined_text(form: Form, kind: Kind, origin: Option<Form>) -> &'static str {
    match form {
        Form::Load { .. } | Form::Store { .. } => access_refusal(kind, origin),
        Form::Alu { op, src, .. } => arithmetic_refusal(op, src, kind),
        Form::Branch { w64, cond, src, .. } => comparison_refusal(
            w64,
            is_null_test(cond, src),
            kind,
        ),
        _ => POINTER_BITS,
    }
}

// What to do where no such helper is there, or no such map.
const OTHER_HELPER: &str =
    "|Call 1, 2 or 3; what else is wanted, as the time, comes in the argument. In C: `static inline` before the functions that the program calls.";

const OTHER_MAP: &str =
    "|Take one that is there, counted from 0, or give the manifest one more map line.";

impl Way<'_> {
    // The last slot at which what a register has is lost.
    fn last_loss(&self, register: u8) -> Option<usize> {
        let study = self.study;
        let lost = self.steps.iter().rev().find(|step| {
            let after = study.along(**step);
            let is_lost = after.is_some() && kind_in(after.as_ref(), register) == Kind::Unreadable;
            is_lost && study.kind_at(step.from, register) != Kind::Unreadable
        });
        Some(lost?.from)
    }

    // Whether an instruction of it but a call writes a register.
    fn is_written(&self, register: u8) -> bool {
        self.steps.iter().any(|step| match self.study.form_at(step.from) {
            Some(Form::Call { .. }) | None => false,
            Some(form) => written(form) == Some(register),
        })
    }

    // Why nothing is known of a register at its end, on the way to which what it had was lost or not.
    fn unreadable_text(&self, register: u8, lost: Option<Kind>) -> &'static str {
        match (lost, self.form()) {
            (Some(_), _) if register >= 1 && register <= 5 =>
                "{0} was lost at the call at slot {1}: a call takes r1 to r5.|Keep it in r6, r7, r8 or r9 before the call.",
            (Some(Kind::Value(_, _) | Kind::ValueOrNull(_)), _) =>
                "{0} pointed into a value of map {2}, and the call at slot {1} may have moved its values.|Look the key up again behind that call.",
            _ if lost.is_some() || self.parted.is_some() =>
                "On this way nothing sets {0}; on another to slot {1} something does.|Set {0} before the ways part. In C: a variable without a first value.",
            (_, Some(Form::Exit)) if !self.is_written(register) =>
                "The reply is {0}, and nothing on the way puts a number there.|Put `mov64 r0, 0` before `exit`. In C: a function that returns nothing; let it return a number.",
            (_, Some(Form::Call { .. })) =>
                "Nothing on the way sets {0}: at the entry r1 (the argument) and r10 (the stack's end) alone can be read.|Set {0} first: a call takes a map in r1, the address of a key in r2, and an update that of a value in r3 and flags in r4 (0 for any key).",
            _ =>
                "Nothing on the way sets {0}: at the entry r1 (the argument) and r10 (the stack's end) alone can be read.|Set {0} first.",
        }
    }

    // Why nothing is known of a register at its end.
    pub(crate) fn unreadable_register(&self) -> Option<Advice<'static>> {
        let study = self.study;
        let register = study.unreadable_at(self.end)?;
        let differing = self
            .meeting
            .and_then(|at| study.differing_edges(at, register));
        if differing.is_some() {
            return differing;
        }
        let lost = self.last_loss(register);
        let kind = lost.map(|at| study.kind_at(at, register));
        let at = lost.or(self.parted).unwrap_or(0);
        let map = map_in(kind.unwrap_or(Kind::Unreadable));
        let text = self.unreadable_text(register, kind);
        Some(say(text, &[Register(register), Count(at), map]))
    }

    // Why the operation at its end isn't defined.
    pub(crate) fn undefined_operation(&self) -> Option<Advice<'static>> {
        let form = self.form()?;
        let none = Source::Imm(0);
        let (dst, src) = match form {
            Form::Alu { dst, src, .. } | Form::Branch { dst, src, .. } => (dst, src),
            Form::Store { dst, .. } | Form::Neg { dst, .. } | Form::Swap { dst, .. } => (dst, none),
            Form::Load { src, .. } | Form::MovSx { src, .. } => (src, none),
            _ => return None,
        };
        // Of two registers that which has a pointer, and the other one.
        let (one, other) = match (src, self.kind(dst)) {
            (Source::Reg(by), Kind::Unreadable | Kind::Scalar) => (by, dst),
            (Source::Reg(by), _) => (dst, by),
            (Source::Imm(_), _) => (dst, dst),
        };
        let kind = self.kind(one);
        let origin = self.origin(one, self.steps.len());
        let text = undefined_text(form, kind, origin.and_then(|at| self.study.form_at(at)));
        let (map, slot) = (map_in(kind), Count(origin.unwrap_or(0)));
        let words = [Register(one), Known(kind), map, Register(other), slot];
        Some(say(text, &words))
    }

    // Where a pointer would be moved.
    pub(crate) fn moved_out(&self) -> Option<Advice<'static>> {
        let Form::Alu { w64, op, dst, src } = self.form()? else {
            return None;
        };
        let kind = self.kind(dst);
        let region = self.study.region_of(kind)?;
        let to = Number(offset_of(kind).saturating_add(distance(w64, op, src)?));
        let within = Range(region.low, region.high);
        let what =
            "{0} is {1}, and would be moved to {2}, where it may go from {3}.|Move it within, step by step; the end itself is allowed.";
        Some(say(what, &[Register(dst), Known(kind), to, within]))
    }

    // Why the reply is refused.
    pub(crate) fn pointer_reply(&self) -> Advice<'static> {
        let kind = self.kind(0);
        let text = match kind {
            Kind::ValueOrNull(_) =>
                "The reply in r0 is the answer of a lookup in map {1} itself.|Test it, then load the number: `ldxdw r0, [r0+0]`.",
            _ => "The reply in r0 is {0}.|Put a number into r0.",
        };
        say(text, &[Known(kind), map_in(kind)])
    }

    // The slot of the wide number that a register has, if it has one.
    fn wide_number_slot(&self, register: u8) -> Option<usize> {
        let at = self.origin(register, self.steps.len())?;
        matches!(self.study.form_at(at)?, Form::Imm64 { .. }).then_some(at)
    }

    // Why R2 or R3 is no address of so many bytes; nothing where it is one.
    fn wrong_address(&self, register: u8, bytes: usize) -> Option<Advice<'static>> {
        let (kind, constant) = (self.kind(register), self.wide_number_slot(register));
        let text = match (kind, constant) {
            (Kind::Scalar, Some(_)) =>
                "{0} is the number of slot {3}, and no address: a constant that the compiler put elsewhere isn't there.|Store it in the stack, and give its address; in C put it into a local variable.",
            (Kind::Scalar, None) if bytes > 8 =>
                "{0} is a number, and the call wants the address of {2} bytes there.|Store all {2} bytes in the stack, and give their address.",
            (Kind::Scalar, None) =>
                "{0} is a number, and the call wants the address of {2} bytes there.|Store it in the stack, and give its address: `stxdw [r10-8], {0}`, `mov64 {0}, r10`, `add64 {0}, -8`.",
            (Kind::ValueOrNull(_), _) => "{0} may be null.|Test it first: `jeq {0}, 0, ..`.",
            (Kind::Map(_) | Kind::Unreadable, _) =>
                "{0} is {1}, and the call wants an address there.|Give an address in the stack, the argument or a value.",
            (Kind::Stack(_) | Kind::Arg(_) | Kind::Value(_, _), _) => return None,
        };
        let slot = Count(constant.unwrap_or(0));
        Some(say(text, &[Register(register), Known(kind), Count(bytes), slot]))
    }

    // Says which argument of the call at the end of the way is wrong, and why.
    pub(crate) fn wrong_argument(&self) -> Advice<'static> {
        let kind = self.kind(1);
        let Kind::Map(map) = kind else {
            let constant = self.wide_number_slot(1);
            let text = match constant {
                Some(_) =>
                    "r1 is the number of slot {0}, and no map: a reference that the compiler left there was not resolved.|In C write `NRBPF_MAP(n)`: there is no loader for libbpf's map structs. In assembler text: `ldmap r1, n`.",
                None =>
                    "r1 is {1}, and a call wants a map there.|Put `ldmap r1, n` before the call, with the number of the map.",
            };
            return say(text, &[Count(constant.unwrap_or(0)), Known(kind)]);
        };
        let (key, value) = self.study.sizes(map);
        let what =
            "r4 is {0}, and the call wants flags there.|Put a number there: 0 for any key, 1 for a new one only, 2 for one that is there only.";
        let of_flags = say(what, &[Known(self.kind(4))]);
        let of_key = self.wrong_address(2, key);
        of_key.or(self.wrong_address(3, value)).unwrap_or(of_flags)
    }

    // Names the helper or the map that isn't there.
    pub(crate) fn unknown_name(&self) -> Option<Advice<'static>> {
        let (form, study) = (self.form()?, self.study);
        let shapes = study.subject.shapes;
        let what = match (form, shapes) {
            (Form::Call { id: -1 }, _) => "Helper -1 isn't there: the compiler left a call open.",
            (Form::Call { .. }, _) =>
                "Helper {0} isn't there: they are 1 (lookup), 2 (update) and 3 (delete).",
            (Form::MapRef { .. }, [_]) => "Map {0} isn't there: the manifest has map 0.",
            _ => "Map {0} isn't there: the manifest has maps 0 to {1}.",
        };
        let (number, fix) = match form {
            Form::Call { id } => (id, OTHER_HELPER),
            Form::MapRef { index, .. } => (index, OTHER_MAP),
            _ => return None,
        };
        let last = Count(shapes.len().saturating_sub(1));
        Some(say_both([what, fix], &[Number(i64::from(number)), last]))
    }
}
