// Programs by their slots: what is known there, and the ways that lead there.

ghost use Rattle.std.specs.Prelude.{◌≡◌, ◌↔◌, ◌<◌, ◌≤◌, ◌++◌, ◌∷◌, [], ℕ, pos, None, Some, if◌then◌else◌, option_map, IfOk, IfSome, IsOk, IsSome, OnOk};
ghost use Rattle.insn.specs.declared.instruction.TheConstants.{MAX_SLOTS};
ghost use Rattle.insn.specs.Layout.{size, LeadsTo};
ghost use Rattle.maps.specs.Shapes.{AreShapesSupported};
ghost use Rattle.maps.specs.declared.shapes.TheConstants.{MOST_ARG_LEN};
ghost use Rattle.verifier.specs.Joined.{frame_in, leads};
ghost use Rattle.explain.specs.Listing.{verdict_on, FitsStore};
ghost use Rattle.explain.specs.Slots.{byte_in, cell_in, kind_in, line_above, slots_into};
ghost use Rattle.explain.specs.Study.{known_falls, HasSlot, IsStudy};

mod listing;
mod slots;

use crate::sentences::Word::Count;
use crate::sentences::{Written, put};
use helpers::Helper;
use insn::Operation::Mov;
use insn::{Condition, Edge, Form, Insn, MAX_SLOTS, Source};
pub use listing::{explain_program, explain_refusal};
use maps::{MOST_ARG_LEN, MapLimits, Shape, ShapeFault, shapes_within};
use regkind::{Cell, Frame, Kind};
use std::alloc::{AllocError, Global};
use verifier::{Explained, Mode, Signature, explain, frame_on_edge};

// How many bytes the stack has.
const STACK_BYTES: usize = 512;

/// A program as a line of a manifest names it.
#[derive(Clone, Copy)]
pub struct Subject<'a> {
    /// The program's name.
    pub name: &'a str,
    /// The number of its line.
    pub line: u32,
    /// The file in which its bytes stand.
    pub file: &'a str,
    /// Whether it may change maps.
    pub mode: Mode,
    /// How many bytes its argument has.
    pub arg_len: usize,
    /// The maps, in order.
    pub shapes: &'a [Shape],
    /// The program's instructions, in order.
    pub program: &'a [Insn],
}

// An edge, with the slot of the instruction that it leaves.
#[derive(Clone, Copy)]
pub(crate) struct Step {
    pub from: usize,
    pub edge: Edge,
}

// A program, with what the verifier knows of it.
#[derive(Drop)]
pub(crate) struct Study<'a> {
    pub alloc: Global,
    pub subject: Subject<'a>,
    pub known: Explained,
    // For each slot the instruction that begins there, if one does.
    begins: Vec<Option<&'a Insn>>,
    // For each slot the edges that lead forward to it: the jumps, in order, and then that from the instruction above.
    edges: Vec<Vec<Step>>,
}

// What is known of a byte of the stack.
#[derive(Clone, Copy, PartialEq, Eq)]
pub(crate) enum Byte {
    Unwritten,
    Number,
    // A part of a pointer that stands there.
    Pointer,
}

// What a register has in a frame, if there is one.
pub(crate) fn kind_in(frame: Option<&Frame>, register: u8) -> Kind
    ensures { register < 11 → result ≡ kind_in (option_map (λ f. f.now) frame.entry) register }
{
    match frame {
        Some(frame) if register < 11 => frame.kind(register),
        _ => Kind::Unreadable,
    }
}

// What a cell of the stack has in a frame, if there is one.
pub(crate) fn cell_in(frame: Option<&Frame>, cell: usize) -> Cell
    requires { cell < 64 }
    ensures { result ≡ cell_in (option_map (λ f. f.now) frame.entry) cell }
{
    match frame {
        Some(frame) => frame.cell(cell),
        None => Cell::Marks(0),
    }
}

// What a byte of the stack is, counted from its lower end, in a frame if there is one.
pub(crate) fn byte_in(frame: Option<&Frame>, byte: usize) -> Byte
    ensures { byte < 512 → result ≡ byte_in (option_map (λ f. f.now) frame.entry) byte }
{
    if byte >= STACK_BYTES {
        return Byte::Unwritten;
    }
    match cell_in(frame, byte / 8) {
        Cell::Marks(marks) if marks >> (byte % 8) & 1 == 1 => Byte::Number,
        Cell::Marks(_) => Byte::Unwritten,
        Cell::Spilled(_) => Byte::Pointer,
    }
}

// The distance of a byte of the stack from its end, of one counted from its lower end.
pub(crate) fn from_end(byte: usize) -> i64 {
    byte.min(STACK_BYTES) as i64 - STACK_BYTES as i64
}

// For each slot the instruction that begins there.
fn begins_of(alloc: Global, program: &[Insn]) -> Result<Vec<Option<&Insn>>, AllocError> {
    let mut begins = Vec::new(alloc);
    for insn in program {
        begins.push(Some(insn))?;
        if insn.slot_count() == 2 {
            begins.push(None)?;
        }
    }
    Ok(begins)
}

// The slot to which an instruction leads by an edge.
pub(crate) fn successor(form: Form, slot: usize, edge: Edge) -> Option<usize>
    ensures { slot < MAX_SLOTS → (t : ℕ) → (result ≡ Some t) ↔ LeadsTo form slot edge (pos t) }
{
    if slot >= MAX_SLOTS {
        return None;
    }
    form.successor(slot, edge)
}

// The slot to which an instruction jumps, which the program may not have.
pub(crate) fn jump_target(form: Form, slot: usize) -> Option<i64> {
    let next = i64::try_from(slot).unwrap_or(i64::MAX).saturating_add(1);
    Some(next.saturating_add(i64::from(form.displacement()?)))
}

// Whether an instruction at a slot leads to another by an edge.
fn leads(form: Form, slot: usize, edge: Edge, to: usize) -> bool
    ensures { slot < MAX_SLOTS → result ≡ leads form slot edge to }
{
    match successor(form, slot, edge) {
        Some(next) => next == to,
        None => false,
    }
}

// Adds a slot, if it is one of those that are wanted.
fn push_if(slots: &mut Vec<usize>, slot: usize, is_wanted: bool) -> Written
    ensures { OnOk result (slots.new.items ≡ slots.old.items ++ (if is_wanted then slot ∷ [] else [])) }
{
    if is_wanted {
        slots.push(slot)?;
    }
    Ok(())
}

// The lower slots from which this edge leads to a slot, in order.
pub(crate) fn slots_into(
    alloc: Global,
    program: &[Insn],
    edge: Edge,
    to: usize,
) -> Result<Vec<usize>, AllocError>
    ensures { size program.now ≤ MAX_SLOTS → to < size program.now → IfOk result (λ v. v.items ≡ slots_into program.now edge to) }
{
    let mut found = Vec::new(alloc);
    let mut from = 0usize;
    for insn in program {
        if from >= to {
            return Ok(found);
        }
        push_if(&mut found, from, leads(insn.form(), from, edge, to))?;
        from = from.saturating_add(insn.slot_count());
    }
    Ok(found)
}

// All edges that lead forward to a slot: the jumps, in order, and then that from the instruction above.
fn steps_to(alloc: Global, program: &[Insn], to: usize) -> Result<Vec<Step>, AllocError> {
    let mut steps = Vec::new(alloc);
    for edge in [Edge::Jump, Edge::Fall] {
        for from in &slots_into(alloc, program, edge, to)? {
            steps.push(Step { from: *from, edge })?;
        }
    }
    Ok(steps)
}

// Whether maps may have these shapes by the widest limits; if not, why.
fn shapes_supported(shapes: &[Shape]) -> Result<(), ShapeFault>
    ensures ok { IsOk result ↔ AreShapesSupported shapes.now }
{
    shapes_within(&MapLimits::widest(), shapes)
}

impl<'a> Study<'a> {
    // What is known of a program; nothing where no store has such maps or arguments.
    pub(crate) fn of(alloc: Global, subject: Subject<'a>) -> Result<Option<Study<'a>>, AllocError>
        ensures some { AreShapesSupported subject.entry.shapes.now → subject.entry.arg_len ≤ MOST_ARG_LEN → IfOk result IsSome }
        ensures none { (FitsStore subject.entry → ⊥) → IfOk result (λ o. o ≡ None) }
        ensures same { IfOk result (λ o. IfSome o (λ s. s.subject ≡ subject.entry)) }
        ensures refused { IfOk result (λ o. IfSome o (λ s. s.known.refused ≡ verdict_on subject.entry)) }
        ensures known { IfOk result (λ o. IfSome o IsStudy) }
    {
        let (program, shapes, arg_len) = (subject.program, subject.shapes, subject.arg_len);
        if shapes_supported(shapes).is_err() || arg_len > MOST_ARG_LEN {
            return Ok(None);
        }
        let known = explain(alloc, program, shapes, arg_len, subject.mode)?;
        let begins = begins_of(alloc, program)?;
        let mut edges = Vec::new(alloc);
        for slot in 0..begins.len() {
            edges.push(steps_to(alloc, program, slot)?)?;
        }
        Ok(Some(Study {
            alloc,
            subject,
            known,
            begins,
            edges,
        }))
    }

    // How many slots the program takes.
    pub(crate) fn slots(&self) -> usize {
        self.begins.len()
    }

    // What the instruction that begins at a slot means, if one does.
    pub(crate) fn form_at(&self, slot: usize) -> Option<Form> {
        let insn = *self.begins.get(slot)?;
        Some(insn?.form())
    }

    // What is known before the instruction at a slot, if something is.
    pub(crate) fn frame_at(&self, slot: usize) -> Option<&Frame>
        ensures { option_map (λ f. f.now) result ≡ frame_in self.now.known.frames.items slot }
    {
        self.known.frames.get(slot)?.as_ref()
    }

    // What a register has before the instruction at a slot.
    pub(crate) fn kind_at(&self, slot: usize, register: u8) -> Kind {
        kind_in(self.frame_at(slot), register)
    }

    // All edges that lead forward to a slot, the lowest first.
    pub(crate) fn steps_into(&self, slot: usize) -> &[Step] {
        self.edges.get(slot).map_or(&[], |steps| steps.as_slice())
    }

    // The edges of `steps_into` that are jumps.
    pub(crate) fn jumps_into(&self, slot: usize) -> &[Step] {
        let steps = self.steps_into(slot);
        match steps.split_last() {
            Some((last, jumps)) if last.edge == Edge::Fall => jumps,
            _ => steps,
        }
    }

    // The slot of the instruction above that falls through to a slot, if something is known there.
    pub(crate) fn falls_into(&self, slot: usize) -> Result<Vec<usize>, AllocError>
        ensures { HasSlot self.now slot → IfOk result (λ v. v.items ≡ known_falls self.now slot) }
    {
        let falls = slots_into(self.alloc, self.subject.program, Edge::Fall, slot)?;
        let mut known = Vec::new(self.alloc);
        for from in &falls {
            push_if(&mut known, *from, self.frame_at(*from).is_some())?;
        }
        Ok(known)
    }

    // What is known on the line above, where a slot is reached from there alone.
    pub(crate) fn line_above(&self, jumps: &[usize], falls: &[usize]) -> Option<&Frame>
        ensures { option_map (λ f. f.now) result ≡ line_above (frame_in self.now.known.frames.items) jumps.now falls.now }
    {
        match (jumps, falls) {
            ([], [from, ..]) => self.frame_at(*from),
            _ => None,
        }
    }

    // What is known where an edge ends; nothing where nothing leads to its instruction, or that breaks a rule.
    pub(crate) fn along(&self, step: Step) -> Option<Frame> {
        let insn = *self.begins.get(step.from)?;
        let before = self.frame_at(step.from)?;
        let (shapes, arg_len) = (self.subject.shapes, self.subject.arg_len);
        if shapes_supported(shapes).is_err() || arg_len > MOST_ARG_LEN {
            return None;
        }
        let signature = Signature::new(shapes, arg_len, self.subject.mode);
        frame_on_edge(insn?, before, &signature, step.edge)
    }
}

// The register among the operands, if the second one is a register.
pub(crate) fn register_of(src: Source) -> Option<u8> {
    match src {
        Source::Reg(register) => Some(register),
        Source::Imm(_) => None,
    }
}

// The registers that an instruction reads, in the order of its operands.
pub(crate) fn reads(form: Form) -> [Option<u8>; 4] {
    match form {
        Form::Alu { op: Mov, src, .. } => [register_of(src), None, None, None],
        Form::Alu { dst, src, .. } | Form::Store { dst, src, .. } | Form::Branch { dst, src, .. } =>
            [Some(dst), register_of(src), None, None],
        Form::Neg { dst, .. } | Form::Swap { dst, .. } => [Some(dst), None, None, None],
        Form::MovSx { src, .. } | Form::Load { src, .. } => [Some(src), None, None, None],
        Form::Imm64 { .. } | Form::MapRef { .. } | Form::Ja { .. } => [None; 4],
        Form::Call { id } => match Helper::numbered(id) {
            Some(Helper::Lookup | Helper::Delete) => [Some(1), Some(2), None, None],
            Some(Helper::Update) => [Some(1), Some(2), Some(3), Some(4)],
            None => [None; 4],
        },
        Form::Exit => [Some(0), None, None, None],
    }
}

// The register that an instruction writes, if it writes one.
pub(crate) fn written(form: Form) -> Option<u8> {
    match form {
        Form::Alu { dst, .. } | Form::Neg { dst, .. } | Form::MovSx { dst, .. } => Some(dst),
        Form::Swap { dst, .. } | Form::Load { dst, .. } => Some(dst),
        Form::Imm64 { dst, .. } | Form::MapRef { dst, .. } => Some(dst),
        Form::Call { .. } => Some(0),
        Form::Store { .. } | Form::Ja { .. } | Form::Branch { .. } | Form::Exit => None,
    }
}

// The register that is copied whole, if one is.
fn copied(form: Form) -> Option<u8> {
    match form {
        Form::Alu {
            w64: true,
            op: Mov,
            src,
            ..
        } => register_of(src),
        _ => None,
    }
}

// Whether a branch is a test for null, as far as that is no matter of its width.
pub(crate) fn is_null_test(cond: Condition, src: Source) -> bool {
    matches!(cond, Condition::Jeq | Condition::Jne) && matches!(src, Source::Imm(0))
}

// The register that is tested for null, if one is.
pub(crate) fn tested(form: Form) -> Option<u8> {
    match form {
        Form::Branch { w64, cond, src, .. } if w64 && is_null_test(cond, src) => reads(form)[0],
        _ => None,
    }
}

// What is missing at the end of a way.
#[derive(Clone, Copy)]
pub(crate) enum Lack {
    Nothing,
    // A value of this register.
    Register(u8),
    // A byte of the stack, counted from its lower end.
    Byte(usize),
}

impl Lack {
    // Whether it is missing along an edge.
    fn is_along(self, study: &Study<'_>, step: Step) -> bool {
        let frame = study.along(step);
        let is_missing = match self {
            Lack::Nothing => true,
            Lack::Register(register) => kind_in(frame.as_ref(), register) == Kind::Unreadable,
            Lack::Byte(byte) => byte_in(frame.as_ref(), byte) != Byte::Number,
        };
        frame.is_some() && is_missing
    }
}

// A way from the entry to a slot.
#[derive(Drop)]
pub(crate) struct Way<'a> {
    pub study: &'a Study<'a>,
    // The edges, in order.
    pub steps: Vec<Step>,
    // The slot to which the last one leads.
    pub end: usize,
    // The last slot at which each edge brings what is missing, but not the same.
    pub meeting: Option<usize>,
    // The last slot at which another edge brings what is missing.
    pub parted: Option<usize>,
}

impl<'a> Way<'a> {
    // The way to a slot on which something is missing, and where there is a choice the lowest one.
    pub(crate) fn to(study: &'a Study<'a>, end: usize, missing: Lack) -> Result<Self, AllocError> {
        let mut steps = Vec::new(study.alloc);
        let (mut meeting, mut parted) = (None, None);
        let (mut lack, mut at) = (missing, end);
        for _slot in 0..study.slots() {
            let into = study.steps_into(at);
            let Some(lowest) = into.first() else {
                break;
            };
            let found = into.iter().find(|step| lack.is_along(study, **step));
            let is_elsewhere = into.iter().any(|step| !lack.is_along(study, *step));
            if found.is_none() {
                meeting = Some(at);
                lack = Lack::Nothing;
            } else if is_elsewhere && parted.is_none() {
                parted = Some(at);
            }
            let step = *found.unwrap_or(lowest);
            steps.push(step)?;
            at = step.from;
        }
        steps.reverse();
        Ok(Way {
            study,
            steps,
            end,
            meeting,
            parted,
        })
    }

    // What the instruction at its end means.
    pub(crate) fn form(&self) -> Option<Form> {
        self.study.form_at(self.end)
    }

    // What a register has there.
    pub(crate) fn kind(&self, register: u8) -> Kind {
        self.study.kind_at(self.end, register)
    }

    // The slot of the instruction from which a register has its value where the way has taken so many steps; copies are followed back.
    pub(crate) fn origin(&self, register: u8, before: usize) -> Option<usize> {
        let mut register = register;
        let mut found = None;
        for step in self.steps.iter().take(before).rev() {
            let form = self.study.form_at(step.from);
            if form.and_then(written) == Some(register) {
                found = Some(step.from);
                match form.and_then(copied) {
                    Some(source) => register = source,
                    None => break,
                }
            }
        }
        found
    }

    // Its slots, in order.
    pub(crate) fn slots(&self) -> Result<Vec<usize>, AllocError> {
        let mut slots = Vec::new(self.study.alloc);
        for step in &self.steps {
            slots.push(step.from)?;
        }
        slots.push(self.end)?;
        Ok(slots)
    }

    // Adds its slots, and of a long way those between which nothing is left out: the first and the last of each piece without a jump.
    pub(crate) fn put(&self, out: &mut String) -> Written {
        let is_long = self.steps.len() > 40;
        let mut first = self.steps.first().map_or(self.end, |step| step.from);
        for step in &self.steps {
            let words = [Count(first), Count(step.from)];
            if !is_long {
                put(out, "{1} ", &words)?;
            } else if step.edge == Edge::Jump {
                put(out, "{0} to {1}, ", &words)?;
                first = step.from;
            }
        }
        let text = if is_long { "{0} to {1}" } else { "{1}" };
        put(out, text, &[Count(first), Count(self.end)])
    }
}
