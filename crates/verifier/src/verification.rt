// The verifier: structure first, then one pass over the instructions in program order.

ghost use Rattle.std.specs.Prelude.{◌≡◌, ◌<◌, ◌≤◌, None, Some, length, replicate, slice_set, vec_capacity, IfOk, IfErr, IsOk, OnOk, OnErr, MatchResult};
ghost use Rattle.std.specs.List.{AllByRecursion};
ghost use Rattle.insn.specs.Encoding.{HasEncoding};
ghost use Rattle.insn.specs.Layout.{size};
ghost use Rattle.regkind.specs.Frames.{entry_frame};
ghost use Rattle.flow.specs.Structure.{IsStructured, HasGoodSize};
ghost use Rattle.maps.specs.Shapes.{AreShapesSupported};
ghost use Rattle.verifier.specs.Accepted.{accepted_with, checked, checked_in};
ghost use Rattle.verifier.specs.Signature.{Signature, signature, IsSignatureOk};
ghost use Rattle.verifier.specs.Typing.{IsTypable, Refuses, RefusedByStructure, RefusedByKinds, structure_reason, IsNoMemory, IfRefused};
ghost use Rattle.verifier.specs.Pass.{IsTypedBy};
ghost use Rattle.verifier.specs.Verdict.{lowest_refusal, verdict, IsVerdict, IsVerdictOrNoMemory};
ghost use Rattle.verifier.specs.Known.{AreKnown};

use crate::accepted::Accepted;
use crate::refusal::{Mode, Refused, VerifyError, VerifyFault};
use crate::rooms::Scratch;
use crate::signature::Signature;
use crate::visiting::visit;
use flow::{StructureRule, structure};
use insn::{Insn, MAX_SLOTS};
use maps::{MOST_ARG_LEN, Shape};
use regkind::Frame;
use std::alloc::{AllocError, Global};

/// Checks a program for maps of these shapes, an argument of so many bytes, and a mode.
///
/// Structure is decided first, for the whole program (V1 to V5), then what the instructions ask of the kinds of their
/// operands (V6 to V18). In each of the two the lowest slot is named, and there the lowest number. `NoMemory` says that
/// there is no memory left. A program that is refused isn't handed back.
///
/// # Examples
///
/// ```
/// use insn::decode;
/// use maps::Shape;
/// use verifier::{Mode, verify};
///
/// let shapes = [Shape::Array { value: 8, entries: 16 }];
/// let five = decode(rt.alloc(), &[0xb7, 0, 0, 0, 5, 0, 0, 0, 0x95, 0, 0, 0, 0, 0, 0, 0])?; // mov64 r0, 5; exit
/// let accepted = verify(rt.alloc(), five, &shapes, 0, Mode::Read)?;
/// assert_eq!(rt; (accepted.slots(), accepted.instructions()), (2, 2));
///
/// // `exit` alone replies a register that nothing wrote: V6 at slot 0.
/// let exit = decode(rt.alloc(), &[0x95, 0, 0, 0, 0, 0, 0, 0])?;
/// let refused = verify(rt.alloc(), exit, &shapes, 0, Mode::Read).err();
/// assert_eq!(rt; refused.map(|e| (e.slot(), e.number())), Some((0, 6)));
/// ```
pub fn verify(
    alloc: Global,
    program: Vec<Insn>,
    shapes: &[Shape],
    arg_len: usize,
    mode: Mode,
) -> Result<Accepted, VerifyError>
    requires shapes { AreShapesSupported shapes.now }
    requires argument { arg_len ≤ MOST_ARG_LEN }
    // What is handed back is the program, with what it was checked for.
    ensures accepted { IfOk result (λ a. checked_in a ≡ checked program.items shapes.now arg_len mode) }
    ensures typable { OnOk result (IsTypable program.items (signature shapes.now arg_len mode)) }
    // A typable program is not accepted only where there is no memory left.
    ensures only { IsTypable program.items (signature shapes.now arg_len mode)
        → IfErr result IsNoMemory }
    // A refusal names the first rule that is broken.
    ensures refused { IfErr result (IfRefused (Refuses program.items (signature shapes.now arg_len mode))) }
    // The answer is the computed verdict.
    ensures reading { IsVerdictOrNoMemory (verdict program.items (signature shapes.now arg_len mode)) result }
{
    let signature = Signature::new(shapes, arg_len, mode);
    accept(alloc, program, &signature, 0)
}

// What `verify` answers, with room for a program of so many slots in the place of this one.
pub(crate) fn accept(
    alloc: Global,
    program: Vec<Insn>,
    l: &Signature,
    room: usize,
) -> Result<Accepted, VerifyError>
    requires limits { IsSignatureOk l.now }
    ensures accepted { IfOk result (λ a. a ≡ accepted_with (checked program.items l.now.shapes l.now.arg_len l.now.mode) room) }
    ensures typable { OnOk result (IsTypable program.items l.now) }
    ensures only { IsTypable program.items l.now → IfErr result IsNoMemory }
    ensures refused { IfErr result (IfRefused (Refuses program.items l.now)) }
    ensures reading { IsVerdictOrNoMemory (verdict program.items l.now) result }
{
    check_structure(&program)?;
    let mut frames = Vec::with_capacity(alloc, count_slots(&program))?;
    check_kinds(&program, l, &mut frames)?;
    let accepted = Accepted::of(alloc, program, &frames, l, room)?;
    Ok(accepted)
}

/// What `verify` answers of a program for which there is room, in room that is lent. No memory is taken. An accepted program takes the
/// place of the one that was there; where it is refused, that one stays.
///
/// # Examples
///
/// ```
/// use insn::decode;
/// use maps::Shape;
/// use verifier::{Accepted, Mode, Scratch, Signature, verify_into};
///
/// let shapes = [Shape::Array { value: 8, entries: 16 }];
/// let (mut scratch, mut room) = (Scratch::open(rt.alloc(), 24)?, Accepted::room(rt.alloc(), &shapes, 24)?);
/// let seven = decode(rt.alloc(), &[0xb7, 0, 0, 0, 7, 0, 0, 0, 0x95, 0, 0, 0, 0, 0, 0, 0])?; // mov64 r0, 7; exit
/// let answer = verify_into(&seven, &Signature::new(&shapes, 0, Mode::Update), &mut scratch, &mut room);
/// assert_eq!(rt; answer, Ok(()));
/// assert_eq!(rt; (room.instructions(), room.mode()), (2, Mode::Update));
/// ```
pub fn verify_into(
    program: &[Insn],
    signature: &Signature,
    scratch: &mut Scratch,
    room: &mut Accepted,
) -> Result<(), Refused>
    requires few { size program.now ≤ scratch.old }
    requires room { size program.now ≤ room.old.room }
    requires limits { IsSignatureOk signature.now }
    ensures accepted { OnOk result (room.new ≡ accepted_with (checked program.now signature.now.shapes signature.now.arg_len signature.now.mode) room.old.room) }
    ensures same { OnErr result (room.new ≡ room.old) }
    ensures scratch { scratch.new ≡ scratch.old }
    ensures typable { OnOk result (IsTypable program.now signature.now) }
    ensures refused { IfErr result (Refuses program.now signature.now) }
    ensures reading { IsVerdict (verdict program.now signature.now) result }
{
    check_structure(program)?;
    check_kinds(program, signature, &mut scratch.frames)?;
    room.refill(program, &scratch.frames, &mut scratch.places, signature);
    Ok(())
}

// Whether the structure is good; else the first rule of structure that is broken.
pub(crate) fn check_structure(program: &[Insn]) -> Result<(), Refused>
    ensures structured { OnOk result (IsStructured program.now) }
    ensures refused { IfErr result (λ e. RefusedByStructure program.now e) }
    ensures reading { (l : Signature) → IfErr result (λ e. verdict program.now l ≡ Some e) }
{
    match structure(program) {
        Ok(()) => Ok(()),
        Err(broken) => Err(Refused {
            slot: broken.slot,
            why: fault_of_structure(broken.rule),
        }),
    }
}

// A rule of structure as the reason of a refusal.
fn fault_of_structure(rule: StructureRule) -> VerifyFault
    ensures { result ≡ structure_reason rule }
{
    match rule {
        StructureRule::TargetOutside => VerifyFault::TargetOutside,
        StructureRule::TargetNotForward => VerifyFault::TargetNotForward,
        StructureRule::TargetInsideWide => VerifyFault::TargetInsideWide,
        StructureRule::RunsOffTheEnd => VerifyFault::RunsOffTheEnd,
        StructureRule::Unreachable => VerifyFault::Unreachable,
    }
}

// The frames of a structured program, by their slots, if it can be typed; else the first rule of kinds that is broken. There is room.
fn check_kinds(
    program: &[Insn],
    l: &Signature,
    frames: &mut Vec<Option<Frame>>,
) -> Result<(), Refused>
    requires structured { IsStructured program.now }
    requires limits { IsSignatureOk l.now }
    requires room { size program.now ≤ vec_capacity frames.old }
    ensures accepted { OnOk result (IsTypable program.now l.now) }
    ensures frames { OnOk result (IsTypedBy program.now l.now frames.new.items) }
    ensures instructions { AllByRecursion HasEncoding program.now }
    ensures only { IsTypable program.now l.now → IsOk result }
    ensures refused { IfErr result (RefusedByKinds program.now l.now) }
    ensures reading { MatchResult result
        (λ _. verdict program.now l.now ≡ None)
        (λ e. verdict program.now l.now ≡ Some e) }
    ensures room { vec_capacity frames.new ≡ vec_capacity frames.old }
{
    match sweep(program, l, frames) {
        None => Ok(()),
        Some(refused) => Err(refused),
    }
}

// One pass over the instructions of a program, up to the first rule of kinds that is broken. Edges that don't lead forward are passed over, and
// so is what nothing leads to. There is room for the frames.
pub(crate) fn sweep(
    program: &[Insn],
    l: &Signature,
    frames: &mut Vec<Option<Frame>>,
) -> Option<Refused>
    requires good_size { HasGoodSize program.now }
    requires limits { IsSignatureOk l.now }
    requires room { size program.now ≤ vec_capacity frames.old }
    ensures reading { result ≡ lowest_refusal program.now l.now (size program.now) }
    ensures known { AreKnown program.now result frames.new.items }
    ensures slots { length frames.new.items ≡ size program.now }
    ensures instructions { AllByRecursion HasEncoding program.now }
    ensures room { vec_capacity frames.new ≡ vec_capacity frames.old }
{
    let slots = count_slots(program);
    first_frames(frames, slots);
    let mut slot = 0;
    for insn in program {
        let i = insn.form();
        match visit(frames, l, i, slot) {
            None => slot += i.slot_count(),
            Some(why) => {
                return Some(Refused {
                    slot: slot as u32,
                    why,
                });
            }
        }
    }
    None
}

// How many slots the instructions take.
fn count_slots(program: &[Insn]) -> usize
    requires few { size program.now ≤ MAX_SLOTS }
    ensures slots { result ≡ size program.now }
    ensures instructions { AllByRecursion HasEncoding program.now }
{
    let mut slots = 0;
    for insn in program {
        slots += insn.form().slot_count();
    }
    slots
}

// A place for the frame of each slot: the entry's at the first, none yet at the others. There is room.
fn first_frames(frames: &mut Vec<Option<Frame>>, slots: usize)
    requires some { 0 < slots }
    requires room { slots ≤ vec_capacity frames.old }
    ensures frames { frames.new.items ≡ slice_set (replicate slots None) 0 (Some entry_frame) }
    ensures room { vec_capacity frames.new ≡ vec_capacity frames.old }
{
    frames.clear();
    for _slot in 0..slots {
        frames.push_reserved(None);
    }
    frames[0] = Some(Frame::entry());
}
