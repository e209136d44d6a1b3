// The rules for arithmetic, which computes on numbers, copies any value and moves pointers.

ghost use Rattle.std.specs.Prelude.{◌≡◌, ◌<◌, ℕ, Bool, true};
ghost use Rattle.insn.specs.declared.instruction.Form.TheVariants as form;
ghost use Rattle.insn.specs.declared.instruction.Operation.TheVariants as operation;
ghost use Rattle.insn.specs.declared.instruction.Source.TheVariants as source;
ghost use Rattle.regkind.specs.Frames as frames;
ghost use Rattle.verifier.specs.Signature.{Signature};
ghost use Rattle.verifier.specs.Regions.{IsShort};
ghost use Rattle.verifier.specs.Rules.{first_broken};

use crate::context::Context;
use crate::operands::{copied, is_mov};
use crate::refusal::VerifyFault;
use crate::regions::{cannot_be_moved, is_pointer, is_unreadable};
use insn::{Operation, Source, distance};
use regkind::Frame;

// R10, the frame pointer, is read-only.
pub(crate) fn frame_pointer_written(dst: u8) -> Option<VerifyFault>
    ensures { (l : Signature) (f : frames.Frame) (value : ℕ) → result ≡ first_broken l (form.Imm64 dst value) f }
{
    if dst == 10 {
        Some(VerifyFault::FramePointerWritten)
    } else {
        None
    }
}

// Arithmetic with an immediate: a pointer is moved, a number is made, or one is computed.
pub(crate) fn broken_by_immediate(
    on: &Context,
    w64: bool,
    op: Operation,
    dst: u8,
    imm: i32,
) -> Option<VerifyFault>
    requires dst { dst < 11 }
    ensures { result ≡ first_broken on.now.signature.now (form.Alu w64 op dst (source.Imm imm)) on.now.frame.now }
{
    match distance(w64, op, Source::Imm(imm)) {
        Some(by) => broken_by_move(on, dst, by),
        None if is_mov(op) => frame_pointer_written(dst),
        None => broken_by_unary(on.frame, dst, dst),
    }
}

// A pointer is moved so far, or a number is added.
fn broken_by_move(on: &Context, dst: u8, by: i64) -> Option<VerifyFault>
    requires dst { dst < 11 }
    requires short { IsShort by }
    ensures { result ≡ first_broken on.now.signature.now (form.Alu true operation.Add dst (source.Imm by)) on.now.frame.now }
{
    let kind = on.frame.kind(dst);
    if is_unreadable(kind) {
        Some(VerifyFault::UnreadableRegister)
    } else if dst == 10 {
        Some(VerifyFault::FramePointerWritten)
    } else if cannot_be_moved(kind) {
        Some(VerifyFault::UndefinedOperation)
    } else if !on.signature.is_within(kind, by, 0) {
        Some(VerifyFault::OffsetOutOfRange)
    } else {
        None
    }
}

// Arithmetic with a register, on numbers alone but for a copy.
pub(crate) fn broken_by_register(
    f: &Frame,
    w64: bool,
    op: Operation,
    dst: u8,
    src: u8,
) -> Option<VerifyFault>
    requires dst { dst < 11 }
    requires src { src < 11 }
    ensures { (l : Signature) → result ≡ first_broken l (form.Alu w64 op dst (source.Reg src)) f.now }
{
    let (left, right) = (f.kind(dst), f.kind(src));
    if (!is_mov(op) && is_unreadable(left)) || is_unreadable(right) {
        Some(VerifyFault::UnreadableRegister)
    } else if dst == 10 {
        Some(VerifyFault::FramePointerWritten)
    } else if copied(w64, op, Source::Reg(src)).is_some() {
        None
    } else if (!is_mov(op) && is_pointer(left)) || is_pointer(right) {
        Some(VerifyFault::UndefinedOperation)
    } else {
        None
    }
}

// An operation on one number.
pub(crate) fn broken_by_unary(f: &Frame, dst: u8, src: u8) -> Option<VerifyFault>
    requires src { src < 11 }
    ensures { (l : Signature) (w64 : Bool) (bits : ℕ) → result ≡ first_broken l (form.MovSx w64 bits dst src) f.now }
{
    let kind = f.kind(src);
    if is_unreadable(kind) {
        Some(VerifyFault::UnreadableRegister)
    } else if dst == 10 {
        Some(VerifyFault::FramePointerWritten)
    } else if is_pointer(kind) {
        Some(VerifyFault::UndefinedOperation)
    } else {
        None
    }
}
