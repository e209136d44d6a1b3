// The first rule that an instruction breaks on the frame before it.

ghost use Rattle.std.specs.Prelude.{◌≡◌, ◌<◌, ℤ};
ghost use Rattle.insn.specs.declared.instruction.Form.TheVariants as form;
ghost use Rattle.insn.specs.Encoding.{HasEncoding, IsSource};
ghost use Rattle.regkind.specs.Frames as frames;
ghost use Rattle.verifier.specs.Signature.{Signature};
ghost use Rattle.verifier.specs.Rules.{first_broken, misuses};

use crate::accesses::{broken_by_load, broken_by_store, source_kind};
use crate::arithmetic::{
    broken_by_immediate, broken_by_register, broken_by_unary, frame_pointer_written,
};
use crate::calls::broken_by_call;
use crate::context::Context;
use crate::operands::jumps_at_null;
use crate::refusal::VerifyFault;
use crate::regions::{cannot_be_tested, is_pointer, is_unreadable};
use crate::signature::Signature;
use insn::{Condition, Form, Source};
use regkind::Frame;

/// The rule of the lowest number, from V6 to V18, that the instruction breaks on the frame before it.
pub(crate) fn broken_rule(on: &Context, i: Form) -> Option<VerifyFault>
    requires instruction { HasEncoding i }
    ensures { result ≡ first_broken on.now.signature.now i on.now.frame.now }
{
    let f = on.frame;
    match i {
        Form::Alu {
            w64,
            op,
            dst,
            src: Source::Imm(imm),
        } => broken_by_immediate(on, w64, op, dst, imm),
        Form::Alu {
            w64,
            op,
            dst,
            src: Source::Reg(src),
        } => broken_by_register(f, w64, op, dst, src),
        Form::Neg { dst, .. } => broken_by_unary(f, dst, dst),
        Form::Swap { dst, .. } => broken_by_unary(f, dst, dst),
        Form::MovSx { dst, src, .. } => broken_by_unary(f, dst, src),
        Form::Load {
            size,
            dst,
            src,
            off,
            ..
        } => broken_by_load(on, size, dst, src, off),
        Form::Store {
            size,
            dst,
            off,
            src,
        } => broken_by_store(on, size, dst, off, src),
        Form::Imm64 { dst, .. } => frame_pointer_written(dst),
        Form::MapRef { dst, index } => broken_by_map(on.signature, dst, index),
        Form::Ja { .. } => None,
        Form::Branch {
            w64,
            cond,
            dst,
            src,
            ..
        } => broken_by_branch(f, w64, cond, dst, src),
        Form::Call { id } => broken_by_call(on, id),
        Form::Exit => broken_by_exit(f),
    }
}

// A map by its index.
fn broken_by_map(l: &Signature, dst: u8, index: i32) -> Option<VerifyFault>
    ensures { (f : frames.Frame) → result ≡ first_broken l.now (form.MapRef dst index) f }
{
    if dst == 10 {
        Some(VerifyFault::FramePointerWritten)
    } else if index < 0 || index as usize >= l.map_count() {
        Some(VerifyFault::UnknownHelperOrMap)
    } else {
        None
    }
}

// A branch on numbers, or a test for null.
fn broken_by_branch(
    f: &Frame,
    w64: bool,
    cond: Condition,
    dst: u8,
    src: Source,
) -> Option<VerifyFault>
    requires dst { dst < 11 }
    requires src { IsSource src }
    ensures { (l : Signature) (off : ℤ) → result ≡ first_broken l (form.Branch w64 cond dst src off) f.now }
{
    let (left, right) = (f.kind(dst), source_kind(f, src));
    if is_unreadable(left) || is_unreadable(right) {
        Some(VerifyFault::UnreadableRegister)
    } else if misuses_pointer(f, w64, cond, dst, src) {
        Some(VerifyFault::UndefinedOperation)
    } else {
        None
    }
}

// Whether a branch is on a pointer, but a test for null of the answer of a lookup.
fn misuses_pointer(f: &Frame, w64: bool, cond: Condition, dst: u8, src: Source) -> bool
    requires dst { dst < 11 }
    requires src { IsSource src }
    ensures { (off : ℤ) → result ≡ misuses (form.Branch w64 cond dst src off) f.now }
{
    match jumps_at_null(w64, cond, src) {
        Some(_) => cannot_be_tested(f.kind(dst)),
        None => is_pointer(f.kind(dst)) || is_pointer(source_kind(f, src)),
    }
}

// The reply in R0 is a number.
fn broken_by_exit(f: &Frame) -> Option<VerifyFault>
    ensures { (l : Signature) → result ≡ first_broken l form.Exit f.now }
{
    let reply = f.kind(0);
    if is_unreadable(reply) {
        Some(VerifyFault::UnreadableRegister)
    } else if is_pointer(reply) {
        Some(VerifyFault::PointerReply)
    } else {
        None
    }
}
