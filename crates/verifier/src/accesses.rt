// The rules for loads and stores, which reach memory through pointers.

ghost use Rattle.std.specs.Prelude.{◌≡◌, ◌<◌, Bool};
ghost use Rattle.std.specs.List.{list_any};
ghost use Rattle.insn.specs.declared.instruction.Form.TheVariants as form;
ghost use Rattle.insn.specs.Encoding.{IsSource};
ghost use Rattle.regkind.specs.Frames as frames;
ghost use Rattle.verifier.specs.Kinds.{is_unreadable, is_pointer};
ghost use Rattle.verifier.specs.Operands.{source_registers, source_kind};
ghost use Rattle.verifier.specs.Rules.{first_broken, any_pointer};

use crate::context::Context;
use crate::refusal::{Mode, VerifyFault};
use crate::regions::{
    cannot_be_dereferenced, has_unmarked, is_arg, is_pointer, is_unreadable, is_value,
    is_value_or_null, pointer_in, whole_cell,
};
use insn::{Size, Source};
use regkind::{Frame, Kind};

// A load of bytes of memory.
pub(crate) fn broken_by_load(
    on: &Context,
    size: Size,
    dst: u8,
    src: u8,
    off: i16,
) -> Option<VerifyFault>
    requires src { src < 11 }
    ensures { (signed : Bool) → result ≡ first_broken on.now.signature.now (form.Load size signed dst src off) on.now.frame.now }
{
    let base = on.frame.kind(src);
    let bytes = size.bytes();
    if is_unreadable(base) {
        Some(VerifyFault::UnreadableRegister)
    } else if dst == 10 {
        Some(VerifyFault::FramePointerWritten)
    } else if cannot_be_dereferenced(base) {
        Some(VerifyFault::UndefinedOperation)
    } else if !on.signature.is_within(base, off as i64, bytes) {
        Some(VerifyFault::OutOfRegion)
    } else if pointer_in(on.frame, base, off as i64, bytes).is_none()
        && has_unmarked(on.frame, base, off as i64, bytes)
    {
        Some(VerifyFault::UninitialisedStack)
    } else if is_value_or_null(base) {
        Some(VerifyFault::UncheckedNull)
    } else {
        None
    }
}

// A store of bytes into memory.
pub(crate) fn broken_by_store(
    on: &Context,
    size: Size,
    dst: u8,
    off: i16,
    src: Source,
) -> Option<VerifyFault>
    requires dst { dst < 11 }
    requires src { IsSource src }
    ensures { result ≡ first_broken on.now.signature.now (form.Store size dst off src) on.now.frame.now }
{
    let target = on.frame.kind(dst);
    let stored = source_kind(on.frame, src);
    if is_unreadable(target) || is_unreadable(stored) {
        Some(VerifyFault::UnreadableRegister)
    } else if cannot_be_dereferenced(target) {
        Some(VerifyFault::UndefinedOperation)
    } else if !on.signature.is_within(target, off as i64, size.bytes()) {
        Some(VerifyFault::OutOfRegion)
    } else if is_arg(target) {
        Some(VerifyFault::ArgumentWritten)
    } else if is_pointer(stored) && whole_cell(target, off as i64, size.bytes()).is_none() {
        Some(VerifyFault::PointerStored)
    } else if is_value_or_null(target) {
        Some(VerifyFault::UncheckedNull)
    } else if on.signature.mode() == Mode::Read && is_value(target) {
        Some(VerifyFault::WriteInReadMode)
    } else {
        None
    }
}

// The kind of a second operand: an immediate is a number.
pub(crate) fn source_kind(f: &Frame, src: Source) -> Kind
    requires src { IsSource src }
    ensures unreadable { is_unreadable result ≡ list_any (λ r. is_unreadable (frames.kind f.now r)) (source_registers src) }
    ensures pointer { is_pointer result ≡ any_pointer (source_registers src) f.now }
    ensures kind { result ≡ source_kind src f.now }
{
    match src {
        Source::Reg(register) => f.kind(register),
        Source::Imm(_) => Kind::Scalar,
    }
}
