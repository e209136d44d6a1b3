// Where an instruction may take a pointer for a number.

ghost use Rattle.std.specs.Prelude.{◌≡◌};
ghost use Rattle.verifier.specs.Operands.{is_mov, copied, jumps_at_null};

use insn::{Condition, Operation, Source};

// MOV, which doesn't read its destination.
pub(crate) fn is_mov(op: Operation) -> bool
    ensures { result ≡ is_mov op }
{
    matches!(op, Operation::Mov)
}

// The register that a MOV of 64 bits copies, whatever it holds.
pub(crate) fn copied(w64: bool, op: Operation, src: Source) -> Option<u8>
    ensures { result ≡ copied w64 op src }
{
    match (w64, op, src) {
        (true, Operation::Mov, Source::Reg(register)) => Some(register),
        _ => None,
    }
}

// Whether a test of 64 bits against zero jumps at null.
pub(crate) fn jumps_at_null(w64: bool, cond: Condition, src: Source) -> Option<bool>
    ensures { result ≡ jumps_at_null w64 cond src }
{
    match (w64, cond, src) {
        (true, Condition::Jeq, Source::Imm(0)) => Some(true),
        (true, Condition::Jne, Source::Imm(0)) => Some(false),
        _ => None,
    }
}
