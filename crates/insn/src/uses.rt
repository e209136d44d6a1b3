// What keeps a slot from beginning an instruction, by the fields that its opcode has in use (RFC 9669, sections 4 and 5).

ghost use Rattle.std.specs.Prelude.{◌≡◌, find, Some, ◌∷◌, []};
ghost use Rattle.insn.specs.Opcodes.{OpcodesAreThoseOfInstructions};
ghost use Rattle.insn.specs.Refusal.{breaks, first_slot_faults, some_field, is_undefined, is_set_though_unused};

use crate::decoding::DecodeFault;
use crate::instruction::Fields;
use opcodes::{Use, Uses, uses_of};

// Whether a field that is in use has none of its values.
fn has_undefined_field(uses: Uses, fields: Fields) -> bool
    ensures { result ≡ some_field is_undefined (Some uses) fields }
{
    is_undefined(uses.dst, i32::from(fields.dst))
        || is_undefined(uses.src, i32::from(fields.src))
        || is_undefined(uses.offset, i32::from(fields.offset))
        || is_undefined(uses.imm, fields.imm)
}

// Whether a field that is not in use is not zero.
fn has_unused_field_set(uses: Uses, fields: Fields) -> bool
    ensures { result ≡ some_field is_set_though_unused (Some uses) fields }
{
    is_set_though_unused(uses.dst, i32::from(fields.dst))
        || is_set_though_unused(uses.src, i32::from(fields.src))
        || is_set_though_unused(uses.offset, i32::from(fields.offset))
        || is_set_though_unused(uses.imm, fields.imm)
}

// Whether the value is none that a field in use may have.
fn is_undefined(usage: Use, value: i32) -> bool
    ensures { result ≡ is_undefined usage value }
{
    match usage {
        Use::Unused | Use::AnyValue => false,
        Use::Signedness => value != 0 && value != 1,
        Use::Extension => value != 0 && value != 8 && value != 16,
        Use::Extension64 => value != 0 && value != 8 && value != 16 && value != 32,
        Use::SwapBits => value != 16 && value != 32 && value != 64,
        Use::WideSource => value != 0 && value != 5,
        Use::OnlyZero => value != 0,
    }
}

// Whether the field is not in use, and not zero.
fn is_set_though_unused(usage: Use, value: i32) -> bool
    ensures { result ≡ is_set_though_unused usage value }
{
    usage == Use::Unused && value != 0
}

// What keeps a slot with these fields from beginning an instruction, whatever follows it.
pub(crate) fn fault_of(fields: Fields) -> Option<DecodeFault>
    ensures { find (λ d. breaks d (fields ∷ [])) first_slot_faults ≡ result }
{
    match uses_of(fields.opcode) {
        None => Some(DecodeFault::UnknownOpcode),
        Some(_) if fields.dst > 10 || fields.src > 10 => Some(DecodeFault::RegisterAbove10),
        Some(uses) if has_undefined_field(uses, fields) => Some(DecodeFault::UndefinedValue),
        Some(uses) if has_unused_field_set(uses, fields) => Some(DecodeFault::UnusedFieldSet),
        Some(_) => None,
    }
}

/// An opcode is one of the table by which `decode` refuses exactly where an instruction has it in its first slot.
pub fn opcodes_are_those_of_instructions()
    ensures { OpcodesAreThoseOfInstructions }
{}
