// Programs into bytes.

ghost use Rattle.std.specs.Prelude.{◌↔◌, ◌≡◌, ℕ, ◌<◌, ◌≤◌, ◌++◌, ◌∷◌, [], List, IfOk, OnOk};
ghost use Rattle.std.specs.List.{flat_map, AllByRecursion};
ghost use Rattle.insn.specs.declared.instruction.Form.{Form};
ghost use Rattle.insn.specs.Layout.{size};
ghost use Rattle.insn.specs.Refusal.{Decodes};
ghost use Rattle.insn.specs.Encoding.{Encodes, slots, slot_bytes, program_bytes, HasEncoding};

use crate::instruction::{Fields, Form, Insn, MAX_SLOTS};
use crate::spelling::slots_of;
use byteorder::{ByteOrder, LittleEndian};
use std::alloc::{AllocError, Global};

/// The bytes of a program: those of its instructions, joined, 8 for each slot (RFC 9669, section 3). What `decode` read
/// is written as the bytes that it was read from. `AllocError`: memory ran out.
pub fn encode(alloc: Global, program: &[Insn]) -> Result<Vec<u8>, AllocError>
    ensures joined { IfOk result (λ v. v.items ≡ program_bytes program.now) }
{
    let mut bytes = Vec::new(alloc);
    for insn in program {
        push_form(&mut bytes, insn.form())?;
    }
    Ok(bytes)
}

/// `encode` after `decode` writes the bytes that were read, and `decode` after `encode` reads the program that was
/// written, if it has from 1 to 4,096 slots.
pub fn encode_inverts_decode()
    ensures back { (bytes : List ℕ) (p : List Form) → Decodes bytes p → program_bytes p ≡ bytes }
    ensures again { (p : List Form) → AllByRecursion HasEncoding p → 0 < size p → size p ≤ MAX_SLOTS
        → Decodes (program_bytes p) p }
{}

/// The bytes of one instruction are a program of that instruction alone, and nothing else is.
pub fn one_instruction_is_a_program()
    ensures { (i : Form) (bytes : List ℕ) → HasEncoding i → Encodes i bytes ↔ Decodes bytes (i ∷ []) }
{}

// Adds the bytes of an instruction.
fn push_form(bytes: &mut Vec<u8>, form: Form) -> Result<(), AllocError>
    requires { HasEncoding form }
    ensures { OnOk result (bytes.new.items ≡ bytes.old.items ++ flat_map slot_bytes (slots form)) }
{
    let (first, second) = slots_of(form);
    push_slot(bytes, first)?;
    match second {
        Some(second) => push_slot(bytes, second),
        None => Ok(()),
    }
}

// Adds the bytes of a slot.
fn push_slot(bytes: &mut Vec<u8>, fields: Fields) -> Result<(), AllocError>
    requires { (fields.dst < 16) × (fields.src < 16) }
    ensures { OnOk result (bytes.new.items ≡ bytes.old.items ++ slot_bytes fields) }
{
    let mut slot = [0; 8];
    slot[0] = fields.opcode;
    slot[1] = fields.dst + 16 * fields.src;
    LittleEndian::write_i16(&mut slot[2..4], fields.offset);
    LittleEndian::write_i32(&mut slot[4..8], fields.imm);
    bytes.extend_from_slice(&slot)
}
