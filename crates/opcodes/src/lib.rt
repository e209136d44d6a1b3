//! The fields of a slot that are in use, by its opcode (RFC 9669, sections 4 and 5).
#![tactic(auto)]

ghost use Rattle.std.specs.Prelude.{◌≡◌, Some};
ghost use Rattle.opcodes.specs.Table.{uses_of, uses_by};

/// What may stand in a field of a slot.
#[derive(Clone, Copy, PartialEq, Eq)]
pub enum Use {
    /// Zero, since the field is not in use.
    Unused,
    /// Every value.
    AnyValue,
    /// 0, or 1 where a division or a remainder is signed (4.1).
    Signedness,
    /// 0, or of how many bits a MOV of 32 bits extends the sign: 8 or 16 (4.1).
    Extension,
    /// 0, or of how many bits a MOV of 64 bits extends the sign: 8, 16 or 32 (4.1).
    Extension64,
    /// How many bits are swapped: 16, 32 or 64 (4.2).
    SwapBits,
    /// 0 for a 64-bit immediate, 5 for the map of an index (5.4).
    WideSource,
    /// 0, which makes a call one of a helper by its number (4.3.1).
    OnlyZero,
}

/// What may stand in the fields of a slot behind its opcode.
#[derive(Clone, Copy)]
pub struct Uses {
    /// The low four bits of byte 1.
    pub dst: Use,
    /// The high four bits of byte 1.
    pub src: Use,
    /// Bytes 2 and 3.
    pub offset: Use,
    /// Bytes 4 to 7.
    pub imm: Use,
}

// The letter of each opcode, by which `uses_by` tells its fields; `-` where no instruction has the opcode. A line has the
// sixteen opcodes of a code, from ADD and JA on; the columns are the classes LD LDX ST STX ALU JMP JMP32 ALU64, and the
// same with 8 added for a register as source, or for a size (RFC 9669, section 3.3).
const LETTERS: &[u8; 256] = b"\
    ----ijJi----r--r\
    ----ibbi2---rBBr\
    ----ibbi----rBBr\
    ----dbbd----DBBD\
    ----ibbi----rBBr\
    ----ibbi----rBBr\
    -ltTibbi-ltTrBBr\
    -ltTibbi-ltTrBBr\
    -l--nc-n-l------\
    -l--de-d----D--D\
    ----ibbi----rBBr\
    ----ibbi----mBBM\
    ----ibbi----rBBr\
    ----wbbw----wBB-\
    ----------------\
    ----------------";

/// What the instructions with this opcode have in use; `None` where there are none.
pub fn uses_of(opcode: u8) -> Option<Uses>
    ensures { result ≡ uses_of opcode }
{
    uses_by(LETTERS[usize::from(opcode)])
}

// What the opcodes of a letter have in use (RFC 9669, sections 4 and 5).
fn uses_by(letter: u8) -> Option<Uses>
    ensures { result ≡ uses_by letter }
{
    use Use::{
        AnyValue, Extension, Extension64, OnlyZero, Signedness, SwapBits, Unused, WideSource,
    };
    match letter {
        b'i' => row(AnyValue, Unused, Unused, AnyValue),
        b'r' => row(AnyValue, AnyValue, Unused, Unused),
        b'd' => row(AnyValue, Unused, Signedness, AnyValue),
        b'D' => row(AnyValue, AnyValue, Signedness, Unused),
        b'm' => row(AnyValue, AnyValue, Extension, Unused),
        b'M' => row(AnyValue, AnyValue, Extension64, Unused),
        b'n' => row(AnyValue, Unused, Unused, Unused),
        b'w' => row(AnyValue, Unused, Unused, SwapBits),
        b'l' | b'T' | b'B' => row(AnyValue, AnyValue, AnyValue, Unused),
        b't' | b'b' => row(AnyValue, Unused, AnyValue, AnyValue),
        b'2' => row(AnyValue, WideSource, Unused, AnyValue),
        b'j' => row(Unused, Unused, AnyValue, Unused),
        b'J' => row(Unused, Unused, Unused, AnyValue),
        b'c' => row(Unused, OnlyZero, Unused, AnyValue),
        b'e' => row(Unused, Unused, Unused, Unused),
        _ => None,
    }
}

fn row(dst: Use, src: Use, offset: Use, imm: Use) -> Option<Uses>
    ensures { result ≡ Some (record { dst = dst; src = src; offset = offset; imm = imm }) }
{
    Some(Uses {
        dst,
        src,
        offset,
        imm,
    })
}
