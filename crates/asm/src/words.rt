// The words of instructions.

ghost use Rattle.std.specs.Prelude.{◌≡◌, ◌↔◌, IsTrue, IfSome};
ghost use Rattle.std.specs.List.{AllByRecursion};
ghost use Rattle.asm.specs.Words.{meaning_in, meaning_of, word_of, operand_count, HasWord, IsSpelled, IsSaid};

use insn::{Condition, Operation, Order, Size};

// What a word says of an instruction: all but its operands.
#[derive(Clone, Copy, PartialEq, Eq)]
pub(crate) enum Mnemonic {
    // Whether it works on 64 bits, and the operation.
    Alu(bool, Operation),
    // Whether on 64 bits.
    Neg(bool),
    // Whether on 64 bits.
    MovSx(bool),
    // The order, and how many bits.
    Swap(Order, u8),
    // How many bytes, and whether their sign is extended.
    Load(Size, bool),
    StoreImm(Size),
    StoreReg(Size),
    Imm64,
    MapRef,
    // Whether by imm.
    Ja(bool),
    // Whether it compares 64 bits, and the condition.
    Branch(bool, Condition),
    Call,
    Exit,
}

// Each word and what it says, by the sections of RFC 9669: 4.1, 4.2, 5.1, 5.2, 5.4, 4.3.
pub(crate) const WORDS: [(&str, Mnemonic); 84] = [
    ("add64", Mnemonic::Alu(true, Operation::Add)),
    ("sub64", Mnemonic::Alu(true, Operation::Sub)),
    ("mul64", Mnemonic::Alu(true, Operation::Mul)),
    ("div64", Mnemonic::Alu(true, Operation::Div)),
    ("or64", Mnemonic::Alu(true, Operation::Or)),
    ("and64", Mnemonic::Alu(true, Operation::And)),
    ("lsh64", Mnemonic::Alu(true, Operation::Lsh)),
    ("rsh64", Mnemonic::Alu(true, Operation::Rsh)),
    ("mod64", Mnemonic::Alu(true, Operation::Mod)),
    ("xor64", Mnemonic::Alu(true, Operation::Xor)),
    ("mov64", Mnemonic::Alu(true, Operation::Mov)),
    ("arsh64", Mnemonic::Alu(true, Operation::Arsh)),
    ("sdiv64", Mnemonic::Alu(true, Operation::Sdiv)),
    ("smod64", Mnemonic::Alu(true, Operation::Smod)),
    ("neg64", Mnemonic::Neg(true)),
    ("movsx64", Mnemonic::MovSx(true)),
    ("add32", Mnemonic::Alu(false, Operation::Add)),
    ("sub32", Mnemonic::Alu(false, Operation::Sub)),
    ("mul32", Mnemonic::Alu(false, Operation::Mul)),
    ("div32", Mnemonic::Alu(false, Operation::Div)),
    ("or32", Mnemonic::Alu(false, Operation::Or)),
    ("and32", Mnemonic::Alu(false, Operation::And)),
    ("lsh32", Mnemonic::Alu(false, Operation::Lsh)),
    ("rsh32", Mnemonic::Alu(false, Operation::Rsh)),
    ("mod32", Mnemonic::Alu(false, Operation::Mod)),
    ("xor32", Mnemonic::Alu(false, Operation::Xor)),
    ("mov32", Mnemonic::Alu(false, Operation::Mov)),
    ("arsh32", Mnemonic::Alu(false, Operation::Arsh)),
    ("sdiv32", Mnemonic::Alu(false, Operation::Sdiv)),
    ("smod32", Mnemonic::Alu(false, Operation::Smod)),
    ("neg32", Mnemonic::Neg(false)),
    ("movsx32", Mnemonic::MovSx(false)),
    ("le16", Mnemonic::Swap(Order::Little, 16)),
    ("le32", Mnemonic::Swap(Order::Little, 32)),
    ("le64", Mnemonic::Swap(Order::Little, 64)),
    ("be16", Mnemonic::Swap(Order::Big, 16)),
    ("be32", Mnemonic::Swap(Order::Big, 32)),
    ("be64", Mnemonic::Swap(Order::Big, 64)),
    ("swap16", Mnemonic::Swap(Order::Always, 16)),
    ("swap32", Mnemonic::Swap(Order::Always, 32)),
    ("swap64", Mnemonic::Swap(Order::Always, 64)),
    ("ldxb", Mnemonic::Load(Size::Byte, false)),
    ("ldxh", Mnemonic::Load(Size::Half, false)),
    ("ldxw", Mnemonic::Load(Size::Word, false)),
    ("ldxdw", Mnemonic::Load(Size::Double, false)),
    ("ldxsb", Mnemonic::Load(Size::Byte, true)),
    ("ldxsh", Mnemonic::Load(Size::Half, true)),
    ("ldxsw", Mnemonic::Load(Size::Word, true)),
    ("stb", Mnemonic::StoreImm(Size::Byte)),
    ("sth", Mnemonic::StoreImm(Size::Half)),
    ("stw", Mnemonic::StoreImm(Size::Word)),
    ("stdw", Mnemonic::StoreImm(Size::Double)),
    ("stxb", Mnemonic::StoreReg(Size::Byte)),
    ("stxh", Mnemonic::StoreReg(Size::Half)),
    ("stxw", Mnemonic::StoreReg(Size::Word)),
    ("stxdw", Mnemonic::StoreReg(Size::Double)),
    ("lddw", Mnemonic::Imm64),
    ("ldmap", Mnemonic::MapRef),
    ("ja", Mnemonic::Ja(false)),
    ("ja32", Mnemonic::Ja(true)),
    ("jeq", Mnemonic::Branch(true, Condition::Jeq)),
    ("jgt", Mnemonic::Branch(true, Condition::Jgt)),
    ("jge", Mnemonic::Branch(true, Condition::Jge)),
    ("jset", Mnemonic::Branch(true, Condition::Jset)),
    ("jne", Mnemonic::Branch(true, Condition::Jne)),
    ("jsgt", Mnemonic::Branch(true, Condition::Jsgt)),
    ("jsge", Mnemonic::Branch(true, Condition::Jsge)),
    ("jlt", Mnemonic::Branch(true, Condition::Jlt)),
    ("jle", Mnemonic::Branch(true, Condition::Jle)),
    ("jslt", Mnemonic::Branch(true, Condition::Jslt)),
    ("jsle", Mnemonic::Branch(true, Condition::Jsle)),
    ("jeq32", Mnemonic::Branch(false, Condition::Jeq)),
    ("jgt32", Mnemonic::Branch(false, Condition::Jgt)),
    ("jge32", Mnemonic::Branch(false, Condition::Jge)),
    ("jset32", Mnemonic::Branch(false, Condition::Jset)),
    ("jne32", Mnemonic::Branch(false, Condition::Jne)),
    ("jsgt32", Mnemonic::Branch(false, Condition::Jsgt)),
    ("jsge32", Mnemonic::Branch(false, Condition::Jsge)),
    ("jlt32", Mnemonic::Branch(false, Condition::Jlt)),
    ("jle32", Mnemonic::Branch(false, Condition::Jle)),
    ("jslt32", Mnemonic::Branch(false, Condition::Jslt)),
    ("jsle32", Mnemonic::Branch(false, Condition::Jsle)),
    ("call", Mnemonic::Call),
    ("exit", Mnemonic::Exit),
];

// What the word says in the first row that has it.
fn look_up(rows: &[(&str, Mnemonic)], word: &[u8]) -> Option<Mnemonic>
    requires { AllByRecursion (λ row. HasWord row.1) rows.now }
    ensures value { result ≡ meaning_in (λ text. text.now) rows.now word.now }
    ensures known { IfSome result HasWord }
{
    for (spelled, mnemonic) in rows {
        if spelled.as_bytes() == word {
            return Some(*mnemonic);
        }
    }
    None
}

fn is_same(a: Mnemonic, b: Mnemonic) -> bool
    ensures { IsTrue result ↔ (a ≡ b) }
{
    a == b
}

// The word of the first row that says this.
fn spelling<'a>(rows: &[(&'a str, Mnemonic)], mnemonic: Mnemonic) -> &'a str
    requires spelled { AllByRecursion (IsSpelled (λ text. text.now)) rows.now }
    requires said { IsSaid rows.now mnemonic }
    ensures { result.now ≡ word_of mnemonic }
{
    for (spelled, meaning) in rows {
        if is_same(*meaning, mnemonic) {
            return spelled;
        }
    }
    ""
}

// What the word says, if it is one.
#[tactic(auto, unfolding(crate::specs::Words::meaning_of))]
pub(crate) fn mnemonic_of(word: &[u8]) -> Option<Mnemonic>
    ensures value { result ≡ meaning_of word.now }
    ensures known { IfSome result HasWord }
{
    look_up(&WORDS, word)
}

// The word that says this.
pub(crate) fn word(mnemonic: Mnemonic) -> &'static str
    requires { HasWord mnemonic }
    ensures { result.now ≡ word_of mnemonic }
{
    spelling(&WORDS, mnemonic)
}

// How many operands stand behind it.
pub(crate) fn operand_count(mnemonic: Mnemonic) -> usize
    ensures { result ≡ operand_count mnemonic }
{
    match mnemonic {
        Mnemonic::Exit => 0,
        Mnemonic::Neg(_) | Mnemonic::Swap(_, _) | Mnemonic::Ja(_) | Mnemonic::Call => 1,
        Mnemonic::MovSx(_) | Mnemonic::Branch(_, _) => 3,
        _ => 2,
    }
}
