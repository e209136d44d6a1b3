// Laws of the tables of operations, conversions and byte order (RFC 9669, sections 4.1 and 4.2).

ghost use Rattle.machine.specs.ArithmeticLaws.{ResultsFit, MoveZeroesUpperHalf, SubtractionUndoesAddition, NegationSubtracts, DivisionByZero, DivisionIsEuclidean, SignedDivisionTruncates, LeastByMinusOne, ShiftAmountsWrap, ArithmeticShiftKeepsSign, ExtensionKeepsValue, ExtensionKeepsSmall, SwapsUndoThemselves, BytesSpellNumbers};

/// A result has as many bits as its instruction: one of 32 bits leaves zeros in the upper half.
pub fn results_fit()
    ensures { ResultsFit }
{}

/// MOV of 32 bits is the low half of its operand.
pub fn move_zeroes_upper_half()
    ensures { MoveZeroesUpperHalf }
{}

/// SUB takes back what ADD added.
pub fn subtraction_undoes_addition()
    ensures { SubtractionUndoesAddition }
{}

/// NEG is SUB from zero.
pub fn negation_subtracts()
    ensures { NegationSubtracts }
{}

/// A division by zero gives 0, and its remainder is the dividend.
pub fn division_by_zero()
    ensures { DivisionByZero }
{}

/// The dividend is quotient times divisor plus a remainder below the divisor.
pub fn division_is_euclidean()
    ensures { DivisionIsEuclidean }
{}

/// A signed quotient is rounded toward zero, and the remainder has the dividend's sign.
pub fn signed_division_truncates()
    ensures { SignedDivisionTruncates }
{}

/// The least signed number by -1 is the least again, with the remainder 0.
pub fn least_by_minus_one()
    ensures { LeastByMinusOne }
{}

/// The amount of a shift counts modulo the number of bits.
pub fn shift_amounts_wrap()
    ensures { ShiftAmountsWrap }
{}

/// ARSH is a signed shift, rounded down.
pub fn arithmetic_shift_keeps_sign()
    ensures { ArithmeticShiftKeepsSign }
{}

/// A sign-extended number has the signed value of the bits that it was extended from.
pub fn extension_keeps_value()
    ensures { ExtensionKeepsValue }
{}

/// A number that has a signed value of so few bits stays as it is.
pub fn extension_keeps_small()
    ensures { ExtensionKeepsSmall }
{}

/// A swap made twice leaves the low bits, with zeros above.
pub fn swaps_undo_themselves()
    ensures { SwapsUndoThemselves }
{}

/// The low bytes of a number give it back, up to as many bits.
pub fn bytes_spell_numbers()
    ensures { BytesSpellNumbers }
{}
