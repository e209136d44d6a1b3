// What a program is checked for, and why it is refused.

ghost use Rattle.std.specs.Prelude.{◌≡◌};
ghost use Rattle.verifier.specs.Numbers.{fault_number, error_number, error_slot};

use std::alloc::AllocError;
use std::error::Error;
use std::fmt;
use thiserror::Error;

/// Whether a program may change maps.
///
/// # Examples
///
/// ```
/// use insn::decode;
/// use maps::Shape;
/// use verifier::{Mode, verify};
///
/// // r1 = map 0; *(u32 *)(r10 - 4) = 0; r2 = r10; r2 += -4; call 3 (a deletion); exit
/// let bytes = [
///     0x18, 0x51, 0, 0, 0, 0, 0, 0, 0, 0, 0, 0, 0, 0, 0, 0, 0x62, 0x0a, 0xfc, 0xff, 0, 0, 0, 0, 0xbf, 0xa2, 0, 0, 0, 0, 0, 0,
///     0x07, 0x02, 0, 0, 0xfc, 0xff, 0xff, 0xff, 0x85, 0, 0, 0, 3, 0, 0, 0, 0x95, 0, 0, 0, 0, 0, 0, 0,
/// ];
/// let shapes = [Shape::Hash { key: 4, value: 8, entries: 16 }];
/// assert!(rt; verify(rt.alloc(), decode(rt.alloc(), &bytes)?, &shapes, 0, Mode::Update).is_ok());
/// let refused = verify(rt.alloc(), decode(rt.alloc(), &bytes)?, &shapes, 0, Mode::Read).err();
/// assert_eq!(rt; refused.map(|e| e.number()), Some(18));
/// ```
#[derive(Clone, Copy, PartialEq, Eq, Debug)]
pub enum Mode {
    Update,
    Read,
}

/// Why a program is refused. Structure is decided for the whole program first, then kinds. Each rule has its number, from
/// 1 to 18.
///
/// # Examples
///
/// ```
/// use insn::decode;
/// use maps::Shape;
/// use verifier::{Mode, Refused, VerifyError, VerifyFault, verify};
///
/// let shapes = [Shape::Array { value: 8, entries: 16 }];
/// let exit = decode(rt.alloc(), &[0x95, 0, 0, 0, 0, 0, 0, 0])?;
/// // Nothing wrote R0, which `exit` replies.
/// let unwritten = Refused { slot: 0, why: VerifyFault::UnreadableRegister };
/// assert_eq!(rt; verify(rt.alloc(), exit, &shapes, 0, Mode::Read).err(), Some(VerifyError::Refused(unwritten)));
/// ```
#[derive(Clone, Copy, PartialEq, Eq, Debug)]
pub enum VerifyFault {
    /// A jump leads below slot 0 or behind the last slot.
    TargetOutside,
    /// A jump leads to itself or backward.
    TargetNotForward,
    /// A jump leads into the second half of a wide instruction.
    TargetInsideWide,
    /// The last instruction is neither EXIT nor JA; also that there is no instruction, or more than 4,096 slots.
    RunsOffTheEnd,
    /// Nothing leads to the instruction.
    Unreachable,
    /// A register is read of which nothing is known on some way here.
    UnreadableRegister,
    /// R10, which is read-only, is written.
    FramePointerWritten,
    /// The operation is not defined on a pointer, or a load or a store goes through a number or a map.
    UndefinedOperation,
    /// A pointer is moved out of its region.
    OffsetOutOfRange,
    /// A byte that is loaded, stored or given to a helper lies outside the pointer's region.
    OutOfRegion,
    /// A byte of the stack is read that was not written on every way here.
    UninitialisedStack,
    /// A byte of the argument, which is read-only, is written.
    ArgumentWritten,
    /// A pointer is stored where it does not fill a cell of the stack.
    PointerStored,
    /// The answer of a lookup is used before it is tested for null.
    UncheckedNull,
    /// An argument of the helper has the wrong kind.
    HelperArgument,
    /// The helper or the map is not known.
    UnknownHelperOrMap,
    /// The reply in R0 is a pointer.
    PointerReply,
    /// A program in Read mode changes a map.
    WriteInReadMode,
}

impl VerifyFault {
    /// The number after the `V`.
    ///
    /// # Examples
    ///
    /// ```
    /// use verifier::VerifyFault;
    ///
    /// assert_eq!(rt; VerifyFault::TargetOutside.number(), 1);
    /// assert_eq!(rt; VerifyFault::WriteInReadMode.number(), 18);
    /// ```
    pub fn number(self) -> u8
        ensures number { result ≡ fault_number self }
    {
        self as u8 + 1
    }

    // What is wrong, in words.
    fn text(self) -> &'static str {
        match self {
            VerifyFault::TargetOutside => "the jump leads outside the program",
            VerifyFault::TargetNotForward => "the jump does not lead forward",
            VerifyFault::TargetInsideWide => {
                "the jump leads into the second half of a wide instruction"
            }
            VerifyFault::RunsOffTheEnd => "the program runs off its end",
            VerifyFault::Unreachable => "the instruction is never reached",
            VerifyFault::UnreadableRegister => {
                "a register is read that has no readable value on every way here"
            }
            VerifyFault::FramePointerWritten => "R10 is written, which is read-only",
            VerifyFault::UndefinedOperation => {
                "the operation is not defined on these kinds of value"
            }
            VerifyFault::OffsetOutOfRange => "the moved pointer leaves its region",
            VerifyFault::OutOfRegion => "the access lies outside its region",
            VerifyFault::UninitialisedStack => {
                "a byte of the stack is read that was not written on every way here"
            }
            VerifyFault::ArgumentWritten => "the argument is written, which is read-only",
            VerifyFault::PointerStored => {
                "a pointer is stored where it does not fill a cell of the stack"
            }
            VerifyFault::UncheckedNull => {
                "a looked-up value is used before it is tested for null"
            }
            VerifyFault::HelperArgument => "an argument of the helper has the wrong kind",
            VerifyFault::UnknownHelperOrMap => "the helper or the map is not known",
            VerifyFault::PointerReply => "the reply is not a number",
            VerifyFault::WriteInReadMode => "a program in Read mode changes a map",
        }
    }
}

impl fmt::Display for VerifyFault {
    fn fmt<W: fmt::Write>(&self, f: &mut fmt::Formatter<W>) -> fmt::Result {
        write!(f, "V{}: {}", self.number(), self.text())
    }
}

impl Error for VerifyFault {}

/// A refusal, with the slot of the instruction that breaks the rule, from 0.
///
/// # Examples
///
/// ```
/// use verifier::{Refused, VerifyFault};
///
/// let refused = Refused { slot: 3, why: VerifyFault::TargetOutside };
/// let text = format!(in rt.alloc(); "{refused}")?;
/// assert_eq!(rt; text.as_str(), "slot 3: V1: the jump leads outside the program");
/// ```
#[derive(Clone, Copy, PartialEq, Eq, Debug, Error)]
#[error("slot {slot}: {why}")]
pub struct Refused {
    pub slot: u32,
    pub why: VerifyFault,
}

/// Why a program is not accepted.
///
/// # Examples
///
/// ```
/// use insn::decode;
/// use maps::Shape;
/// use verifier::{Mode, VerifyError, verify};
///
/// let shapes = [Shape::Array { value: 8, entries: 16 }];
/// let exit = decode(rt.alloc(), &[0x95, 0, 0, 0, 0, 0, 0, 0])?;
/// match verify(rt.alloc(), exit, &shapes, 0, Mode::Read) {
///     // `exit` replies R0, which nothing wrote.
///     Err(VerifyError::Refused(refused)) => assert_eq!(rt; refused.why.number(), 6),
///     Err(VerifyError::NoMemory) | Ok(_) => unreachable!(),
/// }
/// ```
#[derive(Clone, Copy, PartialEq, Eq, Debug, Error)]
pub enum VerifyError {
    /// There is no memory left, which says nothing of the program.
    #[error("V0: no memory")]
    NoMemory,
    /// The program breaks a rule.
    #[error("{0}")]
    Refused(Refused),
}

impl VerifyError {
    /// The number after the `V`: 0 where there is no memory left.
    ///
    /// # Examples
    ///
    /// ```
    /// use verifier::{Refused, VerifyError, VerifyFault};
    ///
    /// let refused = VerifyError::Refused(Refused { slot: 3, why: VerifyFault::TargetOutside });
    /// assert_eq!(rt; refused.number(), 1);
    /// assert_eq!(rt; VerifyError::NoMemory.number(), 0);
    /// ```
    pub fn number(self) -> u8
        ensures number { result ≡ error_number self }
    {
        match self {
            VerifyError::NoMemory => 0,
            VerifyError::Refused(refused) => refused.why.number(),
        }
    }

    /// The slot of the instruction that breaks the rule: 0 where there is no memory left.
    ///
    /// # Examples
    ///
    /// ```
    /// use verifier::{Refused, VerifyError, VerifyFault};
    ///
    /// let refused = VerifyError::Refused(Refused { slot: 3, why: VerifyFault::TargetOutside });
    /// assert_eq!(rt; refused.slot(), 3);
    /// assert_eq!(rt; VerifyError::NoMemory.slot(), 0);
    /// ```
    pub fn slot(self) -> u32
        ensures slot { result ≡ error_slot self }
    {
        match self {
            VerifyError::NoMemory => 0,
            VerifyError::Refused(refused) => refused.slot,
        }
    }
}

impl From<AllocError> for VerifyError {
    ghost use Rattle.verifier.specs.declared.refusal.VerifyError.TheVariants.{NoMemory};

    ghost from_gives = { λ _ e. e ≡ NoMemory };

    fn from(_e: AllocError) -> VerifyError {
        VerifyError::NoMemory
    }
}

impl From<Refused> for VerifyError {
    ghost use Rattle.verifier.specs.declared.refusal.VerifyError.TheVariants as answers;

    ghost from_gives = { λ refused e. e ≡ answers.Refused refused };

    fn from(refused: Refused) -> VerifyError {
        VerifyError::Refused(refused)
    }
}
