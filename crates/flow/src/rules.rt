// The rules of structure, and the refusal that has the one that is broken.

ghost use Rattle.std.specs.Prelude.{◌≡◌};
ghost use Rattle.flow.specs.Structure.{rule_number};

use thiserror::Error;

/// The rules of structure, in the order of their numbers.
#[derive(Clone, Copy, PartialEq, Eq, Debug)]
pub enum StructureRule {
    /// V1: a jump goes below slot 0, or behind the last slot.
    TargetOutside,
    /// V2: a jump goes to itself, or backward.
    TargetNotForward,
    /// V3: a jump goes to the second half of a wide instruction.
    TargetInsideWide,
    /// V4: the last instruction is neither EXIT nor JA; also that there is no instruction, or more than 4,096 slots.
    RunsOffTheEnd,
    /// V5: nothing leads to the instruction.
    Unreachable,
}

impl StructureRule {
    /// The number of the rule, from 1 to 5.
    pub fn number(self) -> u8
        ensures number { result ≡ rule_number self }
    {
        match self {
            StructureRule::TargetOutside => 1,
            StructureRule::TargetNotForward => 2,
            StructureRule::TargetInsideWide => 3,
            StructureRule::RunsOffTheEnd => 4,
            StructureRule::Unreachable => 5,
        }
    }

    // What is wrong, in words.
    fn text(self) -> &'static str {
        match self {
            StructureRule::TargetOutside => "the jump leaves the program",
            StructureRule::TargetNotForward => "the jump doesn't lead forward",
            StructureRule::TargetInsideWide => {
                "the jump lands in the second half of a wide instruction"
            }
            StructureRule::RunsOffTheEnd => {
                "the program runs off its end, is empty or has more than 4096 slots"
            }
            StructureRule::Unreachable => "nothing leads to this instruction",
        }
    }
}

/// Why a program isn't structured: the lowest slot at which a rule is broken, and there the lowest number of one.
#[derive(Clone, Copy, PartialEq, Eq, Debug, Error)]
#[error("slot {slot}: {} (V{})", .rule.text(), .rule.number())]
pub struct Broken {
    /// The slot of the instruction that breaks the rule, from 0.
    pub slot: u32,
    /// The rule.
    pub rule: StructureRule,
}
