// What is told of a manifest, and what its loading says.

ghost use Rattle.explain.specs.FirstFault.{RefusalIsTold, RulesAreShared};

/// Where the loader refuses a manifest, what is told of all its lines has the line that is refused, the rule, and of a program the slot.
#[tactic(auto, using(crate::proofs::FirstFault::refusal_is_told))]
pub fn refusal_is_told()
    ensures told { RefusalIsTold }
{}

/// What is told of a map and of a program goes by the loader's own rules. Let the loader have read the same maps, and programs of the same
/// names. Then it finds the same fault in the next map, the next name is taken or not, and one more program is too many or not.
#[tactic(auto, using(crate::proofs::FirstFault::rules_are_shared))]
pub fn rules_are_shared()
    ensures shared { RulesAreShared }
{}
