// Laws on the definitions.

ghost use Rattle.std.specs.Prelude.{◌≡◌, ◌↔◌, List, None, Some};
ghost use Rattle.std.specs.List.{AllByRecursion};
ghost use Rattle.insn.specs.declared.instruction.Form.{Form};
ghost use Rattle.insn.specs.Encoding.{HasEncoding};
ghost use Rattle.flow.specs.declared.rules.StructureRule.{StructureRule};
ghost use Rattle.flow.specs.Structure.{rule_number};
ghost use Rattle.verifier.specs.declared.refusal.Refused.{Refused};
ghost use Rattle.verifier.specs.Signature.{Signature};
ghost use Rattle.verifier.specs.Numbers.{fault_number};
ghost use Rattle.verifier.specs.Known.{JoinedAreBest, JoinedAreKnown, KnownAreJoined, ReachedAreKnown};
ghost use Rattle.verifier.specs.Typing.{IsTypable, Refuses, structure_reason};
ghost use Rattle.verifier.specs.Verdict.{verdict};
ghost use Rattle.verifier.specs.MoreAllowed.{FirstMapsAreEnough, MoreMapsAreTypable, ReadersAreTypable};

/// The verdict is no refusal exactly where a program is typable.
pub fn no_refusal_where_typable()
    ensures { (p : List Form) (l : Signature) → AllByRecursion HasEncoding p → (verdict p l ≡ None) ↔ IsTypable p l }
{}

/// The verdict is the refusal that is to be named.
pub fn refusal_is_first_broken()
    ensures { (p : List Form) (l : Signature) (e : Refused) → AllByRecursion HasEncoding p → (verdict p l ≡ Some e) ↔ Refuses p l e }
{}

/// A rule of structure has the number of the refusal that it is the reason of.
pub fn structure_keeps_its_numbers()
    ensures { (rule : StructureRule) → fault_number (structure_reason rule) ≡ rule_number rule }
{}

/// A refused program has no typing at all.
pub fn refused_is_untypable()
    ensures { (p : List Form) (l : Signature) (e : Refused) → AllByRecursion HasEncoding p → Refuses p l e → IsTypable p l → ⊥ }
{}

/// What [`explain`](crate::explain) says of a slot, of any program: just what all that comes in there has in common, from the entry and from
/// what is known at the lower slots; nothing where nothing comes in. Only one list of frames is so, and a slot has one where it is reached.
pub fn frames_are_joins()
    ensures known { JoinedAreKnown }
    ensures only { KnownAreJoined }
    ensures reached { ReachedAreKnown }
{}

/// Of an accepted program these frames are a typing, and no other typing says more before any instruction.
pub fn joins_are_best_typing()
    ensures { JoinedAreBest }
{}

/// A program that is typable in `Read` mode is typable in each mode, so `Update` accepts what `Read` accepts.
pub fn readers_are_typable()
    ensures { ReadersAreTypable }
{}

/// A program that is typable for some maps is typable wherever these come first, also with other numbers of entries, and so where more come
/// after them.
pub fn more_maps_are_typable()
    ensures first { FirstMapsAreEnough }
    ensures more { MoreMapsAreTypable }
{}
