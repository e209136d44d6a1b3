// Laws on the definitions.

ghost use Rattle.std.specs.Prelude.{◌≡◌, ℕ, ◌↔◌, List, None, Some};
ghost use Rattle.insn.specs.declared.instruction.Form.{Form};
ghost use Rattle.flow.specs.declared.rules.StructureRule.{StructureRule};
ghost use Rattle.flow.specs.Structure.{IsStructured, FirstBroken};
ghost use Rattle.flow.specs.Faults.{structure_fault, fault};

/// The computed fault is there exactly where a program isn't structured.
#[tactic(auto, using(crate::proofs::Lowest::no_fault_iff))]
pub fn no_fault_where_structured()
    ensures { (p : List Form) → (structure_fault p ≡ None) ↔ IsStructured p }
{}

/// The computed fault is the one that is to be named.
pub fn fault_is_first_broken()
    ensures { (p : List Form) (s : ℕ) (rule : StructureRule) → (structure_fault p ≡ Some (fault s rule)) ↔ FirstBroken p s rule }
{}
