// Deciding the rules of structure, in three linear passes over the program: its slots are counted, then its second halves
// are noted, then each instruction is checked.

ghost use Rattle.std.specs.Prelude.{◌≡◌, ℕ, Bool, find, ◌&&◌, nat_eq, ◌+◌, ◌<◌, ◌≤◌, ◌↔◌, cond, None, Some, IsOk, IfErr, MatchResult};
ghost use Rattle.insn.specs.Layout.{size, slot_count, falls_through};
ghost use Rattle.flow.specs.Structure.{IsStructured, FirstBroken};
ghost use Rattle.flow.specs.Faults.{fault, is_second_half, is_broken, rules_of_jumps, first_rule, lowest_fault, has_good_size, structure_fault};
ghost use Rattle.flow.specs.SlotSets.{has_slot};

use crate::edges::{insert_targets, target_of};
use crate::rules::{Broken, StructureRule};
use crate::slot_set::SlotSet;
use insn::{Form, Insn, MAX_SLOTS};

/// Whether the program is structured, and if not, the lowest slot at which a rule of structure is broken, and there the
/// rule of the lowest number.
pub fn structure(program: &[Insn]) -> Result<(), Broken>
    // Accepted is what is structured.
    ensures structured { IsOk result ↔ IsStructured program.now }
    // The refusal has the first rule that is broken.
    ensures first { IfErr result (λ b. FirstBroken program.now b.slot b.rule) }
    // The answer is the computed one.
    ensures reading { MatchResult result (λ _. structure_fault program.now ≡ None) (λ b. structure_fault program.now ≡ Some b) }
{
    match good_size(program) {
        Some(end) => check_each(program, end),
        None => Err(broken(0, StructureRule::RunsOffTheEnd)),
    }
}

// The refusal of the rule at the slot.
fn broken(slot: usize, rule: StructureRule) -> Broken
    requires { slot < MAX_SLOTS }
    ensures { result ≡ fault slot rule }
{
    Broken {
        slot: slot as u32,
        rule,
    }
}

/// How many slots the program has, if that is neither none nor too many.
pub fn good_size(program: &[Insn]) -> Option<usize>
    ensures { result ≡ cond (has_good_size program.now) (Some (size program.now)) None }
{
    let mut slots = 0;
    for insn in program {
        slots += insn.slot_count();
        if slots > MAX_SLOTS {
            return None;
        }
    }
    if slots == 0 { None } else { Some(slots) }
}

// The second halves of the wide instructions.
fn second_halves(program: &[Insn]) -> SlotSet
    requires { size program.now ≤ MAX_SLOTS }
    ensures { (t : ℕ) → has_slot result t ≡ is_second_half program.now t }
{
    let mut halves = SlotSet::new();
    let mut slot = 0;
    for insn in program {
        if insn.slot_count() == 2 {
            halves.insert(slot + 1);
        }
        slot += insn.slot_count();
    }
    halves
}

// The first fault of a program that ends before this slot.
fn check_each(program: &[Insn], end: usize) -> Result<(), Broken>
    requires sized { end ≡ size program.now }
    requires few { end ≤ MAX_SLOTS }
    ensures { MatchResult result (λ _. lowest_fault program.now end ≡ None) (λ b. lowest_fault program.now end ≡ Some b) }
{
    let halves = second_halves(program);
    let mut reached = SlotSet::new();
    reached.insert(0);
    let mut slot = 0;
    for insn in program {
        let form = insn.form();
        let next = slot + insn.slot_count();
        if let Some(rule) = broken_rule(form, slot, end, &halves, reached.contains(slot)) {
            return Err(broken(slot, rule));
        }
        insert_targets(&mut reached, form, slot, next);
        slot = next;
    }
    Ok(())
}

// The first rule that the instruction at this slot breaks.
fn broken_rule(
    form: Form,
    slot: usize,
    end: usize,
    halves: &SlotSet,
    is_reached: bool,
) -> Option<StructureRule>
    requires within { slot < end }
    requires few { end ≤ MAX_SLOTS }
    ensures { result ≡ first_rule end (has_slot halves.now) is_reached form slot }
{
    if let Some(rule) = broken_by_jump(form, slot, end, halves) {
        return Some(rule);
    }
    if runs_off(form, slot, end) {
        return Some(StructureRule::RunsOffTheEnd);
    }
    if !is_reached {
        return Some(StructureRule::Unreachable);
    }
    None
}

// Whether the next instruction follows it, and there is none.
fn runs_off(form: Form, slot: usize, end: usize) -> bool
    requires { slot < MAX_SLOTS }
    ensures { result ≡ (falls_through form && nat_eq (slot + slot_count form) end) }
{
    form.falls_through() && slot + form.slot_count() == end
}

// The first rule that its jump breaks.
fn broken_by_jump(form: Form, slot: usize, end: usize, halves: &SlotSet) -> Option<StructureRule>
    requires within { slot < end }
    requires few { end ≤ MAX_SLOTS }
    ensures { (reached : Bool) → result ≡ find (is_broken end (has_slot halves.now) reached form slot) rules_of_jumps }
{
    let target = target_of(form, slot)?;
    if target < 0 || target >= end as i64 {
        return Some(StructureRule::TargetOutside);
    }
    if target <= slot as i64 {
        return Some(StructureRule::TargetNotForward);
    }
    if halves.contains(target as usize) {
        return Some(StructureRule::TargetInsideWide);
    }
    None
}
