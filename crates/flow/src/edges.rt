// Where an instruction leads to.

ghost use Rattle.std.specs.Prelude.{◌≡◌, ℕ, ◌+◌, ◌<◌, true, ◌||◌, ◌&&◌, nat_eq, Some};
ghost use Rattle.insn.specs.Layout.{falls_through, slot_count};
ghost use Rattle.flow.specs.Faults.{jump_is, is_slot, jump_target, leads_to};
ghost use Rattle.flow.specs.SlotSets.{has_slot};

use crate::slot_set::SlotSet;
use insn::{Form, MAX_SLOTS};

/// The slot that it may jump to, from this one.
pub fn target_of(form: Form, slot: usize) -> Option<i64>
    requires { slot < MAX_SLOTS }
    ensures { result ≡ jump_target form slot }
{
    let by = form.displacement()?;
    Some(slot as i64 + 1 + i64::from(by))
}

/// Adds the slots that the instruction at this slot leads to; the next one stands at `next`.
pub fn insert_targets(reached: &mut SlotSet, form: Form, slot: usize, next: usize)
    requires at { slot < MAX_SLOTS }
    requires next { next ≡ slot + slot_count form }
    requires within { (t : ℕ) → leads_to (Some form) slot t ≡ true → t < MAX_SLOTS }
    ensures { (t : ℕ) → has_slot reached.new t ≡ (leads_to (Some form) slot t || has_slot reached.old t) }
{
    insert_next(reached, form, next);
    insert_target(reached, form, slot);
}

// Adds the next slot, if the instruction is followed by the next one.
fn insert_next(reached: &mut SlotSet, form: Form, next: usize)
    requires { falls_through form ≡ true → next < MAX_SLOTS }
    ensures { (t : ℕ) → has_slot reached.new t ≡ ((falls_through form && nat_eq next t) || has_slot reached.old t) }
{
    if form.falls_through() {
        reached.insert(next);
    }
}

// Adds the slot that the instruction may jump to, if it is one.
fn insert_target(reached: &mut SlotSet, form: Form, slot: usize)
    requires at { slot < MAX_SLOTS }
    requires within { (t : ℕ) → jump_is (is_slot t) (jump_target form slot) ≡ true → t < MAX_SLOTS }
    ensures { (t : ℕ) → has_slot reached.new t ≡ (jump_is (is_slot t) (jump_target form slot) || has_slot reached.old t) }
{
    match target_of(form, slot) {
        Some(target) if target >= 0 => reached.insert(target as usize),
        _ => {}
    }
}
