// Sets of slots.

ghost use Rattle.std.specs.Prelude.{◌≡◌, ℕ, ◌<◌, false, ◌||◌, nat_eq};
ghost use Rattle.flow.specs.SlotSets.{has_slot};

use insn::MAX_SLOTS;

/// A set of slots, a bit for each.
#[derive(Clone, Copy)]
pub struct SlotSet {
    words: [u64; MAX_SLOTS / 64],
}

impl SlotSet {
    /// No slot.
    pub fn new() -> Self
        ensures { (s : ℕ) → has_slot result s ≡ false }
    {
        SlotSet {
            words: [0; MAX_SLOTS / 64],
        }
    }

    /// Whether the slot is one of them.
    pub fn contains(&self, slot: usize) -> bool
        requires { slot < MAX_SLOTS }
        ensures { result ≡ has_slot self.now slot }
    {
        (self.words[slot / 64] >> (slot % 64)) & 1 == 1
    }

    /// Adds the slot.
    pub fn insert(&mut self, slot: usize)
        requires { slot < MAX_SLOTS }
        ensures { (s : ℕ) → has_slot self.new s ≡ (nat_eq s slot || has_slot self.old s) }
    {
        self.words[slot / 64] |= 1 << (slot % 64);
    }
}
