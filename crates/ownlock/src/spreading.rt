// The slots of a table, of which each place has eight: the first has its value, and so no cache line has parts of two values.
ghost use Rattle.std.specs.Prelude.{◌≡◌, ◌<◌, ◌≤◌, ◌^◌, ◌+◌, ◌++◌, ℕ, List, Option, [], ◌∷◌, length, false, true, vec_capacity, None, slice_index_or, slice_set};
ghost use Rattle.std.specs.Mem.Slots.Ownership.{Filled};
ghost use Rattle.std.specs.Mem.Slots.{slots_items, slots_filled, slots_len, IsFull};
ghost use Rattle.ownlock.specs.Words.{slot_of};
ghost use Rattle.ownlock.specs.Seats.{At};
ghost use Rattle.ownlock.specs.Spreading.{gap, spread, HasGaps, IsEmptied, StandsIn};
ghost use Rattle.std.specs.Vec.Iter.{into_iter_items, into_iter_len};

use atomic_table::Closed;
use std::alloc::Global;
use std::vec::IntoIter;
use unreached::unreached;

// A value that is a pointer of some kind takes 24 bytes with what tells that it is there. So eight slots are three cache lines of 64 bytes.
const SLOTS_OF_A_PLACE: usize = 8;

// The slot of a place.
pub(crate) fn slot_of(place: usize) -> usize
    requires { slot_of place < 2 ^ 64 }
    ensures { result ≡ slot_of place }
{
    SLOTS_OF_A_PLACE * place
}

// Puts slots that hold nothing behind a value.
fn push_gap<V>(slots: &mut Vec<Option<V>>)
    requires room { length slots.old.items + 7 ≤ vec_capacity slots.old }
    ensures items { slots.new.items ≡ slots.old.items ++ gap }
    ensures room { vec_capacity slots.new ≡ vec_capacity slots.old }
{
    for _ in 1..SLOTS_OF_A_PLACE {
        slots.push_reserved(None);
    }
}

// The values, each in the slot of its place.
pub(crate) fn spread<V>(values: Vec<Option<V>>, mut slots: Vec<Option<V>>) -> Vec<Option<V>>
    requires room { (slots.items ≡ []) × (slot_of (length values.items) ≤ vec_capacity slots) }
    ensures { result.items ≡ spread values.items }
{
    let mut rest = values.into_iter();
    while let Some(value) = rest.next() {
        slots.push_reserved(value);
        push_gap(&mut slots);
    }
    rest.destroy_empty();
    slots
}

// Passes over a slot that holds nothing.
fn pass<V>(rest: &mut IntoIter<Option<V>>)
    requires { (xs : List (Option V)) × (into_iter_items rest.old ≡ None ∷ xs) }
    ensures { into_iter_items rest.old ≡ None ∷ into_iter_items rest.new }
{
    let found = rest.next();
    let Some(nothing) = found else { unreached!() };
    let None = nothing else { unreached!() };
}

// Passes over the slots behind a value.
fn pass_gap<V>(rest: &mut IntoIter<Option<V>>)
    requires { (xs : List (Option V)) × (into_iter_items rest.old ≡ gap ++ xs) }
    ensures { into_iter_items rest.old ≡ gap ++ into_iter_items rest.new }
{
    for _ in 1..SLOTS_OF_A_PLACE {
        pass(rest);
    }
}

// The values that were so spread.
pub(crate) fn gather<V>(slots: Vec<Option<V>>, mut room: Vec<Option<V>>) -> Vec<Option<V>>
    requires spread { (xs : List (Option V)) × (slots.items ≡ spread xs) × (length xs ≤ vec_capacity room) }
    requires room { room.items ≡ [] }
    ensures { slots.items ≡ spread result.items }
{
    let mut rest = slots.into_iter();
    while let Some(value) = rest.next() {
        room.push_reserved(value);
        pass_gap(&mut rest);
    }
    rest.destroy_empty();
    room
}

// Takes nothing out of a slot that holds nothing.
fn skip<V>(closed: &mut Closed<Option<V>, Global>, slot: usize)
    requires there { (slot < slots_len closed.old.slots) × (slice_index_or (slots_filled closed.old.slots) slot false ≡ true) }
    requires nothing { At slot None (slots_items closed.old.slots) }
    ensures items { (slots_items closed.new.slots ≡ slots_items closed.old.slots) × (slots_len closed.new.slots ≡ slots_len closed.old.slots) }
    ensures taken { slots_filled closed.new.slots ≡ slice_set (slots_filled closed.old.slots) slot false }
{
    let nothing = closed.take(slot);
    let None = nothing else { unreached!() };
}

// Takes nothing out of the slots behind that of a value.
fn skip_gap<V>(closed: &mut Closed<Option<V>, Global>, slot: usize)
    requires there { slot + 8 ≤ slots_len closed.old.slots }
    requires nothing { (a : ℕ) → 0 < a → a < 8 → At (slot + a) None (slots_items closed.old.slots) }
    requires full { Filled (slots_filled closed.old.slots) (slot + 1) (slots_len closed.old.slots) }
    requires empty { IsEmptied (slots_filled closed.old.slots) (slot + 1) }
    ensures items { (slots_items closed.new.slots ≡ slots_items closed.old.slots) × (slots_len closed.new.slots ≡ slots_len closed.old.slots) }
    ensures full { Filled (slots_filled closed.new.slots) (slot + 8) (slots_len closed.new.slots) }
    ensures empty { IsEmptied (slots_filled closed.new.slots) (slot + 8) }
{
    for gap in 1..SLOTS_OF_A_PLACE {
        skip(closed, slot + gap);
    }
}

// The values of a closed table of so many places, in their order.
pub(crate) fn unload<V>(
    mut closed: Closed<Option<V>, Global>,
    mut room: Vec<Option<V>>,
    places: usize,
) -> Vec<Option<V>>
    requires full { IsFull closed.slots × (slots_len closed.slots ≡ slot_of places) }
    requires gaps { HasGaps None places (slots_items closed.slots) }
    requires room { (room.items ≡ []) × (places ≤ vec_capacity room) }
    ensures places { length result.items ≡ places }
    ensures values { StandsIn result.items (slots_items closed.slots) }
{
    for place in 0..places {
        let slot = slot_of(place);
        room.push_reserved(closed.take(slot));
        skip_gap(&mut closed, slot);
    }
    closed.free();
    room
}
