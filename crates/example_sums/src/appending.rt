// Appending through both places of a shelf.
ghost use Rattle.std.specs.Prelude.{◌≡◌, ◌≤◌, ℕ, [], ◌∷◌, ◌++◌, MatchResult, IfOk};
ghost use Rattle.ownlock.specs.declared.known.Known.{Known};
ghost use Rattle.ownlock.specs.Seats.{IsSession};
ghost use Rattle.example_sums.specs.declared.kinds.Progress.{Progress};
ghost use Rattle.example_sums.specs.declared.kinds.Value.{Value};
ghost use Rattle.example_sums.specs.Sums.{IsList, IsExtended, IsIdle, Counted, Appends};

use crate::kinds::{Numbers, Value};
use crate::replay::{catch_up, tail_and_sum};
use ownlock::{LEADER, Seat, Shelf};
use std::alloc::AllocError;
use std::marker::Brand;
use std::sync::Wait;

/// The place of the running sum.
pub const FOLLOWER: usize = 1;

fn push(list: &mut Numbers, item: u64) -> Result<(), AllocError>
    ensures { MatchResult result (λ _. list.new.items.items ≡ list.old.items.items ++ item ∷ []) (λ _. list.new.items.items ≡ list.old.items.items) }
{
    list.items.push(item)?;
    Ok(())
}

fn extend(value: &mut Value, item: u64) -> Result<(), AllocError>
    requires { IsList value.old }
    ensures { MatchResult result (λ _. IsExtended value.old value.new (item ∷ [])) (λ _. IsExtended value.old value.new []) }
{
    match value {
        Value::List(list) => push(list, item),
        Value::Sum(_) => unreachable!(),
    }
}

/// Appends to the list, lets the running sum follow, completes the number, and counts it in the session's note. Answers the sum
/// of the numbers up to this one, modulo 2^64. The completed tail is raised before the sum is put back.
///
/// # Errors
///
/// Where there is no memory for one number more. Nothing is appended then.
pub fn append<R: Wait>(
    rt: &R,
    shelf: &Shelf<Value>,
    seat: &mut Seat<Value>,
    item: u64,
) -> Result<u64, AllocError>
    requires own { seat.old.shelf ≡ shelf.now.id }
    requires there { 2 ≤ shelf.now.places }
    requires idle { IsIdle seat.old }
    ensures idle { IsIdle seat.new }
    ensures same { seat.new.shelf ≡ seat.old.shelf }
    ensures note { Appends seat.old item result seat.new }
{
    let mut follower = shelf.take(rt, seat, FOLLOWER);
    let mut leader = shelf.take(rt, seat, LEADER);
    let appended = extend(&mut leader.value, item);
    catch_up(&mut follower.value, &leader.value);
    let (tail, sum) = tail_and_sum(&follower.value);
    shelf.put::<Brand>(seat, leader);
    shelf.raise(seat, tail);
    shelf.put::<Brand>(seat, follower);
    match appended {
        Ok(()) => Ok(sum),
        Err(error) => Err(error),
    }
}

/// Appends the numbers below `count`, and gives the seat back.
///
/// # Errors
///
/// Where there was no memory for all of them.
pub fn append_many<R: Wait>(
    rt: &R,
    shelf: &Shelf<Value>,
    mut seat: Seat<Value>,
    count: u64,
) -> Result<Seat<Value>, AllocError>
    requires own { seat.shelf ≡ shelf.now.id }
    requires there { 2 ≤ shelf.now.places }
    requires idle { IsIdle seat }
    ensures { IfOk result (λ s. (s.shelf ≡ seat.shelf) × ((k : Known Progress ℕ Value) → IsSession seat k → Counted s k count)) }
{
    for item in 0..count {
        append(rt, shelf, &mut seat, item)?;
    }
    Ok(seat)
}
