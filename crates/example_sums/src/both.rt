// Two threads append to one list.
ghost use Rattle.std.specs.Prelude.{◌≡◌, ◌+◌, ◌*◌, ◌<◌, ◌≤◌, ◌%◌, ◌^◌, ℕ, List, [], length, take, IfOk};
ghost use Rattle.ownlock.specs.Seats.{IsSession};
ghost use Rattle.example_sums.specs.Sums.{Counted, fresh, total};

use crate::appending::append_many;
use crate::kinds::{Numbers, RunningSum, Value};
use ownlock::{Seat, Shelf};
use std::alloc::{AllocError, Global};
use std::sync::Wait;
use std::thread;
use std::thread::Threads;

/// What the shelf gives back: the list, and the sum that followed it.
#[derive(Drop)]
pub struct Appended {
    pub list: Numbers,
    pub sum: RunningSum,
}

/// A shelf with an empty list and its sum, and a seat for each of two sessions.
pub fn open_two(alloc: Global) -> Result<(Shelf<Value>, Seat<Value>, Seat<Value>), AllocError>
    ensures shelf { IfOk result (λ t. (t.0.places ≡ 2) × (t.0.setup ≡ 2)) }
    ensures own { IfOk result (λ t. (t.1.shelf ≡ t.0.id) × (t.2.shelf ≡ t.0.id)) }
    ensures seats { IfOk result (λ t. IsSession t.1 (fresh 0) × IsSession t.2 (fresh 1)) }
{
    let mut values = Vec::with_capacity(alloc, 2)?;
    values.push_reserved(Some(Value::List(Numbers {
        items: Vec::new(alloc),
    })));
    values.push_reserved(Some(Value::Sum(RunningSum { tail: 0, sum: 0 })));
    let Ok((shelf, mut other)) = Shelf::open(alloc, values, &2) else {
        return Err(AllocError);
    };
    let one = shelf.split(&mut other);
    Ok((shelf, one, other))
}

/// The list and its sum, once both seats are back.
pub fn close_two(
    shelf: Shelf<Value>,
    mut one: Seat<Value>,
    other: Seat<Value>,
    count: u64,
) -> Appended
    requires shelf { (shelf.places ≡ 2) × (shelf.setup ≡ 2) }
    requires own { (one.shelf ≡ shelf.id) × (other.shelf ≡ shelf.id) }
    requires one { Counted one (fresh 0) count }
    requires other { Counted other (fresh 1) count }
    ensures list { length result.list.items.items ≡ 2 * count }
    ensures sum { (result.sum.tail ≤ length result.list.items.items) × (result.sum.sum ≡ total (take result.sum.tail result.list.items.items) % 2 ^ 64) }
{
    shelf.join(&mut one, other);
    let mut values = shelf.close(one);
    let Some(Some(Value::Sum(sum))) = values.pop() else {
        unreachable!()
    };
    let Some(Some(Value::List(list))) = values.pop() else {
        unreachable!()
    };
    Appended { list, sum }
}

/// Two threads append the numbers below `count` each.
///
/// # Errors
///
/// Where there was no memory for all of them.
pub fn append_both<R: Threads + Wait + Sync>(
    rt: &R,
    alloc: Global,
    count: u64,
) -> Result<Appended, AllocError>
    ensures list { IfOk result (λ r. length r.list.items.items ≡ 2 * count) }
    ensures sum { IfOk result (λ r. (r.sum.tail ≤ length r.list.items.items) × (r.sum.sum ≡ total (take r.sum.tail r.list.items.items) % 2 ^ 64)) }
{
    let (shelf, one, other) = open_two(alloc)?;
    let lent = &shelf;
    let (one, other) = thread::join(
        rt,
        move ||
            requires { (one.shelf ≡ lent.now.id) × (lent.now.places ≡ 2) × IsSession one (fresh 0) }
            ensures { IfOk result (λ s. (s.shelf ≡ one.shelf) × Counted s (fresh 0) count) }
        { append_many(rt, lent, one, count) },
        move ||
            requires { (other.shelf ≡ lent.now.id) × (lent.now.places ≡ 2) × IsSession other (fresh 1) }
            ensures { IfOk result (λ s. (s.shelf ≡ other.shelf) × Counted s (fresh 1) count) }
        { append_many(rt, lent, other, count) },
    );
    Ok(close_two(shelf, one?, other?, count))
}
