// A visit at the desk of a session's node: the session takes the desk, has a turn there, and puts the desk back.

ghost use Rattle.std.specs.Prelude.{◌≡◌, ◌<◌, IsSome, Some, IfNone, IfSome};
ghost use Rattle.combiner.specs.Desks.{DeskView, IsOnlyAt, only};
ghost use Rattle.ownlock.specs.Held.{IsBy, IsFrom, held_place};
ghost use Rattle.store_steps.specs.AtDesk.{IsTurn, KeepsBatch};
ghost use Rattle.store_steps.specs.Knowing.{IsOn, Knows, Learns};
ghost use Rattle.store_steps.specs.Lending.{desk_of};
ghost use Rattle.ownlock.specs.Seats.{IsSession};
ghost use Rattle.store_steps.specs.Standing.{IsFree, SessionKnown};
ghost use Rattle.store_steps.specs.declared.desks.Turn.TheVariants.{Combines};
ghost use Rattle.store_steps.specs.Visits.{HasDesk, MayTurn, TurnsThere};
ghost use Rattle.store_steps.specs.Winning.{IsWonBy};

use crate::desks;
use crate::desks::Turn;
use crate::steps::Here;
use crate::taking::take_desk;
use crate::values::Value;
use combiner::Batch;
use oplog::{NewRecord, OpRef};
use ownlock::{Held, Seat, Won};
use std::marker::Brand;

// Takes the desk of the caller's node, by a look where the session has won its line. If another session holds the desk, the answer is `None`, and nothing has changed.
#[inline(always)]
pub(crate) fn try_take_desk(
    here: Here<'_>,
    seat: &mut Seat<Value>,
    won: Option<&Won>,
) -> Option<Held<Value>>
    requires idle { Knows seat.old (λ k. IsFree here.caller k × IsOn here.shared k) }
    requires by { IfSome won (λ w. IsWonBy here w.now) }
    requires own { seat.old.shelf ≡ here.shared.shelf.now.id }
    ensures same { seat.new.shelf ≡ seat.old.shelf }
    ensures stays { IfNone result (seat.new ≡ seat.old) }
    ensures there { IfSome result (IsFrom here.entry.shared.shelf.now) }
    ensures desk { IfSome result (λ held. IsSome (desk_of held.value)) }
    ensures taken { IfSome result (λ held. Learns seat.old seat.new (λ k t. HasDesk here.entry.caller k t (held_place held) held.value)) }
{
    take_desk(here, seat, won)
}

// Has a turn at the desk, which the session holds, and puts the desk back. A turn collects the answer that waits there; else it claims the
// posted requests into the batch, if nobody combines; else it does nothing.
#[inline(always)]
pub(crate) fn turn_and_put(
    here: Here<'_>,
    seat: &mut Seat<Value>,
    mut held: Held<Value>,
    batch: &mut Batch,
    won: Option<&Won>,
) -> Turn
    requires own { seat.old.shelf ≡ here.shared.shelf.now.id }
    requires there { IsFrom here.shared.shelf.now held }
    requires asked { MayTurn seat.old here.caller (held_place held) held.value }
    requires by { IfSome won (λ w. IsBy here.shared.shelf.now w.now seat.old) }
    ensures same { seat.new.shelf ≡ seat.old.shelf }
    ensures turn { (x : DeskView) → desk_of held.value ≡ Some x → (y : DeskView) × IsTurn here.entry.caller.slot x y batch.new result }
    ensures kept { KeepsBatch batch.old batch.new result }
    ensures turned { TurnsThere seat.old seat.new here.entry.caller (held_place held) held.value batch.new result }
{
    let turn = desks::collect_or_claim(held.value.desk_mut(), here.caller.slot, batch);
    here.shared.shelf.put_by::<Brand>(seat, held, won);
    turn
}

// The session, which holds its node's desk, claims its own request there, which is the only one without an answer, and puts the desk back.
#[inline(always)]
pub(crate) fn claim_and_put<'a>(
    here: Here<'_>,
    seat: &mut Seat<Value>,
    mut held: Held<Value>,
    op: &'a OpRef<'a>,
    won: Option<&Won>,
) -> NewRecord<'a>
    requires own { seat.old.shelf ≡ here.shared.shelf.now.id }
    requires there { IsFrom here.shared.shelf.now held }
    requires asked { MayTurn seat.old here.caller (held_place held) held.value }
    requires only { (x : DeskView) → desk_of held.value ≡ Some x → IsOnlyAt here.caller.slot op.now x }
    requires by { IfSome won (λ w. IsBy here.shared.shelf.now w.now seat.old) }
    ensures same { seat.new.shelf ≡ seat.old.shelf }
    ensures own { (k : SessionKnown) → IsSession seat.old k → result.author ≡ k.session }
    ensures turned { TurnsThere seat.old seat.new here.entry.caller (held_place held) held.value (only result) Combines }
{
    let new = desks::claim_only(held.value.desk_mut(), here.caller.slot, op);
    here.shared.shelf.put_by::<Brand>(seat, held, won);
    new
}
