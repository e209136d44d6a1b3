// What a session does that holds its node's desk.

ghost use Rattle.std.specs.Prelude.{◌≡◌, ◌<◌, Some, true, IfErr, IfOk};
ghost use Rattle.verifier.specs.declared.refusal.Mode.TheVariants.{Update};
ghost use Rattle.node.specs.Answering.{answered_batch};
ghost use Rattle.replica.specs.StoreMeaning.{is_operation};
ghost use Rattle.store_steps.specs.AtDesk.{KeepsBatch};
ghost use Rattle.store_steps.specs.AtOnce.{MayAsk};
ghost use Rattle.store_steps.specs.Knowing.{Learns};
ghost use Rattle.store_steps.specs.Lending.{desk_of};
ghost use Rattle.store_steps.specs.Pipelines.{HasHanded, HasLooked, HasNoCombiner, IsDesk, IsNext, IsPosted, IsReplied, IsTurnThere, MayGiveThere, MayPostThere, MayTurnThere, SessionGivesThere, SessionHands, SessionKeeps, SessionTakes, TurnsToNext};
ghost use Rattle.store_steps.specs.Standing.{SessionKnown};

use crate::desks;
use crate::desks::Turn;
use crate::steps::Here;
use crate::taking::take_desk;
use crate::values::Value;
use combiner::Batch;
use oplog::OpRef;
use ownlock::{Held, Seat};
use replica::Replies;
use std::marker::Brand;

// The session, which holds its node's desk, posts an operation there, and has the desk again.
#[inline(always)]
pub(crate) fn post_and_settle(
    here: Here<'_>,
    seat: &mut Seat<Value>,
    mut held: Held<Value>,
    op: &OpRef<'_>,
) -> Held<Value>
    requires own { seat.old.shelf ≡ here.shared.shelf.now.id }
    requires place { IsDesk here held }
    requires has { MayPostThere seat.old here held }
    requires update { is_operation Update here.shared.catalogue.now op.now ≡ true }
    ensures same { (seat.new.shelf ≡ seat.old.shelf) × IsDesk here.entry result }
    ensures posted { IsPosted here.entry op.now held result }
    ensures kept { SessionKeeps seat.old seat.new here.entry held result op.now }
{
    desks::post(held.value.desk_mut(), here.caller.slot, op);
    here.shared.shelf.settle::<Brand>(seat, held)
}

// The session, which holds its node's desk, posts an operation there, and hands the desk on to the session of the seat `next`. It answers with
// the desk, and with the seat of the session that posted.
#[inline(always)]
pub(crate) fn post_and_hand_on(
    here: Here<'_>,
    at: &mut Seat<Value>,
    mut held: Held<Value>,
    op: &OpRef<'_>,
    next: Seat<Value>,
) -> (Held<Value>, Seat<Value>)
    requires own { (at.old.shelf ≡ here.shared.shelf.now.id) × (next.shelf ≡ here.shared.shelf.now.id) }
    requires place { IsDesk here held }
    requires has { MayPostThere at.old here held }
    requires next { (m : SessionKnown) × IsNext next here m }
    requires update { is_operation Update here.shared.catalogue.now op.now ≡ true }
    ensures same { (at.new.shelf ≡ at.old.shelf) × (result.1.shelf ≡ at.old.shelf) × IsDesk here.entry result.0 }
    ensures posted { IsPosted here.entry op.now held result.0 }
    ensures handed { SessionHands at.old at.new next result.1 here.entry held result.0 op.now }
{
    let shelf = here.shared.shelf;
    desks::post(held.value.desk_mut(), here.caller.slot, op);
    shelf.join(at, next);
    let held = shelf.hand_on::<Brand>(at, held);
    let done = shelf.split_off(at);
    (held, done)
}

// The session, which holds its node's desk, has a turn there, and hands the desk on to the session of the seat `next`. It answers with the
// desk, with the seat of the session that had the turn, and with the turn.
#[inline(always)]
pub(crate) fn turn_and_hand_on(
    here: Here<'_>,
    at: &mut Seat<Value>,
    mut held: Held<Value>,
    batch: &mut Batch,
    next: Seat<Value>,
) -> (Held<Value>, Seat<Value>, Turn)
    requires own { (at.old.shelf ≡ here.shared.shelf.now.id) × (next.shelf ≡ here.shared.shelf.now.id) }
    requires place { IsDesk here held }
    requires has { MayTurnThere at.old here held }
    requires next { (m : SessionKnown) × IsNext next here m }
    ensures same { (at.new.shelf ≡ at.old.shelf) × (result.1.shelf ≡ at.old.shelf) × IsDesk here.entry result.0 }
    ensures turn { IsTurnThere here.entry held batch.new result.2 (λ y. desk_of result.0.value ≡ Some y) }
    ensures kept { KeepsBatch batch.old batch.new result.2 }
    ensures handed { TurnsToNext at.old next here.entry held batch.new result.2 (HasHanded at.new result.1 result.0) }
{
    let shelf = here.shared.shelf;
    let turn = desks::collect_or_claim(held.value.desk_mut(), here.caller.slot, batch);
    shelf.join(at, next);
    let held = shelf.hand_on::<Brand>(at, held);
    let done = shelf.split_off(at);
    (held, done, turn)
}

// The session, which holds its node's desk, answers the requests of its batch there, by the outcomes that were kept of it, and has the desk again.
#[inline(always)]
pub(crate) fn give_and_settle(
    here: Here<'_>,
    seat: &mut Seat<Value>,
    mut held: Held<Value>,
    batch: &mut Batch,
    replies: &Replies,
) -> Held<Value>
    requires own { seat.old.shelf ≡ here.shared.shelf.now.id }
    requires place { IsDesk here held }
    requires has { MayGiveThere seat.old here held batch.old replies.now }
    ensures same { (seat.new.shelf ≡ seat.old.shelf) × IsDesk here.entry result }
    ensures answered { batch.new ≡ answered_batch replies.now batch.old }
    ensures replied { IsReplied held batch.new result }
    ensures kept { SessionGivesThere seat.old seat.new here.entry held result batch.old replies.now }
{
    desks::reply(held.value.desk_mut(), batch, replies);
    here.shared.shelf.settle::<Brand>(seat, held)
}

// Takes the desk of the caller's node, if no session combines there. Else it answers a place to watch, and the session holds nothing.
pub(crate) fn try_take_free(here: Here<'_>, seat: &mut Seat<Value>) -> Result<Held<Value>, usize>
    requires own { seat.old.shelf ≡ here.shared.shelf.now.id }
    requires idle { MayAsk seat.old here.caller here.shared }
    ensures same { seat.new.shelf ≡ seat.old.shelf }
    ensures place { IfErr result (λ place. place < here.entry.shared.shelf.now.places) }
    ensures stays { IfErr result (λ _. Learns seat.old seat.new HasLooked) }
    ensures desk { IfOk result (IsDesk here.entry) }
    ensures free { IfOk result HasNoCombiner }
    ensures taken { IfOk result (SessionTakes seat.old seat.new here.entry) }
{
    let Some(held) = take_desk(here, seat, None) else {
        return Err(1 + here.shared.nodes + here.caller.node);
    };
    if held.value.desk().claimed() {
        here.shared.shelf.put::<Brand>(seat, held);
        return Err(1 + here.caller.node);
    }
    Ok(held)
}
