// What a session does at its node's desk with an update of its own, from its post to its answer.

ghost use Rattle.std.specs.Prelude.{◌≡◌, ◌<◌, true, IfNone, IfSome};
ghost use Rattle.verifier.specs.declared.refusal.Mode.TheVariants.{Update};
ghost use Rattle.replica.specs.StoreMeaning.{is_operation};
ghost use Rattle.store_steps.specs.Asking.{AwaitsNothing, AwaitsAnswer, SessionPosts, SessionTurns, SessionCompletes};

use crate::batches::Room;
use crate::combining::combine;
use crate::desks;
use crate::desks::Turn;
use crate::pauses::Waiting;
use crate::steps::Here;
use crate::values::Value;
use crate::visits::{try_take_desk, turn_and_put};
use combiner::{Batch, Reply};
use crossbeam_utils::Backoff;
use oplog::OpRef;
use ownlock::{Seat, Shelf};
use std::marker::Brand;
use std::sync::Wait;
use unreached::unreached;

/// Posts an operation at the desk of the caller's node. If another session holds the desk, the answer is `None`, and nothing has changed.
#[inline(always)]
pub fn try_post(here: Here<'_>, seat: &mut Seat<Value>, op: &OpRef<'_>) -> Option<()>
    requires own { seat.old.shelf ≡ here.shared.shelf.now.id }
    requires idle { AwaitsNothing seat.old here.caller here.shared }
    requires update { is_operation Update here.shared.catalogue.now op.now ≡ true }
    ensures same { seat.new.shelf ≡ seat.old.shelf }
    ensures stays { IfNone result (seat.new ≡ seat.old) }
    ensures posted { IfSome result (λ _. SessionPosts seat.old seat.new op.now) }
{
    let Some(mut held) = try_take_desk(here, seat, None) else {
        return None;
    };
    desks::post(held.value.desk_mut(), here.caller.slot, op);
    here.shared.shelf.put::<Brand>(seat, held);
    Some(())
}

/// `try_post`, but waits while another session holds the desk.
#[inline(always)]
pub fn post<R: Wait>(rt: &R, here: Here<'_>, seat: &mut Seat<Value>, op: &OpRef<'_>)
    requires own { seat.old.shelf ≡ here.shared.shelf.now.id }
    requires idle { AwaitsNothing seat.old here.caller here.shared }
    requires update { is_operation Update here.shared.catalogue.now op.now ≡ true }
    ensures same { seat.new.shelf ≡ seat.old.shelf }
    ensures posted { SessionPosts seat.old seat.new op.now }
{
    if let Some(()) = try_post(here, seat, op) {
        return;
    }
    for _ in rt.forever() {
        here.shared
            .shelf
            .wait(rt, seat, 1 + here.shared.nodes + here.caller.node);
        if let Some(()) = try_post(here, seat, op) {
            return;
        }
    }
    unreached!()
}

// Takes the desk of the caller's node, and has a turn there. If another session holds the desk, the answer is `None`, and nothing has changed.
#[inline(always)]
pub(crate) fn try_turn(here: Here<'_>, seat: &mut Seat<Value>, batch: &mut Batch) -> Option<Turn>
    requires own { seat.old.shelf ≡ here.shared.shelf.now.id }
    requires asked { AwaitsAnswer seat.old here.caller here.shared }
    ensures same { seat.new.shelf ≡ seat.old.shelf }
    ensures stays { IfNone result ((seat.new ≡ seat.old) × (batch.new ≡ batch.old)) }
    ensures turned { IfSome result (λ turn. SessionTurns seat.old seat.new batch.new turn) }
{
    let Some(held) = try_take_desk(here, seat, None) else {
        return None;
    };
    Some(turn_and_put(here, seat, held, batch, None))
}

// `try_turn`, but waits while another session holds the desk.
#[inline(always)]
pub(crate) fn turn<R: Wait>(
    rt: &R,
    here: Here<'_>,
    seat: &mut Seat<Value>,
    batch: &mut Batch,
) -> Turn
    requires own { seat.old.shelf ≡ here.shared.shelf.now.id }
    requires asked { AwaitsAnswer seat.old here.caller here.shared }
    ensures same { seat.new.shelf ≡ seat.old.shelf }
    ensures turned { SessionTurns seat.old seat.new batch.new result }
{
    if let Some(turn) = try_turn(here, seat, batch) {
        return turn;
    }
    for _ in rt.forever() {
        here.shared
            .shelf
            .wait(rt, seat, 1 + here.shared.nodes + here.caller.node);
        if let Some(turn) = try_turn(here, seat, batch) {
            return turn;
        }
    }
    unreached!()
}

// How often a session that waits looks between two turns at its desk. The pauses between its looks grow, and the last of so many yields
// the processor, which the one that combines may want.
const LOOKS: usize = 8;

// Waits until a place was taken or put back, and no longer than so many looks: its word may move between two of them, or not again.
// The look at the word leaves its cache line with the one that combines, where a turn at the desk would take that of the desk.
#[inline(never)]
pub(crate) fn watch(shelf: &Shelf<Value>, place: usize)
    requires { place < shelf.now.places }
{
    let seen = shelf.glance(place);
    let backoff = Backoff::new();
    for _ in 0..LOOKS {
        backoff.snooze();
        if shelf.glance(place) != seen {
            return;
        }
    }
}

/// Waits for the answer to the request that the caller has posted, and collects it. Where nobody combines the requests of its
/// node, the caller does, in the room that is lent, and counts the batch; else it watches
/// the place of its node's replica, which the one that combines puts back before it hands the answers over.
pub fn complete<R: Wait>(rt: &R, here: Here<'_>, seat: &mut Seat<Value>, room: &mut Room) -> Reply
    requires own { seat.old.shelf ≡ here.shared.shelf.now.id }
    requires asked { AwaitsAnswer seat.old here.caller here.shared }
    ensures same { seat.new.shelf ≡ seat.old.shelf }
    ensures completed { SessionCompletes seat.old seat.new result }
{
    for _ in rt.forever() {
        match turn(rt, here, seat, &mut room.batch) {
            Turn::Collects(reply) => return reply,
            Turn::Combines => {
                let pauses = &mut room.pauses;
                let waiting = Waiting { rt, pauses };
                combine(waiting, here, seat, &mut room.batch, &mut room.replies);
                room.count_batch();
                room.pauses.shorten();
            }
            Turn::Waits => {
                watch(here.shared.shelf, 1 + here.caller.node);
                room.pauses.pause();
            }
        }
    }
    unreached!()
}
