// A post and a turn in one hold of the desk.

ghost use Rattle.std.specs.Prelude.{◌≡◌, true, IfNone, IfSome};
ghost use Rattle.ownlock.specs.Seats.{IsSession};
ghost use Rattle.verifier.specs.declared.refusal.Mode.TheVariants.{Update};
ghost use Rattle.replica.specs.StoreMeaning.{is_operation};
ghost use Rattle.store_steps.specs.AtOnce.{AsksAtOnce, GoesOnTo, MayAsk, MayGoOn, MayHandOver, PostsAndTurns, SessionGives};
ghost use Rattle.store_steps.specs.Standing.{SessionKnown};

use crate::alone::ask;
use crate::batches::Room;
use crate::combining::append_and_replay;
use crate::desks;
use crate::desks::Turn;
use crate::pauses::{By, Waiting};
use crate::requests::{turn, watch};
use crate::steps::Here;
use crate::taking::{let_line_go, win_line};
use crate::values::Value;
use crate::visits::{try_take_desk, turn_and_put};
use combiner::{Batch, Reply};
use oplog::OpRef;
use ownlock::Seat;
use replica::Replies;
use std::marker::Brand;
use std::sync::Wait;
use unreached::unreached;

// Posts an operation at the desk of the caller's node, and has a turn there in the same hold: it claims the posted requests into the batch, unless
// another session combines. If another session holds the desk, the answer is `None`, and nothing has changed.
#[inline(always)]
fn try_post_and_turn(
    here: Here<'_>,
    seat: &mut Seat<Value>,
    op: &OpRef<'_>,
    batch: &mut Batch,
) -> Option<Turn>
    requires own { seat.old.shelf ≡ here.shared.shelf.now.id }
    requires idle { MayAsk seat.old here.caller here.shared }
    requires update { is_operation Update here.shared.catalogue.now op.now ≡ true }
    ensures same { seat.new.shelf ≡ seat.old.shelf }
    ensures stays { IfNone result ((seat.new ≡ seat.old) × (batch.new ≡ batch.old)) }
    ensures turned { IfSome result (λ turn. (k : SessionKnown) → IsSession seat.old k → PostsAndTurns seat.old seat.new k op.now batch.new turn) }
{
    let Some(mut held) = try_take_desk(here, seat, None) else {
        return None;
    };
    desks::post(held.value.desk_mut(), here.caller.slot, op);
    let again = here.shared.shelf.settle::<Brand>(seat, held);
    Some(turn_and_put(here, seat, again, batch, None))
}

// Answers the requests of the batch at the desk of the caller's node, by the outcomes that were kept of it, and has a turn there in the same hold: it
// collects its own answer. If another session holds the desk, the answer is `None`, and nothing has changed.
#[inline(always)]
pub(crate) fn try_hand_over_and_turn(
    here: Here<'_>,
    seat: &mut Seat<Value>,
    batch: &mut Batch,
    replies: &Replies,
) -> Option<Turn>
    requires own { seat.old.shelf ≡ here.shared.shelf.now.id }
    requires ready { MayHandOver seat.old here.caller here.shared batch.old replies.now }
    ensures same { seat.new.shelf ≡ seat.old.shelf }
    ensures stays { IfNone result ((seat.new ≡ seat.old) × (batch.new ≡ batch.old)) }
    ensures turned { IfSome result (SessionGives here.entry.caller.node seat.old seat.new batch.old replies.now batch.new) }
{
    let Some(mut held) = try_take_desk(here, seat, None) else {
        return None;
    };
    desks::reply(held.value.desk_mut(), batch, replies);
    let again = here.shared.shelf.settle::<Brand>(seat, held);
    Some(turn_and_put(here, seat, again, batch, None))
}

// `try_post_and_turn`, but waits while another session holds the desk.
#[inline(always)]
pub(crate) fn post_and_turn<R: Wait>(
    rt: &R,
    here: Here<'_>,
    seat: &mut Seat<Value>,
    op: &OpRef<'_>,
    batch: &mut Batch,
) -> Turn
    requires own { seat.old.shelf ≡ here.shared.shelf.now.id }
    requires idle { MayAsk seat.old here.caller here.shared }
    requires update { is_operation Update here.shared.catalogue.now op.now ≡ true }
    ensures same { seat.new.shelf ≡ seat.old.shelf }
    ensures turned { (k : SessionKnown) → IsSession seat.old k → PostsAndTurns seat.old seat.new k op.now batch.new result }
{
    if let Some(turn) = try_post_and_turn(here, seat, op, batch) {
        return turn;
    }
    for _ in rt.forever() {
        here.shared
            .shelf
            .wait(rt, seat, 1 + here.shared.nodes + here.caller.node);
        if let Some(turn) = try_post_and_turn(here, seat, op, batch) {
            return turn;
        }
    }
    unreached!()
}

// `try_hand_over_and_turn`, but waits while another session holds the desk.
#[inline(always)]
fn hand_over_and_turn<R: Wait>(
    rt: &R,
    here: Here<'_>,
    seat: &mut Seat<Value>,
    batch: &mut Batch,
    replies: &Replies,
) -> Turn
    requires own { seat.old.shelf ≡ here.shared.shelf.now.id }
    requires ready { MayHandOver seat.old here.caller here.shared batch.old replies.now }
    ensures same { seat.new.shelf ≡ seat.old.shelf }
    ensures turned { SessionGives here.entry.caller.node seat.old seat.new batch.old replies.now batch.new result }
{
    if let Some(turn) = try_hand_over_and_turn(here, seat, batch, replies) {
        return turn;
    }
    for _ in rt.forever() {
        here.shared
            .shelf
            .wait(rt, seat, 1 + here.shared.nodes + here.caller.node);
        if let Some(turn) = try_hand_over_and_turn(here, seat, batch, replies) {
            return turn;
        }
    }
    unreached!()
}

// A session that has asked, and has had this turn, goes on to its answer: it combines what it has claimed, and has turn after turn.
#[inline(always)]
fn go_on<R: Wait>(
    rt: &R,
    here: Here<'_>,
    seat: &mut Seat<Value>,
    room: &mut Room,
    had: Turn,
) -> Reply
    requires own { seat.old.shelf ≡ here.shared.shelf.now.id }
    requires waited { MayGoOn seat.old here.caller here.shared room.old.batch had }
    ensures same { seat.new.shelf ≡ seat.old.shelf }
    ensures answered { GoesOnTo here.entry.caller seat.old seat.new room.old.batch had room.new.batch result }
{
    let mut at = had;
    for _ in rt.forever() {
        match at {
            Turn::Collects(reply) => return reply,
            Turn::Combines => {
                let pauses = &mut room.pauses;
                append_and_replay(
                    Waiting { rt, pauses },
                    here,
                    seat,
                    &room.batch,
                    &mut room.replies,
                );
                room.count_batch();
                room.pauses.shorten();
                at = hand_over_and_turn(rt, here, seat, &mut room.batch, &room.replies);
            }
            Turn::Waits => {
                watch(here.shared.shelf, 1 + here.caller.node);
                room.pauses.pause();
                at = turn(rt, here, seat, &mut room.batch);
            }
        }
    }
    unreached!()
}

/// A whole update by four takes: the session posts and claims in one hold of the desk, and answers its batch and collects its own answer in
/// another. Where no other session is at its node, it wins the line of the node first, and its takes and puts there are looks; and where no other
/// request is at the desk, its batch is its own request, which stays where its caller has it. While another session combines, it waits
/// as [`complete`](crate::complete) does.
#[inline(always)]
pub fn ask_at_once<R: Wait>(
    rt: &R,
    here: Here<'_>,
    seat: &mut Seat<Value>,
    op: &OpRef<'_>,
    room: &mut Room,
) -> Reply
    requires own { seat.old.shelf ≡ here.shared.shelf.now.id }
    requires idle { MayAsk seat.old here.caller here.shared }
    requires update { is_operation Update here.shared.catalogue.now op.now ≡ true }
    ensures same { seat.new.shelf ≡ seat.old.shelf }
    ensures asked { (k : SessionKnown) → IsSession seat.old k → AsksAtOnce seat.new k op.now result }
{
    let mut won = win_line(here, seat);
    let by = By { won: &mut won, rt };
    let at = ask(by, here, seat, op, room);
    let_line_go(here, seat, &mut won);
    match at {
        Turn::Collects(reply) => reply,
        at => go_on(rt, here, seat, room, at),
    }
}
