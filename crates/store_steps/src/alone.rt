// An update whose session finds no other request at its desk: the batch is its own request, which stays where its caller has it.

ghost use Rattle.std.specs.Prelude.{◌≡◌, true, IfNone, IfSome};
ghost use Rattle.combiner.specs.Desks.{only};
ghost use Rattle.oplog.specs.declared.records.Record.{Record};
ghost use Rattle.ownlock.specs.Seats.{IsSession};
ghost use Rattle.verifier.specs.declared.refusal.Mode.TheVariants.{Update};
ghost use Rattle.replica.specs.StoreMeaning.{is_operation};
ghost use Rattle.store_steps.specs.Alone.{AsksSoFar, ClaimsOwn, MayCombine, MayReply, RepliesAndTurns, SessionGoes, SessionPosts, turn_in};
ghost use Rattle.store_steps.specs.AtOnce.{FoundNoAnswer, MayAsk};
ghost use Rattle.store_steps.specs.Combining.{HasClaimed, SessionAnswers};
ghost use Rattle.store_steps.specs.Knowing.{IsOn, Knows};
ghost use Rattle.store_steps.specs.Standing.{IsFree, SessionKnown};
ghost use Rattle.store_steps.specs.Winning.{IsWonBy};

use crate::at_once::post_and_turn;
use crate::batches::Room;
use crate::claimed::OneReply;
use crate::combining::{append_and_replay, try_combine};
use crate::desks;
use crate::desks::Turn;
use crate::pauses::{By, Pauses, Waiting};
use crate::steps::Here;
use crate::taking::let_line_go;
use crate::values::Value;
use crate::visits::{claim_and_put, try_take_desk, turn_and_put};
use combiner::Batch;
use oplog::{NewRecord, OpRef};
use ownlock::{Seat, Won};
use std::marker::Brand;
use std::sync::Wait;
use unreached::unreached;

/// What a session has done that posted.
#[derive(Drop)]
pub(crate) enum Posted<'a> {
    /// It claimed its own request, the only one.
    Claims(NewRecord<'a>),
    /// It had this turn.
    Turns(Turn),
}

// `try_post_and_turn`; but where no other request is at the desk, the session claims its own alone, and the batch stays as it was.
#[inline(always)]
pub(crate) fn try_post_and_claim<'a>(
    here: Here<'_>,
    seat: &mut Seat<Value>,
    op: &'a OpRef<'a>,
    batch: &mut Batch,
    won: Option<&Won>,
) -> Option<Posted<'a>>
    requires own { seat.old.shelf ≡ here.shared.shelf.now.id }
    requires idle { MayAsk seat.old here.caller here.shared }
    requires by { IfSome won (λ w. IsWonBy here w.now) }
    requires update { is_operation Update here.shared.catalogue.now op.now ≡ true }
    ensures same { seat.new.shelf ≡ seat.old.shelf }
    ensures stays { IfNone result (seat.new ≡ seat.old) }
    ensures own { IfSome result (λ posted. (k : SessionKnown) → IsSession seat.old k → ClaimsOwn k posted) }
    ensures turned { IfSome result (SessionPosts seat.old seat.new op.now batch.new) }
    ensures fresh { IfSome result (λ posted. FoundNoAnswer (turn_in posted)) }
{
    let Some(mut held) = try_take_desk(here, seat, won) else {
        return None;
    };
    let desk = held.value.desk_mut();
    let idle = desk.is_idle();
    desks::post(desk, here.caller.slot, op);
    let again = here.shared.shelf.settle::<Brand>(seat, held);
    if idle {
        return Some(Posted::Claims(claim_and_put(here, seat, again, op, won)));
    }
    Some(Posted::Turns(turn_and_put(here, seat, again, batch, won)))
}

// Appends the session's own request, and brings the replica of its node up to it. It answers with what is kept then. Where another session holds the
// replica or the log, it lets the line go, waits, and pauses then.
#[inline(always)]
fn combine_alone<R: Wait>(
    by: By<'_, '_, R>,
    here: Here<'_>,
    seat: &mut Seat<Value>,
    new: &NewRecord<'_>,
    pauses: &mut Pauses,
) -> OneReply
    requires own { seat.old.shelf ≡ here.shared.shelf.now.id }
    requires claimed { Knows seat.old (λ k. IsFree here.caller k × HasClaimed k (only new.now) × IsOn here.shared k) }
    requires by { IfSome by.won.now (IsWonBy here) }
    ensures same { seat.new.shelf ≡ seat.old.shelf }
    ensures by { IfSome by.exit.0.now (IsWonBy here.entry) }
    ensures combined { SessionAnswers here.entry.caller.node seat.old seat.new (only new.now) result }
{
    let By { won, rt } = by;
    let mut replies = OneReply::none();
    if let Ok(()) = try_combine(here, seat, new, &mut replies, won.as_ref()) {
        return replies;
    }
    let_line_go(here, seat, won);
    append_and_replay(Waiting { rt, pauses }, here, seat, new, &mut replies);
    replies
}

// The session hands the answer of its own request over, which is the only one that is claimed, and has a turn in the same hold of the desk. If another
// session holds the desk, the answer is `None`, and nothing has changed.
#[inline(always)]
pub(crate) fn try_reply_and_turn(
    here: Here<'_>,
    seat: &mut Seat<Value>,
    replies: &OneReply,
    batch: &mut Batch,
    won: Option<&Won>,
) -> Option<Turn>
    requires own { seat.old.shelf ≡ here.shared.shelf.now.id }
    requires ready { (r : Record) × MayReply seat.old here.caller here.shared r replies.now }
    requires by { IfSome won (λ w. IsWonBy here w.now) }
    ensures same { seat.new.shelf ≡ seat.old.shelf }
    ensures stays { IfNone result (seat.new ≡ seat.old) }
    ensures turned { IfSome result (RepliesAndTurns here.entry seat.old seat.new replies.now batch.new) }
{
    let Some(mut held) = try_take_desk(here, seat, won) else {
        return None;
    };
    desks::reply_only(held.value.desk_mut(), here.caller.slot, replies);
    let again = here.shared.shelf.settle::<Brand>(seat, held);
    Some(turn_and_put(here, seat, again, batch, won))
}

// `try_reply_and_turn`, but waits while another session holds the desk.
#[inline(always)]
fn wait_and_reply<R: Wait>(
    rt: &R,
    here: Here<'_>,
    seat: &mut Seat<Value>,
    replies: OneReply,
    batch: &mut Batch,
) -> Turn
    requires own { seat.old.shelf ≡ here.shared.shelf.now.id }
    requires ready { (r : Record) × MayReply seat.old here.caller here.shared r replies }
    ensures same { seat.new.shelf ≡ seat.old.shelf }
    ensures turned { RepliesAndTurns here.entry seat.old seat.new replies batch.new result }
{
    for _ in rt.forever() {
        here.shared
            .shelf
            .wait(rt, seat, 1 + here.shared.nodes + here.caller.node);
        if let Some(turn) = try_reply_and_turn(here, seat, &replies, batch, None) {
            return turn;
        }
    }
    unreached!()
}

// The session combines its own request alone, hands the answer over, and has a turn in the same hold of the desk. It lets the line go before it waits.
#[inline(always)]
fn go_alone<R: Wait>(
    by: By<'_, '_, R>,
    here: Here<'_>,
    seat: &mut Seat<Value>,
    new: &NewRecord<'_>,
    room: &mut Room,
) -> Turn
    requires own { seat.old.shelf ≡ here.shared.shelf.now.id }
    requires claimed { MayCombine seat.old here.caller here.shared new.now }
    requires by { IfSome by.won.now (IsWonBy here) }
    ensures same { seat.new.shelf ≡ seat.old.shelf }
    ensures by { IfSome by.exit.0.now (IsWonBy here.entry) }
    ensures went { SessionGoes here.entry.caller.node seat.old seat.new new.now room.new.batch result }
{
    let By { won, rt } = by;
    let replies = combine_alone(By { won, rt }, here, seat, new, &mut room.pauses);
    room.count_single();
    room.pauses.shorten();
    if let Some(turn) = try_reply_and_turn(here, seat, &replies, &mut room.batch, won.as_ref()) {
        return turn;
    }
    let_line_go(here, seat, won);
    wait_and_reply(rt, here, seat, replies, &mut room.batch)
}

// Posts an operation, and has a turn in the same hold of the desk. Where no other request is there, the session combines its own, hands the answer
// over, and has another turn. It lets the line go before it waits.
#[inline(always)]
pub(crate) fn ask<R: Wait>(
    by: By<'_, '_, R>,
    here: Here<'_>,
    seat: &mut Seat<Value>,
    op: &OpRef<'_>,
    room: &mut Room,
) -> Turn
    requires own { seat.old.shelf ≡ here.shared.shelf.now.id }
    requires idle { MayAsk seat.old here.caller here.shared }
    requires update { is_operation Update here.shared.catalogue.now op.now ≡ true }
    requires by { IfSome by.won.now (IsWonBy here) }
    ensures same { seat.new.shelf ≡ seat.old.shelf }
    ensures by { IfSome by.exit.0.now (IsWonBy here.entry) }
    ensures asked { (k : SessionKnown) → IsSession seat.old k → AsksSoFar seat.new k op.now room.new.batch result }
{
    let By { won, rt } = by;
    let Some(posted) = try_post_and_claim(here, seat, op, &mut room.batch, won.as_ref()) else {
        let_line_go(here, seat, won);
        return post_and_turn(rt, here, seat, op, &mut room.batch);
    };
    match posted {
        Posted::Claims(new) => go_alone(By { won, rt }, here, seat, &new, room),
        Posted::Turns(turn) => turn,
    }
}
