// What a session does with the requests of its node that it claimed.

ghost use Rattle.std.specs.Prelude.{◌≡◌, ◌<◌, IfSome, IfNone, IfOk, IfErr};
ghost use Rattle.node.specs.Answering.{answered_batch};
ghost use Rattle.store_steps.specs.AtDesk.{IsReady};
ghost use Rattle.store_steps.specs.Combining.{HasClaimed, SessionAnswers, SessionCombines, SessionHandsOver};
ghost use Rattle.store_steps.specs.Knowing.{IsOn, Knows, Learns};
ghost use Rattle.store_steps.specs.Standing.{Stands, IsFree};
ghost use Rattle.store_steps.specs.Trying.{IsStill};
ghost use Rattle.store_steps.specs.Winning.{IsWonBy};

use crate::claimed::Claimed;
use crate::desks;
use crate::pauses::Waiting;
use crate::steps::{Due, Here, Reach, replay_and_raise, try_append_and_copy};
use crate::taking::take_replica;
use crate::values::Value;
use crate::visits::try_take_desk;
use combiner::Batch;
use ownlock::{LEADER, Seat, Won};
use replica::Replies;
use std::marker::Brand;
use std::sync::Wait;
use unreached::unreached;

// Appends the requests that the session claimed, and brings the replica of its node up to them: what their programs answer is
// kept then. It goes on with `hand_over`. Where another session holds the replica or the log, it answers that place: the
// session holds nothing then, and its requests are as they were.
#[inline(always)]
pub(crate) fn try_combine<C: Claimed>(
    here: Here<'_>,
    seat: &mut Seat<Value>,
    requests: &C,
    replies: &mut C::Kept,
    won: Option<&Won>,
) -> Result<(), usize>
    requires own { seat.old.shelf ≡ here.shared.shelf.now.id }
    requires claimed { Knows seat.old (λ k. IsFree here.caller k × HasClaimed k (C.batch requests.now) × IsOn here.shared k) }
    requires by { IfSome won (λ w. IsWonBy here w.now) }
    ensures same { seat.new.shelf ≡ seat.old.shelf }
    ensures held { IfErr result (λ place. place < here.entry.shared.shelf.now.places) }
    ensures stays { IfErr result (λ _. Learns seat.old seat.new IsStill) }
    ensures combined { IfOk result (λ _. SessionAnswers here.entry.caller.node seat.old seat.new (C.batch requests.now) (C.kept replies.new)) }
{
    let shared = here.shared;
    let Some(mut held) = take_replica(here, seat, won) else {
        return Err(1 + here.caller.node);
    };
    let node = held.value.replica_mut();
    let reach = Reach { shared, won };
    let Some(owed) = try_append_and_copy(reach, seat, node, requests, replies) else {
        shared.shelf.put_by::<Brand>(seat, held, won);
        return Err(LEADER);
    };
    replay_and_raise(shared, seat, node, &Due { owed, requests }, replies);
    shared.shelf.put_by::<Brand>(seat, held, won);
    Ok(())
}

// `try_combine`, but waits where another session holds a place, and pauses then.
#[inline(always)]
pub(crate) fn append_and_replay<R: Wait, C: Claimed>(
    waiting: Waiting<'_, '_, R>,
    here: Here<'_>,
    seat: &mut Seat<Value>,
    requests: &C,
    replies: &mut C::Kept,
)
    requires own { seat.old.shelf ≡ here.shared.shelf.now.id }
    requires claimed { Knows seat.old (λ k. IsFree here.caller k × HasClaimed k (C.batch requests.now) × IsOn here.shared k) }
    ensures same { seat.new.shelf ≡ seat.old.shelf }
    ensures combined { SessionAnswers here.entry.caller.node seat.old seat.new (C.batch requests.now) (C.kept replies.new) }
{
    for _ in waiting.rt.forever() {
        match try_combine(here, seat, requests, replies, None) {
            Ok(()) => return,
            Err(place) => {
                here.shared.shelf.wait(waiting.rt, seat, place);
                waiting.pauses.pause();
            }
        }
    }
    unreached!()
}

// Combines the requests that the session claimed: appends them, brings the replica of its node up to them, and hands their
// answers to the slots of its desk. The replies are room for what their programs answer.
#[inline(always)]
pub(crate) fn combine<R: Wait>(
    waiting: Waiting<'_, '_, R>,
    here: Here<'_>,
    seat: &mut Seat<Value>,
    batch: &mut Batch,
    replies: &mut Replies,
)
    requires own { seat.old.shelf ≡ here.shared.shelf.now.id }
    requires claimed { Knows seat.old (λ k. IsFree here.caller k × HasClaimed k batch.old × IsOn here.shared k) }
    ensures same { seat.new.shelf ≡ seat.old.shelf }
    ensures combined { SessionCombines seat.old seat.new batch.old batch.new }
{
    let rt = waiting.rt;
    append_and_replay(waiting, here, seat, batch, replies);
    hand_over(rt, here, seat, batch, replies);
}

// Takes the desk of the caller's node, answers the requests of the batch there, by the outcomes that were kept of it, and puts the
// desk back. If another session holds the desk, the answer is `None`, and nothing has changed.
#[inline(always)]
pub(crate) fn try_hand_over(
    here: Here<'_>,
    seat: &mut Seat<Value>,
    batch: &mut Batch,
    replies: &Replies,
) -> Option<()>
    requires own { seat.old.shelf ≡ here.shared.shelf.now.id }
    requires ready { Knows seat.old (λ k. IsFree here.caller k × IsReady k batch.old replies.now × IsOn here.shared k × Stands k) }
    ensures same { seat.new.shelf ≡ seat.old.shelf }
    ensures stays { IfNone result ((seat.new ≡ seat.old) × (batch.new ≡ batch.old)) }
    ensures answered { IfSome result (λ _. batch.new ≡ answered_batch replies.now batch.old) }
    ensures handed { IfSome result (λ _. SessionHandsOver here.entry.caller.node seat.old seat.new batch.old replies.now) }
{
    let Some(mut held) = try_take_desk(here, seat, None) else {
        return None;
    };
    desks::reply(held.value.desk_mut(), batch, replies);
    here.shared.shelf.put::<Brand>(seat, held);
    Some(())
}

// `try_hand_over`, but waits while another session holds the desk.
#[inline(always)]
fn hand_over<R: Wait>(
    rt: &R,
    here: Here<'_>,
    seat: &mut Seat<Value>,
    batch: &mut Batch,
    replies: &Replies,
)
    requires own { seat.old.shelf ≡ here.shared.shelf.now.id }
    requires ready { Knows seat.old (λ k. IsFree here.caller k × IsReady k batch.old replies.now × IsOn here.shared k × Stands k) }
    ensures same { seat.new.shelf ≡ seat.old.shelf }
    ensures answered { batch.new ≡ answered_batch replies.now batch.old }
    ensures handed { SessionHandsOver here.entry.caller.node seat.old seat.new batch.old replies.now }
{
    if let Some(()) = try_hand_over(here, seat, batch, replies) {
        return;
    }
    for _ in rt.forever() {
        here.shared
            .shelf
            .wait(rt, seat, 1 + here.shared.nodes + here.caller.node);
        if let Some(()) = try_hand_over(here, seat, batch, replies) {
            return;
        }
    }
    unreached!()
}
