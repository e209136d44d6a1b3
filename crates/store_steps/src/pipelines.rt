// Updates of several sessions of one node, in two holds of its desk, which they hand from one to the next.

ghost use Rattle.std.specs.Prelude.{◌≡◌, ℕ, ◌+◌, ◌-◌, ◌<◌, length, true, IfErr, IfNone, IfOk, IfSome};
ghost use Rattle.verifier.specs.declared.refusal.Mode.TheVariants.{Update};
ghost use Rattle.ownlock.specs.Seats.{At};
ghost use Rattle.combiner.specs.declared.slots.Reply.{Reply};
ghost use Rattle.replica.specs.StoreMeaning.{is_operation};
ghost use Rattle.store_steps.specs.EachMember.{AscendEach, AsksEach, ClaimsFirst, CombinesEach, GivesEach, InOrder, IsSetFirst, KeepsAsks, LooksAndPosts, LooksEach, MayGive, MayPostEach, PostsEach};
ghost use Rattle.store_steps.specs.Holds.{UpdatesInTwoHolds, session_at};
ghost use Rattle.store_steps.specs.Pipelines.{AllAnswered, AreCalls, AreMembers, AscendFrom, CollectsEach, CollectsNext, DeskAsks, HasNoCombiner, HoldsFirst, MayAskAt, MayPostWith, MayTurnWith, PostsLater, PostsNext, SameSpots, WaitsAt, here_of};
ghost use Rattle.store_steps.specs.declared.desks.Turn.TheVariants.{Collects};
ghost use Rattle.store_steps.specs.declared.pipelines.Member.{Member};

use crate::batches::Room;
use crate::combining::append_and_replay;
use crate::desks::Turn;
use crate::passing::{
    give_and_settle, post_and_hand_on, post_and_settle, try_take_free, turn_and_hand_on,
};
use crate::pauses::Waiting;
use crate::requests::watch;
use crate::steps::{Caller, Here, Question, Shared};
use crate::taking::take_desk;
use crate::values::Value;
use crate::visits::turn_and_put;
use combiner::{Batch, Reply};
use oplog::OpRef;
use ownlock::{Held, Seat};
use replica::Replies;
use std::alloc::{AllocError, Global};
use std::sync::Wait;
use unreached::unreached;

/// A session that shares the takes of its node's desk with others: its seat, and its slot.
#[derive(Drop)]
pub struct Member {
    /// The session's seat.
    pub seat: Seat<Value>,
    /// The session's slot.
    pub caller: Caller,
}

// Each member except the first posts its call, the last one first, and hands the desk on. The first member has the desk then.
fn post_later(
    shared: Shared<'_>,
    members: &mut [Member],
    calls: &[Question<'_>],
    last: (Seat<Value>, Held<Value>),
) -> (Seat<Value>, Held<Value>)
    requires members { AreMembers shared.shelf.now.id members.old }
    requires count { (0 < length calls.now) × (length members.old ≡ length calls.now) }
    requires idle { (j : ℕ) → j + 1 < length calls.now → MayAskAt shared members.old j }
    requires own { last.0.shelf ≡ shared.shelf.now.id }
    requires has { (member : Member) → At (length calls.now - 1) member members.old → MayPostWith (here_of shared member) last.0 last.1 }
    requires calls { AreCalls shared.catalogue.now calls.now }
    ensures same { SameSpots members.old members.new × (result.0.shelf ≡ shared.entry.shelf.now.id) }
    ensures posted { PostsLater shared.entry members.old members.new calls.now last.0 last.1 }
    ensures holds { HoldsFirst shared.entry members.old members.new (length calls.now - 1) last (result.0, result.1) }
    ensures desk { DeskAsks shared.entry members.old (length calls.now - 1) last (result.0, result.1) }
    ensures next { PostsNext shared.entry members.old members.new (length calls.now) last (result.0, result.1) }
{
    let (mut at, mut held) = last;
    let mut number = calls.len() - 1;
    while 0 < number {
        let asked = calls[number];
        let op = OpRef::run(asked.program, asked.argument);
        let previous = number - 1;
        let before = &mut members[previous];
        let next = shared.shelf.split(&mut before.seat);
        let own = &mut members[number];
        let here = Here {
            shared,
            caller: own.caller,
        };
        let (again, done) = post_and_hand_on(here, &mut at, held, &op, next);
        own.seat = done;
        held = again;
        number = previous;
    }
    (at, held)
}

// The answer that was collected.
fn reply_of(turn: Turn) -> Reply
    requires collects { (reply : Reply) × (turn ≡ Collects reply) }
    ensures reply { turn ≡ Collects result }
{
    match turn {
        Turn::Collects(reply) => reply,
        Turn::Combines | Turn::Waits => unreached!(),
    }
}

// Each member collects its answer, the first one first, and hands the desk on. The last one puts it back.
fn collect_each(
    shared: Shared<'_>,
    members: &mut [Member],
    batch: &mut Batch,
    replies: &mut [Reply],
    first: (Seat<Value>, Held<Value>),
)
    requires members { AreMembers shared.shelf.now.id members.old }
    requires count { (0 < length members.old) × (length replies.old ≡ length members.old) }
    requires waits { (j : ℕ) → 0 < j → WaitsAt shared members.old j }
    requires own { first.0.shelf ≡ shared.shelf.now.id }
    requires has { (member : Member) → At 0 member members.old → MayTurnWith (here_of shared member) first.0 first.1 }
    requires ascend { AscendFrom shared members.old first.0 first.1 }
    requires answered { AllAnswered shared members.old first.0 first.1 }
    ensures same { SameSpots members.old members.new × (length replies.new ≡ length replies.old) }
    ensures collected { CollectsEach shared.entry members.old members.new first.0 first.1 replies.new }
    ensures next { CollectsNext shared.entry members.old members.new first.0 first.1 }
{
    let (mut at, mut held) = first;
    let last = members.len() - 1;
    let mut number = 0;
    while number < last {
        let later = number + 1;
        let after = &mut members[later];
        let next = shared.shelf.split(&mut after.seat);
        let own = &mut members[number];
        let here = Here {
            shared,
            caller: own.caller,
        };
        let (again, done, turn) = turn_and_hand_on(here, &mut at, held, batch, next);
        own.seat = done;
        replies[number] = reply_of(turn);
        held = again;
        number = later;
    }
    let own = &mut members[last];
    let here = Here {
        shared,
        caller: own.caller,
    };
    replies[last] = reply_of(turn_and_put(here, &mut at, held, batch, None));
    own.seat = at;
}

// Each member posts its call in one hold of the desk, the last one first. The first one claims the requests of its node into the batch. If the desk is held,
// or a session combines there, the members only look: the call answers a place to watch.
pub(crate) fn try_post_each(
    shared: Shared<'_>,
    members: &mut [Member],
    calls: &[Question<'_>],
    batch: &mut Batch,
) -> Result<(), usize>
    requires may { MayPostEach shared members.old calls.now }
    ensures same { SameSpots members.old members.new }
    ensures place { IfErr result (λ place. place < shared.entry.shelf.now.places) }
    ensures stays { IfErr result (λ _. LooksEach members.old members.new) }
    ensures posted { IfOk result (λ _. PostsEach members.old members.new calls.now batch.new) }
{
    let last = calls.len() - 1;
    let own = &mut members[last];
    let mut at = shared.shelf.split(&mut own.seat);
    let here = Here {
        shared,
        caller: own.caller,
    };
    let held = match try_take_free(here, &mut at) {
        Ok(held) => held,
        Err(place) => {
            own.seat = at;
            return Err(place);
        }
    };
    let (at, held) = post_later(shared, members, calls, (at, held));
    let op = OpRef::run(calls[0].program, calls[0].argument);
    claim_first(shared, members, &op, batch, (at, held));
    Ok(())
}

// The first member, which has the desk, posts, claims the requests of its node, and puts the desk back.
fn claim_first(
    shared: Shared<'_>,
    members: &mut [Member],
    op: &OpRef<'_>,
    batch: &mut Batch,
    first: (Seat<Value>, Held<Value>),
)
    requires members { AreMembers shared.shelf.now.id members.old }
    requires some { 0 < length members.old }
    requires own { first.0.shelf ≡ shared.shelf.now.id }
    requires has { (member : Member) → At 0 member members.old → MayPostWith (here_of shared member) first.0 first.1 }
    requires free { HasNoCombiner first.1 }
    requires update { is_operation Update shared.catalogue.now op.now ≡ true }
    ensures same { IsSetFirst members.old members.new }
    ensures claims { ClaimsFirst shared.entry members.old members.new op.now first.0 first.1 batch.new }
    ensures asks { KeepsAsks first.1 batch.new }
{
    let (mut at, held) = first;
    let own = &mut members[0];
    let here = Here {
        shared,
        caller: own.caller,
    };
    let held = post_and_settle(here, &mut at, held, op);
    match turn_and_put(here, &mut at, held, batch, None) {
        Turn::Combines => {}
        Turn::Collects(_) | Turn::Waits => unreached!(),
    }
    own.seat = at;
}

// The first member answers the requests of its batch, by the outcomes that were kept of it, and each member collects its answer, all in one hold of the
// desk. `None` if another session holds the desk: nothing has changed then.
pub(crate) fn try_give_each(
    shared: Shared<'_>,
    members: &mut [Member],
    batch: &mut Batch,
    kept: &Replies,
    replies: &mut [Reply],
) -> Option<()>
    requires members { AreMembers shared.shelf.now.id members.old }
    requires count { (0 < length members.old) × (length replies.old ≡ length members.old) }
    requires may { MayGive shared members.old batch.old kept.now }
    ensures same { SameSpots members.old members.new × (length replies.new ≡ length replies.old) }
    ensures stays { IfNone result ((members.new ≡ members.old) × (batch.new ≡ batch.old)) }
    ensures gives { IfSome result (λ _. GivesEach members.old members.new batch.old kept.now replies.new) }
{
    let own = &mut members[0];
    let mut at = shared.shelf.split(&mut own.seat);
    let here = Here {
        shared,
        caller: own.caller,
    };
    let Some(held) = take_desk(here, &mut at, None) else {
        own.seat = at;
        return None;
    };
    let held = give_and_settle(here, &mut at, held, batch, kept);
    collect_each(shared, members, batch, replies, (at, held));
    Some(())
}

/// Room for what the sessions of a pipeline do together.
#[derive(Drop)]
pub struct EachRoom {
    /// For the requests of their node, with what the first session has combined.
    pub combining: Room,
}

// `try_post_each`, but waits while another session holds the desk or combines there.
fn post_each<R: Wait>(
    rt: &R,
    shared: Shared<'_>,
    room: &mut EachRoom,
    members: &mut [Member],
    calls: &[Question<'_>],
)
    requires may { MayPostEach shared members.old calls.now }
    ensures same { SameSpots members.old members.new }
    ensures posted { LooksAndPosts members.old members.new calls.now room.new.combining.batch }
{
    for _ in rt.forever() {
        let batch = &mut room.combining.batch;
        match try_post_each(shared, members, calls, batch) {
            Ok(()) => return,
            Err(place) => watch(shared.shelf, place),
        }
        // (Each try takes the desk from the session that combines.)
        room.combining.pauses.pause();
    }
    unreached!()
}

// Each member posts its call in one hold of the desk, as soon as no session combines there, and the first one combines.
fn combine_each<R: Wait>(
    rt: &R,
    shared: Shared<'_>,
    members: &mut [Member],
    calls: &[Question<'_>],
    room: &mut EachRoom,
)
    requires may { MayPostEach shared members.old calls.now }
    requires ascend { AscendEach members.old }
    ensures same { SameSpots members.old members.new }
    ensures combined { CombinesEach members.old members.new calls.now room.new.combining.batch room.new.combining.replies }
    ensures ready { MayGive shared.entry members.new room.new.combining.batch room.new.combining.replies }
{
    post_each(rt, shared, room, members, calls);
    let first = &mut members[0];
    let here = Here {
        shared,
        caller: first.caller,
    };
    let own = &mut room.combining;
    let pauses = &mut own.pauses;
    let waiting = Waiting { rt, pauses };
    append_and_replay(waiting, here, &mut first.seat, &own.batch, &mut own.replies);
    room.combining.count_batch();
    room.combining.pauses.shorten();
}

// `try_give_each`, but waits while another session holds the desk.
fn give_each<R: Wait>(
    rt: &R,
    shared: Shared<'_>,
    members: &mut [Member],
    room: &mut Room,
    replies: &mut [Reply],
)
    requires members { AreMembers shared.shelf.now.id members.old }
    requires count { (0 < length members.old) × (length replies.old ≡ length members.old) }
    requires may { MayGive shared members.old room.old.batch room.old.replies }
    ensures same { SameSpots members.old members.new × (length replies.new ≡ length replies.old) }
    ensures gives { GivesEach members.old members.new room.old.batch room.old.replies replies.new }
{
    for _ in rt.forever() {
        if let Some(()) = try_give_each(shared, members, &mut room.batch, &room.replies, replies) {
            return;
        }
        let first = &members[0];
        watch(shared.shelf, 1 + shared.nodes + first.caller.node);
    }
    unreached!()
}

impl EachRoom {
    /// Room with nothing in it. No later call takes memory.
    ///
    /// # Errors
    ///
    /// The system has no memory left.
    pub fn open(alloc: Global) -> Result<EachRoom, AllocError> {
        let combining = Room::open(alloc)?;
        Ok(EachRoom { combining })
    }

    /// Performs several whole updates at once, one of each member, by four takes. In one hold of their desk each member posts its call, and the first member
    /// claims the requests of the node. It combines them. In another hold it answers them, and each member collects its own answer. While another
    /// session combines for the node, the members wait, and have posted nothing. Later answers have higher indexes. No memory is taken.
    pub fn ask<R: Wait>(
        &mut self,
        rt: &R,
        shared: Shared<'_>,
        members: &mut [Member],
        calls: &[Question<'_>],
        replies: &mut [Reply],
    )
        requires members { AreMembers shared.shelf.now.id members.old }
        requires some { 0 < length calls.now }
        requires count { (length members.old ≡ length calls.now) × (length replies.old ≡ length calls.now) }
        requires idle { (j : ℕ) → MayAskAt shared members.old j }
        requires calls { AreCalls shared.catalogue.now calls.now }
        requires ascend { AscendEach members.old }
        ensures same { SameSpots members.old members.new × (length replies.new ≡ length replies.old) }
        ensures asked { AsksEach members.old members.new calls.now replies.new }
        ensures in_order { InOrder replies.new }
        ensures held { UpdatesInTwoHolds (session_at members.old) (session_at members.new) calls.now replies.new }
    {
        combine_each(rt, shared, members, calls, self);
        give_each(rt, shared, members, &mut self.combining, replies);
    }
}
