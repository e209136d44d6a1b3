// The deeds of an update, each of which tries once and waits for nobody. Between two of them the update stands in one of four stages,
// and the session holds nothing.

ghost use Rattle.std.specs.Prelude.{◌≡◌};
ghost use Rattle.replica.specs.Views.{RepliesView};
ghost use Rattle.store_steps.specs.Knowing.{IsOn, Knows};
ghost use Rattle.store_steps.specs.Stages.{HasGone, IsAsked, IsOut, IsPolled, deed_after, stage_after};
ghost use Rattle.store_steps.specs.Updating.{DeedGoes};
ghost use Rattle.store_steps.specs.declared.deeds.Stage.TheVariants.{Asked, Claimed, Ready};

use crate::combining::{try_combine, try_hand_over};
use crate::desks::Turn;
use crate::requests::try_turn;
use crate::steps::Here;
use crate::values::Value;
use combiner::{Batch, Reply};
use ownlock::Seat;
use replica::Replies;
use unreached::unreached;

/// How far an update of the session has come.
#[derive(Clone, Copy, Drop)]
pub enum Stage {
    /// The session has no update.
    Idle,
    /// The update is posted.
    Asked,
    /// The session combines, and has claimed the requests of its node.
    Claimed,
    /// The requests have run, and their answers are still to be handed over.
    Ready,
}

/// What became of a deed.
#[derive(Drop)]
pub enum Deed {
    /// Another session holds a place that it takes, or combines for this one.
    Busy,
    /// The deed is done, and the next one is due.
    Went,
    /// The answer to the update was collected.
    Collected(Reply),
}

// How an update stands after a turn of its session, and what became of the deed.
#[inline(always)]
pub(crate) fn after(turn: Turn) -> (Stage, Deed)
    ensures after { result ≡ (stage_after turn, deed_after turn) }
{
    match turn {
        Turn::Collects(reply) => (Stage::Idle, Deed::Collected(reply)),
        Turn::Combines => (Stage::Claimed, Deed::Went),
        Turn::Waits => (Stage::Asked, Deed::Busy),
    }
}

// A turn of an update that is posted: collects its answer, or claims the requests of its node.
fn take_turn(here: Here<'_>, seat: &mut Seat<Value>, batch: &mut Batch, stage: &mut Stage) -> Deed
    requires own { seat.old.shelf ≡ here.shared.shelf.now.id }
    requires on { Knows seat.old (IsOn here.shared) }
    requires asked { stage.old ≡ Asked }
    requires polled { IsAsked seat.old here.caller }
    ensures same { seat.new.shelf ≡ seat.old.shelf }
    ensures gone { (kept : RepliesView) → HasGone DeedGoes seat.old seat.new here.entry.caller batch.new kept stage.new result }
{
    let Some(turn) = try_turn(here, seat, batch) else {
        return Deed::Busy;
    };
    let (at, deed) = after(turn);
    *stage = at;
    deed
}

// Runs the requests that the session has claimed.
fn run_claimed(
    here: Here<'_>,
    seat: &mut Seat<Value>,
    batch: &Batch,
    replies: &mut Replies,
    stage: &mut Stage,
) -> Deed
    requires own { seat.old.shelf ≡ here.shared.shelf.now.id }
    requires on { Knows seat.old (IsOn here.shared) }
    requires claimed { stage.old ≡ Claimed }
    requires polled { IsPolled seat.old here.caller batch.now replies.old Claimed }
    ensures same { seat.new.shelf ≡ seat.old.shelf }
    ensures gone { HasGone DeedGoes seat.old seat.new here.entry.caller batch.now replies.new stage.new result }
{
    let Ok(()) = try_combine(here, seat, batch, replies, None) else {
        return Deed::Busy;
    };
    *stage = Stage::Ready;
    Deed::Went
}

// Hands over the answers to the requests that have run.
fn give_answers(
    here: Here<'_>,
    seat: &mut Seat<Value>,
    batch: &mut Batch,
    replies: &Replies,
    stage: &mut Stage,
) -> Deed
    requires own { seat.old.shelf ≡ here.shared.shelf.now.id }
    requires on { Knows seat.old (IsOn here.shared) }
    requires ready { stage.old ≡ Ready }
    requires polled { IsPolled seat.old here.caller batch.old replies.now Ready }
    ensures same { seat.new.shelf ≡ seat.old.shelf }
    ensures gone { HasGone DeedGoes seat.old seat.new here.entry.caller batch.new replies.now stage.new result }
{
    let Some(()) = try_hand_over(here, seat, batch, replies) else {
        return Deed::Busy;
    };
    *stage = Stage::Asked;
    Deed::Went
}

/// The next deed of an update that is out.
pub fn go_on(
    here: Here<'_>,
    seat: &mut Seat<Value>,
    batch: &mut Batch,
    replies: &mut Replies,
    stage: &mut Stage,
) -> Deed
    requires own { seat.old.shelf ≡ here.shared.shelf.now.id }
    requires on { Knows seat.old (IsOn here.shared) }
    requires polled { IsPolled seat.old here.caller batch.old replies.old stage.old }
    requires out { IsOut stage.old }
    ensures same { seat.new.shelf ≡ seat.old.shelf }
    ensures gone { HasGone DeedGoes seat.old seat.new here.entry.caller batch.new replies.new stage.new result }
{
    match *stage {
        Stage::Idle => unreached!(),
        Stage::Asked => take_turn(here, seat, batch, stage),
        Stage::Claimed => run_claimed(here, seat, batch, replies, stage),
        Stage::Ready => give_answers(here, seat, batch, replies, stage),
    }
}
