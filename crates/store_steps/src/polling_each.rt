// A list of updates, one of each session of a pipeline, whose sessions wait for nobody. In one hold of their desk all post, and the first one claims; it
// combines; in another hold it answers them, and each collects. Between two calls no session holds anything.

ghost use Rattle.std.specs.Prelude.{◌≡◌, ◌<◌, ℕ, length, IfNone, IfSome};
ghost use Rattle.store_steps.specs.EachMember.{AscendEach, InOrder, LooksEach};
ghost use Rattle.store_steps.specs.Holds.{GoesOnAndCollects, PostsInOneHold, session_at};
ghost use Rattle.store_steps.specs.Pipelines.{AreCalls, AreMembers, MayAskAt, SameSpots};
ghost use Rattle.store_steps.specs.PollingEach.{AreIdle, AreOn, AreOut, BeginsEach, CompletesEach, WaitsEach};
ghost use Rattle.store_steps.specs.declared.polling_each.EachStage.TheVariants.{Claimed, Ready};

use crate::batches::Room;
use crate::combining::try_combine;
use crate::pipelines::{EachRoom, Member, try_give_each, try_post_each};
use crate::steps::{Here, Question, Shared};
use combiner::Reply;

/// How far a list of updates has come that is out.
#[derive(Clone, Copy, Drop)]
pub enum EachStage {
    /// All are posted, and the first session has claimed the requests of its node.
    Claimed,
    /// The requests have run, and their answers are still to be handed over.
    Ready,
}

/// Posts the call of each member in one hold of their desk, the last one first. The first member claims the requests of the node in the same hold. If another
/// session holds the desk, or combines there, the answer is `None`: the members may have looked at the desk, and have posted nothing.
pub fn try_begin_each(
    shared: Shared<'_>,
    members: &mut [Member],
    calls: &[Question<'_>],
    room: &mut EachRoom,
    stage: &mut EachStage,
) -> Option<()>
    requires members { AreMembers shared.shelf.now.id members.old }
    requires count { (0 < length calls.now) × (length members.old ≡ length calls.now) }
    requires may { (j : ℕ) → MayAskAt shared members.old j }
    requires idle { AreIdle members.old }
    requires calls { AreCalls shared.catalogue.now calls.now }
    requires ascend { AscendEach members.old }
    ensures same { SameSpots members.old members.new }
    ensures stays { IfNone result (LooksEach members.old members.new × AreIdle members.new × (stage.new ≡ stage.old)) }
    ensures out { IfSome result (λ _. AreOut members.new room.new.combining.batch room.new.combining.replies stage.new) }
    ensures begun { IfSome result (λ _. BeginsEach members.old members.new calls.now room.new.combining.batch room.new.combining.replies stage.new) }
    ensures held { IfSome result (λ _. PostsInOneHold (session_at members.old) (session_at members.new) calls.now room.new.combining.batch) }
{
    let batch = &mut room.combining.batch;
    let Ok(()) = try_post_each(shared, members, calls, batch) else {
        return None;
    };
    *stage = EachStage::Claimed;
    Some(())
}

// The first member runs the requests that it has claimed. `None` if another session holds the replica or the log.
fn run_first(
    shared: Shared<'_>,
    members: &mut [Member],
    room: &mut EachRoom,
    stage: &mut EachStage,
) -> Option<()>
    requires members { AreMembers shared.shelf.now.id members.old }
    requires some { 0 < length members.old }
    requires on { AreOn shared members.old }
    requires claimed { stage.old ≡ Claimed }
    requires out { AreOut members.old room.old.combining.batch room.old.combining.replies Claimed }
    ensures same { SameSpots members.old members.new }
    ensures kept { room.new.combining.batch ≡ room.old.combining.batch }
    ensures waits { WaitsEach members.old members.new room.new.combining.batch room.new.combining.replies stage.new }
    ensures ready { IfSome result (λ _. stage.new ≡ Ready) }
{
    let first = &mut members[0];
    let here = Here {
        shared,
        caller: first.caller,
    };
    let Room { batch, replies, .. } = &mut room.combining;
    let Ok(()) = try_combine(here, &mut first.seat, batch, replies, None) else {
        return None;
    };
    room.combining.count_batch();
    *stage = EachStage::Ready;
    Some(())
}

// `run_first`, unless the requests have run.
fn combine_first(
    shared: Shared<'_>,
    members: &mut [Member],
    room: &mut EachRoom,
    stage: &mut EachStage,
) -> Option<()>
    requires members { AreMembers shared.shelf.now.id members.old }
    requires some { 0 < length members.old }
    requires on { AreOn shared members.old }
    requires out { AreOut members.old room.old.combining.batch room.old.combining.replies stage.old }
    ensures same { SameSpots members.old members.new }
    ensures kept { room.new.combining.batch ≡ room.old.combining.batch }
    ensures out { AreOut members.new room.new.combining.batch room.new.combining.replies stage.new }
    ensures waits { WaitsEach members.old members.new room.new.combining.batch room.new.combining.replies stage.new }
    ensures ready { IfSome result (λ _. stage.new ≡ Ready) }
{
    match *stage {
        EachStage::Claimed => run_first(shared, members, room, stage),
        EachStage::Ready => Some(()),
    }
}

/// Goes on with a list that is out, as far as no other session holds a place that it takes. Where the answer is `Some`, each member has collected its own
/// answer, and later answers have higher indexes. `None` where it is to be called again. No memory is taken.
pub fn go_on_each(
    shared: Shared<'_>,
    members: &mut [Member],
    room: &mut EachRoom,
    stage: &mut EachStage,
    replies: &mut [Reply],
) -> Option<()>
    requires members { AreMembers shared.shelf.now.id members.old }
    requires count { (0 < length members.old) × (length replies.old ≡ length members.old) }
    requires on { AreOn shared members.old }
    requires out { AreOut members.old room.old.combining.batch room.old.combining.replies stage.old }
    ensures same { SameSpots members.old members.new × (length replies.new ≡ length replies.old) }
    ensures out { IfNone result (AreOut members.new room.new.combining.batch room.new.combining.replies stage.new) }
    ensures waits { IfNone result (WaitsEach members.old members.new room.new.combining.batch room.new.combining.replies stage.new) }
    ensures completed { IfSome result (λ _. CompletesEach members.old members.new room.new.combining.batch room.new.combining.replies replies.new) }
    ensures in_order { IfSome result (λ _. InOrder replies.new) }
    ensures held { IfSome result (λ _. GoesOnAndCollects (session_at members.old) (session_at members.new) replies.new) }
{
    let Some(()) = combine_first(shared, members, room, stage) else {
        return None;
    };
    let Room {
        batch,
        replies: kept,
        ..
    } = &mut room.combining;
    let Some(()) = try_give_each(shared, members, batch, kept, replies) else {
        return None;
    };
    Some(())
}
