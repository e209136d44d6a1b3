// The deeds of an update by four takes: its post claims the requests of the node in the same hold of the desk, and the hold that hands the answers
// over collects its own. An update that is alone at its desk goes through all of them in one call.

ghost use Rattle.std.specs.Prelude.{◌≡◌, suc, ◌<◌, ◌^◌, true, length, IfNone, IfSome};
ghost use Rattle.combiner.specs.Desks.{only};
ghost use Rattle.verifier.specs.declared.refusal.Mode.TheVariants.{Update};
ghost use Rattle.replica.specs.StoreMeaning.{is_operation};
ghost use Rattle.store_steps.specs.Alone.{MayCombine};
ghost use Rattle.store_steps.specs.Knowing.{IsOn, Knows};
ghost use Rattle.store_steps.specs.Polling.{DeedsGo, HasCome};
ghost use Rattle.store_steps.specs.Stages.{HasGone, IsPolled};
ghost use Rattle.store_steps.specs.Views.{IsIdle};
ghost use Rattle.store_steps.specs.Winning.{IsWonBy};
ghost use Rattle.store_steps.specs.declared.deeds.Stage.TheVariants.{Claimed, Ready};

use crate::alone::{Posted, try_post_and_claim, try_reply_and_turn};
use crate::at_once::try_hand_over_and_turn;
use crate::claimed::OneReply;
use crate::combining::try_combine;
use crate::deeds::{Deed, Stage, after};
use crate::steps::Here;
use crate::taking::{let_line_go, win_line};
use crate::values::Value;
use combiner::Batch;
use oplog::{NewRecord, OpRef};
use ownlock::{Seat, Won};
use replica::Replies;

/// What an update has come to in the call that asked for it.
pub enum Came {
    /// It is posted, and stands at this stage.
    Posted(Stage),
    /// Its session, which found no other request at its desk, claimed it and went on with it, up to this deed. It stands at this stage.
    Went(Stage, Deed),
}

// Where a session works, with the line of its node, if it has won that.
#[derive(Clone, Copy)]
struct At<'a> {
    here: Here<'a>,
    won: Option<&'a Won>,
}

// The session goes on with its own request, which it has claimed alone: it runs the request, and hands the answer over, which it collects in the same
// hold of the desk. If another session holds a place there, the room has the request as a batch, and what was kept of it.
#[inline(always)]
fn go_on_alone(
    at: At<'_>,
    seat: &mut Seat<Value>,
    new: &NewRecord<'_>,
    batch: &mut Batch,
    replies: &mut Replies,
) -> (Stage, Deed)
    requires own { seat.old.shelf ≡ at.here.shared.shelf.now.id }
    requires claimed { MayCombine seat.old at.here.caller at.here.shared new.now }
    requires polled { IsPolled seat.old at.here.caller (only new.now) replies.old Claimed }
    requires by { IfSome at.won (λ w. IsWonBy at.here w.now) }
    ensures same { seat.new.shelf ≡ seat.old.shelf }
    ensures gone { HasGone DeedsGo seat.old seat.new at.entry.here.caller batch.new replies.new result.0 result.1 }
{
    let At { here, won } = at;
    let mut kept = OneReply::none();
    let Ok(()) = try_combine(here, seat, new, &mut kept, won) else {
        batch.set_only(new);
        return (Stage::Claimed, Deed::Busy);
    };
    let Some(turn) = try_reply_and_turn(here, seat, &kept, batch, won) else {
        batch.set_only(new);
        kept.move_to(replies);
        return (Stage::Ready, Deed::Went);
    };
    after(turn)
}

// Posts an update, and has a turn in the same hold of the desk. If no other request is there, the session goes on with its own alone.
#[inline(always)]
fn ask_by(
    at: At<'_>,
    seat: &mut Seat<Value>,
    op: &OpRef<'_>,
    batch: &mut Batch,
    replies: &mut Replies,
) -> Option<Came>
    requires own { seat.old.shelf ≡ at.here.shared.shelf.now.id }
    requires on { Knows seat.old (IsOn at.here.shared) }
    requires idle { IsIdle seat.old at.here.caller }
    requires few { Knows seat.old (λ k. suc (length k.note.answered) < 2 ^ 64) }
    requires update { is_operation Update at.here.shared.catalogue.now op.now ≡ true }
    requires by { IfSome at.won (λ w. IsWonBy at.here w.now) }
    ensures same { seat.new.shelf ≡ seat.old.shelf }
    ensures stays { IfNone result (seat.new ≡ seat.old) }
    ensures came { IfSome result (HasCome seat.old seat.new at.entry.here.caller op.now batch.new replies.new) }
{
    let At { here, won } = at;
    match try_post_and_claim(here, seat, op, batch, won) {
        None => None,
        Some(Posted::Claims(new)) => {
            let (stage, deed) = go_on_alone(at, seat, &new, batch, replies);
            Some(Came::Went(stage, deed))
        }
        Some(Posted::Turns(turn)) => {
            let (stage, _) = after(turn);
            Some(Came::Posted(stage))
        }
    }
}

/// Posts an update, and claims the requests of the node in the same hold of its desk, if nobody combines. If its own is the only one, the session goes
/// on with it. It wins the line of its node first, if no other session is there, as [`ask_at_once`](crate::ask_at_once) does. If another session holds
/// the desk, the answer is `None`, and nothing has changed.
#[inline(always)]
pub fn try_ask(
    here: Here<'_>,
    seat: &mut Seat<Value>,
    op: &OpRef<'_>,
    batch: &mut Batch,
    replies: &mut Replies,
) -> Option<Came>
    requires own { seat.old.shelf ≡ here.shared.shelf.now.id }
    requires on { Knows seat.old (IsOn here.shared) }
    requires idle { IsIdle seat.old here.caller }
    requires few { Knows seat.old (λ k. suc (length k.note.answered) < 2 ^ 64) }
    requires update { is_operation Update here.shared.catalogue.now op.now ≡ true }
    ensures same { seat.new.shelf ≡ seat.old.shelf }
    ensures stays { IfNone result (seat.new ≡ seat.old) }
    ensures came { IfSome result (HasCome seat.old seat.new here.entry.caller op.now batch.new replies.new) }
{
    let mut won = win_line(here, seat);
    let at = At {
        here,
        won: won.as_ref(),
    };
    let came = ask_by(at, seat, op, batch, replies);
    let_line_go(here, seat, &mut won);
    came
}

/// Hands over the answers to the requests that have run, and has a turn in the same hold of the desk.
#[inline(always)]
pub fn give_and_turn(
    here: Here<'_>,
    seat: &mut Seat<Value>,
    batch: &mut Batch,
    replies: &Replies,
    stage: &mut Stage,
) -> Deed
    requires own { seat.old.shelf ≡ here.shared.shelf.now.id }
    requires on { Knows seat.old (IsOn here.shared) }
    requires ready { stage.old ≡ Ready }
    requires polled { IsPolled seat.old here.caller batch.old replies.now Ready }
    ensures same { seat.new.shelf ≡ seat.old.shelf }
    ensures gone { HasGone DeedsGo seat.old seat.new here.entry.caller batch.new replies.now stage.new result }
{
    let Some(turn) = try_hand_over_and_turn(here, seat, batch, replies) else {
        return Deed::Busy;
    };
    let (at, deed) = after(turn);
    *stage = at;
    deed
}
