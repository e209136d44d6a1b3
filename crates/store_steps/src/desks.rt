//! What a session does at its node's desk while that is lent to it: each call is a step of the desk. No call here takes a lock or
//! memory.

ghost use Rattle.std.specs.Prelude.{◌≡◌, ℕ, [], Some, None};
ghost use Rattle.combiner.specs.Desks.{IsOnlyAt, only, posted, replied};
ghost use Rattle.oplog.specs.declared.records.Record.{Record};
ghost use Rattle.replica.specs.StoreMeaning.{store_meaning};
ghost use Rattle.accounts.specs.declared.sessions.Pending.{Pending};
ghost use Rattle.node.specs.Answering.{answered_batch};
ghost use Rattle.store_steps.specs.AtDesk.{IsAt, IsClaim, IsReady, IsRepliedTo, HasAsked, IsTurn, MayPost, PostSteps, TurnSteps, KeepsBatch, Steps};
ghost use Rattle.store_steps.specs.Standing.{SessionKnown};
ghost use Rattle.store_steps.specs.declared.desks.Turn.TheVariants.{Combines};

use crate::claimed::OneReply;
use combiner::{Batch, Desk, Reply};
use node::answer_batch;
use oplog::{NewRecord, OpRef};
use replica::Replies;
use unreached::unreached;

/// What a session did that looked for the answer to its request.
#[derive(Drop)]
pub enum Turn {
    /// The session collected the answer.
    Collects(Reply),
    /// The session combines the requests of its node, which are in the batch that was lent.
    Combines,
    /// The session waits for another session that combines.
    Waits,
}

/// Posts an update of the store's catalogue in the session's slot. The session waits for no other answer.
#[inline(always)]
pub fn post(desk: &mut Desk, slot: usize, op: &OpRef<'_>)
    requires own { (k : SessionKnown) × IsAt slot k desk.old × MayPost k op.now }
    ensures posted { posted slot op.now desk.old ≡ Some desk.new }
    ensures step { (k : SessionKnown) → IsAt slot k desk.old → MayPost k op.now → PostSteps k op.now desk.old desk.new }
{
    match desk.post(slot, op) {
        Ok(()) => {}
        Err(_) => unreached!(),
    }
}

/// Collects the answer that waits in the session's slot. Where there is none, claims the posted requests, if nobody combines:
/// the batch has these then, and is as it was otherwise.
#[inline(always)]
pub fn collect_or_claim(desk: &mut Desk, slot: usize, batch: &mut Batch) -> Turn
    requires own { (k : SessionKnown) × (o : Pending) × IsAt slot k desk.old × HasAsked k o }
    ensures turn { IsTurn slot desk.old desk.new batch.new result }
    ensures kept { KeepsBatch batch.old batch.new result }
    ensures step { (k : SessionKnown) (o : Pending) → IsAt slot k desk.old → HasAsked k o → TurnSteps k o desk.old desk.new batch.new result }
{
    match desk.collect(slot) {
        Some(reply) => Turn::Collects(reply),
        None => claim(desk, batch),
    }
}

/// Sets the answer of each request of the batch that the session combines, by the outcomes that were kept of those that have a
/// place, and hands the answers to the slots of these requests.
#[inline(always)]
pub fn reply(desk: &mut Desk, batch: &mut Batch, replies: &Replies)
    requires own { (k : SessionKnown) × (slot : ℕ) × IsAt slot k desk.old × IsReady k batch.old replies.now }
    ensures answered { batch.new ≡ answered_batch replies.now batch.old }
    ensures replied { desk.new ≡ replied batch.new desk.old }
    ensures step { (k : SessionKnown) → IsReady k batch.old replies.now → Steps k desk.old (record k.note { batch = [] }) desk.new }
{
    answer_batch(batch, replies);
    desk.reply(batch);
}

/// Claims the request of the session's slot, which is the only one without an answer: as a record, whose operation lies where its caller has it.
#[inline(always)]
pub(crate) fn claim_only<'a>(desk: &mut Desk, slot: usize, op: &'a OpRef<'a>) -> NewRecord<'a>
    requires own { (k : SessionKnown) × (o : Pending) × IsAt slot k desk.old × HasAsked k o }
    requires only { IsOnlyAt slot op.now desk.old }
    ensures turn { IsTurn slot desk.old desk.new (only result) Combines }
    ensures own { (k : SessionKnown) → IsAt slot k desk.old → result.author ≡ k.session }
{
    let author = desk.author(slot);
    let seq = desk.claim_only(slot);
    NewRecord { author, seq, op }
}

/// [`reply`] to the only request that is claimed, the session's own: with the answer of what was kept of it.
#[inline(always)]
pub(crate) fn reply_only(desk: &mut Desk, slot: usize, replies: &OneReply)
    requires own { (k : SessionKnown) × (r : Record) × IsAt slot k desk.old × IsReady k (only r) replies.now × (r.author ≡ k.session) }
    ensures replied { IsRepliedTo slot desk.old desk.new replies.now }
{
    desk.reply_only(slot, replies.reply());
}

// Claims the posted requests, if nobody combines.
#[inline(always)]
fn claim(desk: &mut Desk, batch: &mut Batch) -> Turn
    ensures claims { IsClaim desk.old desk.new batch.new result }
    ensures kept { KeepsBatch batch.old batch.new result }
{
    match desk.claim(batch) {
        Ok(()) => Turn::Combines,
        Err(_) => Turn::Waits,
    }
}
