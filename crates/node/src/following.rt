// A node's replica with the records that were copied for it, and its steps on a log.

ghost use Rattle.std.specs.Prelude.{◌≡◌, ◌++◌, ◌≤◌, ◌<◌, IsTrue, true, length};
ghost use Rattle.loader.specs.CatalogueView.{sizes_for};
ghost use Rattle.loader.specs.StoreState.{sizes_of};
ghost use Rattle.oplog.specs.declared.configuration.TheConstants.{ENDLESS};
ghost use Rattle.oplog.specs.History.{AllFit};
ghost use Rattle.oplog.specs.Logs.{tail_of, records_from, room_in};
ghost use Rattle.replica.specs.Replaying.{KeepsOutcomes};
ghost use Rattle.replica.specs.StoreMeaning.{AreUpdates};
ghost use Rattle.node.specs.Following.{IsNext, Fits, may_append, grown, copied, room_for, replies_for, is_above, has_next, replayed, replayed_first, replies_after, with_more, may_finish, told, may_reclaim, reclaimed, may_rebase, rebased, exchanged, may_answer, may_reply};

use loader::Catalogue;
use oplog::{CopyAnswer, Hand, LogState, Records};
use readpath::ready;
use replica::{Replica, Replies};

/// A node's replica, and the hand that takes the records which it has still to apply.
#[derive(Drop)]
pub struct NodeReplica {
    /// The maps and the installed programs, and how many operations were applied to them.
    pub replica: Replica,
    /// The records that were copied and not applied yet.
    pub hand: Hand,
}

/// Whether the log has what the replica lacks, and room for as many of these records as the history may still have.
pub fn may_append(log: &LogState, node: &NodeReplica, records: &Records<'_>) -> bool
    ensures may { result ≡ may_append records.now log.now node.now }
{
    log.base() <= node.replica.tail() && records.len().min(log.left()) <= log.room()
}

/// Appends as many of the records, from the first on, as the history may still have. There is room for these. The replies that are lent
/// keep the indexes of those that were appended then, and no outcome yet.
pub fn append_only(log: &mut LogState, records: &Records<'_>, replies: &mut Replies)
    requires room { room_for records.now log.old ≤ room_in log.old }
    requires few { length records.now ≤ 16 }
    requires fit { AllFit log.old.long records.now }
    ensures log { log.new ≡ grown records.now log.old }
    ensures replies { replies.new ≡ replies_for records.now log.old }
    ensures within { tail_of log.new ≤ ENDLESS }
    ensures kept { length log.new.records ≤ log.new.window }
{
    let first = log.tail();
    let count = match log.append(records) {
        Ok(appended) => appended.count,
        Err(_) => 0,
    };
    replies.restart(first, count);
    // (the log's invariant)
    let _tail = log.tail();
}

/// Appends as many of the records, from the first on, as the history may still have, and copies what the replica lacks into the hand.
/// The replies that are lent keep the indexes of those that were appended then, and no outcome yet.
pub fn append(
    log: &mut LogState,
    node: &mut NodeReplica,
    records: &Records<'_>,
    replies: &mut Replies,
)
    requires may { may_append records.now log.old node.old ≡ true }
    requires fits { Fits log.old node.old }
    requires few { length records.now ≤ 16 }
    requires fit { AllFit log.old.long records.now }
    ensures log { log.new ≡ grown records.now log.old }
    ensures node { node.new ≡ copied log.new node.old }
    ensures replies { replies.new ≡ replies_for records.now log.old }
    ensures within { tail_of log.new ≤ ENDLESS }
{
    append_only(log, records, replies);
    copy(log, node);
}

// Whether the replica lacks nothing, and its hand says so.
#[inline(always)]
fn lacks_nothing(log: &LogState, node: &NodeReplica) -> bool
    requires above { is_above log.now node.now ≡ true }
    requires fits { Fits log.now node.now }
    ensures same { IsTrue result → node.now ≡ copied log.now node.now }
    ensures within { tail_of log.now ≤ ENDLESS }
{
    let tail = node.replica.tail();
    tail == log.tail() && node.hand.is_empty() && node.hand.begin() == tail
}

/// Copies what the replica lacks into the hand. The log has all of it.
#[inline(always)]
pub fn copy(log: &LogState, node: &mut NodeReplica)
    requires above { is_above log.now node.old ≡ true }
    requires fits { Fits log.now node.old }
    ensures node { node.new ≡ copied log.now node.old }
    ensures within { tail_of log.now ≤ ENDLESS }
{
    if !lacks_nothing(log, node) {
        copy_lacked(log, node);
    }
}

// `copy`, whatever the replica lacks.
#[inline(never)]
fn copy_lacked(log: &LogState, node: &mut NodeReplica)
    requires above { is_above log.now node.old ≡ true }
    requires fits { Fits log.now node.old }
    ensures node { node.new ≡ copied log.now node.old }
    ensures within { tail_of log.now ≤ ENDLESS }
{
    match log.copy_from(node.replica.tail(), &mut node.hand) {
        CopyAnswer::Copied => {}
        CopyAnswer::Below(_) => unreachable!(),
    }
}

/// Whether there is a record for the replica to apply: in the hand, or in the log.
pub fn has_next(log: &LogState, node: &NodeReplica) -> bool
    ensures next { result ≡ has_next log.now node.now }
{
    let tail = node.replica.tail();
    !node.hand.is_empty() || (log.base() <= tail && tail < log.tail())
}

/// Applies the records of the hand to the replica, and keeps the outcomes of those that have an index in the replies.
#[inline(always)]
pub fn replay(node: &mut NodeReplica, catalogue: &Catalogue, replies: &mut Replies)
    requires next { IsNext catalogue.now node.old }
    ensures node { node.new ≡ replayed catalogue.now node.old }
    ensures sizes { sizes_of node.new.replica.state ≡ sizes_of node.old.replica.state }
    ensures replies { replies.new ≡ replies_after catalogue.now node.old replies.old }
    ensures kept { KeepsOutcomes catalogue.now node.old.replica.state node.old.replica.tail node.old.hand.records replies.old replies.new }
{
    node.replica.replay(&mut node.hand, catalogue, replies);
}

/// [`replay`], but applies these records behind those of the hand. They are not copied into it.
#[inline(always)]
pub fn replay_with(
    node: &mut NodeReplica,
    more: &Records<'_>,
    catalogue: &Catalogue,
    replies: &mut Replies,
)
    requires next { IsNext catalogue.now (with_more more.now node.old) }
    ensures node { node.new ≡ replayed catalogue.now (with_more more.now node.old) }
    ensures sizes { sizes_of node.new.replica.state ≡ sizes_of node.old.replica.state }
    ensures replies { replies.new ≡ replies_after catalogue.now (with_more more.now node.old) replies.old }
    ensures kept { KeepsOutcomes catalogue.now node.old.replica.state node.old.replica.tail (node.old.hand.records ++ more.now) replies.old replies.new }
{
    node.replica
        .replay_with(&mut node.hand, more, catalogue, replies);
}

/// Applies the first of the records in the hand to the replica, so many, and lets go of what they answer.
pub fn replay_first(node: &mut NodeReplica, catalogue: &Catalogue, count: usize)
    requires next { IsNext catalogue.now node.old }
    requires count { count ≤ length node.old.hand.records }
    ensures node { node.new ≡ replayed_first catalogue.now count node.old }
    ensures sizes { sizes_of node.new.replica.state ≡ sizes_of node.old.replica.state }
{
    node.replica.replay_first(&mut node.hand, count, catalogue);
}

/// Copies what the replica lacks, and applies it, while the log is lent. The log has all of it.
#[inline(never)]
pub fn follow(log: &LogState, node: &mut NodeReplica, catalogue: &Catalogue)
    requires above { is_above log.now node.old ≡ true }
    requires fits { Fits log.now node.old }
    requires sizes { sizes_of node.old.replica.state ≡ sizes_for catalogue.now }
    requires updates { AreUpdates catalogue.now (records_from log.now node.old.replica.tail) }
    ensures node { node.new ≡ replayed catalogue.now (copied log.now node.old) }
    ensures sizes { sizes_of node.new.replica.state ≡ sizes_of node.old.replica.state }
    ensures within { tail_of log.now ≤ ENDLESS }
{
    copy(log, node);
    let mut replies = Replies::new(0, 0);
    replay(node, catalogue, &mut replies);
}

/// Whether the replica is past so many completed operations.
pub fn may_finish(done: u64, node: &NodeReplica) -> bool
    ensures may { result ≡ may_finish done node.now }
{
    done < node.replica.tail()
}

/// Tells the log that all is completed that the replica has applied, which the log has.
pub fn finish(log: &mut LogState, node: &NodeReplica)
    requires within { node.now.replica.tail ≤ tail_of log.old }
    ensures log { log.new ≡ told node.now log.old }
{
    log.raise_done(node.replica.tail());
}

/// Whether the replica is past the log's base, and no further than the operations that are completed: so many.
pub fn may_reclaim(done: u64, log: &LogState, node: &NodeReplica) -> bool
    ensures may { result ≡ may_reclaim done log.now node.now }
{
    let tail = node.replica.tail();
    log.base() < tail && tail <= done
}

/// Makes the replica the log's base, and drops the records before it. All that the replica has applied is completed, and the log is
/// told so.
pub fn reclaim(log: &mut LogState, node: &NodeReplica)
    requires above { log.old.base < node.now.replica.tail }
    requires within { node.now.replica.tail ≤ tail_of log.old }
    requires sizes { sizes_of node.now.replica.state ≡ sizes_of log.old.base_state }
    ensures log { log.new ≡ reclaimed node.now (told node.now log.old) }
{
    finish(log, node);
    let replica = &node.replica;
    log.reclaim(replica.tail(), replica.maps(), replica.programs());
}

/// Makes the replica the log's base, as [`reclaim`] does, and copies no map: the two change places. The node has what was the base then,
/// with all the records that the log had in its hand; the first of these lead back to what it was. The hand is empty before.
pub fn exchange(log: &mut LogState, node: &mut NodeReplica)
    requires above { log.old.base < node.old.replica.tail }
    requires within { node.old.replica.tail ≤ tail_of log.old }
    requires sizes { sizes_of node.old.replica.state ≡ sizes_of log.old.base_state }
    requires window { node.old.hand.window ≡ log.old.window }
    requires long { node.old.hand.long ≡ log.old.long }
    ensures log { log.new ≡ reclaimed node.old (told node.old log.old) }
    ensures node { node.new ≡ exchanged log.old node.old }
    ensures within { tail_of log.old ≤ ENDLESS }
{
    // (that the log ends within its limits, which the clause `within` says)
    let _end = log.tail();
    let tail = node.replica.tail();
    log.raise_done(tail);
    node.replica.exchange(log, &mut node.hand);
}

/// Whether the replica is behind the log's base, and its hand is empty.
pub fn may_rebase(log: &LogState, node: &NodeReplica) -> bool
    ensures may { result ≡ may_rebase log.now node.now }
{
    node.replica.tail() < log.base() && node.hand.is_empty()
}

/// Makes the log's base the replica, which lies below it.
#[inline(never)]
pub fn rebase(log: &LogState, node: &mut NodeReplica)
    requires may { may_rebase log.now node.old ≡ true }
    requires sizes { sizes_of log.now.base_state ≡ sizes_of node.old.replica.state }
    ensures node { node.new ≡ rebased log.now node.old }
{
    let base = log.base();
    node.replica
        .rebase(base, log.base_maps(), log.base_programs());
    node.hand.clear(base);
}

/// Whether the replica may answer a read that saw so many operations completed, when so many are.
pub fn may_answer(seen: u64, done: u64, node: &NodeReplica) -> bool
    ensures may { result ≡ may_answer seen done node.now }
{
    ready(&node.replica, seen) && node.replica.tail() <= done
}

/// Whether a batch in the log may be answered, when so many operations are completed.
pub fn may_reply(done: u64, node: &NodeReplica) -> bool
    ensures may { result ≡ may_reply done node.now }
{
    node.hand.is_empty() && node.replica.tail() <= done
}
