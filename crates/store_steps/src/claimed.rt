// The requests that a session has claimed, and appends together: those of a batch, or its own alone.

ghost use Rattle.std.specs.Prelude.{◌≡◌, ◌+◌, ◌≤◌, length};
ghost use Rattle.combiner.specs.Desks.{only, only_answered};
ghost use Rattle.loader.specs.StoreState.{sizes_of};
ghost use Rattle.node.specs.Answering.{answered_batch, HaveRun};
ghost use Rattle.node.specs.Following.{IsNext, grown, replayed, replies_after, replies_for, room_for};
ghost use Rattle.oplog.specs.History.{AllFit};
ghost use Rattle.oplog.specs.Logs.{room_in, tail_of};
ghost use Rattle.oplog.specs.declared.configuration.TheConstants.{ENDLESS, MAX_NODE_SLOTS};
ghost use Rattle.oplog.specs.declared.records.Record.{Record};
ghost use Rattle.store_steps.specs.Due.{KeepsPlaced, with_placed};

use combiner::{Batch, Reply};
use loader::Catalogue;
use machine::Outcome;
use node::{NodeReplica, append_only, replay_first, replay_with};
use oplog::{LogState, NewRecord};
use replica::Replies;
use std::marker::Model;
use unreached::unreached;

/// The requests that a session has claimed.
pub(crate) trait Claimed {
    /// What is kept of what their programs answer.
    type Kept;

    ghost use Rattle.combiner.specs.Desks.{BatchView};
    ghost use Rattle.replica.specs.Views.{RepliesView};

    // They as a batch.
    ghost batch: { Self → BatchView };

    // The outcomes that are kept.
    ghost kept: { Self.Kept → RepliesView };

    // How many they are.
    fn count(&self) -> usize
        ensures count { result ≡ length (batch self.now).records }
        ensures few { result ≤ MAX_NODE_SLOTS };

    // Appends as many of them, from the first on, as the history may still have. There is room for these. No outcome of them is kept yet.
    fn append(&self, log: &mut LogState, replies: &mut Self::Kept)
        requires room { room_for (batch self.now).records log.old ≤ room_in log.old }
        requires fit { AllFit log.old.long (batch self.now).records }
        ensures log { log.new ≡ grown (batch self.now).records log.old }
        ensures replies { kept replies.new ≡ replies_for (batch self.now).records log.old }
        ensures within { tail_of log.new ≤ ENDLESS }
        ensures window { length log.new.records ≤ log.new.window };

    // Applies the records in the node's hand, and then those that were appended, which are the next, and keeps the outcomes of these.
    fn replay(&self, node: &mut NodeReplica, catalogue: &Catalogue, replies: &mut Self::Kept)
        requires placed { length (kept replies.old).outcomes ≤ length (batch self.now).records }
        requires last { (kept replies.old).first ≡ node.old.replica.tail + length node.old.hand.records }
        requires next { IsNext catalogue.now (with_placed (batch self.now).records (kept replies.old) node.old) }
        ensures node { node.new ≡ replayed catalogue.now (with_placed (batch self.now).records (kept replies.old) node.old) }
        ensures sizes { sizes_of node.new.replica.state ≡ sizes_of node.old.replica.state }
        ensures replies { kept replies.new ≡ replies_after catalogue.now (with_placed (batch self.now).records (kept replies.old) node.old) (kept replies.old) }
        ensures kept { KeepsPlaced catalogue.now (batch self.now).records node.old (kept replies.old) (kept replies.new) };
}

impl Claimed for Batch {
    type Kept = Replies;

    ghost batch = { λ b. b };

    ghost kept = { λ r. r };

    #[inline(always)]
    fn count(&self) -> usize {
        self.records().len()
    }

    #[inline(always)]
    fn append(&self, log: &mut LogState, replies: &mut Replies) {
        append_only(log, &self.records(), replies);
    }

    #[inline(always)]
    fn replay(&self, node: &mut NodeReplica, catalogue: &Catalogue, replies: &mut Replies) {
        let appended = self.records().first(replies.len());
        replay_with(node, &appended, catalogue, replies);
    }
}

/// What is kept of one record: where it stands in the history, if it has a place there, and its outcome from the time when it is replayed.
#[derive(Drop)]
pub(crate) struct OneReply {
    index: u64,
    has_place: bool,
    outcome: Option<Outcome>,
}

impl Model for OneReply {
    ghost use Rattle.std.specs.Prelude.{[], ◌∷◌, if◌then◌else◌};
    ghost use Rattle.replica.specs.Views.{RepliesView};

    ghost Value = { RepliesView };

    ghost view = { λ r. record { first = r.index; outcomes = if r.has_place then r.outcome ∷ [] else [] } };
}

impl OneReply {
    // Nothing is kept yet.
    pub(crate) fn none() -> OneReply {
        OneReply {
            index: 0,
            has_place: false,
            outcome: None,
        }
    }

    // Puts what is kept into this room, which loses what it had.
    #[inline(never)]
    pub(crate) fn move_to(&self, replies: &mut Replies)
        ensures moved { replies.new ≡ self.now }
    {
        if self.has_place {
            replies.set_only(self.index, self.outcome);
        } else {
            replies.restart(self.index, 0);
        }
    }

    // The answer that it makes.
    #[inline(always)]
    pub(crate) fn reply(&self) -> Reply
        requires run { (r : Record) × HaveRun self.now (only r) }
        ensures reply { (r : Record) → answered_batch self.now (only r) ≡ only_answered r result }
    {
        if !self.has_place {
            return Reply::Ended;
        }
        let Some(outcome) = self.outcome else {
            unreached!()
        };
        Reply::Placed {
            index: self.index,
            reply: outcome.reply,
        }
    }
}

impl<'a> Claimed for NewRecord<'a> {
    type Kept = OneReply;

    ghost batch = { only };

    ghost kept = { λ r. r };

    #[inline(always)]
    fn count(&self) -> usize {
        1
    }

    #[inline(always)]
    fn append(&self, log: &mut LogState, replies: &mut OneReply) {
        replies.index = log.tail();
        replies.has_place = log.append_one(self).is_ok();
        replies.outcome = None;
        // (the log's invariant)
        let _tail = log.tail();
    }

    #[inline(always)]
    fn replay(&self, node: &mut NodeReplica, catalogue: &Catalogue, replies: &mut OneReply) {
        if replies.has_place {
            let outcome = node.replica.replay_one(&mut node.hand, self, catalogue);
            replies.outcome = Some(outcome);
        } else {
            let count = node.hand.len();
            replay_first(node, catalogue, count);
        }
    }
}
