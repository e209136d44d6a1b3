// The answers to a batch that is in the log.

ghost use Rattle.std.specs.Prelude.{◌≡◌, ℕ, ◌+◌, ◌<◌, ◌≤◌, ◌^◌, length};
ghost use Rattle.machine.specs.declared.running.Outcome.{Outcome as TheOutcome};
ghost use Rattle.combiner.specs.declared.slots.Reply.TheVariants.{Placed, Ended};
ghost use Rattle.node.specs.Answering.{answered_batch, HasOutcome, HaveRun};

use combiner::{Batch, Reply};
use replica::Replies;
use unreached::unreached;

/// Sets the answer of each request of a batch in the log: one that has an index there is answered with it and its outcome, the others came
/// too late. Those that have an index were replayed.
pub fn answer_batch(batch: &mut Batch, replies: &Replies)
    requires run { HaveRun replies.now batch.old }
    requires short { replies.now.first + length replies.now.outcomes < 2 ^ 64 }
    ensures answered { batch.new ≡ answered_batch replies.now batch.old }
{
    for k in 0..batch.records().len() {
        let reply = reply_at(replies, k);
        batch.answer(k, reply);
    }
}

// The answer to the k-th request.
fn reply_at(replies: &Replies, k: usize) -> Reply
    requires run { k < length replies.now.outcomes → (o : TheOutcome) × HasOutcome replies.now k o }
    requires short { replies.now.first + length replies.now.outcomes < 2 ^ 64 }
    ensures placed { (o : TheOutcome) → k < length replies.now.outcomes → HasOutcome replies.now k o → result ≡ Placed (replies.now.first + k) o.reply }
    ensures ended { length replies.now.outcomes ≤ k → result ≡ Ended }
{
    if k >= replies.len() {
        return Reply::Ended;
    }
    match replies.get(k) {
        Some(outcome) => Reply::Placed {
            index: replies.first() + k as u64,
            reply: outcome.reply,
        },
        None => unreached!(),
    }
}
