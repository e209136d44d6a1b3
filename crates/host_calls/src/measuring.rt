// The call that says what a store has done, and the words in which it answers.

ghost use Rattle.std.specs.Prelude.{◌≡◌};
ghost use Rattle.host_calls.specs.Measuring.{Measures, TellsMeasured, stat_words};
ghost use Rattle.host_calls.specs.Views.{IsSame};

use crate::attached::{Attached, Looked};
use crate::handles::{AT_END, SessionHandle};
use crate::looks::note;
use store::{Batches, Stats};

/// What a store had done at one moment, and how far the session's node had come then.
#[repr(C)]
#[derive(Clone, Copy)]
pub struct StatWords {
    /// How many operations of the history were completed.
    pub completed: u64,
    /// How many operations the history had.
    pub appended: u64,
    /// How many records the log kept.
    pub kept: u64,
    /// How many operations the replica of the session's node had applied.
    pub tail: u64,
    /// How many completed operations that replica had still to apply.
    pub lag: u64,
    /// How many batches of several updates the session has combined since it was attached.
    pub batches: u64,
    /// How many updates these had, all together.
    pub batched: u64,
    /// How many the largest had.
    pub largest: u64,
}

fn stat_words(stats: Stats, shared: Batches) -> StatWords
    ensures { result ≡ stat_words stats shared }
{
    StatWords {
        completed: stats.completed,
        appended: stats.appended,
        kept: stats.kept,
        tail: stats.tail,
        lag: stats.lag,
        batches: shared.count,
        batched: shared.requests,
        largest: shared.largest,
    }
}

impl Attached {
    /// Says what the store had done at one moment, if no update is out.
    pub fn stats(&mut self, words: &mut StatWords) -> Looked
        ensures same { IsSame self.old self.new }
        ensures tells { TellsMeasured words.old words.new self.old self.new result }
    {
        let Attached { store, session, .. } = self;
        if session.is_waiting() {
            return Looked::IsOut;
        }
        match session.try_stats(store) {
            None => Looked::Busy,
            Some(stats) => {
                *words = stat_words(stats, session.shared_batches());
                Looked::Seen {
                    point: stats.completed,
                    count: 0,
                    next: AT_END,
                }
            }
        }
    }
}

/// Says what the store of a session had done at one moment, and how far the session's node had come then.
pub fn measure(handle: &mut SessionHandle, words: &mut StatWords)
    ensures measures { Measures handle.old handle.new words.old words.new }
{
    let SessionHandle { own, answered, .. } = handle;
    let told = match own {
        None => Looked::NotOpen,
        Some(attached) => attached.stats(words),
    };
    note(answered, told);
}
