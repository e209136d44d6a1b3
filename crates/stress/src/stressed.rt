// What `stress` makes.

ghost use Rattle.engine.specs.Report.{answer_of};
ghost use Rattle.stress.specs.Runs.{IsOnly};

use crate::watching::Counts;
use engine::{AnswerText, Answering, Reply, Verdict};
use loader::StoreState;
use std::alloc::Global;
use store::Batches;

/// What a run gives back.
#[derive(Drop)]
pub struct Stressed {
    /// What is to be written.
    pub reply: Reply,
    /// A line `SESSION LINE BEGIN END` for each line of the transcript, in its order, where a history is kept.
    pub history: Vec<u8>,
    /// The state that the store ended in; none where no call was made.
    pub state: Option<StoreState>,
    /// How many calls were made, how long they took, and in which batches.
    pub counts: Counts,
}

impl Answering for Stressed {
    ghost answer = { λ s. answer_of s.reply };

    fn text(&self) -> AnswerText<'_> {
        AnswerText::of(&self.reply.text)
    }

    fn verdict(&self) -> Verdict {
        self.reply.verdict
    }
}

impl Stressed {
    // An answer, where no call was made.
    pub(crate) fn only(alloc: Global, reply: Reply) -> Stressed
        ensures { IsOnly (answer_of reply) result }
    {
        Stressed {
            reply,
            history: Vec::new(alloc),
            state: None,
            counts: Counts {
                updates: 0,
                reads: 0,
                ended: 0,
                nanoseconds: 0,
                longest_wait: 0,
                batches: Batches::none(),
            },
        }
    }
}
