// What `stress` leaves besides its transcript, as texts.

ghost use Rattle.std.specs.Prelude.{IfOk};
ghost use Rattle.stress.specs.Left.{IsLeft, answer_left};

use crate::stressed::Stressed;
use crate::watching::Counts;
use dumps::StateText;
use engine::{AnswerText, Answering, Destination, Handed, Parted, Reply, Verdict};
use std::alloc::{AllocError, Global};

/// Where to write what a run leaves besides its transcript.
#[derive(Clone, Copy)]
pub struct Leaving {
    /// The times of its calls.
    pub times: Destination,
    /// The text of the state that the store ended in.
    pub state: Destination,
}

/// What a run writes, and the texts that go elsewhere.
#[derive(Drop)]
pub struct LeftTexts {
    /// What is written.
    pub reply: Reply,
    /// The state whose text is written after it, where one is.
    pub written_state: Option<StateText>,
    /// The times of its calls, where they go elsewhere.
    pub times: Option<Handed>,
    /// The text of the state, as [`dumps::dump`] writes it, where that goes elsewhere.
    pub state: Option<Handed>,
    /// How many calls were made, how long they took, and in which batches.
    pub counts: Counts,
}

impl Answering for LeftTexts {
    ghost answer = { answer_left };

    fn text(&self) -> AnswerText<'_> {
        AnswerText {
            bytes: &self.reply.text,
            state: self.written_state.as_ref(),
        }
    }

    fn verdict(&self) -> Verdict {
        self.reply.verdict
    }
}

// What a run left, as texts.
pub(crate) fn left_texts(
    alloc: Global,
    to: Leaving,
    stressed: Stressed,
) -> Result<LeftTexts, AllocError>
    ensures { IfOk result (IsLeft to stressed) }
{
    let Stressed {
        reply,
        history,
        state,
        counts,
    } = stressed;
    let Some(state) = state else {
        return Ok(LeftTexts {
            reply,
            written_state: None,
            times: None,
            state: None,
            counts,
        });
    };
    let with_times = Parted::with(reply, history, to.times)?;
    let with_state = match to.state {
        Destination::Nowhere => Parted::whole(with_times.reply),
        state_to => Parted::with_state(alloc, with_times.reply, state, state_to)?,
    };
    Ok(LeftTexts {
        reply: with_state.reply,
        written_state: with_state.state,
        times: with_times.elsewhere,
        state: with_state.elsewhere,
        counts,
    })
}
