// What a command makes of which a part goes elsewhere than to its writer.

ghost use Rattle.std.specs.Prelude.{◌≡◌, IfOk, None};
ghost use Rattle.dumps.specs.Dumping.{dump, whole_text};
ghost use Rattle.engine.specs.Parted.{apart, parted_of, sent_to, whole};
ghost use Rattle.engine.specs.Report.{answer_of};

use crate::replies::{AnswerText, Answering, Reply, Verdict};
use dumps::StateText;
use loader::StoreState;
use std::alloc::{AllocError, Global};

/// Where a text goes that a command makes besides its answer.
#[derive(Clone, Copy)]
pub enum Destination {
    /// Nowhere: it is not asked for.
    Nowhere,
    /// To the writer, after the answer.
    Writer,
    /// Elsewhere: it is handed back.
    Elsewhere,
}

/// A text that goes elsewhere.
#[derive(Drop)]
pub enum Handed {
    /// The whole text.
    Text(Vec<u8>),
    /// A state, whose text is read piece by piece.
    State(StateText),
}

/// An answer, and a text that goes elsewhere.
#[derive(Drop)]
pub struct Parted {
    /// What is written.
    pub reply: Reply,
    /// The state whose text is written after it, where one is.
    pub state: Option<StateText>,
    /// What goes elsewhere, where something does.
    pub elsewhere: Option<Handed>,
}

impl Answering for Parted {
    ghost answer = { λ p. (parted_of p).answer };

    fn text(&self) -> AnswerText<'_> {
        AnswerText {
            bytes: &self.reply.text,
            state: self.state.as_ref(),
        }
    }

    fn verdict(&self) -> Verdict {
        self.reply.verdict
    }
}

// The text of a state.
fn text_of(alloc: Global, state: StoreState) -> Result<StateText, AllocError>
    ensures { IfOk result (λ t. t ≡ whole_text state) }
{
    match StateText::new(alloc, state) {
        Ok(text) => Ok(text),
        Err(_) => Err(AllocError),
    }
}

impl Parted {
    /// All of it is written.
    pub fn whole(reply: Reply) -> Parted
        ensures parted { parted_of result ≡ whole (answer_of reply) }
        ensures whole { result.state ≡ None }
    {
        Parted {
            reply,
            state: None,
            elsewhere: None,
        }
    }

    /// All of it goes elsewhere.
    pub fn apart(alloc: Global, reply: Reply) -> Parted
        ensures { parted_of result ≡ apart (answer_of reply) }
    {
        let Reply { text, verdict } = reply;
        Parted {
            reply: Reply {
                text: Vec::new(alloc),
                verdict,
            },
            state: None,
            elsewhere: Some(Handed::Text(text)),
        }
    }

    /// An answer, and a text that goes to this destination.
    ///
    /// # Errors
    ///
    /// The system has no memory left.
    pub fn with(reply: Reply, text: Vec<u8>, to: Destination) -> Result<Parted, AllocError>
        ensures parted { IfOk result (λ p. parted_of p ≡ sent_to to (answer_of reply) text.items) }
        ensures whole { IfOk result (λ p. p.state ≡ None) }
    {
        match to {
            Destination::Nowhere => Ok(Parted::whole(reply)),
            Destination::Writer => {
                let Reply {
                    text: mut all,
                    verdict,
                } = reply;
                all.extend_from_slice(&text)?;
                Ok(Parted::whole(Reply { text: all, verdict }))
            }
            Destination::Elsewhere => Ok(Parted {
                reply,
                state: None,
                elsewhere: Some(Handed::Text(text)),
            }),
        }
    }

    /// An answer, and the text of a state, which goes to this destination piece by piece.
    ///
    /// # Errors
    ///
    /// The system has no memory left.
    pub fn with_state(
        alloc: Global,
        reply: Reply,
        state: StoreState,
        to: Destination,
    ) -> Result<Parted, AllocError>
        ensures { IfOk result (λ p. parted_of p ≡ sent_to to (answer_of reply) (dump state)) }
    {
        match to {
            Destination::Nowhere => Ok(Parted::whole(reply)),
            Destination::Writer => Ok(Parted {
                reply,
                state: Some(text_of(alloc, state)?),
                elsewhere: None,
            }),
            Destination::Elsewhere => Ok(Parted {
                reply,
                state: None,
                elsewhere: Some(Handed::State(text_of(alloc, state)?)),
            }),
        }
    }
}
