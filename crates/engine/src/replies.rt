// What a command makes that is written, how the command ends, and what is told beside.

ghost use Rattle.std.specs.Prelude.{◌≡◌, [], IfOk, option_map};
ghost use Rattle.engine.specs.declared.replies.Telling.TheVariants.{Nothing};
ghost use Rattle.engine.specs.declared.replies.Verdict.TheVariants as verdicts;
ghost use Rattle.engine.specs.Answer.{Answer, not_text};
ghost use Rattle.engine.specs.Report.{answer_of, whole_text};
ghost use Rattle.engine.specs.Sizes.{sizes_refused};
ghost use Rattle.engine.specs.Status.{code_of, complaint_of, status_of};

use crate::texts;
use dumps::StateText;
use std::alloc::{AllocError, Global};

/// How a command ended.
#[derive(Clone, Copy, Debug, PartialEq, Eq)]
pub enum Status {
    /// All is well.
    Good,
    /// What was read is refused, and the refusal is written.
    Refused,
    /// Memory ran out, and `no memory` is written.
    NoMemory,
    /// A read failed. Nothing is written.
    CannotRead,
    /// A write failed. What went out is a beginning of what was to be written.
    CannotWrite,
    /// What was read tells something else than what is so, and where it does is written.
    Differs,
}

/// Whether what was read is good.
#[derive(Clone, Copy)]
pub enum Verdict {
    /// What was read is good.
    Good,
    /// What was read is refused.
    Refused,
    /// What was read says something that is not so.
    Differs,
}

impl Status {
    /// The exit status of the program.
    pub fn code(self) -> u8
        ensures code { result ≡ code_of self }
    {
        match self {
            Status::Good => 0,
            Status::Refused => 3,
            Status::NoMemory => 4,
            Status::CannotRead | Status::CannotWrite => 5,
            Status::Differs => 6,
        }
    }

    /// What the program writes to standard error, where it writes something there.
    pub fn complaint(self) -> Option<&'static str>
        ensures complaint { option_map (λ t. t.now) result ≡ complaint_of self }
    {
        match self {
            Status::CannotRead => Some("cannot read"),
            Status::CannotWrite => Some("cannot write"),
            _ => None,
        }
    }
}

// How a command ends whose answer was written.
pub(crate) fn status_of(verdict: Verdict) -> Status
    ensures { result ≡ status_of verdict }
{
    match verdict {
        Verdict::Good => Status::Good,
        Verdict::Refused => Status::Refused,
        Verdict::Differs => Status::Differs,
    }
}

/// What a command has to write, and how it then ends.
#[derive(Drop)]
pub struct Reply {
    /// All of it.
    pub text: Vec<u8>,
    /// Whether what was read is good.
    pub verdict: Verdict,
}

/// The text of an answer: bytes, and then what is left of the text of a state, if there is one.
#[derive(Clone, Copy)]
pub struct AnswerText<'a> {
    /// What is written first.
    pub bytes: &'a [u8],
    /// The state. It is written piece by piece, and its text stays left.
    pub state: Option<&'a StateText>,
}

impl<'a> AnswerText<'a> {
    /// These bytes alone.
    pub fn of(bytes: &'a [u8]) -> AnswerText<'a>
        ensures { whole_text result ≡ bytes.now }
    {
        AnswerText { bytes, state: None }
    }
}

/// What a command makes that has an answer.
pub trait Answering: Drop {
    // The answer.
    ghost answer: { Self → Answer };

    /// What is to be written.
    fn text(&self) -> AnswerText<'_>
        ensures { whole_text result ≡ (answer self.now).text };

    /// Whether what was read is good.
    fn verdict(&self) -> Verdict
        ensures { result ≡ (answer self.now).verdict };
}

impl Answering for Reply {
    ghost answer = { answer_of };

    fn text(&self) -> AnswerText<'_> {
        AnswerText::of(&self.text)
    }

    fn verdict(&self) -> Verdict {
        self.verdict
    }
}

impl Reply {
    /// What was read is good.
    pub fn good(text: Vec<u8>) -> Reply
        ensures { answer_of result ≡ record { text = text.items; verdict = verdicts.Good } }
    {
        let verdict = Verdict::Good;
        Reply { text, verdict }
    }

    /// What was read is refused.
    pub fn refused(text: Vec<u8>) -> Reply
        ensures { answer_of result ≡ record { text = text.items; verdict = verdicts.Refused } }
    {
        let verdict = Verdict::Refused;
        Reply { text, verdict }
    }
}

// A refusal in these words.
fn refusal(alloc: Global, words: &[u8]) -> Result<Reply, AllocError>
    ensures { IfOk result (λ r. answer_of r ≡ record { text = words.now; verdict = verdicts.Refused }) }
{
    let mut text = Vec::new(alloc);
    text.extend_from_slice(words)?;
    Ok(Reply::refused(text))
}

/// What every command answers where some text is not UTF-8.
pub fn not_text(alloc: Global) -> Result<Reply, AllocError>
    ensures { IfOk result (λ r. answer_of r ≡ not_text) }
{
    refusal(alloc, texts::not_text())
}

/// What is answered where the sizes of a store are out of their limits.
pub fn sizes_refused(alloc: Global) -> Result<Reply, AllocError>
    ensures { IfOk result (λ r. answer_of r ≡ sizes_refused) }
{
    refusal(alloc, b"refused O1\n")
}

/// What is to be told of a run beside its answer.
#[derive(Clone, Copy, Debug, PartialEq, Eq)]
pub enum Telling {
    /// Nothing.
    Nothing,
    /// Why a step may not be taken now, and what a line of a transcript should tell that tells something else.
    Reasons,
    /// A picture of the steps: a lane for each node, the log beside them, and a line for each step.
    Lanes,
}

/// What is told of a run beside its answer, for who looks at the run.
#[derive(Drop)]
pub struct Notes {
    /// What is to be told.
    pub telling: Telling,
    /// What is told so far, in lines.
    pub text: Vec<u8>,
}

impl Notes {
    /// Nothing is told, and nothing is to be told.
    pub fn none(alloc: Global) -> Notes
        ensures nothing { result.telling ≡ Nothing }
        ensures empty { result.text.items ≡ [] }
    {
        Notes::new(alloc, Telling::Nothing)
    }

    /// Nothing is told yet.
    pub fn new(alloc: Global, telling: Telling) -> Notes
        ensures telling { result.telling ≡ telling }
        ensures empty { result.text.items ≡ [] }
    {
        let text = Vec::new(alloc);
        Notes { telling, text }
    }
}
