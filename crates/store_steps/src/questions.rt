// Several questions in one call: whether they may be asked, and several reads at one point.

ghost use Rattle.std.specs.Prelude.{◌≡◌, length, None, Some, IfOk, MatchResult};
ghost use Rattle.loader.specs.CatalogueView.{sizes_for};
ghost use Rattle.loader.specs.StoreState.{sizes_of};
ghost use Rattle.replica.specs.Refusals.{IsRefusedAs, early_refusal};
ghost use Rattle.store_steps.specs.Asking.{asked_op};
ghost use Rattle.store_steps.specs.Questions.{EachReplies, MayAskEach, MayAskFor, first_refused, first_refused_in, question_refusal};
ghost use Rattle.store_steps.specs.Seen.{AReply, Replies};
ghost use Rattle.store_steps.specs.Views.{RepliesIn};

use crate::looks::Look;
use crate::steps::Question;
use loader::Catalogue;
use node::NodeReplica;
use readpath::{ReadAnswer, answer};
use replica::{StoreRefused, check_call};
use verifier::Mode;

/// The first of several questions that is refused, and why.
#[derive(Clone, Copy, Debug, PartialEq, Eq)]
pub struct QuestionRefused {
    /// The number of the refused question, from 0.
    pub number: usize,
    /// Why it is.
    pub refused: StoreRefused,
}

// Whether a program may be called in this mode on this argument.
fn check_one(
    catalogue: &Catalogue,
    mode: Mode,
    program: u16,
    argument: &[u8],
) -> Result<(), StoreRefused>
    ensures refusal { IsRefusedAs (early_refusal catalogue.now mode program argument.now) result }
    ensures may { IfOk result (λ _. MayAskFor mode catalogue.now program argument.now) }
{
    check_call(catalogue, mode, program, argument)?;
    Ok(())
}

/// Whether each question may be asked in this mode.
///
/// # Errors
///
/// The first question that may not: S1 unknown program, S2 argument length, S3 the other mode.
pub fn check_each(
    catalogue: &Catalogue,
    mode: Mode,
    questions: &[Question<'_>],
) -> Result<(), QuestionRefused>
    ensures refusal { let first = first_refused_in mode catalogue.now 0 questions.now in MatchResult result (λ _. first ≡ None) (λ e. first ≡ Some e) }
    ensures may { IfOk result (λ _. MayAskEach mode catalogue.now questions.now) }
{
    for number in 0..questions.len() {
        let asked = questions[number];
        if let Err(refused) = check_one(catalogue, mode, asked.program, asked.argument) {
            return Err(QuestionRefused { number, refused });
        }
    }
    Ok(())
}

// What a read answers on the node's state, which it leaves as it was.
fn answer_there(node: &mut NodeReplica, catalogue: &Catalogue, question: Question<'_>) -> ReadAnswer
    requires sizes { sizes_of node.old.replica.state ≡ sizes_for catalogue.now }
    ensures point { result.point ≡ node.old.replica.tail }
    ensures reply { RepliesIn catalogue.now (asked_op question.entry) node.old.replica.state result.reply }
    ensures same { node.new ≡ node.old }
{
    answer(
        catalogue,
        &mut node.replica,
        question.program,
        question.argument,
    )
}

// Answers each question on the node's state, which it leaves as it was.
fn answer_each(
    node: &mut NodeReplica,
    catalogue: &Catalogue,
    questions: &[Question<'_>],
    replies: &mut [u64],
)
    requires sizes { sizes_of node.old.replica.state ≡ sizes_for catalogue.now }
    requires room { length replies.old ≡ length questions.now }
    ensures replies { EachReplies catalogue.now node.old.replica.state questions.now replies.new }
    ensures same { node.new ≡ node.old }
{
    for number in 0..questions.len() {
        let answer = answer_there(node, catalogue, questions[number]);
        replies[number] = answer.reply;
    }
}

impl Look for Question<'_> {
    type Told = ReadAnswer;

    type Refused = StoreRefused;

    ghost may = { λ q c. Unit {0} };

    ghost refusal = { λ q c. question_refusal c q };

    ghost point = { λ answer. answer.point };

    ghost sees = { λ old new answer. AReply (asked_op old) answer.reply };

    ghost asks = { λ question. Some (asked_op question) };

    ghost replies = { λ answer. answer.reply };

    ghost lent = { λ old new. Unit {0} };

    fn check(&self, catalogue: &Catalogue) -> Result<(), StoreRefused> {
        check_one(catalogue, Mode::Read, self.program, self.argument)
    }

    fn at(&mut self, catalogue: &Catalogue, node: &mut NodeReplica) -> ReadAnswer {
        answer_there(node, catalogue, *self)
    }
}

/// A look for the replies to several reads, at one point.
#[derive(Drop)]
pub struct Reads<'q, 'r> {
    /// What they ask for.
    pub questions: &'q [Question<'q>],
    /// Room for a reply to each.
    pub replies: &'r mut [u64],
}

impl Look for Reads<'_, '_> {
    type Told = u64;

    type Refused = QuestionRefused;

    ghost may = { λ r c. length r.replies.now ≡ length r.questions.now };

    ghost refusal = { λ r c. first_refused c 0 r.questions.now };

    ghost point = { λ point. point };

    ghost sees = { λ old new point. Replies old.questions.now new.replies.now };

    ghost asks = { λ reads. None };

    ghost replies = { λ point. 0 };

    ghost lent = { λ old new. new.replies.ghost_name ≡ old.replies.ghost_name };

    fn check(&self, catalogue: &Catalogue) -> Result<(), QuestionRefused> {
        check_each(catalogue, Mode::Read, self.questions)
    }

    fn at(&mut self, catalogue: &Catalogue, node: &mut NodeReplica) -> u64 {
        let questions = self.questions;
        answer_each(node, catalogue, questions, self.replies);
        node.replica.tail()
    }
}
