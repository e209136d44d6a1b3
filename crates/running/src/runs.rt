// The command `run`, and the state that it leaves.

ghost use Rattle.std.specs.Prelude.{◌≡◌, false, None, Ok, Option, option_map, Some, IfOk};
ghost use Rattle.loader.specs.CatalogueView.{OpensOn};
ghost use Rattle.oplog.specs.declared.configuration.TheConstants.{MAX_LIMIT};
ghost use Rattle.oplog.specs.History.{History};
ghost use Rattle.engine.specs.Reading.{texts_read};
ghost use Rattle.engine.specs.Report.{answer_of};
ghost use Rattle.running.specs.KeptRun.{run_kept, kept_of, script_kept};
ghost use Rattle.running.specs.RunAnswer.{state_of};
ghost use Rattle.running.specs.Running.{IsSteady, HasLeft, with_signs};

use crate::lines::take_lines;
use crate::signed_texts::signed_text;
use crate::single_node::{RUN_PLACES, SingleNode};
use engine::{
    AnswerText, Answering, Command, Gathered, Notes, Opened, Reply, StoreWatcher, Texts, Verdict,
    not_text, open_texts,
};
use loader::{Catalogue, StoreState};
use oplog::MAX_LIMIT;
use std::alloc::{AllocError, Global};

/// What a run writes, and the state that it leaves.
#[derive(Drop)]
pub struct Kept {
    /// What the run has to write.
    pub reply: Reply,
    /// The state after all lines; none where a line is bad, or where nothing was run.
    pub state: Option<StoreState>,
}

impl Answering for Kept {
    ghost answer = { λ k. answer_of k.reply };

    fn text(&self) -> AnswerText<'_> {
        AnswerText::of(&self.reply.text)
    }

    fn verdict(&self) -> Verdict {
        self.reply.verdict
    }
}

// Answers so instead of a run, and leaves no state.
fn refuse(reply: Reply) -> Kept
    ensures { kept_of result ≡ record { answer = answer_of reply; state = None } }
{
    Kept { reply, state: None }
}

// The state that lines left in a node, where all of them are good.
fn state_left(node: SingleNode, catalogue: &Catalogue, verdict: Verdict) -> Option<StoreState>
    requires steady { IsSteady catalogue.now node }
    ensures left { (left : Option History) → HasLeft MAX_LIMIT catalogue.now node left verdict → result ≡ option_map (state_of catalogue.now) left }
{
    match verdict {
        Verdict::Good => Some(node.into_state(catalogue)),
        Verdict::Refused | Verdict::Differs => None,
    }
}

// Runs the lines of a script on a catalogue, on a copy of the state that is handed in, or on a new one.
fn run_lines<V: StoreWatcher>(
    alloc: Global,
    catalogue: &Catalogue,
    state: Option<&StoreState>,
    script: &str,
    watcher: &V,
) -> Result<Kept, AllocError>
    requires opens { OpensOn catalogue.now state }
    ensures { IfOk result (λ k. kept_of k ≡ script_kept script.now (Ok catalogue.now)) }
{
    watcher.opens();
    let opened = SingleNode::open(alloc, catalogue, state, MAX_LIMIT);
    watcher.opened();
    let mut node = opened?;
    let mut text = Vec::new(alloc);
    let verdict = take_lines(&mut node, catalogue, script, &mut text)?;
    let state = state_left(node, catalogue, verdict);
    let reply = Reply { text, verdict };
    Ok(Kept { reply, state })
}

// Runs the script on what the manifest, its files and the state say. Otherwise refuses as they are refused.
#[tactic(auto, using(engine::proofs::Openings::opens_on))]
fn run_script<V: StoreWatcher>(alloc: Global, texts: Texts, watcher: &V) -> Result<Kept, AllocError>
    ensures { IfOk result (λ k. kept_of k ≡ run_kept false (Some (texts_read texts))) }
{
    let opened = open_texts(alloc, &texts, Some(RUN_PLACES), texts.sizes.long(), watcher)?;
    let script = texts.into_file();
    match opened {
        Opened::On(catalogue, state) => {
            run_lines(alloc, &catalogue, state.as_ref(), script.as_str(), watcher)
        }
        Opened::Refused(reply) => Ok(refuse(reply)),
    }
}

// Adds the negative number next to each reply that is negative as a signed number.
fn add_signs(alloc: Global, plain: Kept) -> Result<Kept, AllocError>
    ensures { IfOk result (λ k. kept_of k ≡ with_signs (kept_of plain)) }
{
    let Kept { reply, state } = plain;
    let Reply { text, verdict } = reply;
    let text = signed_text(alloc, text)?;
    let reply = Reply { text, verdict };
    Ok(Kept { reply, state })
}

/// Runs a script on a store with the maps and the programs of a manifest: one log of at most 1,000,000 updates and one
/// replica, on one thread.
///
/// Answers for each call of the script with `update INDEX reply REPLY steps STEPS`, `read POINT reply REPLY steps STEPS`,
/// for each program that it installs with `install INDEX reply REPLY`, or with `refused S` with a number and its reason,
/// which changes nothing; a line that is no call, install, comment or empty line gets `line N bad` and ends the run.
///
/// The state is given as [`dumps::dump`] writes one; without a text it is a new one. There are four places behind the
/// programs of the manifest, those that are installed in the state among them. A refused manifest gets only its refusal, a
/// refused state `line N: En`, and nothing is run.
#[derive(Drop)]
pub struct Run<'w, V> {
    /// Whether beside each reply of 2^63 or more stands that number with a sign: ` = -N`.
    pub is_signed: bool,
    /// What is told how much of the state is loaded, and when the store opens.
    pub watcher: &'w V,
}

impl<V: StoreWatcher> Command for Run<'_, V> {
    type Made = Kept;

    ghost may_make = { λ c t k. kept_of k ≡ run_kept c.is_signed t };

    fn make(&self, alloc: Global, read: Gathered, _notes: &mut Notes) -> Result<Kept, AllocError> {
        let Ok(texts) = read else {
            return Ok(refuse(not_text(alloc)?));
        };
        let kept = run_script(alloc, texts, self.watcher)?;
        if self.is_signed {
            add_signs(alloc, kept)
        } else {
            Ok(kept)
        }
    }
}
