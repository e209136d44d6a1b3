// The replay of a transcript, line by line.

ghost use Rattle.std.specs.Prelude.{◌≡◌, true, option_map, Some, IfSome, IfNone, IfOk};
ghost use Rattle.loader.specs.CatalogueView.{OpensOn};
ghost use Rattle.verifier.specs.declared.refusal.Mode.TheVariants.{Update, Read};
ghost use Rattle.oplog.specs.declared.records.Op.TheVariants.{Run};
ghost use Rattle.replica.specs.StoreMeaning.{is_operation};
ghost use Rattle.text.specs.Lines.{lines_of};
ghost use Rattle.replaying.specs.ReplayAnswer.{number_told, operation_of, install_of, ended_outcome, line_outcome, nothing_replayed, transcript_answer};
ghost use Rattle.replaying.specs.Noted.{line_due, notes_text};
ghost use Rattle.replaying.specs.Replaying.{DiffersFrom, HasReplayed, Compares, ReplaysLine, TellsWhatIsDue, answered_outcome, compared_verdict, installed_outcome, ended_answer, ended_note, ended_verdict};
ghost use Rattle.running.specs.Running.{IsSteady, IsUpdated, HasEnded};
ghost use Rattle.scripts.specs.ScriptShown.{key_of, keyed_of, program_of};
ghost use Rattle.scripts.specs.Transcript.{Answered, Installed, transcript_line_meaning};

use engine::Verdict;
use loader::{Catalogue, StoreState};
use machine::Outcome;
use oplog::{CallRef, MAX_LIMIT, OpRef};
use running::{SingleNode, checked_call};
use scripts::{
    KeyedCall, ProgramKey, ProgramText, ToldReply, TranscriptLine, read_transcript_line,
};
use std::alloc::{AllocError, Global};
use text::NumberedLines;
use verifier::Mode;

// What a call should tell: the number of updates before it, and its reply; none where the history has all its updates.
#[derive(Clone, Copy)]
pub(crate) struct Due {
    pub mode: Mode,
    pub place: u64,
    pub reply: Option<u64>,
}

// One node, how many reads and ended calls there were beside its updates, and what the last call should tell that was compared.
#[derive(Drop)]
pub(crate) struct Replaying {
    pub node: SingleNode,
    pub reads: u64,
    pub ended: u64,
    pub due: Due,
}

// What a line is found to be.
#[derive(Clone, Copy)]
pub(crate) enum LineVerdict {
    Bad,
    Differs,
    Agrees,
}

// How a replay ends: at the end of the transcript, or at the line of a number, where it differs with what it should tell.
#[derive(Clone, Copy)]
pub(crate) enum ReplayEnd {
    Agrees,
    Bad(u32),
    Differs(u32, Due),
}

impl ReplayEnd {
    // What the transcript is then.
    pub(crate) fn verdict(self) -> Verdict
        ensures { result ≡ ended_verdict self }
    {
        match self {
            ReplayEnd::Agrees => Verdict::Good,
            ReplayEnd::Bad(_) => Verdict::Refused,
            ReplayEnd::Differs(_, _) => Verdict::Differs,
        }
    }
}

// The number of the program that a line names.
fn number_told(catalogue: &Catalogue, key: ProgramKey<'_>) -> Option<u64>
    ensures { result ≡ number_told catalogue.now (key_of key.entry) }
{
    match key {
        ProgramKey::Named(name) => match catalogue.number(name) {
            Some(number) => Some(number as u64),
            None => None,
        },
        ProgramKey::Numbered(number) => {
            if number < catalogue.len() as u64 {
                None
            } else {
                Some(number)
            }
        }
    }
}

// The call that a line says, where a session could ask for it.
fn find<'a>(catalogue: &Catalogue, mode: Mode, call: &'a KeyedCall<'_>) -> Option<CallRef<'a>>
    ensures found { option_map Run result ≡ operation_of catalogue.now mode (keyed_of call.now) }
    ensures asks { IfSome result (λ c. is_operation mode catalogue.now (Run c) ≡ true) }
{
    let number = number_told(catalogue, call.key)?;
    let argument = call.argument.as_slice();
    match checked_call(catalogue, mode, number, argument) {
        Ok(call) => Some(call),
        Err(_) => None,
    }
}

// What a line is found to be whose call agrees, or does not.
fn verdict_of(agrees: bool) -> LineVerdict
    ensures { result ≡ compared_verdict agrees }
{
    if agrees {
        LineVerdict::Agrees
    } else {
        LineVerdict::Differs
    }
}

impl Replaying {
    // Takes all room that a replay needs, on a copy of the state that is handed in, or on a new one.
    pub(crate) fn open(
        alloc: Global,
        catalogue: &Catalogue,
        opening: Option<&StoreState>,
    ) -> Result<Replaying, AllocError>
        requires opens { OpensOn catalogue.now opening }
        ensures steady { IfOk result (λ r. IsSteady catalogue.now r.node) }
        ensures nothing { IfOk result (λ r. HasReplayed catalogue.now nothing_replayed r) }
    {
        Ok(Replaying {
            node: SingleNode::open(alloc, catalogue, opening, MAX_LIMIT)?,
            reads: 0,
            ended: 0,
            due: Due {
                mode: Mode::Update,
                place: 0,
                reply: None,
            },
        })
    }

    // Applies an update, and keeps what it should tell.
    #[tactic(auto, using(crate::proofs::Replays::due_applied, crate::proofs::Replays::due_full))]
    fn apply(&mut self, catalogue: &Catalogue, op: &OpRef<'_>) -> Option<Outcome>
        requires steady { IsSteady catalogue.now self.old.node }
        requires update { is_operation Update catalogue.now op.now ≡ true }
        ensures steady { IsSteady catalogue.now self.new.node }
        ensures updated { IfSome result (λ o. IsUpdated catalogue.now op.now self.old.node self.new.node o) }
        ensures ended { IfNone result (HasEnded self.old.node self.new.node) }
        ensures counts { (self.new.reads ≡ self.old.reads) × (self.new.ended ≡ self.old.ended) }
        ensures due { TellsWhatIsDue catalogue.now Update op.now self.old self.new.due }
    {
        let mode = Mode::Update;
        let place = self.node.tail();
        match self.node.submit(catalogue, op) {
            Some(outcome) => {
                let reply = Some(outcome.reply);
                self.due = Due { mode, place, reply };
                Some(outcome)
            }
            None => {
                let reply = None;
                self.due = Due { mode, place, reply };
                None
            }
        }
    }

    // Whether an update has this index and this reply.
    fn update(&mut self, catalogue: &Catalogue, op: &OpRef<'_>, index: u64, reply: u64) -> bool
        requires steady { IsSteady catalogue.now self.old.node }
        requires update { is_operation Update catalogue.now op.now ≡ true }
        ensures steady { IsSteady catalogue.now self.new.node }
        ensures compared { Compares catalogue.now Update op.now index reply self.old result self.new }
        ensures due { TellsWhatIsDue catalogue.now Update op.now self.old self.new.due }
    {
        let place = self.node.tail();
        let outcome = self.apply(catalogue, op);
        if index != place {
            return false;
        }
        match outcome {
            Some(outcome) => outcome.reply == reply,
            None => false,
        }
    }

    // Whether a read has this point and this reply.
    #[tactic(auto, using(crate::proofs::Replays::due_queried, crate::proofs::Replays::queried, crate::proofs::Replays::read_elsewhere))]
    fn read(&mut self, catalogue: &Catalogue, call: &CallRef<'_>, point: u64, reply: u64) -> bool
        requires steady { IsSteady catalogue.now self.old.node }
        ensures steady { IsSteady catalogue.now self.new.node }
        ensures compared { Compares catalogue.now Read (Run call.now) point reply self.old result self.new }
        ensures due { TellsWhatIsDue catalogue.now Read (Run call.now) self.old self.new.due }
    {
        let place = self.node.tail();
        let outcome = self.node.query(catalogue, call.program(), call.argument());
        self.due = Due {
            mode: Mode::Read,
            place,
            reply: Some(outcome.reply),
        };
        if point != place {
            return false;
        }
        self.reads = self.reads.saturating_add(1);
        outcome.reply == reply
    }

    // What a call that was answered is found to be.
    fn answered(
        &mut self,
        catalogue: &Catalogue,
        mode: Mode,
        call: &KeyedCall,
        told: ToldReply,
    ) -> LineVerdict
        requires steady { IsSteady catalogue.now self.old.node }
        ensures steady { IsSteady catalogue.now self.new.node }
        ensures replayed { ReplaysLine catalogue.now (λ at. answered_outcome catalogue.now at mode (keyed_of call.now) told) self.old result self.new }
        ensures due { DiffersFrom catalogue.now (λ at. line_due catalogue.now at (Some (Answered mode (keyed_of call.now) told))) self.old result self.new.due }
    {
        let Some(call) = find(catalogue, mode, call) else {
            return LineVerdict::Bad;
        };
        match mode {
            Mode::Update => verdict_of(self.update(catalogue, &call.op(), told.index, told.reply)),
            Mode::Read => verdict_of(self.read(catalogue, &call, told.index, told.reply)),
        }
    }

    // What an install that was answered is found to be.
    fn installed(
        &mut self,
        catalogue: &Catalogue,
        text: &ProgramText,
        told: ToldReply,
    ) -> LineVerdict
        requires steady { IsSteady catalogue.now self.old.node }
        ensures steady { IsSteady catalogue.now self.new.node }
        ensures replayed { ReplaysLine catalogue.now (λ at. installed_outcome catalogue.now at (program_of text.now) told) self.old result self.new }
        ensures due { DiffersFrom catalogue.now (λ at. line_due catalogue.now at (Some (Installed (program_of text.now) told))) self.old result self.new.due }
    {
        let Ok(install) = self.node.check(catalogue, text) else {
            return LineVerdict::Bad;
        };
        verdict_of(self.update(catalogue, &install, told.index, told.reply))
    }

    // What an update after the end of the history is found to be.
    fn after_end(&mut self, catalogue: &Catalogue, call: &KeyedCall) -> LineVerdict
        requires steady { IsSteady catalogue.now self.old.node }
        ensures steady { IsSteady catalogue.now self.new.node }
        ensures replayed { ReplaysLine catalogue.now (λ at. ended_outcome at (operation_of catalogue.now Update (keyed_of call.now))) self.old result self.new }
    {
        match find(catalogue, Mode::Update, call) {
            Some(_) => {
                self.ended = self.ended.saturating_add(1);
                LineVerdict::Agrees
            }
            None => LineVerdict::Bad,
        }
    }

    // What an install after the end of the history is found to be.
    fn install_after_end(&mut self, catalogue: &Catalogue, text: &ProgramText) -> LineVerdict
        requires steady { IsSteady catalogue.now self.old.node }
        ensures steady { IsSteady catalogue.now self.new.node }
        ensures replayed { ReplaysLine catalogue.now (λ at. ended_outcome at (install_of catalogue.now (program_of text.now))) self.old result self.new }
    {
        match self.node.check(catalogue, text) {
            Ok(_) => {
                self.ended = self.ended.saturating_add(1);
                LineVerdict::Agrees
            }
            Err(_) => LineVerdict::Bad,
        }
    }

    // What a line is found to be.
    #[tactic(auto, unfolding(crate::specs::ReplayAnswer::line_outcome))]
    pub(crate) fn take_line(&mut self, catalogue: &Catalogue, line: &str) -> LineVerdict
        requires steady { IsSteady catalogue.now self.old.node }
        ensures steady { IsSteady catalogue.now self.new.node }
        ensures replayed { ReplaysLine catalogue.now (λ at. line_outcome catalogue.now at line.now) self.old result self.new }
        ensures due { DiffersFrom catalogue.now (λ at. line_due catalogue.now at (transcript_line_meaning line.now)) self.old result self.new.due }
    {
        match read_transcript_line(line) {
            None => LineVerdict::Bad,
            Some(TranscriptLine::Comment) => LineVerdict::Agrees,
            Some(TranscriptLine::Answered(mode, call, told)) => {
                self.answered(catalogue, mode, &call, told)
            }
            Some(TranscriptLine::Installed(text, told)) => {
                self.installed(catalogue, &text, told)
            }
            Some(TranscriptLine::Ended(call)) => self.after_end(catalogue, &call),
            Some(TranscriptLine::EndedInstall(text)) => self.install_after_end(catalogue, &text),
        }
    }

    // Takes the lines of a transcript, up to the first that does not agree.
    pub(crate) fn take_lines(&mut self, catalogue: &Catalogue, transcript: &str) -> ReplayEnd
        requires steady { IsSteady catalogue.now self.old.node }
        requires nothing { HasReplayed catalogue.now nothing_replayed self.old }
        ensures answered { ended_answer result self.new ≡ transcript_answer catalogue.now 1 nothing_replayed (lines_of transcript.now) }
        ensures noted { ended_note result ≡ notes_text catalogue.now 1 nothing_replayed (lines_of transcript.now) }
    {
        let mut lines = NumberedLines::new(transcript);
        while let Some((number, line)) = lines.take_line() {
            match self.take_line(catalogue, line) {
                LineVerdict::Agrees => {}
                LineVerdict::Bad => return ReplayEnd::Bad(number),
                LineVerdict::Differs => return ReplayEnd::Differs(number, self.due),
            }
        }
        ReplayEnd::Agrees
    }
}
