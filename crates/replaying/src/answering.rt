// The command `replay`.

ghost use Rattle.std.specs.Prelude.{◌≡◌, IfOk, Some};
ghost use Rattle.text.specs.Lines.{lines_of};
ghost use Rattle.engine.specs.Notes.{IsQuiet};
ghost use Rattle.engine.specs.Reading.{texts_read};
ghost use Rattle.engine.specs.Report.{answer_of};
ghost use Rattle.replaying.specs.Noted.{Explains, notes_text, replay_notes};
ghost use Rattle.replaying.specs.ReplayAnswer.{transcript_answer, nothing_replayed, replay_answer};
ghost use Rattle.replaying.specs.Replaying.{HasReplayed, ended_answer};
ghost use Rattle.running.specs.Running.{IsSteady};

use crate::lines::{ReplayEnd, Replaying};
use crate::replay_texts::{put_end, tell_end};
use engine::{
    Command, Gathered, Notes, Opened, Reply, StoreWatcher, Texts, not_text, open_texts,
    places_within,
};
use loader::Catalogue;
use std::alloc::{AllocError, Global};

// What is answered where a replay ended so.
fn end_reply(alloc: Global, end: ReplayEnd, replaying: &Replaying) -> Result<Reply, AllocError>
    ensures { IfOk result (λ r. answer_of r ≡ ended_answer end replaying.now) }
{
    let mut text = Vec::new(alloc);
    put_end(&mut text, end, replaying)?;
    let verdict = end.verdict();
    Ok(Reply { text, verdict })
}

// What a catalogue's programs answer to a transcript, where nothing was replayed before.
fn transcript_reply(
    alloc: Global,
    catalogue: &Catalogue,
    mut replaying: Replaying,
    transcript: &str,
    notes: &mut Notes,
) -> Result<Reply, AllocError>
    requires steady { IsSteady catalogue.now replaying.node }
    requires nothing { HasReplayed catalogue.now nothing_replayed replaying }
    ensures quiet { IsQuiet notes.old notes.new }
    ensures told { IfOk result (λ _. Explains notes.old notes.new (notes_text catalogue.now 1 nothing_replayed (lines_of transcript.now))) }
    ensures answered { IfOk result (λ r. answer_of r ≡ transcript_answer catalogue.now 1 nothing_replayed (lines_of transcript.now)) }
{
    let end = replaying.take_lines(catalogue, transcript);
    tell_end(notes, end)?;
    end_reply(alloc, end, &replaying)
}

/// Replays a transcript on one replica with the maps and the programs of a manifest: the updates and installs in the order of
/// their indexes, and each read after the updates before its point.
///
/// Answers with `good UPDATES READS ENDED`, the numbers of the lines of each kind, where each update has the next index and
/// each read the number of updates before it as its point, and each reply is what the program replies there. Else it answers
/// with one line for the first line that is not so: `line N bad` where it is no line of a transcript or names no program of
/// its mode with an argument of its length, nor a place, and otherwise `line N differs`. The notes tell what a line should
/// tell that differs, where they are to tell that.
///
/// The state is given as [`dumps::dump`] writes one; without a text it is a new one. A refused manifest gets only its
/// refusal, more than 16 places `refused O1`, and a refused state `line N: En`; then no line is replayed.
#[derive(Drop)]
pub struct Replay<'w, V> {
    /// How many places there are behind the manifest's programs.
    pub spare: u32,
    /// What is told how much of the state is loaded, and when the store opens.
    pub watcher: &'w V,
}

impl<V: StoreWatcher> Replay<'_, V> {
    /// What is answered to these texts.
    ///
    /// # Errors
    ///
    /// The system has no memory left.
    #[tactic(auto, using(engine::proofs::Openings::opens_on))]
    pub fn reply(
        &self,
        alloc: Global,
        texts: &Texts,
        notes: &mut Notes,
    ) -> Result<Reply, AllocError>
        ensures quiet { IsQuiet notes.old notes.new }
        // With `Telling::Reasons`: what the first line should tell that does not agree, if it differs.
        ensures told { IfOk result (λ _. Explains notes.old notes.new (replay_notes self.now.spare (Some (texts_read texts.now)))) }
        ensures answered { IfOk result (λ r. answer_of r ≡ replay_answer self.now.spare (Some (texts_read texts.now))) }
    {
        let transcript = texts.file.as_str();
        match open_texts(alloc, texts, places_within(self.spare), 0, self.watcher)? {
            Opened::On(catalogue, state) => {
                self.watcher.opens();
                let replaying = Replaying::open(alloc, &catalogue, state.as_ref());
                self.watcher.opened();
                transcript_reply(alloc, &catalogue, replaying?, transcript, notes)
            }
            Opened::Refused(reply) => Ok(reply),
        }
    }
}

impl<V: StoreWatcher> Command for Replay<'_, V> {
    type Made = Reply;

    ghost may_make = { λ c t r. answer_of r ≡ replay_answer c.spare t };

    ghost may_tell = { λ c t old new. Explains old new (replay_notes c.spare t) };

    fn make(&self, alloc: Global, read: Gathered, notes: &mut Notes) -> Result<Reply, AllocError> {
        let Ok(texts) = read else {
            return not_text(alloc);
        };
        self.reply(alloc, &texts, notes)
    }
}
