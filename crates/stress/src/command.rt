// The command `stress`.

ghost use Rattle.std.specs.Prelude.{◌≡◌, ◌≤◌, All, map, Option, Some, IfOk, IfSome};
ghost use Rattle.text.specs.Lines.{lines_of};
ghost use Rattle.loader.specs.declared.installed.TheConstants.{MAX_SPARE};
ghost use Rattle.engine.specs.ReadFaults.{IfCannotRead};
ghost use Rattle.engine.specs.Reading.{FailedInTurn, IfGiven, StopsAtStranger, TextsRead, read, texts_in, texts_read};
ghost use Rattle.engine.specs.Engine.{Performs, PerformsRead, Reports, ReportsRead};
ghost use Rattle.engine.specs.Report.{Failed, answer_of};
ghost use Rattle.engine.specs.Sizes.{places_in};
ghost use Rattle.stress.specs.Calls.{script_calls};
ghost use Rattle.stress.specs.Shown.{called};
ghost use Rattle.stress.specs.Left.{MayLeave, answer_left};
ghost use Rattle.stress.specs.Runs.{IsRun, MayMake};
ghost use Rattle.stress.specs.Playing.{IsReady, IsScriptRun, MayOpen};

use crate::calls::{ScriptCall, ScriptCalls, read_calls};
use crate::gate::Gate;
use crate::left_texts::{Leaving, LeftTexts, left_texts};
use crate::lines::WrittenCalls;
use crate::sharing::Left;
use crate::stressed::Stressed;
use engine::{
    Folder, Gathered, Inputs, Opened, Performed, ReadFault, Reply, Sink, Source, Status,
    StoreWatcher, Texts, Verdict, gather, hand_back, not_text, open_texts, report,
};
use loader::{Catalogue, StoreState};
use oplog::Config;
use running::bad_line;
use std::alloc::{AllocError, Global};
use std::rt::Clock;
use std::sync::Wait;
use std::thread::Threads;

/// Makes the calls of a script on a store of several nodes with the maps and the programs of a manifest. The lines go to the sessions in
/// turn, and each session makes its own in their order, on a thread of its own.
///
/// Answers with a transcript, as `replay` reads it: each update and install at its index in the history with its reply, each read behind the
/// updates that it has seen, and last those that were told that the history has ended. A line that is bad, or whose call or install
/// is refused with S1 to S3 or S6 to S8, gets `line N bad`, and no thread starts. The state that the store opens on is given as
/// [`dumps::dump`] writes one; without a text it is a new one. A refused manifest gets only its refusal, sizes out of their limits
/// `refused O1`, a refused state `line N: En`, in this order.
///
/// Beside the answer it gives back the history of the calls in real time where one is kept, the state that the store ends in, and how many
/// calls there were.
#[derive(Drop)]
pub struct Stress<'a, R, G, C, V> {
    /// What starts the threads and waits.
    pub rt: &'a R,
    /// The sizes of the store.
    pub config: Config,
    /// How many sessions of a node share a thread, and make their updates by one list ([`store::Pipeline`]). If it does not divide the slots of a
    /// node, each session has a thread of its own, as with 1.
    pub together: u32,
    /// What each session passes before each of its calls.
    pub gate: &'a G,
    /// Whether a history is kept. All threads then raise one counter, just before and just behind each call: a barrier each.
    pub has_history: bool,
    /// The clock that calls are timed by, where they are.
    pub clock: Option<&'a C>,
    /// What is told how much of the state is loaded, and when the store opens.
    pub watcher: &'a V,
}

// How many places a store of these sizes has behind its programs; none where a size is out of its limits.
fn places_in(config: Config) -> Option<usize>
    ensures places { result ≡ places_in config }
    ensures few { IfSome result (λ n. n ≤ MAX_SPARE) }
{
    if config.is_within_limits() {
        Some(config.spare as usize)
    } else {
        None
    }
}

impl<'a, R: Threads + Wait + Sync, G: Gate + Sync, C: Clock + Sync, V: StoreWatcher> Stress<
    'a,
    R,
    G,
    C,
    V,
> {
    // What calls give back that no session is refused.
    fn calls_run(
        &self,
        alloc: Global,
        catalogue: Catalogue,
        state: Option<&StoreState>,
        calls: &[ScriptCall<'_>],
    ) -> Result<Stressed, AllocError>
        requires opens { MayOpen self.now.config catalogue state }
        requires ready { All (IsReady catalogue) calls.now }
        ensures { IfOk result (IsRun self.now.config self.now.has_history catalogue (map called calls.now)) }
    {
        let Left { written, state } = self.tell_all(alloc, catalogue, state, calls)?;
        let WrittenCalls {
            transcript,
            history,
            counts,
        } = written;
        Ok(Stressed {
            reply: Reply {
                text: transcript,
                verdict: Verdict::Good,
            },
            history,
            state: Some(state),
            counts,
        })
    }

    // What a script gives back on a state, or on a new one.
    fn script_run(
        &self,
        alloc: Global,
        catalogue: Catalogue,
        state: Option<&StoreState>,
        script: &str,
    ) -> Result<Stressed, AllocError>
        requires opens { MayOpen self.now.config catalogue state }
        ensures { IfOk result (IsScriptRun self.now.config self.now.has_history catalogue (script_calls catalogue 1 (lines_of script.now))) }
    {
        match read_calls(alloc, &catalogue, script)? {
            ScriptCalls::Good(calls) => self.calls_run(alloc, catalogue, state, &calls),
            ScriptCalls::Bad(number) => Ok(Stressed::only(alloc, bad_line(alloc, number)?)),
        }
    }

    // What texts give back.
    fn texts_run(&self, alloc: Global, texts: Texts) -> Result<Stressed, AllocError>
        ensures { IfOk result (MayMake self.now (Some (texts_read texts))) }
    {
        let opened = open_texts(alloc, &texts, places_in(self.config), 0, self.watcher)?;
        let script = texts.into_file();
        match opened {
            Opened::On(catalogue, state) => {
                self.script_run(alloc, catalogue, state.as_ref(), script.as_str())
            }
            Opened::Refused(reply) => Ok(Stressed::only(alloc, reply)),
        }
    }

    // What is given back of what was read.
    fn make(&self, alloc: Global, read: Gathered) -> Result<Stressed, AllocError>
        ensures { IfOk result (MayMake self.now (texts_in read)) }
    {
        match read {
            Ok(texts) => self.texts_run(alloc, texts),
            Err(_) => Ok(Stressed::only(alloc, not_text(alloc)?)),
        }
    }

    /// Reads the texts of `stress`, and makes what it makes of them, as [`engine::prepare`] does of a command.
    ///
    /// # Errors
    ///
    /// Where a read fails, or memory runs out.
    pub fn prepare<F: Folder, S: Source + Drop>(
        &self,
        alloc: Global,
        inputs: &mut Inputs<'_, F, S>,
    ) -> Result<Stressed, ReadFault>
        // Where the readers and the folder tell their bytes, it is made of those.
        ensures known { IfGiven F.holds S.remaining inputs.old (λ g. IfOk result (MayMake self.now (read g))) }
        // The result says that a read failed only after one did, and all texts before that one are UTF-8.
        ensures failed { IfCannotRead result (FailedInTurn F.holds F.can_fail S.remaining S.has_failed inputs.old inputs.new) }
        // Whatever they give.
        ensures some { IfOk result (λ s. (t : Option TextsRead) × MayMake self.now t s) }
        // However it ends, a text is read only if all texts before it are UTF-8.
        ensures stops { IfGiven F.holds S.remaining inputs.old (StopsAtStranger inputs.old inputs.new) }
    {
        let read = gather(alloc, inputs)?;
        match self.make(alloc, read) {
            Ok(made) => Ok(made),
            Err(_) => Err(ReadFault::NoMemory),
        }
    }

    /// Does it: reads the texts, and writes what it answers to them. Says how it ended.
    ///
    /// Each text is read whole before anything is written. Where a read fails, nothing is written.
    pub fn perform<F: Folder, S: Source + Drop, W: Sink>(
        &self,
        alloc: Global,
        inputs: &mut Inputs<'_, F, S>,
        writer: &mut W,
    ) -> Status
        // Where the readers and the folder tell their bytes, what is written is what it answers to those.
        ensures written { IfGiven F.holds S.remaining inputs.old (ReportsRead (λ s. answer_of s.reply) (MayMake self.now) W.contents writer.old writer.new result) }
        // The status says that a read or a write failed only after one did, and of a read that all texts before that one are UTF-8.
        ensures failed { Failed result (FailedInTurn F.holds F.can_fail S.remaining S.has_failed inputs.old inputs.new) (W.has_failed writer.new) }
        // Whatever they give, or where they fail.
        ensures ended { Reports (λ s. answer_of s.reply) (λ s. (t : Option TextsRead) × MayMake self.now t s) (W.contents writer.old) (W.contents writer.new) result }
        // However it ends, a text is read only if all texts before it are UTF-8.
        ensures stops { IfGiven F.holds S.remaining inputs.old (StopsAtStranger inputs.old inputs.new) }
    {
        let made = self.prepare(alloc, inputs);
        report(writer, &made)
    }

    // Makes the texts that `stress` leaves, and says where each goes.
    fn prepare_left<F: Folder, S: Source + Drop>(
        &self,
        alloc: Global,
        to: Leaving,
        inputs: &mut Inputs<'_, F, S>,
    ) -> Result<LeftTexts, ReadFault>
        ensures known { IfGiven F.holds S.remaining inputs.old (λ g. IfOk result (MayLeave self.now to (read g))) }
        ensures failed { IfCannotRead result (FailedInTurn F.holds F.can_fail S.remaining S.has_failed inputs.old inputs.new) }
        ensures some { IfOk result (λ l. (t : Option TextsRead) × MayLeave self.now to t l) }
        ensures stops { IfGiven F.holds S.remaining inputs.old (StopsAtStranger inputs.old inputs.new) }
    {
        let stressed = self.prepare(alloc, inputs)?;
        match left_texts(alloc, to, stressed) {
            Ok(left) => Ok(left),
            Err(_) => Err(ReadFault::NoMemory),
        }
    }

    /// Does it, and hands back what it leaves besides its answer, where all of that was written. The times of the calls and the text of the
    /// state go where that is said, of a transcript: after it, the times first, or elsewhere.
    pub fn perform_kept<F: Folder, S: Source + Drop, W: Sink>(
        &self,
        alloc: Global,
        to: Leaving,
        inputs: &mut Inputs<'_, F, S>,
        writer: &mut W,
    ) -> Performed<LeftTexts>
        // Where the readers and the folder tell their bytes, it is made of those, and its answer is what was written.
        ensures written { IfGiven F.holds S.remaining inputs.old (PerformsRead answer_left (MayLeave self.now to) W.contents writer.old writer.new result) }
        // The status says that a read or a write failed only after one did, and of a read that all texts before that one are UTF-8.
        ensures failed { Failed result.status (FailedInTurn F.holds F.can_fail S.remaining S.has_failed inputs.old inputs.new) (W.has_failed writer.new) }
        // Whatever they give, or where they fail.
        ensures ended { Performs answer_left (λ l. (t : Option TextsRead) × MayLeave self.now to t l) (W.contents writer.old) (W.contents writer.new) result }
        // However it ends, a text is read only if all texts before it are UTF-8.
        ensures stops { IfGiven F.holds S.remaining inputs.old (StopsAtStranger inputs.old inputs.new) }
    {
        let made = self.prepare_left(alloc, to, inputs);
        hand_back(writer, made)
    }
}
