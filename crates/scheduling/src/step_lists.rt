// The command `schedule`: the steps that the lines of a list say are taken on a store, and answered.

ghost use Rattle.std.specs.Prelude.{◌≡◌, ◌++◌, Ok, IfOk, OnOk, MatchOption};
ghost use Rattle.engine.specs.Notes.{IsQuiet};
ghost use Rattle.engine.specs.Report.{answer_of};
ghost use Rattle.scripts.specs.ScriptShown.{key_of, step_of};
ghost use Rattle.scripts.specs.StepLine.{Comment};
ghost use Rattle.scheduling.specs.ScheduleAnswer.{end_text, number_keyed, schedule_answer, scheduled, step_text};
ghost use Rattle.scheduling.specs.Scheduling.{AnswersSteps, IsStepOf, TakesStepLine};

use crate::lanes::{Taken, reason_of, tell_step};
use combiner::Reply as Back;
use engine::texts::{put_numbered, put_pair};
use engine::{
    Command, Gathered, Loaded, Notes, Reply, StoreWatcher, Texts, Verdict, load_texts, not_text,
    sizes_refused,
};
use loader::Catalogue;
use oplog::{Config, OpenError};
use running::put_bad_line;
use schedule::{Step, StepAnswer, World};
use scripts::{ProgramKey, SlotAt, StepLine, read_step_line};
use std::alloc::{AllocError, Global};
use text::NumberedLines;

// A number that no store has a program or a place of.
const NO_NUMBER: u16 = u16::MAX;

// The number of the program that a line names: of the catalogue by its name, else one that no store has; or the number that it says.
fn number_keyed(catalogue: &Catalogue, key: ProgramKey<'_>) -> u64
    ensures { result ≡ number_keyed catalogue.now (key_of key.entry) }
{
    match key {
        ProgramKey::Named(name) => catalogue.number(name).unwrap_or(NO_NUMBER) as u64,
        ProgramKey::Numbered(number) => number,
    }
}

// The step that a line says; nothing for a comment.
fn step_of(
    alloc: Global,
    catalogue: &Catalogue,
    line: StepLine<'_>,
) -> Result<Option<Step>, AllocError>
    ensures { IfOk result (λ o. MatchOption o (step_of line.entry ≡ Comment) (IsStepOf catalogue.now (step_of line.entry))) }
{
    Ok(Some(match line {
        StepLine::Comment => return Ok(None),
        StepLine::Post(at, call) => Step::Post {
            node: at.node,
            slot: at.slot,
            program: number_keyed(catalogue, call.key),
            argument: call.argument.as_slice().to_vec(alloc)?,
        },
        StepLine::Install(at, program) => Step::Install {
            node: at.node,
            slot: at.slot,
            mode: program.mode,
            arg_len: program.arg_len,
            bytes: program.bytes.as_slice().to_vec(alloc)?,
        },
        StepLine::ReadBegin(at, call) => Step::ReadBegin {
            node: at.node,
            slot: at.slot,
            program: number_keyed(catalogue, call.key),
            argument: call.argument.as_slice().to_vec(alloc)?,
        },
        StepLine::Collect(SlotAt { node, slot }) => Step::Collect { node, slot },
        StepLine::ReadAnswer(SlotAt { node, slot }) => Step::ReadAnswer { node, slot },
        StepLine::Claim(node) => Step::Claim { node },
        StepLine::Append(node) => Step::Append { node },
        StepLine::Replay(node) => Step::Replay { node },
        StepLine::Finish(node) => Step::Finish { node },
        StepLine::Reply(node) => Step::Reply { node },
        StepLine::Reclaim(node) => Step::Reclaim { node },
        StepLine::Rebase(node) => Step::Rebase { node },
    }))
}

// The line of a step.
fn put_step(out: &mut Vec<u8>, answer: StepAnswer) -> Result<(), AllocError>
    ensures { OnOk result (out.new.items ≡ out.old.items ++ step_text answer) }
{
    match answer {
        StepAnswer::Done => out.extend_from_slice(b"ok\n"),
        StepAnswer::NotNow => out.extend_from_slice(b"notnow\n"),
        StepAnswer::Back(Back::Placed { index, reply }) => {
            put_pair(out, b"ok place ", index, b" reply ", reply)
        }
        StepAnswer::Back(Back::Ended) => out.extend_from_slice(b"ok ended\n"),
        StepAnswer::ReadBack(read) => {
            put_pair(out, b"ok point ", read.point, b" reply ", read.reply)
        }
    }
}

// The lines behind the last step: where the log and the replicas are.
fn put_end(out: &mut Vec<u8>, world: &World) -> Result<(), AllocError>
    ensures { OnOk result (out.new.items ≡ out.old.items ++ end_text world.now.world) }
{
    let log = world.log();
    put_numbered(out, b"log base ", log.base())?;
    put_pair(out, b" tail ", log.tail(), b" done ", log.done())?;
    for number in 0..world.config().nodes {
        let Some(replica) = world.replica(number) else {
            unreachable!();
        };
        put_pair(out, b"node ", number as u64, b" tail ", replica.tail())?;
    }
    Ok(())
}

// A store on which the steps of a list are taken, and what is answered to them.
#[derive(Drop)]
struct Stepping {
    world: World,
    text: Vec<u8>,
}

impl Stepping {
    // Takes the step that a line says, if it may be taken now, and tells whether the line is good.
    #[tactic(auto, unfolding(crate::specs::ScheduleAnswer::step_line_turn))]
    fn take_step(
        &mut self,
        alloc: Global,
        number: u32,
        line: &str,
        notes: &mut Notes,
    ) -> Result<bool, AllocError>
        ensures taken { IfOk result (λ good. TakesStepLine self.old.world line.now good self.new.world self.old.text.items self.new.text.items) }
        ensures quiet { IsQuiet notes.old notes.new }
    {
        let Stepping { world, text } = self;
        let programs = world.catalogue().len() as u64;
        let Some(line) = read_step_line(programs, line) else {
            return Ok(false);
        };
        let Some(step) = step_of(alloc, world.catalogue(), line)? else {
            return Ok(true);
        };
        let reason = reason_of(notes, world, &step);
        let answer = world.step(&step);
        put_step(text, answer)?;
        let taken = Taken {
            number,
            step: &step,
            answer,
            reason,
        };
        tell_step(notes, world, &taken)?;
        Ok(true)
    }

    // Takes the steps of a list up to the first bad line, or writes where the store is at the end, and tells whether
    // the list is good.
    #[tactic(auto, using(engine::proofs::Quiet::quiet_on))]
    fn take_lines(
        &mut self,
        alloc: Global,
        steps: &str,
        notes: &mut Notes,
    ) -> Result<Verdict, AllocError>
        ensures quiet { IsQuiet notes.old notes.new }
        ensures answered { AnswersSteps self.old.world steps.now self.old.text.items self.new.text.items result }
    {
        let mut lines = NumberedLines::new(steps);
        while let Some((number, line)) = lines.take_line() {
            let is_good = self.take_step(alloc, number, line, notes)?;
            if !is_good {
                put_bad_line(&mut self.text, number)?;
                return Ok(Verdict::Refused);
            }
        }
        put_end(&mut self.text, &self.world)?;
        Ok(Verdict::Good)
    }
}

/// Takes a list of steps, one after another, on a new store of these sizes with the maps and the programs of a manifest.
///
/// Answers for each step with `ok`, with the answer of a call that is answered, or with `notnow` where it may not be taken,
/// which changes nothing; behind the last step with where the log and each node's replica are. A line that is no step,
/// comment or empty line is answered by `line N bad` and ends it. Sizes out of their limits get `refused O1`, a refused
/// manifest only its refusal. The notes tell why a step may not be taken, where they are to tell that.
#[derive(Drop)]
pub struct Schedule<'w, V> {
    /// The sizes of the store.
    pub config: Config,
    /// What is told when the store opens.
    pub watcher: &'w V,
}

impl<V: StoreWatcher> Schedule<'_, V> {
    // What a catalogue answers to a list of steps, in a store of the command's sizes.
    fn catalogue_reply(
        &self,
        alloc: Global,
        catalogue: Catalogue,
        steps: &str,
        notes: &mut Notes,
    ) -> Result<Reply, AllocError>
        ensures quiet { IsQuiet notes.old notes.new }
        ensures answered { IfOk result (λ r. answer_of r ≡ scheduled self.now.config (Ok catalogue) steps.now) }
    {
        self.watcher.opens();
        let opened = World::open(alloc, self.config, catalogue);
        self.watcher.opened();
        match opened {
            Ok(world) => {
                let text = Vec::new(alloc);
                let mut stepping = Stepping { world, text };
                let verdict = stepping.take_lines(alloc, steps, notes)?;
                let Stepping { text, .. } = stepping;
                Ok(Reply { text, verdict })
            }
            Err(OpenError::OutOfLimits) => sizes_refused(alloc),
            Err(OpenError::NoMemory) => Err(AllocError),
            Err(OpenError::OtherState) => unreachable!(),
        }
    }
}

impl<V: StoreWatcher> Command for Schedule<'_, V> {
    type Made = Reply;

    ghost may_make = { λ c t r. answer_of r ≡ schedule_answer c.config t };

    fn make(&self, alloc: Global, read: Gathered, notes: &mut Notes) -> Result<Reply, AllocError> {
        let Ok(texts) = read else {
            return not_text(alloc);
        };
        match load_texts(alloc, &texts)? {
            Loaded::Catalogue(catalogue) => {
                self.catalogue_reply(alloc, catalogue, texts.file.as_str(), notes)
            }
            Loaded::Refused(reply) => Ok(reply),
        }
    }
}
