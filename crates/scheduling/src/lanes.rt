// What is told of steps beside the answer: why one may not be taken, or a picture of them, with a lane for each node, the log
// beside them, and a line for each step.

ghost use Rattle.std.specs.Prelude.{◌≡◌};
ghost use Rattle.engine.specs.Notes.{IsQuiet};

use crate::reasons::{Sentence, put_reason, say};
use combiner::Reply;
use engine::texts::{put_number, put_numbered};
use engine::{Notes, Telling};
use oplog::LogState;
use replica::Replica;
use schedule::{Blocked, Step, StepAnswer, World};
use std::alloc::AllocError;

// A step that a line says, what it was answered, and why it may not be taken now, where it may not.
#[derive(Clone, Copy)]
pub(crate) struct Taken<'a> {
    // The number of the line.
    pub number: u32,
    pub step: &'a Step,
    pub answer: StepAnswer,
    pub reason: Option<Blocked>,
}

// Where the first lane begins, behind the number of the line.
const FIRST_LANE: usize = 5;

// How wide a lane is, where there are few of them and where there are many.
const WIDE: usize = 22;

const NARROW: usize = 14;

const FEW_NODES: u32 = 4;

// How many records the log shows at most.
const MAX_SHOWN: u64 = 24;

// Spaces up to the lane of this number in the line that begins there, at least one; behind the last lane stands the log.
fn pad_to(out: &mut Vec<u8>, start: usize, nodes: u32, lane: u32) -> Result<(), AllocError> {
    let width = if nodes <= FEW_NODES { WIDE } else { NARROW };
    let column = FIRST_LANE + width * lane as usize;
    let end = start.saturating_add(column);
    out.resize(end.max(out.len().saturating_add(1)), b' ')
}

// The line above the lanes.
fn put_lane_names(out: &mut Vec<u8>, nodes: u32) -> Result<(), AllocError> {
    out.extend_from_slice(b"   #")?;
    for number in 0..nodes {
        pad_to(out, 0, nodes, number)?;
        put_numbered(out, b"node ", number as u64)?;
    }
    pad_to(out, 0, nodes, nodes)?;
    out.extend_from_slice(b"log\n")
}

// Where the log's base, its completed operations and its tail are, and a sign for each record that it keeps: whether it is completed.
fn put_kept(out: &mut Vec<u8>, log: &LogState) -> Result<(), AllocError> {
    let (base, done, tail) = (log.base(), log.done(), log.tail());
    put_number(out, base)?;
    put_numbered(out, b"|", done)?;
    put_numbered(out, b"|", tail)?;
    out.extend_from_slice(b" [")?;
    let shown = tail.min(base.saturating_add(MAX_SHOWN));
    for record in base..shown {
        out.push(if record < done { b'#' } else { b'-' })?;
    }
    let end = if shown < tail { "..]\n" } else { "]\n" };
    out.extend_from_slice(end.as_bytes())
}

// How many records a node has copied and not applied: these keep its batch from being answered.
fn hand_of(world: &mut World, node: u64) -> u64
    ensures same { world.new ≡ world.old }
{
    match world.blocked(&Step::Reply { node }) {
        Some(Blocked::HandNotEmpty { records }) => records,
        _ => 0,
    }
}

// How many operations the replica of a node has applied.
fn tail_at(world: &World, node: u64) -> u64 {
    let node = u32::try_from(node).unwrap_or(u32::MAX);
    world.replica(node).map_or(0, Replica::tail)
}

// What a step did that was taken and answers no call.
fn taken_text(world: &mut World, step: &Step) -> Sentence
    ensures same { world.new ≡ world.old }
{
    match step {
        Step::Post { .. } => say("{slot}: {program}?", &[]),
        Step::ReadBegin { .. } => say("{slot}: {program}? noted {0}", &[world.log().done()]),
        Step::Install { .. } => say("{slot}: install?", &[]),
        Step::Claim { .. } => say("claim", &[]),
        Step::Append { node } => say("append, hand {0}", &[hand_of(world, *node)]),
        Step::Replay { node } => say("replay, tail {0}", &[tail_at(world, *node)]),
        Step::Finish { .. } => say("finish, done {0}", &[world.log().done()]),
        Step::Reply { .. } => say("reply", &[]),
        Step::Reclaim { .. } => say("reclaim, base {0}", &[world.log().base()]),
        Step::Rebase { node } => say("rebase, tail {0}", &[tail_at(world, *node)]),
        Step::Collect { .. } | Step::ReadAnswer { .. } => say("", &[]),
    }
}

// What a step answered.
fn answer_text(world: &mut World, step: &Step, answer: StepAnswer) -> Sentence
    ensures same { world.new ≡ world.old }
{
    match answer {
        StepAnswer::Done => taken_text(world, step),
        StepAnswer::NotNow => say("", &[]),
        StepAnswer::Back(Reply::Placed { index, reply }) => say(
            "{slot}: place {0} reply {1}",
            &[index, reply],
        ),
        StepAnswer::Back(Reply::Ended) => say("{slot}: ended", &[]),
        StepAnswer::ReadBack(read) => say("{slot}: point {0} reply {1}", &[read.point, read.reply]),
    }
}

// The line of a step: in its node's lane what it did or why it may not be taken, and where the log is behind it.
fn put_lane(out: &mut Vec<u8>, world: &mut World, taken: &Taken<'_>) -> Result<(), AllocError>
    ensures same { world.new ≡ world.old }
{
    let nodes = world.config().nodes;
    let node = taken.step.node();
    let lane = if node < nodes as u64 { node as u32 } else { 0 };
    let start = out.len();
    for least in [10, 100, 1000] {
        if taken.number < least {
            out.push(b' ')?;
        }
    }
    put_number(out, taken.number as u64)?;
    pad_to(out, start, nodes, lane)?;
    match taken.reason {
        Some(why) => {
            out.extend_from_slice(b"x ")?;
            put_reason(out, world.catalogue(), taken.step, why)?;
        }
        None => {
            let told = answer_text(world, taken.step, taken.answer);
            told.put(out, world.catalogue(), taken.step)?;
        }
    }
    pad_to(out, start, nodes, nodes)?;
    put_kept(out, world.log())
}

// Why this step may not be taken now, if it may not, where something is to be told.
pub(crate) fn reason_of(notes: &Notes, world: &mut World, step: &Step) -> Option<Blocked>
    ensures same { world.new ≡ world.old }
{
    match notes.telling {
        Telling::Nothing => None,
        Telling::Reasons | Telling::Lanes => world.blocked(step),
    }
}

// Tells of a step that was answered.
pub(crate) fn tell_step(
    notes: &mut Notes,
    world: &mut World,
    taken: &Taken<'_>,
) -> Result<(), AllocError>
    ensures same { world.new ≡ world.old }
    ensures quiet { IsQuiet notes.old notes.new }
{
    let out = &mut notes.text;
    match (notes.telling, taken.reason) {
        (Telling::Reasons, Some(why)) => {
            put_numbered(out, b"line ", taken.number as u64)?;
            out.extend_from_slice(b": notnow: ")?;
            put_reason(out, world.catalogue(), taken.step, why)?;
            out.extend_from_slice(b"\n")
        }
        (Telling::Lanes, _) => {
            if out.is_empty() {
                put_lane_names(out, world.config().nodes)?;
            }
            put_lane(out, world, taken)
        }
        _ => Ok(()),
    }
}
