// The lines of a list of steps.

ghost use Rattle.std.specs.Prelude.{◌≡◌, ◌≤◌, length, option_map};
ghost use Rattle.scripts.specs.StepLine.{is_named_so, slot_at, call_at, install_at, node_step, step_meaning, step_line_meaning};
ghost use Rattle.scripts.specs.ScriptShown.{key_of, keyed_of, program_of, step_of};

use crate::script::{KeyedCall, ProgramKey, ProgramText, keyed_call, new_program};
use text::{LINE_BYTES, LineKind, kind_of, number, split_at_space};

/// A slot of a node.
#[derive(Clone, Copy)]
pub struct SlotAt {
    pub node: u64,
    pub slot: u64,
}

/// What a line says: a step of a call or of an install at a slot of a node, of such a slot, or of a node.
#[derive(Drop)]
pub enum StepLine<'a> {
    Comment,
    Post(SlotAt, KeyedCall<'a>),
    Install(SlotAt, ProgramText),
    ReadBegin(SlotAt, KeyedCall<'a>),
    Collect(SlotAt),
    ReadAnswer(SlotAt),
    Claim(u64),
    Append(u64),
    Replay(u64),
    Finish(u64),
    Reply(u64),
    Reclaim(u64),
    Rebase(u64),
}

// N S
#[tactic(auto, unfolding(crate::specs::StepLine::slot_at))]
fn slot_at(text: &str) -> Option<SlotAt>
    ensures { result ≡ slot_at text.now }
{
    let (node, slot) = split_at_space(text)?;
    let node = number(node)?;
    let slot = number(slot)?;
    Some(SlotAt { node, slot })
}

// Whether this names a program where so many have names: by its name, or by a number that is none of theirs.
fn is_named_so(programs: u64, key: ProgramKey<'_>) -> bool
    ensures { result ≡ is_named_so programs (key_of key.entry) }
{
    match key {
        ProgramKey::Named(_) => true,
        ProgramKey::Numbered(number) => programs <= number,
    }
}

// N S NAME HEX, or with K in the place of NAME
#[tactic(auto, unfolding(crate::specs::StepLine::call_at))]
fn call_at(programs: u64, text: &str) -> Option<(SlotAt, KeyedCall<'_>)>
    requires { length text.now ≤ LINE_BYTES }
    ensures { option_map (λ at. (at.0, keyed_of at.1)) result ≡ call_at programs text.now }
{
    let (node, rest) = split_at_space(text)?;
    let (slot, rest) = split_at_space(rest)?;
    let (name, digits) = split_at_space(rest)?;
    let node = number(node)?;
    let slot = number(slot)?;
    let call = keyed_call(name, digits)?;
    is_named_so(programs, call.key).then_some((SlotAt { node, slot }, call))
}

// N S MODE ARGLEN HEX
#[tactic(auto, unfolding(crate::specs::StepLine::install_at))]
fn install_at(text: &str) -> Option<(SlotAt, ProgramText)>
    requires { length text.now ≤ LINE_BYTES }
    ensures { option_map (λ at. (at.0, program_of at.1)) result ≡ install_at text.now }
{
    let (node, rest) = split_at_space(text)?;
    let (slot, rest) = split_at_space(rest)?;
    let node = number(node)?;
    let slot = number(slot)?;
    Some((SlotAt { node, slot }, new_program(rest)?))
}

// The step of a node that has this word.
fn node_step(word: &str, node: u64) -> Option<StepLine<'_>>
    ensures { option_map step_of result ≡ node_step word.now node }
{
    Some(match word {
        "claim" => StepLine::Claim(node),
        "append" => StepLine::Append(node),
        "replay" => StepLine::Replay(node),
        "finish" => StepLine::Finish(node),
        "reply" => StepLine::Reply(node),
        "reclaim" => StepLine::Reclaim(node),
        "rebase" => StepLine::Rebase(node),
        _ => return None,
    })
}

// The step that the words of a line say.
#[tactic(auto, unfolding(crate::specs::StepLine::step_meaning))]
fn step_words(programs: u64, line: &str) -> Option<StepLine<'_>>
    requires { length line.now ≤ LINE_BYTES }
    ensures { option_map step_of result ≡ step_meaning programs line.now }
{
    let (word, rest) = split_at_space(line)?;
    Some(match word {
        "post" => {
            let (at, call) = call_at(programs, rest)?;
            StepLine::Post(at, call)
        }
        "install" => {
            let (at, program) = install_at(rest)?;
            StepLine::Install(at, program)
        }
        "readbegin" => {
            let (at, call) = call_at(programs, rest)?;
            StepLine::ReadBegin(at, call)
        }
        "collect" => StepLine::Collect(slot_at(rest)?),
        "readanswer" => StepLine::ReadAnswer(slot_at(rest)?),
        _ => return node_step(word, number(rest)?),
    })
}

/// What a line says where so many programs have names; `None` where it is bad.
#[tactic(auto, unfolding(crate::specs::StepLine::step_line_meaning))]
pub fn read_step_line(programs: u64, line: &str) -> Option<StepLine<'_>>
    ensures { option_map step_of result ≡ step_line_meaning programs line.now }
{
    match kind_of(line) {
        LineKind::TooLong => None,
        LineKind::Comment => Some(StepLine::Comment),
        LineKind::Words => step_words(programs, line),
    }
}
