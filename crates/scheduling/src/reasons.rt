// Texts with gaps, and in these why a step may not be taken now. They are data: an arm of a wide match says one and writes
// nothing, and one function writes them all.

use engine::texts::{put_number, put_numbered};
use loader::{Catalogue, most_argument, most_bytes};
use replica::StoreRefused;
use schedule::{Blocked, Step};
use std::alloc::AllocError;

// A text about a step: in its gaps `{0}` and so on stand the numbers, in `{node}`, `{slot}` and `{program}` what the step names.
#[derive(Clone, Copy)]
pub(crate) struct Sentence {
    text: &'static str,
    numbers: [u64; 4],
}

// A text, and the numbers for its gaps, of which there are four at most.
pub(crate) fn say(text: &'static str, numbers: &[u64]) -> Sentence {
    let mut all = [0; 4];
    for k in 0..4 {
        if k < numbers.len() {
            all[k] = numbers[k];
        }
    }
    Sentence { text, numbers: all }
}

// The slot that a step names; 0 where it names none.
fn slot_of(step: &Step) -> u64 {
    match step {
        Step::Post { slot, .. }
        | Step::Install { slot, .. }
        | Step::Collect { slot, .. }
        | Step::ReadBegin { slot, .. }
        | Step::ReadAnswer { slot, .. } => *slot,
        _ => 0,
    }
}

// The number of the program that a step calls, or of a place; 0 where it calls none.
fn program_of(step: &Step) -> u64 {
    match step {
        Step::Post { program, .. } | Step::ReadBegin { program, .. } => *program,
        _ => 0,
    }
}

// `program_of`, as the catalogue numbers programs. A number that is too large is of no program.
fn catalogue_number(step: &Step) -> u16 {
    u16::try_from(program_of(step)).unwrap_or(u16::MAX)
}

// The name of the program that a step calls, or the number of its place.
fn put_program(out: &mut Vec<u8>, catalogue: &Catalogue, step: &Step) -> Result<(), AllocError> {
    match catalogue.name(catalogue_number(step)) {
        Some(name) => out.extend_from_slice(name.as_bytes()),
        None => put_numbered(out, b"program ", program_of(step)),
    }
}

impl Sentence {
    // Adds the text, which is about this step.
    pub(crate) fn put(
        &self,
        out: &mut Vec<u8>,
        catalogue: &Catalogue,
        step: &Step,
    ) -> Result<(), AllocError> {
        for part in self.text.split('{') {
            let (gap, rest) = part.split_once('}').unwrap_or(("", part));
            let index = gap.parse::<usize>().unwrap_or(usize::MAX);
            match (gap, self.numbers.get(index)) {
                ("node", _) => put_number(out, step.node())?,
                ("slot", _) => put_number(out, slot_of(step))?,
                ("program", _) => put_program(out, catalogue, step)?,
                (_, Some(number)) => put_number(out, *number)?,
                (_, None) => {}
            }
            out.extend_from_slice(rest.as_bytes())?;
        }
        Ok(())
    }
}

// Why the call or the install of a step is refused.
fn refused_text(catalogue: &Catalogue, step: &Step, refused: StoreRefused) -> Sentence {
    let (length, arg_len) = match step {
        Step::Post { argument, .. } | Step::ReadBegin { argument, .. } => (argument.len(), 0),
        Step::Install { arg_len, bytes, .. } => (bytes.len(), *arg_len),
        _ => (0, 0),
    };
    match refused {
        StoreRefused::ArgumentLength => {
            let (text, wanted) = match catalogue.program(catalogue_number(step)) {
                Some(accepted) => ("{program} takes {0} bytes, not {1}", accepted.arg_len()),
                None => (
                    "{program} takes at most {0} bytes, not {1}",
                    most_argument(catalogue.long()),
                ),
            };
            say(text, &[wanted as u64, length as u64])
        }
        StoreRefused::WrongMode => match step {
            Step::Post { .. } => say("{program} is a read: readbegin", &[]),
            _ => say("{program} is an update: post", &[]),
        },
        StoreRefused::NotDecoded(at) => say(
            "the bytes are no program, D{0} slot {1}",
            &[at.why.number() as u64, at.slot as u64],
        ),
        StoreRefused::NotAccepted(at) => say(
            "the program is not safe, V{0} slot {1}",
            &[at.why.number() as u64, at.slot as u64],
        ),
        StoreRefused::TooLarge => {
            let most = most_bytes(catalogue.long()) as u64;
            let most_argument = most_argument(catalogue.long()) as u64;
            say(
                "a program of {0} bytes, at most {1}, and its argument {2}, at most {3}",
                &[length as u64, most, arg_len, most_argument],
            )
        }
        _ => say("no such program, and no such place", &[]),
    }
}

// The number of the last of so many.
fn last(count: u64) -> u64 {
    count.saturating_sub(1)
}

// Why this step may not be taken now, and where there is one the step that helps.
fn reason_text(catalogue: &Catalogue, step: &Step, why: Blocked) -> Sentence {
    use Blocked::*;
    match why {
        Refused(refused) => refused_text(catalogue, step, refused),
        NoNode { nodes } => say("node {node} is not there: 0 to {0}", &[last(nodes)]),
        NoSlot { slots } => say("slot {slot} is not there: 0 to {0}", &[last(slots)]),
        HasRequest => say(
            "slot {slot} has a request or an answer: collect {node} {slot}",
            &[],
        ),
        HasRead => say("slot {slot} has a read: readanswer {node} {slot}", &[]),
        NoAnswer => say("slot {slot} has no answer: reply {node}", &[]),
        NoRead => say("slot {slot} has no read: readbegin", &[]),
        HasBatch => say("node {node} has a batch: reply {node}", &[]),
        NothingPosted => say("node {node} has no request: post", &[]),
        NoBatch => say("node {node} has no batch: claim {node}", &[]),
        BatchInLog => say("the batch of node {node} is in the log: reply {node}", &[]),
        BatchNotInLog => say(
            "the batch of node {node} is not in the log: append {node}",
            &[],
        ),
        BelowBase { tail, base } => say("tail {0} < base {1}: rebase {node}", &[tail, base]),
        NoRoom { records: 1, room } => say("1 record, room for {0}: reclaim", &[room]),
        NoRoom { records, room } => say("{0} records, room for {1}: reclaim", &[records, room]),
        NothingToReplay { tail } => say("tail {0} = log {0}: nothing to replay", &[tail]),
        NothingToFinish { tail, done } => say(
            "tail {0} <= done {1}: nothing to finish",
            &[tail, done],
        ),
        HandNotEmpty { records: 1 } => say("1 record in the hand: replay {node}", &[]),
        HandNotEmpty { records } => say("{0} records in the hand: replay {node}", &[records]),
        NotCompleted { tail, done } => say("tail {0} > done {1}: finish {node}", &[tail, done]),
        BehindRead { tail, noted } => say("tail {0} < noted {1}: replay {node}", &[tail, noted]),
        NotPastBase { tail, base } => say(
            "tail {0} <= base {1}: nothing to reclaim",
            &[tail, base],
        ),
        NotBelowBase { tail, base } => say(
            "tail {0} >= base {1}: nothing to rebase",
            &[tail, base],
        ),
    }
}

// Writes that reason, behind its number where the call or the install is refused.
pub(crate) fn put_reason(
    out: &mut Vec<u8>,
    catalogue: &Catalogue,
    step: &Step,
    why: Blocked,
) -> Result<(), AllocError> {
    if let Blocked::Refused(refused) = why {
        put_numbered(out, b"S", refused.number() as u64)?;
        out.extend_from_slice(b": ")?;
    }
    reason_text(catalogue, step, why).put(out, catalogue, step)
}
