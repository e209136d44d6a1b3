// The lines of the transcript.

ghost use Rattle.std.specs.Prelude.{◌≡◌, ◌++◌, decimal, map, filter, length, slice_get, OnOk, IfOk};
ghost use Rattle.std.specs.Option.{option_map_or};
ghost use Rattle.loader.specs.Spelling.{mode_word};
ghost use Rattle.stress.specs.Lines.{rank, asked_text, call_text, is_ended, said_text, update_letter, transcript_text};
ghost use Rattle.stress.specs.Timed.{AreCounted, timed_text, is_updated, is_seen};
ghost use Rattle.stress.specs.Shown.{called, replied_text, said_of, told_of, timed_of};
ghost use Rattle.stress.specs.Playing.{IsWritten, history_if, history_text};

use crate::calls::{Asked, ScriptCall};
use crate::watching::{Counts, Noted, Spent};
use engine::texts::{put_number, put_numbered};
use loader::Catalogue;
use readpath::ReadAnswer;
use std::alloc::{AllocError, Global};
use store::Answer;
use verifier::Mode;

// What a session is told.
#[derive(Clone, Copy)]
pub(crate) enum Said {
    Updated(Answer),
    Seen(ReadAnswer),
    Ended,
}

// A call, what its session is told, and what was noted.
#[derive(Clone, Copy)]
pub(crate) struct AnsweredCall<'a> {
    pub call: &'a ScriptCall<'a>,
    pub said: Said,
    pub noted: Noted,
}

// What is written of the calls, and how many there are.
#[derive(Drop)]
pub(crate) struct WrittenCalls {
    pub transcript: Vec<u8>,
    pub history: Vec<u8>,
    pub counts: Counts,
}

// Where a line stands: an update at its index, a read behind the updates that it has seen and before the others, and what has ended
// behind all.
fn rank(said: Said) -> u128
    ensures { result ≡ rank (said_of said) }
{
    match said {
        Said::Updated(answer) => 2 * answer.index as u128 + 1,
        Said::Seen(answer) => 2 * answer.point as u128,
        Said::Ended => 1 << 65,
    }
}

// NAME of a program of the catalogue, or K of a place behind these.
fn put_key(out: &mut Vec<u8>, catalogue: &Catalogue, program: u16) -> Result<(), AllocError>
    ensures { OnOk result (out.new.items ≡ out.old.items ++ option_map_or (λ p. p.name) (slice_get catalogue.now.programs program) (decimal program)) }
{
    match catalogue.name(program) {
        Some(name) => out.extend_from_slice(name.as_bytes()),
        None => put_number(out, program as u64),
    }
}

// The word of a mode.
fn mode_word(mode: Mode) -> &'static [u8]
    ensures { result.now ≡ mode_word mode }
{
    match mode {
        Mode::Update => b"update",
        Mode::Read => b"read",
    }
}

// NAME or K, or of an install MODE ARGLEN.
fn put_asked(out: &mut Vec<u8>, catalogue: &Catalogue, asked: Asked) -> Result<(), AllocError>
    ensures { OnOk result (out.new.items ≡ out.old.items ++ asked_text catalogue.now asked) }
{
    match asked {
        Asked::Run { program, .. } => put_key(out, catalogue, program),
        Asked::Install { mode, arg_len } => {
            out.extend_from_slice(mode_word(mode))?;
            put_numbered(out, b" ", arg_len as u64)
        }
    }
}

// NAME or K, or of an install MODE ARGLEN, and then HEX.
fn put_call(out: &mut Vec<u8>, catalogue: &Catalogue, call: &ScriptCall) -> Result<(), AllocError>
    ensures { OnOk result (out.new.items ≡ out.old.items ++ call_text catalogue.now (called call.now)) }
{
    put_asked(out, catalogue, call.asked)?;
    out.extend_from_slice(b" ")?;
    out.extend_from_slice(call.digits.as_bytes())
}

// The call, and REPLY.
fn put_replied(
    out: &mut Vec<u8>,
    catalogue: &Catalogue,
    call: &ScriptCall,
    reply: u64,
) -> Result<(), AllocError>
    ensures { OnOk result (out.new.items ≡ out.old.items ++ replied_text catalogue.now (called call.now) reply) }
{
    out.extend_from_slice(b" ")?;
    put_call(out, catalogue, call)?;
    put_numbered(out, b" ", reply)?;
    out.extend_from_slice(b"\n")
}

// The letter of an update, and of an install.
fn update_letter(asked: Asked) -> &'static [u8]
    ensures { result.now ≡ update_letter asked }
{
    match asked {
        Asked::Run { .. } => b"u ",
        Asked::Install { .. } => b"i ",
    }
}

// The line of a call.
fn put_told(out: &mut Vec<u8>, catalogue: &Catalogue, told: &AnsweredCall) -> Result<(), AllocError>
    ensures { OnOk result (out.new.items ≡ out.old.items ++ said_text catalogue.now (called told.now.call.now) (said_of told.now.said)) }
{
    let call = told.call;
    match told.said {
        Said::Updated(Answer { index, reply }) => {
            put_numbered(out, update_letter(call.asked), index)?;
            put_replied(out, catalogue, call, reply)
        }
        Said::Seen(ReadAnswer { point, reply }) => {
            put_numbered(out, b"r ", point)?;
            put_replied(out, catalogue, call, reply)
        }
        Said::Ended => {
            out.extend_from_slice(b"e ")?;
            put_call(out, catalogue, call)?;
            out.extend_from_slice(b"\n")
        }
    }
}

// The lines of the calls.
fn transcript_text(
    alloc: Global,
    catalogue: &Catalogue,
    told: &[AnsweredCall<'_>],
) -> Result<Vec<u8>, AllocError>
    ensures { IfOk result (λ text. text.items ≡ transcript_text catalogue.now (map told_of told.now)) }
{
    let mut out = Vec::new(alloc);
    for one in told {
        put_told(&mut out, catalogue, one)?;
    }
    Ok(out)
}

// The line SESSION LINE BEGIN END of a call.
fn put_timed(out: &mut Vec<u8>, told: &AnsweredCall) -> Result<(), AllocError>
    ensures { OnOk result (out.new.items ≡ out.old.items ++ timed_text (timed_of told.now)) }
{
    let Noted {
        session,
        begun,
        ended,
        ..
    } = told.noted;
    put_number(out, session)?;
    put_numbered(out, b" ", told.call.line as u64)?;
    put_numbered(out, b" ", begun)?;
    put_numbered(out, b" ", ended)?;
    out.extend_from_slice(b"\n")
}

// The lines of a history.
fn history_text(alloc: Global, told: &[AnsweredCall<'_>]) -> Result<Vec<u8>, AllocError>
    ensures { IfOk result (λ text. text.items ≡ history_text (map timed_of told.now)) }
{
    let mut out = Vec::new(alloc);
    for one in told {
        put_timed(&mut out, one)?;
    }
    Ok(out)
}

// The history, if it is wanted.
fn history_if(alloc: Global, timed: bool, told: &[AnsweredCall<'_>]) -> Result<Vec<u8>, AllocError>
    ensures { IfOk result (λ text. text.items ≡ history_if timed (map timed_of told.now)) }
{
    if timed {
        history_text(alloc, told)
    } else {
        Ok(Vec::new(alloc))
    }
}

// How many of these calls were told an index.
fn updates_in(told: &[AnsweredCall<'_>]) -> u64
    ensures { result ≡ length (filter (λ t. is_updated (said_of t.said)) told.now) }
{
    let updates = told.iter().filter(|t| matches!(t.said, Said::Updated(_)));
    updates.count() as u64
}

// How many of them are reads.
fn reads_in(told: &[AnsweredCall<'_>]) -> u64
    ensures { result ≡ length (filter (λ t. is_seen (said_of t.said)) told.now) }
{
    let reads = told.iter().filter(|t| matches!(t.said, Said::Seen(_)));
    reads.count() as u64
}

// How many of them were told that the history has ended.
fn ended_in(told: &[AnsweredCall<'_>]) -> u64
    ensures { result ≡ length (filter (λ t. is_ended (said_of t.said)) told.now) }
{
    let ended = told.iter().filter(|t| matches!(t.said, Said::Ended));
    ended.count() as u64
}

// The longest wait of these calls, in nanoseconds.
fn longest_wait(told: &[AnsweredCall<'_>]) -> u64 {
    let mut longest = 0;
    for one in told {
        longest = one.noted.waited.max(longest);
    }
    longest
}

// How many calls these are, and what was spent on them.
fn counted(told: &[AnsweredCall<'_>], spent: Spent) -> Counts
    ensures { AreCounted (map told_of told.now) result }
{
    let Spent {
        nanoseconds,
        batches,
    } = spent;
    Counts {
        updates: updates_in(told),
        reads: reads_in(told),
        ended: ended_in(told),
        nanoseconds,
        longest_wait: longest_wait(told),
        batches,
    }
}

// What is written of the calls in the order of their indexes, those of one index in the order in which they come.
pub(crate) fn write_told(
    alloc: Global,
    catalogue: &Catalogue,
    timed: bool,
    mut told: Vec<AnsweredCall<'_>>,
    spent: Spent,
) -> Result<WrittenCalls, AllocError>
    ensures { IfOk result (IsWritten catalogue.now timed told.entry.items) }
{
    told.sort_by_key(|t| rank(t.said))?;
    Ok(WrittenCalls {
        transcript: transcript_text(alloc, catalogue, &told)?,
        history: history_if(alloc, timed, &told)?,
        counts: counted(&told, spent),
    })
}
