// What `run` writes.

ghost use Rattle.std.specs.Prelude.{◌≡◌, ◌≤◌, ◌+◌, ◌++◌, length, drop, decimal, IfOk, OnOk};
ghost use Rattle.engine.specs.Report.{answer_of};
ghost use Rattle.running.specs.RunAnswer.{bad_line, outcome_text, update_text, read_text, install_text, reason_text, refused_text};

use engine::texts::{put_decode, put_numbered, put_pair, put_verify};
use engine::{Reply, Verdict};
use itoa::write_digits;
use machine::Outcome;
use replica::StoreRefused;
use std::alloc::{AllocError, Global};

// How many bytes an outcome's line has at most: its words, and three numbers of 20 digits.
const OUTCOME_BYTES: usize = 88;

// Writes a text so that it ends at `end`, and returns where it starts.
#[inline(always)]
fn write_text(text: &[u8], room: &mut [u8; OUTCOME_BYTES], end: usize) -> usize
    requires { (length text.now ≤ end) × (end ≤ OUTCOME_BYTES) }
    ensures start { result + length text.now ≡ end }
    ensures written { drop result room.new ≡ text.now ++ drop end room.old }
{
    let start = end - text.len();
    room[start..end].copy_from_slice(text);
    start
}

// Writes a number in decimal so that it ends at `end`, and returns where it starts.
#[inline(always)]
fn write_number(n: u64, room: &mut [u8; OUTCOME_BYTES], end: usize) -> usize
    requires { (20 ≤ end) × (end ≤ OUTCOME_BYTES) }
    ensures start { (result ≤ end) × (end ≤ result + 20) }
    ensures written { drop result room.new ≡ decimal n ++ drop end room.old }
{
    write_digits(n, room, end)
}

// An index in the history, and what a program answered there, so that it ends with the room. Returns where it starts.
#[inline(always)]
fn write_outcome(room: &mut [u8; OUTCOME_BYTES], index: u64, outcome: Outcome) -> usize
    ensures start { 7 ≤ result }
    ensures written { drop result room.new ≡ outcome_text index outcome.reply outcome.steps }
{
    let end = write_text(b"\n", room, OUTCOME_BYTES);
    let end = write_number(outcome.steps as u64, room, end);
    let end = write_text(b" steps ", room, end);
    let end = write_number(outcome.reply, room, end);
    let end = write_text(b" reply ", room, end);
    write_number(index, room, end)
}

// The line of an update: its index in the history. It is put together from its end on, and then written at once.
pub(crate) fn put_update(out: &mut Vec<u8>, index: u64, outcome: Outcome) -> Result<(), AllocError>
    ensures { OnOk result (out.new.items ≡ out.old.items ++ update_text index outcome.reply outcome.steps) }
{
    let mut room = [0; OUTCOME_BYTES];
    let end = write_outcome(&mut room, index, outcome);
    let start = write_text(b"update ", &mut room, end);
    out.extend_from_slice(&room[start..])
}

// The line of a read: the number of updates before it.
pub(crate) fn put_read(out: &mut Vec<u8>, point: u64, outcome: Outcome) -> Result<(), AllocError>
    ensures { OnOk result (out.new.items ≡ out.old.items ++ read_text point outcome.reply outcome.steps) }
{
    let mut room = [0; OUTCOME_BYTES];
    let end = write_outcome(&mut room, point, outcome);
    let start = write_text(b"read ", &mut room, end);
    out.extend_from_slice(&room[start..])
}

// The line of an install: its index in the history, and its program's number.
pub(crate) fn put_install(out: &mut Vec<u8>, index: u64, outcome: Outcome) -> Result<(), AllocError>
    ensures { OnOk result (out.new.items ≡ out.old.items ++ install_text index outcome.reply) }
{
    put_pair(out, b"install ", index, b" reply ", outcome.reply)
}

// What a program breaks that is to be installed.
fn put_reason(out: &mut Vec<u8>, refused: StoreRefused) -> Result<(), AllocError>
    ensures { OnOk result (out.new.items ≡ out.old.items ++ reason_text refused) }
{
    match refused {
        StoreRefused::NotDecoded(refusal) => put_decode(out, refusal),
        StoreRefused::NotAccepted(refusal) => put_verify(out, refusal),
        _ => Ok(()),
    }
}

// The line of a call or an install that is refused for this reason.
pub(crate) fn put_refused(out: &mut Vec<u8>, refused: StoreRefused) -> Result<(), AllocError>
    ensures { OnOk result (out.new.items ≡ out.old.items ++ refused_text refused) }
{
    put_numbered(out, b"refused S", refused.number() as u64)?;
    put_reason(out, refused)?;
    out.extend_from_slice(b"\n")
}

/// The line behind which nothing is run.
pub fn put_bad_line(out: &mut Vec<u8>, number: u32) -> Result<(), AllocError>
    ensures { OnOk result (out.new.items ≡ out.old.items ++ (bad_line number).text) }
{
    put_numbered(out, b"line ", number as u64)?;
    out.extend_from_slice(b" bad\n")
}

/// What is answered where the line of this number is bad.
pub fn bad_line(alloc: Global, number: u32) -> Result<Reply, AllocError>
    ensures { IfOk result (λ r. answer_of r ≡ bad_line number) }
{
    let mut text = Vec::new(alloc);
    put_bad_line(&mut text, number)?;
    let verdict = Verdict::Refused;
    Ok(Reply { text, verdict })
}
