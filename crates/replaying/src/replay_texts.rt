// What `replay` writes.

ghost use Rattle.std.specs.Prelude.{◌≡◌, ◌++◌, OnOk};
ghost use Rattle.engine.specs.Notes.{IsQuiet};
ghost use Rattle.replaying.specs.Noted.{Explains, due_text, place_text, reply_text};
ghost use Rattle.replaying.specs.ReplayAnswer.{differing_line, good_text};
ghost use Rattle.replaying.specs.Replaying.{ended_note, ended_text};

use crate::lines::{Due, ReplayEnd, Replaying};
use engine::texts::{put_numbered, put_pair};
use engine::{Notes, Telling};
use oplog::MAX_LIMIT;
use running::put_bad_line;
use std::alloc::AllocError;
use verifier::Mode;

// The numbers of updates, of reads, and of updates after the history's end.
fn put_good(out: &mut Vec<u8>, updates: u64, reads: u64, ended: u64) -> Result<(), AllocError>
    ensures { OnOk result (out.new.items ≡ out.old.items ++ good_text updates reads ended) }
{
    put_numbered(out, b"good ", updates)?;
    put_numbered(out, b" ", reads)?;
    put_numbered(out, b" ", ended)?;
    out.extend_from_slice(b"\n")
}

// The line of this number tells something else.
fn put_differs(out: &mut Vec<u8>, number: u32) -> Result<(), AllocError>
    ensures { OnOk result (out.new.items ≡ out.old.items ++ (differing_line number).text) }
{
    put_numbered(out, b"line ", number as u64)?;
    out.extend_from_slice(b" differs\n")
}

// How a replay ended.
pub(crate) fn put_end(
    out: &mut Vec<u8>,
    end: ReplayEnd,
    replaying: &Replaying,
) -> Result<(), AllocError>
    ensures { OnOk result (out.new.items ≡ out.old.items ++ ended_text end replaying.now) }
{
    match end {
        ReplayEnd::Agrees => put_good(out, replaying.node.tail(), replaying.reads, replaying.ended),
        ReplayEnd::Bad(number) => put_bad_line(out, number),
        ReplayEnd::Differs(number, _) => put_differs(out, number),
    }
}

// An update's index or a read's point, and its reply there.
fn put_place(out: &mut Vec<u8>, mode: Mode, place: u64, reply: u64) -> Result<(), AllocError>
    ensures { OnOk result (out.new.items ≡ out.old.items ++ place_text mode place reply) }
{
    match mode {
        Mode::Update => put_pair(out, b"index ", place, b" reply ", reply),
        Mode::Read => put_pair(out, b"point ", place, b" reply ", reply),
    }
}

// What a line should tell; of one without a reply, that the history has all its updates.
fn put_reply(
    out: &mut Vec<u8>,
    mode: Mode,
    place: u64,
    reply: Option<u64>,
) -> Result<(), AllocError>
    ensures { OnOk result (out.new.items ≡ out.old.items ++ reply_text mode place reply) }
{
    match reply {
        Some(reply) => {
            out.extend_from_slice(b": differs: should be ")?;
            put_place(out, mode, place, reply)
        }
        None => {
            put_numbered(out, b": differs: the history has its ", MAX_LIMIT as u64)?;
            out.extend_from_slice(b" updates\n")
        }
    }
}

// What the line of this number should tell.
fn put_due(out: &mut Vec<u8>, number: u32, due: Due) -> Result<(), AllocError>
    ensures { OnOk result (out.new.items ≡ out.old.items ++ due_text number due) }
{
    put_numbered(out, b"line ", number as u64)?;
    put_reply(out, due.mode, due.place, due.reply)
}

// Tells of the line at which a replay ended what it should tell, where it tells something else.
pub(crate) fn tell_end(notes: &mut Notes, end: ReplayEnd) -> Result<(), AllocError>
    ensures quiet { IsQuiet notes.old notes.new }
    ensures told { OnOk result (Explains notes.old notes.new (ended_note end)) }
{
    match (notes.telling, end) {
        (Telling::Reasons, ReplayEnd::Differs(number, due)) => {
            put_due(&mut notes.text, number, due)
        }
        _ => Ok(()),
    }
}
