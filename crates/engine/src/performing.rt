// The engine of all commands: reads all, makes an answer, writes it.

ghost use Rattle.std.specs.Prelude.{◌≡◌, ◌≢◌, ◌⊎◌, ⊤, Option, Err, IfOk, IfSome};
ghost use Rattle.engine.specs.declared.replies.Notes.{Notes};
ghost use Rattle.engine.specs.declared.replies.Status.TheVariants as statuses;
ghost use Rattle.engine.specs.declared.transfer.ReadFault.TheVariants as faults;
ghost use Rattle.engine.specs.Notes.{IsQuiet};
ghost use Rattle.engine.specs.ReadFaults.{IfCannotRead};
ghost use Rattle.engine.specs.Reading.{FailedInTurn, IfGiven, StopsAtStranger, TextsRead, read, texts_in};
ghost use Rattle.engine.specs.Report.{Failed, Sends, whole_text};
ghost use Rattle.engine.specs.Engine.{IfAnswered, Performs, PerformsNoting, PerformsRead, Reports, ReportsNoting, ReportsRead, Writes, handed_back};

use crate::reading::{Folder, Gathered, Inputs, gather};
use crate::replies::{AnswerText, Answering, Notes, Status, status_of};
use crate::texts::no_memory;
use crate::transfer::{ReadFault, Sink, Source};
use dumps::Pieces;
use std::alloc::{AllocError, Global};

// How many bytes of a state's text are written at once. A line has room in them.
const PIECE_BYTES: usize = 40_960;

/// A command: what it makes of all that was read.
pub trait Command {
    /// What the command makes: an answer, and what else the command leaves.
    type Made: Drop;

    // What the command may make of these texts; of none, if one of them is not UTF-8.
    ghost may_make: { Self → Option TextsRead → Self.Made → Type 0 };

    // What it may tell beside its answer to these texts: the notes before and after. Where a command doesn't say, anything.
    ghost may_tell: { Self → Option TextsRead → Notes → Notes → Type 0 } = { λ _ _ _ _. ⊤ };

    /// Makes it of what was read: of all texts, or of the first that is not UTF-8.
    fn make(
        &self,
        alloc: Global,
        read: Gathered,
        notes: &mut Notes,
    ) -> Result<Self::Made, AllocError>
        ensures made { IfOk result (may_make self.now (texts_in read)) }
        ensures told { IfOk result (λ _. may_tell self.now (texts_in read) notes.old notes.new) }
        ensures quiet { IsQuiet notes.old notes.new };
}

/// Reads the texts of a command, and makes what it makes of them.
///
/// The manifest is read first, then the files that it names, the file that the command is about, the state and the
/// history. Where one of them is not UTF-8, nothing is read behind it.
///
/// # Errors
///
/// Where a read fails, or memory runs out.
pub fn prepare<C: Command, F: Folder, R: Source + Drop>(
    alloc: Global,
    command: &C,
    inputs: &mut Inputs<'_, F, R>,
    notes: &mut Notes,
) -> Result<C::Made, ReadFault>
    // Where the readers and the folder tell their bytes, it is made of those.
    ensures known { IfGiven F.holds R.remaining inputs.old (λ g. IfOk result (C.may_make command.now (read g))) }
    // What is told beside it is of those too.
    ensures told { IfGiven F.holds R.remaining inputs.old (λ g. IfOk result (λ _. C.may_tell command.now (read g) notes.old notes.new)) }
    // The result says that a read failed only after one did, and all texts before that one are UTF-8.
    ensures failed { IfCannotRead result (FailedInTurn F.holds F.can_fail R.remaining R.has_failed inputs.old inputs.new) }
    // Whatever they give.
    ensures some { IfOk result (λ m. (t : Option TextsRead) × C.may_make command.now t m) }
    // What is told beside it is of the same texts.
    ensures noted { IfOk result (λ m. (t : Option TextsRead) × C.may_make command.now t m × C.may_tell command.now t notes.old notes.new) }
    // However it ends, a text is read only if all texts before it are UTF-8.
    ensures stops { IfGiven F.holds R.remaining inputs.old (StopsAtStranger inputs.old inputs.new) }
    // Where nothing is to be told beside the answer, nothing is.
    ensures quiet { IsQuiet notes.old notes.new }
{
    let read = gather(alloc, inputs)?;
    match command.make(alloc, read, notes) {
        Ok(made) => Ok(made),
        Err(_) => Err(ReadFault::NoMemory),
    }
}

/// Writes a text, and ends so, or as one that cannot write.
pub fn write_text<W: Sink>(writer: &mut W, text: &[u8], status: Status) -> Status
    ensures sent { Sends (W.contents writer.old) (W.contents writer.new) result text.now status }
    ensures failed { (result ≡ status) ⊎ ((result ≡ statuses.CannotWrite) × W.has_failed writer.new) }
    ensures spared { result ≢ statuses.CannotWrite → W.has_failed writer.new → W.has_failed writer.old }
{
    match writer.send(text) {
        Ok(()) => status,
        Err(_) => Status::CannotWrite,
    }
}

// Writes what is left of the text of a state piece by piece, and ends so, or as one that cannot write.
fn write_pieces<W: Sink>(writer: &mut W, mut pieces: Pieces<'_>, status: Status) -> Status
    ensures sent { Sends (W.contents writer.old) (W.contents writer.new) result pieces.entry status }
    ensures failed { (result ≡ status) ⊎ ((result ≡ statuses.CannotWrite) × W.has_failed writer.new) }
    ensures spared { result ≢ statuses.CannotWrite → W.has_failed writer.new → W.has_failed writer.old }
{
    let mut room = [0u8; PIECE_BYTES];
    loop {
        let count = pieces.read(&mut room);
        if count == 0 {
            return status;
        }
        match writer.send(&room[..count]) {
            Ok(()) => {}
            Err(_) => return Status::CannotWrite,
        }
    }
}

// Writes the text of an answer, and ends so, or as one that cannot write.
fn write_answer<W: Sink>(writer: &mut W, text: AnswerText<'_>, status: Status) -> Status
    ensures sent { Sends (W.contents writer.old) (W.contents writer.new) result (whole_text text.entry) status }
    ensures failed { (result ≡ status) ⊎ ((result ≡ statuses.CannotWrite) × W.has_failed writer.new) }
    ensures spared { result ≢ statuses.CannotWrite → W.has_failed writer.new → W.has_failed writer.old }
{
    let Some(state) = text.state else {
        return write_text(writer, text.bytes, status);
    };
    match writer.send(text.bytes) {
        Ok(()) => write_pieces(writer, state.pieces(), status),
        Err(_) => Status::CannotWrite,
    }
}

/// Writes the answer of what was made, whole, after all is read. Says how the command ended.
pub fn report<M: Answering, W: Sink>(writer: &mut W, made: &Result<M, ReadFault>) -> Status
    ensures written { Writes M.answer (W.contents writer.old) (W.contents writer.new) result made.now }
    ensures failed { Failed result (made.now ≡ Err faults.CannotRead) (W.has_failed writer.new) }
    ensures spared { result ≢ statuses.CannotWrite → W.has_failed writer.new → W.has_failed writer.old }
{
    match made {
        Ok(made) => write_answer(writer, made.text(), status_of(made.verdict())),
        Err(ReadFault::NoMemory) => write_text(writer, no_memory(), Status::NoMemory),
        Err(ReadFault::CannotRead) => Status::CannotRead,
    }
}

/// What a command did.
#[derive(Drop)]
pub struct Performed<M: Drop> {
    /// How it ended.
    pub status: Status,
    /// What the command made, if all of its answer was written.
    pub made: Option<M>,
}

/// Writes the answer of what was made, and hands that back where all of it was written.
pub fn hand_back<M: Answering, W: Sink>(writer: &mut W, made: Result<M, ReadFault>) -> Performed<M>
    ensures written { Writes M.answer (W.contents writer.old) (W.contents writer.new) result.status made }
    ensures handed { result.made ≡ handed_back result.status made }
    ensures failed { Failed result.status (made ≡ Err faults.CannotRead) (W.has_failed writer.new) }
    ensures spared { result.status ≢ statuses.CannotWrite → W.has_failed writer.new → W.has_failed writer.old }
{
    let status = report(writer, &made);
    let made = match status {
        Status::CannotWrite => None,
        _ => made.ok(),
    };
    Performed { status, made }
}

/// Does a command: reads its texts, and writes what it answers to them. Says how it ended, and hands back what it made.
///
/// Each text is read whole before anything is written. Where a read fails, nothing is written.
pub fn perform_kept<C: Command, F: Folder, R: Source + Drop, W: Sink>(
    alloc: Global,
    command: &C,
    inputs: &mut Inputs<'_, F, R>,
    notes: &mut Notes,
    writer: &mut W,
) -> Performed<C::Made>
where
    C::Made: Answering,
    // Where the readers and the folder tell their bytes, it is made of those, and its answer is what was written.
    ensures written { IfGiven F.holds R.remaining inputs.old (PerformsRead C.Made.answer (C.may_make command.now) W.contents writer.old writer.new result) }
    // What is told beside an answer that is written whole is of those too.
    ensures told { IfGiven F.holds R.remaining inputs.old (λ g. IfSome result.made (λ _. C.may_tell command.now (read g) notes.old notes.new)) }
    // The status says that a read or a write failed only after one did, and of a read that all texts before that one are UTF-8.
    ensures failed { Failed result.status (FailedInTurn F.holds F.can_fail R.remaining R.has_failed inputs.old inputs.new) (W.has_failed writer.new) }
    // With any other status no write has failed that had not before.
    ensures spared { result.status ≢ statuses.CannotWrite → W.has_failed writer.new → W.has_failed writer.old }
    // Whatever they give, or where they fail.
    ensures ended { Performs C.Made.answer (λ m. (t : Option TextsRead) × C.may_make command.now t m) (W.contents writer.old) (W.contents writer.new) result }
    // What is told beside an answer is of the texts that the answer is of, also where the answer breaks off.
    ensures noted { PerformsNoting C.Made.answer (C.may_make command.now) (C.may_tell command.now) notes.old notes.new W.contents writer.old writer.new result }
    // However it ends, a text is read only if all texts before it are UTF-8.
    ensures stops { IfGiven F.holds R.remaining inputs.old (StopsAtStranger inputs.old inputs.new) }
    // Where nothing is to be told beside the answer, nothing is.
    ensures quiet { IsQuiet notes.old notes.new }
{
    let made = prepare(alloc, command, inputs, notes);
    hand_back(writer, made)
}

/// `perform_kept`, but hands nothing back.
pub fn perform<C: Command, F: Folder, R: Source + Drop, W: Sink>(
    alloc: Global,
    command: &C,
    inputs: &mut Inputs<'_, F, R>,
    notes: &mut Notes,
    writer: &mut W,
) -> Status
where
    C::Made: Answering,
    // Where the readers and the folder tell their bytes, what is written is what the command answers to those.
    ensures written { IfGiven F.holds R.remaining inputs.old (ReportsRead C.Made.answer (C.may_make command.now) W.contents writer.old writer.new result) }
    // What is told beside an answer that is written whole is of those too.
    ensures told { IfGiven F.holds R.remaining inputs.old (λ g. IfAnswered result (C.may_tell command.now (read g) notes.old notes.new)) }
    // The status says that a read or a write failed only after one did, and of a read that all texts before that one are UTF-8.
    ensures failed { Failed result (FailedInTurn F.holds F.can_fail R.remaining R.has_failed inputs.old inputs.new) (W.has_failed writer.new) }
    // With any other status no write has failed that had not before.
    ensures spared { result ≢ statuses.CannotWrite → W.has_failed writer.new → W.has_failed writer.old }
    // Whatever they give, or where they fail.
    ensures ended { Reports C.Made.answer (λ m. (t : Option TextsRead) × C.may_make command.now t m) (W.contents writer.old) (W.contents writer.new) result }
    // What is told beside an answer is of the texts that the answer is of, also where the answer breaks off.
    ensures noted { ReportsNoting C.Made.answer (C.may_make command.now) (C.may_tell command.now) notes.old notes.new W.contents writer.old writer.new result }
    // However it ends, a text is read only if all texts before it are UTF-8.
    ensures stops { IfGiven F.holds R.remaining inputs.old (StopsAtStranger inputs.old inputs.new) }
    // Where nothing is to be told beside the answer, nothing is.
    ensures quiet { IsQuiet notes.old notes.new }
{
    perform_kept(alloc, command, inputs, notes, writer).status
}
