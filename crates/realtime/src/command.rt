// A transcript replayed, and its history judged.

ghost use Rattle.std.specs.Prelude.{◌≡◌, ◌*◌, ◌++◌, length, codes, decimal, IfOk};
ghost use Rattle.engine.specs.declared.replies.Verdict.TheVariants as verdicts;
ghost use Rattle.engine.specs.Reading.{texts_read};
ghost use Rattle.engine.specs.Report.{answer_of};
ghost use Rattle.replaying.specs.Noted.{Explains, replay_notes};
ghost use Rattle.realtime.specs.Judging.{AreGood, timed};
ghost use Rattle.realtime.specs.TimedAnswer.{calls_answer, timed_answer};

use crate::histories::{Timed, read_history};
use crate::orders::{beginnings, first_misplaced, first_out_of_turn};
use crate::ranks::ranks;
use engine::texts::put_numbered;
use engine::{Command, Gathered, Notes, Reply, StoreWatcher, Texts, Verdict, not_text};
use replaying::Replay;
use std::alloc::{AllocError, Global};

// What is answered of the line of this number: what it is, and the verdict.
fn line_reply(
    alloc: Global,
    number: u64,
    what: &[u8],
    verdict: Verdict,
) -> Result<Reply, AllocError>
    ensures { IfOk result (λ r. answer_of r ≡ record { text = codes "history line " ++ (decimal number ++ what.now); verdict = verdict }) }
{
    let mut text = Vec::new(alloc);
    put_numbered(&mut text, b"history line ", number)?;
    text.extend_from_slice(what)?;
    Ok(Reply { text, verdict })
}

// What is answered to the calls of a history, where the transcript is answered so.
fn calls_reply(alloc: Global, reply: Reply, calls: &[Timed]) -> Result<Reply, AllocError>
    requires { AreGood (2 * length calls.now) calls.now }
    ensures { IfOk result (λ r. answer_of r ≡ calls_answer (answer_of reply) calls.now) }
{
    let begins = beginnings(alloc, calls)?;
    let at = first_out_of_turn(&begins, calls);
    if at < calls.len() {
        return line_reply(alloc, at as u64 + 1, b" bad\n", Verdict::Refused);
    }
    let at = first_misplaced(alloc, &begins, calls)?;
    if at < calls.len() {
        return line_reply(alloc, at as u64 + 1, b" differs\n", Verdict::Differs);
    }
    Ok(reply)
}

// What is answered to all that was read, where the transcript is good and answered so.
fn history_reply(alloc: Global, reply: Reply, texts: &Texts) -> Result<Reply, AllocError>
    requires { reply.verdict ≡ verdicts.Good }
    ensures { let t = texts_read texts.now in IfOk result (λ r. answer_of r ≡ timed (answer_of reply) t.file t.history) }
{
    let ranks = ranks(alloc, texts.file.as_str())?;
    match read_history(alloc, &ranks, texts.history.as_str())? {
        Ok(calls) => calls_reply(alloc, reply, &calls),
        Err(number) => line_reply(alloc, number, b" bad\n", Verdict::Refused),
    }
}

/// Replays a transcript as `replay` does, on the state that a text says or on a new one, and judges the history of its calls:
/// `SESSION LINE BEGIN END` of each, in the transcript's order.
///
/// Answers with what `replay` answers, and with that alone where the transcript isn't good. Where it is, each line of the
/// history must be good: there is one for each call; SESSION is below 128 and LINE at least 1; BEGIN is below END, both are
/// below twice the number of calls, and no two lines have a number in common. Else the answer is `history line N bad` for the
/// first line that is not so behind those before it, or for the number behind the last where one is lacking. Then of each
/// session the calls must be made one after the other, in the order of LINE: else it is that for the first line that begins
/// while an earlier call of its session wasn't back, or behind one of a LINE that isn't lower. Then a call that was back
/// before another began must have no higher rank, an update at index i 2i + 1 and a read at point p 2p: the answer is
/// `history line N differs` for the first that has. The notes tell what they tell of a replay.
#[derive(Drop)]
pub struct ReplayTimed<'w, V> {
    /// How many places there are behind the manifest's programs.
    pub spare: u32,
    /// What is told how much of the state is loaded, and when the store opens.
    pub watcher: &'w V,
}

impl<V: StoreWatcher> Command for ReplayTimed<'_, V> {
    type Made = Reply;

    ghost may_make = { λ c t r. answer_of r ≡ timed_answer c.spare t };

    ghost may_tell = { λ c t old new. Explains old new (replay_notes c.spare t) };

    fn make(&self, alloc: Global, read: Gathered, notes: &mut Notes) -> Result<Reply, AllocError> {
        let Ok(texts) = read else {
            return not_text(alloc);
        };
        let replay = Replay {
            spare: self.spare,
            watcher: self.watcher,
        };
        let reply = replay.reply(alloc, &texts, notes)?;
        match reply.verdict {
            Verdict::Good => history_reply(alloc, reply, &texts),
            Verdict::Refused | Verdict::Differs => Ok(reply),
        }
    }
}
