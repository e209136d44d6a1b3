// The lines of a history.

ghost use Rattle.std.specs.Prelude.{◌≡◌, length, MatchResult, IfOk};
ghost use Rattle.text.specs.Lines.{lines_of};
ghost use Rattle.realtime.specs.Histories.{timed_line, fits, call_behind};
ghost use Rattle.realtime.specs.Judging.{HasUsed, HasTaken, TakesCall, calls_of};

use std::alloc::{AllocError, Global};
use text::{NumberedLines, number, number_within, split_at_space};

/// How many sessions a history has at most: those of 8 nodes of 16 slots.
pub const SESSIONS: u64 = 128;

// When a call of a session began and when it was back, on which line of the script it stands, and where it stands in the transcript.
#[derive(Clone, Copy)]
pub(crate) struct Timed {
    pub session: u8,
    pub line: u64,
    pub begun: u64,
    pub ended: u64,
    pub rank: u128,
}

// The calls of a history, or the number of its first line that is bad or lacking.
pub(crate) type History = Result<Vec<Timed>, u64>;

// The calls of the lines so far, and at which numbers one of them began or was back.
#[derive(Drop)]
pub(crate) struct Taken {
    pub calls: Vec<Timed>,
    pub used: Vec<bool>,
}

// SESSION LINE BEGIN END, of a call of this rank.
#[tactic(auto, unfolding(crate::specs::Histories::timed_line))]
fn timed_line(rank: u128, text: &str) -> Option<Timed>
    ensures { result ≡ timed_line rank text.now }
{
    let (session, rest) = split_at_space(text)?;
    let (line, rest) = split_at_space(rest)?;
    let (begun, ended) = split_at_space(rest)?;
    Some(Timed {
        session: number_within(0, SESSIONS - 1, session)? as u8,
        line: number_within(1, u64::MAX, line)?,
        begun: number(begun)?,
        ended: number(ended)?,
        rank,
    })
}

impl Taken {
    // Whether the call may be the next one.
    fn fits(&self, call: &Timed) -> bool
        requires { HasUsed self.now }
        ensures { result ≡ fits (length self.now.used.items) self.now.calls.items call.now }
    {
        let numbers = self.used.len() as u64;
        call.begun < call.ended
            && call.ended < numbers
            && !self.used[call.begun as usize]
            && !self.used[call.ended as usize]
    }

    // Takes the call of the next line. Whether the line is good.
    #[tactic(auto, unfolding(crate::specs::Histories::call_behind))]
    fn take(&mut self, ranks: &[u128], line: &str) -> Result<bool, AllocError>
        requires taken { HasTaken ranks.now self.old }
        ensures taken { IfOk result (TakesCall ranks.now self.old self.new (call_behind ranks.now self.old.calls.items line.now)) }
    {
        let Some(rank) = ranks.get(self.calls.len()) else {
            return Ok(false);
        };
        let Some(call) = timed_line(*rank, line) else {
            return Ok(false);
        };
        if !self.fits(&call) {
            return Ok(false);
        }
        self.calls.push(call)?;
        self.used[call.begun as usize] = true;
        self.used[call.ended as usize] = true;
        Ok(true)
    }
}

// The calls of a history, of a transcript that has these ranks.
pub(crate) fn read_history(
    alloc: Global,
    ranks: &[u128],
    history: &str,
) -> Result<History, AllocError>
    ensures read { let all = calls_of ranks.now (lines_of history.now) in IfOk result (λ h. MatchResult h (λ v. all ≡ Ok v.items) (λ n. all ≡ Err n)) }
{
    let calls = Vec::new(alloc);
    let used = vec![in alloc; false; 2 * ranks.len()]?;
    let mut taken = Taken { calls, used };
    let mut lines = NumberedLines::new(history);
    while let Some((_, line)) = lines.take_line() {
        if !taken.take(ranks, line)? {
            return Ok(Err(taken.calls.len() as u64 + 1));
        }
    }
    if taken.calls.len() == ranks.len() {
        Ok(Ok(taken.calls))
    } else {
        Ok(Err(taken.calls.len() as u64 + 1))
    }
}
