// Where the calls of a transcript stand.

ghost use Rattle.std.specs.Prelude.{◌≡◌, ◌≤◌, ◌^◌, ◌<◌, option_and_then, IfOk};
ghost use Rattle.scripts.specs.Transcript.{transcript_line_meaning};
ghost use Rattle.text.specs.Lines.{lines_of};
ghost use Rattle.realtime.specs.Judging.{standings_of};
ghost use Rattle.realtime.specs.Ranks.{standing_of, is_update, rank_of, ranks_of};

use scripts::{TranscriptLine, read_transcript_line};
use std::alloc::{AllocError, Global};
use text::NumberedLines;
use verifier::Mode;

// Where a call stands: an update or an install at its index, a read behind the updates before its point, or behind the history's end.
#[derive(Clone, Copy)]
pub(crate) enum Standing {
    At(Mode, u64),
    Ended,
}

// Where the call of a line stands, if it is one.
fn line_standing(line: &str) -> Option<Standing>
    ensures { result ≡ option_and_then standing_of (transcript_line_meaning line.now) }
{
    match read_transcript_line(line)? {
        TranscriptLine::Comment => None,
        TranscriptLine::Answered(mode, _, told) => Some(Standing::At(mode, told.index)),
        TranscriptLine::Installed(_, told) => Some(Standing::At(Mode::Update, told.index)),
        TranscriptLine::Ended(_) | TranscriptLine::EndedInstall(_) => Some(Standing::Ended),
    }
}

// Where the calls of a transcript stand, in their order.
fn standings(alloc: Global, transcript: &str) -> Result<Vec<Standing>, AllocError>
    ensures { IfOk result (λ v. v.items ≡ standings_of (lines_of transcript.now)) }
{
    let mut standings = Vec::new(alloc);
    let mut lines = NumberedLines::new(transcript);
    while let Some((_, line)) = lines.take_line() {
        if let Some(standing) = line_standing(line) {
            standings.push(standing)?;
        }
    }
    Ok(standings)
}

// Whether it is an update.
fn is_update(standing: &Standing) -> bool
    ensures { result ≡ is_update standing.now }
{
    matches!(standing, Standing::At(Mode::Update, _))
}

// A call's rank, in a history of so many updates.
fn rank_of(updates: u64, standing: Standing) -> u128
    ensures { result ≡ rank_of updates standing }
{
    match standing {
        Standing::At(Mode::Update, index) => 2 * index as u128 + 1,
        Standing::At(Mode::Read, point) => 2 * point as u128,
        Standing::Ended => 2 * updates as u128,
    }
}

// The ranks of the calls of a transcript, in their order.
pub(crate) fn ranks(alloc: Global, transcript: &str) -> Result<Vec<u128>, AllocError>
    ensures { IfOk result (λ v. v.items ≡ ranks_of (lines_of transcript.now)) }
{
    let all = standings(alloc, transcript)?;
    let updates = all.iter().filter(|s| is_update(s)).count() as u64;
    all.iter().map(|s| rank_of(updates, *s)).collect(alloc)
}
