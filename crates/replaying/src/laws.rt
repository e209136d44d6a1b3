// What the definitions of a replay say, in other words.

ghost use Rattle.replaying.specs.ReplayLines.{AgreeingLinesAreRuns, ReplaysAreRuns};

/// What is answered to a transcript on a catalogue, behind any updates: each line that agrees tells what its operation does there,
/// one after the other, until a line that is bad or differs. An update or an install has the next index, with the reply of the run
/// of its program, or of the place that its program takes, and the history has it then. A read has seen the whole history, with the
/// reply of its program's run, and a call that was told of the end is an update; both leave the history. What the history has are
/// updates.
pub fn replays_are_runs()
    ensures lines { AgreeingLinesAreRuns }
    ensures replays { ReplaysAreRuns }
{}
