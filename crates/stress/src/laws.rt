// What the definition of a transcript says, in other words.

ghost use Rattle.stress.specs.Good.{TranscriptsAreGood};
ghost use Rattle.stress.specs.Replayed.{TranscriptsAgree};
ghost use Rattle.stress.specs.Transcripts.{EachCallHasOneLine};

/// The lines of a transcript that `stress` may write are the calls of its script, each once.
pub fn each_call_has_one_line()
    ensures once { EachCallHasOneLine }
{}

/// The calls of a transcript that `stress` may write agree, one after the other in the order of its lines, as `replay` compares them: an
/// update or an install has the number of those before it as its index, a read has it as its point, and each replies what its
/// operation replies there, on one replica. It is so on a new state and on the state that a text says.
pub fn transcripts_agree()
    ensures agree { TranscriptsAgree }
{}

/// What `stress` may answer, where it is good, is a transcript of its script's calls that `replay` finds good: to the same manifest,
/// files and state, this text, and as many places, `replay` answers `good` with the numbers of the updates and installs, of the reads,
/// and of the calls that were told that the history has ended. It is so on a new state and on the state that a text says. Each printed
/// line is read as the call that it tells, in at most 512 bytes of ASCII.
pub fn transcripts_are_good()
    ensures good { TranscriptsAreGood }
{}
