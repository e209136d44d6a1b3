// What the definitions of a list of steps say, in other words.

ghost use Rattle.scheduling.specs.Traced.{SchedulesAreExplained, StepListsAreExplained};

/// What `schedule` writes is explained: its lines, with what is answered to each, tell a trace of calls and answers, up to the first bad line,
/// and one list of operations explains it, and the store after it.
pub fn schedules_are_explained()
    ensures lists { StepListsAreExplained }
    ensures schedules { SchedulesAreExplained }
{}
