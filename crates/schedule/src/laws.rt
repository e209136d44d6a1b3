// What the definitions say of all schedules.

ghost use Rattle.schedule.specs.Headline.{EverySchedule, TraceIsReadOff, OpeningStands, StepKeeps, StepsKeep, StandingIsExplained};

/// After every list of steps, ready or not, one list of operations explains the whole trace of calls and answers, the log ends with
/// it, there are as many nodes as the store was opened with, and each replica's maps are the opening maps after as many of its
/// operations as the replica's tail says. What steps add to a trace is what they and their answers tell, from any store that stands on.
pub fn every_schedule()
    ensures explained { EverySchedule }
    ensures trace { TraceIsReadOff }
{}

/// A new store stands for the empty history. A step takes a store that stands for a history to one that stands for a history that
/// begins with it, and so does any list of steps. A store that stands for a history is explained by it.
pub fn standing_is_kept()
    ensures opening { OpeningStands }
    ensures step { StepKeeps }
    ensures steps { StepsKeep }
    ensures explained { StandingIsExplained }
{}
