// The laws.
ghost use Rattle.store_laws.specs.RunEvents.{AnswersAreInRun, BetweenIsExplained, CalledLater, EachStepStands, EventsGoOn, KnownEventsBegin, NotesTell, RunsAreExplained, TracesAreTheirs};

/// A run of a store's lock, each step of which the rules allow, leads to a history that explains the calls and answers of all its sessions in the
/// order of the steps: their updates and their reads, as their notes have them. Each update that a session noted as answered is among them. This
/// is so between any two atomic steps, and the events that a session knows begin the events of all. At each step the history so far explains the
/// events so far, and an update that is called later has a later index. The events of a session are exactly those that its note has, and there are
/// no others.
pub fn runs_are_explained()
    ensures runs { RunsAreExplained }
    ensures told { AnswersAreInRun }
    ensures goes_on { EventsGoOn }
    ensures stands { EachStepStands }
    ensures later { CalledLater }
    ensures between { BetweenIsExplained }
    ensures known { KnownEventsBegin }
    ensures own { NotesTell }
    ensures theirs { TracesAreTheirs }
{}
