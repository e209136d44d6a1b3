// What holds between any two atomic steps.
ghost use Rattle.ownlock.specs.Seats.{Opened};
ghost use Rattle.ownlock.specs.Invariant.{LockInvariant};
ghost use Rattle.ownlock.specs.Between.{Between, ShelfState};

use crate::shelved::Shelved;

/// The invariant, which each atomic step keeps, in plain words.
///
/// One progress has grown from what the shelf was opened with and from what every session knows, and accounts for the notes of
/// all. There are the places and the sessions that the shelf was opened for. Each place is free or held. A free place isn't
/// marked: a value that agrees with this progress and these notes is on the shelf, and nobody has it. Of a held place nothing is
/// on the shelf: one session of one seat has the value, and the place is marked, or that session has won its line. The progress's
/// completed tail is a word of its own.
///
/// One run, the list of all steps of all sessions in their order, leads from what the shelf was opened with to that progress and
/// those notes, and the rules allow each of its steps. The run that a session knows is the beginning of this one, and the session's
/// own steps are exactly those that it has there. Each session is in some seat, so each step is known to its session.
pub fn between_steps<V: Shelved>()
    ensures { (opened : Opened V.Progress V.SessionNote) (s : ShelfState V.Progress V.SessionNote V) → LockInvariant V.rules opened s
        → Between V.rules s opened }
{}
