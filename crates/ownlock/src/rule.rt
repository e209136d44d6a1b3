// The rule of the table under a shelf, and what each step on a word tells.
ghost use Rattle.std.specs.Prelude.{[], ◌++◌};
ghost use Rattle.ownlock.specs.Seats.{all_sessions, opened_with};
ghost use Rattle.ownlock.specs.Invariant.{LockInvariant, tried, tried_won, fronted, stood, freed, freed_alone, freed_won, kept, settled};
ghost use Rattle.ownlock.specs.Invariant.{handed_on, handed_marked, done_read, done_raised, first_of, others_of};

use crate::change::{Ask, AtPlace, Change, Start};
use crate::known::Known;
use crate::shelved::Shelved;
use atomic_table::{Join, Play, Seat, Shared, Split, TableRule};
use std::collections::LinkedList;
use std::marker::PhantomData;

pub type View<V> = LinkedList<Known<<V as Shelved>::Progress, <V as Shelved>::SessionNote, V>>;

// The seat and the steps of the table.
pub type Pass<V> = Seat<Option<V>, View<V>>;

pub type Steps<V> = Shared<Option<V>, View<V>, <V as Shelved>::Setup, LockRule<V>>;

pub struct LockRule<V> {
    marker: PhantomData<V>,
}

impl<V: Shelved> TableRule<Option<V>, View<V>, V::Setup> for LockRule<V> {
    ghost holds = { λ setup. LockInvariant V.rules (opened_with (V.first_progress setup) (V.places setup) (V.first_notes setup)) };

    ghost first = { λ setup. all_sessions (V.first_progress setup) 0 (V.first_notes setup) };
}

// A try at a place: a failed one, or one that takes it.
pub struct Try<W> {
    marker: PhantomData<W>,
}

impl<V: Shelved, W: AtPlace> Play<Option<V>, View<V>> for Try<W> {
    ghost then = { tried V.rules W.place };
}

// A look at a place, which takes it where the session has won its line.
pub struct TryWon<W> {
    marker: PhantomData<W>,
}

impl<V: Shelved, W: AtPlace> Play<Option<V>, View<V>> for TryWon<W> {
    ghost then = { tried_won V.rules W.place };
}

// A look by a seat that itself holds the place.
pub struct OwnRetry<W> {
    marker: PhantomData<W>,
}

impl<V: Shelved, W: AtPlace> Play<Option<V>, View<V>> for OwnRetry<W> {
    ghost then = { fronted V.rules W.place };
}

// A line is won, or let go.
pub struct Keep;

impl<V: Shelved> Play<Option<V>, View<V>> for Keep {
    ghost then = { kept V.rules };
}

// A look at any word: the seat stands in a state of the shelf.
pub struct Stand<M> {
    marker: PhantomData<M>,
}

impl<V: Shelved, M: Start<V::Progress, V::SessionNote>> Play<Option<V>, View<V>> for Stand<M> {
    ghost then = { stood V.rules M.opened };
}

// The mark of a held place is taken away.
pub struct Free<M> {
    marker: PhantomData<M>,
}

impl<V: Shelved, M: Change<V::Progress, V::SessionNote>> Play<Option<V>, View<V>> for Free<M> {
    ghost then = { freed V.rules M.progress M.note };
}

// The mark of a held place is taken away where it is all that the word has; else nothing changes.
pub struct FreeAlone<M> {
    marker: PhantomData<M>,
}

impl<V: Shelved, M: Change<V::Progress, V::SessionNote>> Play<Option<V>, View<V>> for FreeAlone<M> {
    ghost then = { freed_alone V.rules M.progress M.note };
}

// A look by which a held place is put back where the session has won its line.
pub struct FreeWon<M> {
    marker: PhantomData<M>,
}

impl<V: Shelved, M: Change<V::Progress, V::SessionNote>> Play<Option<V>, View<V>> for FreeWon<M> {
    ghost then = { freed_won V.rules M.progress M.note };
}

// The value of a held place is put back and taken again.
pub struct Settle<M> {
    marker: PhantomData<M>,
}

impl<V: Shelved, M: Change<V::Progress, V::SessionNote>> Play<Option<V>, View<V>> for Settle<M> {
    ghost then = { settled V.rules M.progress M.note };
}

// A held place goes from the first session of a seat to the next.
pub struct HandOn<M> {
    marker: PhantomData<M>,
}

impl<V: Shelved, M: Change<V::Progress, V::SessionNote>> Play<Option<V>, View<V>> for HandOn<M> {
    ghost then = { handed_on V.rules M.progress M.note };
}

// The same by a look, where nobody has won the line.
pub struct HandMarked<M> {
    marker: PhantomData<M>,
}

impl<V: Shelved, M: Change<V::Progress, V::SessionNote>> Play<Option<V>, View<V>>
    for HandMarked<M> {
    ghost then = { handed_marked V.rules M.progress M.note };
}

// The completed tail is read.
pub struct ReadDone<M> {
    marker: PhantomData<M>,
}

impl<V: Shelved, M: Ask<V::SessionNote>> Play<Option<V>, View<V>> for ReadDone<M> {
    ghost then = { done_read V.rules M.note };
}

// The completed tail is raised.
pub struct RaiseDone;

impl<V: Shelved> Play<Option<V>, View<V>> for RaiseDone {
    ghost then = { done_raised V.rules };
}

// The first session goes to a seat of its own.
pub struct SplitFirst;

impl<V: Shelved> Split<View<V>> for SplitFirst {
    ghost left = { others_of };

    ghost right = { first_of };
}

// The sessions behind the first go to a seat of their own.
pub struct SplitOthers;

impl<V: Shelved> Split<View<V>> for SplitOthers {
    ghost left = { first_of };

    ghost right = { others_of };
}

// One seat takes in the sessions of another, which has none then.
pub struct JoinViews;

impl<V: Shelved> Join<View<V>> for JoinViews {
    ghost both = { λ v w. v ++ w };

    ghost spent = { [] };
}
