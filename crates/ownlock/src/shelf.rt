// The shelf, and its calls.
ghost use Rattle.std.specs.Prelude.{◌≡◌, ◌+◌, ◌<◌, ◌^◌, ◌++◌, [], length, replicate, IfOk, IfErr, IfSome, MatchOption};
ghost use Rattle.ownlock.specs.declared.known.Known.{Known};
ghost use Rattle.ownlock.specs.Seats.{IsSession, IsSplit, HasSession, all_sessions, HoldsNone, opened_with};
ghost use Rattle.ownlock.specs.Knowledge.{MayAsk, MayTake, MayPut, Takes, Puts, Settles, HandsOn, Reads, Raises, AllAgree, Closes};
ghost use Rattle.ownlock.specs.Invariant.{StandsThere, others_of};
ghost use Rattle.ownlock.specs.Settling.{MaySettle, MayPassOn};
ghost use Rattle.ownlock.specs.Held.{IsBy, IsFrom, held_place, held_spot};
ghost use Rattle.ownlock.specs.Words.{IsSpot, row_length, won_by};
ghost use Rattle.ownlock.specs.Rules.{leader};

use crate::change::{Ask, Change};
use crate::error::{NotOpened, OpenError};
use crate::rule::{JoinViews, LockRule, RaiseDone, ReadDone, SplitFirst, SplitOthers, View};
use crate::seat::Seat;
use crate::shelved::Shelved;
use crate::spreading::{gather, slot_of, spread, unload};
use crate::steps::{pass_on, put_and_take, release, stand_at, try_once, wait_for};
use crate::winning::{Won, free_line, win};
use crate::words::{Spot, leader_usual, leader_word, word_count, word_of};
use atomic_table::{Refused, Table};
use std::alloc::{AllocError, Global};
use std::marker::{Brand, Model};
use std::sync::Wait;
use unreached::unreached;

/// The place of the value that leads: nothing but its put adds to the history.
pub const LEADER: usize = 0;

/// Numbered places, from 0 on: each has a value, or a session holds it. And the completed tail, which no place has.
///
/// Place 0 is the leader's. The others stand in two rows, and the n-th places of both are on one line: what
/// tells whether they are held is one word. So a session may win both by one step. Where there is one line only, the leader is on it, too.
#[derive(Drop)]
pub struct Shelf<V: Shelved> {
    table: Table<Option<V>, View<V>, <V as Shelved>::Setup, LockRule<V>, Global>,
    places: usize,
    row: usize,
    leader_word: usize,
    leader_usual: u64,
    room: Vec<Option<V>>,
}

impl<V: Shelved> Model for Shelf<V> {
    ghost use Rattle.std.specs.Prelude.{◌≡◌, ◌<◌, ◌≤◌, [], vec_capacity};
    ghost use Rattle.ownlock.specs.Words.{HasLines, IsFree, line_word, row_length};
    ghost use Rattle.ownlock.specs.Seats.{ShelfView};

    ghost Value = { ShelfView V.Setup };

    ghost view = { λ a. record { id = a.table.shared.table_id; places = a.places; setup = a.table.shared.key } };

    // There are words and slots for so many places, one of which is the leader's; the first row has its length, and the leader its word; by its
    // usual word it is free; and there is room for all values at the end.
    ghost invariant = { λ a. HasLines a.places a.table.shared.table_id × (0 < a.places)
        × (a.row ≡ row_length a.places) × (a.leader_word ≡ line_word a.places 0) × IsFree a.leader_usual 4
        × (a.room.items ≡ []) × (a.places ≤ vec_capacity a.room) };
}

/// The value of a place that a session holds. It has no `Drop`, so it ends in `put`.
pub struct Held<V> {
    pub value: V,
    spot: Spot,
}

fn blank_words(alloc: Global, count: usize) -> Result<Vec<u64>, AllocError>
    ensures { IfOk result (λ v. v.items ≡ replicate count 0) }
{
    Ok(vec![in alloc; 0; count]?)
}

fn not_opened<V>(values: Vec<Option<V>>) -> NotOpened<V>
    ensures { result.values.items ≡ values.items }
{
    NotOpened {
        error: OpenError::NoMemory,
        values,
    }
}

impl<V: Shelved> Shelf<V> {
    /// A shelf with these values, the leader's first, and the seat of all sessions. Split that seat before a place is taken.
    ///
    /// # Errors
    ///
    /// K1 where there is no memory. The values come back.
    pub fn open(
        alloc: Global,
        values: Vec<Option<V>>,
        setup: &V::Setup,
    ) -> Result<(Shelf<V>, Seat<V>), NotOpened<V>>
        requires leads { 0 < length values.items }
        requires places { length values.items ≡ V.places setup.now }
        requires none { V.rules.completed (V.first_progress setup.now) ≡ 0 }
        requires accounts { V.rules.Accounts (V.first_progress setup.now) (V.first_notes setup.now) }
        requires agree { AllAgree V.rules (V.first_progress setup.now) (V.first_notes setup.now) values.items }
        ensures shelf { IfOk result (λ t. (t.0.places ≡ length values.items) × (t.0.setup ≡ setup.now)) }
        ensures seat { IfOk result (λ t. (t.1.shelf ≡ t.0.id) × (t.1.sessions ≡ all_sessions (V.first_progress setup.now) 0 (V.first_notes setup.now))) }
        ensures refused { IfErr result (λ r. r.values.items ≡ values.items) }
    {
        let places = values.len();
        let Some(count) = word_count(places) else {
            return Err(not_opened(values));
        };
        let Ok(words) = blank_words(alloc, count) else {
            return Err(not_opened(values));
        };
        let Ok(room) = Vec::with_capacity(alloc, places) else {
            return Err(not_opened(values));
        };
        let Ok(slots) = Vec::with_capacity(alloc, slot_of(places)) else {
            room.destroy_empty();
            return Err(not_opened(values));
        };
        match Table::new(alloc, words.as_slice(), spread(values, slots), setup) {
            Ok((table, pass)) => Ok((
                Shelf {
                    table,
                    places,
                    row: places / 2,
                    leader_word: leader_word(places),
                    leader_usual: leader_usual(places),
                    room,
                },
                Seat { pass },
            )),
            Err(Refused { slots }) => Err(not_opened(gather(slots, room))),
        }
    }

    /// Where the leader is.
    #[inline(always)]
    pub fn leader(&self) -> Spot
        ensures { IsSpot self.now.places result × (result.place ≡ leader) }
    {
        Spot::leading(self.leader_word, self.leader_usual)
    }

    /// Where the n-th place of the first row is, from 0 on.
    #[inline(always)]
    pub fn first(&self, n: usize) -> Spot
        requires { n < row_length self.now.places }
        ensures { IsSpot self.now.places result × (result.place ≡ 1 + n) }
    {
        prove!(n < self.row);
        Spot::first(n)
    }

    /// Where the n-th place of the second row is, from 0 on.
    #[inline(always)]
    pub fn second(&self, n: usize) -> Spot
        requires { 1 + row_length self.now.places + n < self.now.places }
        ensures { IsSpot self.now.places result × (result.place ≡ 1 + row_length self.now.places + n) }
    {
        Spot::second(self.row, n)
    }

    /// Where the place with this number is.
    pub fn spot(&self, place: usize) -> Spot
        requires { place < self.now.places }
        ensures { IsSpot self.now.places result × (result.place ≡ place) }
    {
        if place == LEADER {
            return self.leader();
        }
        if place <= self.row {
            return self.first(place - 1);
        }
        self.second(place - 1 - self.row)
    }

    /// The first session of the seat, in a seat of its own. None of the seat's sessions holds a place.
    pub fn split(&self, seat: &mut Seat<V>) -> Seat<V>
        requires own { seat.old.shelf ≡ self.now.id }
        requires some { HasSession seat.old.sessions }
        requires idle { HoldsNone seat.old.sessions }
        ensures same { (seat.new.shelf ≡ seat.old.shelf) × (result.shelf ≡ seat.old.shelf) }
        ensures apart { IsSplit seat.old.sessions result.sessions seat.new.sessions }
    {
        let pass = self.table.shared.split_seat::<SplitFirst>(&mut seat.pass);
        Seat { pass }
    }

    /// The sessions behind the first, none of which holds a place, in a seat of their own. The first may hold places.
    pub fn split_off(&self, seat: &mut Seat<V>) -> Seat<V>
        requires own { seat.old.shelf ≡ self.now.id }
        requires some { HasSession seat.old.sessions }
        requires idle { HoldsNone (others_of seat.old.sessions) }
        ensures same { (seat.new.shelf ≡ seat.old.shelf) × (result.shelf ≡ seat.old.shelf) }
        ensures apart { IsSplit seat.old.sessions seat.new.sessions result.sessions }
    {
        let pass = self.table.shared.split_seat::<SplitOthers>(&mut seat.pass);
        Seat { pass }
    }

    /// Waits until the place is free, and takes its value. The session doesn't hold the place, and may hold it beside those that
    /// it holds.
    pub fn take<R: Wait>(&self, rt: &R, seat: &mut Seat<V>, place: usize) -> Held<V>
        requires own { seat.old.shelf ≡ self.now.id }
        requires there { place < self.now.places }
        requires may { (k : Known V.Progress V.SessionNote V) × IsSession seat.old k × MayTake V.rules place k }
        ensures same { (seat.new.shelf ≡ seat.old.shelf) × (held_place result ≡ place) }
        ensures there { IsFrom self.now result }
        ensures taken { Takes V.rules seat.old place result.value seat.new }
    {
        for _ in rt.forever() {
            if let Some(held) = self.try_take(seat, place) {
                return held;
            }
            wait_for(rt, &self.table.shared, self.spot(place));
        }
        unreached!()
    }

    /// Takes the value of the place where nobody holds it, and waits for nobody. The session doesn't hold the place, and may hold it beside those
    /// that it holds. `None` where another session holds it, has won its line, or was too often between: nothing has changed then.
    #[inline(always)]
    pub fn try_take(&self, seat: &mut Seat<V>, place: usize) -> Option<Held<V>>
        requires own { seat.old.shelf ≡ self.now.id }
        requires there { place < self.now.places }
        requires may { (k : Known V.Progress V.SessionNote V) × IsSession seat.old k × MayTake V.rules place k }
        ensures same { seat.new.shelf ≡ seat.old.shelf }
        ensures place { IfSome result (λ h. held_place h ≡ place) }
        ensures there { IfSome result (IsFrom self.now) }
        ensures taken { MatchOption result (seat.new ≡ seat.old) (λ h. Takes V.rules seat.old place h.value seat.new) }
    {
        self.try_take_by(seat, self.spot(place), None)
    }

    /// `try_take` of the place at this spot, by a look where the session has won its line.
    #[inline(always)]
    pub fn try_take_by(&self, seat: &mut Seat<V>, spot: Spot, won: Option<&Won>) -> Option<Held<V>>
        requires own { seat.old.shelf ≡ self.now.id }
        requires there { IsSpot self.now.places spot }
        requires may { (k : Known V.Progress V.SessionNote V) × IsSession seat.old k × MayTake V.rules spot.place k }
        requires by { IfSome won (λ w. IsBy self.now w.now seat.old) }
        ensures same { seat.new.shelf ≡ seat.old.shelf }
        ensures spot { IfSome result (λ h. held_spot h ≡ spot) }
        ensures taken { MatchOption result (seat.new ≡ seat.old) (λ h. Takes V.rules seat.old spot.place h.value seat.new) }
    {
        let Some(value) = try_once(&self.table.shared, &mut seat.pass, spot, won) else {
            return None;
        };
        Some(Held { value, spot })
    }

    /// Wins the line of this place for the session of the seat, which has this number: if no place of it is held, and nobody has won it.
    #[inline(always)]
    pub fn try_win(&self, seat: &mut Seat<V>, spot: Spot, session: usize) -> Option<Won>
        requires own { seat.old.shelf ≡ self.now.id }
        requires there { IsSpot self.now.places spot }
        requires session { (k : Known V.Progress V.SessionNote V) × IsSession seat.old k × (k.session ≡ session) }
        requires few { won_by session < 2 ^ 64 }
        ensures same { seat.new ≡ seat.old }
        ensures won { IfSome result (λ w. IsBy self.now w seat.old) }
    {
        win(&self.table.shared, &mut seat.pass, spot, session)
    }

    /// Lets a line go that the session has won. The session holds no place. If it has handed a place of the line on, and that is held still, the
    /// line stays won.
    #[inline(always)]
    pub fn let_go(&self, seat: &mut Seat<V>, won: Won)
        requires own { seat.old.shelf ≡ self.now.id }
        requires by { IsBy self.now won seat.old }
        requires idle { (k : Known V.Progress V.SessionNote V) × IsSession seat.old k × (k.held ≡ []) }
        ensures same { seat.new ≡ seat.old }
    {
        free_line(&self.table.shared, &mut seat.pass, won);
    }

    /// Waits until the place is free. Nothing is known then: another session may take it at once. Who waits, with this seat, holds no
    /// place itself, so no ring of sessions can wait here for one another.
    pub fn wait<R: Wait>(&self, rt: &R, seat: &Seat<V>, place: usize)
        requires own { seat.now.shelf ≡ self.now.id }
        requires there { place < self.now.places }
        requires idle { HoldsNone seat.now.sessions }
    {
        wait_for(rt, &self.table.shared, self.spot(place));
    }

    /// Puts back the value of a place, of those that the session holds whichever. The value agrees with every progress and all
    /// notes that may stand by then, and the session may change its own note by a move that is allowed.
    #[inline(always)]
    pub fn put<M: Change<V::Progress, V::SessionNote>>(&self, seat: &mut Seat<V>, held: Held<V>)
        requires own { seat.old.shelf ≡ self.now.id }
        requires there { IsFrom self.now held }
        requires may { (k : Known V.Progress V.SessionNote V) × IsSession seat.old k × MayPut V.rules M.progress M.note k (held_place held) held.value }
        ensures same { seat.new.shelf ≡ seat.old.shelf }
        ensures put { Puts V.rules M.progress M.note seat.old (held_place held) held.value seat.new }
    {
        self.put_by::<M>(seat, held, None);
    }

    /// `put`, by a look where the session has won the place's line.
    #[inline(always)]
    pub fn put_by<M: Change<V::Progress, V::SessionNote>>(
        &self,
        seat: &mut Seat<V>,
        held: Held<V>,
        won: Option<&Won>,
    )
        requires own { seat.old.shelf ≡ self.now.id }
        requires there { IsFrom self.now held }
        requires may { (k : Known V.Progress V.SessionNote V) × IsSession seat.old k × MayPut V.rules M.progress M.note k (held_place held) held.value }
        requires by { IfSome won (λ w. IsBy self.now w.now seat.old) }
        ensures same { seat.new.shelf ≡ seat.old.shelf }
        ensures put { Puts V.rules M.progress M.note seat.old (held_place held) held.value seat.new }
    {
        let Held { value, spot } = held;
        release::<V, M>(&self.table.shared, &mut seat.pass, spot, value, won);
    }

    /// Settles what the session has done at the place that it took last: the value is put back and taken again at once, so that nobody comes
    /// between, and the session may change its own note by a move that is allowed. It waits for nobody.
    pub fn settle<M: Change<V::Progress, V::SessionNote>>(
        &self,
        seat: &mut Seat<V>,
        held: Held<V>,
    ) -> Held<V>
        requires own { seat.old.shelf ≡ self.now.id }
        requires there { IsFrom self.now held }
        requires may { MaySettle V.rules M.progress M.note seat.old (held_place held) held.value }
        ensures same { (seat.new.shelf ≡ seat.old.shelf) × (held_place result ≡ held_place held) × (result.value ≡ held.value) }
        ensures there { IsFrom self.now result }
        ensures settled { Settles V.rules M.progress M.note seat.old (held_place held) held.value seat.new }
    {
        let Held { value, spot } = held;
        let value = put_and_take::<V, M>(&self.table.shared, &mut seat.pass, spot, value);
        Held { value, spot }
    }

    /// The first session of the seat, which holds this place and nothing else, puts the value back, and the next one, which holds nothing, takes it at
    /// once, so that nobody comes between. The first may change its own note by a move that is allowed, and stands behind the others
    /// then. It waits for nobody.
    pub fn hand_on<M: Change<V::Progress, V::SessionNote>>(
        &self,
        seat: &mut Seat<V>,
        held: Held<V>,
    ) -> Held<V>
        requires own { seat.old.shelf ≡ self.now.id }
        requires there { IsFrom self.now held }
        requires may { MayPassOn V.rules M.progress M.note seat.old.sessions (held_place held) held.value }
        ensures same { (seat.new.shelf ≡ seat.old.shelf) × (held_place result ≡ held_place held) × (result.value ≡ held.value) }
        ensures there { IsFrom self.now result }
        ensures handed { HandsOn V.rules M.progress M.note seat.old (held_place held) held.value seat.new }
    {
        let Held { value, spot } = held;
        let value = pass_on::<V, M>(&self.table.shared, &mut seat.pass, spot, value);
        Held { value, spot }
    }

    /// What the word of a place's line is just now: a look that changes nothing, and of which nothing is promised. It moves when a place of the line is
    /// taken, and when it is put back, so that who waits for what is done there need not take a place to see whether that has begun or ended.
    pub fn glance(&self, place: usize) -> u64
        requires { place < self.now.places }
    {
        self.table.shared.peek(self.spot(place).word)
    }

    /// The completed tail, which the session has read then. It waits for nobody, and the session may hold any places: what it took
    /// from there still agrees.
    pub fn done<M: Ask<V::SessionNote>>(&self, seat: &mut Seat<V>) -> u64
        requires own { seat.old.shelf ≡ self.now.id }
        requires may { (k : Known V.Progress V.SessionNote V) × IsSession seat.old k × MayAsk V.rules M.note k }
        ensures same { seat.new.shelf ≡ seat.old.shelf }
        ensures read { Reads V.rules M.note seat.old result seat.new }
    {
        let word = word_of(self.places);
        self.table.shared.load::<ReadDone<M>>(&mut seat.pass, word)
    }

    /// The completed tail becomes the greater of itself and `n`, which is at most the length of the history that the session
    /// knows. It waits for nobody, and the session may hold any places.
    pub fn raise(&self, seat: &mut Seat<V>, n: u64)
        requires own { seat.old.shelf ≡ self.now.id }
        requires may { (k : Known V.Progress V.SessionNote V) × IsSession seat.old k × V.rules.Reaches k.progress n }
        ensures same { seat.new.shelf ≡ seat.old.shelf }
        ensures raised { Raises V.rules seat.old n seat.new }
    {
        let word = word_of(self.places);
        self.table
            .shared
            .fetch_max::<RaiseDone>(&mut seat.pass, word, n);
    }

    /// The sessions of another seat, none of which holds a place, come to this one, behind its own.
    pub fn join(&self, seat: &mut Seat<V>, other: Seat<V>)
        requires own { (seat.old.shelf ≡ self.now.id) × (other.shelf ≡ self.now.id) }
        requires idle { HoldsNone other.sessions }
        ensures same { seat.new.shelf ≡ seat.old.shelf }
        ensures joined { seat.new.sessions ≡ seat.old.sessions ++ other.sessions }
    {
        self.table
            .shared
            .join_seat::<JoinViews>(&mut seat.pass, other.into_pass());
    }

    /// For a proof: this seat, as it is now, stands in some state that the shelf's invariant allows between two atomic steps.
    /// [`between_steps`](crate::between_steps) has the invariant in plain words. So no session stands in it twice. It reads a word, and changes nothing.
    pub fn stand(&self, seat: &mut Seat<V>)
        requires own { seat.old.shelf ≡ self.now.id }
        ensures same { seat.new ≡ seat.old }
        ensures state { StandsThere V.rules (opened_with (V.first_progress self.now.setup) (V.places self.now.setup) (V.first_notes self.now.setup)) seat.new.sessions }
    {
        let word = word_of(self.places);
        stand_at::<V, Brand>(&self.table.shared, &mut seat.pass, word);
    }

    /// Takes the shelf and one seat that has every session, none of which holds a place, and gives the value of each place back.
    /// All agree with one progress, which has grown from the one of each session, and with the notes of all. One run of the steps of all
    /// sessions leads there from what the shelf was opened with, and the rules allow each of its steps.
    pub fn close(self, seat: Seat<V>) -> Vec<Option<V>>
        requires own { seat.shelf ≡ self.id }
        requires all { length seat.sessions ≡ length (V.first_notes self.setup) }
        requires idle { HoldsNone seat.sessions }
        ensures places { length result.items ≡ self.places }
        ensures values { Closes V.rules (opened_with (V.first_progress self.setup) (V.places self.setup) (V.first_notes self.setup)) seat.sessions result.items }
    {
        let Shelf {
            table,
            places,
            room,
            ..
        } = self;
        unload(table.close_with(seat.into_pass()), room, places)
    }
}
