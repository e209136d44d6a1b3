// The atomic steps of the lock: a place taken, its value put, settled or handed on, and any look.
ghost use Rattle.std.specs.Prelude.{◌≡◌, ◌≢◌, ◌<◌, ℕ, [], ◌∷◌, map, IfSome, Some, None, true, false};
ghost use Rattle.ownlock.specs.Words.{HasPlace, HasSpot, IsFree, slot_of, won_by};
ghost use Rattle.ownlock.specs.declared.known.Known.{Known};
ghost use Rattle.ownlock.specs.Knowledge.{MayTake, MayPut};
ghost use Rattle.ownlock.specs.Seats.{At, TookLast, opened_with, without};
ghost use Rattle.ownlock.specs.Settling.{ChangesHands, Leaves, MayChangeHands, MayLeave, MayPass};
ghost use Rattle.ownlock.specs.Invariant.{StandsThere, StepsAs, StepsTaking, StepsPutting, StepsSettling, StepsHanding, TellsFound, TellsTaken, TellsWon, with_front};

use crate::change::{AtPlace, Change, Start};
use crate::rule::{
    Free, FreeAlone, FreeWon, HandMarked, HandOn, OwnRetry, Pass, Settle, Stand, Steps, Try, TryWon,
};
use crate::shelved::Shelved;
use crate::spreading::slot_of;
use crate::winning::Won;
use crate::words::{Spot, WINNERS, is_free};
use crossbeam_utils::Backoff;
use std::marker::Brand;
use std::sync::Wait;
use unreached::unreached;

// How often a try looks again, where others take and put at the same line meanwhile.
const MORE_TRIES: u64 = 3;

// Marks the place if the word of its line is this one, by which it is free. It answers what the word was.
#[inline(always)]
fn try_from<V: Shelved, W: AtPlace>(
    steps: &Steps<V>,
    pass: &mut Pass<V>,
    word: usize,
    mark: u64,
    old: u64,
) -> u64
    requires own { pass.old.table_id ≡ steps.now.table_id }
    requires there { HasPlace steps.now.table_id W.place word mark }
    requires free { IsFree old mark }
    requires may { (k : Known V.Progress V.SessionNote V) × StepsAs pass.old.me k × MayTake V.rules W.place k }
    ensures same { pass.new.table_id ≡ pass.old.table_id }
    ensures tried { (k : Known V.Progress V.SessionNote V) → StepsAs pass.old.me k → TellsFound V.rules W.place k pass.old.me pass.new.me result old }
{
    steps.compare_exchange::<Try<W>>(pass, word, old, old + mark)
}

// The same by what the word was found to be, as long as the place is free by that, and a few times at most. It answers whether the place is taken.
#[inline(never)]
fn try_again<V: Shelved, W: AtPlace>(
    steps: &Steps<V>,
    pass: &mut Pass<V>,
    word: usize,
    mark: u64,
    mut found: u64,
) -> bool
    requires own { pass.old.table_id ≡ steps.now.table_id }
    requires there { HasPlace steps.now.table_id W.place word mark }
    requires may { (k : Known V.Progress V.SessionNote V) × StepsAs pass.old.me k × MayTake V.rules W.place k }
    ensures same { pass.new.table_id ≡ pass.old.table_id }
    ensures tried { (k : Known V.Progress V.SessionNote V) → StepsAs pass.old.me k → TellsTaken V.rules W.place k pass.old.me pass.new.me result }
{
    for _ in 0..MORE_TRIES {
        if !is_free(found, mark) {
            return false;
        }
        let now = try_from::<V, W>(steps, pass, word, mark, found);
        if now == found {
            return true;
        }
        found = now;
    }
    false
}

// A look at a place, which takes it where the session has won its line. It answers what the word is.
#[inline(always)]
fn look_won<V: Shelved, W: AtPlace>(steps: &Steps<V>, pass: &mut Pass<V>, spot: Spot) -> u64
    requires own { pass.old.table_id ≡ steps.now.table_id }
    requires there { HasSpot steps.now.table_id spot × (W.place ≡ spot.place) }
    requires may { (k : Known V.Progress V.SessionNote V) × StepsAs pass.old.me k × MayTake V.rules spot.place k }
    ensures same { pass.new.table_id ≡ pass.old.table_id }
    ensures tried { TellsWon V.rules W.place pass.old.me pass.new.me result }
{
    steps.load::<TryWon<W>>(pass, spot.word)
}

// Marks the place if it is free, and answers whether it was.
#[inline(always)]
fn mark<V: Shelved, W: AtPlace>(steps: &Steps<V>, pass: &mut Pass<V>, spot: Spot) -> bool
    requires own { pass.old.table_id ≡ steps.now.table_id }
    requires there { HasSpot steps.now.table_id spot × (W.place ≡ spot.place) }
    requires may { (k : Known V.Progress V.SessionNote V) × StepsAs pass.old.me k × MayTake V.rules W.place k }
    ensures same { pass.new.table_id ≡ pass.old.table_id }
    ensures tried { (k : Known V.Progress V.SessionNote V) → StepsAs pass.old.me k → TellsTaken V.rules W.place k pass.old.me pass.new.me result }
{
    let found = try_from::<V, W>(steps, pass, spot.word, spot.mark, spot.usual);
    if found == spot.usual {
        return true;
    }
    try_again::<V, W>(steps, pass, spot.word, spot.mark, found)
}

// Whether the place is taken: by a look where the session has won its line, else by a mark.
#[inline(always)]
fn is_taken<V: Shelved>(steps: &Steps<V>, pass: &mut Pass<V>, spot: Spot, won: Option<&Won>) -> bool
    requires own { pass.old.table_id ≡ steps.now.table_id }
    requires there { HasSpot steps.now.table_id spot }
    requires may { (k : Known V.Progress V.SessionNote V) × StepsAs pass.old.me k × MayTake V.rules spot.place k }
    requires by { IfSome won (λ w. (k : Known V.Progress V.SessionNote V) → pass.old.me.0 ≡ k ∷ [] → w.now.word ≡ won_by k.session) }
    ensures same { pass.new.table_id ≡ pass.old.table_id }
    ensures tried { (k : Known V.Progress V.SessionNote V) → StepsAs pass.old.me k → TellsTaken V.rules spot.place k pass.old.me pass.new.me result }
{
    let Some(won) = won else {
        return mark::<V, Brand>(steps, pass, spot);
    };
    if look_won::<V, Brand>(steps, pass, spot) == won.word {
        return true;
    }
    mark::<V, Brand>(steps, pass, spot)
}

// Takes the value out of its slot if the place is free.
#[inline(always)]
pub(crate) fn try_once<V: Shelved>(
    steps: &Steps<V>,
    pass: &mut Pass<V>,
    spot: Spot,
    won: Option<&Won>,
) -> Option<V>
    requires own { pass.old.table_id ≡ steps.now.table_id }
    requires there { HasSpot steps.now.table_id spot }
    requires may { (k : Known V.Progress V.SessionNote V) × StepsAs pass.old.me k × MayTake V.rules spot.place k }
    requires by { IfSome won (λ w. (k : Known V.Progress V.SessionNote V) → pass.old.me.0 ≡ k ∷ [] → w.now.word ≡ won_by k.session) }
    ensures same { pass.new.table_id ≡ pass.old.table_id }
    ensures failed { result ≡ None → pass.new.me ≡ pass.old.me }
    ensures taken { (value : V) → result ≡ Some value → StepsTaking V.rules pass.old.me spot.place value pass.new.me }
{
    if !is_taken(steps, pass, spot, won) {
        return None;
    }
    let found = steps.exchange(pass, slot_of(spot.place), None);
    let Some(value) = found else { unreached!() };
    Some(value)
}

// Looks at the word of the place's line until the place is free. Nothing is known then: somebody may take the place at once.
#[inline(never)]
pub(crate) fn wait_for<V: Shelved, R: Wait>(rt: &R, steps: &Steps<V>, spot: Spot)
    requires { HasSpot steps.now.table_id spot }
{
    let backoff = Backoff::new();
    for _ in rt.forever() {
        if is_free(steps.peek(spot.word), spot.mark) {
            return;
        }
        backoff.snooze();
    }
}

// A look by which the slot of a held place becomes the first of those that are out, whichever place it is.
#[inline(always)]
fn bring_front<V: Shelved, W: AtPlace>(steps: &Steps<V>, pass: &mut Pass<V>, spot: Spot)
    requires own { pass.old.table_id ≡ steps.now.table_id }
    requires there { HasSpot steps.now.table_id spot × (W.place ≡ spot.place) }
    requires held { (k : Known V.Progress V.SessionNote V) × StepsAs pass.old.me k × ((x : V) × (a : ℕ) × At a (spot.place, x) k.held) }
    ensures same { pass.new.table_id ≡ pass.old.table_id }
    ensures front { (k : Known V.Progress V.SessionNote V) → StepsAs pass.old.me k → pass.new.me ≡ with_front W.place k }
{
    let _ = steps.load::<OwnRetry<W>>(pass, spot.word);
}

// Takes the mark away of a place whose value is in its slot. Mostly it is all that the word has, which is tried first.
#[inline(always)]
fn unmark<V: Shelved, M: Change<V::Progress, V::SessionNote>>(
    steps: &Steps<V>,
    pass: &mut Pass<V>,
    spot: Spot,
)
    requires own { pass.old.table_id ≡ steps.now.table_id }
    requires there { HasSpot steps.now.table_id spot }
    requires may { MayLeave V.rules M.progress M.note pass.old.me spot.place }
    ensures same { pass.new.table_id ≡ pass.old.table_id }
    ensures left { Leaves V.rules M.progress M.note pass.old.me spot.place pass.new.me }
{
    if steps.compare_exchange::<FreeAlone<M>>(pass, spot.word, spot.mark, 0) != spot.mark {
        let _ = steps.fetch_and::<Free<M>>(pass, spot.word, !spot.mark);
    }
}

// Leaves such a place: by a look where the session has won its line and it has no mark, else so.
#[inline(always)]
fn leave<V: Shelved, M: Change<V::Progress, V::SessionNote>>(
    steps: &Steps<V>,
    pass: &mut Pass<V>,
    spot: Spot,
    won: Option<&Won>,
)
    requires own { pass.old.table_id ≡ steps.now.table_id }
    requires there { HasSpot steps.now.table_id spot }
    requires may { MayLeave V.rules M.progress M.note pass.old.me spot.place }
    requires by { IfSome won (λ w. (k : Known V.Progress V.SessionNote V) → pass.old.me.0 ≡ k ∷ [] → w.now.word ≡ won_by k.session) }
    ensures same { pass.new.table_id ≡ pass.old.table_id }
    ensures left { Leaves V.rules M.progress M.note pass.old.me spot.place pass.new.me }
{
    let Some(won) = won else {
        return unmark::<V, M>(steps, pass, spot);
    };
    if steps.load::<FreeWon<M>>(pass, spot.word) != won.word {
        unmark::<V, M>(steps, pass, spot);
    }
}

// Puts the value into its slot, then leaves the place.
#[inline(always)]
pub(crate) fn release<V: Shelved, M: Change<V::Progress, V::SessionNote>>(
    steps: &Steps<V>,
    pass: &mut Pass<V>,
    spot: Spot,
    value: V,
    won: Option<&Won>,
)
    requires own { pass.old.table_id ≡ steps.now.table_id }
    requires there { HasSpot steps.now.table_id spot }
    requires may { (k : Known V.Progress V.SessionNote V) × StepsAs pass.old.me k × MayPut V.rules M.progress M.note k spot.place value }
    requires by { IfSome won (λ w. (k : Known V.Progress V.SessionNote V) → pass.old.me.0 ≡ k ∷ [] → w.now.word ≡ won_by k.session) }
    ensures same { pass.new.table_id ≡ pass.old.table_id }
    ensures put { StepsPutting V.rules M.progress M.note pass.old.me spot.place value pass.new.me }
{
    bring_front::<V, Brand>(steps, pass, spot);
    let emptied = steps.exchange(pass, slot_of(spot.place), Some(value));
    let None = emptied else { unreached!() };
    leave::<V, M>(steps, pass, spot, won);
}

// Puts the value into its slot and takes it out again, with one step on the word of its line between, which stays as it is: so nobody takes the
// place in between.
#[inline(always)]
pub(crate) fn put_and_take<V: Shelved, M: Change<V::Progress, V::SessionNote>>(
    steps: &Steps<V>,
    pass: &mut Pass<V>,
    spot: Spot,
    value: V,
) -> V
    requires own { pass.old.table_id ≡ steps.now.table_id }
    requires there { HasSpot steps.now.table_id spot }
    requires may { (k : Known V.Progress V.SessionNote V) × StepsAs pass.old.me k × MayPut V.rules M.progress M.note k spot.place value × TookLast spot.place k }
    ensures same { pass.new.table_id ≡ pass.old.table_id }
    ensures value { result ≡ value }
    ensures settled { StepsSettling V.rules M.progress M.note pass.old.me spot.place value pass.new.me }
{
    bring_front::<V, Brand>(steps, pass, spot);
    let before = steps.exchange(pass, slot_of(spot.place), Some(value));
    let None = before else { unreached!() };
    let _ = steps.load::<Settle<M>>(pass, spot.word);
    let found = steps.exchange(pass, slot_of(spot.place), None);
    let Some(value) = found else { unreached!() };
    value
}

// The first session of the seat puts a place back whose value is in its slot, and the next one takes it. Where a session has won the line, the place is
// marked for the next one.
#[inline(always)]
fn change_hands<V: Shelved, M: Change<V::Progress, V::SessionNote>>(
    steps: &Steps<V>,
    pass: &mut Pass<V>,
    spot: Spot,
)
    requires own { pass.old.table_id ≡ steps.now.table_id }
    requires there { HasSpot steps.now.table_id spot }
    requires may { MayChangeHands V.rules M.progress M.note pass.old.me spot.place }
    ensures same { pass.new.table_id ≡ pass.old.table_id }
    ensures handed { ChangesHands V.rules M.progress M.note pass.old.me spot.place pass.new.me }
{
    if steps.load::<HandMarked<M>>(pass, spot.word) < WINNERS {
        return;
    }
    let _ = steps.fetch_or::<HandOn<M>>(pass, spot.word, spot.mark);
}

// Puts the value into its slot and takes it out again, with such a step between.
#[inline(always)]
pub(crate) fn pass_on<V: Shelved, M: Change<V::Progress, V::SessionNote>>(
    steps: &Steps<V>,
    pass: &mut Pass<V>,
    spot: Spot,
    value: V,
) -> V
    requires own { pass.old.table_id ≡ steps.now.table_id }
    requires there { HasSpot steps.now.table_id spot }
    requires may { MayPass V.rules M.progress M.note pass.old.me spot.place value }
    ensures same { pass.new.table_id ≡ pass.old.table_id }
    ensures value { result ≡ value }
    ensures handed { StepsHanding V.rules M.progress M.note pass.old.me spot.place value pass.new.me }
{
    let before = steps.exchange(pass, slot_of(spot.place), Some(value));
    let None = before else { unreached!() };
    change_hands::<V, M>(steps, pass, spot);
    let found = steps.exchange(pass, slot_of(spot.place), None);
    let Some(value) = found else { unreached!() };
    value
}

// Looks at a word, which changes nothing, and tells in which state of the shelf the seat stands.
pub(crate) fn stand_at<V: Shelved, M: Start<V::Progress, V::SessionNote>>(
    steps: &Steps<V>,
    pass: &mut Pass<V>,
    word: usize,
)
    requires own { pass.old.table_id ≡ steps.now.table_id }
    requires there { word < steps.now.table_id.words }
    requires opened { IfSome M.opened (λ o. o ≡ opened_with (V.first_progress steps.now.key) (V.places steps.now.key) (V.first_notes steps.now.key)) }
    ensures same { (pass.new.table_id ≡ pass.old.table_id) × (pass.new.me ≡ pass.old.me) }
    ensures stands { IfSome M.opened (λ o. StandsThere V.rules o pass.new.me.0) }
{
    steps.load::<Stand<M>>(pass, word);
}
