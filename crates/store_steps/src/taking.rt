// The places of a node on the shelf, and the log's: how a session takes them, and wins their line.

ghost use Rattle.std.specs.Prelude.{◌≡◌, ◌+◌, ◌<◌, [], None, IfSome, MatchOption};
ghost use Rattle.ownlock.specs.Held.{IsBy, IsFrom, held_place};
ghost use Rattle.ownlock.specs.Knowledge.{MayTake, Takes};
ghost use Rattle.ownlock.specs.Rules.{leader};
ghost use Rattle.ownlock.specs.Seats.{IsSession};
ghost use Rattle.store_steps.specs.Knowing.{IsOn, Knows};
ghost use Rattle.store_steps.specs.Shelving.{store_rules};
ghost use Rattle.store_steps.specs.Standing.{IsFree, SessionKnown};
ghost use Rattle.store_steps.specs.Winning.{IsWonBy, desk_place};

use crate::steps::Here;
use crate::values::Value;
use ownlock::{Held, Seat, Shelf, Won};

// Takes the log. `None` where another session holds it: nothing has changed then.
#[inline(always)]
pub(crate) fn take_log(
    shelf: &Shelf<Value>,
    seat: &mut Seat<Value>,
    won: Option<&Won>,
) -> Option<Held<Value>>
    requires own { seat.old.shelf ≡ shelf.now.id }
    requires there { 0 < shelf.now.places }
    requires may { (k : SessionKnown) × IsSession seat.old k × MayTake store_rules leader k }
    requires by { IfSome won (λ w. IsBy shelf.now w.now seat.old) }
    ensures same { seat.new.shelf ≡ seat.old.shelf }
    ensures place { IfSome result (λ h. held_place h ≡ leader) }
    ensures there { IfSome result (IsFrom shelf.now) }
    ensures taken { MatchOption result (seat.new ≡ seat.old) (λ h. Takes store_rules seat.old leader h.value seat.new) }
{
    shelf.try_take_by(seat, shelf.leader(), won)
}

// Takes the replica of the caller's node. `None` where another session holds it: nothing has changed then.
#[inline(always)]
pub(crate) fn take_replica(
    here: Here<'_>,
    seat: &mut Seat<Value>,
    won: Option<&Won>,
) -> Option<Held<Value>>
    requires by { IfSome won (λ w. IsWonBy here w.now) }
    requires own { seat.old.shelf ≡ here.shared.shelf.now.id }
    requires idle { Knows seat.old (λ k. IsFree here.caller k × IsOn here.shared k) }
    ensures same { seat.new.shelf ≡ seat.old.shelf }
    ensures place { IfSome result (λ h. held_place h ≡ 1 + here.entry.caller.node) }
    ensures there { IfSome result (IsFrom here.entry.shared.shelf.now) }
    ensures taken { MatchOption result (seat.new ≡ seat.old) (λ h. Takes store_rules seat.old (1 + here.entry.caller.node) h.value seat.new) }
{
    let shelf = here.shared.shelf;
    shelf.try_take_by(seat, shelf.first(here.caller.node), won)
}

// Takes the desk of the caller's node. `None` where another session holds it: nothing has changed then.
#[inline(always)]
pub(crate) fn take_desk(
    here: Here<'_>,
    seat: &mut Seat<Value>,
    won: Option<&Won>,
) -> Option<Held<Value>>
    requires own { seat.old.shelf ≡ here.shared.shelf.now.id }
    requires idle { Knows seat.old (λ k. IsFree here.caller k × IsOn here.shared k) }
    requires by { IfSome won (λ w. IsWonBy here w.now) }
    ensures same { seat.new.shelf ≡ seat.old.shelf }
    ensures place { IfSome result (λ h. held_place h ≡ desk_place here.entry) }
    ensures there { IfSome result (IsFrom here.entry.shared.shelf.now) }
    ensures taken { MatchOption result (seat.new ≡ seat.old) (λ h. Takes store_rules seat.old (desk_place here.entry) h.value seat.new) }
{
    let shelf = here.shared.shelf;
    shelf.try_take_by(seat, shelf.second(here.caller.node), won)
}

// Wins the line of the caller's node: its replica and its desk, and in a store of one node the log.
#[inline(always)]
pub(crate) fn win_line(here: Here<'_>, seat: &mut Seat<Value>) -> Option<Won>
    requires own { seat.old.shelf ≡ here.shared.shelf.now.id }
    requires idle { Knows seat.old (λ k. IsFree here.caller k × IsOn here.shared k) }
    ensures same { seat.new ≡ seat.old }
    ensures won { IfSome result (IsWonBy here.entry) }
{
    let shelf = here.shared.shelf;
    let session = here.caller.node * here.shared.slots + here.caller.slot;
    shelf.try_win(seat, shelf.first(here.caller.node), session)
}

// Lets that line go, if it was won.
#[inline(always)]
pub(crate) fn let_line_go(here: Here<'_>, seat: &mut Seat<Value>, won: &mut Option<Won>)
    requires own { seat.old.shelf ≡ here.shared.shelf.now.id }
    requires idle { Knows seat.old (λ k. IsFree here.caller k × IsOn here.shared k) }
    requires by { IfSome won.old (IsWonBy here) }
    ensures same { seat.new ≡ seat.old }
    ensures gone { won.new ≡ None }
{
    if let Some(line) = won.take() {
        here.shared.shelf.let_go(seat, line);
    }
}
