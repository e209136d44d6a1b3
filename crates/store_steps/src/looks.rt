// A look at the replica of a session's node: its steps are the same, whatever the session looks for.

ghost use Rattle.std.specs.Prelude.{◌≡◌, ◌<◌, ℕ, Option, Some, None, IfOk, IfErr};
ghost use Rattle.accounts.specs.Moves.{IsAtRest};
ghost use Rattle.loader.specs.CatalogueView.{CatalogueView, sizes_for};
ghost use Rattle.loader.specs.StoreState.{sizes_of};
ghost use Rattle.oplog.specs.Operations.{Operation};
ghost use Rattle.store_steps.specs.Getting.{IsVerdict};
ghost use Rattle.store_steps.specs.Knowing.{IsOn, Knows, Learns};
ghost use Rattle.store_steps.specs.Seen.{Sight, holds};
ghost use Rattle.store_steps.specs.Ready.{MayRead};
ghost use Rattle.store_steps.specs.Sights.{SessionLooks, heard_by};
ghost use Rattle.store_steps.specs.Standing.{IsFree};
ghost use Rattle.store_steps.specs.Trying.{IsStill};
ghost use Rattle.store_steps.specs.Views.{RepliesIn};

use crate::steps::{Here, try_hold_ready};
use crate::values::Value;
use loader::Catalogue;
use node::NodeReplica;
use ownlock::Seat;
use std::marker::Brand;
use std::sync::Wait;
use unreached::unreached;

/// What a session looks for in the maps and programs of its node: a reply, a page of a map, the value of a key, the whole state.
pub trait Look {
    /// What the look answers.
    type Told: Drop;

    /// Why the look is refused.
    type Refused: Drop;

    // What its caller has to show, on a store with this catalogue.
    ghost may: { Self → CatalogueView → Type 0 };

    // The refusal of the look by a store with this catalogue, if it is refused.
    ghost refusal: { Self → CatalogueView → Option Self.Refused };

    // The point of the history that the answer is of.
    ghost point: { Self.Told → ℕ };

    // What the answer says of the state at that point, with the room that was filled.
    ghost sees: { (old new : Self) → Self.Told → Sight };

    // The read that the look asks, if it asks one, and what that replies.
    ghost asks: { Self → Option Operation };

    ghost replies: { Self.Told → ℕ };

    // The room that the look fills is still the room that its caller lent it.
    ghost lent: { (old new : Self) → Type 0 };

    /// Whether the look is allowed.
    fn check(&self, catalogue: &Catalogue) -> Result<(), Self::Refused>
        ensures refusal { IsVerdict (refusal self.now catalogue.now) result }
        ensures asks { IfOk result (λ _. MayRead catalogue.now (asks self.now)) };

    /// Looks at the state of a node, and leaves that as it was.
    fn at(&mut self, catalogue: &Catalogue, node: &mut NodeReplica) -> Self::Told
        requires may { may self.old catalogue.now }
        requires allowed { refusal self.old catalogue.now ≡ None }
        requires sizes { sizes_of node.old.replica.state ≡ sizes_for catalogue.now }
        ensures point { point result ≡ node.old.replica.tail }
        ensures sees { holds (sees self.old self.new result) catalogue.now node.old.replica.state }
        ensures heard { (op : Operation) → asks self.old ≡ Some op → RepliesIn catalogue.now op node.old.replica.state (replies result) }
        ensures lent { lent self.old self.new }
        ensures same { node.new ≡ node.old };
}

/// Looks at the replica of the caller's node, once the replica has reached the tail that is completed now. A replica that lacks records takes the
/// log. If another session holds the replica or the log, the answer is that place: then the session holds nothing, and the look is as it was.
pub fn try_look<L: Look>(
    here: Here<'_>,
    seat: &mut Seat<Value>,
    look: &mut L,
) -> Result<L::Told, usize>
    requires own { seat.old.shelf ≡ here.shared.shelf.now.id }
    requires idle { Knows seat.old (λ k. IsFree here.caller k × IsOn here.shared k × IsAtRest k.note) }
    requires may { L.may look.old here.shared.catalogue.now }
    requires allowed { L.refusal look.old here.shared.catalogue.now ≡ None }
    requires asks { MayRead here.shared.catalogue.now (L.asks look.old) }
    ensures same { seat.new.shelf ≡ seat.old.shelf }
    ensures held { IfErr result (λ place. place < here.entry.shared.shelf.now.places) }
    ensures stays { IfErr result (λ _. Learns seat.old seat.new IsStill) }
    ensures kept { IfErr result (λ _. look.new ≡ look.old) }
    ensures lent { IfOk result (λ _. L.lent look.old look.new) }
    ensures told { IfOk result (λ t. SessionLooks seat.old seat.new (heard_by L.asks look.old (L.replies t)) (holds (L.sees look.old look.new t)) (L.point t)) }
{
    let mut held = try_hold_ready::<Brand, L>(here, seat, look)?;
    let node = held.value.replica_mut();
    let told = look.at(here.shared.catalogue, node);
    here.shared.shelf.put::<Brand>(seat, held);
    Ok(told)
}

/// [`try_look`], but waits for a place that another session holds.
pub fn look_waiting<R: Wait, L: Look>(
    rt: &R,
    here: Here<'_>,
    seat: &mut Seat<Value>,
    look: &mut L,
) -> L::Told
    requires own { seat.old.shelf ≡ here.shared.shelf.now.id }
    requires idle { Knows seat.old (λ k. IsFree here.caller k × IsOn here.shared k × IsAtRest k.note) }
    requires may { L.may look.old here.shared.catalogue.now }
    requires allowed { L.refusal look.old here.shared.catalogue.now ≡ None }
    requires asks { MayRead here.shared.catalogue.now (L.asks look.old) }
    ensures same { seat.new.shelf ≡ seat.old.shelf }
    ensures lent { L.lent look.old look.new }
    ensures told { SessionLooks seat.old seat.new (heard_by L.asks look.old (L.replies result)) (holds (L.sees look.old look.new result)) (L.point result) }
{
    for _ in rt.forever() {
        match try_look(here, seat, look) {
            Ok(told) => return told,
            Err(place) => here.shared.shelf.wait(rt, seat, place),
        }
    }
    unreached!()
}
