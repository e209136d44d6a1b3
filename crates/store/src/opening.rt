// What a shelf with desks is opened with: the log, and then the replica and the desk of each node.

ghost use Rattle.std.specs.Prelude.{◌≡◌, ◌+◌, ◌*◌, ◌<◌, ◌≤◌, [], length, replicate, vec_capacity, IfOk};
ghost use Rattle.std.specs.List.{All};
ghost use Rattle.maps.specs.Shapes.{AreShapesSupported};
ghost use Rattle.loader.specs.CatalogueView.{IsCatalogue, OpensOn};
ghost use Rattle.replica.specs.Refusals.{IsRoomFor};
ghost use Rattle.oplog.specs.Limits.{AreSizes};
ghost use Rattle.oplog.specs.declared.configuration.TheConstants.{MAX_NODES, MAX_NODE_SLOTS};
ghost use Rattle.ownlock.specs.Knowledge.{AllAgree};
ghost use Rattle.accounts.specs.LogSteps.{first_progress, fresh_note};
ghost use Rattle.ownlock.specs.Seats.{all_sessions};
ghost use Rattle.store_steps.specs.Shelving.{IsOpenedReplica, opening_notes, opening_progress, sessions_of, store_rules};
ghost use Rattle.store.specs.Sessions.{fresh_sessions};
ghost use Rattle.store.specs.Places.{AreFilled, HaveReplicas, IsOpenedDesk, AreKept, AreShelved};

use crate::own_room::OwnRoom;
use crate::session::Session;
use combiner::Desk;
use loader::{Catalogue, StoreState};
use maps::Shape;
use oplog::Sizes;
use ownlock::{Seat, Shelf};
use std::alloc::{AllocError, Global};
use store_steps::{Caller, Setup, Value, shelved_log, shelved_replica};

// A new desk, as a value of the shelf.
fn shelved_desk(alloc: Global, node: u16, slots: usize) -> Result<Value, AllocError>
    requires node { node < MAX_NODES }
    requires slots { slots ≤ MAX_NODE_SLOTS }
    ensures desk { IfOk result (λ v. IsOpenedDesk slots node v) }
{
    let desk = Desk::open(alloc, node, slots)?;
    Ok(Value::Desk(Box::new(alloc, desk)?))
}

// A new replica for each node, behind the values that there are, on what the catalogue opens on.
fn push_replicas(
    alloc: Global,
    values: &mut Vec<Option<Value>>,
    config: &Sizes,
    catalogue: &Catalogue,
    state: Option<&StoreState>,
) -> Result<(), AllocError>
    requires opens { OpensOn catalogue.now state }
    requires config { AreSizes config.now }
    ensures count { IfOk result (λ _. length values.new.items ≡ length values.old.items + config.now.nodes) }
    ensures kept { IfOk result (λ _. AreKept values.old.items values.new.items) }
    ensures replicas { IfOk result (λ _. HaveReplicas (length values.old.items) config.now.nodes catalogue.now config.now.window values.new.items) }
{
    let window = config.window as usize;
    for _node in 0..config.nodes {
        values.push(Some(shelved_replica(alloc, catalogue, state, window)?))?;
    }
    Ok(())
}

// A new desk for each node, behind the values that there are.
fn push_desks(
    alloc: Global,
    values: &mut Vec<Option<Value>>,
    nodes: u16,
    slots: usize,
) -> Result<(), AllocError>
    requires nodes { nodes ≤ MAX_NODES }
    requires slots { slots ≤ MAX_NODE_SLOTS }
    ensures count { IfOk result (λ _. length values.new.items ≡ length values.old.items + nodes) }
    ensures kept { IfOk result (λ _. AreKept values.old.items values.new.items) }
    ensures desks { IfOk result (λ _. AreFilled (length values.old.items) nodes (λ i v. IsOpenedDesk slots i v) values.new.items) }
{
    for node in 0..nodes {
        values.push(Some(shelved_desk(alloc, node, slots)?))?;
    }
    Ok(())
}

// The log, each node's replica, and each node's desk, in the order of their places.
pub(crate) fn shelved_places(
    alloc: Global,
    config: &Sizes,
    catalogue: &Catalogue,
    state: Option<&StoreState>,
) -> Result<Vec<Option<Value>>, AllocError>
    requires whole { IsCatalogue catalogue.now }
    requires opens { OpensOn catalogue.now state }
    requires config { AreSizes config.now }
    ensures values { IfOk result (λ v. AreShelved config.now catalogue.now v.items) }
    ensures agree { IfOk result (λ v. AllAgree store_rules (first_progress config.now catalogue.now) (replicate (sessions_of config.now) fresh_note) v.items) }
{
    let window = config.window as usize;
    let nodes = config.nodes as u16;
    let mut values = Vec::with_capacity(alloc, 2 * nodes as usize + 1)?;
    let log = shelved_log(alloc, catalogue, state, window, config.limit as usize)?;
    values.push(Some(log))?;
    push_replicas(alloc, &mut values, config, catalogue, state)?;
    push_desks(alloc, &mut values, nodes, config.slots as usize)?;
    Ok(values)
}

// How many sessions a store has: one for each slot of each node.
pub(crate) fn session_count(config: &Sizes) -> usize
    requires config { AreSizes config.now }
    ensures count { result ≡ sessions_of config.now }
{
    config.nodes as usize * config.slots as usize
}

// The slot of the session with that number.
fn caller_of(slots: usize, number: usize) -> Caller
    requires some { 0 < slots }
    ensures own { number ≡ result.node * slots + result.slot }
    ensures within { result.slot < slots }
{
    Caller {
        node: number / slots,
        slot: number % slots,
    }
}

// The own room of each of so many sessions of a store of this catalogue.
pub(crate) fn session_rooms(
    alloc: Global,
    catalogue: &Catalogue,
    count: usize,
) -> Result<Vec<OwnRoom>, AllocError>
    ensures rooms { IfOk result (λ v. All (IsRoomFor catalogue.now.shapes catalogue.now.long) v.items × (length v.items ≡ count)) }
{
    let mut rooms = Vec::with_capacity(alloc, count)?;
    for _session in 0..count {
        rooms.push_reserved(OwnRoom::open(alloc, catalogue)?);
    }
    Ok(rooms)
}

// A session for each slot of each node, in ascending order, each with a seat and a room of its own.
pub(crate) fn push_sessions(
    shelf: &Shelf<Value>,
    mut seat: Seat<Value>,
    setup: &Setup,
    mut rooms: Vec<OwnRoom>,
    sessions: &mut Vec<Session>,
)
    requires own { seat.shelf ≡ shelf.now.id }
    requires config { AreSizes setup.now.config }
    requires all { seat.sessions ≡ all_sessions (opening_progress setup.now) 0 (opening_notes setup.now) }
    requires rooms { All (IsRoomFor setup.now.catalogue.shapes setup.now.catalogue.long) rooms.items × (length rooms.items ≡ sessions_of setup.now.config) }
    requires room { (sessions.old.items ≡ []) × (sessions_of setup.now.config ≤ vec_capacity sessions.old) }
    ensures sessions { sessions.new.items ≡ fresh_sessions shelf.now.id setup.now.config setup.now.catalogue 0 (sessions_of setup.now.config) }
{
    for number in 0..session_count(&setup.config) {
        let Some(room) = rooms.pop() else {
            unreachable!()
        };
        let own = shelf.split(&mut seat);
        let caller = caller_of(setup.config.slots as usize, number);
        sessions.push_reserved(Session::new(own, caller, room));
    }
}
