// The values on a store's shelf: the log, and the replica and the desk of each node.

ghost use Rattle.std.specs.Prelude.{◌≡◌, Some, IsSome, IfOk};
ghost use Rattle.loader.specs.CatalogueView.{OpensOn};
ghost use Rattle.oplog.specs.Limits.{IsWindow, IsLimit};
ghost use Rattle.store_steps.specs.Lending.{log_of, replica_of, desk_of};
ghost use Rattle.store_steps.specs.Shelving.{IsOpenedLog, IsOpenedReplica};

use combiner::Desk;
use loader::{Catalogue, StoreState};
use node::NodeReplica;
use oplog::{Hand, LogRoom, LogState, Sizes};
use ownlock::Shelved;
use replica::Replica;
use std::alloc::{AllocError, Global};
use unreached::unreached;

/// What a store is opened with.
#[derive(Drop)]
pub struct Setup {
    /// The sizes of the store.
    pub config: Sizes,
    /// The maps and programs of the store.
    pub catalogue: Catalogue,
}

/// What a place of the shelf has. Each is boxed, so that taking a place moves a pointer. A replica's hand is empty while it is
/// there.
#[derive(Drop)]
pub enum Value {
    Log(Box<LogState>),
    Replica(Box<NodeReplica>),
    Desk(Box<Desk>),
}

impl Value {
    ghost use Rattle.std.specs.Borrow.{sem};
    ghost use Rattle.store_steps.specs.Lending.{LendsLog, LendsReplica, LendsDesk};

    // The log that the value is.
    pub(crate) fn log(&self) -> &LogState
        requires log { IsSome (log_of self.now) }
        ensures log { log_of self.now ≡ Some result.now }
    {
        match self {
            Value::Log(log) => log,
            Value::Replica(_) | Value::Desk(_) => unreached!(),
        }
    }

    // The log that the value is, to be changed.
    pub(crate) fn log_mut(&mut self) -> &mut LogState
        requires log { IsSome (log_of self.old) }
        ensures* writes_back { sem 𝓛 (LendsLog self.entry result) }
        ensures log { log_of self.old ≡ Some result.now }
    {
        match self {
            Value::Log(log) => log,
            Value::Replica(_) | Value::Desk(_) => unreached!(),
        }
    }

    // The node's replica that the value is, with its hand.
    pub(crate) fn replica(&self) -> &NodeReplica
        requires replica { IsSome (replica_of self.now) }
        ensures replica { replica_of self.now ≡ Some result.now }
    {
        match self {
            Value::Replica(node) => node,
            Value::Log(_) | Value::Desk(_) => unreached!(),
        }
    }

    // The node's replica that the value is, with its hand, to be changed.
    pub(crate) fn replica_mut(&mut self) -> &mut NodeReplica
        requires replica { IsSome (replica_of self.old) }
        ensures* writes_back { sem 𝓛 (LendsReplica self.entry result) }
        ensures replica { replica_of self.old ≡ Some result.now }
    {
        match self {
            Value::Replica(node) => node,
            Value::Log(_) | Value::Desk(_) => unreached!(),
        }
    }

    // The desk that the value is.
    pub(crate) fn desk(&self) -> &Desk
        requires desk { IsSome (desk_of self.now) }
        ensures desk { desk_of self.now ≡ Some result.now }
    {
        match self {
            Value::Desk(desk) => desk,
            Value::Log(_) | Value::Replica(_) => unreached!(),
        }
    }

    // The desk that the value is, to change it.
    pub(crate) fn desk_mut(&mut self) -> &mut Desk
        requires desk { IsSome (desk_of self.old) }
        ensures* writes_back { sem 𝓛 (LendsDesk self.entry result) }
        ensures desk { desk_of self.old ≡ Some result.now }
    {
        match self {
            Value::Desk(desk) => desk,
            Value::Log(_) | Value::Replica(_) => unreached!(),
        }
    }
}

impl Shelved for Value {
    type Progress = accounts::Progress<Catalogue>;

    type SessionNote = accounts::SessionNote;

    type Setup = Setup;

    ghost use Rattle.replica.specs.StoreMeaning.{store_meaning};
    ghost use Rattle.accounts.proofs.Export.{desk_store, laws_seen};
    ghost use Rattle.store_steps.specs.Shelving.{view_of, IsSized, store_rules, opening_progress, opening_notes, places_of};

    ghost rules = { store_rules };

    ghost first_progress = { opening_progress };

    ghost places = { λ s. places_of s.config };

    ghost first_notes = { opening_notes };

    ghost laws = { laws_seen (desk_store store_meaning) view_of IsSized };
}

/// A new log on what the catalogue opens on, as a value of the shelf.
pub fn shelved_log(
    alloc: Global,
    catalogue: &Catalogue,
    state: Option<&StoreState>,
    window: usize,
    limit: usize,
) -> Result<Value, AllocError>
    requires opens { OpensOn catalogue.now state }
    requires window { IsWindow window }
    requires limit { IsLimit limit }
    ensures log { IfOk result (λ v. IsOpenedLog catalogue.now window limit v) }
{
    let base = StoreState::opening(alloc, catalogue, state)?;
    let long = catalogue.longest_part();
    let log = LogState::open(alloc, base, LogRoom { window, long }, limit)?;
    Ok(Value::Log(Box::new(alloc, log)?))
}

/// A new replica of it with its empty hand, as a value of the shelf.
pub fn shelved_replica(
    alloc: Global,
    catalogue: &Catalogue,
    state: Option<&StoreState>,
    window: usize,
) -> Result<Value, AllocError>
    requires opens { OpensOn catalogue.now state }
    requires window { IsWindow window }
    ensures replica { IfOk result (λ v. IsOpenedReplica catalogue.now window v) }
{
    let replica = Replica::open(StoreState::opening(alloc, catalogue, state)?);
    let hand = Hand::open(alloc, window, catalogue.longest_part())?;
    Ok(Value::Replica(Box::new(alloc, NodeReplica { replica, hand })?))
}
