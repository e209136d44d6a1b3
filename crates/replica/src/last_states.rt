// The state that a log ends in.

ghost use Rattle.std.specs.Prelude.{◌≡◌};
ghost use Rattle.loader.specs.CatalogueView.{sizes_for};
ghost use Rattle.loader.specs.StoreState.{sizes_of};
ghost use Rattle.oplog.specs.History.{after};
ghost use Rattle.replica.specs.StoreMeaning.{AreUpdates, store_meaning};

use crate::operations::{Ground, perform_all};
use loader::{Catalogue, StoreState};
use oplog::LogState;

/// The state after the whole history of a log: what the records that it keeps leave of its base. Their operations are updates of the
/// catalogue, whose sizes the base has. Takes no memory, and the time of the operations.
pub fn last_state(log: LogState, catalogue: &Catalogue) -> StoreState
    requires sizes { sizes_of log.base_state ≡ sizes_for catalogue.now }
    requires allowed { AreUpdates catalogue.now log.records }
    ensures state { result ≡ after store_meaning catalogue.now log.base_state log.records }
{
    let (state, hand) = log.into_base();
    let (maps, programs) = state.into_parts();
    let mut ground = Ground::new(maps, programs);
    perform_all(&mut ground, catalogue, &hand.records());
    StoreState::of(ground.maps, ground.programs)
}
