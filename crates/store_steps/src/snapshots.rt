// States that are taken while the store runs.

ghost use Rattle.std.specs.Prelude.{◌≡◌, None};
ghost use Rattle.loader.specs.CatalogueView.{sizes_for};
ghost use Rattle.loader.specs.StoreState.{sizes_of};
ghost use Rattle.store_steps.specs.Seen.{AState};

use crate::looks::Look;
use loader::{Catalogue, StoreState};
use node::NodeReplica;
use std::convert::Infallible;

/// A look for the whole state, which is copied into another.
#[derive(Drop)]
pub struct Snapshot<'a> {
    /// The state that becomes the store's.
    pub into: &'a mut StoreState,
}

impl Look for Snapshot<'_> {
    type Told = u64;

    type Refused = Infallible;

    ghost may = { λ s c. sizes_of s.into.now ≡ sizes_for c };

    ghost refusal = { λ s c. None };

    ghost point = { λ point. point };

    ghost sees = { λ old new point. AState new.into.now };

    ghost asks = { λ look. None };

    ghost replies = { λ told. 0 };

    ghost lent = { λ old new. (new.into.ghost_name ≡ old.into.ghost_name) × (sizes_of new.into.now ≡ sizes_of old.into.now) };

    fn check(&self, _catalogue: &Catalogue) -> Result<(), Infallible> {
        Ok(())
    }

    fn at(&mut self, _catalogue: &Catalogue, node: &mut NodeReplica) -> u64 {
        self.into
            .copy_parts(node.replica.maps(), node.replica.programs());
        node.replica.tail()
    }
}
