// What a session has for itself alone.

ghost use Rattle.std.specs.Prelude.{◌≡◌, IfOk};
ghost use Rattle.loader.specs.Installed.{no_programs};

use combiner::Batch;
use loader::{Catalogue, Installed};
use std::alloc::{AllocError, Global};
use std::marker::Model;

// A session's own room, which goes with it wherever it goes. It is seen as its room for a program.
#[derive(Drop)]
pub(crate) struct OwnRoom {
    // For the requests that it combines.
    pub(crate) batch: Batch,
    // To find out whether a program may be installed.
    pub(crate) installed: Installed,
}

impl Model for OwnRoom {
    ghost use Rattle.loader.specs.Installed.{InstalledView};

    ghost Value = { InstalledView };

    ghost view = { λ r. r.installed };
}

impl OwnRoom {
    // Takes the memory of a session of a store of this catalogue. No call of the session takes memory.
    pub(crate) fn open(alloc: Global, catalogue: &Catalogue) -> Result<OwnRoom, AllocError>
        ensures none { IfOk result (λ r. r ≡ no_programs catalogue.now.shapes 1 catalogue.now.long) }
    {
        let installed = Installed::open(alloc, catalogue.shapes(), 1, catalogue.long())?;
        let batch = Batch::open(alloc)?;
        Ok(OwnRoom { batch, installed })
    }

    // The two rooms as one.
    pub(crate) fn of(batch: Batch, installed: Installed) -> OwnRoom
        ensures room { result ≡ installed }
    {
        OwnRoom { batch, installed }
    }

    // Gives the two rooms.
    pub(crate) fn into_parts(self) -> (Batch, Installed)
        ensures room { result.1 ≡ self }
    {
        let OwnRoom { batch, installed } = self;
        (batch, installed)
    }
}
