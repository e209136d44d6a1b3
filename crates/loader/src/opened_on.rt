// What a store opens on, as clauses alone see it.

ghost use Rattle.std.specs.Prelude.{◌≡◌};
ghost use base.Fml.{ftrue};
ghost use Rattle.loader.specs.StoreState.{StoreState as State};
ghost use Rattle.loader.specs.Codes.{state_code};

use crate::store_state::StoreState;
use std::marker::Model;

// A state of which nothing is kept: it has no bytes and owns nothing. `Snapshot<StoreState>` would say the same, but the prover finds no proof
// that a catalogue which holds one may be shared between threads.
pub(crate) struct OpenedOn {
    pub ghost value: { State } by { state_code },
}

impl Model for OpenedOn {
    ghost also_owns = { λ _. ftrue };
}

impl OpenedOn {
    // What this state is now.
    pub(crate) fn of(state: &StoreState) -> OpenedOn
        ensures { result.value ≡ state.now }
    {
        let _ = state;
        OpenedOn {}
    }
}

unsafe impl Send for OpenedOn {}

unsafe impl Sync for OpenedOn {}

impl Drop for OpenedOn {
    fn drop(self) {
        let Self {} = self;
    }
}
