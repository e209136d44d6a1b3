// The command `run`, with the text of the state that it leaves.

ghost use Rattle.std.specs.Prelude.{◌≡◌, IfOk};
ghost use Rattle.engine.specs.Parted.{parted_of};
ghost use Rattle.running.specs.KeptRun.{dumped_run, kept_of, with_dump};

use crate::runs::{Kept, Run};
use engine::{Command, Destination, Gathered, Notes, Parted, StoreWatcher};
use std::alloc::{AllocError, Global};

// What a run writes, and the text of the state that it leaves, which goes to this destination.
fn dumped(alloc: Global, kept: Kept, to: Destination) -> Result<Parted, AllocError>
    ensures { IfOk result (λ p. parted_of p ≡ with_dump to (kept_of kept)) }
{
    let Kept { reply, state } = kept;
    match (to, state) {
        (Destination::Nowhere, _) | (_, None) => Ok(Parted::whole(reply)),
        (_, Some(state)) => Parted::with_state(alloc, reply, state, to),
    }
}

/// Runs a script as [`Run`] does, and makes the text of the state that it leaves, as [`dumps::dump`] writes it.
///
/// Where a line is bad, or where nothing was run, there is no such text.
#[derive(Drop)]
pub struct DumpedRun<'w, V> {
    /// The run.
    pub run: Run<'w, V>,
    /// Where the text of the state goes.
    pub dump: Destination,
}

impl<V: StoreWatcher> Command for DumpedRun<'_, V> {
    type Made = Parted;

    ghost may_make = { λ c t p. parted_of p ≡ dumped_run c.run.is_signed c.dump t };

    fn make(&self, alloc: Global, read: Gathered, notes: &mut Notes) -> Result<Parted, AllocError> {
        let kept = self.run.make(alloc, read, notes)?;
        dumped(alloc, kept, self.dump)
    }
}
