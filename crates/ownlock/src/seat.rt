// What a thread steps with.
ghost use Rattle.std.specs.Prelude.{◌≡◌};
ghost use Rattle.ownlock.specs.Invariant.{out_of};

use crate::rule::Pass;
use crate::shelved::Shelved;
use std::marker::Model;

/// What a thread takes and puts with. It is one session, or, before it is split, several. It knows the progress that it saw
/// last, and its own note exactly.
pub struct Seat<V: Shelved> {
    pub(crate) pass: Pass<V>,
}

impl<V: Shelved> Model for Seat<V> {
    ghost use Rattle.std.specs.Prelude.{◌≡◌};
    ghost use Rattle.ownlock.specs.Seats.{SeatView};
    ghost use Rattle.ownlock.specs.Invariant.{out_of};

    ghost Value = { SeatView V.Progress V.SessionNote V };

    ghost view = { λ a. record { shelf = a.pass.table_id; sessions = a.pass.me.0 } };

    // The slots that are out with the seat are those of the places that its sessions hold.
    ghost invariant = { λ a. a.pass.me.1 ≡ out_of a.pass.me.0 };
}

impl<V: Shelved> Seat<V> {
    pub(crate) fn into_pass(self) -> Pass<V>
        ensures shelf { result.table_id ≡ self.shelf }
        ensures sessions { result.me ≡ (self.sessions, out_of self.sessions) }
    {
        let Seat { pass } = self;
        pass
    }
}

impl<V: Shelved> Drop for Seat<V> {
    fn drop(self) {
        let Self { pass } = self;
        drop(pass);
    }
}
