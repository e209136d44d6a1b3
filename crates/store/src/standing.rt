// Two sessions in a state of their store.

ghost use Rattle.std.specs.Prelude.{◌≡◌, [], ◌∷◌};
ghost use Rattle.ownlock.specs.Invariant.{StandsThere};
ghost use Rattle.store_steps.specs.Shelving.{store_opening, store_rules};
ghost use Rattle.store.specs.Sessions.{known_of};

use crate::session::Session;
use ownlock::Shelf;
use store_steps::Value;

impl Session {
    // Both sessions, as they are. Between, their seats were one, which stood in a state of the shelf.
    pub(crate) fn stand_beside(self, other: Session, shelf: &Shelf<Value>) -> (Session, Session)
        requires own { (self.shelf ≡ shelf.now.id) × (other.shelf ≡ shelf.now.id) }
        ensures same { (result.0 ≡ self) × (result.1 ≡ other) }
        ensures stands { StandsThere store_rules (store_opening shelf.now.setup) (known_of self ∷ known_of other ∷ []) }
    {
        let Session {
            seat: mut one,
            caller: one_caller,
            combining: one_combining,
            room: one_room,
        } = self;
        let Session {
            seat,
            caller,
            combining,
            room,
        } = other;
        shelf.join(&mut one, seat);
        shelf.stand(&mut one);
        let seat = shelf.split_off(&mut one);
        (
            Session {
                seat: one,
                caller: one_caller,
                combining: one_combining,
                room: one_room,
            },
            Session {
                seat,
                caller,
                combining,
                room,
            },
        )
    }
}
