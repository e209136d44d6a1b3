// The sessions of a store that are not attached.

ghost use Rattle.std.specs.Prelude.{◌≡◌, ◌↔◌, ◌<◌, length, is_some, IfOk, IfSome, IsSome, IsTrue, MatchOption, None, set};
ghost use Rattle.std.specs.List.{list_all};
ghost use Rattle.std.specs.Arc.{arc_value};
ghost use Rattle.loader.specs.CatalogueView.{number_named};
ghost use Rattle.host_calls.specs.Seating.{AreInOrder};
ghost use Rattle.host_calls.specs.States.{new_state_of};
ghost use Rattle.host_calls.specs.Stores.{IsGiven, IsKept, IsOfNode, IsTaken, IsUnmoved, NoneIsFree, NoneIsFreeBefore, seated};

use crate::attached::Attached;
use std::alloc::{AllocError, Global};
use std::marker::Model;
use std::sync::Arc;
use store::{Store, StoreInfo, StoreState};

/// A store, and a place for each of its sessions, in ascending order. A place is empty while its session is attached.
#[derive(Drop)]
pub struct Seats {
    pub(crate) store: Arc<Store, Global>,
    // How many sessions a node has.
    pub(crate) slots: usize,
    pub(crate) places: Vec<Option<Attached>>,
}

/// Seats at which only sessions of the store itself are, with no update out.
#[derive(Drop)]
pub struct Pool {
    seats: Seats,
}

impl Model for Pool {
    ghost use Rattle.std.specs.Arc.{arc_value};
    ghost use Rattle.host_calls.specs.declared.pool.Seats.{Seats};
    ghost use Rattle.host_calls.specs.contracts.pool.Seats as seats_row;
    ghost use Rattle.host_calls.specs.Seating.{AreInOrder};

    ghost Value = { Seats };

    ghost coded = { seats_row.the_row.coded };

    ghost view = { λ p. p.seats };

    ghost invariant = { λ p. AreInOrder (arc_value p.seats.store) p.seats.places.items };
}

impl Pool {
    pub fn new(store: Arc<Store, Global>, slots: usize, places: Vec<Option<Attached>>) -> Pool
        requires order { AreInOrder (arc_value store) places.items }
        ensures { (result.store ≡ store) × (result.slots ≡ slots) × (result.places ≡ places) }
    {
        let seats = Seats {
            store,
            slots,
            places,
        };
        Pool { seats }
    }

    // Whether the session at this place is one of the node, and not attached.
    fn is_free(&self, node: u64, place: usize) -> bool
        requires there { place < length self.now.places.items }
        ensures free { IsTrue result ↔ (IsOfNode self.now node place × IsSome (seated self.now place)) }
    {
        let seats = &self.seats;
        seats.slots > 0 && (place / seats.slots) as u64 == node && seats.places[place].is_some()
    }

    // The first place of a session of the node that is not attached.
    fn free_place(&self, node: u64) -> Option<usize>
        ensures free { MatchOption result (NoneIsFree self.now node) (λ k. IsOfNode self.now node k × IsSome (seated self.now k)) }
        ensures first { IfSome result (NoneIsFreeBefore self.now node) }
    {
        for place in 0..self.seats.places.len() {
            if self.is_free(node, place) {
                return Some(place);
            }
        }
        None
    }

    /// Takes a session of this node out: of those that are there, the one at the first place.
    pub fn take(&mut self, node: u64) -> Option<Attached>
        ensures kept { IsKept self.old self.new }
        ensures taken { MatchOption result (NoneIsFree self.old node × IsUnmoved self.old self.new) (λ a. IsTaken self.old self.new node a) }
    {
        let place = self.free_place(node)?;
        self.take_at(place)
    }

    // Takes out what stands at this place.
    fn take_at(&mut self, place: usize) -> Option<Attached>
        requires there { place < length self.old.places.items }
        ensures kept { IsKept self.old self.new }
        ensures taken { (result ≡ seated self.old place) × (self.new.places.items ≡ set self.old.places.items place None) }
    {
        self.seats.places[place].take()
    }

    /// Puts a session of this store, for which nothing is out, back where it stood.
    pub fn give(&mut self, attached: Attached)
        requires own { attached.store ≡ arc_value self.old.store }
        requires idle { attached.session.note.pending ≡ None }
        ensures kept { IsKept self.old self.new }
        ensures given { IsGiven self.old self.new attached }
    {
        let place = attached.place();
        let Seats { store, places, .. } = &mut self.seats;
        if let Some(other) = places[place].take() {
            let _place = other.place();
            let _both = store.stand(attached.into_session(), other.into_session());
            unreachable!() // two sessions have two numbers
        }
        places[place] = Some(attached);
    }

    /// The store, and what stands at its places.
    pub fn into_parts(self) -> (Arc<Store, Global>, Vec<Option<Attached>>)
        ensures parts { (result.0 ≡ self.store) × (result.1 ≡ self.places) }
        ensures order { AreInOrder (arc_value result.0) result.1.items }
    {
        let Pool { seats } = self;
        let Seats {
            store,
            slots: _slots,
            places,
        } = seats;
        (store, places)
    }

    /// How many places it has.
    pub fn count(&self) -> usize
        ensures count { result ≡ length self.now.places.items }
    {
        self.seats.places.len()
    }

    /// Whether no session is attached.
    pub fn is_whole(&self) -> bool
        ensures whole { result ≡ list_all is_some self.now.places.items }
    {
        self.seats.places.iter().all(|place| place.is_some())
    }

    /// The number of the program of this name.
    pub fn number(&self, name: &str) -> Option<u16>
        ensures number { result ≡ number_named (arc_value self.now.store).catalogue.programs name.now }
    {
        self.seats.store.catalogue().number(name)
    }

    /// What the store is from its opening on.
    pub fn info(&self) -> StoreInfo
        ensures sizes { result.sizes ≡ (arc_value self.now.store).config }
        ensures maps { result.maps ≡ length (arc_value self.now.store).catalogue.shapes }
        ensures programs { result.programs ≡ length (arc_value self.now.store).catalogue.programs }
    {
        self.seats.store.info()
    }

    /// A new state of the store's sizes.
    pub fn new_state(&self, alloc: Global) -> Result<StoreState, AllocError>
        ensures state { IfOk result (λ s. s ≡ new_state_of (arc_value self.now.store)) }
    {
        StoreState::open(alloc, self.seats.store.catalogue())
    }
}
