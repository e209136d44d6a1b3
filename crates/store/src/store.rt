// A store of replicas.

ghost use Rattle.std.specs.Prelude.{◌≡◌, ◌≢◌, ◌↔◌, ◌+◌, ◌<◌, ◌≤◌, [], ◌∷◌, length, IfOk, IfErr, MatchResult};
ghost use Rattle.oplog.specs.declared.configuration.OpenError.TheVariants.{OtherState, OutOfLimits};
ghost use Rattle.loader.specs.CatalogueView.{MayOpenOn, OpensOn, opened_on, with_long_places, with_places};
ghost use Rattle.oplog.specs.Limits.{sizes_in, AreSizes, IsConfig};
ghost use Rattle.store_steps.specs.Shelving.{sessions_of};
ghost use Rattle.store.specs.Sessions.{HasNodes, IsOf, fresh_sessions};
ghost use Rattle.store.specs.Explained.{ClosesExplained};
ghost use Rattle.store.specs.Linear.{AreExplained, AreLinearized, AreNew};
ghost use Rattle.store.specs.Opening.{AreOf, AreIdle, IsClosed, known_back};

use crate::closed::Closed;
use crate::opening::{push_sessions, session_count, session_rooms, shelved_places};
use crate::session::Session;
use loader::{Catalogue, StoreState};
use oplog::{Config, OpenError, Sizes};
use ownlock::{Seat, Shelf};
use std::alloc::{AllocError, Global};
use std::marker::Model;
use store_steps::{Setup, Shared, Value, records_worth};

/// A log of updates, and a replica of the maps for each node. Sessions work on it from any number of threads.
///
/// # Examples
///
/// ```
/// use store::{Answer, Config, ReadAnswer, Store, load_manifest};
///
/// let manifest = "map array 8 16\nprogram set update 0 five.hex\nprogram see read 0 five.hex\n";
/// let files = [("five.hex", "b7000000050000009500000000000000")]; // a program that replies 5
/// let catalogue = load_manifest(rt.alloc(), manifest, &files)?;
/// let config = Config { nodes: 1, slots: 1, window: 16, limit: 100, spare: 0 };
/// let (store, mut sessions) = Store::open(rt.alloc(), config, catalogue)?;
///
/// let answer = sessions[0].invoke(&rt, &store, 0, &[]);
/// let seen = sessions[0].read(&rt, &store, 1, &[]);
/// let closed = match store.close(sessions) { Ok(closed) => closed, Err(_) => unreachable!() };
/// assert_eq!(rt; answer, Ok(Answer { index: 0, reply: 5 }));
/// assert_eq!(rt; seen, Ok(ReadAnswer { point: 1, reply: 5 }));
/// assert_eq!(rt; closed.log().tail(), 1);
/// ```
#[derive(Drop)]
pub struct Store {
    shelf: Shelf<Value>,
    setup: Setup,
    // What its sessions go by that choose between a copy of the maps and a replay.
    worth: usize,
}

impl Model for Store {
    ghost use Rattle.std.specs.Prelude.{◌≡◌, ◌+◌};
    ghost use Rattle.oplog.specs.Limits.{AreSizes};
    ghost use Rattle.store.specs.Sessions.{StoreView};
    ghost use Rattle.store.specs.Codes.{store_code};

    ghost Value = { StoreView };

    ghost coded = { store_code };

    ghost view = { λ s. record { id = s.shelf.id; config = s.setup.config; catalogue = s.setup.catalogue } };

    // The shelf was opened for this setup, and has a place for the log, and two for each node: its replica's and its desk's.
    ghost invariant = { λ s. (s.shelf.setup ≡ s.setup) × (s.shelf.places ≡ 1 + s.setup.config.nodes + s.setup.config.nodes) × AreSizes s.setup.config };
}

impl Store {
    /// A store of the maps and programs of a catalogue, with as many places behind these as the configuration says, and its sessions: one
    /// for each slot of each node, in ascending order. There is no operation yet. No later call takes memory.
    ///
    /// # Errors
    ///
    /// O1 where a number of the configuration is out of its limits, O2 where there is no memory.
    ///
    /// # Examples
    ///
    /// ```
    /// use store::{Config, Store, load_manifest};
    ///
    /// let catalogue = load_manifest(rt.alloc(), "map array 8 16\n", &[])?;
    /// let config = Config { nodes: 2, slots: 3, window: 16, limit: 100, spare: 0 };
    /// let (store, sessions) = Store::open(rt.alloc(), config, catalogue)?;
    ///
    /// let count = sessions.len();
    /// let closed = match store.close(sessions) { Ok(closed) => closed, Err(_) => unreachable!() };
    /// assert_eq!(rt; count, 6);
    /// assert_eq!(rt; closed.log().tail(), 0);
    /// ```
    pub fn open(
        alloc: Global,
        config: Config,
        catalogue: Catalogue,
    ) -> Result<(Store, Vec<Session>), OpenError>
        ensures limits { IfErr result (λ e. (e ≡ OutOfLimits) ↔ (IsConfig config → ⊥)) }
        ensures other { IfErr result (λ e. e ≢ OtherState) }
        ensures new { IfOk result (λ t. AreNew t.1.items) }
        ensures openable { IfOk result (λ t. IsConfig config) }
        ensures store { IfOk result (λ t. (t.0.config ≡ sizes_in config) × (t.0.catalogue ≡ with_places catalogue config.spare)) }
        ensures sessions { IfOk result (λ t. t.1.items ≡ fresh_sessions t.0.id t.0.config t.0.catalogue 0 (sessions_of (sizes_in config))) }
        ensures count { IfOk result (λ t. length t.1.items ≡ sessions_of (sizes_in config)) }
        ensures own { IfOk result (λ t. AreOf t.0 t.1.items) }
    {
        if !config.is_within_limits() {
            return Err(OpenError::OutOfLimits);
        }
        Store::open_sized(alloc, config.sizes(), catalogue)
    }

    /// A store of these sizes, as [`Store::open`] has it, whose history may have up to [`ENDLESS`](crate::ENDLESS) records.
    ///
    /// # Errors
    ///
    /// O1 where a size is out of its limits, O2 where there is no memory.
    ///
    /// # Examples
    ///
    /// ```
    /// use store::{Answer, ENDLESS, Sizes, Store, load_manifest};
    ///
    /// let manifest = "map array 8 16\nprogram five update 0 five.hex\n";
    /// let files = [("five.hex", "b7000000050000009500000000000000")]; // a program that replies 5
    /// let catalogue = load_manifest(rt.alloc(), manifest, &files)?;
    /// let sizes = Sizes { nodes: 1, slots: 1, window: 16, limit: ENDLESS, spare: 0, long: 0 };
    /// let (store, mut sessions) = Store::open_sized(rt.alloc(), sizes, catalogue)?;
    ///
    /// let answer = sessions[0].invoke(&rt, &store, 0, &[]);
    /// let _closed = match store.close(sessions) { Ok(closed) => closed, Err(_) => unreachable!() };
    /// assert_eq!(rt; answer, Ok(Answer { index: 0, reply: 5 }));
    /// ```
    pub fn open_sized(
        alloc: Global,
        sizes: Sizes,
        catalogue: Catalogue,
    ) -> Result<(Store, Vec<Session>), OpenError>
        ensures limits { IfErr result (λ e. (e ≡ OutOfLimits) ↔ (AreSizes sizes → ⊥)) }
        ensures other { IfErr result (λ e. e ≢ OtherState) }
        ensures new { IfOk result (λ t. AreNew t.1.items) }
        ensures openable { IfOk result (λ t. AreSizes sizes) }
        ensures store { IfOk result (λ t. (t.0.config ≡ sizes) × (t.0.catalogue ≡ with_long_places catalogue sizes.spare sizes.long)) }
        ensures sessions { IfOk result (λ t. t.1.items ≡ fresh_sessions t.0.id sizes (with_long_places catalogue sizes.spare sizes.long) 0 (sessions_of sizes)) }
        ensures count { IfOk result (λ t. length t.1.items ≡ sessions_of sizes) }
        ensures own { IfOk result (λ t. AreOf t.0 t.1.items) }
    {
        if !sizes.is_within_limits() {
            return Err(OpenError::OutOfLimits);
        }
        let catalogue = catalogue.with_long_places(sizes.spare as usize, sizes.long as usize);
        let config = sizes;
        match Store::opened(alloc, Setup { config, catalogue }, None) {
            Ok(opened) => Ok(opened),
            Err(_) => Err(OpenError::NoMemory),
        }
    }

    /// `open`, but on a state that was taken out of another store ([`Closed::into_state`]), or made by hand: the maps have what the state's maps
    /// have, and the programs that were installed there are installed. All that the store explains begins with this state. The state is
    /// copied for the log and for each node.
    ///
    /// # Errors
    ///
    /// O1 where a number of the configuration is out of its limits, then O3 where the state has other maps than the catalogue, or more
    /// or longer programs than there is room for, then O2 where there is no memory.
    ///
    /// # Examples
    ///
    /// ```
    /// use store::{Config, ReadAnswer, Store, StoreState, load_manifest};
    ///
    /// let manifest = "map array 8 16\nprogram five read 0 five.hex\n";
    /// let files = [("five.hex", "b7000000050000009500000000000000")]; // a program that replies 5
    /// let catalogue = load_manifest(rt.alloc(), manifest, &files)?;
    /// let state = StoreState::open(rt.alloc(), &catalogue)?;
    /// let config = Config { nodes: 1, slots: 1, window: 16, limit: 100, spare: 0 };
    /// let (store, mut sessions) = Store::open_on(rt.alloc(), config, catalogue, &state)?;
    ///
    /// let seen = sessions[0].read(&rt, &store, 0, &[]);
    /// let _closed = match store.close(sessions) { Ok(closed) => closed, Err(_) => unreachable!() };
    /// assert_eq!(rt; seen, Ok(ReadAnswer { point: 0, reply: 5 })); // points count from 0 again
    /// ```
    pub fn open_on(
        alloc: Global,
        config: Config,
        catalogue: Catalogue,
        state: &StoreState,
    ) -> Result<(Store, Vec<Session>), OpenError>
        ensures limits { IfErr result (λ e. (e ≡ OutOfLimits) ↔ (IsConfig config → ⊥)) }
        ensures other { IfErr result (λ e. (e ≡ OtherState) ↔ IsConfig config × (MayOpenOn (with_places catalogue config.spare) state.now → ⊥)) }
        ensures new { IfOk result (λ t. AreNew t.1.items) }
        ensures openable { IfOk result (λ t. IsConfig config × MayOpenOn (with_places catalogue config.spare) state.now) }
        ensures store { IfOk result (λ t. (t.0.config ≡ sizes_in config) × (t.0.catalogue ≡ opened_on (with_places catalogue config.spare) state.now)) }
        ensures sessions { IfOk result (λ t. t.1.items ≡ fresh_sessions t.0.id t.0.config t.0.catalogue 0 (sessions_of (sizes_in config))) }
        ensures count { IfOk result (λ t. length t.1.items ≡ sessions_of (sizes_in config)) }
        ensures own { IfOk result (λ t. AreOf t.0 t.1.items) }
    {
        if !config.is_within_limits() {
            return Err(OpenError::OutOfLimits);
        }
        Store::open_sized_on(alloc, config.sizes(), catalogue, state)
    }

    /// A store of these sizes on a state, as [`Store::open_on`] has it.
    ///
    /// # Errors
    ///
    /// O1 where a size is out of its limits, then O3 where the state has other maps than the catalogue, or more or longer programs than there
    /// is room for, then O2 where there is no memory.
    ///
    /// # Examples
    ///
    /// ```
    /// use store::{ENDLESS, ReadAnswer, Sizes, Store, StoreState, load_manifest};
    ///
    /// let manifest = "map array 8 16\nprogram five read 0 five.hex\n";
    /// let files = [("five.hex", "b7000000050000009500000000000000")]; // a program that replies 5
    /// let catalogue = load_manifest(rt.alloc(), manifest, &files)?;
    /// let state = StoreState::open(rt.alloc(), &catalogue)?;
    /// let sizes = Sizes { nodes: 1, slots: 1, window: 16, limit: ENDLESS, spare: 0, long: 0 };
    /// let (store, mut sessions) = Store::open_sized_on(rt.alloc(), sizes, catalogue, &state)?;
    ///
    /// let seen = sessions[0].read(&rt, &store, 0, &[]);
    /// let _closed = match store.close(sessions) { Ok(closed) => closed, Err(_) => unreachable!() };
    /// assert_eq!(rt; seen, Ok(ReadAnswer { point: 0, reply: 5 }));
    /// ```
    pub fn open_sized_on(
        alloc: Global,
        sizes: Sizes,
        catalogue: Catalogue,
        state: &StoreState,
    ) -> Result<(Store, Vec<Session>), OpenError>
        ensures limits { IfErr result (λ e. (e ≡ OutOfLimits) ↔ (AreSizes sizes → ⊥)) }
        ensures other { IfErr result (λ e. (e ≡ OtherState) ↔ AreSizes sizes × (MayOpenOn (with_long_places catalogue sizes.spare sizes.long) state.now → ⊥)) }
        ensures new { IfOk result (λ t. AreNew t.1.items) }
        ensures openable { IfOk result (λ t. AreSizes sizes × MayOpenOn (with_long_places catalogue sizes.spare sizes.long) state.now) }
        ensures store { IfOk result (λ t. (t.0.config ≡ sizes) × (t.0.catalogue ≡ opened_on (with_long_places catalogue sizes.spare sizes.long) state.now)) }
        ensures sessions { IfOk result (λ t. t.1.items ≡ fresh_sessions t.0.id t.0.config t.0.catalogue 0 (sessions_of sizes)) }
        ensures count { IfOk result (λ t. length t.1.items ≡ sessions_of sizes) }
        ensures own { IfOk result (λ t. AreOf t.0 t.1.items) }
    {
        if !sizes.is_within_limits() {
            return Err(OpenError::OutOfLimits);
        }
        let catalogue = catalogue.with_long_places(sizes.spare as usize, sizes.long as usize);
        if !catalogue.may_open_on(state) {
            return Err(OpenError::OtherState);
        }
        let catalogue = catalogue.on(state);
        let config = sizes;
        match Store::opened(alloc, Setup { config, catalogue }, Some(state)) {
            Ok(opened) => Ok(opened),
            Err(_) => Err(OpenError::NoMemory),
        }
    }

    // The store of a setup, on what its catalogue opens on, and its sessions.
    fn opened(
        alloc: Global,
        setup: Setup,
        state: Option<&StoreState>,
    ) -> Result<(Store, Vec<Session>), AllocError>
        requires config { AreSizes setup.config }
        requires opens { OpensOn setup.catalogue state }
        ensures store { IfOk result (λ t. (t.0.config ≡ setup.config) × (t.0.catalogue ≡ setup.catalogue)) }
        ensures sessions { IfOk result (λ t. t.1.items ≡ fresh_sessions t.0.id setup.config setup.catalogue 0 (sessions_of setup.config)) }
        ensures count { IfOk result (λ t. length t.1.items ≡ sessions_of setup.config) }
        ensures own { IfOk result (λ t. AreOf t.0 t.1.items) }
        ensures new { IfOk result (λ t. AreNew t.1.items) }
    {
        let count = session_count(&setup.config);
        let rooms = session_rooms(alloc, &setup.catalogue, count)?;
        let values = shelved_places(alloc, &setup.config, &setup.catalogue, state)?;
        let mut sessions = Vec::with_capacity(alloc, count)?;
        let Ok((shelf, seat)) = Shelf::open(alloc, values, &setup) else {
            sessions.destroy_empty();
            return Err(AllocError);
        };
        push_sessions(&shelf, seat, &setup, rooms, &mut sessions);
        let worth = records_worth(&setup.catalogue);
        Ok((
            Store {
                shelf,
                setup,
                worth,
            },
            sessions,
        ))
    }

    /// Ends the store, and gives its log, its catalogue and each node's replica, once all its sessions are back. One history explains all updates and
    /// reads of its sessions (`explained`). `linear` says it in fewer terms.
    ///
    /// # Errors
    ///
    /// S5 where a session is missing: the store and the sessions come back.
    ///
    /// # Examples
    ///
    /// ```
    /// use store::{Config, Store, load_manifest};
    ///
    /// let catalogue = load_manifest(rt.alloc(), "map array 8 16\n", &[])?;
    /// let config = Config { nodes: 1, slots: 1, window: 16, limit: 100, spare: 0 };
    /// let (store, sessions) = Store::open(rt.alloc(), config, catalogue)?;
    ///
    /// // Without its session the store comes back.
    /// let Err((store, none)) = store.close(Vec::new(rt.alloc())) else { unreachable!() };
    /// none.destroy_empty();
    /// let closed = match store.close(sessions) { Ok(closed) => closed, Err(_) => unreachable!() };
    /// assert_eq!(rt; closed.log().tail(), 0);
    /// ```
    pub fn close(self, sessions: Vec<Session>) -> Result<Closed, (Store, Vec<Session>)>
        requires own { AreOf self sessions.items }
        ensures whole { MatchResult result (λ _. length sessions.items ≡ sessions_of self.config) (λ _. length sessions.items ≢ sessions_of self.config) }
        ensures back { IfErr result (λ t. (t.0 ≡ self) × (t.1.items ≡ sessions.items)) }
        ensures closed { IfOk result (λ c. IsClosed self sessions.items c) }
        ensures explained { IfOk result (λ c. ClosesExplained self sessions.items c) }
        ensures linear { IfOk result (λ _. AreLinearized self sessions.items) }
    {
        if sessions.len() != session_count(&self.setup.config) {
            return Err((self, sessions));
        }
        machine::laws::typable_programs_run();
        // This opens the catalogue's invariant for the proof.
        let _places = self.setup.catalogue.places();
        let seat = self.join_seats(sessions);
        let Store { shelf, setup, .. } = self;
        let mut values = shelf.close(seat);
        values.truncate(1 + setup.config.nodes as usize);
        Ok(Closed::new(setup.catalogue, values))
    }

    /// For a proof: one list of operations explains what these two sessions have called and were answered, and what they have seen of the others. So who
    /// has both, and has called one after the other, knows which came first, while others go on ([`calls_in_order`](crate::calls_in_order)). They are
    /// different sessions. It reads a word, and changes nothing.
    ///
    /// # Examples
    ///
    /// ```
    /// use store::{Config, Store, load_manifest};
    ///
    /// let manifest = "map array 8 16\nprogram five update 0 five.hex\n";
    /// let files = [("five.hex", "b7000000050000009500000000000000")]; // a program that replies 5
    /// let catalogue = load_manifest(rt.alloc(), manifest, &files)?;
    /// let config = Config { nodes: 1, slots: 2, window: 16, limit: 100, spare: 0 };
    /// let (store, mut sessions) = Store::open(rt.alloc(), config, catalogue)?;
    ///
    /// let mut one = sessions.remove(0);
    /// let first = one.update(&rt, &store, 0, &[]);
    /// let (one, mut other) = store.stand(one, sessions.remove(0));
    /// let second = other.update(&rt, &store, 0, &[]);
    /// let (one, other) = store.stand(one, other);
    /// sessions.push_reserved(one);
    /// sessions.push_reserved(other);
    /// let _closed = match store.close(sessions) { Ok(closed) => closed, Err(_) => unreachable!() };
    /// assert_eq!(rt; (first.map(|a| a.index), second.map(|a| a.index)), (Ok(0), Ok(1)));
    /// ```
    pub fn stand(&self, one: Session, other: Session) -> (Session, Session)
        requires own { IsOf self.now one × IsOf self.now other }
        ensures same { (result.0 ≡ one) × (result.1 ≡ other) }
        ensures apart { one.session ≢ other.session }
        ensures explained { AreExplained self.now (one ∷ other ∷ []) }
    {
        machine::laws::typable_programs_run();
        // This opens the catalogue's invariant for the proof.
        let _places = self.setup.catalogue.places();
        one.stand_beside(other, &self.shelf)
    }

    // One seat with all these sessions, the last first.
    fn join_seats(&self, mut sessions: Vec<Session>) -> Seat<Value>
        requires own { AreOf self.now sessions.items }
        requires some { 0 < length sessions.items }
        ensures shelf { result.shelf ≡ self.now.id }
        ensures joined { result.sessions ≡ known_back sessions.items }
        ensures idle { AreIdle sessions.items }
    {
        let Some(last) = sessions.pop() else {
            unreachable!()
        };
        let (mut all, _) = last.into_parts();
        while let Some(next) = sessions.pop() {
            let (seat, _) = next.into_parts();
            self.shelf.join(&mut all, seat);
        }
        sessions.destroy_empty();
        all
    }

    /// What its sessions share, for who makes the steps of a session one by one.
    ///
    /// # Examples
    ///
    /// ```
    /// use store::{Config, Store, load_manifest};
    ///
    /// let catalogue = load_manifest(rt.alloc(), "map array 8 16\n", &[])?;
    /// let config = Config { nodes: 2, slots: 3, window: 16, limit: 100, spare: 0 };
    /// let (store, sessions) = Store::open(rt.alloc(), config, catalogue)?;
    ///
    /// let shared = store.shared();
    /// let (nodes, slots) = (shared.nodes, shared.slots);
    /// let _closed = match store.close(sessions) { Ok(closed) => closed, Err(_) => unreachable!() };
    /// assert_eq!(rt; (nodes, slots), (2, 3));
    /// ```
    pub fn shared(&self) -> Shared<'_>
        ensures shelf { result.shelf.now.id ≡ self.now.id }
        ensures places { result.shelf.now.places ≡ 1 + self.now.config.nodes + self.now.config.nodes }
        ensures nodes { HasNodes result self.now }
        ensures config { AreSizes self.now.config }
        ensures catalogue { result.catalogue.now ≡ self.now.catalogue }
    {
        Shared {
            shelf: &self.shelf,
            catalogue: &self.setup.catalogue,
            nodes: self.setup.config.nodes as usize,
            slots: self.setup.config.slots as usize,
            worth: self.worth,
        }
    }

    /// The maps and programs of the store, and how many places come after them.
    ///
    /// # Examples
    ///
    /// ```
    /// use store::{Config, Store, load_manifest};
    ///
    /// let manifest = "map array 8 16\nprogram five update 0 five.hex\n";
    /// let files = [("five.hex", "b7000000050000009500000000000000")]; // a program that replies 5
    /// let catalogue = load_manifest(rt.alloc(), manifest, &files)?;
    /// let config = Config { nodes: 1, slots: 1, window: 16, limit: 100, spare: 4 };
    /// let (store, sessions) = Store::open(rt.alloc(), config, catalogue)?;
    ///
    /// let number = store.catalogue().number("five");
    /// let places = store.catalogue().places();
    /// let _closed = match store.close(sessions) { Ok(closed) => closed, Err(_) => unreachable!() };
    /// assert_eq!(rt; (number, places), (Some(0), 4));
    /// ```
    pub fn catalogue(&self) -> &Catalogue
        ensures catalogue { result.now ≡ self.now.catalogue }
    {
        &self.setup.catalogue
    }

    // The sizes that it was opened with.
    pub(crate) fn sizes(&self) -> Sizes
        ensures sizes { result ≡ self.now.config }
    {
        self.setup.config
    }
}
