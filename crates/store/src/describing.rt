// The calls that ask a store what it is.

ghost use Rattle.std.specs.Prelude.{◌≡◌, length, None};
ghost use Rattle.store.specs.Describing.{IsMapAsTold, IsProgramAsTold, map_refused, number_refused};
ghost use Rattle.store.specs.Looks.{IsRefused, IsSight, TellsSight, TellsTried};
ghost use Rattle.store.specs.Sessions.{IsOf, SessionGoesOn};

use crate::polled::Polled;
use crate::session::Session;
use crate::store::Store;
use oplog::Sizes;
use std::sync::Wait;
use store_steps::{InfoRefused, MapInfo, MapQuery, ProgramInfo, ProgramQuery};

/// What a store is from its opening on: its sizes, and how many maps and programs its manifest has.
///
/// # Examples
///
/// ```
/// use store::{Config, Store, load_manifest};
///
/// let manifest = "map array 8 16\nmap hash 4 8 100\nprogram five update 0 five.hex\n";
/// let files = [("five.hex", "b7000000050000009500000000000000")]; // a program that replies 5
/// let catalogue = load_manifest(rt.alloc(), manifest, &files)?;
/// let config = Config { nodes: 2, slots: 3, window: 16, limit: 100, spare: 4 };
/// let (store, sessions) = Store::open(rt.alloc(), config, catalogue)?;
///
/// let info = store.info();
/// let _closed = match store.close(sessions) { Ok(closed) => closed, Err(_) => unreachable!() };
/// assert_eq!(rt; (info.sizes.nodes, info.sizes.slots, info.sizes.spare), (2, 3, 4));
/// assert_eq!(rt; (info.maps, info.programs), (2, 1));
/// ```
#[derive(Clone, Copy, Debug, PartialEq, Eq)]
pub struct StoreInfo {
    /// The sizes that it was opened with. `spare` is the number of places for more programs.
    pub sizes: Sizes,
    /// How many maps it has.
    pub maps: usize,
    /// How many programs its manifest has.
    pub programs: usize,
}

impl Store {
    /// What the store is from its opening on. Looks at no replica, and waits for nobody.
    ///
    /// # Examples
    ///
    /// ```
    /// use store::{Config, Store, load_manifest};
    ///
    /// let catalogue = load_manifest(rt.alloc(), "map array 8 16\n", &[])?;
    /// let config = Config { nodes: 1, slots: 1, window: 16, limit: 100, spare: 0 };
    /// let (store, sessions) = Store::open(rt.alloc(), config, catalogue)?;
    ///
    /// let info = store.info();
    /// let _closed = match store.close(sessions) { Ok(closed) => closed, Err(_) => unreachable!() };
    /// assert_eq!(rt; (info.sizes.window, info.maps, info.programs), (16, 1, 0));
    /// ```
    pub fn info(&self) -> StoreInfo
        ensures sizes { result.sizes ≡ self.now.config }
        ensures maps { result.maps ≡ length self.now.catalogue.shapes }
        ensures programs { result.programs ≡ length self.now.catalogue.programs }
    {
        let catalogue = self.catalogue();
        StoreInfo {
            sizes: self.sizes(),
            maps: catalogue.shapes().len(),
            programs: catalogue.len(),
        }
    }
}

impl Session {
    /// Says the shape of a map, and how many keys it has in the maps of the session's node, once these have seen everything that was completed
    /// when the call began. Takes no memory.
    ///
    /// # Errors
    ///
    /// S9 unknown map: nothing is done then.
    ///
    /// # Examples
    ///
    /// ```
    /// use store::{Config, InfoRefused, MapInfo, Shape, Store, load_manifest};
    ///
    /// let manifest = "map hash 1 2 16\nprogram put update 2 put.hex\n"; // it puts its argument under the argument's first byte
    /// let files = [("put.hex", "bf12000000000000bf1300000000000018510000000000000000000000000000b70400000000000085000000020000009500000000000000")];
    /// let catalogue = load_manifest(rt.alloc(), manifest, &files)?;
    /// let config = Config { nodes: 1, slots: 1, window: 16, limit: 100, spare: 0 };
    /// let (store, mut sessions) = Store::open(rt.alloc(), config, catalogue)?;
    ///
    /// let _answer = sessions[0].invoke(&rt, &store, 0, &[7, 9]);
    /// let info = sessions[0].map_info(&rt, &store, 0);
    /// let refused = sessions[0].map_info(&rt, &store, 1);
    /// let _closed = match store.close(sessions) { Ok(closed) => closed, Err(_) => unreachable!() };
    /// assert_eq!(rt; info, Ok(MapInfo { point: 1, shape: Shape::Hash { key: 1, value: 2, entries: 16 }, keys: 1 }));
    /// assert_eq!(rt; refused, Err(InfoRefused::UnknownMap)); // S9: maps count from 0
    /// ```
    pub fn map_info<R: Wait>(
        &mut self,
        rt: &R,
        store: &Store,
        map: usize,
    ) -> Result<MapInfo, InfoRefused>
        requires own { IsOf store.now self.old }
        ensures session { SessionGoesOn store.now self.old self.new }
        ensures note { self.new.note ≡ self.old.note }
        ensures early { IsRefused (map_refused store.now map) result (self.new ≡ self.old) }
        ensures told { map_refused store.now map ≡ None → TellsSight (IsMapAsTold map) (λ i. i.point) self.old self.new result }
    {
        self.see(rt, store, &mut MapQuery { map })
    }

    /// Says what the program of a number is, once the session's node has seen everything that was completed when the call began. Of a place it says
    /// what is installed there. Takes no memory.
    ///
    /// # Errors
    ///
    /// S1 unknown program: nothing is done then.
    ///
    /// # Examples
    ///
    /// ```
    /// use store::{Config, InfoRefused, Mode, ProgramFacts, ProgramInfo, Store, load_manifest};
    ///
    /// let catalogue = load_manifest(rt.alloc(), "map array 8 16\nmap array 8 16\n", &[])?;
    /// let config = Config { nodes: 1, slots: 1, window: 16, limit: 100, spare: 1 };
    /// let (store, mut sessions) = Store::open(rt.alloc(), config, catalogue)?;
    ///
    /// // ldmap r1, 1; mov64 r0, 0; exit
    /// let program = [0x18, 0x51, 0, 0, 1, 0, 0, 0, 0, 0, 0, 0, 0, 0, 0, 0, 0xb7, 0, 0, 0, 0, 0, 0, 0, 0x95, 0, 0, 0, 0, 0, 0, 0];
    /// let before = sessions[0].program_info(&rt, &store, 0);
    /// let _placed = sessions[0].install(&rt, &store, Mode::Update, 5, &program);
    /// let after = sessions[0].program_info(&rt, &store, 0);
    /// let refused = sessions[0].program_info(&rt, &store, 1);
    /// let _closed = match store.close(sessions) { Ok(closed) => closed, Err(_) => unreachable!() };
    /// let facts = ProgramFacts { mode: Mode::Update, arg_len: 5, slots: 4, maps: 0b10 }; // it names map 1, and may change it
    /// assert_eq!(rt; before, Ok(ProgramInfo { point: 0, at_place: true, facts: None }));
    /// assert_eq!(rt; after, Ok(ProgramInfo { point: 1, at_place: true, facts: Some(facts) }));
    /// assert_eq!(rt; refused, Err(InfoRefused::UnknownProgram)); // S1: there is one place
    /// ```
    pub fn program_info<R: Wait>(
        &mut self,
        rt: &R,
        store: &Store,
        program: u16,
    ) -> Result<ProgramInfo, InfoRefused>
        requires own { IsOf store.now self.old }
        ensures session { SessionGoesOn store.now self.old self.new }
        ensures note { self.new.note ≡ self.old.note }
        ensures early { IsRefused (number_refused store.now program) result (self.new ≡ self.old) }
        ensures told { number_refused store.now program ≡ None → TellsSight (IsProgramAsTold program) (λ i. i.point) self.old self.new result }
    {
        self.see(rt, store, &mut ProgramQuery { program })
    }
}

impl Polled {
    /// Says what a map is, as [`Session::map_info`] has it, if nobody holds the replica of its node, nor the log if that replica lacks something.
    /// `None` if somebody does. No update is out.
    ///
    /// # Errors
    ///
    /// S9 unknown map: nothing is done then.
    ///
    /// # Examples
    ///
    /// ```
    /// use store::{Config, MapInfo, Polled, Shape, Store, load_manifest};
    ///
    /// let catalogue = load_manifest(rt.alloc(), "map array 8 16\n", &[])?;
    /// let config = Config { nodes: 1, slots: 1, window: 16, limit: 100, spare: 0 };
    /// let (store, mut sessions) = Store::open(rt.alloc(), config, catalogue)?;
    /// let mut polled = Polled::new(sessions.remove(0));
    /// sessions.destroy_empty();
    ///
    /// let info = polled.try_map_info(&store, 0)?;
    /// assert_eq!(rt; info, Some(MapInfo { point: 0, shape: Shape::Array { value: 8, entries: 16 }, keys: 16 }));
    /// assert_eq!(rt; polled.try_map_info(&store, 1).err().map(|it| it.number()), Some(9)); // there is one map
    /// ```
    pub fn try_map_info(
        &mut self,
        store: &Store,
        map: usize,
    ) -> Result<Option<MapInfo>, InfoRefused>
        requires own { IsOf store.now self.old }
        requires idle { self.old.note.pending ≡ None }
        ensures session { SessionGoesOn store.now self.old self.new }
        ensures note { self.new.note ≡ self.old.note }
        ensures early { IsRefused (map_refused store.now map) result (self.new ≡ self.old) }
        ensures told { map_refused store.now map ≡ None → TellsTried result (IsSight (IsMapAsTold map) (λ i. i.point) self.old self.new) }
    {
        self.try_see(store, &mut MapQuery { map })
    }

    /// Says what the program of a number is, as [`Session::program_info`] has it, if nobody holds the replica of its node, nor the log if that
    /// replica lacks something. `None` if somebody does. No update is out.
    ///
    /// # Errors
    ///
    /// S1 unknown program: nothing is done then.
    ///
    /// # Examples
    ///
    /// ```
    /// use store::{Config, Mode, Polled, ProgramFacts, ProgramInfo, Store, load_manifest};
    ///
    /// let manifest = "map array 8 16\nprogram five read 3 five.hex\n";
    /// let files = [("five.hex", "b7000000050000009500000000000000")]; // a program that replies 5
    /// let catalogue = load_manifest(rt.alloc(), manifest, &files)?;
    /// let config = Config { nodes: 1, slots: 1, window: 16, limit: 100, spare: 0 };
    /// let (store, mut sessions) = Store::open(rt.alloc(), config, catalogue)?;
    /// let mut polled = Polled::new(sessions.remove(0));
    /// sessions.destroy_empty();
    ///
    /// let facts = ProgramFacts { mode: Mode::Read, arg_len: 3, slots: 2, maps: 0 };
    /// let info = polled.try_program_info(&store, 0)?;
    /// assert_eq!(rt; info, Some(ProgramInfo { point: 0, at_place: false, facts: Some(facts) }));
    /// assert_eq!(rt; polled.try_program_info(&store, 1).err().map(|it| it.number()), Some(1)); // there is one program, and no place
    /// ```
    pub fn try_program_info(
        &mut self,
        store: &Store,
        program: u16,
    ) -> Result<Option<ProgramInfo>, InfoRefused>
        requires own { IsOf store.now self.old }
        requires idle { self.old.note.pending ≡ None }
        ensures session { SessionGoesOn store.now self.old self.new }
        ensures note { self.new.note ≡ self.old.note }
        ensures early { IsRefused (number_refused store.now program) result (self.new ≡ self.old) }
        ensures told { number_refused store.now program ≡ None → TellsTried result (IsSight (IsProgramAsTold program) (λ i. i.point) self.old self.new) }
    {
        self.try_see(store, &mut ProgramQuery { program })
    }
}
