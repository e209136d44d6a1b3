// What the operations of a store change.

ghost use Rattle.std.specs.Prelude.{◌≡◌, ◌↔◌, ◌≤◌, length, IfOk, IsTrue};
ghost use Rattle.maps.specs.Maps.{HasShapes, shapes_of};
ghost use Rattle.maps.specs.MapSets.{maps_of};
ghost use Rattle.loader.specs.declared.installed.TheConstants.{MOST_LONG, MOST_SPARE};
ghost use Rattle.std.specs.List.{All};
ghost use Rattle.loader.specs.CatalogueView.{OpensOn, opening_state, sizes_for};
ghost use Rattle.loader.specs.Installed.{IsInstalled, IsShort};
ghost use Rattle.loader.specs.StoreState.{installed_in, opened_state, sizes_of, state_of};

use crate::catalogue::Catalogue;
use crate::installed::{Installed, MOST_LONG, MOST_SPARE};
use crate::opened_on::OpenedOn;
use maps::{MapSet, Shape};
use std::alloc::{AllocError, Global};
use std::marker::Model;

/// The maps of a store, and the programs that were installed while it ran, which were accepted for these maps. All their room is taken
/// when the state is made; no operation on them takes memory.
///
/// # Examples
///
/// ```
/// use loader::{StoreState, load_manifest};
///
/// let catalogue = load_manifest(rt.alloc(), "map array 8 16\nmap hash 4 8 100\n", &[])?.with_places(3);
/// let state = StoreState::open(rt.alloc(), &catalogue)?;
/// // An array has all its entries, a hash none yet.
/// assert_eq!(rt; (state.maps().len(0), state.maps().len(1)), (16, 0));
/// assert_eq!(rt; (state.programs().len(), state.programs().places()), (0, 3));
/// ```
#[derive(Drop)]
pub struct StoreState {
    maps: MapSet,
    installed: Installed,
}

impl Model for StoreState {
    ghost use Rattle.std.specs.Prelude.{◌≡◌};
    ghost use Rattle.maps.specs.Maps.{HasShapes, shapes_of};
    ghost use Rattle.maps.specs.MapSets.{maps_of};
    ghost use Rattle.loader.specs.StoreState.{StoreState as State, state_of};

    ghost Value = { State };

    ghost use Rattle.loader.specs.Codes.{state_code};

    ghost coded = { state_code };

    ghost view = { λ s. state_of (maps_of s.maps) s.installed };

    // The programs are for the maps.
    ghost invariant = { λ s. HasShapes (shapes_of (maps_of s.maps)) (maps_of s.maps) × (s.installed.shapes ≡ shapes_of (maps_of s.maps)) };
}

impl StoreState {
    /// A new state for a catalogue: its maps as they are opened, and room for as many programs as it has places, and as long. None is
    /// installed yet.
    ///
    /// # Errors
    ///
    /// The system has no memory left.
    ///
    /// # Examples
    ///
    /// ```
    /// use loader::{StoreState, load_manifest};
    ///
    /// let catalogue = load_manifest(rt.alloc(), "map array 8 16\n", &[])?;
    /// let state = StoreState::open(rt.alloc(), &catalogue)?;
    /// assert!(rt; state.is_sized_for(&catalogue));
    /// assert_eq!(rt; state.maps().block(0)[0], 0);
    /// ```
    pub fn open(alloc: Global, catalogue: &Catalogue) -> Result<StoreState, AllocError>
        ensures opened { IfOk result (λ s. s ≡ opened_state (sizes_for catalogue.now)) }
        ensures sizes { IfOk result (λ s. sizes_of s ≡ sizes_for catalogue.now) }
    {
        let maps = MapSet::open_supported(alloc, catalogue.shapes())?;
        let installed = Installed::open(
            alloc,
            catalogue.shapes(),
            catalogue.places(),
            catalogue.long(),
        )?;
        Ok(StoreState { maps, installed })
    }

    /// The state that a store of this catalogue opens on: a copy of the one that is handed in, which the catalogue was said to open on, with
    /// room for as many programs as the catalogue has places, and as long; or a new one.
    ///
    /// # Errors
    ///
    /// The system has no memory left.
    ///
    /// # Examples
    ///
    /// ```
    /// use loader::{StoreState, load_manifest};
    ///
    /// let catalogue = load_manifest(rt.alloc(), "map array 8 16\n", &[])?.with_places(3);
    /// let fresh = StoreState::opening(rt.alloc(), &catalogue, None)?;
    /// assert!(rt; fresh.is_sized_for(&catalogue));
    /// let catalogue = catalogue.on(&fresh);
    /// let copy = StoreState::opening(rt.alloc(), &catalogue, Some(&fresh))?;
    /// assert!(rt; copy.is_sized_for(&catalogue));
    /// ```
    pub fn opening(
        alloc: Global,
        catalogue: &Catalogue,
        state: Option<&StoreState>,
    ) -> Result<StoreState, AllocError>
        requires opens { OpensOn catalogue.now state }
        ensures opened { IfOk result (λ s. s ≡ opening_state catalogue.now) }
    {
        match state {
            None => StoreState::open(alloc, catalogue),
            Some(state) => StoreState::copy_of(alloc, state, catalogue.places(), catalogue.long()),
        }
    }

    /// A state of these maps and of these programs, which were accepted for them.
    ///
    /// # Examples
    ///
    /// ```
    /// use loader::{Installed, StoreState};
    /// use maps::{MapSet, Shape};
    ///
    /// let shapes = [Shape::Array { value: 8, entries: 16 }];
    /// let maps = MapSet::open(rt.alloc(), &shapes)?;
    /// let programs = Installed::open(rt.alloc(), &shapes, 3, 0)?;
    /// let state = StoreState::of(maps, programs);
    /// assert_eq!(rt; (state.maps().count(), state.programs().places()), (1, 3));
    /// ```
    pub fn of(maps: MapSet, installed: Installed) -> StoreState
        requires shapes { HasShapes (shapes_of (maps_of maps)) (maps_of maps) }
        requires programs { installed.shapes ≡ shapes_of (maps_of maps) }
        ensures state { result ≡ state_of (maps_of maps) installed }
    {
        StoreState { maps, installed }
    }

    /// Copies the state `from` into room of its own, in which `places` programs of at most `long` bytes may be installed.
    ///
    /// # Errors
    ///
    /// The system has no memory left.
    ///
    /// # Examples
    ///
    /// ```
    /// use loader::{StoreState, load_manifest};
    ///
    /// let catalogue = load_manifest(rt.alloc(), "map array 8 16\n", &[])?;
    /// let (mut maps, programs) = StoreState::open(rt.alloc(), &catalogue)?.into_parts();
    /// maps.update(0, &[0, 0, 0, 0], &[7, 0, 0, 0, 0, 0, 0, 0]);
    /// let state = StoreState::of(maps, programs);
    /// let copy = StoreState::copy_of(rt.alloc(), &state, 3, 0)?;
    /// assert_eq!(rt; copy.maps().block(0)[0], 7);
    /// assert_eq!(rt; copy.programs().places(), 3);
    /// ```
    pub fn copy_of(
        alloc: Global,
        from: &StoreState,
        places: usize,
        long: usize,
    ) -> Result<StoreState, AllocError>
        requires few { length from.now.programs ≤ places }
        requires short { All (IsShort long) from.now.programs }
        requires places { places ≤ MOST_SPARE }
        requires long { long ≤ MOST_LONG }
        ensures copied { IfOk result (λ s. s ≡ record from.now { places = places; long = long }) }
    {
        let maps = MapSet::copy_of(alloc, &from.maps)?;
        let installed = Installed::copy_of(alloc, &from.installed, places, long)?;
        Ok(StoreState { maps, installed })
    }

    /// The maps.
    ///
    /// # Examples
    ///
    /// ```
    /// use loader::{StoreState, load_manifest};
    ///
    /// let catalogue = load_manifest(rt.alloc(), "map array 8 16\nmap hash 4 8 100\n", &[])?;
    /// let state = StoreState::open(rt.alloc(), &catalogue)?;
    /// assert_eq!(rt; state.maps().count(), 2);
    /// ```
    pub fn maps(&self) -> &MapSet
        ensures maps { maps_of result.now ≡ self.now.maps }
        ensures shapes { HasShapes (shapes_of self.now.maps) self.now.maps }
    {
        &self.maps
    }

    /// The programs that were installed.
    ///
    /// # Examples
    ///
    /// ```
    /// use loader::{StoreState, load_manifest};
    ///
    /// let catalogue = load_manifest(rt.alloc(), "map array 8 16\n", &[])?.with_places(3);
    /// let state = StoreState::open(rt.alloc(), &catalogue)?;
    /// assert_eq!(rt; (state.programs().len(), state.programs().places()), (0, 3));
    /// ```
    pub fn programs(&self) -> &Installed
        ensures programs { result.now ≡ installed_in self.now }
    {
        &self.installed
    }

    /// Whether it has the maps of a catalogue, and as many places for programs as long.
    ///
    /// # Examples
    ///
    /// ```
    /// use loader::{StoreState, load_manifest};
    ///
    /// let catalogue = load_manifest(rt.alloc(), "map array 8 16\n", &[])?;
    /// let state = StoreState::open(rt.alloc(), &catalogue)?;
    /// assert!(rt; state.is_sized_for(&catalogue));
    /// assert!(rt; !state.is_sized_for(&catalogue.with_places(3)));
    /// ```
    pub fn is_sized_for(&self, catalogue: &Catalogue) -> bool
        ensures sizes { IsTrue result ↔ (sizes_of self.now ≡ sizes_for catalogue.now) }
    {
        self.has_shapes(catalogue.shapes())
            && self.installed.places() == catalogue.places()
            && self.installed.long() == catalogue.long()
    }

    // Whether the maps have these sizes.
    pub(crate) fn has_shapes(&self, shapes: &[Shape]) -> bool
        ensures same { IsTrue result ↔ (shapes_of self.now.maps ≡ shapes.now) }
    {
        same_shapes(self.installed.shapes(), shapes)
    }

    // What clauses see of it.
    pub(crate) fn opened_on(&self) -> OpenedOn
        ensures value { result.value ≡ self.now }
        ensures maps { HasShapes (shapes_of self.now.maps) self.now.maps }
        ensures programs { IsInstalled (installed_in self.now) }
    {
        // (the number of places, since the call says that the programs keep to their limits)
        let _ = self.installed.places();
        OpenedOn::of(self)
    }

    /// Becomes a copy of these maps and programs, which have its sizes. Takes time in proportion to them, and no memory.
    ///
    /// # Examples
    ///
    /// ```
    /// use loader::{StoreState, load_manifest};
    ///
    /// let catalogue = load_manifest(rt.alloc(), "map array 8 16\n", &[])?;
    /// let (mut maps, programs) = StoreState::open(rt.alloc(), &catalogue)?.into_parts();
    /// maps.update(0, &[0, 0, 0, 0], &[7, 0, 0, 0, 0, 0, 0, 0]);
    /// let mut state = StoreState::open(rt.alloc(), &catalogue)?;
    /// state.copy_parts(&maps, &programs);
    /// assert_eq!(rt; state.maps().block(0)[0], 7);
    /// ```
    pub fn copy_parts(&mut self, maps: &MapSet, programs: &Installed)
        requires shapes { HasShapes (shapes_of self.old.maps) (maps_of maps.now) }
        requires programs { programs.now.shapes ≡ shapes_of (maps_of maps.now) }
        requires places { programs.now.places ≡ self.old.places }
        requires long { programs.now.long ≡ self.old.long }
        ensures copied { self.new ≡ state_of (maps_of maps.now) programs.now }
    {
        self.maps.copy_from(maps);
        self.installed.copy_from(programs);
    }

    /// The maps and the programs, to be changed and put together again.
    ///
    /// # Examples
    ///
    /// ```
    /// use loader::{StoreState, load_manifest};
    ///
    /// let catalogue = load_manifest(rt.alloc(), "map array 8 16\n", &[])?.with_places(3);
    /// let state = StoreState::open(rt.alloc(), &catalogue)?;
    /// let (maps, programs) = state.into_parts();
    /// assert_eq!(rt; (maps.count(), programs.places()), (1, 3));
    /// ```
    pub fn into_parts(self) -> (MapSet, Installed)
        ensures maps { maps_of result.0 ≡ self.maps }
        ensures programs { result.1 ≡ installed_in self }
        ensures shapes { HasShapes (shapes_of self.maps) self.maps }
    {
        let StoreState { maps, installed } = self;
        (maps, installed)
    }
}

// Whether two lists of sizes are the same.
fn same_shapes(first: &[Shape], second: &[Shape]) -> bool
    ensures same { IsTrue result ↔ (first.now ≡ second.now) }
{
    first == second
}
