// The maps and the programs of a store.

ghost use Rattle.std.specs.Prelude.{◌≡◌, ◌↔◌, ◌≤◌, length, option_map, slice_get, IfSome, IsTrue, None};
ghost use Rattle.maps.specs.Shapes.{AreShapesSupported};
ghost use Rattle.maps.specs.declared.shapes.TheConstants.{MOST_ARG_LEN};
ghost use Rattle.verifier.specs.Accepted.{checked_in};
ghost use Rattle.loader.specs.CatalogueView.{IsCatalogue, MayOpenOn, longest_part, number_named, opened_on, with_long_places, with_places};
ghost use Rattle.loader.specs.Numbering.{IsNumbering};

use crate::installed::{MOST_LONG, MOST_SPARE};
use crate::loading::MAX_PROGRAMS;
use crate::opened_on::OpenedOn;
use crate::store_state::StoreState;
use arrayvec::ArrayString;
use maps::Shape;
use std::collections::BTreeMap;
use std::marker::Model;
use text::NAME_BYTES;
use verifier::Accepted;

// An accepted program and its name.
#[derive(Drop)]
pub(crate) struct NamedProgram {
    name: ArrayString<{ NAME_BYTES }>,
    program: Accepted,
}

impl Model for NamedProgram {
    ghost use Rattle.loader.specs.CatalogueView.{Entry};
    ghost use Rattle.verifier.specs.Accepted.{checked_in};

    ghost Value = { Entry };

    ghost view = { λ p. record { name = p.name.bytes; checked = checked_in p.program } };
}

impl NamedProgram {
    pub(crate) fn new(name: ArrayString<{ NAME_BYTES }>, program: Accepted) -> NamedProgram
        ensures { result ≡ record { name = name.bytes; checked = checked_in program } }
    {
        NamedProgram { name, program }
    }

    pub(crate) fn name(&self) -> &str
        ensures { result.now ≡ self.now.name }
    {
        self.name.as_str()
    }

    fn program(&self) -> &Accepted
        ensures { checked_in result.now ≡ self.now.checked }
    {
        &self.program
    }
}

/// The maps of a store, and the accepted programs that it offers, numbered from 0 in the
/// manifest's order. Names are distinct, and there are at most 256 programs. Behind them a number of places stands for programs
/// that may be installed while the store runs. A store of a catalogue opens on a new state, or on one that the catalogue was said to open
/// on ([`Catalogue::on`]); of that no copy is kept.
///
/// # Examples
///
/// ```
/// use loader::load_manifest;
///
/// let files = [("seven.hex", "b7000000070000009500000000000000")]; // mov64 r0, 7; exit
/// let manifest = "map array 8 16\nprogram see read 0 seven.hex\nprogram set update 4 seven.hex\n";
/// let catalogue = load_manifest(rt.alloc(), manifest, &files)?;
/// assert_eq!(rt; (catalogue.shapes().len(), catalogue.len()), (1, 2));
/// assert_eq!(rt; catalogue.number("set"), Some(1));
/// assert_eq!(rt; catalogue.program(1).map(|program| program.arg_len()), Some(4));
/// ```
#[derive(Drop)]
pub struct Catalogue {
    shapes: Vec<Shape>,
    programs: Vec<NamedProgram>,
    numbers: BTreeMap<String, u16>,
    places: usize,
    long: usize,
    opening: Option<OpenedOn>,
}

impl Model for Catalogue {
    ghost use Rattle.loader.specs.CatalogueView.{CatalogueView, IsCatalogue};
    ghost use Rattle.loader.specs.Fields.{catalogue_of};
    ghost use Rattle.loader.specs.Codes.{catalogue_code};
    ghost use Rattle.loader.specs.Numbering.{IsNumbering};

    ghost Value = { CatalogueView };

    ghost coded = { catalogue_code };

    ghost view = { λ c. catalogue_of c.shapes.items c.programs.items c.places c.long c.opening };

    ghost invariant = { λ c. IsCatalogue (catalogue_of c.shapes.items c.programs.items c.places c.long c.opening)
        × IsNumbering c.numbers c.programs.items };
}

impl Catalogue {
    // A catalogue of these maps and programs, with the programs' numbers by their names, without places, on a new state.
    pub(crate) fn new(
        shapes: Vec<Shape>,
        programs: Vec<NamedProgram>,
        numbers: BTreeMap<String, u16>,
    ) -> Catalogue
        requires catalogue { IsCatalogue (record { shapes = shapes.items; programs = programs.items; places = 0; long = 0; opening = None }) }
        requires numbers { IsNumbering numbers programs.items }
        ensures { result ≡ record { shapes = shapes.items; programs = programs.items; places = 0; long = 0; opening = None } }
    {
        Catalogue {
            shapes,
            programs,
            numbers,
            places: 0,
            long: 0,
            opening: None,
        }
    }

    /// How many programs there are.
    ///
    /// # Examples
    ///
    /// ```
    /// use loader::load_manifest;
    ///
    /// let files = [("seven.hex", "b7000000070000009500000000000000")]; // mov64 r0, 7; exit
    /// let catalogue = load_manifest(rt.alloc(), "map array 8 16\nprogram seven read 0 seven.hex\n", &files)?;
    /// assert_eq!(rt; catalogue.len(), 1);
    /// ```
    pub fn len(&self) -> usize
        ensures count { result ≡ length self.now.programs }
        ensures few { result ≤ MAX_PROGRAMS }
    {
        self.programs.len()
    }

    /// No operation of a store has more bytes that are too long for a record: the longest argument of the programs, or
    /// [`Catalogue::long`] if that is more.
    ///
    /// # Examples
    ///
    /// ```
    /// use loader::load_manifest;
    ///
    /// let files = [("seven.hex", "b7000000070000009500000000000000")]; // mov64 r0, 7; exit
    /// let manifest = "map array 8 16\nprogram see read 12 seven.hex\nprogram set update 4 seven.hex\n";
    /// let catalogue = load_manifest(rt.alloc(), manifest, &files)?;
    /// assert_eq!(rt; catalogue.longest_part(), 12);
    /// ```
    pub fn longest_part(&self) -> usize
        ensures longest { result ≡ longest_part self.now }
        ensures most { result ≤ MOST_ARG_LEN }
    {
        let mut longest = 0;
        for named in &self.programs {
            longest = longest.max(named.program().arg_len());
        }
        longest.max(self.long)
    }

    /// How many programs may be installed behind these: a manifest has none.
    ///
    /// # Examples
    ///
    /// ```
    /// use loader::load_manifest;
    ///
    /// let catalogue = load_manifest(rt.alloc(), "map array 8 16\n", &[])?;
    /// assert_eq!(rt; catalogue.places(), 0);
    /// assert_eq!(rt; catalogue.with_places(3).places(), 3);
    /// ```
    pub fn places(&self) -> usize
        ensures places { result ≡ self.now.places }
        ensures few { result ≤ MOST_SPARE }
        ensures whole { IsCatalogue self.now }
    {
        self.places
    }

    /// The most bytes of an installed program, and of its argument, if that is more than 192 and 64. 0 if a store takes no longer ones.
    ///
    /// # Examples
    ///
    /// ```
    /// use loader::load_manifest;
    ///
    /// let catalogue = load_manifest(rt.alloc(), "map array 8 16\n", &[])?;
    /// assert_eq!(rt; catalogue.long(), 0);
    /// assert_eq!(rt; catalogue.with_long_places(3, 4096).long(), 4096);
    /// ```
    pub fn long(&self) -> usize
        ensures long { result ≡ self.now.long }
        ensures few { result ≤ MOST_LONG }
    {
        self.long
    }

    /// Gives the catalogue `places` places for programs to be installed. Its stores open on a new state.
    ///
    /// # Examples
    ///
    /// ```
    /// use loader::{StoreState, load_manifest};
    ///
    /// let catalogue = load_manifest(rt.alloc(), "map array 8 16\n", &[])?.with_places(3);
    /// let state = StoreState::open(rt.alloc(), &catalogue)?;
    /// assert_eq!(rt; state.programs().places(), 3);
    /// ```
    pub fn with_places(self, places: usize) -> Catalogue
        requires few { places ≤ MOST_SPARE }
        ensures places { result ≡ with_places self places }
    {
        self.with_long_places(places, 0)
    }

    /// Gives the catalogue `places` places for programs of at most `long` bytes, with arguments of as many. Its stores open on a new
    /// state.
    ///
    /// # Examples
    ///
    /// ```
    /// use loader::{StoreState, load_manifest};
    ///
    /// let catalogue = load_manifest(rt.alloc(), "map array 8 16\n", &[])?.with_long_places(3, 16_384);
    /// let state = StoreState::open(rt.alloc(), &catalogue)?;
    /// assert_eq!(rt; (state.programs().places(), state.programs().long()), (3, 16_384));
    /// ```
    pub fn with_long_places(mut self, places: usize, long: usize) -> Catalogue
        requires few { places ≤ MOST_SPARE }
        requires short { long ≤ MOST_LONG }
        ensures places { result ≡ with_long_places self places long }
    {
        self.places = places;
        self.long = long;
        self.opening = None;
        self
    }

    /// Whether a store of this catalogue may open on a state: the state has the catalogue's maps, and no more and no longer installed
    /// programs than there may be.
    ///
    /// # Examples
    ///
    /// ```
    /// use loader::{StoreState, load_manifest};
    ///
    /// let catalogue = load_manifest(rt.alloc(), "map array 8 16\n", &[])?;
    /// let state = StoreState::open(rt.alloc(), &catalogue)?;
    /// assert!(rt; catalogue.may_open_on(&state));
    /// let smaller = load_manifest(rt.alloc(), "map array 8 15\n", &[])?;
    /// assert!(rt; !smaller.may_open_on(&state));
    /// ```
    pub fn may_open_on(&self, state: &StoreState) -> bool
        ensures decides { IsTrue result ↔ MayOpenOn self.now state.now }
    {
        state.has_shapes(&self.shapes)
            && state.programs().len() <= self.places
            && state.programs().are_short(self.long)
    }

    /// Makes the stores of the catalogue open on `state`. What such a store explains begins with the state as it is now; no copy of it is
    /// kept.
    ///
    /// # Examples
    ///
    /// ```
    /// use loader::{StoreState, load_manifest};
    ///
    /// let catalogue = load_manifest(rt.alloc(), "map array 8 16\n", &[])?;
    /// let (mut maps, programs) = StoreState::open(rt.alloc(), &catalogue)?.into_parts();
    /// maps.update(0, &[0, 0, 0, 0], &[7, 0, 0, 0, 0, 0, 0, 0]);
    /// let state = StoreState::of(maps, programs);
    /// let catalogue = catalogue.on(&state);
    /// let opened = StoreState::opening(rt.alloc(), &catalogue, Some(&state))?;
    /// assert_eq!(rt; opened.maps().block(0)[0], 7);
    /// ```
    pub fn on(mut self, state: &StoreState) -> Catalogue
        requires fits { MayOpenOn self state.now }
        ensures opens { result ≡ opened_on self state.now }
    {
        self.opening = Some(state.opened_on());
        self
    }

    /// The number of the program of this name, which is found in a sorted map.
    ///
    /// # Examples
    ///
    /// ```
    /// use loader::load_manifest;
    ///
    /// let files = [("seven.hex", "b7000000070000009500000000000000")]; // mov64 r0, 7; exit
    /// let catalogue = load_manifest(rt.alloc(), "map array 8 16\nprogram seven read 0 seven.hex\n", &files)?;
    /// assert_eq!(rt; catalogue.number("seven"), Some(0));
    /// assert_eq!(rt; catalogue.number("seven.hex"), None);
    /// ```
    pub fn number(&self, name: &str) -> Option<u16>
        ensures number { result ≡ number_named self.now.programs name.now }
    {
        self.numbers.get(name).copied()
    }

    /// The name of program k.
    ///
    /// # Examples
    ///
    /// ```
    /// use loader::load_manifest;
    ///
    /// let files = [("seven.hex", "b7000000070000009500000000000000")]; // mov64 r0, 7; exit
    /// let catalogue = load_manifest(rt.alloc(), "map array 8 16\nprogram seven read 0 seven.hex\n", &files)?;
    /// assert_eq!(rt; catalogue.name(0), Some("seven"));
    /// assert_eq!(rt; catalogue.name(1), None);
    /// ```
    pub fn name(&self, k: u16) -> Option<&str>
        ensures name { option_map (λ t. t.now) result ≡ option_map (λ e. e.name) (slice_get self.now.programs k) }
    {
        match self.programs.get(k as usize) {
            Some(program) => Some(program.name()),
            None => None,
        }
    }

    /// Program k.
    ///
    /// # Examples
    ///
    /// ```
    /// use loader::load_manifest;
    ///
    /// let files = [("seven.hex", "b7000000070000009500000000000000")]; // mov64 r0, 7; exit
    /// let catalogue = load_manifest(rt.alloc(), "map array 8 16\nprogram seven read 0 seven.hex\n", &files)?;
    /// assert_eq!(rt; catalogue.program(0).map(|program| program.instructions()), Some(2));
    /// assert!(rt; catalogue.program(1).is_none());
    /// ```
    pub fn program(&self, k: u16) -> Option<&Accepted>
        ensures program { option_map (λ a. checked_in a.now) result ≡ option_map (λ e. e.checked) (slice_get self.now.programs k) }
        ensures accepted { IfSome result (λ a. a.now.shapes ≡ self.now.shapes) }
    {
        match self.programs.get(k as usize) {
            Some(program) => Some(program.program()),
            None => None,
        }
    }

    /// The maps' sizes, in order. A store may have these maps.
    ///
    /// # Examples
    ///
    /// ```
    /// use loader::load_manifest;
    /// use maps::Shape;
    ///
    /// let catalogue = load_manifest(rt.alloc(), "map array 8 16\nmap hash 4 8 100\n", &[])?;
    /// let shapes = [Shape::Array { value: 8, entries: 16 }, Shape::Hash { key: 4, value: 8, entries: 100 }];
    /// assert!(rt; catalogue.shapes() == shapes.as_slice());
    /// ```
    pub fn shapes(&self) -> &[Shape]
        ensures shapes { result.now ≡ self.now.shapes }
        ensures good { AreShapesSupported result.now }
        ensures whole { IsCatalogue self.now }
    {
        &self.shapes
    }
}
