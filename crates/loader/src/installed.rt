// Programs that are installed while a store runs.

ghost use Rattle.std.specs.Prelude.{◌≡◌, ◌↔◌, ◌<◌, ◌≤◌, ◌*◌, ◌+◌, length, option_map, replicate, slice_get, take, IfOk, IfSome, IsTrue};
ghost use Rattle.std.specs.List.{All};
ghost use Rattle.maps.specs.Shapes.{AreShapesSupported};
ghost use Rattle.verifier.specs.Accepted.{accepted_with, checked_in, empty_room};
ghost use Rattle.loader.specs.Installed.{AreRooms, IsEnough, IsInstallAnswer, IsInstalled, IsShort, after_install, all_checked, are_short, is_short, installed_program, most_argument, most_bytes, no_programs};

use insn::{DecodeRefusal, Insn, MAX_INSTALLED_SLOTS, decode_into};
use maps::{MAX_ARG_LEN, Shape};
use std::alloc::{AllocError, Global};
use std::marker::Model;
use thiserror::Error;
use verifier::{Accepted, Mode, Refused, Scratch, Signature, verify_into};

/// The most spare programs of a `Config`'s store: those that may be installed after the catalogue's.
pub const MAX_SPARE: usize = 16;

/// The most spare programs of a store: what [`MAX_SPARE`] is to a `Config`, this is to any `Sizes`.
pub const MOST_SPARE: usize = 4_096;

/// The most bytes of a program that is installed, and of its argument, in any store: 2,048 slots.
pub const MOST_LONG: usize = 16_384;

/// The most bytes of an installed program: `long`, and 192 at least.
///
/// # Examples
///
/// ```
/// use loader::{most_argument, most_bytes};
///
/// assert_eq!(rt; (most_bytes(0), most_bytes(4096)), (192, 4096));
/// assert_eq!(rt; (most_argument(0), most_argument(4096)), (64, 4096));
/// ```
pub fn most_bytes(long: usize) -> usize
    ensures { result ≡ most_bytes long }
{
    long.max(8 * MAX_INSTALLED_SLOTS)
}

/// The most bytes of an installed program's argument: `long`, and 64 at least.
///
/// # Examples
///
/// ```
/// use loader::most_argument;
///
/// assert_eq!(rt; (most_argument(0), most_argument(65)), (64, 65));
/// ```
pub fn most_argument(long: usize) -> usize
    ensures { result ≡ most_argument long }
{
    long.max(MAX_ARG_LEN)
}

// So many slots hold each program that may be installed, and none is left over.
fn slots_for(long: usize) -> usize
    requires { long ≤ MOST_LONG }
    ensures enough { IsEnough long result }
    ensures none_more { 8 * result < most_bytes long + 8 }
{
    (most_bytes(long) + 7) / 8
}

/// Why bytes can't be installed as a program.
///
/// # Examples
///
/// ```
/// use loader::{InstallRefusal, Installed};
/// use maps::Shape;
/// use verifier::Mode;
///
/// let shapes = [Shape::Array { value: 8, entries: 16 }];
/// let mut installed = Installed::open(rt.alloc(), &shapes, 1, 0)?;
/// match installed.install(Mode::Read, 0, &[0x95, 0, 0, 0, 0, 0, 0, 0]) {
///     // `exit` replies R0, which nothing wrote.
///     Err(InstallRefusal::Verify(refused)) => assert_eq!(rt; refused.why.number(), 6),
///     Err(InstallRefusal::Decode(_)) | Ok(()) => unreachable!(),
/// }
/// ```
#[derive(Clone, Copy, Debug, Error)]
pub enum InstallRefusal {
    /// The bytes are no program.
    #[error("{0}")]
    Decode(DecodeRefusal),
    /// The program is not safe for these maps, this argument length and this mode.
    #[error("{0}")]
    Verify(Refused),
}

/// Programs that were installed behind a catalogue's, in order, for maps of given shapes. Each is accepted for these maps, and has at
/// most [`most_bytes`] bytes. The room of all that there may be is taken when it is opened; no later call takes memory.
///
/// # Examples
///
/// ```
/// use loader::Installed;
/// use maps::Shape;
/// use verifier::Mode;
///
/// let shapes = [Shape::Array { value: 8, entries: 16 }];
/// let mut installed = Installed::open(rt.alloc(), &shapes, 4, 0)?;
/// let seven = [0xb7, 0, 0, 0, 7, 0, 0, 0, 0x95, 0, 0, 0, 0, 0, 0, 0]; // mov64 r0, 7; exit
/// installed.install(Mode::Read, 0, &seven)?;
/// installed.install(Mode::Update, 8, &seven)?;
/// assert_eq!(rt; (installed.len(), installed.places()), (2, 4));
/// assert_eq!(rt; installed.program(1).map(|program| program.arg_len()), Some(8));
/// ```
#[derive(Drop)]
pub struct Installed {
    shapes: Vec<Shape>,
    // A room for each place; the first `count` of them hold the programs.
    rooms: Vec<Accepted>,
    count: usize,
    long: usize,
    // How many slots each room, and what follows, has room for.
    slots: usize,
    // What the last bytes were read as.
    decoded: Vec<Insn>,
    scratch: Scratch,
}

impl Model for Installed {
    ghost use Rattle.std.specs.Prelude.{◌≡◌, ◌≤◌, length, vec_capacity};
    ghost use Rattle.loader.specs.Installed.{AreRooms, InstalledView, IsEnough, IsInstalled, first_rooms};

    ghost Value = { InstalledView };

    ghost view = { λ a. first_rooms a.shapes.items a.long a.rooms.items a.count };

    ghost invariant = { λ a. IsInstalled (first_rooms a.shapes.items a.long a.rooms.items a.count)
        × (a.count ≤ length a.rooms.items)
        × AreRooms a.slots a.rooms.items
        × IsEnough a.long a.slots
        × (a.slots ≤ vec_capacity a.decoded)
        × (a.scratch ≡ a.slots) };
}

impl Installed {
    /// Takes room for so many programs for maps of these shapes, each of at most `most_bytes(long)` bytes. None is installed yet.
    ///
    /// # Errors
    ///
    /// The system has no memory left.
    ///
    /// # Examples
    ///
    /// ```
    /// use loader::Installed;
    /// use maps::Shape;
    ///
    /// let shapes = [Shape::Array { value: 8, entries: 16 }];
    /// let installed = Installed::open(rt.alloc(), &shapes, 4, 0)?;
    /// assert_eq!(rt; (installed.len(), installed.places()), (0, 4));
    /// ```
    pub fn open(
        alloc: Global,
        shapes: &[Shape],
        places: usize,
        long: usize,
    ) -> Result<Installed, AllocError>
        requires shapes { AreShapesSupported shapes.now }
        requires places { places ≤ MOST_SPARE }
        requires long { long ≤ MOST_LONG }
        ensures none { IfOk result (λ a. a ≡ no_programs shapes.now places long) }
    {
        let slots = slots_for(long);
        Ok(Installed {
            shapes: Vec::from_slice(alloc, shapes)?,
            rooms: open_rooms(alloc, shapes, places, slots)?,
            count: 0,
            long,
            slots,
            decoded: Vec::with_capacity(alloc, slots)?,
            scratch: Scratch::open(alloc, slots)?,
        })
    }

    /// Copies the programs of `from` into room of their own, with `places` places for programs of at most `most_bytes(long)` bytes.
    ///
    /// # Errors
    ///
    /// The system has no memory left.
    ///
    /// # Examples
    ///
    /// ```
    /// use loader::Installed;
    /// use maps::Shape;
    /// use verifier::Mode;
    ///
    /// let shapes = [Shape::Array { value: 8, entries: 16 }];
    /// let mut installed = Installed::open(rt.alloc(), &shapes, 1, 0)?;
    /// installed.install(Mode::Read, 0, &[0xb7, 0, 0, 0, 7, 0, 0, 0, 0x95, 0, 0, 0, 0, 0, 0, 0])?; // mov64 r0, 7; exit
    /// let copy = Installed::copy_of(rt.alloc(), &installed, 3, 0)?;
    /// assert_eq!(rt; (copy.len(), copy.places()), (1, 3));
    /// ```
    pub fn copy_of(
        alloc: Global,
        from: &Installed,
        places: usize,
        long: usize,
    ) -> Result<Installed, AllocError>
        requires few { length from.now.programs ≤ places }
        requires short { All (IsShort long) from.now.programs }
        requires places { places ≤ MOST_SPARE }
        requires long { long ≤ MOST_LONG }
        ensures copied { IfOk result (λ a. a ≡ record from.now { places = places; long = long }) }
    {
        let slots = slots_for(long);
        let mut rooms = open_rooms(alloc, &from.shapes, places, slots)?;
        copy_rooms(&from.rooms[..from.count], long, slots, &mut rooms);
        Ok(Installed {
            shapes: Vec::from_slice(alloc, &from.shapes)?,
            rooms,
            count: from.count,
            long,
            slots,
            decoded: Vec::with_capacity(alloc, slots)?,
            scratch: Scratch::open(alloc, slots)?,
        })
    }

    /// The maps' sizes that the programs are for.
    ///
    /// # Examples
    ///
    /// ```
    /// use loader::Installed;
    /// use maps::Shape;
    ///
    /// let shapes = [Shape::Array { value: 8, entries: 16 }];
    /// let installed = Installed::open(rt.alloc(), &shapes, 1, 0)?;
    /// assert!(rt; installed.shapes() == shapes.as_slice());
    /// ```
    pub fn shapes(&self) -> &[Shape]
        ensures shapes { result.now ≡ self.now.shapes }
    {
        &self.shapes
    }

    /// How many programs were installed.
    ///
    /// # Examples
    ///
    /// ```
    /// use loader::Installed;
    /// use maps::Shape;
    /// use verifier::Mode;
    ///
    /// let shapes = [Shape::Array { value: 8, entries: 16 }];
    /// let mut installed = Installed::open(rt.alloc(), &shapes, 4, 0)?;
    /// assert_eq!(rt; installed.len(), 0);
    /// installed.install(Mode::Read, 0, &[0xb7, 0, 0, 0, 7, 0, 0, 0, 0x95, 0, 0, 0, 0, 0, 0, 0])?; // mov64 r0, 7; exit
    /// assert_eq!(rt; installed.len(), 1);
    /// ```
    pub fn len(&self) -> usize
        ensures count { result ≡ length self.now.programs }
        ensures few { result ≤ self.now.places }
    {
        self.count
    }

    /// How many there may be.
    ///
    /// # Examples
    ///
    /// ```
    /// use loader::Installed;
    /// use maps::Shape;
    ///
    /// let shapes = [Shape::Array { value: 8, entries: 16 }];
    /// let installed = Installed::open(rt.alloc(), &shapes, 4, 0)?;
    /// assert_eq!(rt; installed.places(), 4);
    /// ```
    pub fn places(&self) -> usize
        ensures places { result ≡ self.now.places }
        ensures limit { result ≤ MOST_SPARE }
        ensures whole { IsInstalled self.now }
    {
        self.rooms.len()
    }

    /// The most bytes of one of them, and of its argument, if that is more than 192 and 64.
    ///
    /// # Examples
    ///
    /// ```
    /// use loader::Installed;
    /// use maps::Shape;
    ///
    /// let shapes = [Shape::Array { value: 8, entries: 16 }];
    /// let installed = Installed::open(rt.alloc(), &shapes, 1, 4096)?;
    /// assert_eq!(rt; installed.long(), 4096);
    /// ```
    pub fn long(&self) -> usize
        ensures long { result ≡ self.now.long }
        ensures limit { result ≤ MOST_LONG }
        ensures whole { IsInstalled self.now }
    {
        self.long
    }

    /// Whether none is longer than one may be that has `long` bytes.
    ///
    /// # Examples
    ///
    /// ```
    /// use loader::Installed;
    /// use maps::Shape;
    /// use verifier::Mode;
    ///
    /// let shapes = [Shape::Array { value: 8, entries: 16 }];
    /// let mut installed = Installed::open(rt.alloc(), &shapes, 1, 4096)?;
    /// installed.install(Mode::Read, 65, &[0xb7, 0, 0, 0, 7, 0, 0, 0, 0x95, 0, 0, 0, 0, 0, 0, 0])?; // mov64 r0, 7; exit
    /// assert!(rt; installed.are_short(65));
    /// assert!(rt; !installed.are_short(0));
    /// ```
    pub fn are_short(&self, long: usize) -> bool
        ensures short { IsTrue result ↔ All (IsShort long) self.now.programs }
    {
        are_short(&self.rooms[..self.count], long)
    }

    /// The program that was installed as number `k`, from 0.
    ///
    /// # Examples
    ///
    /// ```
    /// use loader::Installed;
    /// use maps::Shape;
    /// use verifier::Mode;
    ///
    /// let shapes = [Shape::Array { value: 8, entries: 16 }];
    /// let mut installed = Installed::open(rt.alloc(), &shapes, 4, 0)?;
    /// installed.install(Mode::Read, 0, &[0xb7, 0, 0, 0, 7, 0, 0, 0, 0x95, 0, 0, 0, 0, 0, 0, 0])?; // mov64 r0, 7; exit
    /// assert_eq!(rt; installed.program(0).map(|program| program.instructions()), Some(2));
    /// assert!(rt; installed.program(1).is_none());
    /// ```
    pub fn program(&self, k: usize) -> Option<&Accepted>
        ensures program { option_map (λ a. checked_in a.now) result ≡ slice_get self.now.programs k }
        ensures accepted { IfSome result (λ a. a.now.shapes ≡ self.now.shapes) }
    {
        if k < self.count {
            Some(&self.rooms[k])
        } else {
            None
        }
    }

    /// None is installed any more.
    ///
    /// # Examples
    ///
    /// ```
    /// use loader::Installed;
    /// use maps::Shape;
    /// use verifier::Mode;
    ///
    /// let shapes = [Shape::Array { value: 8, entries: 16 }];
    /// let mut installed = Installed::open(rt.alloc(), &shapes, 4, 0)?;
    /// installed.install(Mode::Read, 0, &[0xb7, 0, 0, 0, 7, 0, 0, 0, 0x95, 0, 0, 0, 0, 0, 0, 0])?; // mov64 r0, 7; exit
    /// installed.clear();
    /// assert_eq!(rt; (installed.len(), installed.places()), (0, 4));
    /// ```
    pub fn clear(&mut self)
        ensures none { self.new ≡ no_programs self.old.shapes self.old.places self.old.long }
    {
        self.count = 0;
    }

    /// Installs the program that the bytes spell behind the others, if it is accepted for these maps, this mode and an argument of this
    /// length. Else all stays as it was.
    ///
    /// # Errors
    ///
    /// The first thing that keeps the bytes from being such a program.
    ///
    /// # Examples
    ///
    /// ```
    /// use loader::Installed;
    /// use maps::Shape;
    /// use verifier::Mode;
    ///
    /// let shapes = [Shape::Array { value: 8, entries: 16 }];
    /// let mut installed = Installed::open(rt.alloc(), &shapes, 1, 0)?;
    /// // `exit` alone replies R0, which nothing wrote.
    /// assert!(rt; installed.install(Mode::Read, 0, &[0x95, 0, 0, 0, 0, 0, 0, 0]).is_err());
    /// assert_eq!(rt; installed.len(), 0);
    /// installed.install(Mode::Read, 0, &[0xb7, 0, 0, 0, 7, 0, 0, 0, 0x95, 0, 0, 0, 0, 0, 0, 0])?; // mov64 r0, 7; exit
    /// assert_eq!(rt; installed.len(), 1);
    /// ```
    pub fn install(
        &mut self,
        mode: Mode,
        arg_len: usize,
        bytes: &[u8],
    ) -> Result<(), InstallRefusal>
        requires free { length self.old.programs < self.old.places }
        requires few { length bytes.now ≤ most_bytes self.old.long }
        requires argument { arg_len ≤ most_argument self.old.long }
        ensures reading { IsInstallAnswer (installed_program self.old.shapes mode arg_len bytes.now) result }
        ensures programs { self.new ≡ after_install (installed_program self.old.shapes mode arg_len bytes.now) self.old }
    {
        decode_into(bytes, &mut self.decoded).map_err(InstallRefusal::Decode)?;
        let room = &mut self.rooms[self.count];
        let signature = Signature::new(&self.shapes, arg_len, mode);
        verify_into(&self.decoded, &signature, &mut self.scratch, room).map_err(
            InstallRefusal::Verify,
        )?;
        self.count += 1;
        Ok(())
    }

    /// Becomes the same list as another one for as many programs, as long, and for the same maps.
    ///
    /// # Examples
    ///
    /// ```
    /// use loader::Installed;
    /// use maps::Shape;
    /// use verifier::Mode;
    ///
    /// let shapes = [Shape::Array { value: 8, entries: 16 }];
    /// let mut installed = Installed::open(rt.alloc(), &shapes, 1, 0)?;
    /// installed.install(Mode::Read, 0, &[0xb7, 0, 0, 0, 7, 0, 0, 0, 0x95, 0, 0, 0, 0, 0, 0, 0])?; // mov64 r0, 7; exit
    /// let mut copy = Installed::open(rt.alloc(), &shapes, 1, 0)?;
    /// copy.copy_from(&installed);
    /// assert_eq!(rt; copy.len(), 1);
    /// ```
    pub fn copy_from(&mut self, from: &Installed)
        requires shapes { self.old.shapes ≡ from.now.shapes }
        requires places { self.old.places ≡ from.now.places }
        requires long { self.old.long ≡ from.now.long }
        ensures copied { self.new ≡ from.now }
    {
        copy_rooms(
            &from.rooms[..from.count],
            self.long,
            self.slots,
            &mut self.rooms,
        );
        self.count = from.count;
    }
}

// Opens `places` rooms, each for one program of so many slots.
fn open_rooms(
    alloc: Global,
    shapes: &[Shape],
    places: usize,
    slots: usize,
) -> Result<Vec<Accepted>, AllocError>
    requires shapes { AreShapesSupported shapes.now }
    ensures rooms { IfOk result (λ rooms. rooms.items ≡ replicate places (accepted_with (empty_room shapes.now) slots)) }
{
    let mut rooms = Vec::with_capacity(alloc, places)?;
    for _place in 0..places {
        rooms.push_reserved(Accepted::room(alloc, shapes, slots)?);
    }
    Ok(rooms)
}

// The first rooms get these programs, none of which is longer than one may be that has `long` bytes.
fn copy_rooms(from: &[Accepted], long: usize, slots: usize, rooms: &mut Vec<Accepted>)
    requires short { All (IsShort long) (all_checked from.now) }
    requires enough { IsEnough long slots }
    requires rooms { AreRooms slots rooms.old.items }
    requires room { length from.now ≤ length rooms.old.items }
    ensures copied { all_checked (take (length from.now) rooms.new.items) ≡ all_checked from.now }
    ensures rooms { AreRooms slots rooms.new.items }
    ensures count { length rooms.new.items ≡ length rooms.old.items }
{
    for (k, program) in from.iter().enumerate() {
        rooms[k].copy_from(program);
    }
}

// Whether none of these programs is longer than one may be that has `long` bytes.
fn are_short(programs: &[Accepted], long: usize) -> bool
    ensures { result ≡ are_short long programs.now }
{
    programs.iter().all(|program| is_short(program, long))
}

// Whether the program is no longer than one may be that has `long` bytes.
fn is_short(program: &Accepted, long: usize) -> bool
    ensures { result ≡ is_short long (checked_in program.now) }
{
    // (accepted, so it has few slots)
    let _ = program.program();
    8 * program.slots() <= most_bytes(long) && program.arg_len() <= most_argument(long)
}
