// The install of a program that may name some of the store's maps alone.

ghost use Rattle.std.specs.Prelude.{◌≡◌, ◌<◌, ◌≤◌, None, Some, Err, IfOk, length};
ghost use Rattle.maps.specs.declared.shapes.TheConstants.{MOST_ARG_LEN};
ghost use Rattle.loader.specs.declared.installed.TheConstants.{MOST_LONG};
ghost use Rattle.replica.specs.Refusals.{IsRefusedAs, IsRoomFor};
ghost use Rattle.replica.specs.declared.refusals.StoreRefused.{StoreRefused};
ghost use Rattle.store.specs.Going.{PostGoes, UpdateGoes};
ghost use Rattle.store.specs.Linear.{AddsPost, AddsUpdate};
ghost use Rattle.store.specs.Looks.{IsRefused};
ghost use Rattle.store.specs.Polled.{TellsPost};
ghost use Rattle.store.specs.Sessions.{IsOf, SessionGoesOn, TellsUpdate};
ghost use Rattle.store.specs.Within.{install_within, outside_refusal, program_within, refused_as, within_refusal, within_refused};

use crate::answers::Answer;
use crate::polled::Polled;
use crate::session::Session;
use crate::store::Store;
use loader::{InstallRefusal, Installed, most_argument, most_bytes};
use named_maps::first_outside;
use oplog::OpRef;
use replica::StoreRefused;
use std::sync::Wait;
use verifier::{Accepted, Mode, Refused, VerifyFault};

/// A program that is to be installed, and the maps that it may name.
///
/// # Examples
///
/// ```
/// use store::{Answer, Config, Confined, Mode, Store, load_manifest};
///
/// let catalogue = load_manifest(rt.alloc(), "map array 8 16\n", &[])?;
/// let config = Config { nodes: 1, slots: 1, window: 16, limit: 100, spare: 1 };
/// let (store, mut sessions) = Store::open(rt.alloc(), config, catalogue)?;
///
/// let six = [0xb7, 0, 0, 0, 6, 0, 0, 0, 0x95, 0, 0, 0, 0, 0, 0, 0]; // a program that replies 6, and names no map
/// let wanted = Confined { maps: 0, mode: Mode::Read, arg_len: 0, bytes: &six };
/// let placed = sessions[0].install_within(&rt, &store, wanted);
/// let _closed = match store.close(sessions) { Ok(closed) => closed, Err(_) => unreachable!() };
/// assert_eq!(rt; placed, Ok(Answer { index: 0, reply: 0 }));
/// ```
#[derive(Clone, Copy)]
pub struct Confined<'a> {
    /// The maps that it may name: bit m stands for map m. Bits of maps that the store hasn't got say nothing.
    pub maps: u16,
    /// Which helpers it may call.
    pub mode: Mode,
    /// The length of its argument in bytes, at most 64.
    pub arg_len: usize,
    /// Its instructions, at most 192 bytes.
    pub bytes: &'a [u8],
}

// The store's refusal for bytes that are no program, or none that is safe.
fn refused_as(refusal: InstallRefusal) -> StoreRefused
    ensures refused { result ≡ refused_as refusal }
{
    match refusal {
        InstallRefusal::Decode(refusal) => StoreRefused::NotDecoded(refusal),
        InstallRefusal::Verify(refusal) => StoreRefused::NotAccepted(refusal),
    }
}

// S8 where the program names a map outside of these: V16, at the first slot that does.
fn check_maps(program: &Accepted, maps: u16) -> Result<(), StoreRefused>
    ensures refusal { IsRefusedAs (outside_refusal maps program.now.program) result }
{
    match first_outside(program, maps) {
        None => Ok(()),
        Some(slot) => Err(StoreRefused::NotAccepted(Refused {
            slot: slot as u32,
            why: VerifyFault::UnknownHelperOrMap,
        })),
    }
}

// Whether a program may be installed: as [`check_install`](replica::check_install) has it, and then whether it names no other maps than it may.
fn check_within(room: &mut Installed, wanted: Confined<'_>) -> Result<(), StoreRefused>
    requires room { 0 < room.old.places }
    ensures few { IfOk result (λ _. (length wanted.entry.bytes.now ≤ MOST_LONG) × (wanted.entry.arg_len ≤ MOST_ARG_LEN)) }
    ensures room { IsRoomFor room.old.shapes room.old.long room.new }
    ensures refusal { IsRefusedAs (within_refusal room.old.shapes room.old.long wanted.entry.maps (program_within wanted.entry)) result }
{
    let long = room.long();
    if wanted.bytes.len() > most_bytes(long) || wanted.arg_len > most_argument(long) {
        return Err(StoreRefused::TooLarge);
    }
    room.clear();
    if let Err(refusal) = room.install(wanted.mode, wanted.arg_len, wanted.bytes) {
        return Err(refused_as(refusal));
    }
    match room.program(0) {
        Some(program) => check_maps(program, wanted.maps),
        None => unreachable!(),
    }
}

impl Session {
    /// Installs a program, as [`install`](Session::install) has it, that names no other maps than it may. So who lets others install programs says
    /// which maps each may read and change.
    ///
    /// # Errors
    ///
    /// S6, S7 and S8 as with `install`. Then S8 with V16 where the program names a map that it may not, at the first slot that does. Nothing is
    /// done then. S4: the history has all its records, and this request has none. The session goes on after each.
    ///
    /// # Examples
    ///
    /// ```
    /// use store::{Answer, Config, Confined, Mode, Store, load_manifest};
    ///
    /// let catalogue = load_manifest(rt.alloc(), "map array 8 16\nmap array 8 16\n", &[])?;
    /// let config = Config { nodes: 1, slots: 1, window: 16, limit: 100, spare: 1 };
    /// let (store, mut sessions) = Store::open(rt.alloc(), config, catalogue)?;
    ///
    /// // ldmap r1, 1; mov64 r0, 0; exit
    /// let program = [0x18, 0x51, 0, 0, 1, 0, 0, 0, 0, 0, 0, 0, 0, 0, 0, 0, 0xb7, 0, 0, 0, 0, 0, 0, 0, 0x95, 0, 0, 0, 0, 0, 0, 0];
    /// let wanted = Confined { maps: 0b01, mode: Mode::Read, arg_len: 0, bytes: &program };
    /// let refused = sessions[0].install_within(&rt, &store, wanted);
    /// let placed = sessions[0].install_within(&rt, &store, Confined { maps: 0b10, ..wanted });
    /// let _closed = match store.close(sessions) { Ok(closed) => closed, Err(_) => unreachable!() };
    /// assert_eq!(rt; refused.err().map(|it| it.number()), Some(8)); // map 1 is not among its maps
    /// assert_eq!(rt; placed, Ok(Answer { index: 0, reply: 0 }));
    /// ```
    pub fn install_within<R: Wait>(
        &mut self,
        rt: &R,
        store: &Store,
        wanted: Confined<'_>,
    ) -> Result<Answer, StoreRefused>
        requires own { IsOf store.now self.old }
        ensures early { IsRefused (within_refused store.now wanted.entry) result (self.new ≡ self.old) }
        ensures session { SessionGoesOn store.now self.old self.new }
        ensures answered { within_refused store.now wanted.entry ≡ None → TellsUpdate self.old self.new (install_within wanted.entry) result }
        ensures goes { within_refused store.now wanted.entry ≡ None → UpdateGoes self.old self.new (install_within wanted.entry) result }
        ensures adds { within_refused store.now wanted.entry ≡ None → AddsUpdate self.old self.new (install_within wanted.entry) result }
    {
        check_within(&mut self.room, wanted)?;
        let op = OpRef::install(wanted.mode, wanted.arg_len, wanted.bytes);
        self.perform(rt, store, &op, false)
    }
}

impl Polled {
    /// Posts the install of a program, as [`Session::install_within`] has it, if nobody holds the desk of its node; it is an update like others.
    ///
    /// # Errors
    ///
    /// S6, S7 or S8 as with [`Session::install_within`]: nothing is done then.
    ///
    /// # Examples
    ///
    /// ```
    /// use store::{Answer, Config, Confined, Mode, Polled, Store, load_manifest};
    ///
    /// let catalogue = load_manifest(rt.alloc(), "map array 8 16\nmap array 8 16\n", &[])?;
    /// let config = Config { nodes: 1, slots: 1, window: 16, limit: 100, spare: 1 };
    /// let (store, mut sessions) = Store::open(rt.alloc(), config, catalogue)?;
    /// let mut polled = Polled::new(sessions.remove(0));
    /// sessions.destroy_empty();
    ///
    /// // ldmap r1, 1; mov64 r0, 0; exit
    /// let program = [0x18, 0x51, 0, 0, 1, 0, 0, 0, 0, 0, 0, 0, 0, 0, 0, 0, 0xb7, 0, 0, 0, 0, 0, 0, 0, 0x95, 0, 0, 0, 0, 0, 0, 0];
    /// let wanted = Confined { maps: 0b01, mode: Mode::Read, arg_len: 0, bytes: &program };
    /// assert_eq!(rt; polled.try_install_within(&store, wanted).err().map(|it| it.number()), Some(8)); // map 1 is not among its maps
    /// assert_eq!(rt; polled.try_install_within(&store, Confined { maps: 0b10, ..wanted })?, Some(()));
    /// assert_eq!(rt; polled.try_complete(&store), Some(Ok(Answer { index: 0, reply: 0 })));
    /// ```
    pub fn try_install_within(
        &mut self,
        store: &Store,
        asked: Confined<'_>,
    ) -> Result<Option<()>, StoreRefused>
        requires own { IsOf store.now self.old }
        requires idle { self.old.note.pending ≡ None }
        ensures early { IsRefused (within_refused store.now asked.entry) result (self.new ≡ self.old) }
        ensures session { SessionGoesOn store.now self.old self.new }
        ensures posted { within_refused store.now asked.entry ≡ None → TellsPost self.old self.new (install_within asked.entry) result }
        ensures goes { within_refused store.now asked.entry ≡ None → PostGoes self.old self.new (install_within asked.entry) result }
        ensures adds { within_refused store.now asked.entry ≡ None → AddsPost self.old self.new (install_within asked.entry) result }
    {
        check_within(&mut self.room, asked)?;
        let op = OpRef::install(asked.mode, asked.arg_len, asked.bytes);
        let Some(()) = self.post(store, &op) else {
            return Ok(None);
        };
        Ok(Some(()))
    }
}
