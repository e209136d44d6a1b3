// A dump, line by line.

ghost use Rattle.std.specs.Prelude.{◌≡◌, ◌≤◌, ◌<◌, MatchResult, IfOk, IfErr, IfSome, IsErr, Ok, length, slice_get, Some, option_map};
ghost use Rattle.std.specs.List.{list_all};
ghost use Rattle.maps.specs.Shapes.{key_size, value_size};
ghost use Rattle.maps.specs.Maps.{MapState, AreMaps};
ghost use Rattle.maps.specs.MapSets.{HasRoom, maps_of, put_value, stored_shapes};
ghost use Rattle.loader.specs.CatalogueView.{MayOpenOn, sizes_for};
ghost use Rattle.dumps.specs.Loading.{is_hash, is_zero, is_behind, is_in_order, is_key_for, is_left_out, has_room, entry_fault, said_program, without_place, after_entry, after_program, after_line, after_ended, opening, loaded_state};
ghost use Rattle.dumps.specs.declared.refusals.DumpError.TheVariants.{NoMemory};
ghost use Rattle.dumps.specs.Refusal.{Fails, Makes, IsLoadAnswer};
ghost use Rattle.dumps.specs.Shown.{entry_of, program_of, key_of, view_of, ProgramFits, IsFor};

use crate::lines::{EndedLines, EntryLine, Line, ProgramLine, VALUE_ROOM, read_line};
use crate::refusals::{DumpError, DumpFault, LineError};
use crate::watching::{Passing, Unwatched, Watcher};
use arrayvec::ArrayVec;
use loader::{Catalogue, Installed, StoreState};
use maps::{MapSet, Shape};
use std::alloc::Global;
use text::FIELD_BYTES;

// Where the last entry stands.
#[derive(Drop)]
struct LastEntry {
    map: u64,
    key: ArrayVec<u8, FIELD_BYTES>,
}

// What the lines before the one that is read say.
#[derive(Drop)]
struct PartialState {
    maps: MapSet,
    installed: Installed,
    last: Option<LastEntry>,
}

fn is_hash(shape: Shape) -> bool
    ensures { result ≡ is_hash shape }
{
    matches!(shape, Shape::Hash { .. })
}

fn are_zeros(bytes: &[u8]) -> bool
    ensures { result ≡ list_all is_zero bytes.now }
{
    bytes.iter().all(|b| *b == 0)
}

// Whether a key of a map stands behind the last entry.
fn is_behind(last: &Option<LastEntry>, map: u64, key: &[u8]) -> bool
    ensures { result ≡ is_behind (option_map key_of last.now) map key.now }
{
    match last {
        None => true,
        Some(last) => last.map < map || (last.map == map && last.key.as_slice().cmp(key).is_lt()),
    }
}

// Whether an entry stands behind the last one, and before all programs.
#[tactic(auto, unfolding(crate::specs::Loading::is_in_order))]
fn is_in_order(so_far: &PartialState, entry: &EntryLine<'_>) -> bool
    ensures { result ≡ is_in_order (view_of so_far.now) (entry_of entry.now) }
{
    so_far.installed.len() == 0 && is_behind(&so_far.last, entry.map, entry.key.as_slice())
}

// Whether map `m` may have this key.
fn is_key_for(maps: &MapSet, m: usize, key: &[u8]) -> bool
    requires map { m < length (stored_shapes maps.now) }
    ensures { (s : MapState) → slice_get (maps_of maps.now) m ≡ Some s → result ≡ is_key_for s key.now }
{
    let shape = maps.shape(m);
    if key.len() != shape.key_bytes() {
        return false;
    }
    is_hash(shape) || maps.lookup(m, key).is_some()
}

#[tactic(auto, unfolding(crate::specs::Loading::is_left_out))]
pub(crate) fn is_left_out(shape: Shape, value: &[u8]) -> bool
    ensures { result ≡ is_left_out shape value.now }
{
    !is_hash(shape) && are_zeros(value)
}

// Whether map `m` has room for this key.
fn has_room(maps: &MapSet, m: usize, key: &[u8]) -> bool
    requires map { m < length (stored_shapes maps.now) }
    requires key { IfSome (slice_get (stored_shapes maps.now) m) (λ s. length key.now ≡ key_size s) }
    ensures { (s : MapState) → slice_get (maps_of maps.now) m ≡ Some s → result ≡ has_room s key.now }
{
    let shape = maps.shape(m);
    if maps.lookup(m, key).is_some() {
        return true;
    }
    is_hash(shape) && maps.len(m) < shape.entry_count()
}

// The first thing that keeps an entry from map `m`.
fn entry_fault(so_far: &PartialState, m: usize, entry: &EntryLine<'_>) -> Option<DumpFault>
    requires map { m < length (stored_shapes so_far.now.maps) }
    ensures { (s : MapState) → slice_get (maps_of so_far.now.maps) m ≡ Some s
        → result ≡ entry_fault (view_of so_far.now) (entry_of entry.now) s }
{
    let shape = so_far.maps.shape(m);
    if !is_key_for(&so_far.maps, m, entry.key.as_slice()) {
        return Some(DumpFault::BadKey);
    }
    if entry.value.len() != shape.value_bytes() {
        return Some(DumpFault::BadValue);
    }
    if !is_in_order(so_far, entry) {
        return Some(DumpFault::OutOfOrder);
    }
    if is_left_out(shape, entry.value) {
        return Some(DumpFault::ZeroValue);
    }
    if !has_room(&so_far.maps, m, entry.key.as_slice()) {
        return Some(DumpFault::Full);
    }
    None
}

// Puts a value under a key of map `m`, which has room for it.
fn put_entry(maps: &mut MapSet, m: usize, key: &[u8], value: &[u8])
    requires map { m < length (stored_shapes maps.old) }
    requires key { IfSome (slice_get (stored_shapes maps.old) m) (λ s. length key.now ≡ key_size s) }
    requires value { IfSome (slice_get (stored_shapes maps.old) m) (λ s. length value.now ≡ value_size s) }
    requires room { HasRoom (maps_of maps.old) m key.now }
    requires each { AreMaps (maps_of maps.old) }
    ensures updated { maps_of maps.new ≡ put_value (maps_of maps.old) m key.now value.now }
    ensures shapes { stored_shapes maps.new ≡ stored_shapes maps.old }
    ensures each { AreMaps (maps_of maps.new) }
{
    maps.update(m, key, value);
}

// One more entry.
fn take_entry(
    catalogue: &Catalogue,
    so_far: &mut PartialState,
    entry: EntryLine<'_>,
) -> Result<(), LineError>
    requires so_far { IsFor (sizes_for catalogue.now) so_far.old }
    ensures made { Makes (view_of so_far.new) result (after_entry (view_of so_far.old) (entry_of entry.entry)) }
    ensures same { IsFor (sizes_for catalogue.now) so_far.new }
{
    if entry.map >= catalogue.shapes().len() as u64 {
        return Err(LineError::Refused(DumpFault::NoMap));
    }
    let m = entry.map as usize;
    match entry_fault(so_far, m, &entry) {
        Some(fault) => Err(LineError::Refused(fault)),
        None => {
            put_entry(&mut so_far.maps, m, entry.key.as_slice(), entry.value);
            so_far.last = Some(LastEntry {
                map: entry.map,
                key: entry.key,
            });
            Ok(())
        }
    }
}

// A program for which there is no place: it is refused, and if its bytes are, for that.
fn refuse_program(
    alloc: Global,
    catalogue: &Catalogue,
    program: &ProgramLine<'_>,
) -> Result<(), LineError>
    requires program { ProgramFits catalogue.now.long program.now }
    ensures fails { IfErr result (λ e. Fails e (without_place (said_program (sizes_for catalogue.now) (program_of program.now)))) }
    ensures never { IsErr result }
{
    let mut room = Installed::open(alloc, catalogue.shapes(), 1, catalogue.long())?;
    match room.install(program.mode, program.arg_len as usize, program.bytes) {
        Ok(()) => Err(LineError::Refused(DumpFault::TooManyPrograms)),
        Err(e) => Err(LineError::Refused(DumpFault::Program(e))),
    }
}

// One more program.
fn take_program(
    alloc: Global,
    catalogue: &Catalogue,
    so_far: &mut PartialState,
    program: ProgramLine<'_>,
) -> Result<(), LineError>
    requires so_far { IsFor (sizes_for catalogue.now) so_far.old }
    requires program { ProgramFits catalogue.now.long program }
    ensures made { Makes (view_of so_far.new) result (after_program (sizes_for catalogue.now) (view_of so_far.old) (program_of program.entry)) }
    ensures same { IsFor (sizes_for catalogue.now) so_far.new }
{
    if so_far.installed.len() >= so_far.installed.places() {
        return refuse_program(alloc, catalogue, &program);
    }
    let arg_len = program.arg_len as usize;
    match so_far
        .installed
        .install(program.mode, arg_len, program.bytes)
    {
        Ok(()) => Ok(()),
        Err(e) => Err(LineError::Refused(DumpFault::Program(e))),
    }
}

// One more line, with room for its value or its program.
#[tactic(auto, unfolding(crate::specs::Loading::after_line))]
fn take_line(
    alloc: Global,
    catalogue: &Catalogue,
    so_far: &mut PartialState,
    line: &str,
    room: &mut [u8; VALUE_ROOM],
) -> Result<(), LineError>
    requires so_far { IsFor (sizes_for catalogue.now) so_far.old }
    ensures made { Makes (view_of so_far.new) result (after_line (sizes_for catalogue.now) (view_of so_far.old) line.now) }
    ensures same { IsFor (sizes_for catalogue.now) so_far.new }
{
    match read_line(line, catalogue.long(), room) {
        None => Err(LineError::Refused(DumpFault::BadLine)),
        Some(Line::Entry(entry)) => take_entry(catalogue, so_far, entry),
        Some(Line::Program(program)) => take_program(alloc, catalogue, so_far, program),
    }
}

// One more line, which the last may be without a line feed.
fn take_ended(
    alloc: Global,
    catalogue: &Catalogue,
    so_far: &mut PartialState,
    line: Option<&str>,
    room: &mut [u8; VALUE_ROOM],
) -> Result<(), LineError>
    requires so_far { IsFor (sizes_for catalogue.now) so_far.old }
    ensures made { Makes (view_of so_far.new) result (after_ended (sizes_for catalogue.now) (view_of so_far.old) (option_map (λ t. t.now) line.entry)) }
    ensures same { IsFor (sizes_for catalogue.now) so_far.new }
{
    match line {
        None => Err(LineError::Refused(DumpFault::BadLine)),
        Some(line) => take_line(alloc, catalogue, so_far, line, room),
    }
}

// The catalogue's maps as they are opened, and no program.
fn opened(alloc: Global, catalogue: &Catalogue) -> Result<PartialState, DumpError>
    ensures opened { MatchResult result (λ s. view_of s ≡ opening (sizes_for catalogue.now)) (λ e. e ≡ NoMemory) }
    ensures sizes { IfOk result (IsFor (sizes_for catalogue.now)) }
{
    let shapes = catalogue.shapes();
    let maps = MapSet::open_supported(alloc, shapes)?;
    let installed = Installed::open(alloc, shapes, catalogue.places(), catalogue.long())?;
    Ok(PartialState {
        maps,
        installed,
        last: None,
    })
}

/// [`load`], which tells a watcher how much of the text is loaded. No watcher changes what is loaded.
///
/// # Errors
///
/// As [`load`].
pub fn load_watched<V: Watcher>(
    alloc: Global,
    catalogue: &Catalogue,
    text: &str,
    watcher: &V,
) -> Result<StoreState, DumpError>
    ensures loaded { IsLoadAnswer (loaded_state (sizes_for catalogue.now) text.now) result }
    ensures fits { IfOk result (MayOpenOn catalogue.now) }
{
    // (that the catalogue keeps to its limits: the proof takes it from this call)
    let _places = catalogue.places();
    let mut so_far = opened(alloc, catalogue)?;
    let mut lines = EndedLines::new(text);
    let mut passing = Passing::new(watcher, text.len());
    let mut room = [0u8; VALUE_ROOM];
    while let Some((number, line)) = lines.take_line() {
        match take_ended(alloc, catalogue, &mut so_far, line, &mut room) {
            Ok(()) => passing.note(lines.left()),
            Err(e) => {
                watcher.ended();
                return Err(e.at(number));
            }
        }
    }
    passing.end();
    Ok(StoreState::of(so_far.maps, so_far.installed))
}

/// The state that a dump says, for stores of a catalogue: on its maps, and with as many places as it has, for programs as long; else the
/// first bad line, and of its faults the one of lowest number.
///
/// A dump has a line of at most 32,931 bytes for each entry that is there, `MAP KEYHEX VALUEHEX`, in the order of the maps' numbers and then of the keys' bytes, without the zeros of arrays; and then a line
/// `p MODE ARGLEN HEX` for each program. ARGLEN is at most 64, and HEX has at most 192 bytes, or as many as [`Catalogue::long`] where that is more.
/// Takes time in proportion to the text and to the maps' room.
///
/// # Errors
///
/// The first bad line, or memory ran out: nothing is loaded.
pub fn load(alloc: Global, catalogue: &Catalogue, text: &str) -> Result<StoreState, DumpError>
    ensures loaded { IsLoadAnswer (loaded_state (sizes_for catalogue.now) text.now) result }
    ensures fits { IfOk result (MayOpenOn catalogue.now) }
{
    load_watched(alloc, catalogue, text, &Unwatched)
}
