// A state as text, piece by piece.

ghost use Rattle.std.specs.Prelude.{◌≡◌, ◌++◌, ◌+◌, ◌*◌, ◌≤◌, ◌<◌, [], IfErr, IfOk, IfSome, IfNone, codes, drop, length, take};
ghost use Rattle.hex.specs.Hex.{encode_lower};
ghost use Rattle.maps.specs.Maps.{HasShapes, shapes_of};
ghost use Rattle.maps.specs.Shapes.{AreShapesSupported};
ghost use Rattle.maps.specs.MapSets.{Contents, maps_of, stored_shapes};
ghost use Rattle.dumps.specs.Dumping.{dump, entry_text, whole_text};
ghost use Rattle.dumps.specs.Written.{entry_line};
ghost use Rattle.dumps.specs.Pieces.{Gives, GivesRow, HasFewer, HaveLines, IsWhole, left_in, left_text, row_text, rows_of};

use crate::dumping::put_programs;
use crate::lines::DUMP_LINE_BYTES;
use crate::loading::is_left_out;
use crate::sorting::{KEY_ROOM, read_key, sorted_places};
use itoa::Buffer;
use loader::{Installed, StoreState};
use maps::MapSet;
use std::alloc::{AllocError, Global};
use std::marker::Model;

// Writes bytes after the first `at` ones of room, and says where they end.
fn put(room: &mut [u8], at: usize, bytes: &[u8]) -> usize
    requires room { at + length bytes.now ≤ length room.old }
    ensures end { result ≡ at + length bytes.now }
    ensures put { take result room.new ≡ take at room.old ++ bytes.now }
    ensures rest { drop result room.new ≡ drop result room.old }
{
    let end = at + bytes.len();
    room[at..end].copy_from_slice(bytes);
    end
}

// Writes bytes in hexadecimal.
fn put_hex(room: &mut [u8], at: usize, bytes: &[u8]) -> usize
    requires room { at + 2 * length bytes.now ≤ length room.old }
    ensures end { result ≡ at + 2 * length bytes.now }
    ensures put { take result room.new ≡ take at room.old ++ encode_lower bytes.now }
    ensures rest { drop result room.new ≡ drop result room.old }
{
    let end = at + 2 * bytes.len();
    let _written = hex::encode_to_slice(bytes, &mut room[at..end]);
    end
}

// Writes the line of an entry of the map of this number.
fn put_line(room: &mut [u8], at: usize, map: u64, key: &[u8], value: &[u8]) -> usize
    requires room { at + DUMP_LINE_BYTES ≤ length room.old }
    requires key { length key.now ≤ 64 }
    requires value { length value.now ≤ 16384 }
    ensures within { (at < result) × (result ≤ length room.old) }
    ensures put { take result room.new ≡ take at room.old ++ (entry_text (entry_line map (key.now, value.now)) ++ codes "\n") }
    ensures rest { drop result room.new ≡ drop result room.old }
{
    let mut digits = Buffer::new();
    let number = put(room, at, digits.format(map).as_bytes());
    let first = put(room, number, b" ");
    let key_end = put_hex(room, first, key);
    let second = put(room, key_end, b" ");
    let value_end = put_hex(room, second, value);
    put(room, value_end, b"\n")
}

// Writes the line of the entry at a place of map `m`, unless that is left out.
fn put_place(room: &mut [u8], at: usize, maps: &MapSet, m: usize, place: u32) -> usize
    requires room { at + DUMP_LINE_BYTES ≤ length room.old }
    requires map { m < length (stored_shapes maps.now) }
    requires shapes { AreShapesSupported (stored_shapes maps.now) }
    ensures within { (at ≤ result) × (result ≤ length room.old) }
    ensures put { take result room.new ≡ take at room.old ++ row_text maps.now m place }
    ensures rest { drop result room.new ≡ drop result room.old }
{
    let mut key = [0u8; KEY_ROOM];
    let Some(size) = read_key(maps, m, place, &mut key) else {
        return at;
    };
    let value = maps.value(maps.entry(m, place));
    if is_left_out(maps.shape(m), value) {
        return at;
    }
    put_line(room, at, m as u64, &key[..size], value)
}

// What comes next: this row of the table of this map; after all tables, this byte of the programs' lines.
#[derive(Clone, Copy)]
struct Next {
    map: usize,
    row: usize,
    byte: usize,
}

// All is left.
fn first() -> Next
    ensures { result ≡ record { map = 0; row = 0; byte = 0 } }
{
    Next {
        map: 0,
        row: 0,
        byte: 0,
    }
}

// A place of a map.
#[derive(Clone, Copy)]
struct Row {
    map: usize,
    place: u32,
}

// Takes the next row of tables, if one is left.
fn next_row(tables: &Vec<Vec<u32>>, next: &mut Next) -> Option<Row>
    ensures row { IfSome result (GivesRow (rows_of tables.now.items) next.old next.new) }
    ensures map { IfSome result (λ r. r.map < length tables.now.items) }
    ensures fewer { IfSome result (λ _. HasFewer (rows_of tables.now.items) next.old next.new) }
    ensures end { IfNone result ((c : Contents) → left_in c (rows_of tables.now.items) next.old.map next.old.row ≡ []) }
    ensures none { IfNone result ((c : Contents) → left_in c (rows_of tables.now.items) next.new.map next.new.row ≡ []) }
    ensures byte { next.new.byte ≡ next.old.byte }
{
    while next.map < tables.len() {
        let table = &tables[next.map];
        let map = next.map;
        if next.row < table.len() {
            let place = table[next.row];
            next.row += 1;
            return Some(Row { map, place });
        }
        next.map += 1;
        next.row = 0;
    }
    None
}

// Writes the next bytes of the programs' lines, as many as there is room for.
fn put_part(room: &mut [u8], at: usize, lines: &[u8], next: &mut Next) -> usize
    requires at { at ≤ length room.old }
    requires byte { next.old.byte ≤ length lines.now }
    ensures part { take result room.new ++ drop next.new.byte lines.now ≡ take at room.old ++ drop next.old.byte lines.now }
    ensures bound { (at ≤ result) × (result ≤ length room.old) }
    ensures rest { drop result room.new ≡ drop result room.old }
    ensures end { result ≡ at → at < length room.old → drop next.old.byte lines.now ≡ [] }
    ensures byte { next.new.byte ≤ length lines.now }
    ensures same { (next.new.map ≡ next.old.map) × (next.new.row ≡ next.old.row) }
{
    let rest = &lines[next.byte..];
    let count = rest.len().min(room.len() - at);
    next.byte += count;
    put(room, at, &rest[..count])
}

// Writes the next bytes of what is left, as many as there is room for, whole lines of maps alone.
fn read_next(
    maps: &MapSet,
    tables: &Vec<Vec<u32>>,
    lines: &[u8],
    next: &mut Next,
    room: &mut [u8],
) -> usize
    requires shapes { AreShapesSupported (stored_shapes maps.now) }
    requires tables { length tables.now.items ≤ length (stored_shapes maps.now) }
    requires byte { next.old.byte ≤ length lines.now }
    requires room { DUMP_LINE_BYTES ≤ length room.old }
    ensures read { Gives maps.now (rows_of tables.now.items) lines.now next.old next.new (take result room.new) }
    ensures end { result ≡ 0 → left_text maps.now (rows_of tables.now.items) lines.now next.old ≡ [] }
    ensures bound { result ≤ length room.new }
    ensures rest { drop result room.new ≡ drop result room.old }
    ensures byte { next.new.byte ≤ length lines.now }
{
    let mut at = 0;
    while room.len() - at >= DUMP_LINE_BYTES {
        match next_row(tables, next) {
            Some(row) => at = put_place(room, at, maps, row.map, row.place),
            None => return put_part(room, at, lines, next),
        }
    }
    at
}

// The tables of all maps.
fn sorted_tables(alloc: Global, maps: &MapSet) -> Result<Vec<Vec<u32>>, AllocError>
    requires shapes { AreShapesSupported (stored_shapes maps.now) }
    ensures { IfOk result (λ v. HaveLines maps.now (length (stored_shapes maps.now)) (rows_of v.items)) }
{
    let mut tables = Vec::new(alloc);
    for m in 0..maps.count() {
        let table = sorted_places(alloc, maps, m)?;
        tables.push(table)?;
    }
    Ok(tables)
}

// What is left of the text of maps and programs. It stays good while these stay as they are.
#[derive(Drop)]
struct Left {
    // Of each map the places of its keys, in the order of the keys.
    tables: Vec<Vec<u32>>,
    // The lines of the programs.
    lines: Vec<u8>,
    next: Next,
}

// All of the text of maps and programs.
fn whole(alloc: Global, maps: &MapSet, programs: &Installed) -> Result<Left, AllocError>
    requires programs { programs.now.shapes ≡ shapes_of (maps_of maps.now) }
    ensures { IfOk result (IsWhole maps.now programs.now) }
{
    // (that a store may have these maps: the proof takes it from this call)
    let _places = programs.places();
    let tables = sorted_tables(alloc, maps)?;
    let mut lines = Vec::new(alloc);
    put_programs(alloc, &mut lines, programs)?;
    Ok(Left {
        tables,
        lines,
        next: first(),
    })
}

/// What is left of the text of a state, given piece by piece. Whoever it is lent by keeps the text.
#[derive(Drop)]
pub struct Pieces<'a> {
    maps: &'a MapSet,
    left: &'a Left,
    next: Next,
}

impl<'a> Model for Pieces<'a> {
    ghost use Rattle.std.specs.Prelude.{ℕ, List};

    ghost Value = { List ℕ };

    ghost use Rattle.dumps.specs.Pieces.{IsLeftOf, left_from, left_of};

    ghost view = { λ p. left_of p.maps.now (left_from p.left.now p.next) };

    ghost invariant = { λ p. IsLeftOf p.maps.now (left_from p.left.now p.next) };
}

impl<'a> Pieces<'a> {
    /// Writes the next bytes of the text to the front of room, and says how many: none only at the end. The bytes after them stay.
    pub fn read(&mut self, room: &mut [u8]) -> usize
        requires room { DUMP_LINE_BYTES ≤ length room.old }
        ensures read { self.old ≡ take result room.new ++ self.new }
        ensures end { result ≡ 0 → self.old ≡ [] }
        ensures bound { result ≤ length room.new }
        ensures rest { drop result room.new ≡ drop result room.old }
    {
        let Left { tables, lines, .. } = self.left;
        read_next(self.maps, tables, lines, &mut self.next, room)
    }
}

/// The text of a state that is lent. It needs four bytes for each key of the maps, which it takes when it is made, and
/// no more.
#[derive(Drop)]
pub struct Dumping<'a> {
    maps: &'a MapSet,
    left: Left,
}

impl<'a> Model for Dumping<'a> {
    ghost use Rattle.std.specs.Prelude.{ℕ, List};

    ghost Value = { List ℕ };

    ghost use Rattle.dumps.specs.Pieces.{IsLeftOf, left_of};

    ghost view = { λ d. left_of d.maps.now d.left };

    ghost invariant = { λ d. IsLeftOf d.maps.now d.left };
}

impl<'a> Dumping<'a> {
    /// All of the text of a state.
    ///
    /// # Errors
    ///
    /// The system has no memory left.
    pub fn new(alloc: Global, state: &'a StoreState) -> Result<Dumping<'a>, AllocError>
        ensures { IfOk result (λ d. d ≡ dump state.now) }
    {
        let maps = state.maps();
        let left = whole(alloc, maps, state.programs())?;
        Ok(Dumping { maps, left })
    }

    /// The pieces of the text.
    pub fn pieces(&self) -> Pieces<'_>
        ensures { result ≡ self.now }
    {
        Pieces {
            maps: self.maps,
            left: &self.left,
            next: self.left.next,
        }
    }
}

/// A state, and what is left of its text: a [`Dumping`] that has the state itself, and gives it back. Its text is taken
/// piece by piece, or lent.
#[derive(Drop)]
pub struct StateText {
    maps: MapSet,
    programs: Installed,
    left: Left,
}

impl Model for StateText {
    ghost use Rattle.std.specs.Prelude.{◌≡◌};
    ghost use Rattle.maps.specs.Maps.{HasShapes, shapes_of};
    ghost use Rattle.maps.specs.MapSets.{maps_of};
    ghost use Rattle.loader.specs.StoreState.{state_of};
    ghost use Rattle.dumps.specs.Dumping.{StateText as Text};

    ghost Value = { Text };

    ghost use Rattle.dumps.specs.Codes.{text_code};
    ghost use Rattle.dumps.specs.Pieces.{IsLeftOf, left_of};

    ghost coded = { text_code };

    ghost view = { λ t. record { state = state_of (maps_of t.maps) t.programs; left = left_of t.maps t.left } };

    // The programs are for the maps.
    ghost invariant = { λ t. HasShapes (shapes_of (maps_of t.maps)) (maps_of t.maps) × (t.programs.shapes ≡ shapes_of (maps_of t.maps)) × IsLeftOf t.maps t.left };
}

impl StateText {
    /// Takes a state. All of its text is left.
    ///
    /// # Errors
    ///
    /// The system has no memory left: then the state comes back.
    pub fn new(alloc: Global, state: StoreState) -> Result<StateText, StoreState>
        ensures text { IfOk result (λ t. t ≡ whole_text state) }
        ensures state { IfErr result (λ s. s ≡ state) }
    {
        let (maps, programs) = state.into_parts();
        match whole(alloc, &maps, &programs) {
            Ok(left) => Ok(StateText {
                maps,
                programs,
                left,
            }),
            Err(_) => Err(StoreState::of(maps, programs)),
        }
    }

    /// Writes the next bytes of the text to the front of room, and says how many: none only at the end. The bytes after them stay.
    pub fn read(&mut self, room: &mut [u8]) -> usize
        requires room { DUMP_LINE_BYTES ≤ length room.old }
        ensures state { self.new.state ≡ self.old.state }
        ensures read { self.old.left ≡ take result room.new ++ self.new.left }
        ensures end { result ≡ 0 → self.old.left ≡ [] }
        ensures bound { result ≤ length room.new }
        ensures rest { drop result room.new ≡ drop result room.old }
    {
        let left = &mut self.left;
        read_next(&self.maps, &left.tables, &left.lines, &mut left.next, room)
    }

    /// The pieces of what is left of its text, which stays left.
    pub fn pieces(&self) -> Pieces<'_>
        ensures { result ≡ self.now.left }
    {
        Pieces {
            maps: &self.maps,
            left: &self.left,
            next: self.left.next,
        }
    }

    /// Gives the state back.
    pub fn into_state(self) -> StoreState
        ensures state { result ≡ self.state }
    {
        let StateText {
            maps,
            programs,
            left: _,
        } = self;
        StoreState::of(maps, programs)
    }
}
