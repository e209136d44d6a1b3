// The shapes of maps, and which of them are allowed.

ghost use Rattle.std.specs.Prelude.{◌≡◌, ◌↔◌, ◌≤◌, IsTrue, IsOk, MatchResult, None, Some, All, length, sum_by};
ghost use Rattle.maps.specs.Shapes.{key_size, value_size, entry_count, IsShapeOk, IsShapeSupported, IsShapeWithin, AreShapesOk, AreShapesWithin, AreLimits, standard, widest, room_of, error_number, fault_number, first_shape_fault, first_fault_within};

use std::alloc::AllocError;
use thiserror::Error;

/// The most maps of a program.
pub const MAX_MAPS: usize = 16;

/// The bytes of an array's key, which is an index.
pub const INDEX_BYTES: u32 = 4;

/// The most bytes of a hash's key.
pub const MAX_KEY_BYTES: u32 = 64;

/// The most bytes of a value.
pub const MAX_VALUE_BYTES: u32 = 256;

/// The most entries of a map.
pub const MAX_ENTRIES: u32 = 65_536;

/// The most bytes of all maps of a program.
pub const MAX_TOTAL_BYTES: u32 = 16_777_216;

/// The most bytes that a key may have by any limits.
pub const MOST_KEY_BYTES: u32 = 64;

/// The most bytes that a value may have by any limits.
pub const MOST_VALUE_BYTES: u32 = 16_384;

/// The most entries that a map may have by any limits.
pub const MOST_ENTRIES: u32 = 2_147_483_648;

/// The most bytes that all maps of a program may have by any limits.
pub const MOST_TOTAL_BYTES: u64 = 1_099_511_627_776;

/// The most bytes of the argument that a program of these maps gets.
pub const MAX_ARG_LEN: usize = 64;

/// The most bytes that the argument of a program may have by any limits.
pub const MOST_ARG_LEN: usize = 16_384;

/// The limits that the definitions cite, as numbers.
pub fn limits()
    ensures maps_of_a_program { MAX_MAPS ≡ 16 }
    ensures bytes_of_an_index { INDEX_BYTES ≡ 4 }
    ensures bytes_of_a_key { MAX_KEY_BYTES ≡ 64 }
    ensures bytes_of_a_value { MAX_VALUE_BYTES ≡ 256 }
    ensures entries_of_a_map { MAX_ENTRIES ≡ 65536 }
    ensures bytes_of_all_maps { MAX_TOTAL_BYTES ≡ 16777216 }
    ensures bytes_of_an_argument { MAX_ARG_LEN ≡ 64 }
{}

/// The widest limits, as numbers.
pub fn widest_limits()
    ensures bytes_of_a_key { MOST_KEY_BYTES ≡ 64 }
    ensures bytes_of_a_value { MOST_VALUE_BYTES ≡ 16384 }
    ensures entries_of_a_map { MOST_ENTRIES ≡ 2147483648 }
    ensures bytes_of_all_maps { MOST_TOTAL_BYTES ≡ 1099511627776 }
    ensures bytes_of_an_argument { MOST_ARG_LEN ≡ 16384 }
{}

/// How large the maps and the argument of a program may be. It lies in memory as C has it.
#[repr(C)]
#[derive(Clone, Copy)]
pub struct MapLimits {
    /// The most bytes of a key.
    pub key: u32,
    /// The most bytes of a value.
    pub value: u32,
    /// The most entries of a map.
    pub entries: u32,
    /// The most bytes of all maps.
    pub bytes: u64,
    /// The most bytes of an argument.
    pub argument: u32,
}

impl MapLimits {
    /// The limits where none are named: keys of 64 bytes, values of 256 bytes, 65,536 entries, 16,777,216 bytes in all maps,
    /// arguments of 64 bytes.
    pub fn standard() -> MapLimits
        ensures standard { result ≡ standard }
        ensures limits { AreLimits result }
    {
        MapLimits {
            key: MAX_KEY_BYTES,
            value: MAX_VALUE_BYTES,
            entries: MAX_ENTRIES,
            bytes: MAX_TOTAL_BYTES as u64,
            argument: MAX_ARG_LEN as u32,
        }
    }

    /// The widest limits: keys of 64 bytes, values of 16,384 bytes, 2,147,483,648 entries, 2^40 bytes in all maps, arguments
    /// of 16,384 bytes.
    pub fn widest() -> MapLimits
        ensures widest { result ≡ widest }
        ensures limits { AreLimits result }
    {
        MapLimits {
            key: MOST_KEY_BYTES,
            value: MOST_VALUE_BYTES,
            entries: MOST_ENTRIES,
            bytes: MOST_TOTAL_BYTES,
            argument: MOST_ARG_LEN as u32,
        }
    }

    /// Whether each is at most the widest, and the index of an array has room as a key.
    pub fn is_within_limits(&self) -> bool
        ensures limits { IsTrue result ↔ AreLimits self.now }
    {
        (INDEX_BYTES..=MOST_KEY_BYTES).contains(&self.key)
            && self.value <= MOST_VALUE_BYTES
            && self.entries <= MOST_ENTRIES
            && self.bytes <= MOST_TOTAL_BYTES
            && self.argument <= MOST_ARG_LEN as u32
    }
}

/// The kind of a map and its sizes: the bytes of a key and of a value, and the number of entries.
#[derive(Clone, Copy, PartialEq, Eq, Debug)]
pub enum Shape {
    /// An array has all its entries from the start. Their keys are the indices, in 4 bytes.
    Array { value: u32, entries: u32 },
    /// A hash has at most so many entries.
    Hash { key: u32, value: u32, entries: u32 },
}

impl Shape {
    /// Whether each size is in its limits: keys of 1 to 64 bytes, values of 1 to 256 bytes, 1 to 65,536 entries.
    pub fn is_ok(self) -> bool
        ensures sizes { IsTrue result ↔ IsShapeOk self }
    {
        self.is_within(&MapLimits::standard())
    }

    /// Whether each size is 1 at least, and within these limits.
    pub fn is_within(self, limits: &MapLimits) -> bool
        ensures sizes { IsTrue result ↔ IsShapeWithin limits.now self }
    {
        let (key, value, entries) = match self {
            Shape::Array { value, entries } => (INDEX_BYTES, value, entries),
            Shape::Hash {
                key,
                value,
                entries,
            } => (key, value, entries),
        };
        (1..=limits.key).contains(&key)
            && (1..=limits.value).contains(&value)
            && (1..=limits.entries).contains(&entries)
    }

    /// The bytes that the map counts: an array's values, a hash's keys and values.
    pub fn room(self) -> u64
        requires sizes { IsShapeSupported self }
        ensures room { result ≡ room_of self }
    {
        match self {
            Shape::Array { value, entries } => entries as u64 * value as u64,
            Shape::Hash {
                key,
                value,
                entries,
            } => entries as u64 * (key + value) as u64,
        }
    }

    /// The bytes of a key: four of an array's, which is an index.
    pub fn key_bytes(self) -> usize
        ensures key { result ≡ key_size self }
    {
        match self {
            Shape::Array { .. } => INDEX_BYTES as usize,
            Shape::Hash { key, .. } => key as usize,
        }
    }

    /// The bytes of a value.
    pub fn value_bytes(self) -> usize
        ensures value { result ≡ value_size self }
    {
        match self {
            Shape::Array { value, .. } => value as usize,
            Shape::Hash { value, .. } => value as usize,
        }
    }

    /// How many entries the map has, or may have.
    pub fn entry_count(self) -> usize
        ensures entries { result ≡ entry_count self }
    {
        match self {
            Shape::Array { entries, .. } => entries as usize,
            Shape::Hash { entries, .. } => entries as usize,
        }
    }
}

/// The rule that shapes break. Each rule has its number, from 1 to 3.
#[derive(Clone, Copy, Debug, Error)]
pub enum ShapeFault {
    /// There are 1 to 16 maps.
    #[error("M1: there is no map, or there are more than 16")]
    NoMapOrTooMany,
    /// Keys have 1 to 64 bytes, values 1 to 256 bytes, and there are 1 to 65,536 entries.
    #[error("M2: a key has not 1 to 64 bytes, a value not 1 to 256 or a map not 1 to 65536 entries")]
    SizeOutOfLimits,
    /// The values of the arrays and the keys and values of the hashes have at most 16,777,216 bytes.
    #[error("M3: the maps have more than 16777216 bytes together")]
    TooManyBytes,
}

impl ShapeFault {
    /// The number, from 1 to 3, that a refusal shows after its letter M.
    pub fn number(self) -> u8
        ensures number { result ≡ fault_number self }
    {
        match self {
            ShapeFault::NoMapOrTooMany => 1,
            ShapeFault::SizeOutOfLimits => 2,
            ShapeFault::TooManyBytes => 3,
        }
    }
}

/// Why maps can't be had.
#[derive(Clone, Copy, Debug, Error)]
pub enum MapError {
    /// Memory ran out.
    #[error("M4: memory ran out")]
    NoMemory,
    /// The shapes break a rule.
    #[error("{0}")]
    Refused(ShapeFault),
}

impl MapError {
    /// The number, from 1 to 4, that a refusal shows after its letter M; 4 where memory ran out.
    pub fn number(self) -> u8
        ensures number { result ≡ error_number self }
    {
        match self {
            MapError::NoMemory => 4,
            MapError::Refused(fault) => fault.number(),
        }
    }
}

impl From<AllocError> for MapError {
    ghost use Rattle.maps.specs.declared.shapes.MapError.TheVariants.{NoMemory};

    ghost from_gives = { λ _ e. e ≡ NoMemory };

    /// No memory.
    fn from(_e: AllocError) -> MapError {
        MapError::NoMemory
    }
}

impl From<ShapeFault> for MapError {
    ghost use Rattle.maps.specs.declared.shapes.MapError.TheVariants.{Refused};

    ghost from_gives = { λ fault e. e ≡ Refused fault };

    /// A refusal.
    fn from(fault: ShapeFault) -> MapError {
        MapError::Refused(fault)
    }
}

/// Whether maps may have these shapes; if not, the refusal with the lowest number of those that hold. Takes no memory.
pub fn shapes_ok(shapes: &[Shape]) -> Result<(), ShapeFault>
    ensures ok { IsOk result ↔ AreShapesOk shapes.now }
    ensures first { MatchResult result (λ _. first_shape_fault shapes.now ≡ None) (λ e. first_shape_fault shapes.now ≡ Some e) }
{
    shapes_within(&MapLimits::standard(), shapes)
}

/// Whether maps may have these shapes by these limits; if not, the refusal with the lowest number. Takes no memory.
pub fn shapes_within(limits: &MapLimits, shapes: &[Shape]) -> Result<(), ShapeFault>
    requires limits { AreLimits limits.now }
    ensures ok { IsOk result ↔ AreShapesWithin limits.now shapes.now }
    ensures first { MatchResult result (λ _. first_fault_within limits.now shapes.now ≡ None) (λ e. first_fault_within limits.now shapes.now ≡ Some e) }
{
    if shapes.is_empty() || shapes.len() > MAX_MAPS {
        return Err(ShapeFault::NoMapOrTooMany);
    }
    if !shapes.iter().all(|shape| shape.is_within(limits)) {
        return Err(ShapeFault::SizeOutOfLimits);
    }
    if total_room(limits, shapes) > limits.bytes {
        return Err(ShapeFault::TooManyBytes);
    }
    Ok(())
}

/// The bytes that all maps count.
fn total_room(limits: &MapLimits, shapes: &[Shape]) -> u64
    requires limits { AreLimits limits.now }
    requires many { length shapes.now ≤ MAX_MAPS }
    requires sizes { All (IsShapeWithin limits.now) shapes.now }
    ensures total { result ≡ sum_by room_of shapes.now }
{
    let mut total = 0u64;
    for shape in shapes {
        total += shape.room();
    }
    total
}
