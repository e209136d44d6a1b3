// The value under one key.

ghost use Rattle.std.specs.Prelude.{◌≡◌, length, None};
ghost use Rattle.maps.specs.Maps.{shapes_of};
ghost use Rattle.store_steps.specs.Getting.{FitsIn, IsUnder, IsVerdict, get_fault_number, get_refusal};
ghost use Rattle.store_steps.specs.Seen.{AKey};

use crate::looks::Look;
use loader::Catalogue;
use node::NodeReplica;
use std::fmt;
use thiserror::Error;

/// A key of a map.
#[derive(Clone, Copy)]
pub struct MapKey<'a> {
    /// The map, by its number.
    pub map: usize,
    /// The key there.
    pub key: &'a [u8],
}

/// Whether a key was found.
#[derive(Clone, Copy, Debug, PartialEq, Eq)]
pub struct Lookup {
    /// How many operations of the history the maps had seen.
    pub point: u64,
    /// Whether the key stands there.
    pub found: bool,
}

/// Why it is refused to look for a key. Nothing is done then.
#[derive(Clone, Copy, Debug, PartialEq, Eq, Error)]
pub enum GetRefused {
    /// S9: the store has no map of this number.
    #[error("S9: the store has no such map")]
    UnknownMap,
    /// S11: the map's keys have another length.
    #[error("S11: the map has no keys of this length")]
    KeyLength,
    /// S12: the map's values have another length than the room for one.
    #[error("S12: the map has no values of this length")]
    ValueLength,
}

impl GetRefused {
    /// The number, 9, 11 or 12, that a refusal shows after its letter S.
    pub fn number(self) -> u8
        ensures number { result ≡ get_fault_number self }
    {
        match self {
            GetRefused::UnknownMap => 9,
            GetRefused::KeyLength => 11,
            GetRefused::ValueLength => 12,
        }
    }
}

// Whether the catalogue has such a map, with keys of this length, and values as long as the room for one.
fn check_get(catalogue: &Catalogue, of: MapKey<'_>, room: usize) -> Result<(), GetRefused>
    ensures refusal { IsVerdict (get_refusal catalogue.now of.entry.map (length of.entry.key.now) room) result }
{
    let Some(shape) = catalogue.shapes().get(of.map) else {
        return Err(GetRefused::UnknownMap);
    };
    if of.key.len() != shape.key_bytes() {
        return Err(GetRefused::KeyLength);
    }
    if room != shape.value_bytes() {
        return Err(GetRefused::ValueLength);
    }
    Ok(())
}

// Looks for a key in the maps of a node as far as its replica has come.
fn get_there(node: &NodeReplica, of: MapKey<'_>, value: &mut [u8]) -> Lookup
    requires fits { FitsIn (shapes_of node.now.replica.state.maps) of.map (length of.key.now) (length value.old) }
    ensures point { result.point ≡ node.now.replica.tail }
    ensures under { IsUnder node.now.replica.state.maps of.entry.map of.entry.key.now value.old value.new result }
{
    let maps = node.replica.maps();
    let point = node.replica.tail();
    let Some(entry) = maps.lookup(of.map, of.key) else {
        return Lookup {
            point,
            found: false,
        };
    };
    value.copy_from_slice(maps.value(entry));
    Lookup { point, found: true }
}

/// A look for the value of a key.
#[derive(Drop)]
pub struct Get<'k, 'v> {
    /// The key.
    pub of: MapKey<'k>,
    /// Room for its value.
    pub value: &'v mut [u8],
}

impl Look for Get<'_, '_> {
    type Told = Lookup;

    type Refused = GetRefused;

    ghost may = { λ g c. Unit {0} };

    ghost refusal = { λ g c. get_refusal c g.of.map (length g.of.key.now) (length g.value.now) };

    ghost point = { λ found. found.point };

    ghost sees = { λ old new found. AKey old.of.map old.of.key.now old.value.now new.value.now found };

    ghost asks = { λ look. None };

    ghost replies = { λ told. 0 };

    ghost lent = { λ old new. new.value.ghost_name ≡ old.value.ghost_name };

    fn check(&self, catalogue: &Catalogue) -> Result<(), GetRefused> {
        check_get(catalogue, self.of, self.value.len())
    }

    fn at(&mut self, _catalogue: &Catalogue, node: &mut NodeReplica) -> Lookup {
        let of = self.of;
        get_there(node, of, self.value)
    }
}
