// Scans of a map: which are refused, and how one is made.

ghost use Rattle.std.specs.Prelude.{◌≡◌, length, None};
ghost use Rattle.maps.specs.Maps.{shapes_of};
ghost use Rattle.store_steps.specs.Getting.{IsVerdict};
ghost use Rattle.store_steps.specs.Scanning.{GivesThere, IsPlaceIn, scan_fault_number, scan_refusal};
ghost use Rattle.store_steps.specs.Seen.{APage};

use crate::looks::Look;
use loader::Catalogue;
use node::NodeReplica;
use std::fmt;
use thiserror::Error;

/// How far a scan has come.
#[derive(Clone, Copy, Debug, PartialEq, Eq)]
pub struct Scan {
    /// How many operations of the history the maps had seen.
    pub point: u64,
    /// How many entries it gave.
    pub count: usize,
    /// The place to go on from; `None` where it came to the end of the map.
    pub next: Option<u32>,
}

/// Why a scan is refused. Nothing is done then.
#[derive(Clone, Copy, Debug, PartialEq, Eq, Error)]
pub enum ScanRefused {
    /// S9: the store has no map of this number.
    #[error("S9: the store has no such map")]
    UnknownMap,
    /// S10: the map has no place of this number.
    #[error("S10: the map has no such place")]
    UnknownPlace,
}

impl ScanRefused {
    /// The number, 9 or 10, that a refusal shows after its letter S.
    pub fn number(self) -> u8
        ensures number { result ≡ scan_fault_number self }
    {
        match self {
            ScanRefused::UnknownMap => 9,
            ScanRefused::UnknownPlace => 10,
        }
    }
}

/// Where a scan begins.
#[derive(Clone, Copy)]
pub struct Beginning {
    /// The map, by its number.
    pub map: usize,
    /// The place there.
    pub from: u32,
}

// Whether the catalogue has such a map, and that has such a place.
fn check_scan(catalogue: &Catalogue, begin: Beginning) -> Result<(), ScanRefused>
    ensures refusal { IsVerdict (scan_refusal catalogue.now begin.map begin.from) result }
{
    let Some(shape) = catalogue.shapes().get(begin.map) else {
        return Err(ScanRefused::UnknownMap);
    };
    if begin.from as usize >= shape.entry_count() {
        return Err(ScanRefused::UnknownPlace);
    }
    Ok(())
}

// Scans the maps of a node as far as its replica has come.
fn scan_there(node: &NodeReplica, begin: Beginning, keys: &mut [u8], values: &mut [u8]) -> Scan
    requires place { IsPlaceIn (shapes_of node.now.replica.state.maps) begin.map begin.from }
    ensures point { result.point ≡ node.now.replica.tail }
    ensures gives { GivesThere node.now.replica.state.maps begin.map begin.from (length keys.old) (length values.old) keys.new values.new result }
{
    let maps = node.replica.maps();
    let scanned = maps.scan(begin.map, begin.from, keys, values);
    Scan {
        point: node.replica.tail(),
        count: scanned.count,
        next: scanned.next,
    }
}

/// A look for the entries of a map, from a place on.
#[derive(Drop)]
pub struct Page<'a> {
    /// Where the page begins.
    pub begin: Beginning,
    /// Room for their keys.
    pub keys: &'a mut [u8],
    /// Room for their values.
    pub values: &'a mut [u8],
}

impl Look for Page<'_> {
    type Told = Scan;

    type Refused = ScanRefused;

    ghost may = { λ p c. Unit {0} };

    ghost refusal = { λ p c. scan_refusal c p.begin.map p.begin.from };

    ghost point = { λ scan. scan.point };

    ghost sees = { λ old new scan. APage old.begin.map old.begin.from (length old.keys.now) (length old.values.now) new.keys.now new.values.now scan };

    ghost asks = { λ look. None };

    ghost replies = { λ told. 0 };

    ghost lent = { λ old new. (new.keys.ghost_name ≡ old.keys.ghost_name) × (new.values.ghost_name ≡ old.values.ghost_name) };

    fn check(&self, catalogue: &Catalogue) -> Result<(), ScanRefused> {
        check_scan(catalogue, self.begin)
    }

    fn at(&mut self, _catalogue: &Catalogue, node: &mut NodeReplica) -> Scan {
        scan_there(node, self.begin, self.keys, self.values)
    }
}
