// What a store says of its maps and programs.

ghost use Rattle.std.specs.Prelude.{◌≡◌, ◌<◌, length, None};
ghost use Rattle.maps.specs.Maps.{shapes_of};
ghost use Rattle.verifier.specs.Accepted.{checked_in};
ghost use Rattle.store_steps.specs.Describing.{AreFactsThere, Describes, DescribesProgram, HasMap, info_fault_number, map_refusal, program_refusal};
ghost use Rattle.store_steps.specs.Getting.{IsVerdict};
ghost use Rattle.store_steps.specs.Seen.{AMap, AProgram};

use crate::looks::Look;
use loader::Catalogue;
use maps::Shape;
use named_maps::named_maps;
use node::NodeReplica;
use std::fmt;
use thiserror::Error;
use verifier::{Accepted, Mode};

/// What a store says of one of its maps.
#[derive(Clone, Copy, Debug, PartialEq, Eq)]
pub struct MapInfo {
    /// How many operations of the history the map had seen.
    pub point: u64,
    /// Its kind and its sizes.
    pub shape: Shape,
    /// How many keys it has. An array always has all of its own.
    pub keys: usize,
}

/// What a store says of one of its programs.
#[derive(Clone, Copy, Debug, PartialEq, Eq)]
pub struct ProgramInfo {
    /// How many operations of the history the node had seen.
    pub point: u64,
    /// Whether the number is that of a place, and not of a program of the manifest.
    pub at_place: bool,
    /// The facts of the program that has this number. `None` if nothing is installed at the place.
    pub facts: Option<ProgramFacts>,
}

/// The facts of a program.
#[derive(Clone, Copy, Debug, PartialEq, Eq)]
pub struct ProgramFacts {
    /// Whether it may change the maps that it names.
    pub mode: Mode,
    /// How many bytes its argument has.
    pub arg_len: usize,
    /// How many slots of 8 bytes it has.
    pub slots: usize,
    /// The maps that it names, which are all that it reads or changes: bit m is for map m.
    pub maps: u16,
}

/// Why a store says nothing of a map or a program. Nothing is done then.
#[derive(Clone, Copy, Debug, PartialEq, Eq, Error)]
pub enum InfoRefused {
    /// S9: the store has no map of this number.
    #[error("S9: the store has no such map")]
    UnknownMap,
    /// S1: the number is none of a program of the manifest, nor of a place.
    #[error("S1: the store has no such program")]
    UnknownProgram,
}

impl InfoRefused {
    /// The number, 1 or 9, that a refusal shows after its letter S.
    pub fn number(self) -> u8
        ensures number { result ≡ info_fault_number self }
    {
        match self {
            InfoRefused::UnknownMap => 9,
            InfoRefused::UnknownProgram => 1,
        }
    }
}

// What a map of a node has, as far as the replica has come.
fn map_there(node: &NodeReplica, map: usize) -> MapInfo
    requires there { map < length (shapes_of node.now.replica.state.maps) }
    ensures point { result.point ≡ node.now.replica.tail }
    ensures has { HasMap node.now.replica.state.maps map result }
{
    let maps = node.replica.maps();
    MapInfo {
        point: node.replica.tail(),
        shape: maps.shape(map),
        keys: maps.len(map),
    }
}

// The facts of a program.
fn facts_of(program: &Accepted) -> ProgramFacts
    ensures { Describes (checked_in program.now) result }
{
    ProgramFacts {
        mode: program.mode(),
        arg_len: program.arg_len(),
        slots: program.slots(),
        maps: named_maps(program),
    }
}

// The facts of a program, if there is one.
fn facts_if(program: Option<&Accepted>) -> Option<ProgramFacts>
    ensures { AreFactsThere program.entry result }
{
    match program {
        Some(program) => Some(facts_of(program)),
        None => None,
    }
}

// Program k of a node, as far as the replica has come.
fn program_there(catalogue: &Catalogue, node: &NodeReplica, k: u16) -> ProgramInfo
    ensures point { result.point ≡ node.now.replica.tail }
    ensures describes { DescribesProgram catalogue.now node.now.replica.state k result }
{
    let offered = catalogue.len();
    let number = k as usize;
    let at_place = number >= offered;
    let facts = if at_place {
        facts_if(node.replica.programs().program(number - offered))
    } else {
        facts_if(catalogue.program(k))
    };
    ProgramInfo {
        point: node.replica.tail(),
        at_place,
        facts,
    }
}

/// A look at a map's shape and at how many keys it has.
#[derive(Clone, Copy)]
pub struct MapQuery {
    /// The map, by its number.
    pub map: usize,
}

impl Look for MapQuery {
    type Told = MapInfo;

    type Refused = InfoRefused;

    ghost may = { λ q c. Unit {0} };

    ghost refusal = { λ q c. map_refusal c q.map };

    ghost point = { λ info. info.point };

    ghost sees = { λ old new info. AMap old.map info };

    ghost asks = { λ look. None };

    ghost replies = { λ told. 0 };

    ghost lent = { λ old new. Unit {0} };

    fn check(&self, catalogue: &Catalogue) -> Result<(), InfoRefused> {
        if self.map >= catalogue.shapes().len() {
            return Err(InfoRefused::UnknownMap);
        }
        Ok(())
    }

    fn at(&mut self, _catalogue: &Catalogue, node: &mut NodeReplica) -> MapInfo {
        map_there(node, self.map)
    }
}

/// A look at the program of a number.
#[derive(Clone, Copy)]
pub struct ProgramQuery {
    /// The program's number.
    pub program: u16,
}

impl Look for ProgramQuery {
    type Told = ProgramInfo;

    type Refused = InfoRefused;

    ghost may = { λ q c. Unit {0} };

    ghost refusal = { λ q c. program_refusal c q.program };

    ghost point = { λ info. info.point };

    ghost sees = { λ old new info. AProgram old.program info };

    ghost asks = { λ look. None };

    ghost replies = { λ told. 0 };

    ghost lent = { λ old new. Unit {0} };

    fn check(&self, catalogue: &Catalogue) -> Result<(), InfoRefused> {
        if self.program as usize >= catalogue.len() + catalogue.places() {
            return Err(InfoRefused::UnknownProgram);
        }
        Ok(())
    }

    fn at(&mut self, catalogue: &Catalogue, node: &mut NodeReplica) -> ProgramInfo {
        program_there(catalogue, node, self.program)
    }
}
