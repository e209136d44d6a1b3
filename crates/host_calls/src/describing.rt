// The calls that ask a store what it is, and the words in which it answers.

ghost use Rattle.std.specs.Prelude.{◌≡◌, option_map};
ghost use Rattle.host_calls.specs.Describing.{DescribesMap, DescribesProgram, DescribesStore, TellsMapAsked, TellsProgramAsked, fact_words, kind_word, map_words, mode_word, name_or_none, name_words, no_info, size_words};
ghost use Rattle.host_calls.specs.Views.{IsSame};

use crate::attached::{Attached, Looked};
use crate::handles::{AT_END, NAME_ROOM, SessionHandle, StoreHandle};
use crate::looks::note;
use crate::statuses::{DONE, NOT_OPEN, refusal};
use store::{InfoRefused, MapInfo, Mode, ProgramFacts, Shape, StoreInfo};

/// What is said of a map.
#[repr(C)]
#[derive(Clone, Copy)]
pub struct MapWords {
    /// Asked: the map, by its number.
    pub map: u32,
    /// How many operations of the history the map had seen.
    pub point: u64,
    /// How many keys it has.
    pub keys: u64,
    /// How many entries it has or may have.
    pub entries: u64,
    /// 0 an array, 1 a hash.
    pub kind: u64,
    /// How many bytes a key has.
    pub key: u64,
    /// How many bytes a value has.
    pub value: u64,
}

/// The facts of a program, if there is one.
#[repr(C)]
#[derive(Clone, Copy)]
pub struct FactWords {
    /// 1 if there is a program. Else this word and the others are 0.
    pub present: u64,
    /// 0 if it may change the maps that it names, 1 if not.
    pub mode: u64,
    /// How many bytes its argument has.
    pub argument: u64,
    /// How many slots of 8 bytes it has.
    pub slots: u64,
    /// The maps that it names: bit m is for map m.
    pub maps: u64,
}

/// A name.
#[repr(C)]
#[derive(Clone, Copy)]
pub struct NameWords {
    /// How many bytes it has; 0 if there is none.
    pub length: u64,
    /// Its bytes, and zeros after them.
    pub bytes: [u8; NAME_ROOM],
}

/// What is said of a program.
#[repr(C)]
#[derive(Clone, Copy)]
pub struct ProgramWords {
    /// Asked: the program, by its number.
    pub program: u16,
    /// How many operations of the history the node had seen.
    pub point: u64,
    /// 1 if the number is that of a place, 0 if it is that of a program of the manifest.
    pub place: u64,
    /// The facts of the program of this number.
    pub facts: FactWords,
    /// Its name in the manifest.
    pub name: NameWords,
}

/// What is said of a store.
#[repr(C)]
#[derive(Clone, Copy)]
pub struct StoreWords {
    /// Nodes, each with a replica of the maps.
    pub nodes: u64,
    /// Slots of a node, each with a session.
    pub slots: u64,
    /// Records that the log keeps at once.
    pub window: u64,
    /// Records that the history may have in all.
    pub limit: u64,
    /// Programs that may be installed.
    pub spare: u64,
    /// Maps.
    pub maps: u64,
    /// Programs of the manifest.
    pub programs: u64,
    /// The most bytes of a program that is installed, and of its argument, where that is more than 192 and 64.
    pub long: u64,
}

fn kind_word(shape: Shape) -> u64
    ensures { result ≡ kind_word shape }
{
    match shape {
        Shape::Array { .. } => 0,
        Shape::Hash { .. } => 1,
    }
}

fn map_words(map: u32, info: MapInfo) -> MapWords
    ensures { result ≡ map_words map info }
{
    MapWords {
        map,
        point: info.point,
        keys: info.keys as u64,
        entries: info.shape.entry_count() as u64,
        kind: kind_word(info.shape),
        key: info.shape.key_bytes() as u64,
        value: info.shape.value_bytes() as u64,
    }
}

fn mode_word(mode: Mode) -> u64
    ensures { result ≡ mode_word mode }
{
    match mode {
        Mode::Update => 0,
        Mode::Read => 1,
    }
}

fn fact_words(facts: Option<ProgramFacts>) -> FactWords
    ensures { result ≡ fact_words facts }
{
    match facts {
        None => FactWords {
            present: 0,
            mode: 0,
            argument: 0,
            slots: 0,
            maps: 0,
        },
        Some(facts) => FactWords {
            present: 1,
            mode: mode_word(facts.mode),
            argument: facts.arg_len as u64,
            slots: facts.slots as u64,
            maps: facts.maps as u64,
        },
    }
}

fn name_words(name: Option<&str>) -> NameWords
    ensures { result ≡ name_words (name_or_none (option_map (λ t. t.now) name.entry)) }
{
    let name = match name {
        Some(name) => name.as_bytes(),
        None => &[],
    };
    let count = name.len().min(NAME_ROOM);
    let mut bytes = [0; NAME_ROOM];
    bytes[..count].copy_from_slice(&name[..count]);
    NameWords {
        length: name.len() as u64,
        bytes,
    }
}

fn store_words(info: StoreInfo) -> StoreWords
    ensures { result ≡ size_words info.sizes info.maps info.programs }
{
    StoreWords {
        nodes: info.sizes.nodes as u64,
        slots: info.sizes.slots as u64,
        window: info.sizes.window as u64,
        limit: info.sizes.limit,
        spare: info.sizes.spare as u64,
        maps: info.maps as u64,
        programs: info.programs as u64,
        long: info.sizes.long as u64,
    }
}

fn refused(why: InfoRefused) -> Looked
    ensures { result ≡ no_info why }
{
    Looked::Refused {
        status: refusal(b'S', why.number()),
        number: 0,
    }
}

impl Attached {
    /// Says what a map is, if no update is out.
    pub fn map_info(&mut self, words: &mut MapWords) -> Looked
        ensures same { IsSame self.old self.new }
        ensures tells { TellsMapAsked words.old words.new self.old self.new result }
    {
        let Attached { store, session, .. } = self;
        if session.is_waiting() {
            return Looked::IsOut;
        }
        match session.try_map_info(store, words.map as usize) {
            Err(why) => refused(why),
            Ok(None) => Looked::Busy,
            Ok(Some(info)) => {
                *words = map_words(words.map, info);
                Looked::Seen {
                    point: info.point,
                    count: info.keys as u64,
                    next: AT_END,
                }
            }
        }
    }

    /// Says what a program is, if no update is out.
    pub fn program_info(&mut self, words: &mut ProgramWords) -> Looked
        ensures same { IsSame self.old self.new }
        ensures tells { TellsProgramAsked words.old words.new self.old self.new result }
    {
        let Attached { store, session, .. } = self;
        if session.is_waiting() {
            return Looked::IsOut;
        }
        match session.try_program_info(store, words.program) {
            Err(why) => refused(why),
            Ok(None) => Looked::Busy,
            Ok(Some(info)) => {
                *words = ProgramWords {
                    program: words.program,
                    point: info.point,
                    place: if info.at_place { 1 } else { 0 },
                    facts: fact_words(info.facts),
                    name: name_words(store.catalogue().name(words.program)),
                };
                Looked::Seen {
                    point: info.point,
                    count: 0,
                    next: AT_END,
                }
            }
        }
    }
}

/// Says what a map is: its kind, its sizes, and how many keys it has.
pub fn describe_map(handle: &mut SessionHandle, words: &mut MapWords)
    ensures describes { DescribesMap handle.old handle.new words.old words.new }
{
    let SessionHandle { own, answered, .. } = handle;
    let told = match own {
        None => Looked::NotOpen,
        Some(attached) => attached.map_info(words),
    };
    note(answered, told);
}

/// Says what the program of a number is.
pub fn describe_program(handle: &mut SessionHandle, words: &mut ProgramWords)
    ensures describes { DescribesProgram handle.old handle.new words.old words.new }
{
    let SessionHandle { own, answered, .. } = handle;
    let told = match own {
        None => Looked::NotOpen,
        Some(attached) => attached.program_info(words),
    };
    note(answered, told);
}

/// Says what a store is from its opening on.
pub fn describe_store(handle: &mut StoreHandle, words: &mut StoreWords)
    ensures describes { DescribesStore handle.old handle.new words.old words.new }
{
    let Some(pool) = &handle.own else {
        handle.answered.status = NOT_OPEN;
        return;
    };
    *words = store_words(pool.info());
    handle.answered.status = DONE;
}
