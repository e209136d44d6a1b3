// What crosses: what a store is opened with, and what lies at its handles.

ghost use Rattle.std.specs.Prelude.{◌≡◌};
ghost use Rattle.host_calls.specs.Words.{no_store_words, no_words, only_lane, only_session};

use crate::attached::Attached;
use crate::lanes::Lane;
use crate::pool::Pool;
use dumps::StateText;
use store::{MapLimits, StoreState};

/// How many bytes the name of a program may have.
pub const NAME_ROOM: usize = 32;

/// How many reads may be asked at once.
pub const MOST_ASKED: usize = 16;

/// The word `next` of what has no place to go on from.
pub const AT_END: u64 = 18_446_744_073_709_551_615;

/// A program file: its name as the manifest has it, and its text, hexadecimal digits.
#[repr(C)]
pub struct File<'a> {
    /// The name that stands in the manifest.
    pub name: &'a [u8],
    /// The digits.
    pub text: &'a [u8],
}

/// What a store is opened with.
#[repr(C)]
pub struct Opening<'a> {
    /// The manifest's text.
    pub manifest: &'a [u8],
    /// The program files that it names.
    pub files: &'a [File<'a>],
    /// Nodes, each with a replica of the maps.
    pub nodes: u32,
    /// Slots of a node, each with a session.
    pub slots: u32,
    /// Records that the log keeps at once.
    pub window: u32,
    /// Records that the history may have in all; 0 is no end.
    pub limit: u32,
    /// Programs that may be installed.
    pub spare: u32,
    /// The most bytes of such a program, and of its argument, where that is more than 192 and 64.
    pub long: u32,
    /// How large the maps of the manifest and the arguments of its programs may be.
    pub limits: MapLimits,
}

/// What the host asks of a store, in words.
#[repr(C)]
#[derive(Clone, Copy)]
pub struct StoreAsked {
    /// `attach`: of which node.
    pub node: u64,
    /// `number`: how many bytes the name has.
    pub length: u64,
    /// `number`: the name of a program.
    pub name: [u8; NAME_ROOM],
}

/// What is answered there.
#[repr(C)]
#[derive(Clone, Copy)]
pub struct StoreAnswered {
    /// What became of the call.
    pub status: u64,
    /// `open`: the line of the manifest that is to blame, from 1, and 0 where none is.
    pub line: u64,
    /// `open`: why the decoder or the verifier refuses the program, as a status; else 0.
    pub inner: u64,
    /// `open`: the slot of the program that is to blame.
    pub slot: u64,
    /// `number`: the number of the program.
    pub number: u64,
}

/// What lies at a store's handle. The first field is not for the host, and empty where the handle is closed.
#[repr(C)]
#[derive(Drop)]
pub struct StoreHandle {
    pub own: Option<Box<Pool>>,
    /// What the host asks.
    pub asked: StoreAsked,
    /// What the host is answered.
    pub answered: StoreAnswered,
}

/// What the host asks of a session, in words.
#[repr(C)]
#[derive(Clone, Copy)]
pub struct Asked {
    /// 0 an update, 1 a read, 2 an install, 3 an install of a program that may name some maps alone, 4 an update that is posted and nothing more,
    /// 5 whether the store refuses an update.
    pub call: u64,
    /// 3: the maps, bit m for map m. Any but an install: the program's number.
    pub program: u16,
    /// An install: 0 for a program that updates, 1 for one that reads.
    pub mode: u64,
    /// An install: how many bytes the program's arguments have.
    pub argument: u64,
}

/// What is answered there.
#[repr(C)]
#[derive(Clone, Copy)]
pub struct Answered {
    /// What became of the call.
    pub status: u64,
    /// Why the decoder or the verifier refuses a program, as a status; else 0.
    pub inner: u64,
    /// The slot of the program that is to blame.
    pub slot: u64,
    /// An update's index in the history, or how many operations a read has seen.
    pub point: u64,
    /// What the program replied there.
    pub reply: u64,
    /// A scan, or a get: how many entries it gave. Several reads: how many were answered.
    pub count: u64,
    /// A scan: the place to go on from; `AT_END` where it came to the end of the map.
    pub next: u64,
}

/// What lies at a session's handle. The last field is not for the host, and empty where the handle is closed.
#[repr(C)]
#[derive(Drop)]
pub struct SessionHandle {
    /// What the host asks.
    pub asked: Asked,
    /// What the host is answered.
    pub answered: Answered,
    pub own: Option<Attached>,
}

/// What became of an update of a list.
#[repr(C)]
#[derive(Clone, Copy)]
pub struct Outcome {
    /// Its index in the history; 0 where it has none.
    pub point: u64,
    /// What its program replied there; 0 where it has no place.
    pub reply: u64,
    /// 0, or S4.
    pub status: u64,
}

/// What is answered at a lane's handle.
#[repr(C)]
#[derive(Clone, Copy)]
pub struct LaneAnswered {
    /// What became of the call.
    pub status: u64,
    /// The number of the update that is refused.
    pub slot: u64,
    /// How many outcomes there are.
    pub count: u64,
}

/// What lies at a lane's handle. The last field is not for the host, and empty where there is no lane.
#[repr(C)]
#[derive(Drop)]
pub struct LaneHandle {
    /// What the host is answered.
    pub answered: LaneAnswered,
    pub own: Option<Lane>,
}

/// What is answered where a state is written.
#[repr(C)]
#[derive(Clone, Copy)]
pub struct StateAnswered {
    /// What became of the call.
    pub status: u64,
    /// `load`: the line that is to blame, from 1, and 0 where none is.
    pub line: u64,
    /// `load`: why the decoder or the verifier refuses a program, as a status; else 0.
    pub inner: u64,
    /// `load`: the slot of the program that is to blame.
    pub slot: u64,
}

/// What lies at a state's handle. The last field is not for the host, and empty where there is no state.
#[repr(C)]
#[derive(Drop)]
pub struct StateHandle {
    /// What the host is answered.
    pub answered: StateAnswered,
    pub own: Option<StoreState>,
}

/// What is answered at a text's handle.
#[repr(C)]
#[derive(Clone, Copy)]
pub struct TextAnswered {
    /// `dump`: what became of the call.
    pub status: u64,
    /// `part`: how many bytes it gave; 0 before the first.
    pub length: u64,
}

/// What is at a text's handle. The last field is not for the host. It has the state whose text it is, and is empty if there is none.
#[repr(C)]
#[derive(Drop)]
pub struct TextHandle {
    /// What the host is answered.
    pub answered: TextAnswered,
    pub own: Option<StateText>,
}

fn crosses<T: Send + Drop>(value: T) {
    drop(value);
}

// What lies at a handle may go to another thread.
fn handles_cross(
    store: StoreHandle,
    session: SessionHandle,
    lane: LaneHandle,
    state: StateHandle,
    text: TextHandle,
) {
    crosses(store);
    crosses(session);
    crosses(lane);
    crosses(state);
    crosses(text);
}

impl StoreHandle {
    /// A handle with nothing asked.
    pub fn new(own: Option<Box<Pool>>, answered: StoreAnswered) -> StoreHandle
        ensures own { result.own ≡ own }
        ensures asked { result.asked ≡ no_store_words }
        ensures answered { result.answered ≡ answered }
    {
        let asked = StoreAsked {
            node: 0,
            length: 0,
            name: [0; NAME_ROOM],
        };
        StoreHandle {
            own,
            asked,
            answered,
        }
    }
}

impl StoreAnswered {
    /// An answer with this status, and nothing else.
    pub fn of(status: u64) -> StoreAnswered
        ensures { result ≡ record { status = status; line = 0; inner = 0; slot = 0; number = 0 } }
    {
        StoreAnswered {
            status,
            line: 0,
            inner: 0,
            slot: 0,
            number: 0,
        }
    }
}

impl StateAnswered {
    /// An answer with this status, and nothing else.
    pub fn of(status: u64) -> StateAnswered
        ensures { result ≡ record { status = status; line = 0; inner = 0; slot = 0 } }
    {
        StateAnswered {
            status,
            line: 0,
            inner: 0,
            slot: 0,
        }
    }
}

impl StateHandle {
    /// A handle with this state.
    pub fn new(own: Option<StoreState>, answered: StateAnswered) -> StateHandle
        ensures own { result.own ≡ own }
        ensures answered { result.answered ≡ answered }
    {
        StateHandle { answered, own }
    }
}

impl TextHandle {
    /// A handle with this text, and this status.
    pub fn new(own: Option<StateText>, status: u64) -> TextHandle
        ensures own { result.own ≡ own }
        ensures answered { result.answered ≡ record { status = status; length = 0 } }
    {
        let answered = TextAnswered { status, length: 0 };
        TextHandle { answered, own }
    }
}

impl LaneHandle {
    /// A handle with this lane, and this status.
    pub fn new(own: Option<Lane>, status: u64) -> LaneHandle
        ensures own { result.own ≡ own }
        ensures status { result.answered ≡ only_lane status }
    {
        let answered = LaneAnswered {
            status,
            slot: 0,
            count: 0,
        };
        LaneHandle { answered, own }
    }
}

impl SessionHandle {
    /// A handle with nothing asked, and this status.
    pub fn new(own: Option<Attached>, status: u64) -> SessionHandle
        ensures own { result.own ≡ own }
        ensures asked { result.asked ≡ no_words }
        ensures status { result.answered ≡ only_session status }
    {
        let asked = Asked {
            call: 0,
            program: 0,
            mode: 0,
            argument: 0,
        };
        let answered = Answered {
            status,
            inner: 0,
            slot: 0,
            point: 0,
            reply: 0,
            count: 0,
            next: 0,
        };
        SessionHandle {
            own,
            asked,
            answered,
        }
    }
}
