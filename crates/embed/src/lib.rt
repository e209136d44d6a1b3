//! A store for programs of other languages: the calls of `host_calls`, exported. They take and give numbers, texts and memory of the host's, in which
//! five kinds of handle lie.
#![tactic(auto)]

ghost use Rattle.std.specs.Prelude.{◌≡◌, None};
ghost use Rattle.std.specs.Borrow.{sem};
ghost use Rattle.std.specs.Mem.{type_size};
ghost use Rattle.std.specs.Ptr.{room_at};
ghost use Rattle.host_calls.specs.Calls.{Goes};
ghost use Rattle.host_calls.specs.Stores.{Closes, Finds, Gives, IsItsOwn, Takes};
ghost use Rattle.host_calls.specs.Leaving.{Leaves};
ghost use Rattle.host_calls.specs.Openings.{IsOpened};
ghost use Rattle.host_calls.specs.Lanes.{Ends, IsNewLane, Joins, JoinsOneStore, Leaves as LeavesLane, UpdatesEach};
ghost use Rattle.host_calls.specs.Loadings.{IsLoaded};
ghost use Rattle.host_calls.specs.Looks.{Answers, Gets, Scans, Snaps};
ghost use Rattle.host_calls.specs.Describing.{DescribesMap, DescribesProgram, DescribesStore};
ghost use Rattle.host_calls.specs.Measuring.{Measures};
ghost use Rattle.host_calls.specs.States.{Dumps, GivesPart, GivesUp, Makes, Returns};
ghost use Rattle.host_calls.specs.Rooms.{holds_facts, holds_lane, holds_map, holds_program, holds_session, holds_state, holds_stats, holds_store, holds_text};
ghost use Rattle.host_calls.specs.contracts.handles.LaneHandle.{the_row as the_lane};
ghost use Rattle.host_calls.specs.contracts.handles.SessionHandle.{the_row as the_session};
ghost use Rattle.host_calls.specs.contracts.handles.StateHandle.{the_row as the_state};
ghost use Rattle.host_calls.specs.contracts.handles.StoreHandle.{the_row as the_store};
ghost use Rattle.host_calls.specs.contracts.handles.TextHandle.{the_row as the_text};

use host_calls::calls::call;
use host_calls::closing::{close_into, drop_state};
use host_calls::describing::{
    MapWords, ProgramWords, StoreWords, describe_map, describe_program, describe_store,
};
use host_calls::handles::{
    LaneHandle, Opening, Outcome, SessionHandle, StateHandle, StoreHandle, TextHandle,
};
use host_calls::lanes::{drop_lane, join, leave, make_lane, update_each};
use host_calls::loading::load_text;
use host_calls::looks::{get, read_each, scan, snapshot};
use host_calls::measuring::{StatWords, measure};
use host_calls::opening::{open, open_on};
use host_calls::states::{drop_text, dump_state, make_state, part};
use host_calls::stores::{attach, close, detach, find_number};
use std::alloc::Global;
use store::Question;

// The interface that a host is compiled for: 1000 times the major number, and the minor one.
const VERSION: u32 = 2_000;

/// The interface: 1000 times its major number, and its minor one.
#[unsafe(no_mangle)]
pub extern "C" fn nrbpf_raw_version() -> u32
    ensures version { result ≡ 2000 }
{
    VERSION
}

/// How many bytes a store's handle takes.
#[unsafe(no_mangle)]
pub extern "C" fn nrbpf_raw_store_size() -> usize
    ensures size { result ≡ type_size the_store }
{
    std::mem::size_of::<StoreHandle>()
}

/// How many bytes a session's handle takes.
#[unsafe(no_mangle)]
pub extern "C" fn nrbpf_raw_session_size() -> usize
    ensures size { result ≡ type_size the_session }
{
    std::mem::size_of::<SessionHandle>()
}

/// How many bytes a lane's handle takes.
#[unsafe(no_mangle)]
pub extern "C" fn nrbpf_raw_lane_size() -> usize
    ensures size { result ≡ type_size the_lane }
{
    std::mem::size_of::<LaneHandle>()
}

/// How many bytes a state's handle takes.
#[unsafe(no_mangle)]
pub extern "C" fn nrbpf_raw_state_size() -> usize
    ensures size { result ≡ type_size the_state }
{
    std::mem::size_of::<StateHandle>()
}

/// How many bytes a text's handle takes.
#[unsafe(no_mangle)]
pub extern "C" fn nrbpf_raw_text_size() -> usize
    ensures size { result ≡ type_size the_text }
{
    std::mem::size_of::<TextHandle>()
}

/// Opens a store, and writes its handle. It is closed where the store is refused, and its words say why.
#[unsafe(no_mangle)]
pub unsafe extern "C" fn nrbpf_raw_open(alloc: Global, opening: &Opening, at: *mut u8)
    requires* { sem 𝓛 (room_at the_store at) }
    ensures* { ∃ₛ (λ after. sem 𝓛 (holds_store at after) ∗ ⌜ IsOpened opening.now None after ⌝) }
{
    std::ptr::write(at as *mut StoreHandle, open(alloc, opening));
}

/// `nrbpf_raw_open`, but on the state of a handle, or on a new one if the handle has none.
#[unsafe(no_mangle)]
pub unsafe extern "C" fn nrbpf_raw_open_on(
    alloc: Global,
    opening: &Opening,
    state: *mut u8,
    at: *mut u8,
)
    ghost value: { StateHandle }
    requires* { sem 𝓛 (holds_state state value) ∗ sem 𝓛 (room_at the_store at) }
    ensures* { ∃ₛ (λ after. sem 𝓛 (holds_state state value) ∗ sem 𝓛 (holds_store at after) ∗ ⌜ IsOpened opening.now value.own after ⌝) }
{
    std::ptr::write(
        at as *mut StoreHandle,
        open_on(alloc, opening, &mut *(state as *mut StateHandle)),
    );
}

/// Writes the number of the program that has the name in the store's words.
#[unsafe(no_mangle)]
pub unsafe extern "C" fn nrbpf_raw_number(at: *mut u8)
    ghost value: { StoreHandle }
    requires* { sem 𝓛 (holds_store at value) }
    ensures* { ∃ₛ (λ after. sem 𝓛 (holds_store at after) ∗ ⌜ Finds value after ⌝) }
{
    find_number(&mut *(at as *mut StoreHandle));
}

/// Gives the first session of the node in the store's words that is not attached, and writes its handle. It is closed where there is none.
#[unsafe(no_mangle)]
pub unsafe extern "C" fn nrbpf_raw_attach(at: *mut u8, room: *mut u8)
    ghost value: { StoreHandle }
    requires* { sem 𝓛 (holds_store at value) ∗ sem 𝓛 (room_at the_session room) }
    ensures* { ∃ₛ (λ after. ∃ₛ (λ given. sem 𝓛 (holds_store at after) ∗ sem 𝓛 (holds_session room given) ∗ ⌜ Gives value after given ⌝)) }
{
    std::ptr::write(
        room as *mut SessionHandle,
        attach(&mut *(at as *mut StoreHandle)),
    );
}

/// Takes a session back into its store, of which it is. Its handle is closed then, and is as it was where the session is refused.
#[unsafe(no_mangle)]
pub unsafe extern "C" fn nrbpf_raw_detach(at: *mut u8, session: *mut u8)
    ghost values: { StoreHandle × SessionHandle }
    requires* { sem 𝓛 (holds_store at values.0) ∗ sem 𝓛 (holds_session session values.1) ∗ ⌜ IsItsOwn values.0 values.1 ⌝ }
    ensures* { ∃ₛ (λ after. ∃ₛ (λ left. sem 𝓛 (holds_store at after) ∗ sem 𝓛 (holds_session session left) ∗ ⌜ Takes values.0 values.1 after left ⌝)) }
{
    detach(
        &mut *(at as *mut StoreHandle),
        &mut *(session as *mut SessionHandle),
    );
}

/// Ends a store whose sessions are all back. Its handle is closed then. Where the call is refused, nothing but its status has changed.
#[unsafe(no_mangle)]
pub unsafe extern "C" fn nrbpf_raw_close(at: *mut u8)
    ghost value: { StoreHandle }
    requires* { sem 𝓛 (holds_store at value) }
    ensures* { ∃ₛ (λ left. sem 𝓛 (holds_store at left) ∗ ⌜ Closes value left ⌝) }
{
    close(&mut *(at as *mut StoreHandle));
}

/// Ends a store whose sessions are all back, and writes the handle of the state that it ends in. That has none where there is none.
#[unsafe(no_mangle)]
pub unsafe extern "C" fn nrbpf_raw_close_into(alloc: Global, at: *mut u8, room: *mut u8)
    ghost value: { StoreHandle }
    requires* { sem 𝓛 (holds_store at value) ∗ sem 𝓛 (room_at the_state room) }
    ensures* { ∃ₛ (λ left. ∃ₛ (λ given. sem 𝓛 (holds_store at left) ∗ sem 𝓛 (holds_state room given) ∗ ⌜ Leaves value left given ⌝)) }
{
    std::ptr::write(
        room as *mut StateHandle,
        close_into(alloc, &mut *(at as *mut StoreHandle)),
    );
}

/// Gives a state up. Its handle has none then, and is as good as room.
#[unsafe(no_mangle)]
pub unsafe extern "C" fn nrbpf_raw_drop_state(at: *mut u8)
    ghost value: { StateHandle }
    requires* { sem 𝓛 (holds_state at value) }
    ensures* { ∃ₛ (λ after. sem 𝓛 (holds_state at after) ∗ ⌜ GivesUp value after ⌝) }
{
    drop_state(&mut *(at as *mut StateHandle));
}

/// Makes the call that the session's words ask for. `bytes` are the argument, or the program to be installed.
#[unsafe(no_mangle)]
pub unsafe extern "C" fn nrbpf_raw_call(at: *mut u8, bytes: &[u8])
    ghost value: { SessionHandle }
    requires* { sem 𝓛 (holds_session at value) }
    ensures* { ∃ₛ (λ after. sem 𝓛 (holds_session at after) ∗ ⌜ Goes bytes.now value after ⌝) }
{
    call(&mut *(at as *mut SessionHandle), bytes);
}

/// Writes the handle of a lane without sessions. It has none where there is no memory.
#[unsafe(no_mangle)]
pub unsafe extern "C" fn nrbpf_raw_new_lane(alloc: Global, at: *mut u8)
    requires* { sem 𝓛 (room_at the_lane at) }
    ensures* { ∃ₛ (λ given. sem 𝓛 (holds_lane at given) ∗ ⌜ IsNewLane given ⌝) }
{
    std::ptr::write(at as *mut LaneHandle, make_lane(alloc));
}

/// Ends a lane. Its handle has none then, and is as good as room.
#[unsafe(no_mangle)]
pub unsafe extern "C" fn nrbpf_raw_drop_lane(at: *mut u8)
    ghost value: { LaneHandle }
    requires* { sem 𝓛 (holds_lane at value) }
    ensures* { ∃ₛ (λ after. sem 𝓛 (holds_lane at after) ∗ ⌜ Ends value after ⌝) }
{
    drop_lane(&mut *(at as *mut LaneHandle));
}

/// Moves a session from its handle into a lane, whose sessions are of its store. Its handle is closed then, and is as it was where the session is refused.
#[unsafe(no_mangle)]
pub unsafe extern "C" fn nrbpf_raw_join(at: *mut u8, session: *mut u8)
    ghost values: { LaneHandle × SessionHandle }
    requires* { sem 𝓛 (holds_lane at values.0) ∗ sem 𝓛 (holds_session session values.1) ∗ ⌜ JoinsOneStore values.0 values.1 ⌝ }
    ensures* { ∃ₛ (λ after. ∃ₛ (λ left. sem 𝓛 (holds_lane at after) ∗ sem 𝓛 (holds_session session left) ∗ ⌜ Joins values.0 values.1 after left ⌝)) }
{
    join(
        &mut *(at as *mut LaneHandle),
        &mut *(session as *mut SessionHandle),
    );
}

/// Takes the last session out of a lane, and writes its handle. It is closed where there is none.
#[unsafe(no_mangle)]
pub unsafe extern "C" fn nrbpf_raw_leave(at: *mut u8, room: *mut u8)
    ghost value: { LaneHandle }
    requires* { sem 𝓛 (holds_lane at value) ∗ sem 𝓛 (room_at the_session room) }
    ensures* { ∃ₛ (λ after. ∃ₛ (λ given. sem 𝓛 (holds_lane at after) ∗ sem 𝓛 (holds_session room given) ∗ ⌜ LeavesLane value after given ⌝)) }
{
    std::ptr::write(
        room as *mut SessionHandle,
        leave(&mut *(at as *mut LaneHandle)),
    );
}

/// Asks for a list of updates, or goes on with the one that is out, and puts what became of each into `outcomes`, at its number.
#[unsafe(no_mangle)]
pub unsafe extern "C" fn nrbpf_raw_update_each(
    at: *mut u8,
    questions: &[Question],
    outcomes: &mut [Outcome],
)
    ghost before: { LaneHandle }
    requires* { sem 𝓛 (holds_lane at before) }
    ensures* { ∃ₛ (λ after. sem 𝓛 (holds_lane at after) ∗ ⌜ UpdatesEach questions.now outcomes.old outcomes.new before after ⌝) }
{
    update_each(&mut *(at as *mut LaneHandle), questions, outcomes);
}

/// Makes a new state of the store's sizes, and writes its handle. That has none where there is none.
#[unsafe(no_mangle)]
pub unsafe extern "C" fn nrbpf_raw_new_state(alloc: Global, at: *mut u8, room: *mut u8)
    ghost value: { StoreHandle }
    requires* { sem 𝓛 (holds_store at value) ∗ sem 𝓛 (room_at the_state room) }
    ensures* { ∃ₛ (λ after. ∃ₛ (λ given. sem 𝓛 (holds_store at after) ∗ sem 𝓛 (holds_state room given) ∗ ⌜ Makes value after given ⌝)) }
{
    std::ptr::write(
        room as *mut StateHandle,
        make_state(alloc, &mut *(at as *mut StoreHandle)),
    );
}

/// Puts the value under a key of a map into `value`, if the key stands there.
#[unsafe(no_mangle)]
pub unsafe extern "C" fn nrbpf_raw_get(at: *mut u8, map: u32, key: &[u8], value: &mut [u8])
    ghost before: { SessionHandle }
    requires* { sem 𝓛 (holds_session at before) }
    ensures* { ∃ₛ (λ after. sem 𝓛 (holds_session at after) ∗ ⌜ Gets map key.now value.old value.new before after ⌝) }
{
    get(&mut *(at as *mut SessionHandle), map, key, value);
}

/// Gives entries of a map from a place on, their keys one after another in `keys` and their values in `values`.
#[unsafe(no_mangle)]
pub unsafe extern "C" fn nrbpf_raw_scan(
    at: *mut u8,
    map: u32,
    from: u32,
    keys: &mut [u8],
    values: &mut [u8],
)
    ghost before: { SessionHandle }
    requires* { sem 𝓛 (holds_session at before) }
    ensures* { ∃ₛ (λ after. sem 𝓛 (holds_session at after) ∗ ⌜ Scans map from keys.old keys.new values.old values.new before after ⌝) }
{
    scan(&mut *(at as *mut SessionHandle), map, from, keys, values);
}

/// Answers several questions at one point, each in `replies` at its number. With none it brings the session's node up to that point.
#[unsafe(no_mangle)]
pub unsafe extern "C" fn nrbpf_raw_read_each(
    at: *mut u8,
    questions: &[Question],
    replies: &mut [u64],
)
    ghost before: { SessionHandle }
    requires* { sem 𝓛 (holds_session at before) }
    ensures* { ∃ₛ (λ after. sem 𝓛 (holds_session at after) ∗ ⌜ Answers questions.now replies.old replies.new before after ⌝) }
{
    read_each(&mut *(at as *mut SessionHandle), questions, replies);
}

/// Makes a state that of the store at one point of the history.
#[unsafe(no_mangle)]
pub unsafe extern "C" fn nrbpf_raw_snapshot(at: *mut u8, state: *mut u8)
    ghost values: { SessionHandle × StateHandle }
    requires* { sem 𝓛 (holds_session at values.0) ∗ sem 𝓛 (holds_state state values.1) }
    ensures* { ∃ₛ (λ after. ∃ₛ (λ left. sem 𝓛 (holds_session at after) ∗ sem 𝓛 (holds_state state left) ∗ ⌜ Snaps values.0 after values.1 left ⌝)) }
{
    snapshot(
        &mut *(at as *mut SessionHandle),
        &mut *(state as *mut StateHandle),
    );
}

/// Writes the handle of a state's text. It has the state until `nrbpf_raw_drop_text` gives that back. The handle has no text, and the state stays, where
/// the call is refused.
#[unsafe(no_mangle)]
pub unsafe extern "C" fn nrbpf_raw_dump(alloc: Global, state: *mut u8, room: *mut u8)
    ghost value: { StateHandle }
    requires* { sem 𝓛 (holds_state state value) ∗ sem 𝓛 (room_at the_text room) }
    ensures* { ∃ₛ (λ after. ∃ₛ (λ given. sem 𝓛 (holds_state state after) ∗ sem 𝓛 (holds_text room given) ∗ ⌜ Dumps value after given ⌝)) }
{
    std::ptr::write(
        room as *mut TextHandle,
        dump_state(alloc, &mut *(state as *mut StateHandle)),
    );
}

/// Puts the next bytes of a text into `out`, and their number into the text's words: 0 only at the end, or if a line has no room in `out`. The other bytes
/// of `out` stay.
#[unsafe(no_mangle)]
pub unsafe extern "C" fn nrbpf_raw_part(text: *mut u8, out: &mut [u8])
    ghost value: { TextHandle }
    requires* { sem 𝓛 (holds_text text value) }
    ensures* { ∃ₛ (λ after. sem 𝓛 (holds_text text after) ∗ ⌜ GivesPart value after out.old out.new ⌝) }
{
    part(&mut *(text as *mut TextHandle), out);
}

/// Ends a text. Its handle is closed then, and the state's handle has the state again.
#[unsafe(no_mangle)]
pub unsafe extern "C" fn nrbpf_raw_drop_text(text: *mut u8, state: *mut u8)
    ghost values: { TextHandle × StateHandle }
    requires* { sem 𝓛 (holds_text text values.0) ∗ sem 𝓛 (holds_state state values.1) }
    ensures* { ∃ₛ (λ after. ∃ₛ (λ left. sem 𝓛 (holds_text text after) ∗ sem 𝓛 (holds_state state left) ∗ ⌜ Returns values.0 after values.1 left ⌝)) }
{
    drop_text(
        &mut *(text as *mut TextHandle),
        &mut *(state as *mut StateHandle),
    );
}

/// Loads a text as a state, and writes its handle. That has none where the text or the manifest is refused.
#[unsafe(no_mangle)]
pub unsafe extern "C" fn nrbpf_raw_load(
    alloc: Global,
    opening: &Opening,
    text: &[u8],
    room: *mut u8,
)
    requires* { sem 𝓛 (room_at the_state room) }
    ensures* { ∃ₛ (λ given. sem 𝓛 (holds_state room given) ∗ ⌜ IsLoaded opening.now text.now given ⌝) }
{
    std::ptr::write(room as *mut StateHandle, load_text(alloc, opening, text));
}

/// Writes what the map is whose number is in the words.
#[unsafe(no_mangle)]
pub unsafe extern "C" fn nrbpf_raw_map_info(at: *mut u8, words: *mut u8)
    ghost values: { SessionHandle × MapWords }
    requires* { sem 𝓛 (holds_session at values.0) ∗ sem 𝓛 (holds_map words values.1) }
    ensures* { ∃ₛ (λ after. ∃ₛ (λ left. sem 𝓛 (holds_session at after) ∗ sem 𝓛 (holds_map words left) ∗ ⌜ DescribesMap values.0 after values.1 left ⌝)) }
{
    describe_map(
        &mut *(at as *mut SessionHandle),
        &mut *(words as *mut MapWords),
    );
}

/// Writes what the program is whose number is in the words.
#[unsafe(no_mangle)]
pub unsafe extern "C" fn nrbpf_raw_program_info(at: *mut u8, words: *mut u8)
    ghost values: { SessionHandle × ProgramWords }
    requires* { sem 𝓛 (holds_session at values.0) ∗ sem 𝓛 (holds_program words values.1) }
    ensures* { ∃ₛ (λ after. ∃ₛ (λ left. sem 𝓛 (holds_session at after) ∗ sem 𝓛 (holds_program words left) ∗ ⌜ DescribesProgram values.0 after values.1 left ⌝)) }
{
    describe_program(
        &mut *(at as *mut SessionHandle),
        &mut *(words as *mut ProgramWords),
    );
}

/// Writes what the store is from its opening on.
#[unsafe(no_mangle)]
pub unsafe extern "C" fn nrbpf_raw_store_info(at: *mut u8, words: *mut u8)
    ghost values: { StoreHandle × StoreWords }
    requires* { sem 𝓛 (holds_store at values.0) ∗ sem 𝓛 (holds_facts words values.1) }
    ensures* { ∃ₛ (λ after. ∃ₛ (λ left. sem 𝓛 (holds_store at after) ∗ sem 𝓛 (holds_facts words left) ∗ ⌜ DescribesStore values.0 after values.1 left ⌝)) }
{
    describe_store(
        &mut *(at as *mut StoreHandle),
        &mut *(words as *mut StoreWords),
    );
}

/// Writes what the store had done at one moment, and how far the session's node had come then.
#[unsafe(no_mangle)]
pub unsafe extern "C" fn nrbpf_raw_stats(at: *mut u8, words: *mut u8)
    ghost values: { SessionHandle × StatWords }
    requires* { sem 𝓛 (holds_session at values.0) ∗ sem 𝓛 (holds_stats words values.1) }
    ensures* { ∃ₛ (λ after. ∃ₛ (λ left. sem 𝓛 (holds_session at after) ∗ sem 𝓛 (holds_stats words left) ∗ ⌜ Measures values.0 after values.1 left ⌝)) }
{
    measure(
        &mut *(at as *mut SessionHandle),
        &mut *(words as *mut StatWords),
    );
}
