// States beside a store, and their texts.

ghost use Rattle.host_calls.specs.States.{Dumps, GivesPart, Makes, Returns};

use crate::handles::{StateAnswered, StateHandle, StoreHandle, TextHandle};
use crate::statuses::{DONE, NO_MEMORY, NO_TEXT_ROOM, NOT_OPEN};
use dumps::{DUMP_LINE_BYTES, StateText};
use std::alloc::Global;

/// A new state of the store's sizes.
pub fn make_state(alloc: Global, handle: &mut StoreHandle) -> StateHandle
    ensures makes { Makes handle.old handle.new result }
{
    let Some(pool) = &handle.own else {
        handle.answered.status = NOT_OPEN;
        return StateHandle::new(None, StateAnswered::of(NOT_OPEN));
    };
    match pool.new_state(alloc) {
        Ok(state) => {
            handle.answered.status = DONE;
            StateHandle::new(Some(state), StateAnswered::of(DONE))
        }
        Err(_) => {
            handle.answered.status = NO_MEMORY;
            StateHandle::new(None, StateAnswered::of(NO_MEMORY))
        }
    }
}

/// The text of a state, part by part. The state goes to the text's handle, until [`drop_text`] gives it back. It takes four bytes for each key of
/// the maps, and the parts take no more.
pub fn dump_state(alloc: Global, state: &mut StateHandle) -> TextHandle
    ensures dumped { Dumps state.old state.new result }
{
    let Some(held) = state.own.take() else {
        return TextHandle::new(None, NOT_OPEN);
    };
    match StateText::new(alloc, held) {
        Ok(text) => TextHandle::new(Some(text), DONE),
        Err(held) => {
            state.own = Some(held);
            TextHandle::new(None, NO_TEXT_ROOM)
        }
    }
}

/// Puts the next bytes of a text at the front of `out`, and answers how many: none only at the end, or if `out` is shorter than
/// [`DUMP_LINE_BYTES`]. The other bytes of `out` stay.
pub fn part(text: &mut TextHandle, out: &mut [u8])
    ensures part { GivesPart text.old text.new out.old out.new }
{
    text.answered.length = 0;
    if out.len() < DUMP_LINE_BYTES {
        return;
    }
    if let Some(own) = &mut text.own {
        text.answered.length = own.read(out) as u64;
    }
}

/// Ends a text. Its state goes back to the state's handle.
pub fn drop_text(text: &mut TextHandle, state: &mut StateHandle)
    ensures returned { Returns text.old text.new state.old state.new }
{
    if let Some(own) = text.own.take() {
        state.own = Some(own.into_state());
    }
}
