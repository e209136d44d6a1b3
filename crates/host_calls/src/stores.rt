// The calls on a store's handle.

ghost use Rattle.std.specs.Prelude.{◌≡◌};
ghost use Rattle.host_calls.specs.Stores.{Closes, Finds, Gives, IsItsOwn, IsNumber, Takes};

use crate::handles::{NAME_ROOM, SessionHandle, StoreHandle};
use crate::statuses::{
    DONE, IS_ATTACHED, IS_OUT, NO_PROGRAM_SO_NAMED, NO_SESSION, NO_TEXT, NOT_OPEN,
};

// The number of the program that has the name in the words, or why there is none.
fn number_in(handle: &StoreHandle) -> Result<u16, u64>
    ensures number { IsNumber handle.now result }
{
    let Some(pool) = &handle.own else {
        return Err(NOT_OPEN);
    };
    let asked = &handle.asked;
    if asked.length > NAME_ROOM as u64 {
        return Err(NO_PROGRAM_SO_NAMED);
    }
    let Ok(name) = str::from_utf8(&asked.name[..asked.length as usize]) else {
        return Err(NO_TEXT);
    };
    match pool.number(name) {
        Some(number) => Ok(number),
        None => Err(NO_PROGRAM_SO_NAMED),
    }
}

/// Answers the number of the program that has the name in the words.
pub fn find_number(handle: &mut StoreHandle)
    ensures finds { Finds handle.old handle.new }
{
    match number_in(handle) {
        Ok(number) => {
            handle.answered.status = DONE;
            handle.answered.number = number as u64;
        }
        Err(status) => handle.answered.status = status,
    }
}

/// The handle of a session of the node in the words.
pub fn attach(handle: &mut StoreHandle) -> SessionHandle
    ensures gives { Gives handle.old handle.new result }
{
    let StoreHandle {
        own,
        asked,
        answered,
    } = handle;
    let Some(pool) = own else {
        answered.status = NOT_OPEN;
        return SessionHandle::new(None, NOT_OPEN);
    };
    let Some(attached) = pool.take(asked.node) else {
        answered.status = NO_SESSION;
        return SessionHandle::new(None, NO_SESSION);
    };
    answered.status = DONE;
    SessionHandle::new(Some(attached), DONE)
}

/// Takes the session back, which is one of this store.
pub fn detach(handle: &mut StoreHandle, session: &mut SessionHandle)
    requires own { IsItsOwn handle.old session.old }
    ensures takes { Takes handle.old session.old handle.new session.new }
{
    let StoreHandle { own, answered, .. } = handle;
    let Some(pool) = own else {
        answered.status = NOT_OPEN;
        return;
    };
    let Some(attached) = session.own.take() else {
        answered.status = NOT_OPEN;
        return;
    };
    if attached.is_waiting() {
        session.own = Some(attached);
        answered.status = IS_OUT;
        return;
    }
    pool.give(attached);
    answered.status = DONE;
}

/// Ends the store, where no session is attached.
pub fn close(handle: &mut StoreHandle)
    ensures closes { Closes handle.old handle.new }
{
    let Some(pool) = &handle.own else {
        handle.answered.status = NOT_OPEN;
        return;
    };
    if !pool.is_whole() {
        handle.answered.status = IS_ATTACHED;
        return;
    }
    handle.own = None;
    handle.answered.status = DONE;
}
