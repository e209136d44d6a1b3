// Closing a store into the state that it ends in.

ghost use Rattle.std.specs.Prelude.{◌≡◌, [], ◌++◌, ◌<◌, ◌≤◌, All, IfSome, length, is_some, true, vec_capacity};
ghost use Rattle.std.specs.List.{list_all};
ghost use Rattle.std.specs.Arc.{arc_value};
ghost use Rattle.store.specs.Sessions.{IsOf, StoreView};
ghost use Rattle.host_calls.specs.Leaving.{IsLastOf, Leaves, sessions_at, sessions_back};
ghost use Rattle.host_calls.specs.Seating.{IsIdleSeat, IsSeatOf};
ghost use Rattle.host_calls.specs.States.{GivesUp};

use crate::attached::Attached;
use crate::handles::{StateAnswered, StateHandle, StoreHandle};
use crate::opening::let_go;
use crate::pool::Pool;
use crate::statuses::{DONE, IS_ATTACHED, NO_MEMORY, NOT_OPEN, NOT_OURS};
use std::alloc::Global;
use std::sync::Arc;
use store::{Session, StoreState};

// Takes out the session at a place.
fn push_session(place: Option<Attached>, sessions: &mut Vec<Session>)
    requires idle { IsIdleSeat place }
    requires room { length sessions.old.items < vec_capacity sessions.old }
    ensures pushed { sessions.new.items ≡ sessions.old.items ++ sessions_at place }
    ensures capacity { vec_capacity sessions.new ≡ vec_capacity sessions.old }
    ensures own { (store : StoreView) → IsSeatOf store place → All (IsOf store) sessions.old.items → All (IsOf store) sessions.new.items }
{
    let Some(attached) = place else {
        return;
    };
    let session = attached.into_session();
    sessions.push_reserved(session);
}

// Gathers the sessions at the places, the last first.
fn gather(mut places: Vec<Option<Attached>>, mut sessions: Vec<Session>) -> Vec<Session>
    requires idle { All IsIdleSeat places.items }
    requires room { (sessions.items ≡ []) × (length places.items ≤ vec_capacity sessions) }
    ensures sessions { result.items ≡ sessions_back places.items }
    ensures own { (store : StoreView) → All (IsSeatOf store) places.items → All (IsOf store) result.items }
{
    while let Some(place) = places.pop() {
        push_session(place, &mut sessions);
    }
    sessions
}

// Ends the store of a pool, and gives its last state. The answer is `None` if another has a part of the store; then this part is given up.
fn end_store(pool: Pool, room: Vec<Session>) -> Option<StoreState>
    requires whole { list_all is_some pool.places.items ≡ true }
    requires room { (room.items ≡ []) × (length pool.places.items ≤ vec_capacity room) }
    ensures state { IfSome result (IsLastOf (arc_value pool.store) (sessions_back pool.places.items)) }
{
    let (store, places) = pool.into_parts();
    let sessions = gather(places, room);
    let Ok(store) = Arc::try_unwrap(store) else {
        let_go(sessions);
        return None;
    };
    match store.close(sessions) {
        Ok(closed) => {
            let (state, _catalogue) = closed.into_state();
            Some(state)
        }
        Err(_) => unreachable!(),
    }
}

/// Ends the store, where no session is attached, and gives the state that it ends in.
pub fn close_into(alloc: Global, handle: &mut StoreHandle) -> StateHandle
    ensures leaves { Leaves handle.old handle.new result }
{
    let Some(pool) = handle.own.take() else {
        handle.answered.status = NOT_OPEN;
        return StateHandle::new(None, StateAnswered::of(NOT_OPEN));
    };
    if !pool.is_whole() {
        handle.own = Some(pool);
        handle.answered.status = IS_ATTACHED;
        return StateHandle::new(None, StateAnswered::of(IS_ATTACHED));
    }
    let Ok(room) = Vec::with_capacity(alloc, pool.count()) else {
        handle.own = Some(pool);
        handle.answered.status = NO_MEMORY;
        return StateHandle::new(None, StateAnswered::of(NO_MEMORY));
    };
    let state = end_store(Box::into_inner(pool), room);
    let status = match &state {
        Some(_) => DONE,
        None => NOT_OURS,
    };
    handle.answered.status = status;
    StateHandle::new(state, StateAnswered::of(status))
}

/// Gives a state up. Its handle has none then, and is as good as room.
pub fn drop_state(handle: &mut StateHandle)
    ensures gives_up { GivesUp handle.old handle.new }
{
    handle.own = None;
}
