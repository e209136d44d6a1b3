// Calls of two sessions, one after the other.

ghost use Rattle.std.specs.Prelude.{◌<◌, IfSome};
ghost use Rattle.store_steps.specs.Views.{op_of};
ghost use Rattle.store.specs.Linear.{Adds};
ghost use Rattle.store.specs.Sessions.{IsOf};
ghost use Rattle.example_calls.specs.Heard.{call_and_back};

use crate::update;
use std::sync::Wait;
use store::{Answer, Session, Store, calls_in_order};

/// Lets one session make an update, and then another one the same. The second has the later index, by the contracts alone, whatever other sessions do
/// meanwhile. Gives what both were answered, or nothing if one is refused, and the sessions.
///
/// # Examples
///
/// ```
/// use example_calls::{CONFIG, update_in_turn};
/// use store::{Store, load_manifest};
///
/// let manifest = "map array 8 16\nprogram five update 0 five.hex\n";
/// let files = [("five.hex", "b7000000050000009500000000000000")]; // a program that replies 5
/// let catalogue = load_manifest(rt.alloc(), manifest, &files)?;
/// let (store, mut sessions) = Store::open(rt.alloc(), CONFIG, catalogue)?;
///
/// let two = (sessions.remove(0), sessions.remove(0));
/// let (told, one, other) = update_in_turn(&rt, &store, two, 0, &[]);
/// sessions.push_reserved(one);
/// sessions.push_reserved(other);
/// let _closed = match store.close(sessions) { Ok(closed) => closed, Err(_) => unreachable!() };
/// let Some((first, second)) = told else { unreachable!() };
/// assert_eq!(rt; (first.index, second.index), (0, 1));
/// ```
pub fn update_in_turn<R: Wait>(
    rt: &R,
    store: &Store,
    sessions: (Session, Session),
    program: u16,
    argument: &[u8],
) -> (Option<(Answer, Answer)>, Session, Session)
    requires own { IsOf store.now sessions.0 × IsOf store.now sessions.1 }
    ensures own { IsOf store.now result.1 × IsOf store.now result.2 }
    ensures first { IfSome result.0 (λ told. Adds sessions.0 result.1 (call_and_back sessions.0.session (op_of program argument.now) told.0)) }
    ensures second { IfSome result.0 (λ told. Adds sessions.1 result.2 (call_and_back sessions.1.session (op_of program argument.now) told.1)) }
    ensures in_order { IfSome result.0 (λ told. told.0.index < told.1.index) }
{
    calls_in_order();
    let (mut one, other) = sessions;
    let Some(first) = update(rt, store, &mut one, program, argument) else {
        return (None, one, other);
    };
    let (one, mut other) = store.stand(one, other);
    let Some(second) = update(rt, store, &mut other, program, argument) else {
        return (None, one, other);
    };
    let (one, other) = store.stand(one, other);
    (Some((first, second)), one, other)
}
