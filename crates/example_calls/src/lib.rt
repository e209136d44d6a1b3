//! What two sessions of a store were answered, and in which order, by the contracts of the crate `store` alone: one list of operations explains
//! their calls, whatever else they did. The first session waits for its answers, and the second one polls. Each call says what it adds to the
//! calls and answers of its session (`adds`), and `close` that one list explains those of all (`linear`). And `stand` says it while the store is open:
//! so who calls by one session when another has returned knows which came first (`update_in_turn`).
#![tactic(auto)]

ghost use Rattle.std.specs.Prelude.{◌≡◌, ◌<◌, ◌≤◌, [], ◌∷◌, IfSome, None, Some, vec_capacity};
ghost use Rattle.store.specs.Explained.{ClosesExplained};
ghost use Rattle.store.specs.Linear.{Adds, AddsAnswer};
ghost use Rattle.store.specs.Opening.{last_state};
ghost use Rattle.store.specs.Sessions.{IsOf, SessionGoesOn};
ghost use Rattle.store_steps.specs.Shelving.{sessions_of};
ghost use Rattle.store_steps.specs.Views.{op_of};
ghost use Rattle.accounts.specs.Accounts.{IsWellFormed};
ghost use Rattle.accounts.specs.declared.sessions.Pending.{Pending};
ghost use Rattle.replica.specs.StoreMeaning.{store_meaning};
ghost use Rattle.example_calls.specs.Heard.{AllAreExplained, HasRead, HasUpdated, HasUpdatedTwice, call_and_back, two_calls, two_of};

mod heard;
mod in_turn;

pub use heard::{Heard, Programs};
pub use in_turn::update_in_turn;
use std::alloc::Global;
use std::sync::Wait;
use store::{Answer, Catalogue, Closed, Config, Polled, ReadAnswer, Session, Store, StoreRefused};

/// A store of one node, with a session for each of its two slots.
pub const CONFIG: Config = Config {
    nodes: 1,
    slots: 2,
    window: 16,
    limit: 100,
    spare: 0,
};

// An update that is answered.
pub(crate) fn update<R: Wait>(
    rt: &R,
    store: &Store,
    session: &mut Session,
    program: u16,
    argument: &[u8],
) -> Option<Answer>
    requires own { IsOf store.now session.old }
    ensures session { SessionGoesOn store.now session.old session.new }
    ensures told { IfSome result (λ a. HasUpdated session.old session.new (op_of program argument.now) a) }
    ensures adds { IfSome result (λ a. Adds session.old session.new (call_and_back session.old.session (op_of program argument.now) a)) }
{
    session.invoke(rt, store, program, argument).ok()
}

// Two of them.
fn update_twice<R: Wait>(
    rt: &R,
    store: &Store,
    session: &mut Session,
    program: u16,
    argument: &[u8],
) -> Option<(Answer, Answer)>
    requires own { IsOf store.now session.old }
    ensures session { SessionGoesOn store.now session.old session.new }
    ensures told { IfSome result (λ t. HasUpdatedTwice session.old session.new (op_of program argument.now) t.0 t.1) }
    ensures adds { IfSome result (λ t. Adds session.old session.new (two_calls session.old.session (op_of program argument.now) t.0 t.1)) }
{
    let first = update(rt, store, session, program, argument)?;
    let second = update(rt, store, session, program, argument)?;
    Some((first, second))
}

// A read that is answered.
fn read<R: Wait>(
    rt: &R,
    store: &Store,
    session: &mut Session,
    program: u16,
    argument: &[u8],
) -> Option<ReadAnswer>
    requires own { IsOf store.now session.old }
    ensures session { SessionGoesOn store.now session.old session.new }
    ensures told { IfSome result (λ a. HasRead session.old session.new (op_of program argument.now) a) }
{
    session.read(rt, store, program, argument).ok()
}

// Polls an update until it is answered.
fn finish<R: Wait>(rt: &R, store: &Store, polled: &mut Polled) -> Result<Answer, StoreRefused>
    requires own { IsOf store.now polled.old }
    requires well { IsWellFormed store_meaning polled.old.progress }
    requires asked { (o : Pending) × (polled.old.note.pending ≡ Some o) }
    ensures session { SessionGoesOn store.now polled.old polled.new }
    ensures rests { polled.new.note.pending ≡ None }
    ensures adds { AddsAnswer polled.old polled.new (Some result) }
{
    for _ in rt.forever() {
        if let Some(told) = polled.try_complete(store) {
            return told;
        }
    }
    unreachable!()
}

// An update that is posted, and polled until it is answered.
fn poll<R: Wait>(
    rt: &R,
    store: &Store,
    polled: &mut Polled,
    program: u16,
    argument: &[u8],
) -> Option<Answer>
    requires own { IsOf store.now polled.old }
    requires idle { polled.old.note.pending ≡ None }
    ensures session { SessionGoesOn store.now polled.old polled.new }
    ensures rests { polled.new.note.pending ≡ None }
    ensures adds { IfSome result (λ a. Adds polled.old polled.new (call_and_back polled.old.session (op_of program argument.now) a)) }
{
    match polled.try_post(store, program, argument) {
        Ok(Some(())) => finish(rt, store, polled).ok(),
        _ => None,
    }
}

// Ends the store, to which both sessions come back.
fn close(store: Store, mut sessions: Vec<Session>, waiting: Session, polls: Polled) -> Closed
    requires own { IsOf store waiting × IsOf store polls }
    requires idle { polls.note.pending ≡ None }
    requires two { sessions_of store.config ≡ 2 }
    requires room { (sessions.items ≡ []) × (2 ≤ vec_capacity sessions) }
    ensures explained { ClosesExplained store (waiting ∷ polls ∷ []) result }
{
    sessions.push_reserved(waiting);
    sessions.push_reserved(polls.into_session());
    match store.close(sessions) {
        Ok(closed) => closed,
        Err(_) => unreachable!(),
    }
}

/// Opens a store, lets its first session run an update twice and then a read, and its second one the update once, and closes the store. Gives their
/// answers, or nothing if there is no memory, or a call is refused. One list of operations explains all four, and the read has seen both updates of
/// its session.
///
/// # Examples
///
/// ```
/// use example_calls::{Programs, answers_of_two};
/// use store::load_manifest;
///
/// let manifest = "map array 8 16\nprogram five update 0 five.hex\nprogram look read 0 five.hex\n";
/// let files = [("five.hex", "b7000000050000009500000000000000")]; // a program that replies 5
/// let catalogue = load_manifest(rt.alloc(), manifest, &files)?;
///
/// let programs = Programs { update: 0, read: 1 };
/// let Some((heard, seen, closed)) = answers_of_two(&rt, rt.alloc(), catalogue, programs, &[]) else { unreachable!() };
/// assert_eq!(rt; [heard.first.index, heard.second.index, heard.polled.index], [0, 1, 2]);
/// assert_eq!(rt; (seen.point, seen.reply), (2, 5));
/// assert_eq!(rt; closed.log().tail(), 3);
/// ```
pub fn answers_of_two<R: Wait>(
    rt: &R,
    alloc: Global,
    catalogue: Catalogue,
    programs: Programs,
    argument: &[u8],
) -> Option<(Heard, ReadAnswer, Closed)>
    ensures explained { IfSome result (λ t. AllAreExplained (two_of catalogue) programs argument.now t.0 t.1 (last_state t.2)) }
    ensures sees { IfSome result (λ t. t.0.second.index < t.1.point) }
{
    let (store, mut sessions) = Store::open(alloc, CONFIG, catalogue).ok()?;
    let Some(other) = sessions.pop() else {
        unreachable!()
    };
    let Some(mut session) = sessions.pop() else {
        unreachable!()
    };
    let mut polled = Polled::new(other);
    let told = update_twice(rt, &store, &mut session, programs.update, argument);
    let look = read(rt, &store, &mut session, programs.read, argument);
    let answer = poll(rt, &store, &mut polled, programs.update, argument);
    let closed = close(store, sessions, session, polled);
    let ((first, second), seen, polled) = (told?, look?, answer?);
    let heard = Heard {
        first,
        second,
        polled,
    };
    Some((heard, seen, closed))
}
