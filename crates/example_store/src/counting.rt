//! A counter in a store: load programs, open a store, update and read through its session, and close it.

ghost use Rattle.store.specs.Sessions.{IsOf};

use crate::common::{FILES, KEY, MANIFEST, close, print_read, print_update};
use std::alloc::Global;
use std::io;
use std::sync::Wait;
use store::{
    Answer, Catalogue, ENDLESS, ReadAnswer, Session, Sizes, Store, StoreRefused, load_manifest,
};

// The answers that the store's session gets, call by call.
#[derive(Drop)]
struct Answers {
    first: Result<Answer, StoreRefused>,
    second: Result<Answer, StoreRefused>,
    seen: Result<ReadAnswer, StoreRefused>,
    short: Result<Answer, StoreRefused>,
}

// The manifest's maps and programs. Each program is verified here, so no call can get stuck later.
fn catalogue(alloc: Global) -> Option<Catalogue> {
    load_manifest(alloc, MANIFEST, &FILES).ok()
}

// Counts twice and reads; then calls with an argument that is too short, which changes nothing.
fn count<R: Wait>(rt: &R, store: &Store, session: &mut Session, bump: u16, peek: u16) -> Answers
    requires own { IsOf store.now session.old }
    ensures own { IsOf store.now session.new }
{
    let first = session.invoke(rt, store, bump, &KEY);
    let second = session.invoke(rt, store, bump, &KEY);
    let seen = session.read(rt, store, peek, &KEY);
    let short = session.invoke(rt, store, bump, &[7]);
    Answers {
        first,
        second,
        seen,
        short,
    }
}

// The whole life of a store: the answers that its session got, and how many updates its log has in the end.
fn counted<R: Wait>(rt: &R, alloc: Global) -> Option<(Answers, u64)> {
    // 1. The catalogue, and the numbers of its programs.
    let catalogue = catalogue(alloc)?;
    let bump = catalogue.number("bump")?;
    let peek = catalogue.number("peek")?;
    // 2. The store, without an end, and a session for each slot of each node: here one.
    let sizes = Sizes {
        nodes: 1,
        slots: 1,
        window: 16,
        limit: ENDLESS,
        spare: 0,
        long: 0,
    };
    let (store, mut sessions) = Store::open_sized(alloc, sizes, catalogue).ok()?;
    let Some(mut session) = sessions.pop() else {
        unreachable!()
    };
    // 3. The calls. Each is given the store; a session may move to a thread of its own.
    let told = count(rt, &store, &mut session, bump, peek);
    // 4. The end. A session has no destructor: it is spent here, and the compiler sees that none is lost.
    let closed = close(store, session, sessions);
    Some((told, closed.log().tail()))
}

/// Writes what the session was told, and how many updates the log has.
pub fn tell<R: Print + Wait>(rt: &R, alloc: Global) -> io::Result<()> {
    let Some((told, updates)) = counted(rt, alloc) else {
        return println!(rt; "the store can't be opened");
    };
    for answer in [told.first, told.second, told.short] {
        print_update(rt, answer)?;
    }
    print_read(rt, told.seen)?;
    println!(rt; "the log has {updates} updates")
}
