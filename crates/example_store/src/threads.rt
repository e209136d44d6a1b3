//! Four threads count in one store of two nodes, ten thousand times each. Then the history that they made together is checked, and the
//! store is closed.

ghost use Rattle.std.specs.Prelude.{◌≡◌, ◌<◌, length, All, IfSome};
ghost use Rattle.store.specs.Sessions.{IsOf};
ghost use Rattle.store_steps.specs.Shelving.{sessions_of};

use crate::common::{FILES, KEY, MANIFEST, print_read};
use std::alloc::Global;
use std::sync::Wait;
use std::sync::atomic::{AtomicU64, Ordering};
use std::thread::Threads;
use std::{io, thread};
use store::{
    Answer, Catalogue, Closed, Config, ReadAnswer, Session, Store, StoreRefused, load_manifest,
};

// How often each thread counts.
const TIMES: u64 = 10_000;

// Two nodes of two slots: a replica of the maps for each node, and a session for each slot.
const SIZES: Config = Config {
    nodes: 2,
    slots: 2,
    window: 64,
    limit: 1_000_000,
    spare: 0,
};

// The programs of the store, by their numbers in the catalogue.
#[derive(Clone, Copy)]
struct Programs {
    bump: u16,
    peek: u16,
}

// Whether an update has just the reply that its place asks for: the first one 1, the next one 2, and so on, whoever made them.
fn is_right(told: Result<Answer, StoreRefused>) -> bool {
    match told {
        Ok(answer) => answer.reply.checked_sub(1) == Some(answer.index),
        Err(_) => false,
    }
}

// Counts, and adds up how many updates were answered right.
fn count<R: Wait>(
    rt: &R,
    store: &Store,
    session: &mut Session,
    programs: Programs,
    right: &AtomicU64,
)
    requires own { IsOf store.now session.old }
    ensures own { IsOf store.now session.new }
{
    for _ in 0..TIMES {
        if is_right(session.invoke(rt, store, programs.bump, &KEY)) {
            right.fetch_add(1, Ordering::SeqCst);
        }
    }
}

// Lets each session count on a thread of its own. How many updates were answered right.
fn count_together<R: Threads + Wait + Sync>(
    rt: &R,
    store: &Store,
    sessions: &mut Vec<Session>,
    programs: Programs,
) -> u64
    requires own { All (IsOf store.now) sessions.old.items }
    ensures own { All (IsOf store.now) sessions.new.items }
    ensures count { length sessions.new.items ≡ length sessions.old.items }
{
    let right = AtomicU64::new(0);
    thread::for_each_mut(
        rt,
        sessions,
        4,
        &|_number: usize, session: &mut Session|
            requires { IsOf store.now session.now }
            ensures { IsOf store.entry.now session.exit.now }
        { count(rt, store, session, programs, &right) },
    );
    right.load(Ordering::SeqCst)
}

// What one of the sessions reads.
fn read_once<R: Wait>(
    rt: &R,
    store: &Store,
    sessions: &mut Vec<Session>,
    programs: Programs,
) -> Result<ReadAnswer, StoreRefused>
    requires own { All (IsOf store.now) sessions.old.items }
    requires some { 0 < length sessions.old.items }
    ensures own { All (IsOf store.now) sessions.new.items }
    ensures count { length sessions.new.items ≡ length sessions.old.items }
{
    let Some(mut session) = sessions.pop() else {
        unreachable!()
    };
    let seen = session.read(rt, store, programs.peek, &KEY);
    sessions.push_reserved(session);
    seen
}

// A store, and a session for each slot of each of its nodes.
fn open(alloc: Global, catalogue: Catalogue) -> Option<(Store, Vec<Session>)>
    ensures sessions { IfSome result (λ t. All (IsOf t.0) t.1.items × (length t.1.items ≡ sessions_of t.0.config) × (0 < length t.1.items)) }
{
    Store::open(alloc, SIZES, catalogue).ok()
}

// Ends the store. It takes all its sessions back, and gives what they made: the log, and each node's replica.
fn close(store: Store, sessions: Vec<Session>) -> Closed
    requires sessions { All (IsOf store) sessions.items × (length sessions.items ≡ sessions_of store.config) }
{
    match store.close(sessions) {
        Ok(closed) => closed,
        Err(_) => unreachable!(),
    }
}

// What is known in the end: how many updates were answered right, what a read then sees, and how many updates the log has.
#[derive(Drop)]
struct Totals {
    right: u64,
    seen: Result<ReadAnswer, StoreRefused>,
    updates: u64,
}

// The whole life of the store.
fn counted<R: Threads + Wait + Sync>(rt: &R, alloc: Global) -> Option<Totals> {
    // 1. The catalogue, and the numbers of its programs.
    let catalogue = load_manifest(alloc, MANIFEST, &FILES).ok()?;
    let programs = Programs {
        bump: catalogue.number("bump")?,
        peek: catalogue.number("peek")?,
    };
    // 2. The store and its sessions, which all threads share and each thread has one of.
    let (store, mut sessions) = open(alloc, catalogue)?;
    let right = count_together(rt, &store, &mut sessions, programs);
    // 3. All threads are done: a read now sees all that they did, at whichever node.
    let seen = read_once(rt, &store, &mut sessions, programs);
    // 4. The end. The compiler sees that no session is lost.
    let closed = close(store, sessions);
    Some(Totals {
        right,
        seen,
        updates: closed.log().tail(),
    })
}

/// Writes how many updates were answered right, what a read then sees, and how many updates the log has.
pub fn tell<R: Print + Threads + Wait + Sync>(rt: &R, alloc: Global) -> io::Result<()> {
    let Some(told) = counted(rt, alloc) else {
        return println!(rt; "the store can't be opened");
    };
    println!(rt; "{} updates replied what their places ask for", told.right)?;
    print_read(rt, told.seen)?;
    println!(rt; "the log has {} updates", told.updates)
}
