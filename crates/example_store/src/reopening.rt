//! A store whose history is full goes on: it is closed, and a store is opened on the state that it ends in.

ghost use Rattle.std.specs.Prelude.{◌≡◌};
ghost use Rattle.store.specs.Sessions.{IsOf};

use crate::common::{FILES, KEY, MANIFEST, close, print_read, print_update};
use std::alloc::Global;
use std::io;
use std::sync::Wait;
use store::{
    Answer, Catalogue, Closed, Config, Mode, ReadAnswer, Session, Store, StoreRefused,
    load_manifest,
};

// The bytes of a program without an argument that replies 5.
const FIVE: [u8; 16] = [0xb7, 0, 0, 0, 5, 0, 0, 0, 0x95, 0, 0, 0, 0, 0, 0, 0];

// The number of the first program that is installed: it stands behind the manifest's two.
const INSTALLED: u16 = 2;

// The numbers of the manifest's programs.
#[derive(Clone, Copy)]
struct Programs {
    bump: u16,
    peek: u16,
}

// What a session is told that reads, and counts twice.
#[derive(Drop)]
struct Counted {
    seen: Result<ReadAnswer, StoreRefused>,
    first: Result<Answer, StoreRefused>,
    second: Result<Answer, StoreRefused>,
}

// The answers that the session of a store got.
#[derive(Drop)]
struct Answers {
    counted: Counted,
    last: Result<Answer, StoreRefused>,
}

// A store of one session, whose history has three operations at most.
fn config() -> Config
    ensures { (result.nodes ≡ 1) × (result.slots ≡ 1) }
{
    Config {
        nodes: 1,
        slots: 1,
        window: 16,
        limit: 3,
        spare: 1,
    }
}

// Reads, and counts twice.
fn count<R: Wait>(rt: &R, store: &Store, session: &mut Session, programs: Programs) -> Counted
    requires own { IsOf store.now session.old }
    ensures own { IsOf store.now session.new }
{
    let Programs { bump, peek } = programs;
    let seen = session.read(rt, store, peek, &KEY);
    let first = session.invoke(rt, store, bump, &KEY);
    let second = session.invoke(rt, store, bump, &KEY);
    Counted {
        seen,
        first,
        second,
    }
}

// A store with its only session: reads, counts twice, installs a program, and closes the store.
fn run_first<R: Wait>(
    rt: &R,
    alloc: Global,
    catalogue: Catalogue,
    programs: Programs,
) -> Option<(Answers, Closed)> {
    let (store, mut sessions) = Store::open(alloc, config(), catalogue).ok()?;
    let Some(mut session) = sessions.pop() else {
        unreachable!()
    };
    let counted = count(rt, &store, &mut session, programs);
    let last = session.install(rt, &store, Mode::Update, 0, &FIVE);
    Some((Answers { counted, last }, close(store, session, sessions)))
}

// A store on the state that another ended in, with its catalogue, which isn't loaded and verified again: reads, counts twice, and
// calls the program that was installed.
fn run_second<R: Wait>(
    rt: &R,
    alloc: Global,
    ended: Closed,
    programs: Programs,
) -> Option<Answers> {
    let (state, catalogue) = ended.into_state();
    let (store, mut sessions) = Store::open_on(alloc, config(), catalogue, &state).ok()?;
    let Some(mut session) = sessions.pop() else {
        unreachable!()
    };
    let counted = count(rt, &store, &mut session, programs);
    let last = session.invoke(rt, &store, INSTALLED, &[]);
    let _closed = close(store, session, sessions);
    Some(Answers { counted, last })
}

// Two stores, the second on the state that the first ends in: the answers that the session of each got.
fn answers_of_two<R: Wait>(rt: &R, alloc: Global) -> Option<[Answers; 2]> {
    let catalogue = load_manifest(alloc, MANIFEST, &FILES).ok()?;
    let programs = Programs {
        bump: catalogue.number("bump")?,
        peek: catalogue.number("peek")?,
    };
    let (first, ended) = run_first(rt, alloc, catalogue, programs)?;
    Some([first, run_second(rt, alloc, ended, programs)?])
}

/// Writes what the session of each store was told.
pub fn tell<R: Print + Wait>(rt: &R, alloc: Global) -> io::Result<()> {
    let Some(stores) = answers_of_two(rt, alloc) else {
        return println!(rt; "the store can't be opened");
    };
    for told in stores {
        print_read(rt, told.counted.seen)?;
        print_update(rt, told.counted.first)?;
        print_update(rt, told.counted.second)?;
        print_update(rt, told.last)?;
    }
    Ok(())
}
